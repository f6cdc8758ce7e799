//! What follows from the tables of types and classes, for callers' proofs.
//!
//! The functions do nothing: each exists for its clauses.
ghost use Rattle.dns_names_wire.specs.CodeLaws.{TypeCodesComeBack, NamedTypesComeBack, UnknownTypesComeBack, ClassCodesComeBack, NamedClassesComeBack, UnknownClassesComeBack, SizesStayUnknown};

/// Each code round-trips through its type, and each type that has a name through its code. `Unknown` round-trips exactly if no type
/// with a name has its code.
#[tactic(auto, using(crate::proofs::TypesBack::codes, crate::proofs::TypesBack::named, crate::proofs::TypesBack::unknown))]
pub fn types_come_back()
    ensures codes { TypeCodesComeBack }
    ensures named { NamedTypesComeBack }
    ensures unknown { UnknownTypesComeBack }
{}

/// Each code round-trips through its class, and each class that has a name through its code. `Unknown` round-trips exactly if no
/// class with a name has its code, and `OPT` never does.
#[tactic(auto, using(crate::proofs::ClassesBack::codes, crate::proofs::ClassesBack::named, crate::proofs::ClassesBack::unknown, crate::proofs::ClassesBack::sizes))]
pub fn classes_come_back()
    ensures codes { ClassCodesComeBack }
    ensures named { NamedClassesComeBack }
    ensures unknown { UnknownClassesComeBack }
    ensures sizes { SizesStayUnknown }
{}
