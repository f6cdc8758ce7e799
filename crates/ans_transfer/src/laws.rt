//! What follows from the definitions of transfers, for callers' proofs.
//!
//! The functions do nothing. Each is there for its clauses.
ghost use Rattle.ans_transfer.specs.Laws.{AllDoSomething, ChangesEnd, EndsAreChanges, EndsAreZones, SplitsDontMatter, StepsAreDone, ZonesAreAdded, ZonesEnd};

/// How the records are split into messages makes no difference.
pub fn splits_dont_matter()
    ensures { SplitsDontMatter }
{}

/// A transfer ends with a whole zone if and only if the records are one.
pub fn ends_are_zones()
    ensures zones { EndsAreZones }
    ensures end { ZonesEnd }
{}

/// A transfer ends with changes if and only if the records are the changes since the client's version.
pub fn ends_are_changes()
    ensures changes { EndsAreChanges }
    ensures end { ChangesEnd }
{}

/// Each record of a message does something. Those of a whole zone are added, and those of changes are deleted or added as their step says.
pub fn all_do_something()
    ensures all { AllDoSomething }
    ensures zones { ZonesAreAdded }
    ensures steps { StepsAreDone }
{}
