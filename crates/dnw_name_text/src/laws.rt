//! What is printed of a name is read as the same name.
//!
//! The function does nothing. It is there for its clauses.
ghost use Rattle.dnw_name_text.specs.NameTextLaws.{NamesComeBack, FullNamesComeBack};

/// Texts of names are read as the names that they were printed of.
pub fn names_come_back()
    ensures each { NamesComeBack }
    ensures full { FullNamesComeBack }
{}
