//! The data of every record type from one table of fields, and reading by it; sets of record types, and types that can be read from
//! record data.
//!
//! It stands on names, also in lower case. Read `specs/Table.antt` first: which fields the data of each type have.
//! `specs/TypeSets.antt` has the windows of a set of types.
#![tactic(auto)]

pub mod field;
pub mod fields;
pub mod kind;
pub mod laws;
pub mod lists;
pub mod record_data;
pub mod record_type_set;
pub mod shapes;
pub mod signature;
pub mod table;
mod whole_name;
