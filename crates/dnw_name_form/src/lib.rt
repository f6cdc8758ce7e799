//! Labels, their texts, and the wire form of names, without regard to whether a name is fully qualified.
//!
//! It stands on the base. Read `specs/LabelText.antt` first: the text of a label, both ways. `specs/Edits.antt` has names made of labels
//! and of other names.
#![tactic(auto)]

pub mod form;
pub mod fours;
pub mod label;
pub mod label_iter;
pub mod lengths;
pub mod lower;
pub mod octets;
pub mod wire_labels;
