//! Names, owned and borrowed from a message, and what can be read from one.
//!
//! It stands on reading, order and reverse names. Read `specs/Decodable.antt` first: what is in a message as a name or
//! a number.
//!
//! A name that is read:
//!
//! ```text
//! BinDecoder { message, index }
//!     |  Name::read, NameRef::read                                  dnw_name
//!     v
//! walk -- walk_elements -- next_element -- element_at               dnw_name_read
//!     |                                      |-- label_at
//!     |                                      `-- pointer_at         each rule of RFC 1035, section 4.1.4, is tested here
//!     v
//! NameRef { message, first, size, labels, head, tail }              lends its labels: RefLabels::next
//!     |  Name::read goes on: copied                                 one copy: in one piece if no pointer follows
//!     |                       `-- gathered -- copy_name             the first label, in two if one does, else run by
//!     |                                         `-- copy_runs       run between pointers
//!     |  Name::read_into: clone_into                                the same, in the place of a name that is there
//!     v
//! Name { is_fqdn, form }
//! ```
//!
//! A `Name` is its flag and its wire form with the closing zero, in an inline array of 255 bytes, and a `Label` has 63 inline
//! bytes, so neither allocates. Contracts see a name as the flag and the list of its labels, a label as its bytes, and a
//! decoder as the message and an index.
#![tactic(auto)]

pub mod binary;
pub mod name;
pub mod name_ref;
mod sort_key;
