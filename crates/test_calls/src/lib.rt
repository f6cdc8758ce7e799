//! Tests of what only a caller's code can show: borrows that outlive what lent them, guards, closures with contracts of
//! their own, items of a caller's own type, whole messages, the callers in `crates/uses`, texts of fields, and calls that no
//! other test makes.
//!
//! Worked examples that a line can say are in `diff/rows`, which `crates/test_replay` runs.
#![tactic(auto)]

#[cfg(test)]
mod ample;
#[cfg(test)]
mod ample_growing;
#[cfg(test)]
mod ample_lists;
#[cfg(test)]
mod ample_messages;
#[cfg(test)]
mod ample_ordinary;
#[cfg(test)]
mod ample_texts;
#[cfg(test)]
mod ample_types;
#[cfg(test)]
mod borrowed;
#[cfg(test)]
mod callers;
#[cfg(test)]
mod closures;
#[cfg(test)]
mod conversions;
#[cfg(test)]
mod copies;
#[cfg(test)]
mod data_texts;
#[cfg(test)]
mod dnssec;
#[cfg(test)]
mod edns_options;
#[cfg(test)]
mod field_texts;
#[cfg(test)]
mod given_fields;
#[cfg(test)]
mod guards;
#[cfg(test)]
mod items;
#[cfg(test)]
mod message_lists;
#[cfg(test)]
mod message_writer;
mod messages;
#[cfg(test)]
mod name_tables;
#[cfg(test)]
mod name_texts;
#[cfg(test)]
mod nets;
#[cfg(test)]
mod rdata;
#[cfg(test)]
mod rows;
#[cfg(test)]
mod scripts;
#[cfg(test)]
mod sections;
#[cfg(test)]
mod signed;
#[cfg(test)]
mod sizes;
#[cfg(test)]
mod sort_keys;
#[cfg(test)]
mod values;
#[cfg(test)]
mod whole_messages;
#[cfg(test)]
mod written_messages;
#[cfg(test)]
mod zone_checks;
#[cfg(test)]
mod zones;
