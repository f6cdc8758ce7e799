//! The port's public surface, item by item, over the one crate that users see. Each item is named by its module and called with
//! its types written out, so what is renamed, or has another type, does not compile.
//!
//! These names and types are fixed. If a file here does not compile after a change, the change is wrong, and not the file.
//!
//! A file has what belongs to a module; `name_ref` and `reverse` are of `name` too, and `marks` is of `encoder`. `tools/test scope`
//! runs the tests, and nothing here is proved.
#![tactic(auto)]

#[cfg(test)]
mod binary;
#[cfg(test)]
mod bounds;
#[cfg(test)]
mod codes;
#[cfg(test)]
mod decoder;
#[cfg(test)]
mod encoder;
#[cfg(test)]
mod error;
#[cfg(test)]
mod label;
#[cfg(test)]
mod lower_name;
#[cfg(test)]
mod marks;
#[cfg(test)]
mod name;
#[cfg(test)]
mod name_ref;
#[cfg(test)]
mod net;
#[cfg(test)]
mod record;
#[cfg(test)]
mod restrict;
#[cfg(test)]
mod reverse;
#[cfg(test)]
mod rr_key;
#[cfg(test)]
mod script;
#[cfg(test)]
mod txt;
#[cfg(test)]
mod usage;
