//! Why words ask for nothing that the program does.

ghost use Rattle.dnw_commands.specs.Refusals.{SaysWrong};

use crate::base::plain::plain;
use crate::base::refusal::Refusal;
use std::alloc::Global;
use thiserror::Error;

/// Why words ask for nothing that the program does.
#[derive(Debug, Drop, Error)]
pub(crate) enum Misuse {
    /// There is no word.
    #[error("a command is missing: message, query, name, key-tag, ds, nsec3, zone-digest or zone")]
    NoCommand,
    /// The first word is no command.
    #[error("unknown command {0}")]
    Command(String),
    /// A word is not UTF-8.
    #[error("a word is not UTF-8")]
    NotText,
    /// The command has no such option.
    #[error("unknown option {0}")]
    Option(String),
    /// An option that may be there once is there twice.
    #[error("{0} is given twice")]
    Twice(&'static str),
    /// Two options ask for different things.
    #[error("{0} and {1} exclude each other")]
    Both(&'static str, &'static str),
    /// An option that takes no value has one.
    #[error("{0} takes no value")]
    Valued(&'static str),
    /// Nothing is after an option that takes a value.
    #[error("{option} wants a value: {value}")]
    NoValue {
        /// The option.
        option: &'static str,
        /// What its value is called.
        value: &'static str,
    },
    /// A word or an option that has to be there is not.
    #[error("{0} is missing")]
    Missing(&'static str),
    /// The command takes no further word.
    #[error("one word too many: {0}")]
    Extra(String),
    /// A word is not what its place asks for.
    #[error("wanted {wanted}, found {found}")]
    Wrong {
        /// What its place asks for.
        wanted: &'static str,
        /// The word.
        found: String,
    },
}

impl Misuse {
    /// Says that a word is not what its place asks for.
    pub(crate) fn wrong(alloc: Global, wanted: &'static str, found: &str) -> Refusal
        ensures { SaysWrong wanted.now found.now result }
    {
        match plain(alloc, found) {
            Ok(found) => Misuse::Wrong { wanted, found }.into(),
            Err(e) => e.into(),
        }
    }
}
