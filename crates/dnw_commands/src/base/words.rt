//! The words after a command: its options, in any order, and the others.
ghost use Rattle.std.specs.Prelude.{◌≤◌, length, IfOk};

use crate::base::misuse::Misuse;
use crate::base::plain::plain;
use crate::base::refusal::Refusal;
use std::alloc::Global;

/// An option that a command has: its word, with the hyphens, and what its value is called.
#[derive(Clone, Copy)]
pub(crate) enum Known {
    /// It takes no value, and is there at most once.
    Flag(&'static str),
    /// It takes a value, after `=` or as the next word, and is there at most once.
    Valued(&'static str, &'static str),
    /// It takes a value, and may be there often.
    Repeated(&'static str, &'static str),
}

impl Known {
    /// The word of the option.
    pub(crate) fn name(self) -> &'static str {
        match self {
            Known::Flag(name) | Known::Valued(name, _) | Known::Repeated(name, _) => name,
        }
    }
}

/// The words after a command, apart.
#[derive(Drop)]
pub(crate) struct Given<'w> {
    /// The words that are no options, in their order.
    pub(crate) plain: Vec<&'w str>,
    /// The options in their order, each with its value, which is empty if it takes none.
    pub(crate) options: Vec<(&'static str, &'w str)>,
}

impl<'w> Given<'w> {
    /// Takes the words apart. One that begins with two hyphens is an option, but after the word `--` none is.
    pub(crate) fn of(alloc: Global, words: &'w [String], known: &[Known]) -> Result<Self, Refusal> {
        let mut given = Given {
            plain: Vec::new(alloc),
            options: Vec::new(alloc),
        };
        let mut rest = words;
        while let [word, after @ ..] = rest {
            let word = word.as_str();
            if word == "--" {
                given.take_plain(after)?;
                break;
            }
            rest = if word.starts_with("--") {
                given.take_option(alloc, word, after, known)?
            } else {
                given.plain.push(word)?;
                after
            };
        }
        Ok(given)
    }

    /// Takes words of which none is an option.
    fn take_plain(&mut self, words: &'w [String]) -> Result<(), Refusal> {
        for word in words {
            self.plain.push(word.as_str())?;
        }
        Ok(())
    }

    /// Takes an option, with its value, and returns the words after them.
    fn take_option(
        &mut self,
        alloc: Global,
        word: &'w str,
        after: &'w [String],
        known: &[Known],
    ) -> Result<&'w [String], Refusal>
        ensures { IfOk result (λ rest. length rest.now ≤ length after.now) }
    {
        let (name, value) = match word.split_once('=') {
            Some((name, value)) => (name, Some(value)),
            None => (word, None),
        };
        let option = option_of(alloc, name, known)?;
        let (value, after) = match (option, value, after) {
            (Known::Flag(_), None, _) => ("", after),
            (Known::Flag(name), Some(_), _) => return Err(Misuse::Valued(name).into()),
            (_, Some(value), _) => (value, after),
            (_, None, [value, after @ ..]) => (value.as_str(), after),
            (Known::Valued(option, value) | Known::Repeated(option, value), None, []) => {
                return Err(Misuse::NoValue { option, value }.into());
            }
        };
        if let Known::Flag(name) | Known::Valued(name, _) = option
            && self.has(name)
        {
            return Err(Misuse::Twice(name).into());
        }
        self.options.push((option.name(), value))?;
        Ok(after)
    }

    /// Whether an option is there.
    pub(crate) fn has(&self, name: &str) -> bool {
        self.value(name).is_some()
    }

    /// The value of an option that is there, of the first one if there are many.
    pub(crate) fn value(&self, name: &str) -> Option<&'w str> {
        for (option, value) in &self.options {
            if *option == name {
                return Some(*value);
            }
        }
        None
    }

    /// The values of an option that may be there often, in their order.
    pub(crate) fn values(&self, alloc: Global, name: &str) -> Result<Vec<&'w str>, Refusal> {
        let mut values = Vec::new(alloc);
        for (option, value) in &self.options {
            if *option == name {
                values.push(*value)?;
            }
        }
        Ok(values)
    }

    /// The one option of these that is there, if any is. It fails if two are.
    pub(crate) fn one_of(&self, names: &[&'static str]) -> Result<Option<&'static str>, Refusal> {
        let mut found = None;
        for name in names {
            match found {
                _ if !self.has(name) => {}
                None => found = Some(*name),
                Some(other) => return Err(Misuse::Both(other, *name).into()),
            }
        }
        Ok(found)
    }

    /// The words that are no options, at least one. It fails if there is none, with what it has to be.
    pub(crate) fn some(&self, name: &'static str) -> Result<&[&'w str], Refusal> {
        if self.plain.is_empty() {
            return Err(Misuse::Missing(name).into());
        }
        Ok(self.plain.as_slice())
    }

    /// Why the words that are no options are too few or too many, if these are what they have to be.
    pub(crate) fn wrong_count(&self, alloc: Global, names: &[&'static str]) -> Refusal {
        if let Some(name) = names.get(self.plain.len()) {
            return Misuse::Missing(*name).into();
        }
        let extra = self.plain.get(names.len()).copied().unwrap_or_default();
        match plain(alloc, extra) {
            Ok(extra) => Misuse::Extra(extra).into(),
            Err(e) => e.into(),
        }
    }
}

/// The option of this name.
fn option_of(alloc: Global, name: &str, known: &[Known]) -> Result<Known, Refusal> {
    for option in known {
        if option.name() == name {
            return Ok(*option);
        }
    }
    Err(Misuse::Option(plain(alloc, name)?).into())
}
