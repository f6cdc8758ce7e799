//! Names: their wire forms and sort keys, reverse names, and canonical order.
ghost use Rattle.std.specs.Prelude.{◌≡◌, [], ◌∷◌, ◌++◌, ◌⊎◌, List, ℕ, IfOk, IfErr, OnOk};
ghost use Rattle.std.specs.String.{string_bytes};
ghost use Rattle.dnw_commands.specs.Refusals.{IsMemory};
ghost use Rattle.dnw_commands.specs.Shown.{AreLines, FailsWord, FailsLines, IsLineOf, texts_of};

use crate::base::{Misuse, Refusal};
use dns_names_wire::name::Name;
use dns_names_wire::sort_key::MAX_SORT_KEY_LENGTH;
use std::alloc::Global;
use std::net::IpAddr;

/// What is shown for a word.
#[derive(Clone, Copy)]
pub(crate) enum Shown {
    /// The wire form of the name, in hexadecimal digits (RFC 1035, section 3.1).
    Wire,
    /// The octets that compare as names do in canonical order, in hexadecimal digits.
    Key,
    /// The name under which the PTR records of the address are (RFC 1035, section 3.5; RFC 3596, section 2.5).
    Reverse,
}

/// Returns a line for each word. It fails at the first word that is no name, or no address, or if an allocation fails.
pub(crate) fn lines(alloc: Global, shown: Shown, words: &[&str]) -> Result<String, Refusal>
    ensures ok { IfOk result (λ text. AreLines shown (texts_of words.now) (string_bytes text)) }
    ensures err { IfErr result (λ refusal. FailsLines shown (texts_of words.now) refusal ⊎ IsMemory refusal) }
{
    let mut text = String::new(alloc);
    push_lines(alloc, shown, words, &mut text)?;
    Ok(text)
}

/// Appends a line for each word to an empty text.
#[tactic(auto, using(crate::proofs::Lines::no_line, crate::proofs::Lines::one_line, crate::proofs::Lines::all_lines, crate::proofs::Lines::no_more))]
fn push_lines(alloc: Global, shown: Shown, words: &[&str], text: &mut String) -> Result<(), Refusal>
    requires { string_bytes text.old ≡ [] }
    ensures ok { OnOk result (AreLines shown (texts_of words.now) (string_bytes text.new)) }
    ensures err { IfErr result (λ refusal. FailsLines shown (texts_of words.now) refusal ⊎ IsMemory refusal) }
{
    'words: for word in words {
        push_line(alloc, shown, word, text)?;
    }
    Ok(())
}

/// Appends the line of a word, and a line feed.
fn push_line(alloc: Global, shown: Shown, word: &str, text: &mut String) -> Result<(), Refusal>
    ensures ok { OnOk result ((line : List ℕ) × IsLineOf shown word.now line × (string_bytes text.new ≡ string_bytes text.old ++ (line ++ 10 ∷ []))) }
    ensures err { IfErr result (λ refusal. FailsWord shown word.now refusal ⊎ IsMemory refusal) }
{
    text.push_str(line(alloc, shown, word)?.as_str())?;
    text.push('\n')?;
    Ok(())
}

/// Returns the line of a word.
pub(crate) fn line(alloc: Global, shown: Shown, word: &str) -> Result<String, Refusal>
    ensures ok { IfOk result (λ line. IsLineOf shown word.now (string_bytes line)) }
    ensures err { IfErr result (λ refusal. FailsWord shown word.now refusal ⊎ IsMemory refusal) }
{
    match shown {
        Shown::Wire => {
            let name = Name::from_text(alloc, word, None)?;
            Ok(hex::encode(alloc, name.as_wire())?)
        }
        Shown::Key => {
            let name = Name::from_text(alloc, word, None)?;
            let mut key = [0; MAX_SORT_KEY_LENGTH];
            Ok(hex::encode(alloc, name.sort_key(&mut key))?)
        }
        Shown::Reverse => {
            let Ok(address) = word.parse::<IpAddr>() else {
                return Err(Misuse::wrong(alloc, "an IPv4 or IPv6 address", word));
            };
            Ok(Name::from_ip(alloc, address)?.to_text(alloc)?)
        }
    }
}

/// A name in a list: its sort key, how many came before it, and its text.
type Keyed = (Vec<u8>, usize, String);

/// Returns the names that a text has in its lines, in canonical order (RFC 4034, section 6.1), a line each. Names that differ in case
/// alone stay in their order.
pub(crate) fn sorted(alloc: Global, given: &[u8]) -> Result<String, Refusal> {
    let given = String::from_utf8_lossy(alloc, given)?;
    let mut names = names_of(alloc, given.as_str())?;
    names.sort_unstable();
    joined(alloc, names.as_slice())
}

/// Returns the names that a text has in its lines.
fn names_of(alloc: Global, text: &str) -> Result<Vec<Keyed>, Refusal> {
    let mut names = Vec::new(alloc);
    for line in text.lines() {
        let word = line.trim();
        if !word.is_empty() {
            names.push(name_of(alloc, word, names.len())?)?;
        }
    }
    Ok(names)
}

/// Returns the name that a word is, after so many others.
fn name_of(alloc: Global, word: &str, number: usize) -> Result<Keyed, Refusal> {
    let name = Name::from_text(alloc, word, None)?;
    let mut key = [0; MAX_SORT_KEY_LENGTH];
    let key = Vec::from_slice(alloc, name.sort_key(&mut key))?;
    Ok((key, number, name.to_text(alloc)?))
}

/// Returns the texts of names, a line each.
fn joined(alloc: Global, names: &[Keyed]) -> Result<String, Refusal> {
    let mut text = String::new(alloc);
    for (_, _, name) in names {
        text.push_str(name.as_str())?;
        text.push('\n')?;
    }
    Ok(text)
}
