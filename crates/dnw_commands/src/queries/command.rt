//! What the words after `dnw query` ask for.

use crate::base::{Given, Known, Misuse, Refusal, Sink, word_octets};
use crate::queries::written::{Asked, digits, query};
use dns_names_wire::dns_class::DNSClass;
use dns_names_wire::field_text::parse_u16;
use dns_names_wire::name::Name;
use dns_names_wire::record_type::RecordType;
use std::alloc::Global;
use std::random::RandomSource;

/// The octets of an option of EDNS before its own: its code and their number (RFC 6891, section 6.1.2).
const OPTION_FRONT: usize = 4;

/// The most octets that the options of a query have here, so that it fits into any message.
const MAX_OPTIONS: usize = 32_768;

/// The options of the command.
const OPTIONS: [Known; 5] = [
    Known::Valued("--id", "NUMBER"),
    Known::Flag("--edns"),
    Known::Flag("--dnssec"),
    Known::Repeated("--option", "CODE:HEX"),
    Known::Flag("--tcp"),
];

/// Shows the query that the words ask for, in hexadecimal digits.
pub(crate) fn query_of<E: RandomSource, O: Sink>(
    env: &E,
    alloc: Global,
    words: &[String],
    out: &mut O,
) -> Result<(), Refusal> {
    let given = Given::of(alloc, words, &OPTIONS)?;
    let asked = asked_of(env, alloc, &given)?;
    let message = query(alloc, &asked)?;
    out.put_line(digits(alloc, message.as_slice(), given.has("--tcp"))?.as_str())
}

/// What the words ask for: a name, a type and maybe a class, and the options.
fn asked_of<E: RandomSource>(env: &E, alloc: Global, given: &Given<'_>) -> Result<Asked, Refusal> {
    let (name, record_type, class) = match given.plain.as_slice() {
        [name, record_type] => (*name, *record_type, "IN"),
        [name, record_type, class] => (*name, *record_type, *class),
        _ => return Err(given.wrong_count(alloc, &["NAME", "TYPE", "CLASS"])),
    };
    let dnssec_ok = given.has("--dnssec");
    let record_type = type_of(alloc, record_type)?;
    let class = class_of(alloc, class)?;
    Ok(Asked {
        id: id_of(env, alloc, given)?,
        name: Name::from_text(alloc, name, None)?,
        record_type,
        class,
        has_edns: given.has("--edns") || dnssec_ok || given.has("--option"),
        dnssec_ok,
        options: options_of(alloc, given)?,
    })
}

/// The record type that a word is.
fn type_of(alloc: Global, word: &str) -> Result<RecordType, Refusal> {
    match RecordType::from_text(word) {
        Some(record_type) => Ok(record_type),
        None => Err(Misuse::wrong(alloc, "a record type", word)),
    }
}

/// The class that a word is.
fn class_of(alloc: Global, word: &str) -> Result<DNSClass, Refusal> {
    match DNSClass::from_text(word) {
        Some(class) => Ok(class),
        None => Err(Misuse::wrong(alloc, "a class", word)),
    }
}

/// The id that is given, or one that cannot be guessed (RFC 5452, section 9.2).
fn id_of<E: RandomSource>(env: &E, alloc: Global, given: &Given<'_>) -> Result<u16, Refusal> {
    if let Some(id) = given.value("--id") {
        return number(alloc, id);
    }
    let mut octets = [0; 2];
    match env.fill_bytes(&mut octets) {
        Ok(()) => Ok(u16::from_be_bytes(octets)),
        Err(error) => Err(Refusal::Chance(error)),
    }
}

/// The octets of the options of EDNS.
fn options_of(alloc: Global, given: &Given<'_>) -> Result<Vec<u8>, Refusal> {
    let mut options = Vec::new(alloc);
    for (option, value) in &given.options {
        if *option == "--option" {
            push_option(alloc, value, &mut options)?;
        }
    }
    Ok(options)
}

/// Appends an option of EDNS, which is given as its code and its octets.
fn push_option(alloc: Global, value: &str, options: &mut Vec<u8>) -> Result<(), Refusal> {
    let (code, digits) = value.split_once(':').unwrap_or((value, ""));
    let code = number(alloc, code)?;
    let octets = word_octets(alloc, digits)?;
    let room = MAX_OPTIONS
        .saturating_sub(options.len())
        .saturating_sub(OPTION_FRONT);
    match u16::try_from(octets.len()) {
        Ok(len) if usize::from(len) <= room => put_option(code, len, octets.as_slice(), options),
        _ => Err(Refusal::Options),
    }
}

/// Appends an option of EDNS, by its code, how many octets it has, and these.
fn put_option(code: u16, len: u16, octets: &[u8], options: &mut Vec<u8>) -> Result<(), Refusal> {
    options.extend_from_slice(&code.to_be_bytes())?;
    options.extend_from_slice(&len.to_be_bytes())?;
    options.extend_from_slice(octets)?;
    Ok(())
}

/// The number that a word is.
fn number(alloc: Global, word: &str) -> Result<u16, Refusal> {
    let Ok(number) = parse_u16(word) else {
        return Err(Misuse::wrong(alloc, "a number of at most 65535", word));
    };
    Ok(number)
}
