//! Arithmetic on numbers that are not verified.

use crate::notation::{BAD_LINE, number};
use dns_names_wire::error::ProtoResult;
use dns_names_wire::restrict::{Restrict, RestrictedMath};
use std::alloc::Global;
use std::fmt::Display;
use std::str::FromStr;

/// Returns the answer to a request: a type, a number of it, and operations.
pub(crate) fn answer(alloc: Global, words: &str) -> ProtoResult<String> {
    let (kind, words) = words.split_once(' ').ok_or(BAD_LINE)?;
    match kind {
        "u8" => calculated::<u8>(alloc, words),
        "u16" => calculated::<u16>(alloc, words),
        "usize" => calculated::<usize>(alloc, words),
        _ => Err(BAD_LINE),
    }
}

/// Applies the operations, one a word, to the number before them.
fn calculated<T: Copy + Drop + Display + FromStr>(alloc: Global, words: &str) -> ProtoResult<String>
where
    T::Err: Drop,
    Restrict<T>: RestrictedMath<Arg = T, Value = T>,
{
    let (first, operations) = words.split_once(' ').ok_or(BAD_LINE)?;
    let mut value: Result<Restrict<T>, T> = Ok(Restrict::new(number(first)?));
    for operation in operations.split(' ') {
        let (name, argument) = operation.split_once(':').ok_or(BAD_LINE)?;
        let argument = number(argument)?;
        value = match name {
            "add" => value.checked_add(argument),
            "sub" => value.checked_sub(argument),
            "mul" => value.checked_mul(argument),
            _ => return Err(BAD_LINE),
        };
    }
    Ok(match value {
        Ok(number) => format!(in alloc; "ok {}", number.unverified())?,
        Err(argument) => format!(in alloc; "err {argument}")?,
    })
}
