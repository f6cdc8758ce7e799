//! Keys (RFC 9460, section 14.3.2; RFC 9461, section 5; RFC 9540, section 4).
ghost use Rattle.std.specs.Prelude.{◌≡◌, ℕ, Some, MatchOption};
ghost use Rattle.dnw_zone_values.specs.ParamKeys.{form_of, key_text, named_form, named_key, IsGenericKey, IsKey};

use crate::number::parse_u16;
use itoa::Buffer;
use std::fmt;

/// The form of the values of a key (RFC 9460, sections 7 and 8).
#[derive(Clone, Copy, Debug, PartialEq, Eq)]
pub(crate) enum Form {
    /// A list of keys: `mandatory`.
    Mandatory,
    /// A list of identifiers of protocols: `alpn`.
    Protocols,
    /// No value: `no-default-alpn` and `ohttp`.
    Nothing,
    /// A number of two octets: `port`.
    Port,
    /// A list of IPv4 addresses: `ipv4hint`.
    Ipv4,
    /// Octets in base 64: `ech`.
    Ech,
    /// A list of IPv6 addresses: `ipv6hint`.
    Ipv6,
    /// A template of a URI, in UTF-8: `dohpath`.
    Template,
    /// Any octets: a key that is printed by its number.
    Any,
}

/// Returns the form in which the values of a key are printed.
pub(crate) fn form_of(key: u16) -> Form
    ensures { result ≡ form_of key }
{
    match key {
        0 => Form::Mandatory,
        1 => Form::Protocols,
        2 => Form::Nothing,
        3 => Form::Port,
        4 => Form::Ipv4,
        5 => Form::Ech,
        6 => Form::Ipv6,
        _ => Form::Any,
    }
}

/// Returns the form of a value after the name of its key.
pub(crate) fn named_form(key: u16) -> Form
    ensures { result ≡ named_form key }
{
    match key {
        7 => Form::Template,
        8 => Form::Nothing,
        _ => form_of(key),
    }
}

/// A key as text: its name, or `key` and its number.
#[derive(Clone, Copy)]
pub(crate) struct Key(pub(crate) u16);

impl fmt::Display for Key {
    ghost output = { λ key. Some (key_text key.0) };

    fn fmt<W: fmt::Write>(&self, f: &mut fmt::Formatter<W>) -> fmt::Result {
        match form_of(self.0) {
            Form::Mandatory => f.write_str("mandatory"),
            Form::Protocols => f.write_str("alpn"),
            Form::Nothing => f.write_str("no-default-alpn"),
            Form::Port => f.write_str("port"),
            Form::Ipv4 => f.write_str("ipv4hint"),
            Form::Ech => f.write_str("ech"),
            Form::Ipv6 => f.write_str("ipv6hint"),
            Form::Template | Form::Any => write!(f, "key{}", self.0),
        }
    }
}

/// Returns the key with a name.
pub(crate) fn named_key(text: &str) -> Option<u16>
    ensures { result ≡ named_key text.now }
{
    match text {
        "mandatory" => Some(0),
        "alpn" => Some(1),
        "no-default-alpn" => Some(2),
        "port" => Some(3),
        "ipv4hint" => Some(4),
        "ech" => Some(5),
        "ipv6hint" => Some(6),
        "dohpath" => Some(7),
        "ohttp" => Some(8),
        _ => None,
    }
}

/// Returns the key with a number, which has no zeros before it.
pub(crate) fn generic_key(text: &str) -> Option<u16>
    ensures { MatchOption result ((key : ℕ) → ¬ (IsGenericKey text.now key)) (IsGenericKey text.now) }
{
    let digits = text.strip_prefix("key")?;
    let Ok(key) = parse_u16(digits) else {
        return None;
    };
    if Buffer::new().format(key) == digits {
        Some(key)
    } else {
        None
    }
}

/// Returns the key that a text is, by its name or by its number.
pub(crate) fn key_of(text: &str) -> Option<u16>
    ensures { MatchOption result ((key : ℕ) → ¬ (IsKey text.now key)) (IsKey text.now) }
{
    if let Some(key) = generic_key(text) {
        return Some(key);
    }
    named_key(text)
}
