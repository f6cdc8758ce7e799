//! How the numbers in data of each type are written, and which octets may be left out.
ghost use Rattle.std.specs.Prelude.{◌≡◌, ◌≤◌, ℕ, false, length, IfNone, IfSome, MatchOption};
ghost use Rattle.std.specs.Char.{is_ascii_digit};
ghost use Rattle.std.specs.List.{list_all};
ghost use Rattle.dnw_base.specs.RecordTypes.{type_code};
ghost use Rattle.dnw_zone_values.specs.Numbers.{max_u8, max_u16, max_u32, IsNumberText};
ghost use Rattle.dnw_zone_data.specs.NumberForms.{ends_with_digit, first_form, is_one_of, is_whole, may_be_left_out, most_short, number_forms, other_forms, with_algorithm_second, with_algorithm_third, IsNumberIn, IsPeriod};
ghost use Rattle.dnw_zone_data.specs.Words.{after_word, is_end, word};

use dnw_base::record_type::RecordType;
use dnw_zone_lexer::ttl::ttl_seconds;
use dnw_zone_values::mnemonic::{
    algorithm_named, begins_with_digit, certificate_type_named, protocol_named, scheme_named,
};
use dnw_zone_values::number::number_up_to;

/// How a number is written, and octets up to the end. Each number is printed in decimal.
#[derive(Clone, Copy, Debug, PartialEq, Eq)]
pub enum NumberForm {
    /// In decimal.
    Decimal,
    /// As seconds, or with units: `2h`, `1w2d`.
    Period,
    /// As the number or the mnemonic of an algorithm of DNSSEC: `RSASHA256`.
    Algorithm,
    /// As the number or the mnemonic of a type of certificates: `PKIX`.
    CertificateType,
    /// As the number or the mnemonic of a scheme of DSYNC: `NOTIFY`.
    Scheme,
    /// As the number or the name of a protocol: `TCP`.
    Protocol,
    /// A number in decimal, or octets that may be left out.
    Optional,
}

/// The greatest number that is given one more digit.
const MOST_BEFORE_DIGIT: u32 = 429496728;

/// The forms of the first fields of a SOA record.
const SOA: &[NumberForm] = &[
    NumberForm::Decimal,
    NumberForm::Decimal,
    NumberForm::Decimal,
    NumberForm::Period,
    NumberForm::Period,
    NumberForm::Period,
    NumberForm::Period,
];

/// The forms of the first fields of a CERT record.
const CERT: &[NumberForm] = &[
    NumberForm::CertificateType,
    NumberForm::Decimal,
    NumberForm::Algorithm,
];

/// The forms of the fields of an IPSECKEY record.
const IPSECKEY: &[NumberForm] = &[
    NumberForm::Decimal,
    NumberForm::Decimal,
    NumberForm::Optional,
];

/// The forms of the first fields of a DSYNC record.
const DSYNC: &[NumberForm] = &[NumberForm::Decimal, NumberForm::Scheme];

/// The forms of the first fields of a WKS record.
const WKS: &[NumberForm] = &[NumberForm::Decimal, NumberForm::Protocol];

/// The forms of the first fields of a DS record and of those like it.
const SECOND: &[NumberForm] = &[NumberForm::Decimal, NumberForm::Algorithm];

/// The forms of the first fields of a DNSKEY record and of those like it.
const THIRD: &[NumberForm] = &[
    NumberForm::Decimal,
    NumberForm::Decimal,
    NumberForm::Algorithm,
];

/// Returns the forms of the numbers of the first fields of data of a type. Numbers of the fields after them are in decimal.
#[tactic(auto, unfolding(crate::specs::NumberForms::number_forms))]
pub(crate) fn number_forms(record_type: RecordType) -> &'static [NumberForm]
    ensures { result.now ≡ number_forms (type_code record_type) }
{
    match u16::from(record_type) {
        6 => SOA,
        11 => WKS,
        37 => CERT,
        45 => IPSECKEY,
        66 => DSYNC,
        24 | 43 | 46 | 59 | 32768 | 32769 => SECOND,
        25 | 48 | 57 | 60 => THIRD,
        _ => &[],
    }
}

/// Returns the form of the next field, and those of the fields after it.
pub(crate) fn next_form(forms: &[NumberForm]) -> (NumberForm, &[NumberForm])
    ensures first { result.0 ≡ first_form forms.now }
    ensures others { result.1.now ≡ other_forms forms.now }
{
    match forms {
        [form, others @ ..] => (*form, others),
        [] => (NumberForm::Decimal, forms),
    }
}

/// Returns `true` if octets in a form may be left out.
pub(crate) fn may_be_left_out(form: NumberForm) -> bool
    ensures { result ≡ may_be_left_out form }
{
    matches!(form, NumberForm::Optional)
}

/// Returns the number of one octet that a text is in a form.
pub(crate) fn u8_in(form: NumberForm, text: &[u8]) -> Option<u8>
    ensures { MatchOption result ((n : ℕ) → ¬ (IsNumberIn form max_u8 text.now n)) (IsNumberIn form max_u8 text.now) }
{
    let number = number_in(form, text, 255)?;
    Some(number as u8)
}

/// Returns the number of two octets that a text is in a form.
pub(crate) fn u16_in(form: NumberForm, text: &[u8]) -> Option<u16>
    ensures { MatchOption result ((n : ℕ) → ¬ (IsNumberIn form max_u16 text.now n)) (IsNumberIn form max_u16 text.now) }
{
    let number = number_in(form, text, 65535)?;
    Some(number as u16)
}

/// Returns the number of four octets that a text is in a form.
pub(crate) fn u32_in(form: NumberForm, text: &[u8]) -> Option<u32>
    ensures { MatchOption result ((n : ℕ) → ¬ (IsNumberIn form max_u32 text.now n)) (IsNumberIn form max_u32 text.now) }
{
    number_in(form, text, 4294967295)
}

/// Returns the number up to `max` that a text is in a form.
fn number_in(form: NumberForm, text: &[u8], max: u32) -> Option<u32>
    ensures is { MatchOption result ((n : ℕ) → ¬ (IsNumberIn form max text.now n)) (IsNumberIn form max text.now) }
    ensures few { IfSome result (λ n. n ≤ max) }
{
    match form {
        NumberForm::Decimal | NumberForm::Optional => decimal_in(text, max),
        NumberForm::Period => period_in(text, max),
        NumberForm::Algorithm => algorithm_in(text, max),
        NumberForm::CertificateType => certificate_type_in(text, max),
        NumberForm::Scheme => scheme_in(text, max),
        NumberForm::Protocol => protocol_in(text, max),
    }
}

/// Returns the number up to `max` that a text is in decimal.
fn decimal_in(text: &[u8], max: u32) -> Option<u32>
    ensures is { MatchOption result ((n : ℕ) → ¬ (IsNumberText max text.now n)) (IsNumberText max text.now) }
    ensures few { IfSome result (λ n. n ≤ max) }
{
    let number = number_up_to(text, max.into())?;
    Some(number as u32)
}

/// Returns the period of at most `max` seconds that a text is.
fn period_in(text: &[u8], max: u32) -> Option<u32>
    ensures is { MatchOption result ((n : ℕ) → ¬ (IsNumberIn NumberForm.Period max text.now n)) (IsNumberIn NumberForm.Period max text.now) }
    ensures few { IfSome result (λ n. n ≤ max) }
{
    let seconds = period_seconds(text)?;
    if seconds <= max { Some(seconds) } else { None }
}

/// Returns the number up to `max` of an algorithm.
fn algorithm_in(text: &[u8], max: u32) -> Option<u32>
    ensures is { MatchOption result ((n : ℕ) → ¬ (IsNumberIn NumberForm.Algorithm max text.now n)) (IsNumberIn NumberForm.Algorithm max text.now) }
    ensures few { IfSome result (λ n. n ≤ max) }
{
    if begins_with_digit(text) {
        return decimal_in(text, max);
    }
    let number = u32::from(algorithm_named(text)?);
    if number <= max { Some(number) } else { None }
}

/// Returns the number up to `max` of a type of certificates.
fn certificate_type_in(text: &[u8], max: u32) -> Option<u32>
    ensures is { MatchOption result ((n : ℕ) → ¬ (IsNumberIn NumberForm.CertificateType max text.now n)) (IsNumberIn NumberForm.CertificateType max text.now) }
    ensures few { IfSome result (λ n. n ≤ max) }
{
    if begins_with_digit(text) {
        return decimal_in(text, max);
    }
    let number = u32::from(certificate_type_named(text)?);
    if number <= max { Some(number) } else { None }
}

/// Returns the number up to `max` of a scheme of DSYNC.
fn scheme_in(text: &[u8], max: u32) -> Option<u32>
    ensures is { MatchOption result ((n : ℕ) → ¬ (IsNumberIn NumberForm.Scheme max text.now n)) (IsNumberIn NumberForm.Scheme max text.now) }
    ensures few { IfSome result (λ n. n ≤ max) }
{
    if begins_with_digit(text) {
        return decimal_in(text, max);
    }
    let number = u32::from(scheme_named(text)?);
    if number <= max { Some(number) } else { None }
}

/// Returns the number up to `max` of a protocol.
fn protocol_in(text: &[u8], max: u32) -> Option<u32>
    ensures is { MatchOption result ((n : ℕ) → ¬ (IsNumberIn NumberForm.Protocol max text.now n)) (IsNumberIn NumberForm.Protocol max text.now) }
    ensures few { IfSome result (λ n. n ≤ max) }
{
    if begins_with_digit(text) {
        return decimal_in(text, max);
    }
    let number = u32::from(protocol_named(text)?);
    if number <= max { Some(number) } else { None }
}

/// Returns the number that the first word of a text is in each form, and what is after it, if the word is digits up to white space or the
/// text's end, and the number is at most 4,294,967,289. So the word's end need not be looked for.
#[inline(always)]
#[tactic(auto, using(crate::proofs::FewDigits::number_more))]
pub fn first_number(text: &[u8]) -> Option<(u32, &[u8])>
    ensures none { IfNone result ((n : ℕ) → IsNumberText most_short (word text.now) n → is_end (after_word text.now) ≡ false) }
    ensures number { IfSome result (λ r. IsNumberText max_u32 (word text.now) r.0 × IsPeriod (word text.now) r.0) }
    ensures rest { IfSome result (λ r. r.1.now ≡ after_word text.now) }
    ensures within { IfSome result (λ r. length r.1.now ≤ length text.now) }
{
    let mut number = 0;
    let mut left = text;
    while let Some((c, rest)) = left.split_first() {
        if number > MOST_BEFORE_DIGIT || !c.is_ascii_digit() {
            break;
        }
        number = 10 * number + u32::from(*c - b'0');
        left = rest;
    }
    if left.len() == text.len() || !is_end(left) {
        return None;
    }
    Some((number, left))
}

/// Returns `true` if a word ends before a text: the text is empty, or begins with white space.
#[inline(always)]
fn is_end(text: &[u8]) -> bool
    ensures { result ≡ is_end text.now }
{
    match text.first() {
        Some(first) => matches!(*first, b' ' | b'\t' | b'\r' | b'\n'),
        None => true,
    }
}

/// Returns the seconds of a period: a number of seconds, or groups of digits and a unit, as `1h30m`; the units are `s`, `m`, `h`, `d`
/// and `w`, in either case. After groups with a unit none comes without.
pub fn period_seconds(text: &[u8]) -> Option<u32>
    ensures { MatchOption result ((n : ℕ) → ¬ (IsPeriod text.now n)) (IsPeriod text.now) }
{
    if !is_whole(text) {
        return None;
    }
    ttl_seconds(text)
}

/// Returns `true` if a text is digits alone, or does not end with one.
fn is_whole(text: &[u8]) -> bool
    ensures { result ≡ is_whole text.now }
{
    if is_number(text) {
        return true;
    }
    !ends_with_digit(text)
}

/// Returns `true` if each character is a digit.
fn is_number(text: &[u8]) -> bool
    ensures { result ≡ list_all is_ascii_digit text.now }
{
    text.iter().all(|c| c.is_ascii_digit())
}

/// Returns `true` if the last character is a digit.
fn ends_with_digit(text: &[u8]) -> bool
    ensures { result ≡ ends_with_digit text.now }
{
    match text.last() {
        Some(last) => last.is_ascii_digit(),
        None => false,
    }
}
