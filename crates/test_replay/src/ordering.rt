//! The order, equality and hash of names and labels, and edits of names.

use crate::notation::{
    BAD_LINE, error_word, first_word, hexadecimal, name, number, octets, push_word,
};
use dns_names_wire::error::{ProtoError, ProtoResult};
use dns_names_wire::label::{CaseInsensitive, CaseSensitive, Label};
use dns_names_wire::lower_name::LowerName;
use dns_names_wire::name::Name;
use std::alloc::Global;
use std::cmp::Ordering;
use std::hash::{DefaultHasher, Hash, Hasher};

/// The error of calls that should agree and do not.
const DIFFER: ProtoError = ProtoError::Message("the calls differ");

/// Returns the answer to a request about the order or the edits of names.
pub(crate) fn answer(alloc: Global, kind: &str, words: &str) -> ProtoResult<String> {
    match kind {
        "order" => order(alloc, words),
        "label-order" => label_order(alloc, words),
        "lower-order" => lower_order(alloc, words),
        "cmp" => {
            let (left, right) = first_word(words)?;
            compared(alloc, &name(alloc, left)?, &name(alloc, right)?)
        }
        "edits" => edits(alloc, words),
        "from_labels" => from_labels(alloc, words),
        "from-texts" => from_texts(alloc, words),
        "trimmed" => trimmed(alloc, words),
        _ => edit(alloc, kind, words),
    }
}

/// Compares each of the names with each.
fn order(alloc: Global, words: &str) -> ProtoResult<String> {
    let names = names(alloc, words)?;
    let mut answer = String::new(alloc);
    for left in names.as_slice() {
        for right in names.as_slice() {
            push_word(&mut answer, pair(alloc, left, right)?.as_str())?;
        }
    }
    Ok(answer)
}

/// Returns what the comparisons of two names return, as two characters.
fn pair(alloc: Global, left: &Name, right: &Name) -> ProtoResult<String> {
    check_borrowed(left, right)?;
    let orders = both(left.cmp(right), left.cmp_case(right));
    let alike = hash_of(left) == hash_of(right);
    let tests = [
        left == right,
        left.eq_case(right),
        left.eq_ignore_root(right),
        left.eq_ignore_root_case(right),
        left.zone_of(right),
        left.zone_of_case(right),
    ];
    let orders = letter(orders.saturating_add(if alike { 9 } else { 0 }));
    Ok(format!(in alloc; "{orders}{}", letter(bits(&tests)))?)
}

/// Fails if the name as one of a message compares otherwise, or if `partial_cmp` is not `cmp`.
fn check_borrowed(left: &Name, right: &Name) -> ProtoResult<()> {
    let (mut first, mut second) = (left.clone()?, right.clone()?);
    first.set_fqdn(true);
    second.set_fqdn(true);
    let same = first.as_name_ref().cmp_name(right) == first.cmp(&second)
        && left.partial_cmp(right) == Some(left.cmp(right));
    if same { Ok(()) } else { Err(DIFFER) }
}

/// Compares each of the labels with each.
fn label_order(alloc: Global, words: &str) -> ProtoResult<String> {
    let mut labels = Vec::new(alloc);
    for word in words.split(' ') {
        labels.push(Label::from_raw_bytes(alloc, octets(alloc, word)?.as_slice())?)?;
    }
    let mut answer = String::new(alloc);
    for left in labels.as_slice() {
        for right in labels.as_slice() {
            push_word(&mut answer, label_pair(alloc, left, right)?.as_str())?;
        }
    }
    Ok(answer)
}

fn label_pair(alloc: Global, left: &Label, right: &Label) -> ProtoResult<String> {
    let order = left.cmp(right);
    let case = left.cmp_with_f::<CaseSensitive>(right);
    let agree = left.cmp_with_f::<CaseInsensitive>(right) == order
        && left.eq_ignore_ascii_case(right) == (left == right)
        && (left
            .to_lowercase()?
            .cmp_with_f::<CaseSensitive>(&right.to_lowercase()?)
            == order);
    if !agree {
        return Err(DIFFER);
    }
    let alike = hash_of(left) == hash_of(right);
    let orders = letter(both(order, case).saturating_add(if alike { 9 } else { 0 }));
    Ok(format!(in alloc; "{orders}{}", letter(bits(&[left == right])))?)
}

/// Compares each of the names in lower case with each.
fn lower_order(alloc: Global, words: &str) -> ProtoResult<String> {
    let mut lowered = Vec::new(alloc);
    for word in words.split(' ') {
        lowered.push(LowerName::from_name(name(alloc, word)?)?)?;
    }
    let mut answer = String::new(alloc);
    for left in lowered.as_slice() {
        for right in lowered.as_slice() {
            let alike = hash_of(left) == hash_of(right);
            let tests = bits(&[left == right, left.zone_of(right), alike]);
            let order = letter(place(left.cmp(right)));
            let word = format!(in alloc; "{order}{}", letter(tests))?;
            push_word(&mut answer, word.as_str())?;
        }
    }
    Ok(answer)
}

/// Returns what the comparisons of two names return, by their names.
fn compared(alloc: Global, left: &Name, right: &Name) -> ProtoResult<String> {
    check_borrowed(left, right)?;
    let (order, case) = (
        order_word(left.cmp(right)),
        order_word(left.cmp_case(right)),
    );
    let (eq, eq_case) = (bit(left == right), bit(left.eq_case(right)));
    let root = bit(left.eq_ignore_root(right));
    let root_case = bit(left.eq_ignore_root_case(right));
    let (zone, zone_case) = (bit(left.zone_of(right)), bit(left.zone_of_case(right)));
    let hash = bit(hash_of(left) == hash_of(right));
    let equal = format!(in alloc;
        "eq={eq} eq_case={eq_case} eq_root={root} eq_root_case={root_case}"
    )?;
    let zones = format!(in alloc; "zone={zone} zone_case={zone_case} hash={hash}")?;
    Ok(format!(in alloc; "cmp={order} cmp_case={case} {equal} {zones}")?)
}

/// Returns what a name's edits return: its labels from the back, `base_name`, `into_wildcard`, `to_lowercase`, and
/// `trim_to` with 0 labels, 1, and so on to one more than there are.
fn edits(alloc: Global, word: &str) -> ProtoResult<String> {
    let name = name(alloc, word)?;
    let mut answer = from_back(alloc, &name)?;
    for edited in [
        name.base_name(),
        name.clone()?.into_wildcard(),
        name.to_lowercase(),
    ] {
        push_word(&mut answer, shown(alloc, edited)?.as_str())?;
    }
    for count in 0..name.iter().len().saturating_add(2) {
        push_word(&mut answer, shown(alloc, name.trim_to(count))?.as_str())?;
    }
    Ok(answer)
}

/// Returns the labels from the back in hexadecimal, between commas.
fn from_back(alloc: Global, name: &Name) -> ProtoResult<String> {
    let mut text = String::new(alloc);
    let mut labels = name.iter();
    for _ in 0..name.iter().len() {
        let Some(label) = labels.next_back() else {
            break;
        };
        if !text.is_empty() {
            text.push_str(",")?;
        }
        text.push_str(hexadecimal(alloc, label)?.as_str())?;
    }
    if text.is_empty() {
        text.push_str("-")?;
    }
    Ok(text)
}

/// Makes a name of labels, each octets in hexadecimal.
fn from_labels(alloc: Global, words: &str) -> ProtoResult<String> {
    let mut labels = Vec::new(alloc);
    if words != "none" {
        for word in words.split(' ') {
            labels.push(octets(alloc, word)?)?;
        }
    }
    shown(alloc, Name::from_labels(alloc, labels))
}

/// Makes a name of labels, each a text, and returns it and the length of its wire form.
fn from_texts(alloc: Global, words: &str) -> ProtoResult<String> {
    let mut labels = Vec::new(alloc);
    for word in words.split(' ') {
        labels.push(word)?;
    }
    match Name::from_labels(alloc, labels) {
        Ok(name) => {
            let length = name.encoded_len();
            let name = shown(alloc, Ok(name))?;
            Ok(format!(in alloc; "{name} {length}")?)
        }
        Err(error) => Ok(error_word(alloc, &error)?),
    }
}

/// Returns whether the last labels of a name, so many of them, equal another name, hash alike, and have an equal wire form.
fn trimmed(alloc: Global, words: &str) -> ProtoResult<String> {
    let (whole, words) = first_word(words)?;
    let (count, other) = first_word(words)?;
    let last = name(alloc, whole)?.trim_to(number(count)?)?;
    let other = name(alloc, other)?;
    let alike = hash_of(&last) == hash_of(&other);
    let same = last.as_wire() == other.as_wire();
    Ok(format!(in alloc; "{} {alike} {same}", last == other)?)
}

/// Edits one name.
fn edit(alloc: Global, kind: &str, words: &str) -> ProtoResult<String> {
    let (first, rest) = words.split_once(' ').unwrap_or((words, ""));
    let base = name(alloc, first)?;
    match kind {
        "base_name" => shown(alloc, base.base_name()),
        "into_wildcard" => shown(alloc, base.into_wildcard()),
        "trim_to" => shown(alloc, base.trim_to(number(rest)?)),
        "append_label" => shown(alloc, base.append_label(alloc, octets(alloc, rest)?)),
        "prepend_label" => shown(alloc, base.prepend_label(alloc, octets(alloc, rest)?)),
        "append_name" => shown(alloc, base.append_name(&name(alloc, rest)?)),
        "append_domain" => shown(alloc, base.append_domain(&name(alloc, rest)?)),
        "back" => from_back(alloc, &base),
        "lower-name" => Ok(format!(in alloc; "{:?}", LowerName::new(&base)?)?),
        "tests" => Ok(format!(in alloc;
            "localhost={} wildcard={}",
            bit(base.is_localhost()),
            bit(base.is_wildcard())
        )?),
        _ => Err(BAD_LINE),
    }
}

/// Returns a name as its flag and its labels in hexadecimal, or the error.
fn shown(alloc: Global, name: ProtoResult<Name>) -> ProtoResult<String> {
    let name = match name {
        Ok(name) => name,
        Err(error) => return Ok(error_word(alloc, &error)?),
    };
    let mut text = format!(in alloc; "{}:", bit(name.is_fqdn()))?;
    let mut labels = name.iter();
    if labels.len() == 0 {
        text.push_str("-")?;
    }
    while let Some(label) = labels.next() {
        text.push_str(hexadecimal(alloc, label)?.as_str())?;
        if labels.len() > 0 {
            text.push_str(",")?;
        }
    }
    Ok(text)
}

/// Returns the names that are written with blanks between them.
fn names(alloc: Global, words: &str) -> ProtoResult<Vec<Name>> {
    let mut names = Vec::new(alloc);
    for word in words.split(' ') {
        names.push(name(alloc, word)?)?;
    }
    Ok(names)
}

fn hash_of<T: Hash>(value: &T) -> u64 {
    let mut state = DefaultHasher::new();
    value.hash(&mut state);
    state.finish()
}

/// Returns two orders as a number.
fn both(order: Ordering, case: Ordering) -> usize {
    place(order).saturating_mul(3).saturating_add(place(case))
}

fn place(order: Ordering) -> usize {
    match order {
        Ordering::Less => 0,
        Ordering::Equal => 1,
        Ordering::Greater => 2,
    }
}

fn order_word(order: Ordering) -> &'static str {
    match order {
        Ordering::Less => "Less",
        Ordering::Equal => "Equal",
        Ordering::Greater => "Greater",
    }
}

fn bit(test: bool) -> u8 {
    u8::from(test)
}

/// Returns tests as a number, the first as its lowest bit.
fn bits(tests: &[bool]) -> usize {
    let mut number = 0usize;
    for test in tests.iter().rev() {
        number = (2 * (number % 64)).saturating_add(usize::from(*test));
    }
    number
}

/// Returns the character that stands for a number below 64.
fn letter(number: usize) -> char {
    const LETTERS: &[u8] = b"0123456789ABCDEFGHIJKLMNOPQRSTUVWXYZabcdefghijklmnopqrstuvwxyz-_";
    char::from(LETTERS.get(number).copied().unwrap_or(b'?'))
}
