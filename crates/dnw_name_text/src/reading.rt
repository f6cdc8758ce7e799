//! Names in texts (RFC 1035, section 5.1).
ghost use Rattle.std.specs.Prelude.{◌≡◌, ◌≢◌, ℕ, ◌+◌, ◌^◌, ◌<◌, ◌≤◌, false, true, List, [], ◌++◌, Option, get_or, length, take, drop, Ok, Err, IsTrue, IfSome, IfNone, IfOk, IfErr};
ghost use Rattle.std.specs.List.{list_all};
ghost use Rattle.dnw_base.specs.Limits.{max_label, max_name};
ghost use Rattle.dnw_base.specs.Names.{AreLabels, encoded_size, wire};
ghost use Rattle.dnw_name_text.specs.declared.reading.Escape.TheVariants.{Outside};
ghost use Rattle.dnw_name_text.specs.Inside.Labels.{IsEscape, IsTextElement, BeginsPlain, MakesLabels, MakesName, MakesStep};
ghost use Rattle.dnw_name_form.specs.Edits.{with_labels};
ghost use Rattle.dnw_name_form.specs.LabelText.{dot, backslash};
ghost use Rattle.dnw_name_text.specs.NameTexts.{full_name_text};
ghost use Rattle.dnw_name_text.specs.PlainNames.{is_own_octet, is_plain_name};
ghost use Rattle.dnw_name_text.specs.NameReading.{element, ended, labels_from, labels_of_text, name_of_text, one_label_more, or_too_long};

use crate::ascii::Parsed;
use crate::error::{NameTextError, NameTextRule};
use crate::plain::{own_len, own_run_len};
use arrayvec::ArrayVec;
use dnw_base::limits::{MAX_LABEL, MAX_NAME};
use dnw_name_form::form::WireForm;
use dnw_name_form::wire_labels::WireLabels;
use std::alloc::Global;

/// Where the next character is.
#[derive(Clone, Copy)]
pub enum Escape {
    /// Outside an escape.
    Outside,
    /// After a backslash.
    Escaped,
    /// After a backslash and a digit.
    AfterOne(u8),
    /// After a backslash and two digits.
    AfterTwo(u8, u8),
}

/// What a character is.
#[derive(Clone, Copy)]
pub(crate) enum Element {
    /// An octet of a label, of which it is the last character.
    Octet(u8),
    /// The dot after a label.
    Dot,
    /// A part of an escape.
    Within(Escape),
    /// None of these.
    Fault,
}

/// What reading a label comes to.
enum Step<'t> {
    /// The label had a dot after it. At this offset are the others.
    Next(usize, &'t [u8]),
    /// The text ended: whether in a dot.
    End(bool),
}

/// Reads the name that a text gives, or returns where and why it gives none. It does not allocate.
///
/// A name with a dot at its end is fully qualified. Any other one is completed by the labels of an origin, and is fully qualified then;
/// without an origin it is relative. The text `@` is the origin, and `.` the root.
pub fn read(
    alloc: Global,
    text: &[u8],
    origin: Option<WireLabels<'_>>,
) -> Result<Parsed, NameTextError>
    ensures { result ≡ name_of_text origin.entry text.now }
{
    let mut form = WireForm::new(alloc);
    let is_fqdn = read_into(&mut form, text, origin)?;
    Ok(Parsed { form, is_fqdn })
}

/// Reads the name that a text gives into a form without labels, as `read`, and returns whether the name is fully qualified. So the
/// form is not moved. After an error it has some of the labels.
pub fn read_into(
    form: &mut WireForm,
    text: &[u8],
    origin: Option<WireLabels<'_>>,
) -> Result<bool, NameTextError>
    requires { form.old ≡ [] }
    ensures ok { IfOk result (λ is_fqdn. name_of_text origin.entry text.now ≡ Ok (record { is_fqdn = is_fqdn; labels = form.new })) }
    ensures err { IfErr result (λ error. name_of_text origin.entry text.now ≡ Err error) }
{
    let is_fqdn = read_whole(form, text)?;
    let Some(labels) = origin else {
        return Ok(is_fqdn);
    };
    if is_fqdn {
        return Ok(true);
    }
    complete(form, labels, text.len())?;
    Ok(true)
}

/// Puts the wire form of the name that a text gives at the front of a room, and returns its length, if it is the text of a plain name,
/// as `put_plain_text` puts it: the octets of its labels stand for themselves, and a dot is after each label. Else it returns `None`,
/// and the room has any octets.
///
/// The text is copied in one piece, and each dot gives way to the length of the next label, or to the closing zero. So it takes fewer
/// instructions than `read`.
pub fn put_plain_form(room: &mut [u8; MAX_NAME], text: &[u8]) -> Option<usize>
    ensures some { IfSome result (λ len. (labels : List (List ℕ)) × (take len room.new ≡ wire labels) × (len ≡ encoded_size labels) × AreLabels labels
        × ((origin : Option (List (List ℕ))) → name_of_text origin text.now ≡ Ok (record { is_fqdn = true; labels = labels }))) }
    ensures none { IfNone result ((labels : List (List ℕ)) → AreLabels labels → IsTrue (is_plain_name labels) → text.now ≡ full_name_text labels → ⊥) }
{
    let [.., last] = text else {
        return None;
    };
    if *last != b'.' || text.len() >= MAX_NAME {
        return None;
    }
    put_after_first(room, text);
    let mut start = 0;
    'labels: while start < text.len() {
        let (_, rest) = text.split_at(start);
        let len = own_run_len(rest);
        let end = start + len;
        if len == 0 || len > MAX_LABEL || text[end] != b'.' {
            return None;
        }
        room[start] = len as u8;
        start = end + 1;
    }
    room[start] = 0;
    Some(start + 1)
}

/// Puts a text into a room after the first octet.
#[inline(always)]
fn put_after_first(room: &mut [u8; MAX_NAME], text: &[u8])
    requires { length text.now < max_name }
    ensures { room.new ≡ take 1 room.old ++ (text.now ++ drop (1 + length text.now) room.old) }
{
    room[1..1 + text.len()].copy_from_slice(text);
}

/// Adds the labels of an origin, or reports that the name is too long at the text's end.
fn complete(form: &mut WireForm, labels: WireLabels<'_>, end: usize) -> Result<(), NameTextError>
    ensures { MakesLabels (or_too_long end (with_labels form.old labels.entry)) result form.new }
{
    match form.append(labels) {
        Ok(()) => Ok(()),
        Err(_) => Err(breaks(end, NameTextRule::NameTooLong)),
    }
}

/// Adds the labels of a text, and returns whether the name is fully qualified.
fn read_whole(form: &mut WireForm, text: &[u8]) -> Result<bool, NameTextError>
    requires { form.old ≡ [] }
    ensures { MakesName (labels_of_text text.now) result form.new }
{
    match text {
        [] => Err(breaks(0, NameTextRule::EmptyLabel)),
        [b'.'] => Ok(true),
        [b'@'] => Ok(false),
        _ => read_labels(form, text),
    }
}

/// Adds the labels of a text, and returns whether a dot is after the last one. Those whose octets stand for themselves are added whole.
fn read_labels(form: &mut WireForm, text: &[u8]) -> Result<bool, NameTextError>
    requires { form.old ≡ [] }
    ensures { MakesName (labels_from 0 [] [] Outside text.now) result form.new }
{
    let mut start = 0;
    let mut rest = text;
    'labels: loop {
        let len = plain_len(rest);
        let (label, others) = rest.split_at(len);
        let Some((next, more)) = others.split_first() else {
            return finish(form, label, Escape::Outside, start + len);
        };
        if *next == b'.' {
            push_label(form, label, start + len)?;
            start += len + 1;
            rest = more;
        } else {
            match read_octets(form, rest, start, len)? {
                Step::Next(at, more) => {
                    start = at;
                    rest = more;
                }
                Step::End(is_fqdn) => return Ok(is_fqdn),
            }
        }
    }
}

/// Returns the number of octets that stand for themselves, 63 at most, that a text begins with, and what reading is after them.
#[inline(always)]
fn plain_len(text: &[u8]) -> usize
    ensures few { result ≤ length text.now }
    ensures short { result ≤ max_label }
    ensures plain { BeginsPlain text.now result }
    ensures own { list_all is_own_octet (take result text.now) ≡ true }
    ensures most { result < max_label → is_own_octet (get_or text.now result 0) ≡ false }
{
    own_len(text)
}

/// Adds the label that a text begins with, octet by octet after those that stand for themselves.
#[inline(never)]
fn read_octets<'t>(
    form: &mut WireForm,
    text: &'t [u8],
    start: usize,
    len: usize,
) -> Result<Step<'t>, NameTextError>
    requires room { start + length text.now < 2 ^ 63 }
    requires few { len ≤ length text.now }
    requires short { len ≤ max_label }
    requires plain { BeginsPlain text.now len }
    ensures { MakesStep start text.now form.old result form.new }
{
    let mut label = ArrayVec::<u8, MAX_LABEL>::new();
    let (own, others) = text.split_at(len);
    let mut at = start + len;
    if label.try_extend_from_slice(own).is_err() {
        return Err(breaks(at, NameTextRule::LabelTooLong));
    }
    let mut escape = Escape::Outside;
    let mut rest = others;
    'octets: while let Some((c, more)) = rest.split_first() {
        match element_of(escape, *c) {
            Element::Octet(octet) => {
                if label.try_push(octet).is_err() {
                    return Err(breaks(at, NameTextRule::LabelTooLong));
                }
                escape = Escape::Outside;
            }
            Element::Dot => {
                push_label(form, label.as_slice(), at)?;
                return Ok(Step::Next(at + 1, more));
            }
            Element::Within(next) => escape = next,
            Element::Fault => return Err(breaks(at, NameTextRule::BadEscape)),
        }
        at += 1;
        rest = more;
    }
    let is_fqdn = finish(form, label.as_slice(), escape, at)?;
    Ok(Step::End(is_fqdn))
}

/// Adds the last label, and returns whether a dot is after it: it is if there are no octets.
#[inline(always)]
fn finish(
    form: &mut WireForm,
    label: &[u8],
    escape: Escape,
    end: usize,
) -> Result<bool, NameTextError>
    requires { length label.now ≤ max_label }
    ensures { MakesName (ended end form.old label.now escape) result form.new }
{
    match escape {
        Escape::Outside if label.is_empty() => Ok(true),
        Escape::Outside => {
            push_label(form, label, end)?;
            Ok(false)
        }
        _ => Err(breaks(end, NameTextRule::UnfinishedEscape)),
    }
}

/// Adds a label that ends before this offset.
#[inline(always)]
fn push_label(form: &mut WireForm, label: &[u8], at: usize) -> Result<(), NameTextError>
    requires { length label.now ≤ max_label }
    ensures { MakesLabels (one_label_more at form.old label.now) result form.new }
{
    if label.is_empty() {
        return Err(breaks(at, NameTextRule::EmptyLabel));
    }
    match form.push(label) {
        Ok(()) => Ok(()),
        Err(_) => Err(breaks(at, NameTextRule::NameTooLong)),
    }
}

/// Returns the error of a rule at an offset.
fn breaks(offset: usize, rule: NameTextRule) -> NameTextError
    ensures { result ≡ record { offset = offset; rule = rule } }
{
    NameTextError { offset, rule }
}

/// Returns what a character is.
fn element_of(escape: Escape, c: u8) -> Element
    requires { IsEscape escape }
    ensures is { result ≡ element escape c }
    ensures within { IsTextElement result }
{
    match escape {
        Escape::Outside => match c {
            b'.' => Element::Dot,
            b'\\' => Element::Within(Escape::Escaped),
            _ => Element::Octet(c),
        },
        Escape::Escaped if c.is_ascii_digit() => Element::Within(Escape::AfterOne(c - b'0')),
        Escape::Escaped => Element::Octet(c),
        Escape::AfterOne(a) if c.is_ascii_digit() => Element::Within(Escape::AfterTwo(a, c - b'0')),
        Escape::AfterTwo(a, b) if c.is_ascii_digit() => {
            let number = 100 * u16::from(a) + 10 * u16::from(b) + u16::from(c - b'0');
            match u8::try_from(number) {
                Ok(octet) => Element::Octet(octet),
                Err(_) => Element::Fault,
            }
        }
        Escape::AfterOne(_) | Escape::AfterTwo(..) => Element::Fault,
    }
}
