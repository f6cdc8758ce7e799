//! Names as text (RFC 1035, section 5.1, but with octal escapes).
ghost use Rattle.std.specs.Prelude.{◌≡◌, ℕ, ◌+◌, ◌-◌, ◌*◌, ◌^◌, ◌<◌, ◌≤◌, List, [], ◌∷◌, ◌++◌, ◌==◌, length, get_or, map, take, drop, true, false, IsTrue, Some, None, Ok, IfSome, IfOk, IfErr, OnOk, ⊤, if◌then◌else◌, encode_utf8};
ghost use Rattle.std.specs.List.{AllByRecursion, join_with_byte, list_all};
ghost use Rattle.std.specs.Str.{chars};
ghost use Rattle.arrayvec.specs.ArrayString.{array_string_len};
ghost use Rattle.dnw_base.specs.Limits.{max_label, max_name};
ghost use Rattle.dnw_base.specs.Fault.{UnrecognizedChar, IllegalChar, Follows, FailsOr, NeedsErrorText, Updates};
ghost use Rattle.dnw_base.specs.Labels.{IsLabel, asterisk};
ghost use Rattle.dnw_base.specs.Names.{encoded_size};
ghost use Rattle.dnw_name_form.specs.LabelText.{dot, label_from_text, label_text};
ghost use Rattle.dnw_name_text.specs.AsciiText.{Outside, Escaped, is_numeric, is_octal_digit, elements, Stop, bad_digit, max_text, with_text, name_from_text};
ghost use Rattle.dnw_name_text.specs.Inside.TextReader.{state_of, elements_from, LeadsInside, escape_len, IsNoLonger, IsAlike, is_simple, IsRun, IsSimpleLabel, IsDottedLabel, PutsLengths, CutsText, BeginsWithEscape, BeginsWithLabel, name_from_rest, name_from, reader_len, fails_with};

use arrayvec::ArrayString;
use dnw_base::error::{DecodeError, ProtoError, ProtoResult};
use dnw_base::limits::{MAX_LABEL, MAX_NAME};
use dnw_name_form::form::WireForm;
use dnw_name_form::label::{Label, is_label_text, push_label_text};
use dnw_name_form::octets::Octets;
use dnw_name_form::wire_labels::WireLabels;
use std::alloc::Global;
use std::marker::Model;
use unicode::properties::GeneralCategory;

/// The most bytes of a name's text.
///
/// A name of 255 octets has four labels or more, and so at most 250 octets in them. Each may become four bytes, and a dot is
/// after each label.
pub const MAX_TEXT: usize = 1004;

/// What a text gives: the wire form of a name, and whether the name is fully qualified.
///
/// A contract sees it as a name.
#[derive(Drop)]
pub struct Parsed {
    pub form: WireForm,
    pub is_fqdn: bool,
}

impl Model for Parsed {
    ghost use Rattle.dnw_base.specs.Names.{NameValue};

    ghost Value = { NameValue };

    ghost view = { λ p. record { is_fqdn = p.is_fqdn; labels = p.form } };
}

/// Reads the name that a text gives.
pub fn read(alloc: Global, text: &str) -> ProtoResult<Parsed>
    ensures follows { Follows (name_from_text (chars text.now)) (NeedsErrorText (name_from_text (chars text.now))) result }
{
    if text.is_empty() {
        return Ok(Parsed {
            form: WireForm::new(alloc),
            is_fqdn: false,
        });
    }
    if text == "." {
        return Ok(Parsed {
            form: WireForm::new(alloc),
            is_fqdn: true,
        });
    }
    match read_plain(alloc, text.as_bytes()) {
        Some(parsed) => Ok(parsed),
        None => read_by_parts(alloc, text),
    }
}

/// Writes labels as text, with dots between them.
pub fn push_labels_text(out: &mut ArrayString<MAX_TEXT>, mut labels: WireLabels<'_>)
    requires empty { out.old.bytes ≡ [] }
    requires labels { AllByRecursion IsLabel labels }
    requires fit { encoded_size labels ≤ max_name }
    ensures text { out.new.bytes ≡ join_with_byte dot (map label_text labels.entry) }
    ensures room { array_string_len out.new < max_text }
{
    let Some(first) = labels.next() else {
        return;
    };
    push_label_text(out, first);
    while let Some(label) = labels.next() {
        out.push('.');
        push_label_text(out, label);
    }
}

/// Where the next character is: outside an escape, after its backslash, or after one or two of its digits.
#[derive(Clone, Copy)]
pub(crate) enum State {
    Outside,
    Escaped,
    AfterOne(u8),
    AfterTwo(u8, u8),
}

/// What a character does: it leads to another state, adds a character to the label, ends the label, or is an error.
pub(crate) enum Move {
    Enter(State),
    Char(char),
    Dot,
    Unrecognized,
    Illegal,
}

/// Returns what the character does in this state.
pub(crate) fn step(state: State, c: char) -> Move
    ensures elements { (cs : List ℕ) → elements (state_of state) (c ∷ cs) ≡ elements_from result c cs }
    ensures inside { LeadsInside result }
    ensures longer { IsNoLonger (escape_len state + length (encode_utf8 c)) result }
{
    match state {
        State::Outside => step_outside(c),
        State::Escaped => step_escaped(c),
        State::AfterOne(a) => match octal_digit(c) {
            Some(b) => Move::Enter(State::AfterTwo(a, b)),
            None => bad_digit(c),
        },
        State::AfterTwo(a, b) => match octal_digit(c) {
            Some(d) => Move::Char(octal_char(a, b, d)),
            None => bad_digit(c),
        },
    }
}

/// The same outside an escape.
fn step_outside(c: char) -> Move
    ensures elements { (cs : List ℕ) → elements Outside (c ∷ cs) ≡ elements_from result c cs }
    ensures inside { LeadsInside result }
    ensures longer { IsNoLonger (length (encode_utf8 c)) result }
{
    if c == '.' {
        Move::Dot
    } else if c == '\\' {
        Move::Enter(State::Escaped)
    } else if c.is_control() || c.is_whitespace() {
        Move::Unrecognized
    } else {
        Move::Char(c)
    }
}

/// The same after a backslash.
fn step_escaped(c: char) -> Move
    ensures elements { (cs : List ℕ) → elements Escaped (c ∷ cs) ≡ elements_from result c cs }
    ensures inside { LeadsInside result }
    ensures longer { IsNoLonger (1 + length (encode_utf8 c)) result }
{
    match octal_digit(c) {
        Some(a) => Move::Enter(State::AfterOne(a)),
        None if is_numeric(c) => Move::Illegal,
        None => Move::Char(c),
    }
}

/// Returns why a character is not the second or third digit of an escape.
fn bad_digit(c: char) -> Move
    ensures elements { (cs : List ℕ) → Stop (bad_digit c) ∷ [] ≡ elements_from result c cs }
    ensures inside { LeadsInside result }
    ensures longer { (n : ℕ) → IsNoLonger n result }
{
    if is_numeric(c) {
        Move::Illegal
    } else {
        Move::Unrecognized
    }
}

/// Returns `true` if a character has the general category Nd, Nl or No.
fn is_numeric(c: char) -> bool
    ensures { result ≡ is_numeric c }
{
    let category = GeneralCategory::for_char(c);
    category == GeneralCategory::DecimalNumber
        || category == GeneralCategory::LetterNumber
        || category == GeneralCategory::OtherNumber
}

/// Returns the value of an octal digit.
fn octal_digit(c: char) -> Option<u8>
    ensures { result ≡ (if is_octal_digit c then Some (c - 48) else None) }
{
    if '0' <= c && c <= '7' {
        Some(c as u8 - b'0')
    } else {
        None
    }
}

/// The same, with what reading gives after the escape.
#[inline(always)]
fn escape(text: &str) -> Option<char>
    ensures { IfSome result (λ char. CutsText text.now 4 (encode_utf8 char)) }
{
    octal_escape(text.as_bytes())
}

/// Returns the character of the octal escape that a text begins with.
fn octal_escape(text: &[u8]) -> Option<char>
    ensures { IfSome result (λ char. (rest : List ℕ) × BeginsWithEscape text.now char rest) }
{
    match text {
        [b'\\', a, b, c, ..] => {
            let (a, b, c) = (digit_value(*a), digit_value(*b), digit_value(*c));
            if !are_octal(a, b, c) {
                return None;
            }
            Some(octal_char(a, b, c))
        }
        _ => None,
    }
}

/// Returns the value of an octal digit, or more than 7 for any other byte.
#[inline(always)]
fn digit_value(digit: u8) -> u8
    ensures { result < 8 → (is_octal_digit digit ≡ true) × (result ≡ digit - 48) }
{
    digit.wrapping_sub(b'0')
}

/// Returns `true` if all three are less than 8, by one comparison.
#[inline(always)]
#[tactic(auto, using(std::proofs::lemmas::Nat::le_or_l, std::proofs::lemmas::Nat::le_or_r))]
fn are_octal(a: u8, b: u8, c: u8) -> bool
    ensures { IsTrue result → (a < 8) × (b < 8) × (c < 8) }
{
    a | b | c < 8
}

/// Returns the character that three octal digits stand for.
fn octal_char(a: u8, b: u8, c: u8) -> char
    ensures { result ≡ 64 * a + 8 * b + c }
{
    char::from_u32(64 * u32::from(a) + 8 * u32::from(b) + u32::from(c)).unwrap()
}

/// The bytes collected for the next label. Those past the room of a label are only counted, since the error of a label
/// that is too long has its length alone.
///
/// A contract sees it as a list of bytes, those that are only counted as zeros.
#[derive(Drop)]
struct Collected {
    text: ArrayString<MAX_LABEL>,
    // The bytes that are only counted.
    more: usize,
}

impl Model for Collected {
    ghost use Rattle.std.specs.Prelude.{ℕ, ◌+◌, ◌<◌, List, ◌++◌, length, replicate};
    ghost use Rattle.dnw_base.specs.Limits.{max_label};

    ghost Value = { List ℕ };

    ghost view = { λ c. c.text.bytes ++ replicate c.more 0 };

    ghost invariant = { λ c. 0 < c.more → max_label < length c.text.bytes + c.more };
}

impl Collected {
    /// No bytes.
    fn new() -> Self
        ensures { result ≡ [] }
    {
        Collected {
            text: ArrayString::new(),
            more: 0,
        }
    }

    /// Returns `true` if there are no bytes.
    fn is_empty(&self) -> bool
        ensures { result ≡ (length self.now == 0) }
    {
        self.text.is_empty() && self.more == 0
    }

    /// Adds a run of characters.
    fn push_run(&mut self, run: &str)
        requires { length self.old + length run.now < 2 ^ 64 }
        ensures alike { IsAlike self.new (self.old ++ run.now) }
        ensures len { length self.new ≡ length self.old + length run.now }
    {
        if self.text.try_push_str(run).is_err() {
            self.more += run.len();
        }
    }

    /// Adds the bytes of a character.
    #[inline(always)]
    fn push(&mut self, c: char)
        requires { length self.old + length (encode_utf8 c) < 2 ^ 64 }
        ensures alike { IsAlike self.new (self.old ++ encode_utf8 c) }
        ensures len { length self.new ≡ length self.old + length (encode_utf8 c) }
    {
        if c.is_ascii() && !self.text.is_full() {
            // The compiler stores one byte without a copy of a length that it does not know.
            self.text.push(c);
        } else if self.text.try_push(c).is_err() {
            self.more += c.len_utf8();
        }
    }

    /// Returns the bytes if they give a label and none is only counted.
    fn as_label(&self) -> Option<&[u8]>
        ensures { IfSome result (λ label. label_from_text self.now ≡ Ok label.now) }
    {
        if self.more == 0 && is_label_text(self.text.as_bytes()) {
            return Some(self.text.as_bytes());
        }
        None
    }

    /// Returns the label that the bytes give.
    fn to_label(&self, alloc: Global) -> ProtoResult<Label>
        requires { length self.now < 2 ^ 64 }
        ensures follows { Follows (label_from_text self.now) (NeedsErrorText (label_from_text self.now)) result }
    {
        if self.more > 0 {
            return Err(ProtoError::Decode(DecodeError::LabelBytesTooLong(
                self.text.len() + self.more,
            )));
        }
        Label::from_ascii(alloc, self.text.as_str())
    }
}

/// A name that is read by characters.
#[derive(Drop)]
struct TextReader {
    form: WireForm,
    label: Collected,
    state: State,
}

impl TextReader {
    /// Creates a reader that has read the labels of a form.
    fn new(form: WireForm) -> Self
        ensures form { result.form ≡ form }
        ensures label { result.label ≡ [] }
        ensures state { result.state ≡ State.Outside }
    {
        TextReader {
            form,
            label: Collected::new(),
            state: State::Outside,
        }
    }

    /// Reads one more character.
    fn take(&mut self, alloc: Global, c: char) -> ProtoResult<()>
        requires { reader_len self.old + length (encode_utf8 c) < 2 ^ 64 }
        ensures ok { OnOk result ((cs : List ℕ) → name_from self.new cs ≡ name_from self.old (c ∷ cs)) }
        ensures len { OnOk result (reader_len self.new ≤ reader_len self.old + length (encode_utf8 c)) }
        ensures err { IfErr result (λ e. (cs : List ℕ) → FailsOr (name_from self.old (c ∷ cs)) (NeedsErrorText (name_from self.old (c ∷ cs))) e) }
    {
        match step(self.state, c) {
            Move::Enter(state) => self.state = state,
            Move::Char(char) => {
                self.label.push(char);
                self.state = State::Outside;
            }
            Move::Dot => {
                add_label(&mut self.form, alloc, &self.label)?;
                self.label = Collected::new();
                self.state = State::Outside;
            }
            Move::Unrecognized => return Err(unrecognized(alloc, c)),
            Move::Illegal => return Err(illegal(alloc, c)),
        }
        Ok(())
    }

    /// Reads on from a text that is not empty, and returns what is left of it: a simple label and its dot at once, or else a
    /// part.
    fn advance<'t>(&mut self, alloc: Global, text: &'t str) -> ProtoResult<&'t str>
        requires some { 0 < length text.now }
        requires len { reader_len self.old + length text.now < 2 ^ 64 }
        ensures ok { IfOk result (λ rest. name_from self.new (chars rest.now) ≡ name_from self.old (chars text.now)) }
        ensures shorter { IfOk result (λ rest. length rest.now < length text.now) }
        ensures len { IfOk result (λ rest. reader_len self.new + length rest.now ≤ reader_len self.old + length text.now) }
        ensures err { IfErr result (FailsOr (name_from self.old (chars text.now)) (NeedsErrorText (name_from self.old (chars text.now)))) }
    {
        let len = self.whole_label_len(text);
        if len == 0 {
            return self.advance_part(alloc, text);
        }
        self.form.push(&text.as_bytes()[..len])?;
        Ok(&text[len + 1..])
    }

    /// Returns the length of the simple label that a text begins with, if a dot follows and no part of a label was read
    /// before it, or else 0.
    fn whole_label_len(&self, text: &str) -> usize
        ensures label { 0 < result → BeginsWithLabel text.now result }
        ensures fresh { 0 < result → (self.now.label ≡ []) × (self.now.state ≡ State.Outside) }
    {
        if !self.label.is_empty() {
            return 0;
        }
        match self.state {
            State::Outside => dotted_len(text.as_bytes()),
            _ => 0,
        }
    }

    /// Reads on by a run of simple characters, an octal escape or a character.
    fn advance_part<'t>(&mut self, alloc: Global, text: &'t str) -> ProtoResult<&'t str>
        requires some { 0 < length text.now }
        requires len { reader_len self.old + length text.now < 2 ^ 64 }
        ensures ok { IfOk result (λ rest. name_from self.new (chars rest.now) ≡ name_from self.old (chars text.now)) }
        ensures shorter { IfOk result (λ rest. length rest.now < length text.now) }
        ensures len { IfOk result (λ rest. reader_len self.new + length rest.now ≤ reader_len self.old + length text.now) }
        ensures err { IfErr result (FailsOr (name_from self.old (chars text.now)) (NeedsErrorText (name_from self.old (chars text.now)))) }
    {
        if let State::Outside = self.state {
            if let Some(c) = escape(text) {
                self.label.push(c);
                return Ok(self.take_escapes(&text[4..]));
            }
            let run = run_of(text);
            if run > 0 {
                self.label.push_run(&text[..run]);
                return Ok(&text[run..]);
            }
        }
        let mut chars = text.chars();
        let c = chars.next().unwrap();
        self.take(alloc, c)?;
        Ok(chars.as_str())
    }

    /// Reads the octal escapes that a text begins with, and returns what is left of it.
    fn take_escapes<'t>(&mut self, text: &'t str) -> &'t str
        requires outside { self.old.state ≡ State.Outside }
        requires len { reader_len self.old + length text.now < 2 ^ 64 }
        ensures name { name_from self.new (chars result.now) ≡ name_from self.old (chars text.now) }
        ensures shorter { length result.now ≤ length text.now }
        ensures len { reader_len self.new + length result.now ≤ reader_len self.old + length text.now }
    {
        let mut rest = text;
        'escapes: while let Some(c) = escape(rest) {
            self.label.push(c);
            rest = &rest[4..];
        }
        rest
    }

    /// Returns the name, if no more characters follow.
    #[tactic(auto, using(crate::proofs::TextReading::unfinished))]
    fn finish(self, alloc: Global) -> ProtoResult<Parsed>
        requires { length self.label < 2 ^ 64 }
        ensures follows { Follows (name_from self (chars [])) (NeedsErrorText (name_from self (chars []))) result }
    {
        let State::Outside = self.state else {
            return Err(ProtoError::Message("unfinished escape"));
        };
        let mut form = self.form;
        if self.label.is_empty() {
            return Ok(Parsed {
                form,
                is_fqdn: true,
            });
        }
        add_label(&mut form, alloc, &self.label)?;
        Ok(Parsed {
            form,
            is_fqdn: false,
        })
    }
}

/// Returns the error of a character that is not recognized.
fn unrecognized(alloc: Global, c: char) -> ProtoError
    ensures { FailsOr (fails_with (UnrecognizedChar c)) ⊤ result }
{
    match format!(in alloc; "unrecognized char: {c}") {
        Ok(text) => ProtoError::Msg(text),
        Err(error) => ProtoError::from(error),
    }
}

/// Returns the error of a number that is not allowed there.
fn illegal(alloc: Global, c: char) -> ProtoError
    ensures { FailsOr (fails_with (IllegalChar c)) ⊤ result }
{
    match format!(in alloc; "illegal char: {c}") {
        Ok(text) => ProtoError::Msg(text),
        Err(error) => ProtoError::from(error),
    }
}

/// Adds the label that the bytes give. A `Label` is made only if they give none: for its error.
fn add_label(form: &mut WireForm, alloc: Global, label: &Collected) -> ProtoResult<()>
    requires { length label.now < 2 ^ 64 }
    ensures updates { Updates (with_text form.old label.now) (NeedsErrorText (with_text form.old label.now)) form.old result form.new }
{
    if let Some(bytes) = label.as_label() {
        return form.push(bytes);
    }
    let label = label.to_label(alloc)?;
    form.push(label.as_bytes())
}

/// Reads a text that is not empty and not a lone dot, in runs of simple characters, octal escapes and characters.
fn read_by_parts(alloc: Global, text: &str) -> ProtoResult<Parsed>
    ensures follows { Follows (name_from_rest [] [] Outside (chars text.now)) (NeedsErrorText (name_from_rest [] [] Outside (chars text.now))) result }
{
    let mut reader = TextReader::new(WireForm::new(alloc));
    let mut rest = text;
    while !rest.is_empty() {
        rest = reader.advance(alloc, rest)?;
    }
    reader.finish(alloc)
}

/// Reads a text whose labels are `*` or have simple characters alone, if its wire form fits. It is copied once, and
/// then each dot gives way to a length octet.
fn read_plain(alloc: Global, text: &[u8]) -> Option<Parsed>
    requires { 0 < length text.now }
    ensures { IfSome result (λ name. name_from_rest [] [] Outside (chars text.now) ≡ Ok name) }
{
    if text.len() > MAX_NAME - 2 {
        return None;
    }
    let mut bytes = Octets::new();
    bytes.push(0);
    bytes.extend(text);
    bytes.push(0);
    let is_fqdn = put_lengths(&mut bytes, text)?;
    if is_fqdn {
        bytes.pop();
        return Some(Parsed {
            form: WireForm::from_wire(bytes),
            is_fqdn: true,
        });
    }
    Some(Parsed {
        form: WireForm::from_wire(bytes),
        is_fqdn: false,
    })
}

/// Puts the length of each label of a text into the octet before it, and a zero after the last one. Returns whether the
/// text ends in a dot, or `None` if a label is not simple.
fn put_lengths(wire: &mut Octets, text: &[u8]) -> Option<bool>
    requires copied { wire.old ≡ 0 ∷ text.now ++ 0 ∷ [] }
    requires some { 0 < length text.now }
    requires fits { length text.now ≤ 253 }
    ensures { IfSome result (PutsLengths text.now wire.new) }
{
    let mut start = 0;
    'labels: loop {
        let len = label_len_at(text, start);
        if len == 0 {
            return None;
        }
        wire.set(start, len as u8);
        let end = start + len;
        if end == text.len() {
            return Some(false);
        }
        if text[end] != b'.' {
            return None;
        }
        start = end + 1;
        if start == text.len() {
            wire.set(start, 0);
            return Some(true);
        }
    }
}

/// Returns the length of the simple label at an offset of a text, or else 0.
#[inline(always)]
fn label_len_at(text: &[u8], at: usize) -> usize
    requires { at ≤ length text.now }
    ensures few { at + result ≤ length text.now }
    ensures label { 0 < result → IsSimpleLabel (take result (drop at text.now)) }
{
    simple_label_len(&text[at..])
}

/// Returns the length of the simple label that a text begins with, if a dot follows, or else 0.
fn dotted_len(text: &[u8]) -> usize
    ensures { 0 < result → IsDottedLabel text.now result }
{
    // A longer run is no label, and is not looked at to its end.
    let len = simple_label_len(&text[..text.len().min(MAX_LABEL + 1)]);
    if len == text.len() || text[len] != b'.' {
        return 0;
    }
    len
}

/// Returns the length of the label that a text begins with, if it is `*` or has simple characters alone, or else 0.
fn simple_label_len(text: &[u8]) -> usize
    ensures few { result ≤ length text.now }
    ensures label { 0 < result → IsSimpleLabel (take result text.now) }
{
    let len = simple_len(text, 0);
    if len == 0 {
        return asterisk_len(text);
    }
    if len > MAX_LABEL || text[0] == b'-' {
        return 0;
    }
    len
}

/// Returns 1 if a text begins with `*`, else 0.
#[tactic(auto, using(crate::proofs::SimpleLabels::asterisk_front))]
fn asterisk_len(text: &[u8]) -> usize
    ensures value { result ≡ (if get_or text.now 0 0 == asterisk then 1 else 0) }
    ensures few { result ≤ length text.now }
    ensures label { 0 < result → IsSimpleLabel (take result text.now) }
{
    match text {
        [b'*', ..] => 1,
        _ => 0,
    }
}

/// Returns the number of simple characters that a text begins with, of which `known` are known.
#[inline(always)]
fn simple_len(text: &[u8], known: usize) -> usize
    requires { IsRun text.now known }
    ensures run { IsRun text.now result }
    ensures longest { result < length text.now → is_simple (get_or text.now result 0) ≡ false }
{
    let mut len = known;
    while len < text.len() && is_simple(text[len]) {
        len += 1;
    }
    len
}

/// The same, with what reading gives after them.
#[inline(always)]
fn run_of(text: &str) -> usize
    ensures { CutsText text.now result (take result text.now) }
{
    run_len(text.as_bytes())
}

/// Returns the number of simple characters that a text begins with. For a long run this takes less than [`simple_len`], and
/// for a short one more.
fn run_len(text: &[u8]) -> usize
    ensures run { IsRun text.now result }
    ensures longest { result < length text.now → is_simple (get_or text.now result 0) ≡ false }
{
    let mut len = 0;
    'fours: while text.len() - len >= 4 && four_are_simple(text, len) {
        len += 4;
    }
    simple_len(text, len)
}

/// Returns `true` if the four bytes at an index are simple characters.
fn four_are_simple(text: &[u8], at: usize) -> bool
    requires { at + 4 ≤ length text.now }
    ensures { IsTrue result → list_all is_simple (take (at + 4) text.now) ≡ list_all is_simple (take at text.now) }
{
    two_are_simple(text, at) && two_are_simple(text, at + 2)
}

/// Returns `true` if the two bytes at an index are simple characters.
fn two_are_simple(text: &[u8], at: usize) -> bool
    requires { at + 2 ≤ length text.now }
    ensures { IsTrue result → list_all is_simple (take (at + 2) text.now) ≡ list_all is_simple (take at text.now) }
{
    is_simple(text[at]) && is_simple(text[at + 1])
}

/// Returns `true` if a byte is a letter, a digit, `-` or `_`: a character that stands for itself.
fn is_simple(byte: u8) -> bool
    ensures { result ≡ is_simple byte }
{
    byte.is_ascii_lowercase() || byte.is_ascii_alphanumeric() || byte == b'-' || byte == b'_'
}
