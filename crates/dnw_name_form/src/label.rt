//! Labels, of which names are made.
ghost use Rattle.std.specs.Prelude.{◌≡◌, ℕ, ◌+◌, ◌*◌, ◌≤◌, ◌<◌, ◌↔◌, List, [], ◌∷◌, ◌++◌, length, Some, Ok, Result, IsTrue, IfOk, IfErr, OnOk, string_bytes};
ghost use Rattle.std.specs.Cmp.{on_total, nat_cmp_total, partial_order_from_own_ties};
ghost use Rattle.std.specs.Cmp.Lexicographic.{slice_cmp};
ghost use Rattle.std.specs.Cmp.Rules.{comparing, hashing};
ghost use Rattle.std.specs.Char.{to_ascii_lowercase};
ghost use Rattle.std.specs.Fmt.{WritesText};
ghost use Rattle.std.specs.List.{list_all};
ghost use Rattle.std.specs.Ordering.{nat_cmp, as_partial_cmp};
ghost use Rattle.std.proofs.Common.{rules};
ghost use Rattle.arrayvec.specs.ArrayString.{array_string_len};
ghost use Rattle.dnw_base.specs.Fault.{Fault, Follows, NeedsErrorText};
ghost use Rattle.dnw_base.specs.Labels.{IsLabel, wildcard};
ghost use Rattle.dnw_name_form.specs.LabelOrder.{lower_label, label_cmp, label_eq, octet_cmp_ignore_case, IsTotalPreorder, IsOctet, AreOctets, of_octets, label_hash_input};
ghost use Rattle.dnw_name_form.specs.LabelText.{label_from_bytes, label_from_text, label_text, is_plain, byte_text, is_label_text, is_safe, may_begin, may_follow};

use crate::lower::lower;
use arrayvec::{ArrayString, ArrayVec};
use dnw_base::error::{DecodeError, ProtoError, ProtoResult};
use dnw_base::limits::MAX_LABEL;
use smallvec::SmallVec;
use std::alloc::Global;
use std::cmp::Ordering;
use std::fmt;
use std::fmt::Write;
use std::hash::{Hash, Hasher};
use std::marker::Model;

/// The most bytes of a label's text: four for each byte of the label.
const MAX_TEXT: usize = 4 * MAX_LABEL;

/// One label of a name: 1 to 63 bytes of any value (RFC 1035, section 3.1; RFC 2181, section 11).
///
/// A contract sees it as the list of its bytes.
#[derive(Drop)]
pub struct Label(SmallVec<u8, MAX_LABEL>);

impl Model for Label {
    ghost use Rattle.std.specs.Prelude.{ℕ, List};
    ghost use Rattle.dnw_base.specs.Labels.{IsLabel};

    ghost Value = { List ℕ };

    ghost view = { λ l. l.0.items };

    ghost invariant = { λ l. IsLabel l.0.items };
}

impl Label {
    /// Creates a label of any 1 to 63 bytes. It does not allocate.
    ///
    /// It fails with a `Message` if there are no bytes, and with `LabelBytesTooLong` if there are too many.
    pub fn from_raw_bytes(alloc: Global, bytes: &[u8]) -> ProtoResult<Self>
        ensures follows { Follows (label_from_bytes bytes.now) ⊥ result }
    {
        if bytes.is_empty() {
            return Err(ProtoError::Message("Label requires a minimum length of 1"));
        }
        if bytes.len() > MAX_LABEL {
            return Err(ProtoError::Decode(DecodeError::LabelBytesTooLong(bytes.len())));
        }
        Ok(Label(SmallVec::from_slice(alloc, bytes).unwrap()))
    }

    /// Creates a label from text: letters, digits, `_`, `.`, a `*` at the start and a `-` anywhere else. There are no
    /// escapes.
    ///
    /// It fails with `LabelBytesTooLong` if the text has more than 63 bytes, and with a `Msg` if it is empty or has
    /// another character. Only the text of that error is allocated.
    pub fn from_ascii(alloc: Global, s: &str) -> ProtoResult<Self>
        ensures follows { Follows (label_from_text s.now) (NeedsErrorText (label_from_text s.now)) result }
    {
        if s.len() > MAX_LABEL {
            return Err(ProtoError::Decode(DecodeError::LabelBytesTooLong(s.len())));
        }
        if !is_label_text(s.as_bytes()) {
            return Err(ProtoError::Msg(format!(in alloc; "Malformed label: {s}")?));
        }
        Label::from_raw_bytes(alloc, s.as_bytes())
    }

    /// Creates the label `*` (RFC 4592, section 2.1.1). It does not allocate and cannot fail.
    pub fn wildcard(alloc: Global) -> ProtoResult<Self>
        ensures { result ≡ Ok wildcard }
    {
        Ok(Label(SmallVec::from_slice(alloc, b"*").unwrap()))
    }

    /// Returns the label with its ASCII letters in lower case (RFC 4343). It does not allocate and cannot fail.
    pub fn to_lowercase(&self) -> ProtoResult<Self>
        ensures { result ≡ Ok (lower_label self.now) }
    {
        let mut bytes = SmallVec::from_slice(*self.0.allocator(), self.0.as_slice()).unwrap();
        bytes.as_mut_slice().make_ascii_lowercase();
        Ok(Label(bytes))
    }

    /// Returns `true` if this is the label `*` (RFC 4592, section 2.1.1).
    pub fn is_wildcard(&self) -> bool
        ensures { IsTrue result ↔ (self.now ≡ wildcard) }
    {
        self.as_bytes() == b"*".as_slice()
    }

    /// Copies the label. It does not allocate.
    pub fn clone(&self) -> ProtoResult<Self>
        ensures { result ≡ Ok self.now }
    {
        Ok(Label(SmallVec::from_slice(*self.0.allocator(), self.0.as_slice()).unwrap()))
    }

    /// Returns the number of bytes, 1 to 63.
    #[inline(always)]
    pub fn len(&self) -> usize
        ensures { result ≡ length self.now }
    {
        self.0.len()
    }

    /// Returns `false`: a label has at least one byte.
    pub fn is_empty(&self) -> bool
        ensures { IsTrue result ↔ (self.now ≡ []) }
    {
        self.0.is_empty()
    }

    /// Returns the bytes as they are on the wire, without the length octet.
    #[inline(always)]
    pub fn as_bytes(&self) -> &[u8]
        ensures bytes { result.now ≡ self.now }
        ensures label { IsLabel self.now }
    {
        self.0.as_slice()
    }

    /// Returns `true` if the labels are equal, ignoring ASCII case (RFC 4343).
    pub fn eq_ignore_ascii_case(&self, other: &Self) -> bool
        ensures { IsTrue result ↔ (lower_label self.now ≡ lower_label other.now) }
    {
        self.as_bytes().eq_ignore_ascii_case(other.as_bytes())
    }

    /// Compares two labels byte by byte from the left, as `F` compares bytes. A label that is the beginning of another
    /// comes before it.
    pub fn cmp_with_f<F: LabelCmp>(&self, other: &Self) -> Ordering
        ensures order { result ≡ slice_cmp F.order self.now other.now }
        ensures total { IsTotalPreorder AreOctets (slice_cmp F.order) }
    {
        cmp_bytes::<F>(self.as_bytes(), other.as_bytes())
    }

    /// Returns the label as text. Letters, digits and `_` stand for themselves, and so do a `*` at the start and a `-`
    /// anywhere else. Other visible ASCII characters follow a backslash, and all other bytes are written as a
    /// backslash and three octal digits.
    pub fn to_ascii(&self, alloc: Global) -> ProtoResult<String>
        ensures ok { IfOk result (λ text. string_bytes text ≡ label_text self.now) }
        ensures err { IfErr result (λ e. e ≡ ProtoError.Memory) }
    {
        Ok(self.to_string(alloc)?)
    }

    /// Writes the text of `to_ascii`. The only error is that of the writer.
    pub fn write_ascii<W: fmt::Write>(&self, f: &mut W) -> fmt::Result
        ensures { OnOk result (WritesText W.write_str_gives f.old (Some (label_text self.now)) f.new) }
    {
        f.write(self)
    }
}

/// Returns `true` if a text, as bytes, gives a label when it is not too long.
pub fn is_label_text(text: &[u8]) -> bool
    ensures { result ≡ is_label_text text.now }
{
    let Some((first, rest)) = text.split_first() else {
        return false;
    };
    may_begin(*first) && all_may_follow(rest)
}

/// Returns `true` if each byte may follow the first one of a label's text. It goes by index, which takes half the
/// instructions of an iterator.
fn all_may_follow(text: &[u8]) -> bool
    ensures { result ≡ list_all may_follow text.now }
{
    let mut index = 0;
    while index < text.len() {
        if !may_follow(text[index]) {
            return false;
        }
        index += 1;
    }
    true
}

fn is_safe(c: u8) -> bool
    ensures { result ≡ is_safe c }
{
    c.is_ascii_alphanumeric() || c == b'_'
}

fn may_begin(c: u8) -> bool
    ensures { result ≡ may_begin c }
{
    is_safe(c) || c == b'*' || c == b'.'
}

fn may_follow(c: u8) -> bool
    ensures { result ≡ may_follow c }
{
    c.is_ascii_lowercase() || is_safe(c) || c == b'-' || c == b'.'
}

fn is_plain(first: bool, byte: u8) -> bool
    ensures { result ≡ is_plain first byte }
{
    byte.is_ascii() && (is_safe(byte) || (byte == b'-' && !first) || (byte == b'*' && first))
}

/// Appends a byte of a label as text.
///
/// Small letters come first, since most bytes are; and if a byte is known to be ASCII, its character takes one byte.
fn push_byte_text<const N: usize>(out: &mut ArrayString<N>, first: bool, byte: u8)
    requires { array_string_len out.old + 4 ≤ N }
    ensures text { out.new.bytes ≡ out.old.bytes ++ byte_text first byte }
    ensures len { array_string_len out.new ≤ array_string_len out.old + 4 }
{
    if byte.is_ascii_lowercase() || is_plain(first, byte) {
        out.push(char::from(byte));
    } else if byte.is_ascii_graphic() {
        out.push('\\');
        out.push(char::from(byte));
    } else {
        out.push('\\');
        out.push(char::from(b'0' + byte / 64));
        out.push(char::from(b'0' + byte / 8 % 8));
        out.push(char::from(b'0' + byte % 8));
    }
}

/// Appends a label as text.
pub fn push_label_text<const N: usize>(out: &mut ArrayString<N>, label: &[u8])
    requires { array_string_len out.old + 4 * length label.now ≤ N }
    ensures text { out.new.bytes ≡ out.old.bytes ++ label_text label.now }
    ensures room { array_string_len out.new ≤ array_string_len out.old + 4 * length label.now }
{
    let Some((first, rest)) = label.split_first() else {
        return;
    };
    push_byte_text(out, true, *first);
    for byte in rest {
        push_byte_text(out, false, *byte);
    }
}

impl fmt::Display for Label {
    ghost output = { λ l. Some (label_text l) };

    fn fmt<W: fmt::Write>(&self, f: &mut fmt::Formatter<W>) -> fmt::Result {
        let mut text = ArrayString::<MAX_TEXT>::new();
        push_label_text(&mut text, self.as_bytes());
        f.write_str(text.as_str())
    }
}

impl fmt::Debug for Label {
    fn fmt<W: fmt::Write>(&self, f: &mut fmt::Formatter<W>) -> fmt::Result {
        fmt::Display::fmt(self, f)
    }
}

/// Labels are equal ignoring ASCII case (RFC 4343).
impl PartialEq for Label {
    ghost eq = { label_eq };

    ghost laws = { Prim.search (comparing, rules) };

    fn eq(&self, other: &Self) -> bool {
        self.eq_ignore_ascii_case(other)
    }
}

impl Eq for Label {
    ghost laws = { Prim.search (comparing, rules) };
}

impl PartialOrd for Label {
    ghost partial_cmp = { as_partial_cmp label_cmp };

    ghost laws = { partial_order_from_own_ties (Prim.search (comparing, rules)) (Prim.search (comparing, rules)) };

    fn partial_cmp(&self, other: &Self) -> Option<Ordering> {
        Some(self.cmp(other))
    }
}

/// Labels are ordered as strings of unsigned bytes from the left, a shorter one before those that it begins, and ignoring
/// ASCII case (RFC 4034, section 6.1).
impl Ord for Label {
    ghost cmp = { label_cmp };

    ghost total = { Prim.search (comparing, rules) };

    ghost matches_partial_cmp = { Prim.search (comparing, rules) };

    ghost matches_eq = { Prim.search (comparing, rules) };

    fn cmp(&self, other: &Self) -> Ordering {
        self.cmp_with_f::<CaseInsensitive>(other)
    }
}

/// A label is hashed as its length and its bytes in lower case, so equal labels have equal hashes.
impl Hash for Label {
    ghost hash_input = { label_hash_input };

    ghost respects_eq = { Prim.search (hashing, rules) };

    fn hash<H: Hasher>(&self, state: &mut H) {
        let mut lowered = ArrayVec::<u8, MAX_LABEL>::new();
        lowered.try_extend_from_slice(self.as_bytes()).unwrap();
        lowered.as_mut_slice().make_ascii_lowercase();
        state.write_u8(self.len() as u8);
        state.write(lowered.as_slice());
    }
}

/// How the bytes of labels compare.
pub trait LabelCmp {
    ghost use Rattle.std.specs.Prelude.{◌≡◌, ℕ};
    ghost use Rattle.std.specs.declared.cmp.Ordering.{Ordering};
    ghost use Rattle.dnw_name_form.specs.LabelOrder.{IsTotalPreorder, IsOctet};

    // How two bytes compare.
    ghost order: { ℕ → ℕ → Ordering };

    /// Compares two bytes.
    fn cmp_u8(l: u8, r: u8) -> Ordering
        ensures { result ≡ order l r };

    // The bytes are totally ordered, though different ones may be equal.
    ghost total: { IsTotalPreorder IsOctet order };
}

/// Compares bytes as they are.
pub struct CaseSensitive;

impl LabelCmp for CaseSensitive {
    ghost order = { nat_cmp };

    ghost total = { of_octets nat_cmp_total };

    fn cmp_u8(l: u8, r: u8) -> Ordering {
        l.cmp(&r)
    }
}

/// Compares bytes ignoring ASCII case (RFC 4343).
pub struct CaseInsensitive;

impl LabelCmp for CaseInsensitive {
    ghost order = { octet_cmp_ignore_case };

    ghost total = { of_octets (on_total to_ascii_lowercase nat_cmp_total) };

    fn cmp_u8(l: u8, r: u8) -> Ordering {
        lower(l).cmp(&lower(r))
    }
}

/// Compares bytes from the left by `F`: the first that are not equal decide, and else the lengths.
pub fn cmp_bytes<F: LabelCmp>(left: &[u8], right: &[u8]) -> Ordering
    ensures { result ≡ slice_cmp F.order left.now right.now }
{
    for i in 0..left.len().min(right.len()) {
        let order = F::cmp_u8(left[i], right[i]);
        if order.is_ne() {
            return order;
        }
    }
    left.len().cmp(&right.len())
}

/// Types that give a label: labels, texts and bytes.
pub trait IntoLabel {
    ghost use Rattle.std.specs.Prelude.{List, ℕ, Result};
    ghost use Rattle.dnw_base.specs.Fault.{Fault};

    // The label, or why there is none.
    ghost label_of: { Self → Result (List ℕ) Fault };

    // Making the label, or the error, may allocate.
    ghost may_run_out: { Self → Type 0 };

    /// Makes the label.
    fn into_label(self, alloc: Global) -> ProtoResult<Label>
        ensures follows { Follows (label_of self) (may_run_out self) result };
}

impl IntoLabel for Label {
    ghost label_of = { Ok };

    ghost may_run_out = { λ _. ⊥ };

    fn into_label(self, _alloc: Global) -> ProtoResult<Label> {
        Ok(self)
    }
}

impl<'a> IntoLabel for &'a Label {
    ghost label_of = { λ label. Ok label.now };

    ghost may_run_out = { λ _. ⊥ };

    fn into_label(self, _alloc: Global) -> ProtoResult<Label> {
        self.clone()
    }
}

impl<'a> IntoLabel for &'a str {
    ghost label_of = { λ text. label_from_text text.now };

    ghost may_run_out = { λ text. NeedsErrorText (label_from_text text.now) };

    fn into_label(self, alloc: Global) -> ProtoResult<Label> {
        Label::from_ascii(alloc, self)
    }
}

impl IntoLabel for String {
    ghost label_of = { λ text. label_from_text (string_bytes text) };

    ghost may_run_out = { λ text. NeedsErrorText (label_from_text (string_bytes text)) };

    fn into_label(self, alloc: Global) -> ProtoResult<Label> {
        Label::from_ascii(alloc, self.as_str())
    }
}

impl<'a> IntoLabel for &'a [u8] {
    ghost label_of = { λ bytes. label_from_bytes bytes.now };

    ghost may_run_out = { λ _. ⊥ };

    fn into_label(self, alloc: Global) -> ProtoResult<Label> {
        Label::from_raw_bytes(alloc, self)
    }
}

impl IntoLabel for Vec<u8> {
    ghost label_of = { λ bytes. label_from_bytes bytes.items };

    ghost may_run_out = { λ _. ⊥ };

    fn into_label(self, alloc: Global) -> ProtoResult<Label> {
        Label::from_raw_bytes(alloc, self.as_slice())
    }
}
