//! Records as lines of master files (RFC 1035, section 5.1), printed and parsed.
ghost use Rattle.std.specs.Prelude.{◌≡◌, ◌≤◌, ◌+◌, ◌-◌, ℕ, List, [], ◌∷◌, ◌++◌, length, take, drop, true, IfOk, IfErr, IfSome, MatchOption, string_bytes};
ghost use Rattle.std.specs.Int.{w16, to_be_bytes};
ghost use Rattle.std.specs.Option.{option_copied};
ghost use Rattle.dnw_base.specs.Names.{wire};
ghost use Rattle.dnw_base.specs.declared.dns_class.DNSClass.{DNSClass};
ghost use Rattle.dnw_base.specs.declared.record_type.RecordType.{RecordType};
ghost use Rattle.dnw_zone_data.specs.DataTexts.{IsDataText};
ghost use Rattle.dnw_zone_data.specs.TypeLists.{IsTypeWord};
ghost use Rattle.dnw_base.specs.Limits.{max_data};
ghost use Rattle.dnw_zone_record.specs.RecordLines.{FailsAfterOwner, FailsDataOf, FailsHead, FailsRecordLine, FailsRecordOf, HasClassNext, HasTtlAndClass, IsAfterOwner, IsClassWord, IsDataOf, IsHead, IsRecordLine, IsRecordOf, IsTtlWord, LacksTtl, LacksTtlWord, LacksTypeWord, after_next_word, next_offset, next_word, record_line};
ghost use Rattle.dnw_zone_record.specs.Inside.Fronts.{front_octets};

use dnw_base::dns_class::DNSClass;
use dnw_base::limits::{MAX_DATA, MAX_NAME};
use dnw_base::record_type::RecordType;
use dnw_name::name::Name;
use dnw_name_form::form::WireForm;
use dnw_record::record_ref::RecordRef;
use dnw_zone_data::data_text::{append_in_line, data_text};
use dnw_zone_data::error::DataTextError;
use dnw_zone_data::name::{fill_other, put_plain, write_name};
use dnw_zone_data::number_form::{first_number, period_seconds};
use dnw_zone_data::types::type_of_word;
use dnw_zone_data::words::{after_spaces, is_asterisk, split_word};
use std::alloc::{AllocError, Global};
use std::str;
use thiserror::Error;

/// Why a line is no record.
#[derive(Debug, Drop, Error)]
pub enum RecordLineError {
    /// The line does not begin with a name.
    #[error("at offset 0: wanted an owner")]
    NoOwner,
    /// No time to live is after the owner, nor after the class there.
    #[error("at offset {offset}: wanted a time to live")]
    NoTimeToLive {
        /// The offset of what is after the owner, in the line.
        offset: usize,
    },
    /// No type is after the time to live and the class.
    #[error("at offset {offset}: wanted a record type")]
    NoType {
        /// The offset of what is there, in the line.
        offset: usize,
    },
    /// The rest of the line is no data of the class and type. The offset is counted in the line.
    #[error("{0}")]
    Data(DataTextError),
    /// The data have more than 65535 octets.
    #[error("at offset {offset}: wanted data of at most 65535 octets")]
    TooLong {
        /// The offset of the data, in the line.
        offset: usize,
    },
    /// An allocation failed.
    #[error("out of memory")]
    Memory,
}

impl From<AllocError> for RecordLineError {
    ghost use Rattle.std.specs.Prelude.{◌≡◌};
    ghost use Rattle.dnw_zone_record.specs.declared.record_line.RecordLineError.TheVariants.{Memory};

    ghost from_gives = { λ _ e. e ≡ Memory };

    fn from(_: AllocError) -> Self {
        RecordLineError::Memory
    }
}

/// The octets that a record has room for at first. Most have fewer.
const FIRST_ROOM: usize = 256;

/// What a line has between the owner and the data.
#[derive(Clone, Copy)]
pub(crate) struct LineHead {
    pub(crate) record_type: RecordType,
    pub(crate) class: DNSClass,
    pub(crate) ttl: u32,
}

/// Returns a record as a line of a master file (RFC 1035, section 5.1): the owner, the time to live, the class, the type and
/// the data, with a space between them. Of data that are left out, under NONE or ANY, there is nothing (RFC 2136, section 2.4).
///
/// It fails only if it runs out of memory.
pub fn record_text(alloc: Global, record: &RecordRef<'_>) -> Result<String, AllocError>
    ensures { IfOk result (λ line. (text : List ℕ) × IsDataText «record».now text × (string_bytes line ≡ record_line «record».now text)) }
{
    let text = data_text(alloc, record)?;
    let line = line_of(alloc, record, text.as_str())?;
    Ok(line)
}

/// Returns the line of a record whose data have this text.
fn line_of(alloc: Global, record: &RecordRef<'_>, text: &str) -> Result<String, AllocError>
    ensures { IfOk result (λ line. string_bytes line ≡ record_line «record».now text.now) }
{
    let ttl = record.ttl();
    let class = record.class().to_text();
    let record_type = record.record_type().to_text();
    let mut line = String::new(alloc);
    write_name(record.owner(), &mut line)?;
    write!(line, " {ttl} {} {}", class.as_str(), record_type.as_str())?;
    if text.is_empty() {
        return Ok(line);
    }
    write!(line, " {text}")?;
    Ok(line)
}

/// Returns the octets of the record that a line of a master file is, with names that are not compressed: the owner, two octets
/// of type, two of class, four of time to live, two of the length of the data, and the data.
///
/// The line has the owner, the time to live, the class, the type and the data, as `record_text` prints them. The class may be
/// before the time to live, or left out for `IN`. An origin completes names without a dot at their end. Parentheses and comments
/// are not part of a line, and nothing is known of a line before: so the owner and the time to live must be there.
#[tactic(auto, unfolding(crate::specs::RecordLines::FailsRecordLine))]
pub fn parse_record(
    alloc: Global,
    line: &str,
    origin: Option<&Name>,
) -> Result<Vec<u8>, RecordLineError>
    ensures ok { IfOk result (λ own. IsRecordLine (option_copied origin.entry) line.now own.items) }
    ensures err { IfErr result (FailsRecordLine (option_copied origin.entry) line.now) }
{
    let (word, rest) = split_word(line.as_bytes());
    record_of(alloc, line.len(), word, rest, origin)
}

/// Returns the octets of a record whose owner is a word, and of which a text has the rest.
pub(crate) fn record_of(
    alloc: Global,
    len: usize,
    word: &[u8],
    rest: &[u8],
    origin: Option<&Name>,
) -> Result<Vec<u8>, RecordLineError>
    requires within { length rest.now ≤ len }
    ensures ok { IfOk result (λ own. IsRecordOf (option_copied origin.entry) word.now rest.now own.items) }
    ensures err { IfErr result (FailsRecordOf (option_copied origin.entry) len word.now rest.now) }
{
    let mut room = [0; MAX_NAME];
    if let Some(own) = put_plain(&mut room, word) {
        return after_owner(alloc, len, &room[..own], rest, origin);
    }
    let mut owner = WireForm::new(alloc);
    if !fill_other(&mut owner, word, origin) {
        return Err(RecordLineError::NoOwner);
    }
    after_owner(alloc, len, owner.as_bytes(), rest, origin)
}

/// Returns the octets of a record of the owner with this wire form, of which the text has the rest.
fn after_owner(
    alloc: Global,
    len: usize,
    owner: &[u8],
    left: &[u8],
    origin: Option<&Name>,
) -> Result<Vec<u8>, RecordLineError>
    requires within { length left.now ≤ len }
    ensures ok { IfOk result (λ own. (labels : List (List ℕ)) → owner.now ≡ wire labels → IsAfterOwner (option_copied origin.entry) labels left.now own.items) }
    ensures err { IfErr result (FailsAfterOwner (option_copied origin.entry) len left.now) }
{
    let (head, text) = head_of(len, left)?;
    let mut octets = front_octets(alloc, owner, head)?;
    let start = octets.len();
    append_data(
        alloc,
        head.class,
        head.record_type,
        len,
        text,
        origin,
        &mut octets,
    )?;
    put_data_len(&mut octets, start);
    Ok(octets)
}

/// Returns what is between the owner and the data, and the text of the data.
fn head_of(len: usize, text: &[u8]) -> Result<(LineHead, &[u8]), RecordLineError>
    requires within { length text.now ≤ len }
    ensures ok { IfOk result (λ r. IsHead text.now r.0 r.1.now) }
    ensures rest { IfOk result (λ r. length r.1.now ≤ length text.now) }
    ensures err { IfErr result (FailsHead len text.now) }
{
    match ttl_and_class(text) {
        Some((ttl, class, left)) => before_type(len, ttl, class, left),
        None => Err(RecordLineError::NoTimeToLive {
            offset: len - after_spaces(text).len(),
        }),
    }
}

/// Returns what is between the owner and the data, of which the text has the type, and the text of the data.
fn before_type(
    len: usize,
    ttl: u32,
    class: DNSClass,
    left: &[u8],
) -> Result<(LineHead, &[u8]), RecordLineError>
    requires within { length left.now ≤ len }
    ensures ok { IfOk result (λ r. (r.0.ttl ≡ ttl) × (r.0.class ≡ class) × IsTypeWord (next_word left.now) r.0.record_type × (r.1.now ≡ after_next_word left.now)) }
    ensures rest { IfOk result (λ r. length r.1.now ≤ length left.now) }
    ensures err { IfErr result (λ e. (e ≡ RecordLineError.NoType (next_offset len left.now)) × LacksTypeWord left.now) }
{
    let (word, rest) = next_word(left);
    let Some(record_type) = type_of_word(word) else {
        return Err(RecordLineError::NoType {
            offset: len - after_spaces(left).len(),
        });
    };
    let head = LineHead {
        record_type,
        class,
        ttl,
    };
    Ok((head, rest))
}

/// Returns the time to live and the class that a text begins with, in either order, and what is after them.
fn ttl_and_class(text: &[u8]) -> Option<(u32, DNSClass, &[u8])>
    ensures is { MatchOption result (LacksTtl text.now) (λ r. HasTtlAndClass text.now r.0 r.1 r.2.now) }
    ensures within { IfSome result (λ r. length r.2.now ≤ length text.now) }
{
    match next_ttl(text) {
        Some((ttl, rest)) => {
            let (class, rest) = class_or_in(rest);
            Some((ttl, class, rest))
        }
        None => class_and_ttl(text),
    }
}

/// Returns the class and then the time to live that a text begins with, and what is after them.
fn class_and_ttl(text: &[u8]) -> Option<(u32, DNSClass, &[u8])>
    requires { LacksTtlWord text.now }
    ensures is { MatchOption result (LacksTtl text.now) (λ r. HasTtlAndClass text.now r.0 r.1 r.2.now) }
    ensures within { IfSome result (λ r. length r.2.now ≤ length text.now) }
{
    let (word, rest) = next_word(text);
    let Some(class) = class_of(word) else {
        return None;
    };
    let Some((ttl, rest)) = next_ttl(rest) else {
        return None;
    };
    Some((ttl, class, rest))
}

/// Returns the class that a text begins with, or `IN`, and what is after it.
fn class_or_in(text: &[u8]) -> (DNSClass, &[u8])
    ensures next { HasClassNext text.now result.0 result.1.now }
    ensures within { length result.1.now ≤ length text.now }
{
    let (word, rest) = next_word(text);
    match class_of(word) {
        Some(class) => (class, rest),
        None => (DNSClass::IN, text),
    }
}

/// Returns the next word of a text, and what is after it.
#[inline(always)]
pub fn next_word(text: &[u8]) -> (&[u8], &[u8])
    ensures word { result.0.now ≡ next_word text.now }
    ensures rest { result.1.now ≡ after_next_word text.now }
    ensures within { length result.1.now ≤ length text.now }
{
    split_word(after_spaces(text))
}

/// Returns the time to live that the next word of a text is, and what is after it.
#[inline(always)]
pub fn next_ttl(text: &[u8]) -> Option<(u32, &[u8])>
    ensures is { MatchOption result (LacksTtlWord text.now) (λ r. IsTtlWord (next_word text.now) r.0 × (r.1.now ≡ after_next_word text.now)) }
    ensures within { IfSome result (λ r. length r.1.now ≤ length text.now) }
{
    let start = after_spaces(text);
    if let Some((ttl, rest)) = first_number(start) {
        return Some((ttl, rest));
    }
    let (word, rest) = split_word(start);
    let Some(ttl) = ttl_of(word) else {
        return None;
    };
    Some((ttl, rest))
}

/// Returns the time to live that a word is.
pub fn ttl_of(word: &[u8]) -> Option<u32>
    ensures { MatchOption result ((n : ℕ) → ¬ (IsTtlWord word.now n)) (IsTtlWord word.now) }
{
    period_seconds(word)
}

/// Returns the class that a word is. `*` is none: it asks for all classes.
pub fn class_of(word: &[u8]) -> Option<DNSClass>
    ensures { MatchOption result ((class : DNSClass) → ¬ (IsClassWord word.now class)) (IsClassWord word.now) }
{
    if is_internet(word) {
        return Some(DNSClass::IN);
    }
    if is_asterisk(word) {
        return None;
    }
    let text = str::from_utf8(word).ok()?;
    DNSClass::from_text(text)
}

/// Returns `true` for `IN`, as nearly every class is.
#[inline(always)]
fn is_internet(word: &[u8]) -> bool
    ensures { result ≡ true → IsClassWord word.now DNSClass.IN }
{
    match word {
        [first, second] => *first == b'I' && *second == b'N',
        _ => false,
    }
}

/// Returns the octets of the data that a text is.
pub fn data_of(
    alloc: Global,
    class: DNSClass,
    record_type: RecordType,
    len: usize,
    text: &[u8],
    origin: Option<&Name>,
) -> Result<Vec<u8>, RecordLineError>
    requires within { length text.now ≤ len }
    ensures ok { IfOk result (λ own. IsDataOf (option_copied origin.entry) class record_type text.now own.items) }
    ensures err { IfErr result (FailsDataOf (option_copied origin.entry) class record_type len text.now) }
{
    let mut own = Vec::with_capacity(alloc, FIRST_ROOM)?;
    append_data(alloc, class, record_type, len, text, origin, &mut own)?;
    Ok(own)
}

/// Appends the octets of the data that a text is. After an error some may be appended.
fn append_data(
    alloc: Global,
    class: DNSClass,
    record_type: RecordType,
    len: usize,
    text: &[u8],
    origin: Option<&Name>,
    out: &mut Vec<u8>,
) -> Result<(), RecordLineError>
    requires within { length text.now ≤ len }
    ensures ok { IfOk result (λ _. (own : List ℕ) × IsDataOf (option_copied origin.entry) class record_type text.now own × (out.new.items ≡ out.old.items ++ own)) }
    ensures err { IfErr result (FailsDataOf (option_copied origin.entry) class record_type len text.now) }
{
    let start = out.len();
    match append_in_line(alloc, class, record_type, len, text, origin, out) {
        Ok(()) if out.len() - start <= MAX_DATA => Ok(()),
        Ok(()) => Err(RecordLineError::TooLong {
            offset: len - after_spaces(text).len(),
        }),
        Err(DataTextError::Memory) => Err(RecordLineError::Memory),
        Err(error) => Err(RecordLineError::Data(error)),
    }
}

/// Returns the octets of a record before its data, with zeros for their length.
fn front_octets(alloc: Global, owner: &[u8], head: LineHead) -> Result<Vec<u8>, AllocError>
    ensures { IfOk result (λ octets. octets.items ≡ front_octets owner.now head ++ 0 ∷ 0 ∷ []) }
{
    let mut octets = Vec::with_capacity(alloc, FIRST_ROOM)?;
    octets.extend_from_slice(owner)?;
    octets.extend_from_slice(&u16::from(head.record_type).to_be_bytes())?;
    octets.extend_from_slice(&u16::from(head.class).to_be_bytes())?;
    octets.extend_from_slice(&head.ttl.to_be_bytes())?;
    octets.extend_from_slice(&[0, 0])?;
    Ok(octets)
}

/// Puts the number of octets from an offset on into the two before it.
fn put_data_len(octets: &mut Vec<u8>, start: usize)
    requires front { 2 ≤ start }
    requires within { start ≤ length octets.old.items }
    requires few { length octets.old.items ≤ start + max_data }
    ensures { octets.new.items ≡ take (start - 2) octets.old.items ++ to_be_bytes w16 (length octets.old.items - start) ++ drop start octets.old.items }
{
    let len = (octets.len() - start) as u16;
    let [high, low] = len.to_be_bytes();
    let own = octets.as_mut_slice();
    own[start - 2] = high;
    own[start - 1] = low;
}
