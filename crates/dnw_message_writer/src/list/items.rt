//! Lists of the items of a message.
ghost use Rattle.std.specs.Prelude.{◌≡◌, ◌≢◌, ◌<◌, ◌≤◌, ◌||◌, ◌↔◌, length, IsTrue, IfOk, IfErr, IfSome, IfNone, OnOk};
ghost use Rattle.dnw_base.specs.Decoder.{advanced};
ghost use Rattle.dnw_record.specs.Records.{TakesRecord};
ghost use Rattle.dnw_message_writer.specs.ListResults.{at_offset};
ghost use Rattle.dnw_message_writer.specs.declared.list.ListError.TheVariants.{BadItem};
ghost use Rattle.dnw_message_writer.specs.Lists.{BeginsWithOctet, FailsToScan, IsBadList, IsNoItem, IsNoneOfSet, IsNoOctet, IsOctetOf, IsOfRun, LacksListed, PassesEnd, ScansItem, ScansList, TakesListed, TakesQuestion, place_of, question_octet};
ghost use Rattle.dnw_message_writer.specs.ListEnds.{is_put_last};

use crate::copying::is_of_set;
use crate::list::ListError;
use crate::list::ends::{Ends, is_put_last};
use crate::needs::Purpose;
use crate::section::Section;
use dnw_base::decoder::BinDecoder;
use dnw_name::name_ref::NameRef;
use dnw_record::record_ref::RecordRef;

/// The octet before a question.
pub(crate) const QUESTION: u8 = 0;
/// What the octet of a record has besides its section if the caller says that the message has to have it.
pub(crate) const REQUIRED: u8 = 32;
/// What it has if the caller says that it may be left out.
pub(crate) const OPTIONAL: u8 = 128;

/// A question of a list.
#[derive(Drop)]
pub(crate) struct Question<'l> {
    pub(crate) name: NameRef<'l>,
    pub(crate) query_type: u16,
    pub(crate) class: u16,
}

/// What the items of a list say of their message.
#[derive(Drop)]
pub(crate) struct Scan<'l> {
    /// The records that come last.
    pub(crate) ends: Ends<'l>,
    /// What the message is for.
    pub(crate) purpose: Purpose<'l>,
}

/// Returns what the items of a list say of their message, which has these flags.
pub(crate) fn scan_list(items: &[u8], flags: u16) -> Result<Scan<'_>, ListError>
    ensures ok { IfOk result (λ found. ScansList items.now flags found.ends found.purpose) }
    ensures err { IfErr result (IsBadList items.now flags) }
{
    let mut decoder = BinDecoder::new(items);
    let mut last = 0;
    let mut ends = Ends::new();
    let mut purpose = Purpose::new(flags);
    'list: while !decoder.is_empty() {
        let octet = octet_at(&decoder);
        let place = place_of(octet);
        if place < last {
            return Err(ListError::BadItem);
        }
        scan_item(octet, &mut decoder, &mut ends, &mut purpose)?;
        last = place;
    }
    Ok(Scan { ends, purpose })
}

/// Reads past an item, which is one more of a message.
fn scan_item<'l>(
    octet: u8,
    decoder: &mut BinDecoder<'l>,
    ends: &mut Ends<'l>,
    purpose: &mut Purpose<'l>,
) -> Result<(), ListError>
    requires { BeginsWithOctet decoder.old octet }
    ensures ok { OnOk result (ScansItem octet decoder.old ends.old purpose.old decoder.new ends.new purpose.new) }
    ensures err { IfErr result (FailsToScan octet decoder.old ends.old) }
{
    if octet == QUESTION {
        let question = read_question(decoder)?;
        purpose.ask(question.query_type);
        return Ok(());
    }
    let Some(section) = section_after(octet) else {
        return Err(ListError::BadItem);
    };
    let record = read_record(decoder)?;
    if is_put_last(octet, &record) {
        return ends.take(record);
    }
    purpose.take(section, record);
    Ok(())
}

/// Returns the octet before the next item.
pub(crate) fn octet_at(decoder: &BinDecoder<'_>) -> u8
    requires { decoder.now.index < length decoder.now.bytes }
    ensures { BeginsWithOctet decoder.now result }
{
    decoder.message()[decoder.index()]
}

/// Reads a question.
#[inline(always)]
pub(crate) fn read_question<'l>(decoder: &mut BinDecoder<'l>) -> Result<Question<'l>, ListError>
    requires { BeginsWithOctet decoder.old question_octet }
    ensures ok { IfOk result (λ q. TakesQuestion decoder.old q.name q.query_type q.class decoder.new) }
    ensures err { IfErr result (λ failure. IsNoItem decoder.old × (failure ≡ BadItem)) }
{
    decoder.skip(1).unwrap();
    let Ok(name) = NameRef::read(decoder) else {
        return Err(ListError::BadItem);
    };
    let Ok(query_type) = decoder.read_u16() else {
        return Err(ListError::BadItem);
    };
    let Ok(class) = decoder.read_u16() else {
        return Err(ListError::BadItem);
    };
    Ok(Question {
        name,
        query_type: query_type.unverified(),
        class: class.unverified(),
    })
}

/// Reads a record after its octet.
#[inline(always)]
pub(crate) fn read_record<'l>(decoder: &mut BinDecoder<'l>) -> Result<RecordRef<'l>, ListError>
    requires { decoder.old.index < length decoder.old.bytes }
    ensures ok { IfOk result (λ x. TakesRecord (advanced decoder.old 1) x decoder.new) }
    ensures err { IfErr result (λ failure. LacksListed decoder.old × (failure ≡ BadItem)) }
{
    decoder.skip(1).unwrap();
    let Ok(record) = RecordRef::read_next(decoder) else {
        return Err(ListError::BadItem);
    };
    Ok(record)
}

/// Returns the place of an item in the order of a list.
fn place_of(octet: u8) -> u8
    ensures { result ≡ place_of octet }
{
    octet % 4
}

/// Returns the section of a record by the octet before it.
pub(crate) fn section_after(octet: u8) -> Option<Section>
    ensures some { IfSome result (IsOctetOf octet) }
    ensures none { IfNone result (octet ≢ question_octet → IsNoOctet octet) }
{
    match octet {
        1 | 33 | 129 => Some(Section::Answers),
        2 | 34 | 130 => Some(Section::Authorities),
        3 | 35 | 131 => Some(Section::Additionals),
        _ => None,
    }
}

/// Returns a decoder of a list, at an offset of it.
pub(crate) fn list_at(items: &[u8], start: usize) -> Option<BinDecoder<'_>>
    ensures some { IfSome result (λ d. (d ≡ at_offset items.now start) × (start ≤ length items.now)) }
    ensures none { IfNone result (length items.now < start) }
{
    if items.len() < start {
        return None;
    }
    let mut decoder = BinDecoder::new(items);
    decoder.skip(start).unwrap();
    Some(decoder)
}

/// Returns a decoder of the same list, at the same offset.
#[inline(always)]
pub(crate) fn again<'l>(decoder: &BinDecoder<'l>) -> BinDecoder<'l>
    ensures { result ≡ decoder.now }
{
    let mut again = BinDecoder::new(decoder.message());
    again.skip(decoder.index()).unwrap();
    again
}

/// Reads the next record of a list if it has this octet and is of the set of the first one. If it returns `None`, the cursor is
/// unchanged.
pub(crate) fn next_of_set<'l>(
    octet: u8,
    first: &RecordRef<'_>,
    decoder: &mut BinDecoder<'l>,
) -> Option<RecordRef<'l>>
    ensures some { IfSome result (λ x. TakesListed decoder.old octet x decoder.new × IsOfRun octet first.now x) }
    ensures none { IfNone result (IsNoneOfSet decoder.old octet first.now × (decoder.new ≡ decoder.old)) }
{
    let left = decoder.len();
    if left == 0 {
        return None;
    }
    let next = octet_at(decoder);
    if next != octet {
        return None;
    }
    let mut ahead = again(decoder);
    let record = match read_record(&mut ahead) {
        Ok(record) => record,
        Err(_) => return None,
    };
    if !is_of_run(octet, first, &record) {
        return None;
    }
    *decoder = ahead;
    Some(record)
}

/// Reads past a record after this octet if it comes last, or any if the message is bare. Returns `true` if so; if not, the cursor is
/// unchanged.
pub(crate) fn pass_end(
    bare: bool,
    octet: u8,
    decoder: &mut BinDecoder<'_>,
) -> Result<bool, ListError>
    requires { BeginsWithOctet decoder.old octet }
    ensures ok { IfOk result (PassesEnd bare octet decoder.old decoder.new) }
    ensures err { IfErr result (λ failure. LacksListed decoder.old × (failure ≡ BadItem)) }
{
    let mut ahead = again(decoder);
    let record = read_record(&mut ahead)?;
    if !is_passed(bare, octet, &record) {
        return Ok(false);
    }
    *decoder = ahead;
    Ok(true)
}

/// Returns `true` if a record after this octet comes last, and for any of a bare message.
fn is_passed(bare: bool, octet: u8, item: &RecordRef<'_>) -> bool
    ensures { result ≡ (bare || is_put_last octet item.now) }
{
    bare || is_put_last(octet, item)
}

/// Returns `true` if a record after this octet goes with the first one of its set.
fn is_of_run(octet: u8, first: &RecordRef<'_>, item: &RecordRef<'_>) -> bool
    ensures { IsTrue result ↔ IsOfRun octet first.now item.now }
{
    !is_put_last(octet, item) && is_of_set(first, item)
}
