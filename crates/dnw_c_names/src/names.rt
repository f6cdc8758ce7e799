//! Names read, written, parsed and printed.
ghost use Rattle.std.specs.Prelude.{◌≡◌, ℕ, ◌<◌, ◌≤◌, true, List, Option, length, Ok, IfSome, IfNone, IfOk, IfErr, OnOk};
ghost use Rattle.dnw_base.specs.Limits.{max_name, max_pointers};
ghost use Rattle.dnw_base.specs.Names.{wire};
ghost use Rattle.dnw_name_text.specs.AsciiText.{max_text};
ghost use Rattle.dnw_name_text.specs.NameReading.{name_of_text};
ghost use Rattle.dnw_name_text.specs.NameTexts.{text_of_name};
ghost use Rattle.dnw_write.specs.Encoder.{Encoder};
ghost use Rattle.dnw_write.specs.EncoderValue.{value, lender};
ghost use Rattle.dnw_c_base.specs.Failures.{HasText};
ghost use Rattle.dnw_c_base.specs.Results.{PutsWithin, Returns};
ghost use Rattle.dnw_c_names.specs.Buffers.{PutsIfFits};
ghost use Rattle.dnw_c_names.specs.NameCalls.{ParsesName, PutsOfForm, ReadsName, absolute_text};
ghost use Rattle.dnw_c_names.specs.NameEdits.{PutsName};
ghost use Rattle.dnw_c_names.specs.NameLists.{FailsToCopyName, StopsWriting, TakesNextName, WritesList, WritesName, WritesNames, at_first, limited_to};

use crate::list::next_name;
use crate::text_faults::{of_rule, origin_labels};
use crate::wire_form::labels_of;
use arrayvec::ArrayString;
use dnw_base::decoder::BinDecoder;
use dnw_base::limits::{MAX_NAME, MAX_POINTERS};
use dnw_c_base::buffer::put;
use dnw_c_base::failure::{Failure, text_of};
use dnw_c_base::names::{name_ref_at, put_name};
use dnw_c_base::results::report;
use dnw_name::name::Name;
use dnw_name_form::form::WireForm;
use dnw_name_form::wire_labels::WireLabels;
use dnw_name_text::printing::{MAX_TEXT, push_name, put_plain_text};
use dnw_name_text::reading::{put_plain_form, read_into};
use dnw_write::binary::BinEncodable;
use dnw_write::encoder::BinEncoder;
use std::alloc::Global;

/// A name that was read: the number of bytes that were put, and the offset after the name's own octets.
#[repr(C)]
#[derive(Clone, Copy)]
pub struct ReadName {
    pub len: usize,
    pub end: usize,
}

/// A text that was parsed: the number of bytes that were put, and `true` if the name is fully qualified.
#[repr(C)]
#[derive(Clone, Copy)]
pub struct ParsedName {
    pub len: usize,
    pub is_fqdn: bool,
}

/// A list that was written: the number of bytes that were put, and the number of names.
#[repr(C)]
#[derive(Clone, Copy)]
pub struct WrittenNames {
    pub len: usize,
    pub count: usize,
}

/// Reads the name at an offset of a message, and puts its wire form. It does not allocate.
#[unsafe(no_mangle)]
pub extern "C" fn dnw_name_read(
    message: &[u8],
    start: usize,
    form: &mut [u8],
    read: &mut ReadName,
) -> u32
    ensures { Returns (ReadsName max_name wire message.now start form.old form.new) read.old read.new result }
{
    report(read_form(message, start, form), read)
}

/// Reads the name at an offset of a message, and puts its text. It does not allocate.
#[unsafe(no_mangle)]
pub extern "C" fn dnw_name_read_text(
    message: &[u8],
    start: usize,
    text: &mut [u8],
    read: &mut ReadName,
) -> u32
    ensures { Returns (ReadsName max_text absolute_text message.now start text.old text.new) read.old read.new result }
{
    report(read_text(message, start, text), read)
}

/// Puts the wire form of the name that a text gives. The origin is a wire form, or no octets for none. It does not allocate.
#[unsafe(no_mangle)]
pub extern "C" fn dnw_name_parse(
    alloc: Global,
    text: &[u8],
    origin: &[u8],
    form: &mut [u8],
    parsed: &mut ParsedName,
) -> u32
    ensures { Returns (ParsesName text.now origin.now form.old form.new) parsed.old parsed.new result }
{
    report(parse(alloc, text, origin, form), parsed)
}

/// Puts the text of the name with a wire form. It does not allocate.
#[unsafe(no_mangle)]
pub extern "C" fn dnw_name_print(
    form: &[u8],
    is_fqdn: bool,
    text: &mut [u8],
    len: &mut usize,
) -> u32
    ensures { Returns (PutsOfForm max_text (λ labels. text_of_name (record { is_fqdn = is_fqdn; labels = labels })) form.now text.old text.new)
        len.old len.new result }
{
    report(print(form, is_fqdn, text), len)
}

/// Puts a message of the names of a list, each compressed by those before it. The names of the list may follow 65,536 pointers in
/// all.
#[unsafe(no_mangle)]
pub extern "C" fn dnw_names_write(
    alloc: Global,
    names: &[u8],
    max_size: u16,
    out: &mut [u8],
    written: &mut WrittenNames,
) -> u32
    ensures { Returns (WritesList names.now max_size out.old out.new) written.old written.new result }
{
    report(write(alloc, names, max_size, out), written)
}

/// Puts the text for a number if it fits, and returns its length. A number that stands for nothing has an empty text.
#[unsafe(no_mangle)]
pub extern "C" fn dnw_error_text(code: u32, text: &mut [u8]) -> usize
    ensures text { (own : List ℕ) × HasText code own × (result ≡ length own) × PutsIfFits text.old own text.new }
    ensures few { result ≤ 64 }
{
    let own = text_of(code).as_bytes();
    let _ = put(text, own);
    own.len()
}

/// Reads the name at an offset, and puts its wire form.
fn read_form(message: &[u8], start: usize, form: &mut [u8]) -> Result<ReadName, Failure>
    ensures { ReadsName max_name wire message.now start form.old form.new result }
{
    let (name, end) = name_ref_at(message, start)?;
    let len = put_name(form, &name)?;
    Ok(ReadName { len, end })
}

/// Reads the name at an offset, and puts its text.
fn read_text(message: &[u8], start: usize, text: &mut [u8]) -> Result<ReadName, Failure>
    ensures { ReadsName max_text absolute_text message.now start text.old text.new result }
{
    let (name, end) = name_ref_at(message, start)?;
    let len = put_text(text, name.wire_labels(&mut [0; MAX_NAME]), true)?;
    Ok(ReadName { len, end })
}

/// Puts the wire form of the name that a text gives.
fn parse(alloc: Global, text: &[u8], origin: &[u8], form: &mut [u8]) -> Result<ParsedName, Failure>
    ensures { ParsesName text.now origin.now form.old form.new result }
{
    let labels = origin_labels(origin)?;
    if let Some(parsed) = parse_plain(text, form) {
        return parsed;
    }
    let mut name = WireForm::new(alloc);
    match read_into(&mut name, text, labels) {
        Ok(is_fqdn) => {
            let len = put_wire(form, name.labels())?;
            Ok(ParsedName { len, is_fqdn })
        }
        Err(error) => Err(of_rule(error.rule)),
    }
}

/// Puts the wire form of the name that a text gives, whatever the origin is, if the text ends in a dot and has no escapes.
#[inline(always)]
fn parse_plain(text: &[u8], form: &mut [u8]) -> Option<Result<ParsedName, Failure>>
    ensures some { IfSome result (λ parsed. (labels : List (List ℕ))
        × ((origin : Option (List (List ℕ))) → name_of_text origin text.now ≡ Ok (record { is_fqdn = true; labels = labels }))
        × PutsWithin max_name (wire labels) (record { len = length (wire labels); is_fqdn = true }) form.old form.new parsed) }
    ensures none { IfNone result (form.new ≡ form.old) }
{
    let mut room = [0; MAX_NAME];
    let len = put_plain_form(&mut room, text)?;
    Some(put_parsed(form, &room[..len]))
}

/// Puts the wire form of a name that is fully qualified.
#[inline(always)]
fn put_parsed(form: &mut [u8], octets: &[u8]) -> Result<ParsedName, Failure>
    requires { length octets.now ≤ max_name }
    ensures { PutsWithin max_name octets.now (record { len = length octets.now; is_fqdn = true }) form.old form.new result }
{
    let len = put(form, octets)?;
    Ok(ParsedName { len, is_fqdn: true })
}

/// Puts the text of the name with a wire form, and returns its length.
fn print(form: &[u8], is_fqdn: bool, text: &mut [u8]) -> Result<usize, Failure>
    ensures { PutsOfForm max_text (λ labels. text_of_name (record { is_fqdn = is_fqdn; labels = labels })) form.now text.old text.new result }
{
    let labels = labels_of(form)?;
    put_text(text, labels, is_fqdn)
}

/// Puts a message of the names of a list.
fn write(
    alloc: Global,
    names: &[u8],
    max_size: u16,
    out: &mut [u8],
) -> Result<WrittenNames, Failure>
    ensures { WritesList names.now max_size out.old out.new result }
{
    let (bytes, count) = write_all(alloc, names, max_size)?;
    let len = put(out, bytes.as_slice())?;
    Ok(WrittenNames { len, count })
}

/// Returns the bytes of a message of a list's names, and their number.
fn write_all(alloc: Global, names: &[u8], max_size: u16) -> Result<(Vec<u8>, usize), Failure>
    ensures ok { IfOk result (λ r. (w : Encoder) × WritesNames (at_first names.now) max_pointers (limited_to max_size) r.1 w
        × (r.0.items ≡ w.bytes)) }
    ensures err { IfErr result (StopsWriting (at_first names.now) max_pointers (limited_to max_size)) }
{
    let mut bytes = Vec::new(alloc);
    let mut encoder = BinEncoder::new(&mut bytes);
    encoder.set_max_size(max_size);
    let count = write_names(names, &mut encoder)?;
    drop(encoder);
    Ok((bytes, count))
}

/// Writes the names of a list, and returns their number.
fn write_names(names: &[u8], encoder: &mut BinEncoder<'_>) -> Result<usize, Failure>
    ensures ok { IfOk result (λ count.
        WritesNames (at_first names.now) max_pointers (value encoder.old) count (value encoder.new)) }
    ensures err { IfErr result (StopsWriting (at_first names.now) max_pointers (value encoder.old)) }
    ensures lender { lender encoder.new ≡ lender encoder.old }
{
    let mut decoder = BinDecoder::new(names);
    let mut left = MAX_POINTERS;
    let mut count = 0;
    'list: while !decoder.is_empty() {
        write_next(&mut decoder, &mut left, encoder)?;
        count += 1;
    }
    Ok(count)
}

/// Writes the name at the cursor of a list. The pointers that it follows are taken from those that are `left`.
fn write_next(
    decoder: &mut BinDecoder<'_>,
    left: &mut usize,
    encoder: &mut BinEncoder<'_>,
) -> Result<(), Failure>
    ensures ok { OnOk result ((labels : List (List ℕ)) × TakesNextName decoder.old left.old labels decoder.new left.new
        × WritesName labels (value encoder.old) (Ok tt) (value encoder.new)) }
    ensures err { IfErr result (FailsToCopyName decoder.old left.old (value encoder.old)) }
    ensures onward { OnOk result (decoder.old.index < decoder.new.index) }
    ensures within { OnOk result (decoder.new.index ≤ length decoder.new.bytes) }
    ensures bytes { decoder.new.bytes ≡ decoder.old.bytes }
    ensures lender { lender encoder.new ≡ lender encoder.old }
{
    let name = next_name(decoder, left)?;
    name.emit(encoder)?;
    Ok(())
}

/// Puts the wire form of a name, and returns its length.
#[tactic(auto, using(dnw_c_base::proofs::Starts::form_size, crate::proofs::Forms::form_fits))]
pub(crate) fn put_form(form: &mut [u8], name: &Name) -> Result<usize, Failure>
    ensures { PutsName name.now form.old form.new result }
{
    if name.encoded_len() > form.len() {
        return Err(Failure::NoRoom);
    }
    put(form, name.as_wire())
}

/// Puts the wire form of labels, and returns its length.
#[tactic(auto, using(crate::proofs::Forms::form_fits))]
fn put_wire(form: &mut [u8], labels: WireLabels<'_>) -> Result<usize, Failure>
    ensures { PutsWithin max_name (wire labels.entry) (length (wire labels.entry)) form.old form.new result }
{
    put(form, labels.as_wire())
}

/// Puts the text of a name with these labels, and returns its length.
#[tactic(auto, using(dnw_name_text::proofs::TextSizes::few_octets))]
fn put_text(buffer: &mut [u8], labels: WireLabels<'_>, is_fqdn: bool) -> Result<usize, Failure>
    ensures { PutsWithin max_text (text_of_name (record { is_fqdn = is_fqdn; labels = labels.entry }))
        (length (text_of_name (record { is_fqdn = is_fqdn; labels = labels.entry }))) buffer.old buffer.new result }
{
    if is_fqdn {
        if let Some(len) = put_plain_text(buffer, labels.clone()) {
            return Ok(len);
        }
    }
    let mut text = ArrayString::<MAX_TEXT>::new();
    push_name(&mut text, labels, is_fqdn);
    put(buffer, text.as_bytes())
}
