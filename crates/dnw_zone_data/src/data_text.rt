//! The text of the data of records.
ghost use Rattle.std.specs.Prelude.{◌≡◌, ◌≢◌, ◌≤◌, ◌⊎◌, ◌++◌, ℕ, List, [], length, flat_map, true, false, IfOk, IfSome, MatchBool, MatchOption, MatchResult, string_bytes};
ghost use Rattle.std.specs.List.{list_all};
ghost use Rattle.std.specs.Option.{option_copied};
ghost use Rattle.dnw_base.specs.DnsClasses.{class_code};
ghost use Rattle.dnw_base.specs.RecordTypes.{type_code};
ghost use Rattle.dnw_name_read.specs.ReadingLaws.{AreBytes};
ghost use Rattle.dnw_data.specs.Table.{fields_of};
ghost use Rattle.dnw_data.specs.Values.{FieldValue};
ghost use Rattle.dnw_record.specs.RecordFields.{record_fields};
ghost use Rattle.dnw_zone_data.specs.declared.error.DataTextError.TheVariants.{Memory};
ghost use Rattle.dnw_zone_data.specs.Parsing.{AreFieldTexts, FailsFields};
ghost use Rattle.dnw_data.specs.FieldWires.{field_wire};
ghost use Rattle.dnw_zone_data.specs.Generic.{generic_mark, IsSized};
ghost use Rattle.dnw_zone_data.specs.Words.{after_word, word};
ghost use Rattle.dnw_zone_data.specs.NumberForms.{number_forms};
ghost use Rattle.dnw_zone_data.specs.DataTexts.{has_fields, has_own_form, has_field_text, is_blank, is_little_known, is_octets, is_unprinted, stand_in};
ghost use Rattle.dnw_zone_data.specs.DataTexts.{without_space, ArePlain, IsPlainData, IsDataText, IsOwnText, IsTextOf, FailsGeneric, FailsText, LacksText};
ghost use Rattle.dnw_zone_data.specs.Inside.Wires.{AppendsWires};
ghost use Rattle.dnw_zone_data.specs.Inside.OwnTexts.{FailsOwnText, generic_wanted};

use crate::error::{DataTextError, Wanted};
use crate::generic::{Generic, MARK, hex_words, parse_sized};
use crate::number_form::{NumberForm, number_forms};
use crate::parsing::{Place, parse_fields};
use crate::printing::{is_ended, next_field, write_fields};
use crate::words::{after_spaces, split_word};
use dnw_base::dns_class::DNSClass;
use dnw_base::record_type::RecordType;
use dnw_data::fields::Fields;
use dnw_data::kind::{Kind, Shape, Shown};
use dnw_data::table::fields_of;
use dnw_name::name::Name;
use dnw_record::record_ref::RecordRef;
use std::alloc::{AllocError, Global};

/// Returns the text of the data of a record in a master file: its fields with a space between them, or the form that any data
/// have, as `\# 4 0A000001`, if its type or a field has no text, if many servers know no text of the type (RFC 3597, section
/// 5), or if the data are no fields of their class and type. Data that are left out, under NONE or ANY, have an empty text.
///
/// It fails only if it runs out of memory.
pub fn data_text(alloc: Global, record: &RecordRef<'_>) -> Result<String, AllocError>
    ensures { IfOk result (λ text. IsDataText «record».now (string_bytes text)) }
{
    let kinds = record.kinds();
    if let Some(text) = own_text(alloc, record, kinds)? {
        return Ok(text);
    }
    let octets = plain_octets(alloc, record, kinds)?;
    format!(in alloc; "{}", Generic(octets.as_slice()))
}

/// Returns the text of the data of a record as its fields, if they have one that is printed.
fn own_text(
    alloc: Global,
    record: &RecordRef<'_>,
    kinds: &[Kind],
) -> Result<Option<String>, AllocError>
    requires { kinds.now ≡ (record_fields «record».now).kinds }
    ensures { IfOk result (λ own. MatchOption own ((is_unprinted «record».now ≡ true) ⊎ LacksText (record_fields «record».now))
        (λ text. (is_unprinted «record».now ≡ false) × IsOwnText (record_fields «record».now) (string_bytes text))) }
{
    let has_form = has_own_form(kinds);
    if is_unprinted(record, kinds) {
        return Ok(None);
    }
    if !has_form {
        return Ok(None);
    }
    let mut text = String::new(alloc);
    if !write_fields(alloc, kinds, &mut record.fields(), &mut text)? {
        return Ok(None);
    }
    if is_blank(kinds, text.as_str()) {
        return Ok(None);
    }
    Ok(Some(without_space(alloc, text.as_str())?))
}

/// Returns `true` if the text of the fields of a record is not printed, since many servers know none of the type.
fn is_unprinted(record: &RecordRef<'_>, kinds: &[Kind]) -> bool
    requires { kinds.now ≡ (record_fields «record».now).kinds }
    ensures { result ≡ is_unprinted «record».now }
{
    is_little_known(record.record_type()) && has_fields(kinds)
}

/// Returns the octets of the data that a text is, for a class and a type, with names that are not compressed. The text is in
/// the type's own form or in that of any data, `\# 4 0A000001`; an origin completes names without a dot at their end. Octets in
/// the form of any data have to be data of the class and type, without compression pointers, as RFC 3597 wants it (sections 4
/// and 5): so what is returned can be put into any message. An empty text is data that are left out, under NONE or ANY.
///
/// Parentheses and comments are not part of a text. It fails with the number of the first field that is not as wanted, and
/// where in the text it should be.
pub fn parse(
    alloc: Global,
    class: DNSClass,
    record_type: RecordType,
    text: &str,
    origin: Option<&Name>,
) -> Result<Vec<u8>, DataTextError>
    ensures { MatchResult result (λ own. IsTextOf (option_copied origin.entry) (number_forms (type_code record_type)) (fields_of (class_code class) (type_code record_type)) text.now own.items)
        (FailsText (option_copied origin.entry) (number_forms (type_code record_type)) (fields_of (class_code class) (type_code record_type)) (length text.now) text.now) }
{
    parse_bytes(alloc, class, record_type, text.as_bytes(), origin)
}

/// Returns the octets of the data that the bytes of a text are, as `parse` does.
pub fn parse_bytes(
    alloc: Global,
    class: DNSClass,
    record_type: RecordType,
    text: &[u8],
    origin: Option<&Name>,
) -> Result<Vec<u8>, DataTextError>
    ensures { MatchResult result (λ own. IsTextOf (option_copied origin.entry) (number_forms (type_code record_type)) (fields_of (class_code class) (type_code record_type)) text.now own.items)
        (FailsText (option_copied origin.entry) (number_forms (type_code record_type)) (fields_of (class_code class) (type_code record_type)) (length text.now) text.now) }
{
    parse_in_line(alloc, class, record_type, text.len(), text, origin)
}

/// Returns the octets of the data that the bytes of a text are, as `parse` does. The text is the end of a line of this length, in which
/// the offsets of faults are counted.
pub fn parse_in_line(
    alloc: Global,
    class: DNSClass,
    record_type: RecordType,
    len: usize,
    text: &[u8],
    origin: Option<&Name>,
) -> Result<Vec<u8>, DataTextError>
    requires within { length text.now ≤ len }
    ensures { MatchResult result (λ own. IsTextOf (option_copied origin.entry) (number_forms (type_code record_type)) (fields_of (class_code class) (type_code record_type)) text.now own.items)
        (FailsText (option_copied origin.entry) (number_forms (type_code record_type)) (fields_of (class_code class) (type_code record_type)) len text.now) }
{
    let mut octets = Vec::new(alloc);
    append_in_line(alloc, class, record_type, len, text, origin, &mut octets)?;
    Ok(octets)
}

/// Appends the octets of the data that the bytes of a text are, as `parse_in_line` returns them. After an error some may be appended.
pub fn append_in_line(
    alloc: Global,
    class: DNSClass,
    record_type: RecordType,
    len: usize,
    text: &[u8],
    origin: Option<&Name>,
    out: &mut Vec<u8>,
) -> Result<(), DataTextError>
    requires within { length text.now ≤ len }
    ensures { MatchResult result (λ _. (own : List ℕ) × IsTextOf (option_copied origin.entry) (number_forms (type_code record_type)) (fields_of (class_code class) (type_code record_type)) text.now own
        × (out.new.items ≡ out.old.items ++ own))
        (FailsText (option_copied origin.entry) (number_forms (type_code record_type)) (fields_of (class_code class) (type_code record_type)) len text.now) }
{
    let start = after_spaces(text);
    if let Some(rest) = after_mark(start) {
        return append_generic(alloc, class, record_type, rest, len, out);
    }
    let kinds = fields_of(class, record_type, stand_in(start));
    append_own(
        alloc,
        number_forms(record_type),
        kinds,
        len,
        text,
        origin,
        out,
    )
}

/// Returns what is after the mark of the form that any data have, if a text begins with it. Of most texts it looks at one octet.
fn after_mark(text: &[u8]) -> Option<&[u8]>
    ensures is { MatchOption result (word text.now ≢ generic_mark) (λ rest. (word text.now ≡ generic_mark) × (rest.now ≡ after_word text.now)) }
    ensures within { IfSome result (λ rest. length rest.now ≤ length text.now) }
{
    match text.first() {
        Some(b'\\') => {
            let (word, rest) = split_word(text);
            if word == MARK { Some(rest) } else { None }
        }
        _ => None,
    }
}

/// Returns octets in place of those that a text in the type's own form is, which begins here.
fn stand_in(start: &[u8]) -> &'static [u8]
    ensures { result.now ≡ stand_in start.now }
{
    if start.is_empty() {
        return &[];
    }
    &[1]
}

/// Appends the octets after `\#` in a text of this length, if they are data of the class and type.
fn append_generic(
    alloc: Global,
    class: DNSClass,
    record_type: RecordType,
    left: &[u8],
    len: usize,
    out: &mut Vec<u8>,
) -> Result<(), DataTextError>
    requires within { length left.now ≤ len }
    ensures { MatchResult result (λ _. (own : List ℕ) × IsSized left.now own
        × ArePlain (fields_of (class_code class) (type_code record_type) own) own × (out.new.items ≡ out.old.items ++ own))
        (FailsGeneric (fields_of (class_code class) (type_code record_type)) len left.now) }
{
    let octets = parse_generic(alloc, class, record_type, left, len)?;
    out.extend_from_slice(octets.as_slice())?;
    Ok(())
}

/// Returns the octets after `\#` in a text of this length, if they are data of the class and type.
fn parse_generic(
    alloc: Global,
    class: DNSClass,
    record_type: RecordType,
    left: &[u8],
    len: usize,
) -> Result<Vec<u8>, DataTextError>
    requires within { length left.now ≤ len }
    ensures { MatchResult result (λ own. IsSized left.now own.items
        × ArePlain (fields_of (class_code class) (type_code record_type) own.items) own.items)
        (FailsGeneric (fields_of (class_code class) (type_code record_type)) len left.now) }
{
    let octets = parse_sized(alloc, left, len)?;
    if is_plain(alloc, class, record_type, octets.as_slice())? {
        return Ok(octets);
    }
    Err(DataTextError::Wanted {
        field: 1,
        offset: len - hex_words(left).len(),
        wanted: Wanted::Data,
    })
}

/// Returns `true` if octets are data of a class and a type, and no name in them is compressed.
fn is_plain(
    alloc: Global,
    class: DNSClass,
    record_type: RecordType,
    octets: &[u8],
) -> Result<bool, AllocError>
    ensures { IfOk result (λ is. let kinds = fields_of (class_code class) (type_code record_type) octets.now in
        MatchBool is (ArePlain kinds octets.now) (¬ (ArePlain kinds octets.now))) }
{
    let kinds = fields_of(class, record_type, octets);
    let mut fields = Fields::new(octets, 0, class, record_type);
    let mut written = Vec::new(alloc);
    let are_fields = append_fields(kinds, &mut fields, &mut written)?;
    Ok(is_written_as(class, record_type, octets, are_fields, written.as_slice()))
}

/// Returns `true` if octets are fields, and what these are written as are the same octets.
fn is_written_as(
    class: DNSClass,
    record_type: RecordType,
    octets: &[u8],
    are_fields: bool,
    written: &[u8],
) -> bool
    requires bytes { AreBytes octets.now }
    requires appends { AppendsWires (fields_of (class_code class) (type_code record_type) octets.now)
        (record { bytes = octets.now; index = 0 }) [] written.now are_fields }
    ensures { let kinds = fields_of (class_code class) (type_code record_type) octets.now in
        MatchBool result (ArePlain kinds octets.now) (¬ (ArePlain kinds octets.now)) }
{
    if !are_fields {
        return false;
    }
    written == octets
}

/// Appends the octets of the fields that a text is, at the end of a line of this length, if data of these kinds have a form of their own.
/// No text is a field of a kind that has none. So of each kind it is asked only after an error.
#[tactic(auto, using(crate::proofs::TextKinds::have_texts))]
fn append_own(
    alloc: Global,
    forms: &[NumberForm],
    kinds: &[Kind],
    len: usize,
    text: &[u8],
    origin: Option<&Name>,
    out: &mut Vec<u8>,
) -> Result<(), DataTextError>
    requires within { length text.now ≤ len }
    ensures { MatchResult result (λ _. (has_own_form kinds.now ≡ true) × (values : List FieldValue) × AreFieldTexts (option_copied origin.entry) forms.now kinds.now text.now values
        × (out.new.items ≡ out.old.items ++ flat_map field_wire values))
        (FailsOwnText (option_copied origin.entry) forms.now kinds.now len text.now) }
{
    if is_octets(kinds) {
        return Err(generic_wanted(len, text));
    }
    let place = Place {
        count: kinds.len(),
        len,
    };
    match parse_fields(alloc, place, forms, kinds, text, origin, out) {
        Ok(()) => Ok(()),
        Err(_) if !have_field_texts(kinds) => Err(generic_wanted(len, text)),
        Err(error) => Err(error),
    }
}

/// Returns the error at a text whose type has no form of its own.
fn generic_wanted(len: usize, text: &[u8]) -> DataTextError
    requires { length text.now ≤ len }
    ensures { result ≡ generic_wanted len text.now }
{
    DataTextError::Wanted {
        field: 0,
        offset: len - after_spaces(text).len(),
        wanted: Wanted::Generic,
    }
}

/// Returns `true` for types of which many servers know no text.
#[tactic(auto, unfolding(crate::specs::DataTexts::is_little_known))]
fn is_little_known(record_type: RecordType) -> bool
    ensures { result ≡ is_little_known (type_code record_type) }
{
    matches!(
        u16::from(record_type),
        19 | 20 | 23 | 27 | 49 | 56..=58 | 66..=68 | 105 | 107 | 258 | 260..=264 | 32768 | 32769
    )
}

/// Returns `true` if there are such kinds.
fn has_fields(kinds: &[Kind]) -> bool
    ensures { result ≡ has_fields kinds.now }
{
    matches!(kinds, [_, ..])
}

/// Returns `true` if a text of fields of these kinds would be that of data that are left out.
fn is_blank(kinds: &[Kind], text: &str) -> bool
    ensures { result ≡ is_blank kinds.now text.now }
{
    has_fields(kinds) && after_spaces(text.as_bytes()).is_empty()
}

/// Returns `true` if data of these kinds have a form of their own.
fn has_own_form(kinds: &[Kind]) -> bool
    ensures { result ≡ has_own_form kinds.now }
{
    !is_octets(kinds) && have_field_texts(kinds)
}

/// Returns `true` if the text of each of these kinds is written here.
fn have_field_texts(kinds: &[Kind]) -> bool
    ensures { result ≡ list_all has_field_text kinds.now }
{
    kinds.iter().all(|kind| has_field_text(*kind))
}

/// Returns `true` if data of these kinds are octets alone.
fn is_octets(kinds: &[Kind]) -> bool
    ensures { result ≡ is_octets kinds.now }
{
    matches!(kinds, [Kind::Octets(Shown::Hex)])
}

/// Returns `true` for kinds whose text is written here.
fn has_field_text(kind: Kind) -> bool
    ensures { result ≡ has_field_text kind }
{
    !matches!(
        kind,
        Kind::LongTime
            | Kind::ChaosAddress
            | Kind::LongCounted(_)
            | Kind::Shaped(Shape::AddressSuffix)
            | Kind::Octets(Shown::MaybeBase64)
    )
}

/// Returns a text without the space that it begins with.
fn without_space(alloc: Global, text: &str) -> Result<String, AllocError>
    ensures { IfOk result (λ rest. string_bytes rest ≡ without_space text.now) }
{
    let bytes = text.as_bytes();
    if !bytes.is_empty() && bytes[0] == b' ' {
        return String::from_str(alloc, &text[1..]);
    }
    String::from_str(alloc, text)
}

/// Returns the octets of the data, with names that are not compressed.
fn plain_octets(
    alloc: Global,
    record: &RecordRef<'_>,
    kinds: &[Kind],
) -> Result<Vec<u8>, AllocError>
    requires { kinds.now ≡ (record_fields «record».now).kinds }
    ensures { IfOk result (λ own. IsPlainData «record».now own.items) }
{
    let mut octets = Vec::new(alloc);
    if append_fields(kinds, &mut record.fields(), &mut octets)? {
        return Ok(octets);
    }
    Vec::from_slice(alloc, record.rdata())
}

/// Appends the octets of fields. Returns `false` if one cannot be read.
fn append_fields<'r>(
    kinds: &[Kind],
    fields: &mut Fields<'r>,
    out: &mut Vec<u8>,
) -> Result<bool, AllocError>
    requires kinds { fields.old.kinds ≡ kinds.now }
    ensures { IfOk result (AppendsWires kinds.now fields.old.reader out.old.items out.new.items) }
{
    let Some((_, others)) = kinds.split_first() else {
        return Ok(is_ended(fields));
    };
    let Some(field) = next_field(fields) else {
        return Ok(false);
    };
    if !field.append_to(out)? {
        return Ok(false);
    }
    append_fields(others, fields, out)
}
