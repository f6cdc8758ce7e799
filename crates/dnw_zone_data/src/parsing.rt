//! Fields in texts.
ghost use Rattle.std.specs.Prelude.{◌≡◌, ◌≢◌, ◌≤◌, ◌<◌, ◌+◌, ◌-◌, ◌⊎◌, ◌∷◌, ◌++◌, ℕ, List, Bool, [], true, false, length, take, drop, flat_map, IfOk, IfErr, MatchResult};
ghost use Rattle.std.specs.Option.{option_copied};
ghost use Rattle.dnw_data.specs.Values.{FieldValue, counted, octets};
ghost use Rattle.dnw_zone_values.specs.Strings.{IsLongText};
ghost use Rattle.dnw_zone_data.specs.declared.error.DataTextError.TheVariants.{Memory};
ghost use Rattle.dnw_zone_data.specs.Parsing.{IsNameField, IsNumberOf, AreOctetsOf, IsOctetsOf, IsIdentifierField, eui48, eui64, SpellsOctets, SpellsShown, IsWanted, IsWord, AreList, AllSpell, AreAll, AreThree, ReadsBy, ReadsThree, ReadsField, AreFieldTexts, FailsFields};
ghost use Rattle.dnw_data.specs.FieldWires.{field_wire};
ghost use Rattle.dnw_zone_data.specs.Inside.Reads.{AppendsRest, HasNumber, LacksField, is_number};
ghost use Rattle.dnw_zone_data.specs.Appending.{AppendsOne};
ghost use Rattle.dnw_zone_data.specs.NumberForms.{is_given};
ghost use Rattle.dnw_zone_data.specs.Words.{after_spaces, without_spaces};
ghost use Rattle.dnw_zone_data.specs.Faults.{fault};
ghost use Rattle.dnw_zone_data.specs.declared.extent.Extent.TheVariants.{One};
ghost use Rattle.dnw_zone_data.specs.declared.error.Wanted.{Wanted};
ghost use Rattle.dnw_zone_data.specs.declared.error.Wanted.TheVariants.{End};

use crate::bitmaps::parse_bits;
use crate::error::{DataTextError, Wanted, wanted_of};
use crate::extent::{Extent, extent_of};
use crate::gateways::{parse_shape, parse_whole};
use crate::locators::{parse_locator, parse_node_number, parse_nsap};
use crate::name::append_name;
use crate::name_lists::parse_names;
use crate::number_form::{
    NumberForm, first_number, may_be_left_out, next_form, u8_in, u16_in, u32_in,
};
use crate::params::{params_wanted, parse_params};
use crate::prefixes::parse_prefixes;
use crate::spelling::{pairs_of, push_octets, push_spelled, push_text};
use crate::string_lists::{parse_texts, texts_wanted};
use crate::types::{parse_type, parse_types};
use crate::words::{after_spaces, has_no_spaces, split_word, without_spaces};
use dnw_data::kind::{Kind, ListKind, Shown};
use dnw_name::name::Name;
use dnw_zone_values::time::read_time;
use std::alloc::{AllocError, Global};
use std::net::{Ipv4Addr, Ipv6Addr};

/// Where a field is: in a text of this length, of so many fields.
#[derive(Clone, Copy)]
pub(crate) struct Place {
    /// The number of all fields.
    pub(crate) count: usize,
    /// The length of the whole text.
    pub(crate) len: usize,
}

/// Why a field is not read.
#[derive(Clone, Copy)]
pub(crate) enum Refused {
    /// The text is none of its kind.
    Text,
    /// An allocation failed.
    Memory,
}

impl From<AllocError> for Refused {
    ghost use Rattle.std.specs.Prelude.{◌≡◌};
    ghost use Rattle.dnw_zone_data.specs.declared.parsing.Refused.TheVariants.{Memory};

    ghost from_gives = { λ _ e. e ≡ Memory };

    fn from(_: AllocError) -> Self {
        Refused::Memory
    }
}

/// Appends the octets of the fields that are left, whose numbers are in these forms.
pub(crate) fn parse_fields(
    alloc: Global,
    place: Place,
    forms: &[NumberForm],
    kinds: &[Kind],
    left: &[u8],
    origin: Option<&Name>,
    out: &mut Vec<u8>,
) -> Result<(), DataTextError>
    requires count { length kinds.now ≤ place.count }
    requires within { length left.now ≤ place.len }
    ensures ok { IfOk result (λ _. (values : List FieldValue) × AreFieldTexts (option_copied origin.entry) forms.now kinds.now left.now values
        × (out.new.items ≡ out.old.items ++ flat_map field_wire values)) }
    ensures err { IfErr result (λ e. (e ≡ Memory) ⊎ FailsFields (option_copied origin.entry) place.count place.len forms.now kinds.now left.now e) }
{
    let mut forms = forms;
    let mut kinds = kinds;
    let mut left = left;
    while let Some((kind, others)) = kinds.split_first() {
        let start = after_spaces(left);
        let (form, other_forms) = next_form(forms);
        match parse_field(alloc, form, *kind, start, origin, out) {
            Ok(rest) => left = rest,
            Err(Refused::Text) => {
                return Err(not_wanted(alloc, place, kinds.len(), form, *kind, start));
            }
            Err(Refused::Memory) => return Err(DataTextError::Memory),
        }
        kinds = others;
        forms = other_forms;
    }
    end_of_fields(place, left)
}

/// Fails if there is more text after the last field.
fn end_of_fields(place: Place, left: &[u8]) -> Result<(), DataTextError>
    requires { length left.now ≤ place.len }
    ensures { MatchResult result (λ _. after_spaces left.now ≡ [])
        (λ e. (after_spaces left.now ≢ []) × (e ≡ fault place.count (place.len - length (after_spaces left.now)) End)) }
{
    let rest = after_spaces(left);
    if rest.is_empty() {
        return Ok(());
    }
    Err(DataTextError::Wanted {
        field: place.count,
        offset: place.len - rest.len(),
        wanted: Wanted::End,
    })
}

/// Returns the error at a field of a kind, whose number is in a form, if the text is none. So many fields are left, with this one.
fn not_wanted(
    alloc: Global,
    place: Place,
    count: usize,
    form: NumberForm,
    kind: Kind,
    left: &[u8],
) -> DataTextError
    requires count { count ≤ place.count }
    requires within { length left.now ≤ place.len }
    ensures { (result ≡ Memory) ⊎ ((wanted : Wanted) × IsWanted form kind left.now wanted
        × (result ≡ fault (place.count - count) (place.len - length left.now) wanted)) }
{
    match wanted_at(alloc, form, kind, left) {
        Ok(wanted) => DataTextError::Wanted {
            field: place.count - count,
            offset: place.len - left.len(),
            wanted,
        },
        Err(_) => DataTextError::Memory,
    }
}

/// Returns what is wanted of a field of a kind, whose number is in a form, in place of a text that is none.
fn wanted_at(alloc: Global, form: NumberForm, kind: Kind, left: &[u8]) -> Result<Wanted, AllocError>
    ensures { IfOk result (IsWanted form kind left.now) }
{
    match kind {
        Kind::List(ListKind::Params) => params_wanted(alloc, left),
        Kind::List(ListKind::Texts) => texts_wanted(alloc, left),
        _ => Ok(wanted_of(form, kind)),
    }
}

/// Appends the octets of the field that a text begins with, whose number is in a form. Returns what is after it.
#[inline(always)]
fn parse_field<'t>(
    alloc: Global,
    form: NumberForm,
    kind: Kind,
    left: &'t [u8],
    origin: Option<&Name>,
    out: &mut Vec<u8>,
) -> Result<&'t [u8], Refused>
    ensures reads { MatchResult result (λ rest. AppendsRest (ReadsField (option_copied origin.entry) form kind left.now) out.old.items out.new.items rest.now) (LacksField (ReadsField (option_copied origin.entry) form kind left.now)) }
    ensures within { IfOk result (λ rest. length rest.now ≤ length left.now) }
{
    parse_by(alloc, extent_of(kind), form, kind, left, origin, out)
}

/// Appends the octets of the field that so many words are, whose number is in a form. Returns what is after them.
#[inline(always)]
fn parse_by<'t>(
    alloc: Global,
    extent: Extent,
    form: NumberForm,
    kind: Kind,
    left: &'t [u8],
    origin: Option<&Name>,
    out: &mut Vec<u8>,
) -> Result<&'t [u8], Refused>
    ensures reads { MatchResult result (λ rest. AppendsRest (ReadsBy extent (option_copied origin.entry) form kind left.now) out.old.items out.new.items rest.now) (LacksField (ReadsBy extent (option_copied origin.entry) form kind left.now)) }
    ensures within { IfOk result (λ rest. length rest.now ≤ length left.now) }
{
    match extent {
        Extent::All => {
            if parse_all(alloc, form, kind, left, origin, out)? {
                Ok(&[])
            } else {
                Err(Refused::Text)
            }
        }
        Extent::Three => parse_three(alloc, kind, left, origin, out),
        Extent::One => parse_one(alloc, form, kind, left, origin, out),
    }
}

/// Appends the octets of the field that one word is, whose number is in a form. Returns what is after it.
#[inline(always)]
fn parse_one<'t>(
    alloc: Global,
    form: NumberForm,
    kind: Kind,
    left: &'t [u8],
    origin: Option<&Name>,
    out: &mut Vec<u8>,
) -> Result<&'t [u8], Refused>
    ensures reads { MatchResult result (λ rest. AppendsRest (ReadsBy One (option_copied origin.entry) form kind left.now) out.old.items out.new.items rest.now) (LacksField (ReadsBy One (option_copied origin.entry) form kind left.now)) }
    ensures within { IfOk result (λ rest. length rest.now ≤ length left.now) }
{
    if is_number(kind) {
        if let Some((number, rest)) = first_number(left) {
            return if push_number(kind, number, out)? {
                Ok(rest)
            } else {
                Err(Refused::Text)
            };
        }
    }
    let (word, rest) = split_word(left);
    if parse_word(alloc, form, kind, word, origin, out)? {
        Ok(rest)
    } else {
        Err(Refused::Text)
    }
}

/// Returns `true` for numbers of one, two and four octets.
#[inline(always)]
fn is_number(kind: Kind) -> bool
    ensures { result ≡ is_number kind }
{
    matches!(kind, Kind::U8 | Kind::U16 | Kind::U32)
}

/// Appends the octets of a number of a kind. Returns `false` if it has none.
#[inline(always)]
fn push_number(kind: Kind, number: u32, out: &mut Vec<u8>) -> Result<bool, AllocError>
    ensures { IfOk result (AppendsOne (HasNumber kind number) out.old.items out.new.items) }
{
    match kind {
        Kind::U8 if number <= 255 => out.push(number as u8)?,
        Kind::U16 if number <= 65535 => out.extend_from_slice(&(number as u16).to_be_bytes())?,
        Kind::U32 => out.extend_from_slice(&number.to_be_bytes())?,
        _ => return Ok(false),
    }
    Ok(true)
}

/// Appends the octets of the field that three words are. Returns what is after them.
fn parse_three<'t>(
    alloc: Global,
    kind: Kind,
    left: &'t [u8],
    origin: Option<&Name>,
    out: &mut Vec<u8>,
) -> Result<&'t [u8], Refused>
    ensures reads { MatchResult result (λ rest. AppendsRest (ReadsThree (option_copied origin.entry) kind left.now) out.old.items out.new.items rest.now) (LacksField (ReadsThree (option_copied origin.entry) kind left.now)) }
    ensures within { IfOk result (λ rest. length rest.now ≤ length left.now) }
{
    let (first, after_first) = split_word(left);
    let (second, after_second) = split_word(after_spaces(after_first));
    let (third, rest) = split_word(after_spaces(after_second));
    if parse_words(alloc, kind, first, second, third, origin, out)? {
        Ok(rest)
    } else {
        Err(Refused::Text)
    }
}

/// Appends the octets of the field that these words are. Returns `false` if they are none of this kind.
fn parse_words(
    alloc: Global,
    kind: Kind,
    first: &[u8],
    second: &[u8],
    third: &[u8],
    origin: Option<&Name>,
    out: &mut Vec<u8>,
) -> Result<bool, AllocError>
    ensures { IfOk result (AppendsOne (AreThree (option_copied origin.entry) kind first.now second.now third.now) out.old.items out.new.items) }
{
    match kind {
        Kind::Shaped(shape) => parse_shape(alloc, shape, first, second, third, origin, out),
        _ => Ok(false),
    }
}

/// Appends the octets of the field that all words are. Returns `false` if they are none of this kind.
fn parse_all(
    alloc: Global,
    form: NumberForm,
    kind: Kind,
    left: &[u8],
    origin: Option<&Name>,
    out: &mut Vec<u8>,
) -> Result<bool, AllocError>
    ensures { IfOk result (AppendsOne (AreAll (option_copied origin.entry) form kind left.now) out.old.items out.new.items) }
{
    match kind {
        Kind::Octets(shown) => parse_all_octets(alloc, form, shown, left, out),
        Kind::Shaped(shape) => parse_whole(shape, left, out),
        Kind::List(list) => parse_list(alloc, list, left, origin, out),
        _ => Ok(false),
    }
}

/// Appends the octets that all words write as one, or the bitmap of the numbers that they are. Returns `false` if they write none.
fn parse_all_octets(
    alloc: Global,
    form: NumberForm,
    shown: Shown,
    left: &[u8],
    out: &mut Vec<u8>,
) -> Result<bool, AllocError>
    ensures { IfOk result (AppendsOne (λ value. (own : List ℕ) × AllSpell form shown left.now own × (value ≡ octets own)) out.old.items out.new.items) }
{
    match shown {
        Shown::Ports => parse_bits(alloc, Shown::Ports, left, out),
        Shown::OldTypes => parse_bits(alloc, Shown::OldTypes, left, out),
        _ => parse_given(alloc, form, shown, left, out),
    }
}

/// Appends the octets that all words write as one. Returns `false` if they write none, or are left out and may not be.
fn parse_given(
    alloc: Global,
    form: NumberForm,
    shown: Shown,
    left: &[u8],
    out: &mut Vec<u8>,
) -> Result<bool, AllocError>
    ensures { IfOk result (AppendsOne (λ value. (own : List ℕ) × (SpellsOctets shown (without_spaces left.now) own × (is_given form own ≡ true)) × (value ≡ octets own)) out.old.items out.new.items) }
{
    let start = out.len();
    if !parse_joined(alloc, shown, left, out)? {
        return Ok(false);
    }
    if out.len() == start {
        return Ok(may_be_left_out(form));
    }
    Ok(true)
}

/// Appends the octets that all words write as one. Returns `false` if they write none.
fn parse_joined(
    alloc: Global,
    shown: Shown,
    left: &[u8],
    out: &mut Vec<u8>,
) -> Result<bool, AllocError>
    ensures { IfOk result (AppendsOne (λ value. (own : List ℕ) × SpellsOctets shown (without_spaces left.now) own × (value ≡ octets own)) out.old.items out.new.items) }
{
    if has_no_spaces(left) {
        return push_octets(shown, left, out);
    }
    let joined = without_spaces(alloc, left)?;
    push_octets(shown, joined.as_slice(), out)
}

/// Appends the octets of the items that all words are. Returns `false` if they are none of this kind.
fn parse_list(
    alloc: Global,
    list: ListKind,
    left: &[u8],
    origin: Option<&Name>,
    out: &mut Vec<u8>,
) -> Result<bool, AllocError>
    ensures { IfOk result (AppendsOne (AreList (option_copied origin.entry) list left.now) out.old.items out.new.items) }
{
    match list {
        ListKind::Texts => parse_texts(left, out),
        ListKind::Types => parse_types(alloc, left, out),
        ListKind::Params => parse_params(alloc, left, out),
        ListKind::Names => parse_names(alloc, left, origin, out),
        ListKind::Prefixes => parse_prefixes(left, out),
    }
}

/// Appends the octets of a word's field, whose number is in a form. Returns `false` if it is none of this kind.
fn parse_word(
    alloc: Global,
    form: NumberForm,
    kind: Kind,
    word: &[u8],
    origin: Option<&Name>,
    out: &mut Vec<u8>,
) -> Result<bool, AllocError>
    ensures { IfOk result (AppendsOne (IsWord (option_copied origin.entry) form kind word.now) out.old.items out.new.items) }
{
    if let Kind::Name(_) = kind {
        return parse_name(alloc, word, origin, out);
    }
    if let Kind::Counted(shown) = kind {
        return parse_counted(shown, word, out);
    }
    if let Kind::Octets(shown) = kind {
        return parse_octets(alloc, shown, word, out);
    }
    match kind {
        Kind::Ipv4 => {
            let Ok(address) = Ipv4Addr::parse_ascii(word) else {
                return Ok(false);
            };
            out.extend_from_slice(&address.octets())?;
        }
        Kind::Ipv6 => {
            let Ok(address) = Ipv6Addr::parse_ascii(word) else {
                return Ok(false);
            };
            out.extend_from_slice(&address.octets())?;
        }
        Kind::TypeCode => return parse_type(word, out),
        Kind::Locator => return parse_locator(word, out),
        Kind::NodeNumber => return parse_node_number(word, out),
        Kind::U48 => return parse_eui48(alloc, word, out),
        Kind::U64 => return parse_eui64(alloc, word, out),
        _ => return parse_number(form, kind, word, out),
    }
    Ok(true)
}

/// Appends the wire form of a name. Returns `false` if the word is none.
fn parse_name(
    alloc: Global,
    word: &[u8],
    origin: Option<&Name>,
    out: &mut Vec<u8>,
) -> Result<bool, AllocError>
    ensures { IfOk result (AppendsOne (IsNameField (option_copied origin.entry) word.now) out.old.items out.new.items) }
{
    append_name(alloc, word, origin, out)
}

/// Appends the octets of a number in a form, or of a time. Returns `false` if the text is none of this kind.
fn parse_number(
    form: NumberForm,
    kind: Kind,
    text: &[u8],
    out: &mut Vec<u8>,
) -> Result<bool, AllocError>
    ensures { IfOk result (AppendsOne (IsNumberOf form kind text.now) out.old.items out.new.items) }
{
    match kind {
        Kind::U8 => {
            let Some(number) = u8_in(form, text) else {
                return Ok(false);
            };
            out.push(number)?;
        }
        Kind::U16 => {
            let Some(number) = u16_in(form, text) else {
                return Ok(false);
            };
            out.extend_from_slice(&number.to_be_bytes())?;
        }
        Kind::U32 => {
            let Some(number) = u32_in(form, text) else {
                return Ok(false);
            };
            out.extend_from_slice(&number.to_be_bytes())?;
        }
        Kind::Time => {
            let Some(seconds) = read_time(text) else {
                return Ok(false);
            };
            out.extend_from_slice(&seconds.to_be_bytes())?;
        }
        _ => return Ok(false),
    }
    Ok(true)
}

/// Appends the octets of an identifier of six. Returns `false` if the text is none.
fn parse_eui48(alloc: Global, text: &[u8], out: &mut Vec<u8>) -> Result<bool, AllocError>
    ensures { IfOk result (AppendsOne (IsIdentifierField 6 eui48 text.now) out.old.items out.new.items) }
{
    let Some(own) = pairs_of(alloc, 6, text)? else {
        return Ok(false);
    };
    out.extend_from_slice(own.as_slice())?;
    Ok(true)
}

/// Appends the octets of an identifier of eight. Returns `false` if the text is none.
fn parse_eui64(alloc: Global, text: &[u8], out: &mut Vec<u8>) -> Result<bool, AllocError>
    ensures { IfOk result (AppendsOne (IsIdentifierField 8 eui64 text.now) out.old.items out.new.items) }
{
    let Some(own) = pairs_of(alloc, 8, text)? else {
        return Ok(false);
    };
    out.extend_from_slice(own.as_slice())?;
    Ok(true)
}

/// Appends a length octet and the octets that a word writes. Returns `false` if it writes none.
pub(crate) fn parse_counted(
    shown: Shown,
    word: &[u8],
    out: &mut Vec<u8>,
) -> Result<bool, AllocError>
    ensures { IfOk result (AppendsOne (AreOctetsOf (SpellsShown shown) counted word.now) out.old.items out.new.items) }
{
    let start = out.len();
    out.push(0)?;
    if !push_spelled(shown, word, out)? {
        return Ok(false);
    }
    put_len(out, start);
    Ok(true)
}

/// Puts the number of octets after an offset there, in place of an octet.
fn put_len(out: &mut Vec<u8>, start: usize)
    requires within { start < length out.old.items }
    requires few { length out.old.items ≤ start + 256 }
    ensures { out.new.items ≡ take start out.old.items ++ (length out.old.items - start - 1) ∷ drop (start + 1) out.old.items }
{
    let len = out.len() - start - 1;
    out.as_mut_slice()[start] = len as u8;
}

/// Appends the octets up to the end that are one word. Returns `false` if it is none.
fn parse_octets(
    alloc: Global,
    shown: Shown,
    word: &[u8],
    out: &mut Vec<u8>,
) -> Result<bool, AllocError>
    ensures { IfOk result (AppendsOne (IsOctetsOf shown word.now) out.old.items out.new.items) }
{
    match shown {
        Shown::Text => parse_text(word, out),
        Shown::Nsap => parse_nsap(alloc, word, out),
        _ => Ok(false),
    }
}

/// Appends the octets of a text of any length. Returns `false` if the text is none.
fn parse_text(word: &[u8], out: &mut Vec<u8>) -> Result<bool, AllocError>
    ensures { IfOk result (AppendsOne (AreOctetsOf IsLongText octets word.now) out.old.items out.new.items) }
{
    push_text(word, out)
}
