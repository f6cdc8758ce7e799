//! What a signature covers of the records of a message.
ghost use Rattle.std.specs.Prelude.{◌≡◌, ◌≤◌, ◌<◌, ◌+◌, ◌↔◌, ◌∷◌, ◌++◌, ℕ, List, [], drop, length, IfOk, IfErr, IfSome, OnOk, OnErr, IsTrue, MatchOption};
ghost use Rattle.std.specs.Int.{w16, to_be_bytes};
ghost use Rattle.std.specs.List.{flat_map};
ghost use Rattle.dnw_base.specs.Limits.{max_message, max_pointers};
ghost use Rattle.dnw_base.specs.Names.{lower};
ghost use Rattle.dnw_name_form.specs.Inside.WireBytes.{IsWire};
ghost use Rattle.dnw_name_order.specs.Order.{IsZoneOf};
ghost use Rattle.dnw_signed.specs.Covering.{AreCovered, FailsCovered, FailsRrsig, FailsToSign, HasRrsigType, IsCovered, IsRightRrsig, IsRrsigOf, IsSigned};
ghost use Rattle.dnw_signed.specs.Covering.{Selects, SignsFor, label_count, original_ttl, type_covered};
ghost use Rattle.dnw_signed.specs.RecordSets.{IsInOrder, set_record};
ghost use Rattle.dnw_data.specs.Signature.{before_signer};
ghost use Rattle.dnw_signed.specs.Inside.Heads.{head_with};
ghost use Rattle.dnw_signed.specs.Inside.Listing.{HoldsData, data_of};
ghost use Rattle.dnw_signed.specs.Inside.Selecting.{FailsRecords, FailsSelected, HasCanonical, IsOnlyCovered, IsRrsigAs, KnowsZone};

use crate::canonical::cut_signature;
use crate::data_list::DataList;
use crate::error::CanonicalError;
use crate::fields::{append_name, put_limited, put_record_data};
use crate::set::{SetHead, TYPE_CLASS_TTL, append_head, append_set, make_set};
use dnw_base::limits::{MAX_MESSAGE, MAX_NAME, MAX_POINTERS};
use dnw_base::record_type::RecordType;
use dnw_data::kind::NameForm;
use dnw_data::signature::BEFORE_SIGNER;
use dnw_name::name_ref::NameRef;
use dnw_name_form::wire_labels::WireLabels;
use dnw_name_order::order::{eq_labels, is_zone_of};
use dnw_record::rdata::RDataError;
use dnw_record::record_ref::RecordRef;
use std::alloc::{AllocError, Global};

/// The octets of the length of data.
const LENGTH: usize = 2;

/// The octets of the data of an RRSIG that its signature covers, and which records these are.
#[derive(Drop)]
pub(crate) struct Rrsig<'f> {
    // The octets.
    fields: &'f [u8],
    // Its signer is the owner, or a name that the owner is below.
    in_zone: bool,
}

/// Appends what the signature of an RRSIG covers of records of a message (RFC 4034, section 3.1.8.1): the octets of its data up to
/// the signature, with the signer's name in lower case, and then the records that it covers, as a set.
///
/// It covers those of its owner, its class and the type that it names, if its signer is the owner or a name that the owner is
/// below (RFC 4035, section 5.3.1). Other records are passed over. Names are written whole, and in lower case where canonical form
/// wants it (RFC 4034, section 6.2). Each record has the original time to live, and if the owner has more labels than the RRSIG
/// counts, the wildcard that made it for its owner (RFC 4035, section 5.3.2). The records stand in canonical order of their data,
/// and each once (RFC 4034, section 6.3).
///
/// It fails with `NotRrsig` if `rrsig` has another type, or no data, as one of class ANY or NONE may have none (RFC 2136, section
/// 2.4); with `RrsigField` if its data are not those of an RRSIG, and with `TooFewLabels` if its owner has fewer labels than it
/// counts; with `Field` and `DataTooLong` at the first record covered whose data are not the fields of its type, or are longer in
/// canonical form than two octets can say; with `TooManyPointers` at the first one whose names, with those before it, follow more
/// than 65,536 compression pointers; with `NoRecords` if it covers none; and with `Memory` if an allocation fails. Then nothing is
/// appended.
pub fn signed_octets(
    alloc: Global,
    rrsig: &RecordRef<'_>,
    records: &[RecordRef<'_>],
    out: &mut Vec<u8>,
) -> Result<(), CanonicalError>
    ensures ok { OnOk result ((own : List ℕ) × IsSigned rrsig.now records.now own × (out.new.items ≡ out.old.items ++ own)) }
    ensures err { IfErr result (FailsToSign rrsig.now records.now) }
    ensures same { OnErr result (out.new.items ≡ out.old.items) }
{
    let before = out.len();
    let outcome = append_signed(alloc, rrsig, records, out);
    if outcome.is_err() {
        out.truncate(before);
    }
    outcome
}

/// Appends what the signature of an RRSIG covers. If it fails, a part may be appended.
fn append_signed(
    alloc: Global,
    rrsig: &RecordRef<'_>,
    records: &[RecordRef<'_>],
    out: &mut Vec<u8>,
) -> Result<(), CanonicalError>
    ensures ok { OnOk result ((own : List ℕ) × IsSigned rrsig.now records.now own × (out.new.items ≡ out.old.items ++ own)) }
    ensures err { IfErr result (FailsToSign rrsig.now records.now) }
    ensures grows { (more : List ℕ) × (out.new.items ≡ out.old.items ++ more) }
{
    let start = out.len();
    let in_zone = append_fields(alloc, rrsig, out)?;
    append_records(alloc, rrsig, records, in_zone, start, out)
}

/// Appends the octets of the data of an RRSIG that its signature covers, and returns `true` if its signer is the owner, or a name that
/// the owner is below. If it fails, a part may be appended.
fn append_fields(
    alloc: Global,
    rrsig: &RecordRef<'_>,
    out: &mut Vec<u8>,
) -> Result<bool, CanonicalError>
    ensures ok { IfOk result (λ in_zone. (fields : List ℕ) × IsRightRrsig rrsig.now fields × KnowsZone rrsig.now fields in_zone
        × (out.new.items ≡ out.old.items ++ fields)) }
    ensures err { IfErr result (FailsRrsig rrsig.now) }
    ensures grows { (more : List ℕ) × (out.new.items ≡ out.old.items ++ more) }
{
    if u16::from(rrsig.record_type()) != u16::from(RecordType::RRSIG) {
        return Err(CanonicalError::NotRrsig);
    }
    let start = out.len();
    let in_zone = append_own(alloc, rrsig, out)?;
    if rrsig.owner().num_labels() < label_count(&out.as_slice()[start..]) {
        return Err(CanonicalError::TooFewLabels);
    }
    Ok(in_zone)
}

/// Appends the octets of the data of an RRSIG that its signature covers, whatever it counts, and returns whether its signer may be the
/// zone of its owner. If it fails, a part may be appended.
fn append_own(
    alloc: Global,
    rrsig: &RecordRef<'_>,
    out: &mut Vec<u8>,
) -> Result<bool, CanonicalError>
    requires { HasRrsigType rrsig.now }
    ensures ok { IfOk result (λ in_zone. (fields : List ℕ) × IsRrsigOf rrsig.now fields × KnowsZone rrsig.now fields in_zone
        × (out.new.items ≡ out.old.items ++ fields)) }
    ensures err { IfErr result (FailsRrsig rrsig.now) }
    ensures grows { (more : List ℕ) × (out.new.items ≡ out.old.items ++ more) }
{
    out.reserve(rrsig.rdata().len() + 2 * MAX_NAME)?;
    if let Some(in_zone) = append_known(rrsig, out)? {
        return Ok(in_zone);
    }
    let fields = fields_of(alloc, rrsig)?;
    out.extend_from_slice(fields.as_slice())?;
    Ok(signs_for(fields.as_slice(), rrsig.owner()))
}

/// Appends the octets of the data of an RRSIG that its signature covers, and returns whether its signer may be the zone of its owner.
/// If they do not begin as they should, nothing is appended, and it returns `None`. If it fails, a part may be appended.
fn append_known(rrsig: &RecordRef<'_>, out: &mut Vec<u8>) -> Result<Option<bool>, AllocError>
    requires { HasRrsigType rrsig.now }
    ensures ok { IfOk result (λ known. MatchOption known (out.new.items ≡ out.old.items) (λ in_zone. (fields : List ℕ)
        × IsRrsigOf rrsig.now fields × KnowsZone rrsig.now fields in_zone × (out.new.items ≡ out.old.items ++ fields))) }
    ensures grows { (more : List ℕ) × (out.new.items ≡ out.old.items ++ more) }
{
    let mut reader = rrsig.data_decoder();
    let Ok(fixed) = reader.read_slice(BEFORE_SIGNER) else {
        return Ok(None);
    };
    let Ok(signer) = NameRef::read(&mut reader) else {
        return Ok(None);
    };
    out.extend_from_slice(fixed.unverified())?;
    append_name(NameForm::Lowered, &signer, out)?;
    Ok(Some(is_in_zone(rrsig.owner(), &signer)))
}

/// Returns the octets of the data of an RRSIG that its signature covers.
fn fields_of(alloc: Global, rrsig: &RecordRef<'_>) -> Result<Vec<u8>, CanonicalError>
    requires { HasRrsigType rrsig.now }
    ensures ok { IfOk result (λ fields. IsRrsigOf rrsig.now fields.items) }
    ensures err { IfErr result (FailsRrsig rrsig.now) }
{
    let mut fields = Vec::with_capacity(alloc, rrsig.rdata().len() + MAX_NAME)?;
    match put_record_data(rrsig, &mut fields) {
        Ok(()) => {}
        Err(RDataError::Field(error)) => return Err(CanonicalError::RrsigField(error)),
        Err(RDataError::Memory) => return Err(CanonicalError::Memory),
    }
    // Under NONE and ANY data may be left out.
    if fields.as_slice().len() < BEFORE_SIGNER {
        return Err(CanonicalError::NotRrsig);
    }
    cut_signature(&mut fields);
    Ok(fields)
}

/// Returns `true` if the signer is the owner, or a name that the owner is below.
fn signs_for(fields: &[u8], owner: &NameRef<'_>) -> bool
    requires { IsWire (drop before_signer fields.now) }
    ensures { IsTrue result ↔ SignsFor fields.now owner.now }
{
    let signer = WireLabels::new(&fields[BEFORE_SIGNER..]);
    is_zone_of(signer, owner.wire_labels(&mut [0; MAX_NAME]))
}

/// Returns `true` if the last labels of a name are those of a zone, ignoring ASCII case.
fn is_in_zone(name: &NameRef<'_>, zone: &NameRef<'_>) -> bool
    ensures { IsTrue result ↔ IsZoneOf zone.now name.now }
{
    match (zone.labels_in_place(), name.labels_in_place()) {
        (Some(last), Some(labels)) => is_zone_of(last, labels),
        _ => is_gathered_in_zone(name, zone),
    }
}

/// Returns what `is_in_zone` does. Its rooms are no part of the frame of a caller, which would clear them for other names too.
#[inline(never)]
fn is_gathered_in_zone(name: &NameRef<'_>, zone: &NameRef<'_>) -> bool
    ensures { IsTrue result ↔ IsZoneOf zone.now name.now }
{
    is_zone_of(
        zone.wire_labels(&mut [0; MAX_NAME]),
        name.wire_labels(&mut [0; MAX_NAME]),
    )
}

/// Appends the records that an RRSIG covers, as a set, after the octets of its data, which begin at an offset. If it fails, a part may
/// be appended.
fn append_records(
    alloc: Global,
    rrsig: &RecordRef<'_>,
    records: &[RecordRef<'_>],
    in_zone: bool,
    start: usize,
    out: &mut Vec<u8>,
) -> Result<(), CanonicalError>
    requires within { start ≤ length out.old.items }
    requires right { IsRightRrsig rrsig.now (drop start out.old.items) }
    requires zone { KnowsZone rrsig.now (drop start out.old.items) in_zone }
    ensures ok { OnOk result ((own : List ℕ) × IsSigned rrsig.now records.now (drop start out.old.items ++ own)
        × (out.new.items ≡ out.old.items ++ own)) }
    ensures err { IfErr result (FailsRecords rrsig.now (drop start out.old.items) records.now) }
    ensures grows { (more : List ℕ) × (out.new.items ≡ out.old.items ++ more) }
{
    let fields = &out.as_slice()[start..];
    let own = Rrsig { fields, in_zone };
    let head = SetHead {
        code: type_covered(fields),
        class: u16::from(rrsig.class()),
        labels: label_count(fields),
        original_ttl: original_ttl(fields),
    };
    match only_covered(rrsig, &own, records) {
        Some((number, item)) => append_only(rrsig, &head, number, item, out),
        None => {
            let list = covered(alloc, rrsig, &own, records)?;
            if list.is_empty() {
                return Err(CanonicalError::NoRecords);
            }
            Ok(append_list(alloc, rrsig.owner(), &head, &list, out)?)
        }
    }
}

/// Returns the number of the record that an RRSIG covers, and the record, if it is the only one.
fn only_covered<'a, 'r>(
    rrsig: &RecordRef<'_>,
    own: &Rrsig<'_>,
    records: &'a [RecordRef<'r>],
) -> Option<(usize, &'a RecordRef<'r>)>
    requires { IsRrsigAs rrsig.now own.now }
    ensures { IfSome result (λ only. IsOnlyCovered rrsig.now own.now.fields.now records.now only.0 only.1.now) }
{
    let mut only = None;
    let mut number = 0;
    'records: for item in records {
        if is_covered(rrsig, own, item) {
            if only.is_some() {
                return None;
            }
            only = Some((number, item));
        }
        number += 1;
    }
    only
}

/// Appends the only record that an RRSIG covers, which has this number. If it fails, a part may be appended.
fn append_only(
    rrsig: &RecordRef<'_>,
    head: &SetHead,
    number: usize,
    item: &RecordRef<'_>,
    out: &mut Vec<u8>,
) -> Result<(), CanonicalError>
    ensures ok { OnOk result ((octets : List ℕ) × HasCanonical item.now octets
        × (out.new.items ≡ out.old.items ++ set_record (head_with rrsig.now.owner head.now) octets)) }
    ensures err { IfErr result (FailsSelected item.now max_pointers number) }
    ensures grows { (more : List ℕ) × (out.new.items ≡ out.old.items ++ more) }
{
    append_head(rrsig.owner(), head, out)?;
    append_counted(number, item, out)
}

/// Appends the data in canonical form of the record with this number, which is the first that an RRSIG covers, after their length. If
/// it fails, a part may be appended.
fn append_counted(
    record: usize,
    item: &RecordRef<'_>,
    out: &mut Vec<u8>,
) -> Result<(), CanonicalError>
    ensures ok { OnOk result ((octets : List ℕ) × HasCanonical item.now octets
        × (out.new.items ≡ out.old.items ++ (to_be_bytes w16 (length octets) ++ octets))) }
    ensures err { IfErr result (FailsSelected item.now max_pointers «record») }
    ensures grows { (more : List ℕ) × (out.new.items ≡ out.old.items ++ more) }
{
    let mut most = MAX_POINTERS;
    let at = out.len();
    out.extend_from_slice(&[0; LENGTH])?;
    put_limited(item, record, &mut most, out)?;
    let size = checked_size(record, out.len() - at - LENGTH)?;
    put_length(out, at, size);
    Ok(())
}

/// Returns how many octets the data of the record with this number take, if two octets can say it.
fn checked_size(record: usize, size: usize) -> Result<u16, CanonicalError>
    ensures ok { IfOk result (λ own. (own ≡ size) × (own ≤ max_message)) }
    ensures err { IfErr result (λ error. (max_message < size) × (error ≡ CanonicalError.DataTooLong «record»)) }
{
    if size > MAX_MESSAGE as usize {
        return Err(CanonicalError::DataTooLong { record });
    }
    Ok(size as u16)
}

/// Puts a length at an offset, in the place of two octets.
fn put_length(out: &mut Vec<u8>, at: usize, size: u16)
    requires { at + 2 ≤ length out.old.items }
    ensures { (before own : List ℕ) → length before ≡ at → out.old.items ≡ before ++ 0 ∷ 0 ∷ own
        → out.new.items ≡ before ++ (to_be_bytes w16 size ++ own) }
{
    out.as_mut_slice()[at..at + LENGTH].copy_from_slice(&u16::to_be_bytes(size));
}

/// Appends the records with these data, as a set. If it fails, a part may be appended.
fn append_list(
    alloc: Global,
    owner: &NameRef<'_>,
    head: &SetHead,
    list: &DataList,
    out: &mut Vec<u8>,
) -> Result<(), AllocError>
    requires { HoldsData list.now }
    ensures ok { OnOk result ((sorted : List (List ℕ)) × IsInOrder (data_of list.now) sorted
        × (out.new.items ≡ out.old.items ++ flat_map (set_record (head_with owner.now head.now)) sorted)) }
    ensures grows { (more : List ℕ) × (out.new.items ≡ out.old.items ++ more) }
{
    let mut begins = Vec::with_capacity(alloc, MAX_NAME + TYPE_CLASS_TTL)?;
    append_head(owner, head, &mut begins)?;
    let mut all = list.slices(alloc)?;
    make_set(&mut all);
    out.reserve(set_size(begins.as_slice(), all.as_slice()))?;
    append_set(begins.as_slice(), all.as_slice(), out)
}

/// Returns the data in canonical form of the records that an RRSIG covers.
fn covered(
    alloc: Global,
    rrsig: &RecordRef<'_>,
    own: &Rrsig<'_>,
    records: &[RecordRef<'_>],
) -> Result<DataList, CanonicalError>
    requires { IsRrsigAs rrsig.now own.now }
    ensures ok { IfOk result (λ list. HoldsData list × (left : ℕ)
        × AreCovered rrsig.now own.now.fields.now records.now max_pointers (data_of list) left × (data_of list ≡ [] → left ≡ max_pointers)) }
    ensures err { IfErr result (FailsCovered rrsig.now own.now.fields.now records.now) }
{
    let mut list = DataList::new(alloc);
    let mut left = MAX_POINTERS;
    let mut number = 0;
    'records: for item in records {
        select(rrsig, own, item, number, &mut left, &mut list)?;
        number += 1;
    }
    Ok(list)
}

/// Appends the data of the record with this number to a list if the RRSIG covers it, and takes the pointers that its names follow
/// from those that are `left`.
fn select(
    rrsig: &RecordRef<'_>,
    own: &Rrsig<'_>,
    item: &RecordRef<'_>,
    number: usize,
    left: &mut usize,
    list: &mut DataList,
) -> Result<(), CanonicalError>
    requires rrsig { IsRrsigAs rrsig.now own.now }
    requires listed { HoldsData list.old }
    ensures ok { OnOk result ((more : List (List ℕ)) × Selects rrsig.now own.now.fields.now item.now left.old more left.new
        × HoldsData list.new × (data_of list.new ≡ data_of list.old ++ more)) }
    ensures err { IfErr result (λ error. IsCovered rrsig.now own.now.fields.now item.now × FailsSelected item.now left.old number error) }
{
    if !is_covered(rrsig, own, item) {
        return Ok(());
    }
    list.push_record(item, number, left)
}

/// Returns `true` if an RRSIG covers a record (RFC 4035, section 5.3.1).
fn is_covered(rrsig: &RecordRef<'_>, own: &Rrsig<'_>, item: &RecordRef<'_>) -> bool
    requires { IsRrsigAs rrsig.now own.now }
    ensures { IsTrue result ↔ IsCovered rrsig.now own.now.fields.now item.now }
{
    own.in_zone
        && u16::from(item.record_type()) == type_covered(own.fields)
        && u16::from(item.class()) == u16::from(rrsig.class())
        && is_same_name(item.owner(), rrsig.owner())
}

/// Returns `true` if names are the same, ignoring ASCII case.
fn is_same_name(name: &NameRef<'_>, other: &NameRef<'_>) -> bool
    ensures { IsTrue result ↔ (lower name.now ≡ lower other.now) }
{
    if name.encoded_len() != other.encoded_len() {
        return false;
    }
    match (name.labels_in_place(), other.labels_in_place()) {
        (Some(own), Some(others)) => eq_labels(own, others),
        _ => eq_labels(
            name.wire_labels(&mut [0; MAX_NAME]),
            other.wire_labels(&mut [0; MAX_NAME]),
        ),
    }
}

/// Returns the type that an RRSIG covers (RFC 4034, section 3.1.1).
fn type_covered(fields: &[u8]) -> u16
    requires { before_signer ≤ length fields.now }
    ensures { result ≡ type_covered fields.now }
{
    u16::from_be_bytes([fields[0], fields[1]])
}

/// Returns how many labels an RRSIG counts in its owner (RFC 4034, section 3.1.3).
fn label_count(fields: &[u8]) -> u8
    requires { before_signer ≤ length fields.now }
    ensures { result ≡ label_count fields.now }
{
    fields[3]
}

/// Returns the time to live of the records as it was when they were signed (RFC 4034, section 3.1.4).
fn original_ttl(fields: &[u8]) -> u32
    requires { before_signer ≤ length fields.now }
    ensures { result ≡ original_ttl fields.now }
{
    u32::from_be_bytes([fields[4], fields[5], fields[6], fields[7]])
}

/// Returns how many octets the records of a set take that begin with these octets and have these data.
fn set_size(head: &[u8], all: &[&[u8]]) -> usize {
    let mut size = 0usize;
    for item in all {
        let own = item.len().saturating_add(LENGTH);
        size = size.saturating_add(head.len()).saturating_add(own);
    }
    size
}
