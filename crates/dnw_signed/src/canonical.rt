//! What a signature covers of owned records.
ghost use Rattle.std.specs.Prelude.{◌≡◌, ◌≤◌, ◌↔◌, length, IfOk, IfErr, IsTrue};
ghost use Rattle.std.specs.List.{AllByRecursion};
ghost use Rattle.dnw_record.specs.DataPieces.{DataValue};
ghost use Rattle.dnw_signed.specs.CanonicalData.{IsCanonical};
ghost use Rattle.dnw_signed.specs.RecordSets.{AreCanonical, FailsSet, IsOfSet, IsRecordSet, IsSet};
ghost use Rattle.dnw_signed.specs.SignedFields.{FailsSignedFields, IsRrsig, IsSignedFields};
ghost use Rattle.dnw_signed.specs.Inside.Going.{HasLength};
ghost use Rattle.dnw_signed.specs.Inside.Listing.{HoldsData, data_of};

use crate::data_list::DataList;
use crate::error::CanonicalError;
use crate::fields::canonical_octets;
use crate::set::{SetHead, TYPE_CLASS_TTL, append_head, append_set, make_set};
use dnw_base::decoder::BinDecoder;
use dnw_base::limits::{MAX_MESSAGE, MAX_NAME};
use dnw_base::record_type::RecordType;
use dnw_data::signature::BEFORE_SIGNER;
use dnw_name::name_ref::NameRef;
use dnw_record::rdata::RData;
use dnw_record::record::Record;
use std::alloc::{AllocError, Global};

/// Returns the octets of a set of records that a signature covers, after those of `signed_fields` (RFC 4034, section 3.1.8.1).
///
/// `labels` and `original_ttl` are fields of the RRSIG. If the owner has more labels, a wildcard made the records, and they are
/// signed with the wildcard for their owner (RFC 4035, section 5.3.2). The records stand in canonical order of their data, and
/// each once (RFC 4034, section 6.3).
///
/// It fails with `NoRecords` if there are none, with `TooFewLabels` if the owner has fewer labels, with `NotInSet` if a record
/// has another owner, type or class than the first one, ignoring the case of the owner, with `DataTooLong` if the data of a
/// record have more than 65,535 octets, and with `Memory` if an allocation fails.
#[tactic(auto, using(crate::proofs::Going::joins, crate::proofs::Going::memory_is, crate::proofs::Going::have_lengths))]
pub fn record_set(
    alloc: Global,
    records: &[Record],
    labels: u8,
    original_ttl: u32,
) -> Result<Vec<u8>, CanonicalError>
    ensures ok { IfOk result (λ octets. IsRecordSet records.now labels original_ttl octets.items) }
    ensures err { IfErr result (FailsSet records.now labels) }
{
    let first = check(records, labels)?;
    let head = SetHead {
        code: u16::from(first.data.record_type()),
        class: u16::from(first.dns_class()),
        labels,
        original_ttl,
    };
    let mut begins = Vec::with_capacity(alloc, MAX_NAME + TYPE_CLASS_TTL)?;
    append_head(&first.name.as_name_ref(), &head, &mut begins)?;
    let list = canonical_data(alloc, records)?;
    let mut all = list.slices(alloc)?;
    make_set(&mut all);
    let mut octets = Vec::new(alloc);
    append_set(begins.as_slice(), all.as_slice(), &mut octets)?;
    Ok(octets)
}

/// Returns the octets of an RRSIG that its signature covers: its data without the signature, and with the signer's name in
/// lower case (RFC 4034, section 3.1.8.1). The octets of `record_set` follow.
///
/// It fails with `NotRrsig` if the data are not those of an RRSIG, and with `Memory` if an allocation fails.
pub fn signed_fields(alloc: Global, rrsig: &RData) -> Result<Vec<u8>, CanonicalError>
    ensures ok { IfOk result (λ octets. IsSignedFields rrsig.now octets.items) }
    ensures err { IfErr result (FailsSignedFields rrsig.now) }
{
    if u16::from(rrsig.record_type()) != u16::from(RecordType::RRSIG) {
        return Err(CanonicalError::NotRrsig);
    }
    // Under NONE and ANY data may be left out.
    if rrsig.octets().len() < BEFORE_SIGNER {
        return Err(CanonicalError::NotRrsig);
    }
    let mut fields = canonical_octets(alloc, rrsig)?;
    cut_signature(&mut fields);
    Ok(fields)
}

/// Cuts the signature off the data of an RRSIG in canonical form.
pub(crate) fn cut_signature(fields: &mut Vec<u8>)
    requires { (x : DataValue) × IsRrsig x × IsCanonical x fields.old.items }
    ensures { (x : DataValue) → IsRrsig x → IsCanonical x fields.old.items → IsSignedFields x fields.new.items }
{
    let mut reader = BinDecoder::new(fields.as_slice());
    reader.skip(BEFORE_SIGNER).unwrap();
    NameRef::read(&mut reader).unwrap();
    let end = reader.index();
    fields.truncate(end);
}

/// Checks that the records are a set, and returns the first one.
#[tactic(auto, using(crate::proofs::Going::checks_on, crate::proofs::Going::all_checked))]
fn check(records: &[Record], labels: u8) -> Result<&Record, CanonicalError>
    ensures ok { IfOk result (λ first. IsSet records.now first.now labels) }
    ensures err { IfErr result (λ e. FailsSet records.now labels e × (e ≡ CanonicalError.Memory → ⊥)) }
{
    let Some((first, _)) = records.split_first() else {
        return Err(CanonicalError::NoRecords);
    };
    if first.name.wire_labels().len() < labels as usize {
        return Err(CanonicalError::TooFewLabels);
    }
    let mut left = records;
    'records: while let Some((item, others)) = left.split_first() {
        let record = records.len() - left.len();
        if !is_of_set(first, item) {
            return Err(CanonicalError::NotInSet { record });
        }
        if item.data.octets().len() > MAX_MESSAGE as usize {
            return Err(CanonicalError::DataTooLong { record });
        }
        left = others;
    }
    Ok(first)
}

/// Returns `true` if a record has the owner, the type and the class of the first one.
fn is_of_set(first: &Record, item: &Record) -> bool
    ensures { IsTrue result ↔ IsOfSet first.now item.now }
{
    item.name.eq_ignore_root(&first.name)
        && u16::from(item.data.record_type()) == u16::from(first.data.record_type())
        && u16::from(item.dns_class()) == u16::from(first.dns_class())
}

/// Returns the data of each record in canonical form.
#[tactic(auto, using(crate::proofs::Going::lists_on))]
fn canonical_data(alloc: Global, records: &[Record]) -> Result<DataList, AllocError>
    requires { AllByRecursion HasLength records.now }
    ensures { IfOk result (λ list. HoldsData list × AreCanonical records.now (data_of list)) }
{
    let mut list = DataList::new(alloc);
    let mut left = records;
    'records: while let Some((item, others)) = left.split_first() {
        match list.push_data(&item.data) {
            Ok(_) => left = others,
            Err(_) => return Err(AllocError),
        }
    }
    Ok(list)
}
