//! The sums of DNSSEC.
ghost use Rattle.std.specs.Prelude.{◌≡◌, IfOk, IfErr};
ghost use Rattle.dnw_base.specs.Names.{NameValue};
ghost use Rattle.dnw_c_base.specs.Results.{Returns};
ghost use Rattle.dnw_c_base.specs.WireForms.{IsFormOf, IsNoForm};
ghost use Rattle.dnw_c_signed.specs.SumCalls.{CoversName, FailsToCover, FailsToDigest, FailsToHashForm, HasDigest, HasHash, PutsDigest, PutsHash};
ghost use Rattle.dnw_c_signed.specs.SumCalls.{PutsHashLabel, SaysIfCovered, SaysIfHashCovered, TagsKey, of_dnssec};

use dnw_c_base::buffer::put;
use dnw_c_base::failure::Failure;
use dnw_c_base::names::name_ref_at;
use dnw_c_base::results::report;
use dnw_name::name::Name;
use dnw_signed::covers::{nsec_covers, nsec3_covers};
use dnw_signed::ds::{Digest, ds_digest};
use dnw_signed::error::DnssecError;
use dnw_signed::key_tag::key_tag;
use dnw_signed::nsec3::{NSEC3_HASH_LENGTH, nsec3_hash, nsec3_label};
use std::alloc::Global;

/// Puts the key tag of the data of a DNSKEY.
#[unsafe(no_mangle)]
pub extern "C" fn dnw_key_tag(dnskey: &[u8], tag: &mut u16) -> u32
    ensures { Returns (TagsKey dnskey.now) tag.old tag.new result }
{
    report(tag_of(dnskey), tag)
}

/// Puts the digest of a key that a DS record has.
#[unsafe(no_mangle)]
pub extern "C" fn dnw_ds_digest(
    alloc: Global,
    owner: &[u8],
    dnskey: &[u8],
    digest_type: u8,
    digest: &mut [u8],
    len: &mut usize,
) -> u32
    ensures { Returns (PutsDigest owner.now dnskey.now digest_type digest.old digest.new) len.old len.new result }
{
    report(put_digest(alloc, owner, dnskey, digest_type, digest), len)
}

/// Puts a name as NSEC3 hashes it.
#[unsafe(no_mangle)]
pub extern "C" fn dnw_nsec3_hash(
    alloc: Global,
    name: &[u8],
    algorithm: u8,
    iterations: u16,
    salt: &[u8],
    most: u16,
    hash: &mut [u8],
    len: &mut usize,
) -> u32
    ensures { Returns (PutsHash name.now algorithm iterations salt.now most hash.old hash.new) len.old len.new result }
{
    report(
        put_hash(alloc, name, algorithm, iterations, salt, most, hash),
        len,
    )
}

/// Puts the first label of the owner of the NSEC3 record that a name is hashed to.
#[unsafe(no_mangle)]
pub extern "C" fn dnw_nsec3_label(
    alloc: Global,
    name: &[u8],
    algorithm: u8,
    iterations: u16,
    salt: &[u8],
    most: u16,
    label: &mut [u8],
    len: &mut usize,
) -> u32
    ensures { Returns (PutsHashLabel name.now algorithm iterations salt.now most label.old label.new) len.old len.new result }
{
    report(
        put_label(alloc, name, algorithm, iterations, salt, most, label),
        len,
    )
}

/// Puts whether an NSEC record covers a name.
#[unsafe(no_mangle)]
pub extern "C" fn dnw_nsec_covers(
    alloc: Global,
    owner: &[u8],
    next: &[u8],
    name: &[u8],
    covers: &mut bool,
) -> u32
    ensures { Returns (SaysIfCovered owner.now next.now name.now) covers.old covers.new result }
{
    report(covers_name(alloc, owner, next, name), covers)
}

/// Puts whether an NSEC3 record covers a hashed name.
#[unsafe(no_mangle)]
pub extern "C" fn dnw_nsec3_covers(own: &[u8], next: &[u8], hash: &[u8], covers: &mut bool) -> u32
    ensures { Returns (SaysIfHashCovered own.now next.now hash.now) covers.old covers.new result }
{
    report(Ok(nsec3_covers(own, next, hash)), covers)
}

/// Returns the key tag of the data of a DNSKEY.
fn tag_of(dnskey: &[u8]) -> Result<u16, Failure>
    ensures { TagsKey dnskey.now result }
{
    match key_tag(dnskey) {
        Ok(own) => Ok(own),
        Err(error) => Err(of_dnssec(&error)),
    }
}

/// Puts the digest of a key, and returns its length.
fn put_digest(
    alloc: Global,
    owner: &[u8],
    dnskey: &[u8],
    digest_type: u8,
    digest: &mut [u8],
) -> Result<usize, Failure>
    ensures { PutsDigest owner.now dnskey.now digest_type digest.old digest.new result }
{
    let own = key_digest(alloc, owner, dnskey, digest_type)?;
    put(digest, own.as_slice())
}

/// Returns the digest of a key.
fn key_digest(
    alloc: Global,
    owner: &[u8],
    dnskey: &[u8],
    digest_type: u8,
) -> Result<Digest, Failure>
    ensures ok { IfOk result (λ own. HasDigest owner.now dnskey.now digest_type own.items) }
    ensures err { IfErr result (FailsToDigest owner.now dnskey.now digest_type) }
{
    let owner = match name_of(alloc, owner) {
        Ok(owner) => owner,
        Err(failure) => return Err(failure),
    };
    match ds_digest(&owner, dnskey, digest_type) {
        Ok(own) => Ok(own),
        Err(error) => Err(of_dnssec(&error)),
    }
}

/// Puts a hashed name, and returns its length.
fn put_hash(
    alloc: Global,
    name: &[u8],
    algorithm: u8,
    iterations: u16,
    salt: &[u8],
    most: u16,
    hash: &mut [u8],
) -> Result<usize, Failure>
    ensures { PutsHash name.now algorithm iterations salt.now most hash.old hash.new result }
{
    let own = hash_of(alloc, name, algorithm, iterations, salt, most)?;
    put(hash, &own)
}

/// Puts the label of a hashed name, and returns its length.
fn put_label(
    alloc: Global,
    name: &[u8],
    algorithm: u8,
    iterations: u16,
    salt: &[u8],
    most: u16,
    label: &mut [u8],
) -> Result<usize, Failure>
    ensures { PutsHashLabel name.now algorithm iterations salt.now most label.old label.new result }
{
    let own = hash_of(alloc, name, algorithm, iterations, salt, most)?;
    put(label, &nsec3_label(&own))
}

/// Returns the hash of the name with a wire form.
fn hash_of(
    alloc: Global,
    name: &[u8],
    algorithm: u8,
    iterations: u16,
    salt: &[u8],
    most: u16,
) -> Result<[u8; NSEC3_HASH_LENGTH], Failure>
    ensures ok { IfOk result (HasHash name.now algorithm iterations salt.now most) }
    ensures err { IfErr result (FailsToHashForm name.now algorithm iterations most) }
{
    let name = name_of(alloc, name)?;
    match nsec3_hash(&name, algorithm, iterations, salt, most) {
        Ok(own) => Ok(own),
        Err(error) => Err(of_dnssec(&error)),
    }
}

/// Returns whether an NSEC record covers a name.
fn covers_name(alloc: Global, owner: &[u8], next: &[u8], name: &[u8]) -> Result<bool, Failure>
    ensures ok { IfOk result (CoversName owner.now next.now name.now) }
    ensures err { IfErr result (FailsToCover owner.now next.now name.now) }
{
    let owner = match name_of(alloc, owner) {
        Ok(owner) => owner,
        Err(failure) => return Err(failure),
    };
    let next = name_of(alloc, next)?;
    let name = name_of(alloc, name)?;
    Ok(nsec_covers(&owner, &next, &name))
}

/// Returns the name with a wire form.
pub(crate) fn name_of(alloc: Global, form: &[u8]) -> Result<Name, Failure>
    ensures ok { IfOk result (λ (name : NameValue). IsFormOf form.now name.labels) }
    ensures err { IfErr result (IsNoForm form.now) }
{
    let (name, end) = name_ref_at(form, 0)?;
    if end != form.len() {
        return Err(Failure::BytesLeft);
    }
    Ok(name.to_name(alloc).unwrap())
}

/// Returns the failure that stands for why there is no sum.
pub(crate) fn of_dnssec(error: &DnssecError) -> Failure
    ensures { result ≡ of_dnssec error.now }
{
    match error {
        DnssecError::NotDnskey => Failure::NotDnskey,
        DnssecError::Decode(_) | DnssecError::UnknownHash(_) => Failure::UnknownAlgorithm,
        DnssecError::TooManyIterations => Failure::TooManyIterations,
        DnssecError::DataTooLong { record: _ } => Failure::DataTooLong,
        DnssecError::Memory => Failure::NoMemory,
    }
}
