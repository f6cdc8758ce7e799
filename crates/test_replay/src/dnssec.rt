//! Sums of DNSSEC.

use crate::notation::{BAD_LINE, first_word, hexadecimal, name, number, octets};
use crate::record_sets::record;
use dns_names_wire::dnssec::{
    DnssecError, ds_digest, key_tag, nsec_covers, nsec3_covers, nsec3_hash, nsec3_label,
    zone_digest,
};
use dns_names_wire::error::{ProtoError, ProtoResult};
use std::alloc::Global;

/// Makes a request.
pub(crate) fn answer(alloc: Global, kind: &str, words: &str) -> ProtoResult<String> {
    match kind {
        "key-tag" => tag(alloc, words),
        "ds" => digest(alloc, words),
        "nsec3" => hash(alloc, words),
        "nsec-covers" => covers(alloc, words),
        "nsec3-covers" => covers_hash(alloc, words),
        "zone-digest" => zone(alloc, words),
        _ => Err(BAD_LINE),
    }
}

/// Returns the text of why there is no sum.
fn failed(alloc: Global, error: &DnssecError) -> ProtoResult<String> {
    match error {
        DnssecError::Memory => Err(ProtoError::Memory),
        other => Ok(format!(in alloc; "err:{other}")?),
    }
}

/// Returns the key tag of the data of a DNSKEY.
fn tag(alloc: Global, words: &str) -> ProtoResult<String> {
    match key_tag(octets(alloc, words)?.as_slice()) {
        Ok(tag) => Ok(format!(in alloc; "{tag}")?),
        Err(error) => failed(alloc, &error),
    }
}

/// Returns the digest of a key: its owner, the digest type, and its data.
fn digest(alloc: Global, words: &str) -> ProtoResult<String> {
    let (owner, words) = first_word(words)?;
    let (digest_type, words) = first_word(words)?;
    let owner = name(alloc, owner)?;
    let dnskey = octets(alloc, words)?;
    match ds_digest(&owner, dnskey.as_slice(), number::<u8>(digest_type)?) {
        Ok(digest) => Ok(hexadecimal(alloc, digest.as_slice())?),
        Err(error) => failed(alloc, &error),
    }
}

/// Returns the label of a hashed name: the name, the algorithm, the iterations, the salt, and how many iterations are allowed.
fn hash(alloc: Global, words: &str) -> ProtoResult<String> {
    let (owner, words) = first_word(words)?;
    let (algorithm, words) = first_word(words)?;
    let (iterations, words) = first_word(words)?;
    let (salt, most) = first_word(words)?;
    let owner = name(alloc, owner)?;
    let salt = octets(alloc, salt)?;
    let algorithm = number::<u8>(algorithm)?;
    let iterations = number::<u16>(iterations)?;
    match nsec3_hash(
        &owner,
        algorithm,
        iterations,
        salt.as_slice(),
        number::<u16>(most)?,
    ) {
        Ok(hash) => label_text(alloc, &nsec3_label(&hash)),
        Err(error) => failed(alloc, &error),
    }
}

/// Returns a label as text.
fn label_text(alloc: Global, label: &[u8]) -> ProtoResult<String> {
    let mut text = String::new(alloc);
    for digit in label {
        text.push(char::from(*digit))?;
    }
    Ok(text)
}

/// Returns whether a record covers a name: the owner, the next name, and the name.
fn covers(alloc: Global, words: &str) -> ProtoResult<String> {
    let (owner, words) = first_word(words)?;
    let (next, given) = first_word(words)?;
    let owner = name(alloc, owner)?;
    let next = name(alloc, next)?;
    let given = name(alloc, given)?;
    Ok(format!(in alloc; "{}", nsec_covers(&owner, &next, &given))?)
}

/// Returns whether a record covers a hash: its own, the next one, and the hash.
fn covers_hash(alloc: Global, words: &str) -> ProtoResult<String> {
    let (own, words) = first_word(words)?;
    let (next, given) = first_word(words)?;
    let own = octets(alloc, own)?;
    let next = octets(alloc, next)?;
    let given = octets(alloc, given)?;
    Ok(format!(in alloc;
        "{}",
        nsec3_covers(own.as_slice(), next.as_slice(), given.as_slice())
    )?)
}

/// Returns the digest of a zone: its apex, the hash algorithm, and its records as `record-set` has them.
fn zone(alloc: Global, words: &str) -> ProtoResult<String> {
    let (apex, words) = first_word(words)?;
    let (algorithm, words) = first_word(words)?;
    let apex = name(alloc, apex)?;
    let mut records = Vec::new(alloc);
    for word in words.split(' ') {
        records.push(record(alloc, word)?)?;
    }
    match zone_digest(alloc, &apex, records.as_slice(), number::<u8>(algorithm)?) {
        Ok(digest) => Ok(hexadecimal(alloc, digest.as_slice())?),
        Err(error) => failed(alloc, &error),
    }
}
