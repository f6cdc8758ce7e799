//! The sums that DNSSEC makes, over records as entries of master files.
ghost use Rattle.std.specs.Prelude.{◌≡◌, ◌+◌, ◌≤◌, length, IfOk, IfErr};
ghost use Rattle.std.specs.String.{string_bytes};
ghost use Rattle.dns_names_wire.specs.Words.{HasKeyTag, data_octets, key_tag};
ghost use Rattle.dnw_commands.specs.Refusals.{IsMemory};
ghost use Rattle.dnw_commands.specs.Sums.{AreDsOf, FailsDs, FailsKeyEntry, FailsKeyRecord, FailsNsec3, IsDsRecord, IsDsText, IsKeyRecord, IsKeyTagText, IsNsec3Text, ds_data, ds_wire};

use crate::base::{Misuse, Refusal};
use dns_names_wire::ProtoError;
use dns_names_wire::binary::BinDecodable;
use dns_names_wire::data_text::{parse_entry, record_text};
use dns_names_wire::dnssec::{DnssecError, ds_digest, key_tag, nsec3_hash};
use dns_names_wire::field_text::{Base32Hex, FieldTextError, parse_salt, parse_u16};
use dns_names_wire::name::Name;
use dns_names_wire::record::RecordRef;
use dns_names_wire::record_type::RecordType;
use std::alloc::Global;

/// The digest type of a DS record that every validator knows: SHA-256 (RFC 8624, section 3.3).
const SHA256: u8 = 2;

/// The one hash algorithm of NSEC3 records (RFC 5155, section 11).
const SHA1: u8 = 1;

/// Returns the key tag of a DNSKEY record (RFC 4034, appendix B). It fails if the line is no entry of such a record, or if an allocation
/// fails.
pub(crate) fn key_tag_text(alloc: Global, line: &str) -> Result<String, Refusal>
    ensures ok { IfOk result (λ text. IsKeyTagText line.now (string_bytes text)) }
    ensures err { IfErr result (FailsKeyEntry line.now) }
{
    let octets = parse_entry(alloc, line.as_bytes(), None)?;
    let (_, tag) = key_of(alloc, octets.as_slice())?;
    Ok(format!(in alloc; "{tag}")?)
}

/// Returns the DNSKEY record that octets are, and its key tag.
fn key_of<'o>(alloc: Global, octets: &'o [u8]) -> Result<(RecordRef<'o>, u16), Refusal>
    ensures ok { IfOk result (λ it. IsKeyRecord octets.now it.0 × (it.1 ≡ key_tag (data_octets it.0))) }
    ensures err { IfErr result (FailsKeyRecord octets.now) }
{
    let key = RecordRef::from_bytes(alloc, octets)?;
    match key.record_type() {
        RecordType::DNSKEY => {
            let tag = key_tag(key.rdata())?;
            Ok((key, tag))
        }
        _ => Err(Refusal::Sum(DnssecError::NotDnskey)),
    }
}

/// Returns the DS record of a DNSKEY record (RFC 4034, section 5), as a line of a master file. It fails as `key_tag_text` does.
pub(crate) fn ds_text(alloc: Global, line: &str) -> Result<String, Refusal>
    ensures ok { IfOk result (λ text. IsDsText line.now (string_bytes text)) }
    ensures err { IfErr result (FailsDs line.now) }
{
    let octets = ds_of(alloc, line)?;
    let ds = RecordRef::from_bytes(alloc, octets.as_slice())?;
    Ok(record_text(alloc, &ds)?)
}

/// Returns the octets of the DS record of the DNSKEY record that a line is.
fn ds_of(alloc: Global, line: &str) -> Result<Vec<u8>, Refusal>
    ensures ok { IfOk result (λ octets. AreDsOf line.now octets.items) }
    ensures err { IfErr result (FailsKeyEntry line.now) }
{
    let octets = parse_entry(alloc, line.as_bytes(), None)?;
    let (key, tag) = key_of(alloc, octets.as_slice())?;
    let ds = ds_octets(alloc, &key, tag)?;
    Ok(ds)
}

/// Returns the octets of the DS record of a DNSKEY record with this key tag.
fn ds_octets(alloc: Global, key: &RecordRef<'_>, tag: u16) -> Result<Vec<u8>, Refusal>
    requires has_tag { HasKeyTag (data_octets key.now) }
    requires tag { tag ≡ key_tag (data_octets key.now) }
    ensures ok { IfOk result (λ octets. IsDsRecord key.now octets.items) }
    ensures err { IfErr result IsMemory }
{
    let owner = key.owner().to_name(alloc)?;
    let digest = ds_digest(&owner, key.rdata(), SHA256)?;
    let own = ds_data(alloc, key.rdata(), tag, digest.as_slice())?;
    let octets = ds_wire(alloc, owner.as_wire(), key, own.as_slice())?;
    Ok(octets)
}

/// Returns the octets of a DS record with the class and the time to live of a DNSKEY record, by its owner and its data.
fn ds_wire(alloc: Global, owner: &[u8], key: &RecordRef<'_>, own: &[u8]) -> Result<Vec<u8>, Refusal>
    requires { length own.now ≤ 65535 }
    ensures ok { IfOk result (λ octets. octets.items ≡ ds_wire owner.now key.now own.now) }
    ensures err { IfErr result IsMemory }
{
    let mut octets = Vec::from_slice(alloc, owner)?;
    octets.extend_from_slice(&RecordType::DS.code().to_be_bytes())?;
    octets.extend_from_slice(&key.class().code().to_be_bytes())?;
    octets.extend_from_slice(&key.ttl().to_be_bytes())?;
    octets.extend_from_slice(&(own.len() as u16).to_be_bytes())?;
    octets.extend_from_slice(own)?;
    Ok(octets)
}

/// Returns the data of the DS record of a key with this key tag and this digest.
fn ds_data(alloc: Global, key: &[u8], tag: u16, digest: &[u8]) -> Result<Vec<u8>, Refusal>
    requires tag { tag ≡ key_tag key.now }
    ensures ok { IfOk result (λ own. own.items ≡ ds_data key.now digest.now) }
    ensures size { IfOk result (λ own. length own.items ≡ 4 + length digest.now) }
    ensures err { IfErr result IsMemory }
{
    let algorithm = key.get(3).copied().unwrap_or_default();
    let mut own = Vec::from_slice(alloc, &tag.to_be_bytes())?;
    own.extend_from_slice(&[algorithm, SHA256])?;
    own.extend_from_slice(digest)?;
    Ok(own)
}

/// Returns the first label of the owner of the NSEC3 record of a name (RFC 5155, section 3), by the number of iterations and the
/// salt in hexadecimal digits, or `-` for none. It fails if one of the words is no such text, or if an allocation fails.
pub(crate) fn nsec3_text(
    alloc: Global,
    name: &str,
    iterations: &str,
    salt: &str,
) -> Result<String, Refusal>
    ensures ok { IfOk result (λ text. IsNsec3Text name.now iterations.now salt.now (string_bytes text)) }
    ensures err { IfErr result (FailsNsec3 name.now iterations.now salt.now) }
{
    let Ok(count) = parse_u16(iterations) else {
        return Err(Misuse::wrong(alloc, "a number of at most 65535", iterations));
    };
    let mut octets = Vec::new(alloc);
    match parse_salt(salt, &mut octets) {
        Ok(()) => (),
        Err(FieldTextError::Memory) => return Err(Refusal::Proto(ProtoError::Memory)),
        Err(_) => return Err(Misuse::wrong(alloc, "- or at most 255 octets in hexadecimal", salt)),
    }
    let name = Name::from_text(alloc, name, None)?;
    let hash = nsec3_hash(&name, SHA1, count, octets.as_slice(), count)?;
    let label = format!(in alloc; "{}", Base32Hex(&hash))?;
    Ok(label.as_str().to_ascii_lowercase(alloc)?)
}
