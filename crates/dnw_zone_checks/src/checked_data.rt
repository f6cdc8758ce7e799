//! When data are the same, and which data are forbidden though they are read.
ghost use Rattle.std.specs.Prelude.{◌≡◌, ◌-◌, drop, length, slice_index};
ghost use Rattle.std.specs.Char.{is_ascii_alphanumeric};
ghost use Rattle.std.specs.List.{list_all};
ghost use Rattle.dnw_zone_checks.specs.CheckedData.{after_names, are_same_data, ds_digest_size, has_caa_tag, has_whole_digest, is_of_size, zone_digest_size};

use dnw_base::type_codes::{DS, SOA, ZONEMD};

/// CDS: a DS record that a zone wants above it (RFC 7344, section 3.1).
const CDS: u16 = 59;

/// CAA: who may certify a name (RFC 8659, section 4.1).
const CAA: u16 = 257;

/// The octets of a SOA record's data after its names: five numbers (RFC 1035, section 3.3.13).
const SOA_NUMBERS: usize = 20;

/// The octets of a DS record's data before the digest, of which the last is the digest's type (RFC 4034, section 5.1).
const DS_FRONT: usize = 4;

/// The octets of a ZONEMD record's data before the digest, of which the last is the hash algorithm (RFC 8976, section 2.2).
const ZONEMD_FRONT: usize = 6;

/// The octets that a digest of a ZONEMD record has at least (RFC 8976, section 2.2.4).
const LEAST_ZONE_DIGEST: usize = 12;

/// The octets of a CAA record's data before the tag, of which the last is the tag's length (RFC 8659, section 4.1).
const CAA_FRONT: usize = 2;

/// Returns `true` if the data of SOA, CNAME or DNAME records are the same, but for the case of their names.
pub(crate) fn are_same_data(code: u16, these: &[u8], others: &[u8]) -> bool
    ensures { result ≡ are_same_data code these.now others.now }
{
    these.eq_ignore_ascii_case(others) && after_names(code, these) == after_names(code, others)
}

/// Returns the octets after the names in the data of SOA, CNAME or DNAME records.
fn after_names(code: u16, data: &[u8]) -> &[u8]
    ensures { result.now ≡ drop (length data.now - after_names code) data.now }
{
    let numbers = if code == SOA { SOA_NUMBERS } else { 0 };
    &data[data.len().saturating_sub(numbers)..]
}

/// Returns `true` if the digest of a DS, CDS or ZONEMD record has the length of its type, and for records of other types.
pub(crate) fn has_whole_digest(code: u16, data: &[u8]) -> bool
    ensures { result ≡ has_whole_digest code data.now }
{
    match code {
        DS | CDS => is_of_size(ds_digest_size(octet(data, 3)), after(data, DS_FRONT)),
        ZONEMD => {
            let size = after(data, ZONEMD_FRONT);
            size >= LEAST_ZONE_DIGEST && is_of_size(zone_digest_size(octet(data, 5)), size)
        }
        _ => true,
    }
}

/// Returns `true` if a size is the one that is wanted, if one is.
fn is_of_size(wanted: Option<usize>, size: usize) -> bool
    ensures { result ≡ is_of_size wanted size }
{
    match wanted {
        Some(wanted) => size == wanted,
        None => true,
    }
}

/// Returns how many octets digests of DS records have, by their type.
fn ds_digest_size(kind: u8) -> Option<usize>
    ensures { result ≡ ds_digest_size kind }
{
    match kind {
        1 => Some(20),
        2 | 3 | 5 | 6 => Some(32),
        4 => Some(48),
        _ => None,
    }
}

/// Returns how many octets digests of ZONEMD records have, by their hash algorithm.
fn zone_digest_size(algorithm: u8) -> Option<usize>
    ensures { result ≡ zone_digest_size algorithm }
{
    match algorithm {
        1 => Some(48),
        2 => Some(64),
        _ => None,
    }
}

/// Returns `true` if the tag of a CAA record has letters and digits, at least one, and for records of other types.
pub(crate) fn has_caa_tag(code: u16, data: &[u8]) -> bool
    ensures { result ≡ has_caa_tag code data.now }
{
    if code != CAA {
        return true;
    }
    let len = usize::from(octet(data, 1));
    let end = CAA_FRONT + len;
    len >= 1 && end <= data.len() && is_tag(&data[CAA_FRONT..end])
}

/// Returns `true` if octets are letters and digits.
fn is_tag(octets: &[u8]) -> bool
    ensures { result ≡ list_all is_ascii_alphanumeric octets.now }
{
    octets.iter().all(|octet| octet.is_ascii_alphanumeric())
}

/// Returns an octet, or 0 if there are fewer.
fn octet(data: &[u8], index: usize) -> u8
    ensures { result ≡ slice_index data.now index }
{
    data.get(index).copied().unwrap_or(0)
}

/// Returns how many octets are after these.
fn after(data: &[u8], count: usize) -> usize
    ensures { result ≡ length data.now - count }
{
    data.len().saturating_sub(count)
}
