//! Key tags.
ghost use Rattle.std.specs.Prelude.{◌≡◌, ◌≤◌, ◌+◌, ◌*◌, ◌↔◌, length, IfOk, IfErr, IsTrue};
ghost use Rattle.dnw_base.specs.Limits.{max_message};
ghost use Rattle.dnw_signed.specs.KeyTags.{FailsKeyTag, HasKeyTag, IsDnskey, before_key, key_tag, modulus_end, modulus_tag, sum_tag, word_sum};

use crate::error::DnssecError;
use dnw_base::limits::MAX_MESSAGE;

/// The octets before the key in the data of a DNSKEY (RFC 4034, section 2.1).
const BEFORE_KEY: usize = 4;

/// The octets of a modulus that its key tag is made of (RFC 4034, appendix B.1).
const MODULUS_END: usize = 3;

/// RSA/MD5 (RFC 4034, appendix A.1).
const RSA_MD5: u8 = 1;

/// Returns the key tag of the data of a DNSKEY (RFC 4034, appendix B). It is a sum of all their octets, and under algorithm 1 two
/// of the last octets of the key.
///
/// It fails with `NotDnskey` if there are fewer than 4 octets or more than 65,535, or under algorithm 1 fewer than 7.
pub fn key_tag(dnskey: &[u8]) -> Result<u16, DnssecError>
    ensures ok { IfOk result (λ tag. HasKeyTag dnskey.now × (tag ≡ key_tag dnskey.now)) }
    ensures err { IfErr result (FailsKeyTag dnskey.now) }
{
    if !is_dnskey(dnskey) {
        return Err(DnssecError::NotDnskey);
    }
    if dnskey[3] != RSA_MD5 {
        return Ok(sum_tag(dnskey));
    }
    if dnskey.len() < BEFORE_KEY + MODULUS_END {
        return Err(DnssecError::NotDnskey);
    }
    Ok(modulus_tag(dnskey))
}

/// Returns `true` if octets can be the data of a DNSKEY.
pub(crate) fn is_dnskey(octets: &[u8]) -> bool
    ensures { IsTrue result ↔ IsDnskey octets.now }
{
    BEFORE_KEY <= octets.len() && octets.len() <= MAX_MESSAGE as usize
}

/// Returns the tag of a key of RSA/MD5.
fn modulus_tag(dnskey: &[u8]) -> u16
    requires { before_key + modulus_end ≤ length dnskey.now }
    ensures { result ≡ modulus_tag dnskey.now }
{
    let high = dnskey[dnskey.len() - 3];
    let low = dnskey[dnskey.len() - 2];
    u16::from(high) * 256 + u16::from(low)
}

/// Returns the tag of a key of another algorithm.
fn sum_tag(dnskey: &[u8]) -> u16
    requires { length dnskey.now ≤ max_message }
    ensures { result ≡ sum_tag dnskey.now }
{
    let sum = word_sum(dnskey);
    ((sum + sum / 65536) % 65536) as u16
}

/// Returns the sum of the numbers that each two octets are.
fn word_sum(octets: &[u8]) -> u32
    requires { length octets.now ≤ max_message }
    ensures is { result ≡ word_sum octets.now }
    ensures below { result ≤ 65535 * max_message }
{
    let mut sum: u32 = 0;
    let mut left = octets;
    'words: while let [high, low, rest @ ..] = left {
        sum += u32::from(*high) * 256 + u32::from(*low);
        left = rest;
    }
    match left {
        [high] => sum + u32::from(*high) * 256,
        _ => sum,
    }
}
