//! How long a response denies.
ghost use Rattle.std.specs.Prelude.{◌≡◌};
ghost use Rattle.ans_answer.specs.Answers.{denial_ttl};

use dns_names_wire::RecordRef;

/// Returns how long a response with this SOA record denies, in seconds: its TTL or its minimum, whichever is less (RFC 2308, sections 3 and
/// 5).
pub fn denial_ttl(soa: &RecordRef<'_>) -> u32
    ensures { result ≡ denial_ttl soa.now }
{
    let octets = soa.rdata();
    if octets.len() < 4 {
        return soa.ttl();
    }
    let at = octets.len() - 4;
    let minimum = u32::from_be_bytes([octets[at], octets[at + 1], octets[at + 2], octets[at + 3]]);
    soa.ttl().min(minimum)
}
