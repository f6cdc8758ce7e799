//! The names that NSEC and NSEC3 records cover.
ghost use Rattle.std.specs.Prelude.{◌↔◌, IsTrue};
ghost use Rattle.dnw_signed.specs.Covers.{Nsec3Covers, NsecCovers};

use dnw_name::name::Name;

/// Returns `true` if the NSEC record of `owner` with the next name `next` covers a name: it comes after the owner and before the next
/// name in canonical order, so the zone has no such name (RFC 4034, sections 4.1.1 and 6.1).
///
/// The next name of the last record of a zone is the zone's apex. Then each name of the zone that comes after the owner is covered,
/// and so all but the owner if the zone has one name alone. A name that is not in the zone is never covered.
///
/// Whether names are fully qualified is ignored. Whether the owner is a delegation, which says nothing of the names below it, is left
/// to the caller (RFC 6840, section 4.1).
pub fn nsec_covers(owner: &Name, next: &Name, name: &Name) -> bool
    ensures { IsTrue result ↔ NsecCovers owner.now.labels next.now.labels name.now.labels }
{
    let (first, given) = (owner.as_name_ref(), name.as_name_ref());
    if first.cmp_name(name).is_ge() {
        return false;
    }
    if first.cmp_name(next).is_lt() {
        given.cmp_name(next).is_lt()
    } else {
        given.is_in(next)
    }
}

/// Returns `true` if the NSEC3 record with the hashed name `own` and the next one `next` covers a hashed name: it comes between them,
/// so the zone has no name with this hash (RFC 5155, section 8.3).
///
/// The next one of the last record of a zone is the first one of the zone. Then what comes after `own` or before `next` is covered,
/// and so all but `own` if the zone has one hashed name alone.
pub fn nsec3_covers(own: &[u8], next: &[u8], hash: &[u8]) -> bool
    ensures { IsTrue result ↔ Nsec3Covers own.now next.now hash.now }
{
    let after = own.cmp(hash).is_lt();
    let before = hash.cmp(next).is_lt();
    if own.cmp(next).is_lt() {
        after && before
    } else {
        after || before
    }
}
