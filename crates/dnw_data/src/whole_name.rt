//! Names in their wire form, where no name may have a pointer.
ghost use Rattle.std.specs.Prelude.{◌≡◌, ◌≤◌, ◌+◌, ◌*◌, ◌<◌, length, drop, slice_index, None, Some, IfOk, IfErr};
ghost use Rattle.dnw_data.specs.WholeNames.{labels_size, name_size, name_fault};

use dnw_base::error::DecodeError;
use dnw_base::limits::MAX_NAME;

/// More labels than these have more octets than a name.
const MOST_LABELS: usize = 128;

/// Returns how many octets the name takes that these begin with. It is more than there are if they end within it.
pub(crate) fn name_size(left: &[u8]) -> usize
    ensures size { result ≡ name_size left.now }
    ensures few { result ≤ 8193 }
{
    labels_size(MOST_LABELS, left)
}

/// Returns the size of labels, and of the octet after the last.
fn labels_size(most: usize, left: &[u8]) -> usize
    requires { most ≤ 128 }
    ensures size { result ≡ labels_size most left.now }
    ensures few { result ≤ 64 * most + 1 }
{
    if most == 0 {
        return 1;
    }
    let len = usize::from(octet_at(left, 0));
    if len < 1 || 63 < len {
        return 1;
    }
    1 + len + labels_size(most - 1, after(left, 1 + len))
}

/// Checks that octets of this size are a name.
pub(crate) fn check_name(own: &[u8]) -> Result<(), DecodeError>
    ensures ok { IfOk result (λ _. name_fault own.now ≡ None) }
    ensures err { IfErr result (λ e. name_fault own.now ≡ Some e) }
{
    if MAX_NAME < own.len() {
        return Err(DecodeError::DomainNameTooLong(own.len()));
    }
    let last = octet_at(own, own.len().saturating_sub(1));
    if last != 0 {
        return Err(DecodeError::UnrecognizedLabelCode(last));
    }
    Ok(())
}

/// Returns an octet, or 0 if there is none.
pub(crate) fn octet_at(octets: &[u8], index: usize) -> u8
    ensures { result ≡ slice_index octets.now index }
{
    match octets.get(index) {
        Some(octet) => *octet,
        None => 0,
    }
}

/// Returns what is after the first octets.
pub(crate) fn after(octets: &[u8], size: usize) -> &[u8]
    ensures { result.now ≡ drop size octets.now }
{
    match octets.get(size..) {
        Some(rest) => rest,
        None => &[],
    }
}
