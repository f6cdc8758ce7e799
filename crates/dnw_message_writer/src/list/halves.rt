//! Sets of records of a list of which a part is written, and a part is left out (RFC 2181, section 9).
ghost use Rattle.std.specs.Prelude.{false};
ghost use Rattle.dnw_message_writer.specs.ListResults.{at_offset};
ghost use Rattle.dnw_message_writer.specs.Lists.{IsHalfListed, IsHalved};

use crate::halves::{are_the_same, or_halves};
use crate::list::ends::is_put_last;
use crate::list::items::{list_at, octet_at, read_record};
use dnw_record::record_ref::RecordRef;

/// The records of a section that are there: the offset in the list at which they begin, and how many there are.
#[derive(Clone, Copy)]
pub(crate) struct There {
    pub(crate) start: usize,
    pub(crate) count: u16,
}

/// Returns `true` if half of the set of a record that is left out may be there. So many pairs of records may be compared.
pub(crate) fn is_halved(pairs: u16, there: There, list: &[u8], item: &RecordRef<'_>) -> bool
    ensures { IsHalved pairs there list.now item.now result }
{
    if pairs < there.count {
        return true;
    }
    is_half_listed(there.count, list, there.start, item)
}

/// Returns `true` if one of so many records of a list, from an offset on, halves the set of another that is left out, and none of them
/// is the same. Those that come last do not count.
fn is_half_listed(count: u16, list: &[u8], start: usize, item: &RecordRef<'_>) -> bool
    ensures { IsHalfListed item.now count (at_offset list.now start) false result }
{
    if count == 0 {
        return false;
    }
    let Some(mut decoder) = list_at(list, start) else {
        return true;
    };
    let mut more = count;
    let mut half = false;
    'there: while more > 0 {
        if decoder.is_empty() {
            return true;
        }
        let octet = octet_at(&decoder);
        let Ok(record) = read_record(&mut decoder) else {
            return true;
        };
        if is_put_last(octet, &record) {
            continue;
        }
        if are_the_same(&record, item) {
            return false;
        }
        half = or_halves(half, &record, item);
        more -= 1;
    }
    half
}
