//! The compression pointers that the names in the data of a message follow.
ghost use Rattle.std.specs.Prelude.{◌≡◌, ◌+◌, ◌*◌, ◌≤◌, ℕ, Some, None, false, length, IsTrue};
ghost use Rattle.dnw_record.specs.DataPointers.{TakesAllPointers};
ghost use Rattle.dnw_message_read.specs.DataPointers.{records_of};

use crate::items::Records;
use crate::message::MessageRef;
use dnw_base::limits::MAX_MESSAGE;
use dnw_record::pointers::pointers_left;

impl MessageRef<'_> {
    /// Returns `true` if the names in the data of the records follow no more than `max_pointers` compression pointers in all.
    ///
    /// `read` counts the pointers of the questions and the owners alone. Who reads the data of all records of a message asks this
    /// first: so the time that all take is linear in their octets and in the number of pointers that is allowed.
    /// `dnw_base::limits::MAX_POINTERS` is far more than ordinary messages need. For a message of few records nothing is walked.
    ///
    /// The fields of each record are read up to the first that is none of its kind. It does not allocate.
    pub fn data_follow_few(&self, max_pointers: usize) -> bool
        ensures few { IsTrue result → (left : ℕ) × TakesAllPointers (records_of self.now) max_pointers (Some left) }
        ensures many { result ≡ false → TakesAllPointers (records_of self.now) max_pointers None }
    {
        if self.has_few_records(max_pointers) {
            return true;
        }
        let left = match left_of(self.answers(), max_pointers) {
            Some(left) => left,
            None => return false,
        };
        let left = match left_of(self.authorities(), left) {
            Some(left) => left,
            None => return false,
        };
        match left_of(self.additionals(), left) {
            Some(_) => true,
            None => false,
        }
    }
}

/// Takes the pointers that the names in the data of records follow from those that are `left`. Returns how many are left then, or
/// `None` if they are too few.
fn left_of(mut records: Records<'_>, left: usize) -> Option<usize>
    ensures { TakesAllPointers records.entry left result }
{
    let mut now = left;
    'records: while let Some(record) = records.next() {
        match pointers_left(&record, now) {
            Some(rest) => now = rest,
            None => return None,
        }
    }
    Some(now)
}
