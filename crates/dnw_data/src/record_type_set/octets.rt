//! The octets of a set.
ghost use Rattle.std.specs.Prelude.{◌≡◌};

use crate::record_type_set::RecordTypeSet;

impl RecordTypeSet {
    /// Returns the bitmap that the set is written as (RFC 4034, section 4.1.2).
    pub fn as_wire(&self) -> &[u8]
        ensures { result.now ≡ self.now.encoding }
    {
        self.encoding.as_slice()
    }
}
