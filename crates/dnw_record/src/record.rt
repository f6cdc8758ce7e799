//! Records of any type, copied from messages.
use crate::rdata::{RData, RDataError};
use crate::record_ref::RecordRef;
use dnw_base::dns_class::DNSClass;
use dnw_name::name::Name;
use std::alloc::Global;

/// A record of any type (RFC 1035, section 3.2.1), which has its own memory. Its data have the class and the type.
#[derive(Debug, Drop)]
pub struct Record {
    /// The name that owns the record.
    pub name: Name,
    /// The time to live, in seconds.
    pub ttl: u32,
    /// The class and the type, and the data.
    pub data: RData,
}

impl Record {
    ghost use Rattle.std.specs.Prelude.{◌≡◌, IfOk, IfErr};
    ghost use Rattle.dnw_record.specs.DataCopies.{FailsToCopy, data_start, record_kinds};
    ghost use Rattle.dnw_record.specs.OwnedRecords.{IsCopyOf};

    /// Copies a record of a message, in which names may have pointers. Its owner is fully qualified.
    ///
    /// It fails as `RData::from_ref` does.
    pub fn from_ref(alloc: Global, item: &RecordRef<'_>) -> Result<Self, RDataError>
        ensures ok { IfOk result (IsCopyOf item.now) }
        ensures err { IfErr result (FailsToCopy (record_kinds item.now) (data_start item.now)) }
    {
        let data = RData::from_ref(alloc, item)?;
        Ok(Record {
            name: item.owner().to_name(alloc).unwrap(),
            ttl: item.ttl(),
            data,
        })
    }

    /// Returns the class, which the data have.
    #[inline(always)]
    pub fn dns_class(&self) -> DNSClass
        ensures { result ≡ self.now.data.class }
    {
        self.data.class()
    }
}
