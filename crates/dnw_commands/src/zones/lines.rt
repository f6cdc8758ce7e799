//! What is read of zone files: their records, and the lines of their errors.

use crate::base::{Refusal, Sink, Watch};
use crate::zones::faults::Fault;
use crate::zones::kept::{Kept, Place};
use crate::zones::shown::Listed;
use dns_names_wire::ProtoError;
use dns_names_wire::data_text::{DataTextError, RecordLineError};
use dns_names_wire::zone::{Context, ZoneError, ZoneRecord};
use std::alloc::Global;

/// The records so far, and the lines of the errors of the last entry.
#[derive(Drop)]
pub(crate) struct Lines {
    records: Listed,
    /// The lines of errors that are not said yet.
    pub(crate) errors: String,
    /// Whether there was an error, after which no record is shown.
    has_errors: bool,
    /// The last line with comments or parentheses, without them.
    pub(crate) line: Vec<u8>,
    /// The wire form of the last record.
    wire: Vec<u8>,
}

impl Lines {
    /// Creates what nothing was read for.
    pub(crate) fn new(alloc: Global, records: Listed) -> Self {
        Lines {
            records,
            errors: String::new(alloc),
            has_errors: false,
            line: Vec::new(alloc),
            wire: Vec::new(alloc),
        }
    }

    /// Returns whether records are kept until all are there.
    pub(crate) fn are_kept(&self) -> bool {
        self.records.are_kept()
    }

    /// Adds the record of an entry that begins at a place, if there was no error.
    pub(crate) fn add_record<O: Sink>(
        &mut self,
        alloc: Global,
        context: &Context,
        found: &ZoneRecord,
        place: Place,
        out: &mut O,
    ) -> Result<(), Refusal> {
        if self.has_errors {
            return Ok(());
        }
        let Some(owner) = &context.owner else {
            return Ok(());
        };
        let Ok(len) = u16::try_from(found.wire.len()) else {
            return Ok(());
        };
        put_wire(owner.as_bytes(), found, len, &mut self.wire)?;
        self.records.add(alloc, self.wire.as_slice(), place, out)
    }

    /// Adds why an entry is none. It fails if memory ran out while it was read.
    pub(crate) fn add_error(
        &mut self,
        alloc: Global,
        fault: &Fault,
        error: &ZoneError,
    ) -> Result<(), Refusal> {
        let reason = reason_of(alloc, error)?;
        fault.put(offset_of(error), reason.as_str(), &mut self.errors)
    }

    /// Says the errors of the last entry, if it has any.
    pub(crate) fn say_errors<O: Sink, P: Watch>(
        &mut self,
        out: &mut O,
        watch: &mut P,
    ) -> Result<(), Refusal> {
        if self.errors.is_empty() {
            return Ok(());
        }
        self.has_errors = true;
        watch.ends();
        out.reject();
        out.say(self.errors.as_str())?;
        self.errors.clear();
        Ok(())
    }

    /// Shows the records that were kept, or what they are found to have, if there was no error.
    pub(crate) fn finish<O: Sink, P: Watch>(
        self,
        alloc: Global,
        files: &[String],
        out: &mut O,
        watch: &mut P,
    ) -> Result<(), Refusal> {
        if self.has_errors {
            return Ok(());
        }
        self.records.finish(alloc, files, out, watch)
    }

    /// Returns the records that were kept, if there was no error.
    pub(crate) fn into_kept(self) -> Option<Kept> {
        if self.has_errors {
            None
        } else {
            Some(self.records.into_kept())
        }
    }
}

/// Puts the wire form of a record, whose data have this length, in place of another.
fn put_wire(owner: &[u8], found: &ZoneRecord, len: u16, wire: &mut Vec<u8>) -> Result<(), Refusal> {
    wire.clear();
    wire.extend_from_slice(owner)?;
    wire.extend_from_slice(&fixed_octets(found, len))?;
    wire.extend_from_slice(found.wire.as_slice())?;
    Ok(())
}

/// Returns what is between the owner and the data of a record: its type, its class, its time to live and the length of the data (RFC
/// 1035, section 3.2.1).
fn fixed_octets(found: &ZoneRecord, len: u16) -> [u8; 10] {
    let record_type = found.record_type.code().to_be_bytes();
    let class = found.class.code().to_be_bytes();
    let ttl = found.ttl.to_be_bytes();
    let len = len.to_be_bytes();
    [
        record_type[0],
        record_type[1],
        class[0],
        class[1],
        ttl[0],
        ttl[1],
        ttl[2],
        ttl[3],
        len[0],
        len[1],
    ]
}

/// Returns where in an entry an error is.
fn offset_of(error: &ZoneError) -> usize {
    match error {
        ZoneError::Wrong { offset, .. } => *offset,
        ZoneError::Data(RecordLineError::TooLong { offset }) => *offset,
        ZoneError::Data(RecordLineError::Data(DataTextError::Wanted { offset, .. })) => *offset,
        _ => 0,
    }
}

/// Returns what an error says, but for where it is. It fails if memory ran out.
fn reason_of(alloc: Global, error: &ZoneError) -> Result<String, Refusal> {
    let reason = match error {
        ZoneError::Memory | ZoneError::Data(RecordLineError::Data(DataTextError::Memory)) => {
            return Err(Refusal::Proto(ProtoError::Memory));
        }
        ZoneError::Wrong { rule, .. } => format!(in alloc; "{rule}"),
        ZoneError::Data(RecordLineError::TooLong { .. }) => {
            String::from_str(alloc, "wanted data of at most 65535 octets")
        }
        ZoneError::Data(RecordLineError::Data(DataTextError::Wanted { field, wanted, .. })) => {
            format!(in alloc; "wanted {wanted} (field {field})")
        }
        ZoneError::Data(other) => format!(in alloc; "{other}"),
    };
    Ok(reason?)
}
