//! Records as entries of a zone file.
ghost use Rattle.std.specs.Prelude.{◌≡◌, OnOk, OnErr};
ghost use Rattle.dnw_zone_file.specs.Written.{AppendsLine};

use dnw_record::record_ref::RecordRef;
use dnw_zone_record::record_line::record_text;
use std::alloc::{AllocError, Global};

/// Appends a record to a zone file as a line of its own (RFC 1035, section 5.1): the owner in full, the time to live, the class, the
/// type and the data, with a space between them, and a line feed. No `$ORIGIN` and no `$TTL` changes what it is read as.
///
/// It fails only if it runs out of memory. The text is unchanged then.
pub fn append_record(
    alloc: Global,
    record: &RecordRef<'_>,
    out: &mut Vec<u8>,
) -> Result<(), AllocError>
    ensures ok { OnOk result (AppendsLine «record».now out.old.items out.new.items) }
    ensures err { OnErr result (out.new.items ≡ out.old.items) }
{
    let mut line = record_text(alloc, record)?;
    line.push('\n')?;
    out.extend_from_slice(line.as_bytes())
}
