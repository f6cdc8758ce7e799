//! Results that are put into buffers.
ghost use Rattle.std.specs.Prelude.{length};
ghost use Rattle.dnw_c_base.specs.Results.{Puts};

use crate::failure::Failure;

/// Puts bytes at the front of a buffer if they fit, and returns their number.
pub fn put(buffer: &mut [u8], bytes: &[u8]) -> Result<usize, Failure>
    ensures { Puts bytes.now (length bytes.now) buffer.old buffer.new result }
{
    if bytes.len() > buffer.len() {
        return Err(Failure::NoRoom);
    }
    buffer[..bytes.len()].copy_from_slice(bytes);
    Ok(bytes.len())
}
