//! EDNS options as text.
ghost use Rattle.dnw_c_base.specs.Results.{Returns};
ghost use Rattle.dnw_c_messages.specs.OptionCalls.{PutsOption};

use dnw_c_base::buffer::put;
use dnw_c_base::failure::Failure;
use dnw_c_base::results::report;
use dnw_message_read::option::OptionData;
use std::alloc::Global;

/// Puts an option with this code and these octets as `dig` shows it.
#[unsafe(no_mangle)]
pub extern "C" fn dnw_option_print(
    alloc: Global,
    code: u16,
    octets: &[u8],
    text: &mut [u8],
    len: &mut usize,
) -> u32
    ensures { Returns (PutsOption code octets.now text.old text.new) len.old len.new result }
{
    report(put_option(alloc, code, octets, text), len)
}

/// Puts the text of an option, and returns its length.
fn put_option(alloc: Global, code: u16, octets: &[u8], text: &mut [u8]) -> Result<usize, Failure>
    ensures { PutsOption code octets.now text.old text.new result }
{
    match OptionData::read_any(code, octets).to_string(alloc) {
        Ok(shown) => put(text, shown.as_bytes()),
        Err(_) => Err(Failure::NoMemory),
    }
}
