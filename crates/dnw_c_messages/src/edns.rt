//! What messages say by EDNS.
ghost use Rattle.std.specs.Prelude.{◌≡◌, ◌+◌, ◌*◌, ◌%◌, ◌^◌, IfOk, IfErr};
ghost use Rattle.dnw_message_read.specs.Edns.{high_bits};
ghost use Rattle.dnw_message_read.specs.ResponseCodes.{response_code, response_of_code};
ghost use Rattle.dnw_c_base.specs.Results.{Returns};
ghost use Rattle.dnw_c_messages.specs.EdnsCalls.{FailsToSay, IsReadEdns, ReadsEdns, of_edns, read_edns};

use crate::message::of_message;
use dnw_base::limits::MIN_PAYLOAD;
use dnw_c_base::failure::{Failure, of_decode};
use dnw_c_base::results::report;
use dnw_message_read::edns::{EdnsError, EdnsRef};
use dnw_message_read::message::MessageRef;
use dnw_message_read::response_code::ResponseCode;
use dnw_message_writer::reply::takes_records;

/// What a message says by EDNS, its response code, and if a message with that takes records. The octets of its options are so many
/// from an offset on.
#[repr(C)]
#[derive(Clone, Copy)]
pub struct ReadEdns {
    pub is_present: bool,
    pub dnssec_ok: bool,
    pub version: u8,
    pub takes_records: bool,
    pub max_payload: u16,
    pub response_code: u16,
    pub options_offset: usize,
    pub options_len: usize,
}

/// Puts what a message says by EDNS, and the response code with the bits that EDNS adds. It does not allocate.
#[unsafe(no_mangle)]
pub extern "C" fn dnw_edns_read(message: &[u8], max_pointers: usize, found: &mut ReadEdns) -> u32
    ensures { Returns (ReadsEdns message.now max_pointers) found.old found.new result }
{
    report(read(message, max_pointers), found)
}

/// Reads a message, and returns what it says by EDNS.
#[inline(always)]
fn read(octets: &[u8], max_pointers: usize) -> Result<ReadEdns, Failure>
    ensures { ReadsEdns octets.now max_pointers result }
{
    match MessageRef::read_limited(octets, max_pointers) {
        Ok(message) => said_by(&message),
        Err(error) => Err(of_message(&error.kind)),
    }
}

/// Returns what a message says by EDNS.
#[inline(always)]
fn said_by(message: &MessageRef<'_>) -> Result<ReadEdns, Failure>
    ensures ok { IfOk result (IsReadEdns message.now) }
    ensures err { IfErr result (FailsToSay message.now) }
{
    match message.edns() {
        Ok(edns) => Ok(said(message.header().metadata.response_code, &edns)),
        Err(error) => Err(of_edns(&error)),
    }
}

/// Returns what C learns of this EDNS, in a message whose header has a response code.
#[inline(always)]
fn said(code: ResponseCode, edns: &Option<EdnsRef<'_>>) -> ReadEdns
    ensures { result ≡ read_edns edns.now (response_of_code (response_code code % 16 + high_bits edns.now * 2 ^ 4)) }
{
    match edns {
        Some(edns) => {
            let response_code = whole_code(code, edns.rcode_high());
            ReadEdns {
                is_present: true,
                dnssec_ok: edns.dnssec_ok(),
                version: edns.version(),
                takes_records: takes_records(response_code),
                max_payload: edns.max_payload(),
                response_code,
                options_offset: edns.options_offset(),
                options_len: edns.options_len(),
            }
        }
        None => {
            let response_code = whole_code(code, 0);
            ReadEdns {
                is_present: false,
                dnssec_ok: false,
                version: 0,
                takes_records: takes_records(response_code),
                max_payload: MIN_PAYLOAD,
                response_code,
                options_offset: 0,
                options_len: 0,
            }
        }
    }
}

/// Returns the number of a response code with these high bits.
#[inline(always)]
fn whole_code(code: ResponseCode, high: u8) -> u16
    ensures { result ≡ response_code (response_of_code (response_code code % 16 + high * 2 ^ 4)) }
{
    let low = u16::from(code) % 16;
    u16::from(ResponseCode::from(low + (u16::from(high) << 4)))
}

/// Returns the failure that stands for a rule of EDNS that is broken.
pub(crate) fn of_edns(error: &EdnsError) -> Failure
    ensures { result ≡ of_edns error.now }
{
    match error {
        EdnsError::Decode(cause) => of_decode(cause),
        EdnsError::OwnerNotRoot => Failure::OwnerNotRoot,
        EdnsError::CutOption => Failure::CutOption,
    }
}
