//! Times to live.
ghost use Rattle.dnw_c_zone.specs.CodeCalls.{ParsesTime};
ghost use Rattle.dnw_c_base.specs.Results.{Returns};

use dnw_c_base::failure::Failure;
use dnw_c_base::results::report;
use dnw_zone_lexer::ttl::parse_ttl;
use std::alloc::Global;

/// Puts the seconds of a time to live.
#[unsafe(no_mangle)]
pub extern "C" fn dnw_ttl_parse(alloc: Global, text: &[u8], seconds: &mut u32) -> u32
    ensures { Returns (ParsesTime text.now) seconds.old seconds.new result }
{
    report(seconds_of(alloc, text), seconds)
}

/// Returns the seconds of a time to live.
fn seconds_of(alloc: Global, text: &[u8]) -> Result<u32, Failure>
    ensures { ParsesTime text.now result }
{
    let Ok(chars) = str::from_utf8(text) else {
        return Err(Failure::NotUtf8);
    };
    match parse_ttl(alloc, chars) {
        Ok(seconds) => Ok(seconds),
        Err(_) => Err(Failure::BadTime),
    }
}
