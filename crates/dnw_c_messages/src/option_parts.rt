//! EDNS options in parts: what an option says, read from its octets and written as them.
ghost use Rattle.std.specs.Prelude.{◌≡◌, true, false, Ok, Err, length, IfOk, IfErr, MatchOption};
ghost use Rattle.std.specs.Str.{is_utf8};
ghost use Rattle.dnw_c_base.specs.Results.{Returns};
ghost use Rattle.dnw_message_read.specs.Codes.{option_of_code};
ghost use Rattle.dnw_message_read.specs.Rules.{option_octets};
ghost use Rattle.dnw_message_read.specs.Values.{seen_option};
ghost use Rattle.dnw_c_messages.specs.OptionValues.{PutsOptionOctets, ReadsOptionParts, SaysOption, error_said, given, not_given, of_option, only, parts_said};

use dnw_c_base::buffer::put;
use dnw_c_base::failure::Failure;
use dnw_c_base::results::report;
use dnw_message_read::code::OptionCode;
use dnw_message_read::option::{OptionData, ZoneVersion};
use dnw_message_read::option_error::OptionError;
use std::alloc::Global;

/// What an EDNS option says. Members that its code has none of are 0, and `is_given` is `false` for an option that may be empty, and
/// is. After these members come so many octets, from an offset on: those of an identifier, an address, the cookie of a server, a
/// padding, a name, a text, a version, or of an option of which nothing is known.
#[repr(C)]
#[derive(Clone, Copy)]
pub struct OptionParts {
    pub is_given: bool,
    pub source: u8,
    pub scope: u8,
    pub labels: u8,
    pub version_type: u8,
    pub family: u16,
    pub timeout: u16,
    pub info_code: u16,
    pub seconds: u32,
    pub client: [u8; 8],
    pub offset: usize,
    pub len: usize,
}

/// Puts what an option with this code and these octets says. It does not allocate.
#[unsafe(no_mangle)]
pub extern "C" fn dnw_option_read(code: u16, octets: &[u8], parts: &mut OptionParts) -> u32
    ensures { Returns (ReadsOptionParts code octets.now) parts.old parts.new result }
{
    report(read(code, octets), parts)
}

/// Puts the octets of an option with this code that says this: `parts`, and the octets that come after them.
#[unsafe(no_mangle)]
pub extern "C" fn dnw_option_write(
    alloc: Global,
    code: u16,
    parts: &OptionParts,
    own: &[u8],
    octets: &mut [u8],
    len: &mut usize,
) -> u32
    ensures { Returns (PutsOptionOctets code parts.now own.now octets.old octets.new) len.old len.new result }
{
    report(write(alloc, code, parts, own, octets), len)
}

/// Returns what an option says.
fn read(code: u16, octets: &[u8]) -> Result<OptionParts, Failure>
    ensures { ReadsOptionParts code octets.now result }
{
    match OptionData::read(code, octets) {
        Ok(option) => Ok(parts_said(&option, octets.len())),
        Err(error) => Err(of_option(error)),
    }
}

/// Returns the parts of an option that has so many octets.
fn parts_said(option: &OptionData<'_>, size: usize) -> OptionParts
    requires { size ≡ length (option_octets (seen_option option.now)) }
    ensures { result ≡ parts_said (seen_option option.now) }
{
    match option {
        OptionData::ClientSubnet {
            family,
            source,
            scope,
            address,
        } => OptionParts {
            family: *family,
            source: *source,
            scope: *scope,
            ..only(4, address.len())
        },
        OptionData::Expire(Some(seconds)) => OptionParts {
            seconds: *seconds,
            ..only(4, 0)
        },
        OptionData::Cookie { client, server } => OptionParts {
            client: *client,
            ..only(8, server.len())
        },
        OptionData::TcpKeepalive(Some(timeout)) => OptionParts {
            timeout: *timeout,
            ..only(2, 0)
        },
        OptionData::ExtendedError { code, text } => OptionParts {
            info_code: *code,
            ..only(2, text.len())
        },
        OptionData::ZoneVersion(Some(version)) => OptionParts {
            labels: version.labels,
            version_type: version.version_type,
            ..only(2, version.version.len())
        },
        OptionData::Expire(None)
        | OptionData::TcpKeepalive(None)
        | OptionData::Chain(None)
        | OptionData::ZoneVersion(None) => not_given(),
        _ => only(0, size),
    }
}

/// Returns the parts of an option that is empty.
fn not_given() -> OptionParts
    ensures { result ≡ not_given }
{
    OptionParts {
        is_given: false,
        ..only(0, 0)
    }
}

/// Returns the parts of an option that says no more than so many octets from an offset on.
fn only(offset: usize, len: usize) -> OptionParts
    ensures { result ≡ only offset len }
{
    OptionParts {
        is_given: true,
        source: 0,
        scope: 0,
        labels: 0,
        version_type: 0,
        family: 0,
        timeout: 0,
        info_code: 0,
        seconds: 0,
        client: [0; 8],
        offset,
        len,
    }
}

/// Puts the octets of an option, and returns how many they are.
fn write(
    alloc: Global,
    code: u16,
    parts: &OptionParts,
    own: &[u8],
    octets: &mut [u8],
) -> Result<usize, Failure>
    ensures { PutsOptionOctets code parts.now own.now octets.old octets.new result }
{
    let mut said = Vec::new(alloc);
    let outcome = match option_of(code, parts, own) {
        Ok(option) => option.append_to(&mut said),
        Err(error) => Err(error),
    };
    match outcome {
        Ok(()) => put(octets, said.as_slice()),
        Err(error) => Err(of_option(error)),
    }
}

/// Returns what an option with this code says by its parts and the octets that come after them.
fn option_of<'m>(
    code: u16,
    parts: &OptionParts,
    own: &'m [u8],
) -> Result<OptionData<'m>, OptionError>
    ensures ok { IfOk result (λ value. SaysOption (option_of_code code) parts.now own.now (Ok (seen_option value))) }
    ensures err { IfErr result (λ error. SaysOption (option_of_code code) parts.now own.now (Err error)) }
{
    match OptionCode::from(code) {
        OptionCode::ClientSubnet => Ok(OptionData::ClientSubnet {
            family: parts.family,
            source: parts.source,
            scope: parts.scope,
            address: own,
        }),
        OptionCode::Expire => Ok(OptionData::Expire(given(parts, parts.seconds))),
        OptionCode::Cookie => Ok(OptionData::Cookie {
            client: parts.client,
            server: own,
        }),
        OptionCode::TcpKeepalive => Ok(OptionData::TcpKeepalive(given(parts, parts.timeout))),
        OptionCode::ExtendedError => error_of(parts.info_code, own),
        OptionCode::ZoneVersion => {
            let version = ZoneVersion {
                labels: parts.labels,
                version_type: parts.version_type,
                version: own,
            };
            Ok(OptionData::ZoneVersion(given(parts, version)))
        }
        OptionCode::Nsid
        | OptionCode::Padding
        | OptionCode::Chain
        | OptionCode::ReportChannel
        | OptionCode::Unknown(_) => OptionData::read(code, own),
    }
}

/// Returns an extended error with this code, about which these octets are a text.
fn error_of(code: u16, own: &[u8]) -> Result<OptionData<'_>, OptionError>
    ensures ok { IfOk result (λ value. Ok (seen_option value) ≡ error_said code own.now) }
    ensures err { IfErr result (λ error. Err error ≡ error_said code own.now) }
{
    match text_of(own) {
        Some(text) => Ok(OptionData::ExtendedError { code, text }),
        None => Err(OptionError::Text),
    }
}

/// Returns octets as text, or `None` if they are not UTF-8.
fn text_of(octets: &[u8]) -> Option<&str>
    ensures { MatchOption result (is_utf8 octets.now ≡ false) (λ text. (text.now ≡ octets.now) × (is_utf8 octets.now ≡ true)) }
{
    match str::from_utf8(octets) {
        Ok(text) => Some(text),
        Err(_) => None,
    }
}

/// Returns a value that an option has, unless the option is empty.
fn given<T: Copy>(parts: &OptionParts, value: T) -> Option<T>
    ensures { result ≡ given parts.now value }
{
    if parts.is_given { Some(value) } else { None }
}

/// Returns the failure that stands for why octets are no option, or why none says something.
fn of_option(error: OptionError) -> Failure
    ensures { result ≡ of_option error }
{
    match error {
        OptionError::Length | OptionError::Name | OptionError::Named => Failure::BadData,
        OptionError::Prefix | OptionError::Bits => Failure::BadFamily,
        OptionError::Text => Failure::NotUtf8,
        OptionError::Memory => Failure::NoMemory,
    }
}
