//! Options as `dig` shows them, without the `; ` that it puts before each.
//!
//! Tests compare these texts with those of `dig`.
ghost use Rattle.std.specs.Prelude.{◌≡◌, ◌<◌, ◌++◌, slice_index, Some};
ghost use Rattle.std.specs.Char.{digit_char};
ghost use Rattle.std.specs.Fmt.{WritesOnOk};
ghost use Rattle.dnw_base.specs.Names.{wire};
ghost use Rattle.dnw_message_read.specs.Values.{expire, seen_option, seen_version, tcp_keepalive, zone_version};
ghost use Rattle.dnw_message_read.specs.Texts.{address_text, count_text, error_name, error_text, extra_text, gap, is_shown_family, named_text, network_text, octets_text, option_text, padding_text, octet_digits, digits_text, period_text, printable_text, segment_at, shown_char, shown_text, turns_text, unnamed_text};

use crate::option::{OptionData, ZoneVersion};
use dnw_base::limits::MAX_NAME;
use dnw_name::name_ref::NameRef;
use std::fmt;
use std::net::{Ipv4Addr, Ipv6Addr};

/// The option as `dig` of BIND 9.18 shows it. One that it does not know is its code, its octets in hexadecimal, and these
/// as text, in which a dot is in the place of each that is not printable ASCII.
impl fmt::Display for OptionData<'_> {
    ghost output = { λ option. Some (option_text (seen_option option)) };

    fn fmt<W: fmt::Write>(&self, f: &mut fmt::Formatter<W>) -> fmt::Result {
        match self {
            OptionData::Nsid(octets) => {
                f.write_str("NSID:")?;
                write_octets(f, octets, &[])
            }
            OptionData::ClientSubnet {
                family,
                source,
                scope,
                address,
            } => write_network(f, *family, *source, *scope, address),
            OptionData::Expire(None) => f.write_str("EXPIRE:"),
            OptionData::Expire(Some(seconds)) => write_expire(f, *seconds),
            OptionData::Cookie { client, server } => {
                f.write_str("COOKIE: ")?;
                write_digits(f, "", client)?;
                write_digits(f, "", server)
            }
            OptionData::TcpKeepalive(None) => f.write_str("TCP KEEPALIVE:"),
            OptionData::TcpKeepalive(Some(timeout)) => write_timeout(f, *timeout),
            OptionData::Padding(octets) => write_padding(f, octets.len()),
            OptionData::Chain(None) => write_unnamed(f, 13, &[], &[]),
            OptionData::Chain(Some(name)) => write_wire(f, 13, name),
            OptionData::ExtendedError { code, text } => write_error(f, *code, text),
            OptionData::ReportChannel(name) => write_wire(f, 18, name),
            OptionData::ZoneVersion(None) => write_unnamed(f, 19, &[], &[]),
            OptionData::ZoneVersion(Some(version)) => write_version(f, version),
            OptionData::Unknown { code, octets } => write_unnamed(f, *code, octets, &[]),
        }
    }
}

/// Writes a code and the wire form of a name.
fn write_wire<W: fmt::Write>(
    f: &mut fmt::Formatter<W>,
    code: u16,
    name: &NameRef<'_>,
) -> fmt::Result
    ensures { WritesOnOk W.Write.write_str_gives f.old result (unnamed_text code (wire name.now)) f.new }
{
    let mut room = [0; MAX_NAME];
    write_unnamed(f, code, name.wire_labels(&mut room).as_wire(), &[])
}

/// Writes the code and the octets of the version of a zone.
fn write_version<W: fmt::Write>(f: &mut fmt::Formatter<W>, version: &ZoneVersion<'_>) -> fmt::Result
    ensures { WritesOnOk W.Write.write_str_gives f.old result (option_text (zone_version (seen_version (Some version.now)))) f.new }
{
    write_unnamed(
        f,
        19,
        &[version.labels, version.version_type],
        version.version,
    )
}

/// Writes how long a connection is kept.
fn write_timeout<W: fmt::Write>(f: &mut fmt::Formatter<W>, timeout: u16) -> fmt::Result
    ensures { WritesOnOk W.Write.write_str_gives f.old result (option_text (tcp_keepalive (Some timeout))) f.new }
{
    write!(f, "TCP KEEPALIVE: {}.{} secs", timeout / 10, timeout % 10)
}

/// Writes the network of a client.
fn write_network<W: fmt::Write>(
    f: &mut fmt::Formatter<W>,
    family: u16,
    source: u8,
    scope: u8,
    address: &[u8],
) -> fmt::Result
    ensures { WritesOnOk W.Write.write_str_gives f.old result (network_text family source scope address.now) f.new }
{
    if is_shown_family(family, source) {
        f.write_str("CLIENT-SUBNET: ")?;
        write_address(f, family, address)?;
        return write!(f, "/{source}/{scope}");
    }
    let family = family.to_be_bytes();
    write_unnamed(f, 8, &[family[0], family[1], source, scope], address)
}

/// Returns `true` for a family that is shown by an address, or for none.
fn is_shown_family(family: u16, source: u8) -> bool
    ensures { result ≡ is_shown_family family source }
{
    family == 1 || family == 2 || (family == 0 && source == 0)
}

/// Writes the time after which a zone expires, also in weeks, days, hours, minutes and seconds.
fn write_expire<W: fmt::Write>(f: &mut fmt::Formatter<W>, seconds: u32) -> fmt::Result
    ensures { WritesOnOk W.Write.write_str_gives f.old result (option_text (expire (Some seconds))) f.new }
{
    write!(f, "EXPIRE: {seconds} (")?;
    write_period(f, seconds)?;
    f.write_str(")")
}

/// Writes a code and octets, which two slices have.
fn write_unnamed<W: fmt::Write>(
    f: &mut fmt::Formatter<W>,
    code: u16,
    octets: &[u8],
    others: &[u8],
) -> fmt::Result
    ensures { WritesOnOk W.Write.write_str_gives f.old result (unnamed_text code (octets.now ++ others.now)) f.new }
{
    write!(f, "OPT={code}:")?;
    write_octets(f, octets, others)
}

/// Writes octets, which two slices have, if there are any: in hexadecimal, and as text.
fn write_octets<W: fmt::Write>(
    f: &mut fmt::Formatter<W>,
    octets: &[u8],
    others: &[u8],
) -> fmt::Result
    ensures { WritesOnOk W.Write.write_str_gives f.old result (octets_text (octets.now ++ others.now)) f.new }
{
    if octets.is_empty() && others.is_empty() {
        return Ok(());
    }
    write_digits(f, " ", octets)?;
    write_digits(f, " ", others)?;
    f.write_str(" (\"")?;
    write_printable(f, octets)?;
    write_printable(f, others)?;
    f.write_str("\")")
}

/// Writes octets in hexadecimal, each after a text.
fn write_digits<W: fmt::Write>(
    f: &mut fmt::Formatter<W>,
    before: &str,
    octets: &[u8],
) -> fmt::Result
    ensures { WritesOnOk W.Write.write_str_gives f.old result (digits_text before.now octets.now) f.new }
{
    for octet in octets {
        write_octet_digits(f, before, *octet)?;
    }
    Ok(())
}

/// Writes an octet in hexadecimal after a text.
fn write_octet_digits<W: fmt::Write>(
    f: &mut fmt::Formatter<W>,
    before: &str,
    octet: u8,
) -> fmt::Result
    ensures { WritesOnOk W.Write.write_str_gives f.old result (before.now ++ octet_digits octet) f.new }
{
    f.write_str(before)?;
    let digits = [hex_digit(octet / 16), hex_digit(octet % 16)];
    f.write_str(str::from_utf8(&digits).map_err(|_| fmt::Error)?)
}

/// Returns the digit of a number below 16.
fn hex_digit(number: u8) -> u8
    requires { number < 16 }
    ensures { result ≡ digit_char number }
{
    if number < 10 {
        b'0' + number
    } else {
        b'a' + (number - 10)
    }
}

/// Writes octets as text, with a dot in the place of each that is not printable ASCII.
fn write_printable<W: fmt::Write>(f: &mut fmt::Formatter<W>, octets: &[u8]) -> fmt::Result
    ensures { WritesOnOk W.Write.write_str_gives f.old result (printable_text octets.now) f.new }
{
    for octet in octets {
        let is_shown = b' ' <= *octet && *octet <= b'~';
        let shown = [if is_shown { *octet } else { b'.' }];
        f.write_str(str::from_utf8(&shown).map_err(|_| fmt::Error)?)?;
    }
    Ok(())
}

/// Writes the address of a network: of IPv4 if the family is 1, of IPv6 if it is 2, and else none.
fn write_address<W: fmt::Write>(
    f: &mut fmt::Formatter<W>,
    family: u16,
    address: &[u8],
) -> fmt::Result
    ensures { WritesOnOk W.Write.write_str_gives f.old result (address_text family address.now) f.new }
{
    match family {
        1 => {
            let shown = Ipv4Addr::new(
                octet_at(address, 0),
                octet_at(address, 1),
                octet_at(address, 2),
                octet_at(address, 3),
            );
            write!(f, "{shown}")
        }
        2 => {
            let shown = Ipv6Addr::new(
                segment_at(address, 0),
                segment_at(address, 1),
                segment_at(address, 2),
                segment_at(address, 3),
                segment_at(address, 4),
                segment_at(address, 5),
                segment_at(address, 6),
                segment_at(address, 7),
            );
            write!(f, "{shown}")
        }
        _ => f.write_str("0"),
    }
}

/// Returns an octet of an address, or 0 if it is not there.
fn octet_at(address: &[u8], index: usize) -> u8
    ensures { result ≡ slice_index address.now index }
{
    match address.get(index) {
        Some(octet) => *octet,
        None => 0,
    }
}

/// Returns two octets of an address as a number.
fn segment_at(address: &[u8], index: usize) -> u16
    requires { index < 8 }
    ensures { result ≡ segment_at address.now index }
{
    u16::from(octet_at(address, 2 * index)) * 256 + u16::from(octet_at(address, 2 * index + 1))
}

/// Writes seconds as weeks, days, hours, minutes and seconds.
fn write_period<W: fmt::Write>(f: &mut fmt::Formatter<W>, seconds: u32) -> fmt::Result
    ensures { WritesOnOk W.Write.write_str_gives f.old result (period_text seconds) f.new }
{
    if seconds == 0 {
        return f.write_str("0 seconds");
    }
    write_count(f, "", seconds / 604_800, "week")?;
    write_count(f, gap(604_800 <= seconds), seconds / 86_400 % 7, "day")?;
    write_count(f, gap(86_400 <= seconds), seconds / 3_600 % 24, "hour")?;
    write_count(f, gap(3_600 <= seconds), seconds / 60 % 60, "minute")?;
    write_count(f, gap(60 <= seconds), seconds % 60, "second")
}

/// Returns a space if words are before it.
fn gap(after: bool) -> &'static str
    ensures { result.now ≡ gap after }
{
    if after { " " } else { "" }
}

/// Writes a count of a unit after a text, unless it is 0.
fn write_count<W: fmt::Write>(
    f: &mut fmt::Formatter<W>,
    before: &str,
    count: u32,
    unit: &str,
) -> fmt::Result
    ensures { WritesOnOk W.Write.write_str_gives f.old result (count_text before.now count unit.now) f.new }
{
    match count {
        0 => Ok(()),
        1 => write!(f, "{before}{count} {unit}"),
        _ => write!(f, "{before}{count} {unit}s"),
    }
}

/// Writes the number of octets of padding, if there are any.
fn write_padding<W: fmt::Write>(f: &mut fmt::Formatter<W>, count: usize) -> fmt::Result
    ensures { WritesOnOk W.Write.write_str_gives f.old result (padding_text count) f.new }
{
    if count == 0 {
        return f.write_str("PAD:");
    }
    write!(f, "PAD: ({count} bytes)")
}

/// Writes an extended DNS error: its code, its name if it has one, and its text if there is any, in which a dot is in the
/// place of each control character, and of each that turns the direction of text.
fn write_error<W: fmt::Write>(f: &mut fmt::Formatter<W>, code: u16, text: &str) -> fmt::Result
    ensures { WritesOnOk W.Write.write_str_gives f.old result (error_text code text.now) f.new }
{
    write!(f, "EDE: {code}")?;
    write_name(f, error_name(code))?;
    write_extra(f, text)
}

/// Writes a name in parentheses, if there is one.
fn write_name<W: fmt::Write>(f: &mut fmt::Formatter<W>, name: &str) -> fmt::Result
    ensures { WritesOnOk W.Write.write_str_gives f.old result (named_text name.now) f.new }
{
    if name.is_empty() {
        return Ok(());
    }
    write!(f, " ({name})")
}

/// Writes the text of an error, if there is any.
fn write_extra<W: fmt::Write>(f: &mut fmt::Formatter<W>, text: &str) -> fmt::Result
    ensures { WritesOnOk W.Write.write_str_gives f.old result (extra_text text.now) f.new }
{
    if text.is_empty() {
        return Ok(());
    }
    f.write_str(": (")?;
    write_chars(f, text)?;
    f.write_str(")")
}

/// Writes a text with a dot in the place of each control character, and of each that turns the direction of text.
fn write_chars<W: fmt::Write>(f: &mut fmt::Formatter<W>, text: &str) -> fmt::Result
    ensures { WritesOnOk W.Write.write_str_gives f.old result (shown_text text.now) f.new }
{
    for c in text.chars() {
        f.write_char(shown_char(c))?;
    }
    Ok(())
}

/// Returns a character, and a dot for one that is for control or that turns the text.
fn shown_char(c: char) -> char
    ensures { result ≡ shown_char c }
{
    if c.is_control() || turns_text(c) {
        '.'
    } else {
        c
    }
}

/// Returns `true` for characters that end a line, or that turn the direction of text (Unicode, annex 9).
fn turns_text(c: char) -> bool
    ensures { result ≡ turns_text c }
{
    matches!(
        c,
        '\u{61C}' | '\u{200E}'..='\u{200F}' | '\u{2028}'..='\u{202E}' | '\u{2066}'..='\u{2069}'
    )
}

/// The name of an extended DNS error (RFC 8914, section 4, and IANA's registry "Extended DNS Error Codes"), or an empty text.
fn error_name(code: u16) -> &'static str
    ensures { result.now ≡ error_name code }
{
    match code {
        0 => "Other",
        1 => "Unsupported DNSKEY Algorithm",
        2 => "Unsupported DS Digest Type",
        3 => "Stale Answer",
        4 => "Forged Answer",
        5 => "DNSSEC Indeterminate",
        6 => "DNSSEC Bogus",
        7 => "Signature Expired",
        8 => "Signature Not Yet Valid",
        9 => "DNSKEY Missing",
        10 => "RRSIGs Missing",
        11 => "No Zone Key Bit Set",
        12 => "NSEC Missing",
        13 => "Cached Error",
        14 => "Not Ready",
        15 => "Blocked",
        16 => "Censored",
        17 => "Filtered",
        18 => "Prohibited",
        19 => "Stale NXDOMAIN Answer",
        20 => "Not Authoritative",
        21 => "Not Supported",
        22 => "No Reachable Authority",
        23 => "Network Error",
        24 => "Invalid Data",
        25 => "Signature Expired before Valid",
        26 => "Too Early",
        27 => "Unsupported NSEC3 Iterations Value",
        28 => "Unable to conform to policy",
        29 => "Synthesized",
        30 => "Invalid Query Type",
        _ => "",
    }
}
