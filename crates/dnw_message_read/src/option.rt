//! Options, read from their octets.
ghost use Rattle.std.specs.Prelude.{◌≡◌, ◌↔◌, ◌⊎◌, ◌++◌, true, false, None, Some, Ok, Err, length, IfOk, IfErr, IfSome, IfNone, IsTrue, MatchOption, OnOk, OnErr};
ghost use Rattle.std.specs.Int.{w16, w32, from_be_bytes};
ghost use Rattle.std.specs.Str.{is_utf8};
ghost use Rattle.dnw_base.specs.Names.{AreLabels, wire};
ghost use Rattle.dnw_message_read.specs.declared.option_error.OptionError.{OptionError};
ghost use Rattle.dnw_message_read.specs.Codes.{option_code, option_of_code};
ghost use Rattle.dnw_message_read.specs.Values.{seen_option};
ghost use Rattle.dnw_message_read.specs.Rules.{IsOptionFields, bits_after, code_of, has_no_name, may_be_server, may_be_version, most_bits, network_fault, option_octets, value_fault};
ghost use Rattle.dnw_message_read.specs.Reading.{IsName, NoName, ReadsAnyOption, ReadsOption, ReadsChainOption, cookie_of, error_of, expire_of, keepalive_of, subnet_of, version_of};

use crate::code::OptionCode;
use crate::option_error::OptionError;
use dnw_base::decoder::BinDecoder;
use dnw_base::limits::MAX_NAME;
use dnw_name::name_ref::NameRef;
use dnw_name_read::laws;
use std::alloc::AllocError;

/// What an EDNS option says. It borrows from the octets that it is read from, and nothing here allocates.
#[derive(Drop)]
pub enum OptionData<'m> {
    /// The identifier of a server, any octets; empty in a query (RFC 5001, section 2.3).
    Nsid(&'m [u8]),
    /// The network of a client (RFC 7871, section 6).
    ClientSubnet {
        /// The family of the address: 1 for IPv4, and 2 for IPv6.
        family: u16,
        /// How many bits of the client's address are given.
        source: u8,
        /// How many bits of it the response is for; 0 in a query.
        scope: u8,
        /// The octets of these bits, high bits first. The bits after them are zero.
        address: &'m [u8],
    },
    /// The time after which a zone expires, in seconds; none in a query (RFC 7314, section 2).
    Expire(Option<u32>),
    /// Cookies (RFC 7873, section 4).
    Cookie {
        /// The cookie of the client.
        client: [u8; 8],
        /// The cookie of the server, 8 to 32 octets, or none if the client has none yet.
        server: &'m [u8],
    },
    /// How long a connection is kept, in tenths of a second; none in a query (RFC 7828, section 3.1).
    TcpKeepalive(Option<u16>),
    /// Padding: any octets (RFC 7830, section 3).
    Padding(&'m [u8]),
    /// The closest trust point, or none to ask whether the server knows this option (RFC 7901, sections 4 and 5.1).
    Chain(Option<NameRef<'m>>),
    /// An extended DNS error (RFC 8914, section 2).
    ExtendedError {
        /// The code, by IANA's registry "Extended DNS Error Codes".
        code: u16,
        /// More about it, which may be empty.
        text: &'m str,
    },
    /// The domain of an agent that errors are reported to (RFC 9567, section 5).
    ReportChannel(NameRef<'m>),
    /// The version of a zone; none in a query (RFC 9660, section 2).
    ZoneVersion(Option<ZoneVersion<'m>>),
    /// An option of which nothing is known here.
    Unknown {
        /// Its code.
        code: u16,
        /// Its octets.
        octets: &'m [u8],
    },
}

/// The version of a zone (RFC 9660, section 2).
#[derive(Clone, Copy, Debug)]
pub struct ZoneVersion<'m> {
    /// How many labels of the name in the question are the zone's.
    pub labels: u8,
    /// What the version is: 0 for the serial number of the zone, which has four octets.
    pub version_type: u8,
    /// Its octets.
    pub version: &'m [u8],
}

impl<'m> OptionData<'m> {
    /// Reads what the octets of an option with this code say.
    ///
    /// It fails with `Length` if their number is wrong, with `Prefix` or `Bits` if the prefix of a network is, with `Name` if
    /// they are not the wire form of a name, and with `Text` if a text is not UTF-8. An option of which nothing is known here may
    /// have any octets.
    pub fn read(code: u16, octets: &'m [u8]) -> Result<Self, OptionError>
        ensures ok { IfOk result (λ value. ReadsOption (option_of_code code) octets.now (Ok (seen_option value))) }
        ensures err { IfErr result (λ e. ReadsOption (option_of_code code) octets.now (Err e)) }

        // What is read is written by the same octets and the same code.
        ensures octets { IfOk result (λ value. option_octets (seen_option value) ≡ octets.now) }
        ensures code { IfOk result (λ value. option_code (code_of (seen_option value)) ≡ code) }
    {
        match OptionCode::from(code) {
            OptionCode::Nsid => Ok(OptionData::Nsid(octets)),
            OptionCode::ClientSubnet => read_subnet(octets),
            OptionCode::Expire => read_expire(octets),
            OptionCode::Cookie => read_cookie(octets),
            OptionCode::TcpKeepalive => read_keepalive(octets),
            OptionCode::Padding => Ok(OptionData::Padding(octets)),
            OptionCode::Chain => read_chain(octets),
            OptionCode::ExtendedError => read_error(octets),
            OptionCode::ReportChannel => Ok(OptionData::ReportChannel(read_name(octets)?)),
            OptionCode::ZoneVersion => read_version(octets),
            OptionCode::Unknown(code) => Ok(OptionData::Unknown { code, octets }),
        }
    }

    /// Reads what the octets of an option with this code say, as `read` does, or keeps the code and the octets as `Unknown` if they
    /// break a rule: what is shown of any option.
    pub fn read_any(code: u16, octets: &'m [u8]) -> Self
        ensures { ReadsAnyOption code octets.now (seen_option result) }
    {
        match OptionData::read(code, octets) {
            Ok(option) => option,
            Err(_) => OptionData::Unknown { code, octets },
        }
    }

    /// Appends the octets that say it. They are at most 65,535 in a message, which is not looked at here.
    ///
    /// It fails with the rule that is broken if no option says this: `Prefix`, `Bits` or `Length` for a network, `Length` for the
    /// cookie of a server or a version, and `Named` for `Unknown` with a code that has a name. It fails with `Memory` if an
    /// allocation fails. If it fails, nothing is appended.
    pub fn append_to(&self, out: &mut Vec<u8>) -> Result<(), OptionError>
        ensures ok { OnOk result ((value_fault (seen_option self.now) ≡ None) × (out.new.items ≡ out.old.items ++ option_octets (seen_option self.now))) }
        ensures err { IfErr result (λ e. (e ≡ OptionError.Memory) ⊎ (value_fault (seen_option self.now) ≡ Some e)) }
        ensures same { OnErr result (out.new.items ≡ out.old.items) }
        ensures of_type { OnOk result (IsOptionFields (seen_option self.now)) }
    {
        if let Some(error) = self.fault() {
            return Err(error);
        }
        match self {
            OptionData::Nsid(octets) => out.extend_from_slice(octets)?,
            OptionData::ClientSubnet {
                family,
                source,
                scope,
                address,
            } => {
                let family = family.to_be_bytes();
                append_both(out, &[family[0], family[1], *source, *scope], address)?;
            }
            OptionData::Expire(Some(seconds)) => out.extend_from_slice(&seconds.to_be_bytes())?,
            OptionData::Cookie { client, server } => append_both(out, client, server)?,
            OptionData::TcpKeepalive(Some(timeout)) => {
                out.extend_from_slice(&timeout.to_be_bytes())?;
            }
            OptionData::Padding(octets) => out.extend_from_slice(octets)?,
            OptionData::Chain(Some(name)) => append_name(out, name)?,
            OptionData::ExtendedError { code, text } => {
                append_both(out, &code.to_be_bytes(), text_octets(text))?;
            }
            OptionData::ReportChannel(name) => append_name(out, name)?,
            OptionData::ZoneVersion(Some(version)) => {
                let front = [version.labels, version.version_type];
                append_both(out, &front, version.version)?;
            }
            OptionData::Unknown { code: _, octets } => out.extend_from_slice(octets)?,
            OptionData::Expire(None)
            | OptionData::TcpKeepalive(None)
            | OptionData::Chain(None)
            | OptionData::ZoneVersion(None) => {}
        }
        Ok(())
    }

    /// Returns which option says it.
    pub fn code(&self) -> OptionCode
        ensures { result ≡ code_of (seen_option self.now) }
    {
        match self {
            OptionData::Nsid(_) => OptionCode::Nsid,
            OptionData::ClientSubnet { .. } => OptionCode::ClientSubnet,
            OptionData::Expire(_) => OptionCode::Expire,
            OptionData::Cookie { .. } => OptionCode::Cookie,
            OptionData::TcpKeepalive(_) => OptionCode::TcpKeepalive,
            OptionData::Padding(_) => OptionCode::Padding,
            OptionData::Chain(_) => OptionCode::Chain,
            OptionData::ExtendedError { .. } => OptionCode::ExtendedError,
            OptionData::ReportChannel(_) => OptionCode::ReportChannel,
            OptionData::ZoneVersion(_) => OptionCode::ZoneVersion,
            OptionData::Unknown { code, .. } => OptionCode::Unknown(*code),
        }
    }

    /// Returns why no option says this, or `None` if one does.
    pub fn fault(&self) -> Option<OptionError>
        ensures { result ≡ value_fault (seen_option self.now) }
    {
        match self {
            OptionData::ClientSubnet {
                family,
                source,
                scope,
                address,
            } => network_fault(*family, *source, *scope, address),
            OptionData::Cookie { client: _, server } if !may_be_server(server) => {
                Some(OptionError::Length)
            }
            OptionData::ZoneVersion(Some(version))
                if !may_be_version(version.version_type, version.version) => {
                Some(OptionError::Length)
            }
            OptionData::Unknown { code, octets: _ } if !has_no_name(OptionCode::from(*code)) => {
                Some(OptionError::Named)
            }
            _ => None,
        }
    }
}

/// Reads the network of a client.
fn read_subnet(octets: &[u8]) -> Result<OptionData<'_>, OptionError>
    ensures ok { IfOk result (λ value. subnet_of octets.now ≡ Ok (seen_option value)) }
    ensures err { IfErr result (λ e. subnet_of octets.now ≡ Err e) }
    ensures octets { IfOk result (λ value. option_octets (seen_option value) ≡ octets.now) }
{
    if octets.len() < 4 {
        return Err(OptionError::Length);
    }
    let family = u16_of(&octets[..2]);
    let (source, scope) = (octets[2], octets[3]);
    let address = &octets[4..];
    if let Some(error) = network_fault(family, source, scope, address) {
        return Err(error);
    }
    Ok(OptionData::ClientSubnet {
        family,
        source,
        scope,
        address,
    })
}

/// Returns which rule a network breaks.
fn network_fault(family: u16, source: u8, scope: u8, address: &[u8]) -> Option<OptionError>
    ensures { result ≡ network_fault family source scope address.now }
{
    if source.max(scope) > most_bits(family) {
        return Some(OptionError::Prefix);
    }
    if address.len() != (source as usize + 7) / 8 {
        return Some(OptionError::Length);
    }
    if bits_after(source, address) != 0 {
        return Some(OptionError::Bits);
    }
    None
}

/// Returns how many bits an address of a family has.
fn most_bits(family: u16) -> u8
    ensures { result ≡ most_bits family }
{
    match family {
        1 => 32,
        2 => 128,
        _ => u8::MAX,
    }
}

/// Returns the bits after a prefix in its last octet, at the high end of an octet.
fn bits_after(source: u8, address: &[u8]) -> u8
    ensures { result ≡ bits_after source address.now }
{
    match address.get(source as usize / 8) {
        Some(last) => *last << (source % 8),
        None => 0,
    }
}

/// Reads the time after which a zone expires.
fn read_expire(octets: &[u8]) -> Result<OptionData<'_>, OptionError>
    ensures ok { IfOk result (λ value. expire_of octets.now ≡ Ok (seen_option value)) }
    ensures err { IfErr result (λ e. expire_of octets.now ≡ Err e) }
    ensures octets { IfOk result (λ value. option_octets (seen_option value) ≡ octets.now) }
{
    match octets.len() {
        0 => Ok(OptionData::Expire(None)),
        4 => Ok(OptionData::Expire(Some(u32_of(octets)))),
        _ => Err(OptionError::Length),
    }
}

/// Reads cookies.
fn read_cookie(octets: &[u8]) -> Result<OptionData<'_>, OptionError>
    ensures ok { IfOk result (λ value. cookie_of octets.now ≡ Ok (seen_option value)) }
    ensures err { IfErr result (λ e. cookie_of octets.now ≡ Err e) }
    ensures octets { IfOk result (λ value. option_octets (seen_option value) ≡ octets.now) }
{
    let Some((client, server)) = octets.split_first_chunk::<8>() else {
        return Err(OptionError::Length);
    };
    if !may_be_server(server) {
        return Err(OptionError::Length);
    }
    Ok(OptionData::Cookie {
        client: *client,
        server,
    })
}

/// Returns `true` for a cookie of a server, or none.
fn may_be_server(server: &[u8]) -> bool
    ensures { result ≡ may_be_server (length server.now) }
{
    server.is_empty() || (8 <= server.len() && server.len() <= 32)
}

/// Reads how long a connection is kept.
fn read_keepalive(octets: &[u8]) -> Result<OptionData<'_>, OptionError>
    ensures ok { IfOk result (λ value. keepalive_of octets.now ≡ Ok (seen_option value)) }
    ensures err { IfErr result (λ e. keepalive_of octets.now ≡ Err e) }
    ensures octets { IfOk result (λ value. option_octets (seen_option value) ≡ octets.now) }
{
    match octets.len() {
        0 => Ok(OptionData::TcpKeepalive(None)),
        2 => Ok(OptionData::TcpKeepalive(Some(u16_of(octets)))),
        _ => Err(OptionError::Length),
    }
}

/// Reads the closest trust point.
fn read_chain(octets: &[u8]) -> Result<OptionData<'_>, OptionError>
    ensures ok { IfOk result (λ value. ReadsChainOption octets.now (Ok (seen_option value))) }
    ensures err { IfErr result (λ e. ReadsChainOption octets.now (Err e)) }
    ensures octets { IfOk result (λ value. option_octets (seen_option value) ≡ octets.now) }
{
    if octets.is_empty() {
        return Ok(OptionData::Chain(None));
    }
    let name = read_name(octets)?;
    Ok(OptionData::Chain(Some(name)))
}

/// Reads an extended DNS error.
fn read_error(octets: &[u8]) -> Result<OptionData<'_>, OptionError>
    ensures ok { IfOk result (λ value. error_of octets.now ≡ Ok (seen_option value)) }
    ensures err { IfErr result (λ e. error_of octets.now ≡ Err e) }
    ensures octets { IfOk result (λ value. option_octets (seen_option value) ≡ octets.now) }
{
    if octets.len() < 2 {
        return Err(OptionError::Length);
    }
    let code = u16_of(&octets[..2]);
    let Some(text) = text_of(&octets[2..]) else {
        return Err(OptionError::Text);
    };
    Ok(OptionData::ExtendedError { code, text })
}

/// Returns octets as text, or `None` if they are not UTF-8.
fn text_of(octets: &[u8]) -> Option<&str>
    ensures { MatchOption result (is_utf8 octets.now ≡ false) (λ text. (text.now ≡ octets.now) × (is_utf8 octets.now ≡ true)) }
{
    match str::from_utf8(octets) {
        Ok(text) => Some(text),
        Err(_) => None,
    }
}

/// Reads the version of a zone.
#[tactic(auto, using(crate::proofs::Octets::pair_back))]
fn read_version(octets: &[u8]) -> Result<OptionData<'_>, OptionError>
    ensures ok { IfOk result (λ value. version_of octets.now ≡ Ok (seen_option value)) }
    ensures err { IfErr result (λ e. version_of octets.now ≡ Err e) }
    ensures octets { IfOk result (λ value. option_octets (seen_option value) ≡ octets.now) }
{
    if octets.is_empty() {
        return Ok(OptionData::ZoneVersion(None));
    }
    if octets.len() < 2 {
        return Err(OptionError::Length);
    }
    let (labels, version_type) = (octets[0], octets[1]);
    let version = &octets[2..];
    if !may_be_version(version_type, version) {
        return Err(OptionError::Length);
    }
    Ok(OptionData::ZoneVersion(Some(ZoneVersion {
        labels,
        version_type,
        version,
    })))
}

/// Returns `true` if a version of this type has so many octets.
fn may_be_version(version_type: u8, version: &[u8]) -> bool
    ensures { result ≡ may_be_version version_type (length version.now) }
{
    version_type > 0 || version.len() == 4
}

/// Reads a name, of which the octets are the wire form.
fn read_name(octets: &[u8]) -> Result<NameRef<'_>, OptionError>
    ensures ok { IfOk result (λ name. IsName octets.now name) }
    ensures err { IfErr result (λ e. NoName octets.now × (e ≡ OptionError.Name)) }
{
    laws::reads_back();
    let name = match NameRef::read(&mut BinDecoder::new(octets)) {
        Ok(name) => name,
        Err(_) => return Err(OptionError::Name),
    };
    let mut room = [0; MAX_NAME];
    if !is_same(name.wire_labels(&mut room).as_wire(), octets) {
        return Err(OptionError::Name);
    }
    Ok(name)
}

/// Returns `true` if octets are the same.
fn is_same(octets: &[u8], other: &[u8]) -> bool
    ensures { IsTrue result ↔ (octets.now ≡ other.now) }
{
    octets == other
}

/// Returns the number that two octets are.
fn u16_of(own: &[u8]) -> u16
    requires { length own.now ≡ 2 }
    ensures { result ≡ from_be_bytes w16 own.now }
{
    u16::from_be_bytes([own[0], own[1]])
}

/// Returns the number that four octets are.
fn u32_of(own: &[u8]) -> u32
    requires { length own.now ≡ 4 }
    ensures { result ≡ from_be_bytes w32 own.now }
{
    u32::from_be_bytes([own[0], own[1], own[2], own[3]])
}

/// Returns `true` for a code without a name.
fn has_no_name(code: OptionCode) -> bool
    ensures { result ≡ has_no_name code }
{
    matches!(code, OptionCode::Unknown(_))
}

/// Returns the octets of a text.
fn text_octets(text: &str) -> &[u8]
    ensures octets { result.now ≡ text.now }
    ensures text { is_utf8 text.now ≡ true }
{
    text.as_bytes()
}

/// Appends octets and others after them, or nothing if it fails.
fn append_both(out: &mut Vec<u8>, first: &[u8], others: &[u8]) -> Result<(), AllocError>
    ensures ok { OnOk result (out.new.items ≡ out.old.items ++ (first.now ++ others.now)) }
    ensures same { OnErr result (out.new.items ≡ out.old.items) }
{
    let start = out.len();
    out.extend_from_slice(first)?;
    if let Err(error) = out.extend_from_slice(others) {
        out.truncate(start);
        return Err(error);
    }
    Ok(())
}

/// Appends the wire form of a name.
fn append_name(out: &mut Vec<u8>, name: &NameRef<'_>) -> Result<(), AllocError>
    ensures ok { OnOk result (out.new.items ≡ out.old.items ++ wire name.now) }
    ensures same { OnErr result (out.new.items ≡ out.old.items) }
    ensures labels { AreLabels name.now }
{
    let mut room = [0; MAX_NAME];
    out.extend_from_slice(name.wire_labels(&mut room).as_wire())
}
