//! Fields whose first octets say what follows them: locations, gateways, relays, host identities, and parts of addresses.
ghost use Rattle.std.specs.Prelude.{◌≡◌, ◌≤◌, ◌+◌, ◌<◌, length, None, Some, IfOk, IfErr};
ghost use Rattle.dnw_data.specs.Shapes.{gateway_fault, gateway_size, identity_size, relay_fault, relay_size, shape_fault, shape_size, suffix_fault, suffix_size};

use crate::kind::Shape;
use crate::whole_name::{after, check_name, name_size, octet_at};
use dnw_base::error::DecodeError;
use std::marker::Model;

/// The octets of a location of version 0 (RFC 1876, section 2).
const LOCATION_SIZE: usize = 16;

/// The octets before a tag and a key (RFC 8005, section 5).
const IDENTITY_HEAD: usize = 4;

/// The family of IPv6 addresses (RFC 3123, section 4).
const IPV6: u16 = 2;

/// Octets that have a shape.
///
/// A contract sees them as the shape and the octets.
#[derive(Drop)]
pub struct Shaped<'r> {
    shape: Shape,
    octets: &'r [u8],
}

impl<'r> Model for Shaped<'r> {
    ghost use Rattle.dnw_data.specs.Shapes.{ShapedValue, IsShaped};

    ghost Value = { ShapedValue };

    ghost view = { λ s. record { shape = s.shape; octets = s.octets.now } };

    ghost invariant = { λ s. IsShaped s.shape s.octets.now };
}

impl<'r> Shaped<'r> {
    ghost use Rattle.std.specs.Prelude.{◌≡◌, length, None, Some, IfOk, IfErr};
    ghost use Rattle.dnw_data.specs.Shapes.{FailsShape, IsShaped, shape_fault, shape_size};

    /// Creates what these octets are. It fails with `InsufficientBytes` if they are fewer or more than their first octets
    /// say, with `UnknownAddressFamily` if a gateway is of an unknown type or a prefix longer than an address, with `UnrecognizedLabelCode` if the name of a
    /// gateway or a relay has a pointer, and with `DomainNameTooLong` if it has more than 255 octets.
    pub fn new(shape: Shape, octets: &'r [u8]) -> Result<Self, DecodeError>
        ensures ok { IfOk result (λ s. IsShaped shape octets.now × (s ≡ record { shape = shape; octets = octets.now })) }
        ensures err { IfErr result (λ e. FailsShape shape octets.now e) }
    {
        if shape_size(shape, octets) != octets.len() {
            return Err(DecodeError::InsufficientBytes);
        }
        Shaped::of_octets(shape, octets)
    }

    /// Creates what these octets are, which are as many as they say.
    #[inline(always)]
    pub(crate) fn of_octets(shape: Shape, octets: &'r [u8]) -> Result<Self, DecodeError>
        requires { length octets.now ≡ shape_size shape octets.now }
        ensures ok { IfOk result (λ s. (shape_fault shape octets.now ≡ None) × (s ≡ record { shape = shape; octets = octets.now })) }
        ensures err { IfErr result (λ e. shape_fault shape octets.now ≡ Some e) }
    {
        check_shape(shape, octets)?;
        Ok(Shaped { shape, octets })
    }

    /// Returns the shape.
    #[inline(always)]
    pub fn shape(&self) -> Shape
        ensures { result ≡ self.now.shape }
    {
        self.shape
    }

    /// Returns the octets, as they are in the message.
    #[inline(always)]
    pub fn as_bytes(&self) -> &'r [u8]
        ensures octets { result.now ≡ self.now.octets }
        ensures right { IsShaped self.now.shape self.now.octets }
    {
        self.octets
    }
}

/// Returns how many octets a field of a shape takes of those that are left. It is more than there are if they end within it.
pub(crate) fn shape_size(shape: Shape, left: &[u8]) -> usize
    ensures { result ≡ shape_size shape left.now }
{
    match shape {
        Shape::Location if octet_at(left, 0) == 0 => LOCATION_SIZE,
        Shape::Location => left.len(),
        Shape::Gateway => 2 + gateway_size(octet_at(left, 0), after(left, 2)),
        Shape::Relay => 1 + relay_size(octet_at(left, 0) % 128, after(left, 1)),
        Shape::HostIdentity => identity_size(left),
        Shape::AddressSuffix => 1 + suffix_size(octet_at(left, 0)),
    }
}

/// Returns the octets of an address that are not all in a prefix of this length.
fn suffix_size(prefix: u8) -> usize
    ensures { result ≡ suffix_size prefix }
{
    135usize.saturating_sub(usize::from(prefix)) / 8
}

/// Returns the octets of a gateway of a type.
fn gateway_size(gateway_type: u8, left: &[u8]) -> usize
    ensures size { result ≡ gateway_size gateway_type left.now }
    ensures few { result ≤ 8193 }
{
    match gateway_type {
        1 => 4,
        2 => 16,
        3 => name_size(left),
        _ => 0,
    }
}

/// Returns the octets of a relay of a type.
fn relay_size(relay_type: u8, left: &[u8]) -> usize
    ensures size { result ≡ relay_size relay_type left.now }
    ensures few { result ≤ length left.now + 8193 }
{
    if 3 < relay_type {
        return left.len();
    }
    gateway_size(relay_type, left)
}

/// Returns the octets of a host identity.
fn identity_size(left: &[u8]) -> usize
    ensures { result ≡ identity_size left.now }
{
    match left {
        [tag, _, a, b, ..] => {
            IDENTITY_HEAD + usize::from(*tag) + usize::from(u16::from_be_bytes([*a, *b]))
        }
        _ => IDENTITY_HEAD,
    }
}

/// Checks that octets of the size have the shape.
pub(crate) fn check_shape(shape: Shape, own: &[u8]) -> Result<(), DecodeError>
    requires { length own.now ≡ shape_size shape own.now }
    ensures ok { IfOk result (λ _. shape_fault shape own.now ≡ None) }
    ensures err { IfErr result (λ e. shape_fault shape own.now ≡ Some e) }
{
    match shape {
        Shape::Gateway => {
            let gateway_type = own[0];
            if 3 < gateway_type {
                return Err(DecodeError::UnknownAddressFamily(u16::from(gateway_type)));
            }
            check_relay(gateway_type, &own[2..])
        }
        Shape::Relay => check_relay(octet_at(own, 0) % 128, &own[1..]),
        Shape::AddressSuffix => check_suffix(octet_at(own, 0)),
        Shape::Location | Shape::HostIdentity => Ok(()),
    }
}

/// Checks the length of the prefix of an IPv6 address.
fn check_suffix(prefix: u8) -> Result<(), DecodeError>
    ensures ok { IfOk result (λ _. suffix_fault prefix ≡ None) }
    ensures err { IfErr result (λ e. suffix_fault prefix ≡ Some e) }
{
    if 128 < prefix {
        return Err(DecodeError::UnknownAddressFamily(IPV6));
    }
    Ok(())
}

/// Checks a relay of a type.
fn check_relay(relay_type: u8, own: &[u8]) -> Result<(), DecodeError>
    ensures ok { IfOk result (λ _. relay_fault relay_type own.now ≡ None) }
    ensures err { IfErr result (λ e. relay_fault relay_type own.now ≡ Some e) }
{
    if relay_type == 3 {
        return check_name(own);
    }
    Ok(())
}
