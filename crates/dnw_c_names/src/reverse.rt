//! Reverse names, of addresses that are bytes.
ghost use Rattle.std.specs.Prelude.{length, IfOk, IfErr};
ghost use Rattle.dnw_c_base.specs.Results.{Puts, Returns};
ghost use Rattle.dnw_c_names.specs.ReverseCalls.{IsAddress, IsNoAddress, IsNoReverse, IsReverseOf, PutsNet, PutsReverse, address_octets};

use crate::names::put_form;
use crate::order::name_of;
use dnw_c_base::buffer::put;
use dnw_c_base::failure::Failure;
use dnw_c_base::results::report;
use dnw_name::name::Name;
use dnw_name_arpa::net::IpNet;
use std::alloc::Global;
use std::net::{IpAddr, Ipv4Addr, Ipv6Addr};

/// A net that was read: the number of bytes of its address that were put, and how many of its first bits name the net.
#[repr(C)]
#[derive(Clone, Copy)]
pub struct ReadNet {
    pub len: usize,
    pub prefix_len: u8,
}

/// Puts the wire form of the reverse name of an address, and its length. It does not allocate.
#[unsafe(no_mangle)]
pub extern "C" fn dnw_reverse_name(
    alloc: Global,
    address: &[u8],
    form: &mut [u8],
    len: &mut usize,
) -> u32
    ensures { Returns (PutsReverse address.now form.old form.new) len.old len.new result }
{
    report(reverse(alloc, address, form), len)
}

/// Puts the address of the net that a reverse name stands for. It does not allocate.
#[unsafe(no_mangle)]
pub extern "C" fn dnw_reverse_parse(
    alloc: Global,
    form: &[u8],
    address: &mut [u8],
    net: &mut ReadNet,
) -> u32
    ensures { Returns (PutsNet form.now address.old address.new) net.old net.new result }
{
    report(parse(alloc, form, address), net)
}

/// Puts the wire form of the reverse name of an address.
fn reverse(alloc: Global, address: &[u8], form: &mut [u8]) -> Result<usize, Failure>
    ensures { PutsReverse address.now form.old form.new result }
{
    let ip = address_of(address)?;
    put_form(form, &Name::from_ip(alloc, ip)?)
}

/// Returns the address that 4 or 16 bytes are.
fn address_of(bytes: &[u8]) -> Result<IpAddr, Failure>
    ensures ok { IfOk result (IsAddress bytes.now) }
    ensures err { IfErr result (IsNoAddress bytes.now) }
{
    match bytes.len() {
        4 => {
            let octets = *bytes.first_chunk::<4>().unwrap();
            Ok(IpAddr::V4(Ipv4Addr::from_octets(octets)))
        }
        16 => {
            let octets = *bytes.first_chunk::<16>().unwrap();
            Ok(IpAddr::V6(Ipv6Addr::from_octets(octets)))
        }
        _ => Err(Failure::BadAddress),
    }
}

/// Puts the address of the net of a reverse name.
fn parse(alloc: Global, form: &[u8], address: &mut [u8]) -> Result<ReadNet, Failure>
    ensures { PutsNet form.now address.old address.new result }
{
    let net = net_of(alloc, form)?;
    let len = put_address(address, net.addr())?;
    let prefix_len = net.prefix_len();
    Ok(ReadNet { len, prefix_len })
}

/// Returns the net that the reverse name with a wire form stands for.
fn net_of(alloc: Global, form: &[u8]) -> Result<IpNet, Failure>
    ensures ok { IfOk result (IsReverseOf form.now) }
    ensures err { IfErr result (IsNoReverse form.now) }
{
    let name = name_of(alloc, form)?;
    match name.parse_arpa_name() {
        Ok(net) => Ok(net),
        Err(_) => Err(Failure::NotReverse),
    }
}

/// Puts the bytes of an address, and returns their number.
fn put_address(buffer: &mut [u8], ip: IpAddr) -> Result<usize, Failure>
    ensures { Puts (address_octets ip) (length (address_octets ip)) buffer.old buffer.new result }
{
    match ip {
        IpAddr::V4(ip) => put(buffer, &ip.octets()),
        IpAddr::V6(ip) => put(buffer, &ip.octets()),
    }
}
