//! The wire form of reverse names.
ghost use Rattle.std.specs.Prelude.{◌≡◌, ◌+◌, ◌*◌, ◌≤◌, ◌<◌, ◌++◌, ◌∷◌, [], length, map, reverse};
ghost use Rattle.dnw_base.specs.Labels.{IsLabel};
ghost use Rattle.dnw_base.specs.Limits.{max_name};
ghost use Rattle.dnw_base.specs.Names.{encoded_size};
ghost use Rattle.dnw_name_arpa.specs.Arpa.{arpa_labels, nibbles, ip_prefix, value_label};
ghost use Rattle.dnw_name_arpa.specs.declared.reading.Family.TheVariants.{Ipv4, Ipv6};
ghost use Rattle.std.specs.declared.net.ip_addr.IpAddr.TheVariants.{V4, V6};

use dnw_name_form::form::WireForm;
use std::alloc::Global;
use std::net::{Ipv4Addr, Ipv6Addr};

/// Returns the wire form of the reverse name of an IPv4 address (RFC 1035, section 3.5). It does not allocate.
pub fn ipv4_form(alloc: Global, addr: Ipv4Addr) -> WireForm
    ensures { result ≡ arpa_labels (ip_prefix (V4 addr)) }
{
    let [a, b, c, d] = addr.octets();
    let mut form = WireForm::new(alloc);
    push_octet(&mut form, d);
    push_octet(&mut form, c);
    push_octet(&mut form, b);
    push_octet(&mut form, a);
    push_label(&mut form, b"in-addr");
    push_label(&mut form, b"arpa");
    form
}

/// Returns the wire form of the reverse name of an IPv6 address (RFC 3596, section 2.5). It does not allocate.
pub fn ipv6_form(alloc: Global, addr: Ipv6Addr) -> WireForm
    ensures { result ≡ arpa_labels (ip_prefix (V6 addr)) }
{
    let segments = addr.segments();
    let mut form = WireForm::new(alloc);
    push_segments(&mut form, &segments);
    push_label(&mut form, b"ip6");
    push_label(&mut form, b"arpa");
    form
}

/// Adds the nibbles of segments, the last one first.
fn push_segments(form: &mut WireForm, segments: &[u16])
    requires room { encoded_size form.old + 8 * length segments.now ≤ max_name }
    ensures labels { form.new ≡ form.old ++ map (value_label Ipv6) (reverse (nibbles segments.now)) }
    ensures size { encoded_size form.new ≡ encoded_size form.old + 8 * length segments.now }
{
    let mut rest = segments;
    'segments: while let Some((last, front)) = rest.split_last() {
        push_segment(form, *last);
        rest = front;
    }
}

/// Adds the four nibbles of a segment, the lowest first.
fn push_segment(form: &mut WireForm, segment: u16)
    requires room { encoded_size form.old + 8 ≤ max_name }
    ensures labels { form.new ≡ form.old ++ map (value_label Ipv6) (reverse (nibbles (segment ∷ []))) }
    ensures size { encoded_size form.new ≡ encoded_size form.old + 8 }
{
    push_nibble(form, (segment % 16) as u8);
    push_nibble(form, (segment / 16 % 16) as u8);
    push_nibble(form, (segment / 256 % 16) as u8);
    push_nibble(form, (segment / 4096) as u8);
}

/// Adds a nibble as a hexadecimal digit.
fn push_nibble(form: &mut WireForm, value: u8)
    requires room { encoded_size form.old + 2 ≤ max_name }
    requires value { value < 16 }
    ensures labels { form.new ≡ form.old ++ value_label Ipv6 value ∷ [] }
    ensures size { encoded_size form.new ≡ encoded_size form.old + 2 }
{
    let digit = if value < 10 {
        b'0' + value
    } else {
        b'a' - 10 + value
    };
    push_label(form, &[digit]);
}

/// Adds an octet in decimal.
fn push_octet(form: &mut WireForm, octet: u8)
    requires room { encoded_size form.old + 4 ≤ max_name }
    ensures labels { form.new ≡ form.old ++ value_label Ipv4 octet ∷ [] }
    ensures size { encoded_size form.new ≤ encoded_size form.old + 4 }
{
    let hundreds = b'0' + octet / 100;
    let tens = b'0' + octet / 10 % 10;
    let ones = b'0' + octet % 10;
    if octet >= 100 {
        push_label(form, &[hundreds, tens, ones]);
    } else if octet >= 10 {
        push_label(form, &[tens, ones]);
    } else {
        push_label(form, &[ones]);
    }
}

/// Adds a label at the end.
fn push_label(form: &mut WireForm, label: &[u8])
    requires label { IsLabel label.now }
    requires room { encoded_size form.old + 1 + length label.now ≤ max_name }
    ensures labels { form.new ≡ form.old ++ label.now ∷ [] }
    ensures size { encoded_size form.new ≡ encoded_size form.old + 1 + length label.now }
{
    form.push(label).unwrap();
}
