//! Labels that are read again where they were written.
ghost use Rattle.std.specs.Prelude.{◌≡◌, ℕ, ◌≤◌, ◌↔◌, ◌∷◌, length, take, drop, IsTrue};
ghost use Rattle.dnw_base.specs.Limits.{max_name};
ghost use Rattle.dnw_base.specs.Names.{encoded_size};
ghost use Rattle.dnw_name_read.specs.Reading.{NameAt};

use crate::octets::are_same;
use dnw_name_form::wire_labels::WireLabels;
use dnw_name_read::walk::{Element, element_at};

/// Returns `true` if reading a name at `start` gives these labels, byte for byte. Mostly the message has their whole
/// wire form there, which is compared in one piece; a name that ends in a pointer is compared label by label.
#[inline(never)]
pub fn stands_at(message: &[u8], start: usize, labels: WireLabels<'_>) -> bool
    ensures { IsTrue result ↔ ((e : ℕ) × (k : ℕ) × NameAt message.now start labels.entry e k) }
{
    has_form(message, start, labels.as_wire()) || has_labels(message, start, labels)
}

/// Returns `true` if the message has these octets at `start`.
#[inline(always)]
fn has_form(message: &[u8], start: usize, wire: &[u8]) -> bool
    ensures { IsTrue result ↔ ((start ≤ length message.now) × (take (length wire.now) (drop start message.now) ≡ wire.now)) }
{
    if start > message.len() || wire.len() > message.len() - start {
        return false;
    }
    let end = start + wire.len();
    are_same(&message[start..end], wire)
}

/// Returns `true` if reading a name at `start` gives these labels: each element is compared where it is.
fn has_labels(message: &[u8], start: usize, mut labels: WireLabels<'_>) -> bool
    requires { encoded_size labels ≤ max_name }
    ensures { IsTrue result ↔ ((e : ℕ) × (k : ℕ) × NameAt message.now start labels.entry e k) }
{
    let mut position = start;
    let mut segment = start;
    let mut limit = message.len();
    'elements: while position < limit {
        let Ok(element) = element_at(message, position, segment) else {
            return false;
        };
        match element {
            Element::End => return labels.len() == 0,
            Element::Label(len) => {
                let end = position + 1 + len;
                if !takes_label(&mut labels, &message[position + 1..end]) {
                    return false;
                }
                position = end;
            }
            Element::Pointer(target) => {
                limit = segment;
                segment = target;
                position = target;
            }
        }
    }
    false
}

/// Takes the next label, and returns `true` if it has these octets.
#[inline(always)]
fn takes_label(labels: &mut WireLabels<'_>, octets: &[u8]) -> bool
    ensures label { IsTrue result ↔ (labels.old ≡ octets.now ∷ labels.new) }
    ensures rest { labels.new ≡ drop 1 labels.old }
{
    match labels.next() {
        Some(label) => label == octets,
        None => false,
    }
}
