//! Sort keys of names: octets that compare as bytes as the names do in canonical order (RFC 4034, section 6.1).
//!
//! So names are sorted by their keys with `memcmp`, and a store that compares bytes has them in the order of NSEC.
ghost use Rattle.std.specs.Prelude.{◌≡◌, ◌+◌, ◌≤◌, length};
ghost use Rattle.dnw_name_form.specs.LabelOrder.{lower_label};
ghost use Rattle.dnw_name_order.specs.Inside.KeyBuffers.{AppendsKey};
ghost use Rattle.dnw_name_order.specs.SortKeys.{escape_octet, label_key, max_sort_key, sort_key};

use crate::from_last::FromLast;
use dnw_name_form::lower::lower;
use dnw_name_form::wire_labels::WireLabels;

pub mod laws;

/// The most bytes of a sort key.
///
/// A name of 255 octets has four labels or more. Without the closing zero and four length octets, 250 octets are left. Each
/// may become two, and a byte is added after each of the four labels.
pub const MAX_SORT_KEY_LENGTH: usize = 504;

/// Puts the sort key of labels at the front of a buffer, and returns it.
///
/// It has the labels from the last one, in lower case, with a byte 0 after each. In a label, 0 becomes `1 1`, and 1 becomes
/// `1 2`.
pub fn of_labels<'b>(labels: WireLabels<'_>, buffer: &'b mut [u8; MAX_SORT_KEY_LENGTH]) -> &'b [u8]
    ensures key { result.now ≡ sort_key labels.entry }
    ensures short { length result.now ≤ max_sort_key }
{
    let len = put_labels(buffer, labels);
    &buffer[..len]
}

/// Puts the key of labels at the front of a buffer, and returns its length.
fn put_labels(buffer: &mut [u8; MAX_SORT_KEY_LENGTH], labels: WireLabels<'_>) -> usize
    ensures { AppendsKey buffer.old 0 (sort_key labels.entry) buffer.new result }
{
    let mut end = 0;
    let mut rest = FromLast::new(labels.as_wire());
    'labels: while let Some(label) = rest.next() {
        end = put_label(buffer, end, label);
    }
    end
}

/// Puts the octets of a label and an octet 0 into a buffer, and returns their end.
#[inline(always)]
fn put_label(buffer: &mut [u8; MAX_SORT_KEY_LENGTH], start: usize, label: &[u8]) -> usize
    requires { start + length (label_key (lower_label label.now)) ≤ max_sort_key }
    ensures { AppendsKey buffer.old start (label_key (lower_label label.now)) buffer.new result }
{
    let mut end = start;
    for octet in label {
        end = put_octet(buffer, end, lower(*octet));
    }
    buffer[end] = 0;
    end + 1
}

/// Puts an octet of a label into a buffer, and returns its end.
#[inline(always)]
fn put_octet(buffer: &mut [u8; MAX_SORT_KEY_LENGTH], start: usize, octet: u8) -> usize
    requires { start + length (escape_octet octet) ≤ max_sort_key }
    ensures { AppendsKey buffer.old start (escape_octet octet) buffer.new result }
{
    if octet > 1 {
        buffer[start] = octet;
        start + 1
    } else {
        buffer[start] = 1;
        buffer[start + 1] = octet + 1;
        start + 2
    }
}
