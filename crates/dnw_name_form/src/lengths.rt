//! The lengths of the last labels of a wire form, packed in a number.
ghost use Rattle.std.specs.Prelude.{◌≡◌, ◌+◌, ◌*◌, ◌%◌, ◌≤◌, length, reverse};
ghost use Rattle.dnw_name_form.specs.Inside.Lengths.{HasLengths};
ghost use Rattle.dnw_name_form.specs.Inside.WireBytes.{closed, labels_of, IsWire};

/// Lengths below this are kept when another one comes: seven, of eight bits each.
pub(crate) const KEPT: u64 = 1 << 56;

/// Returns the lengths of the last labels, eight at most, of a wire form without its closing zero.
#[inline(always)]
pub fn last_lengths(labels: &[u8]) -> u64
    requires { IsWire (closed labels.now) }
    ensures lengths { HasLengths (reverse (labels_of (closed labels.now))) result }
    ensures some { 1 ≤ length labels.now → 1 ≤ result }
{
    let mut lengths = 0;
    let mut rest = labels;
    'labels: while let Some((len, others)) = rest.split_first() {
        lengths = with_length(lengths, *len);
        let (_, others) = others.split_at(*len as usize);
        rest = others;
    }
    lengths
}

/// Returns the lengths of the labels of a wire form, if they are eight at most, and else 0. So few labels are walked over.
#[inline(always)]
pub(crate) fn few_lengths(wire: &[u8]) -> u64
    requires { IsWire wire.now }
    ensures { HasLengths (reverse (labels_of wire.now)) result }
{
    few_lengths_of(&wire[..wire.len() - 1])
}

/// Returns the lengths as `few_lengths` does, of a wire form without its closing zero.
#[inline(always)]
fn few_lengths_of(labels: &[u8]) -> u64
    requires { IsWire (closed labels.now) }
    ensures { HasLengths (reverse (labels_of (closed labels.now))) result }
{
    let mut lengths = 0;
    let mut rest = labels;
    'labels: while let Some((len, others)) = rest.split_first() {
        if lengths >= KEPT {
            return 0;
        }
        lengths = with_length(lengths, *len);
        let (_, others) = others.split_at(*len as usize);
        rest = others;
    }
    lengths
}

/// Adds the length of a label at the end. The first one is left out if there are eight.
#[inline(always)]
pub(crate) fn with_length(lengths: u64, len: u8) -> u64
    ensures { result ≡ lengths % 72057594037927936 * 256 + len }
{
    lengths % KEPT * 256 + u64::from(len)
}
