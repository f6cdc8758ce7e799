//! A copy of a name in a message, piece by piece between its pointers.
ghost use Rattle.std.specs.Prelude.{◌≡◌, ℕ, ◌+◌, ◌≤◌, ◌++◌, length, take, drop};
ghost use Rattle.dnw_base.specs.Names.{wire};
ghost use Rattle.dnw_name_read.specs.Buffers.{put};
ghost use Rattle.dnw_name_read.specs.Inside.Found.{labels_at, NameLiesAt, StandsAt};

use crate::walk;
use dnw_base::limits::POINTER_BITS;

/// Puts the wire form of the name at `first`, of `size` octets, at the front of a buffer: `head` of them from there on in one piece, and the
/// others from `tail` on, as a walk has found. If `head` is 0, it looks for the pieces.
#[inline(always)]
pub fn copy_name(
    out: &mut [u8],
    message: &[u8],
    first: usize,
    size: usize,
    head: usize,
    tail: usize,
)
    requires name { (count : ℕ) × NameLiesAt message.now first size count head tail }
    requires fits { size ≤ length out.old }
    ensures { out.new ≡ put out.old (wire (labels_at message.now first)) }
{
    if head == 0 {
        copy_runs(out, message, first);
        return;
    }
    put_run(out, 0, &message[first..first + head]);
    put_run(out, head, &message[tail..tail + (size - head)]);
}

/// Puts the wire form of the name at `start` at the front of a buffer: each run of octets between two pointers in one piece.
#[tactic(auto, using(crate::proofs::Copying::copying))]
pub fn copy_runs(out: &mut [u8], message: &[u8], start: usize)
    requires name { (end size count pointers : ℕ) × StandsAt message.now start end size count pointers }
    requires fits { length (wire (labels_at message.now start)) ≤ length out.old }
    ensures { out.new ≡ put out.old (wire (labels_at message.now start)) }
{
    let mut filled = 0;
    let mut run = start;
    let mut position = start;
    'elements: loop {
        let octet = message[position];
        if octet == 0 {
            put_run(out, filled, &message[run..position + 1]);
            return;
        }
        if octet < POINTER_BITS {
            position = position + 1 + octet as usize;
        } else {
            put_run(out, filled, &message[run..position]);
            filled += position - run;
            run = walk::pointer_target(octet, message[position + 1]);
            position = run;
        }
    }
}

/// Puts a run at an offset in one piece, or nothing if it is empty: there is no octet between two pointers.
#[inline(always)]
fn put_run(out: &mut [u8], at: usize, run: &[u8])
    requires { at + length run.now ≤ length out.old }
    ensures { out.new ≡ take at out.old ++ (run.now ++ drop (at + length run.now) out.old) }
{
    if !run.is_empty() {
        out[at..at + run.len()].copy_from_slice(run);
    }
}
