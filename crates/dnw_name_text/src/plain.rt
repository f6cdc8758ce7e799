//! Octets that stand for themselves in the text of a name.
ghost use Rattle.std.specs.Prelude.{◌≡◌, ◌-◌, ◌<◌, ◌≤◌, get_or, length, take, false, true};
ghost use Rattle.std.specs.List.{list_all};
ghost use Rattle.dnw_base.specs.Limits.{max_label};
ghost use Rattle.dnw_name_text.specs.PlainNames.{is_own_octet, is_plain_label};

use dnw_base::limits::MAX_LABEL;

// 1 for each octet that stands for itself, and 0 for each other one.
#[rattlefmt::skip]
static OWN: [u8; 256] = [
    0, 0, 0, 0, 0, 0, 0, 0, 0, 0, 0, 0, 0, 0, 0, 0,
    0, 0, 0, 0, 0, 0, 0, 0, 0, 0, 0, 0, 0, 0, 0, 0,
    0, 1, 0, 1, 0, 1, 1, 1, 0, 0, 1, 1, 1, 1, 0, 1,
    1, 1, 1, 1, 1, 1, 1, 1, 1, 1, 1, 0, 1, 1, 1, 1,
    0, 1, 1, 1, 1, 1, 1, 1, 1, 1, 1, 1, 1, 1, 1, 1,
    1, 1, 1, 1, 1, 1, 1, 1, 1, 1, 1, 1, 0, 1, 1, 1,
    1, 1, 1, 1, 1, 1, 1, 1, 1, 1, 1, 1, 1, 1, 1, 1,
    1, 1, 1, 1, 1, 1, 1, 1, 1, 1, 1, 1, 1, 1, 1, 0,
    0, 0, 0, 0, 0, 0, 0, 0, 0, 0, 0, 0, 0, 0, 0, 0,
    0, 0, 0, 0, 0, 0, 0, 0, 0, 0, 0, 0, 0, 0, 0, 0,
    0, 0, 0, 0, 0, 0, 0, 0, 0, 0, 0, 0, 0, 0, 0, 0,
    0, 0, 0, 0, 0, 0, 0, 0, 0, 0, 0, 0, 0, 0, 0, 0,
    0, 0, 0, 0, 0, 0, 0, 0, 0, 0, 0, 0, 0, 0, 0, 0,
    0, 0, 0, 0, 0, 0, 0, 0, 0, 0, 0, 0, 0, 0, 0, 0,
    0, 0, 0, 0, 0, 0, 0, 0, 0, 0, 0, 0, 0, 0, 0, 0,
    0, 0, 0, 0, 0, 0, 0, 0, 0, 0, 0, 0, 0, 0, 0, 0,
];

/// Returns `true` for an octet that is printed as it is: most are. A table takes one comparison.
#[inline(always)]
pub(crate) fn is_own(octet: u8) -> bool
    ensures { result ≡ is_own_octet octet }
{
    OWN[octet as usize] == 1
}

/// Returns `true` if each octet stands for itself.
// The last ones are tested without a loop: most labels have few.
#[inline(always)]
#[tactic(auto, using(crate::proofs::PlainRuns::own_more, crate::proofs::PlainRuns::own_all, crate::proofs::PlainRuns::own_last, crate::proofs::PlainRuns::own_not))]
pub(crate) fn are_own(octets: &[u8]) -> bool
    ensures { result ≡ is_plain_label octets.now }
{
    let mut end = 0;
    'fours: while octets.len() - end >= 4 {
        if !is_own(octets[end]) {
            return false;
        }
        if !is_own(octets[end + 1]) {
            return false;
        }
        if !is_own(octets[end + 2]) {
            return false;
        }
        if !is_own(octets[end + 3]) {
            return false;
        }
        end += 4;
    }
    let left = octets.len() - end;
    if left == 0 {
        return true;
    }
    if left == 1 {
        return is_own(octets[end]);
    }
    if !is_own(octets[end]) {
        return false;
    }
    if left == 2 {
        return is_own(octets[end + 1]);
    }
    if !is_own(octets[end + 1]) {
        return false;
    }
    is_own(octets[end + 2])
}

/// Returns the number of octets that stand for themselves that a text begins with, or 63 if there are more.
#[inline(always)]
#[tactic(auto, using(crate::proofs::PlainRuns::own_more, crate::proofs::PlainRuns::own_past))]
pub(crate) fn own_len(text: &[u8]) -> usize
    ensures few { result ≤ length text.now }
    ensures short { result ≤ max_label }
    ensures own { list_all is_own_octet (take result text.now) ≡ true }
    ensures most { result < max_label → is_own_octet (get_or text.now result 0) ≡ false }
{
    let most = text.len().min(MAX_LABEL);
    let mut len = 0;
    // Four octets a round take less than one.
    'fours: while most - len >= 4 {
        if !is_own(text[len]) {
            return len;
        }
        if !is_own(text[len + 1]) {
            return len + 1;
        }
        if !is_own(text[len + 2]) {
            return len + 2;
        }
        if !is_own(text[len + 3]) {
            return len + 3;
        }
        len += 4;
    }
    while len < most {
        if !is_own(text[len]) {
            return len;
        }
        len += 1;
    }
    len
}

/// Returns the number of octets that stand for themselves that a text begins with. The last octet is another one, so that the end is not
/// tested.
#[inline(always)]
#[tactic(auto, using(crate::proofs::PlainRuns::own_more, crate::proofs::PlainRuns::own_inside))]
pub(crate) fn own_run_len(text: &[u8]) -> usize
    requires some { 1 ≤ length text.now }
    requires last { is_own_octet (get_or text.now (length text.now - 1) 0) ≡ false }
    ensures few { result < length text.now }
    ensures own { list_all is_own_octet (take result text.now) ≡ true }
    ensures most { is_own_octet (get_or text.now result 0) ≡ false }
{
    let mut len = 0;
    // Four octets a round take less than one.
    'fours: loop {
        if !is_own(text[len]) {
            return len;
        }
        if !is_own(text[len + 1]) {
            return len + 1;
        }
        if !is_own(text[len + 2]) {
            return len + 2;
        }
        if !is_own(text[len + 3]) {
            return len + 3;
        }
        len += 4;
    }
}
