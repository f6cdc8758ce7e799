//! The types that NSEC records list.
ghost use Rattle.std.specs.Prelude.{◌≡◌};
ghost use Rattle.ans_denial.specs.Nsecs.{is_of_delegation, lists, sends_below};
ghost use Rattle.ans_denial.specs.Seen.{codes};

use dns_names_wire::RecordTypeSet;
use dns_names_wire::type_codes::{DNAME, NS, SOA};

/// Returns `true` if a type is listed.
pub(crate) fn lists(types: &RecordTypeSet, code: u16) -> bool
    ensures { result ≡ lists (codes types.now.types) code }
{
    let mut left = types.iter();
    'types: while let Some(listed) = left.next() {
        if listed.code() == code {
            return true;
        }
    }
    false
}

/// Returns `true` if the types are those of a delegation, as its parent sees it.
#[tactic(auto, unfolding(crate::specs::Nsecs::is_of_delegation))]
pub(crate) fn is_of_delegation(types: &RecordTypeSet) -> bool
    ensures { result ≡ is_of_delegation (codes types.now.types) }
{
    lists(types, NS) && !lists(types, SOA)
}

/// Returns `true` if the names below one with these types are sent away from it.
#[tactic(auto, unfolding(crate::specs::Nsecs::sends_below))]
pub(crate) fn sends_below(types: &RecordTypeSet) -> bool
    ensures { result ≡ sends_below (codes types.now.types) }
{
    is_of_delegation(types) || lists(types, DNAME)
}
