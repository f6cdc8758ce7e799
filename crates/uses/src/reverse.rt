//! Finds the net of a reverse name.
ghost use Rattle.std.specs.Prelude.{IfSome, IfNone};
ghost use Rattle.dns_names_wire.specs.Words.{ArpaPrefix, GivesPrefix, IsNetOf};

use dns_names_wire::name::names_give_prefixes;
use dns_names_wire::{IpNet, Name};

/// Returns the net that a reverse name stands for, or `None` if the name gives no prefix of an address (RFC 1035, section 3.5;
/// RFC 3596, section 2.5).
#[tactic(auto, using(crate::proofs::ReverseNames::gives_some))]
pub fn net_of(name: &Name) -> Option<IpNet>
    ensures some { IfSome result (λ net. (prefix : ArpaPrefix) × GivesPrefix name.now prefix × IsNetOf prefix net) }
    ensures none { IfNone result ((prefix : ArpaPrefix) → ¬ (GivesPrefix name.now prefix)) }
{
    names_give_prefixes();
    name.parse_arpa_name().ok()
}
