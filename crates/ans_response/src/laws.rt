//! What follows from the definition of meanings, for callers' proofs.
//!
//! The functions do nothing. Each is there for its clauses.
ghost use Rattle.ans_response.specs.Laws.{DataAreThere, MissingNamesHaveNoData, NoDataAreThere, OneTarget, OthersChangeNothing, ReferralsLeadDown, TargetsAreRead, ZonesDenyTheirNames};

use dns_names_wire::name::laws as names;

/// The names that data are can be read, and in one way. So a contract that holds for each such reading holds for one, and gives a
/// message one meaning.
pub fn one_target()
    ensures some { TargetsAreRead }
    ensures one { OneTarget }
{
    names::one_reading();
}

/// Records that are not in the zone, or of another class, change nothing.
pub fn others_change_nothing()
    ensures { OthersChangeNothing }
{}

/// There are data of the type asked for at a name that has data, and none at a name that is said to have none or not to exist.
pub fn data_are_there()
    ensures data { DataAreThere }
    ensures no_data { NoDataAreThere }
    ensures no_name { MissingNamesHaveNoData }
{}

/// Only a zone that is in the one that was asked, and that the name is in, says that there is nothing.
pub fn zones_deny_their_names()
    ensures { ZonesDenyTheirNames }
{}

/// A referral leads to a name below the zone, never to the zone itself, up or sideways.
pub fn referrals_lead_down()
    ensures { ReferralsLeadDown }
{}
