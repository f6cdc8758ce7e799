//! What the records of a name say of a type.
ghost use Rattle.std.specs.Prelude.{◌≡◌, ◌≤◌, length, slice_range};
ghost use Rattle.std.specs.List.{list_any};
ghost use Rattle.ans_answer.specs.Outcomes.{is_wanted, kind};

use ans_store::lookup::Node;
use ans_store::store::ZoneStore;
use dns_names_wire::type_codes::{ANY, CNAME};

/// What the records of a name say of a type.
#[derive(Debug, Clone, Copy, PartialEq, Eq)]
pub enum Kind {
    /// There are records of the type.
    Records,
    /// There are none, and the name is an alias (RFC 1034, section 3.6.2).
    Alias,
    /// There are none.
    NoData,
}

/// Returns what the records of a name say of a type.
#[tactic(auto, unfolding(crate::specs::Outcomes::kind))]
pub fn kind_of(zone: &ZoneStore<'_>, node: Node, code: u16) -> Kind
    requires ordered { node.start ≤ node.end }
    requires within { node.end ≤ length zone.now.records }
    ensures { result ≡ kind (slice_range zone.now.records node.start node.end) code }
{
    if is_answered(zone, node, code) {
        Kind::Records
    } else if zone.have_type(node, CNAME) {
        Kind::Alias
    } else {
        Kind::NoData
    }
}

/// Returns `true` if one of the records is asked for.
fn is_answered(zone: &ZoneStore<'_>, node: Node, code: u16) -> bool
    requires ordered { node.start ≤ node.end }
    requires within { node.end ≤ length zone.now.records }
    ensures { result ≡ list_any (is_wanted code) (slice_range zone.now.records node.start node.end) }
{
    if code == ANY {
        return node.start < node.end;
    }
    zone.have_type(node, code)
}
