//! Names and types, as checks of zones compare them.
ghost use Rattle.std.specs.Prelude.{◌≡◌, ◌≤◌, length, IfSome, IfNone};
ghost use Rattle.std.specs.Ordering.{is_lt};
ghost use Rattle.dnw_base.specs.Limits.{max_name};
ghost use Rattle.dnw_base.specs.RecordTypes.{type_code};
ghost use Rattle.dnw_name_order.specs.Order.{labels_cmp};
ghost use Rattle.dnw_zone_checks.specs.Checks.{OwnersAreInOrder, IsOutOfOrder, is_address, is_beside_alias, is_in, is_same};
ghost use Rattle.dnw_zone_checks.specs.Inside.Seeking.{is_sought};

use dnw_base::limits::MAX_NAME;
use dnw_base::type_codes::{A, AAAA, CNAME, DNAME, KEY, NS, NSEC, NXT, RRSIG, SIG, SOA};
use dnw_name::name::Name;
use dnw_name_form::wire_labels::{WireLabels, last_labels};
use dnw_name_order::order::cmp_labels;
use dnw_record::record_ref::RecordRef;
use std::cmp::Ordering;

/// What is looked for among the records of a name.
#[derive(Clone, Copy)]
pub(crate) enum Sought {
    /// Any record.
    Any,
    /// SOA.
    Soa,
    /// NS.
    Ns,
    /// CNAME.
    Cname,
    /// DNAME.
    Dname,
    /// An address.
    Address,
    /// A record that is not beside a CNAME record.
    NotBesideAlias,
}

/// Compares the owner of a record with a name.
pub(crate) fn cmp_owner(record: &RecordRef<'_>, name: &WireLabels<'_>) -> Ordering
    ensures { result ≡ labels_cmp record.now.owner name.now }
{
    let mut room = [0; MAX_NAME];
    cmp_labels(record.owner().wire_labels(&mut room), name.clone())
}

/// Compares the owners of two records.
pub(crate) fn cmp_owners(record: &RecordRef<'_>, other: &RecordRef<'_>) -> Ordering
    ensures { result ≡ labels_cmp record.now.owner other.now.owner }
{
    let mut room = [0; MAX_NAME];
    cmp_owner(record, &other.owner().wire_labels(&mut room))
}

/// Returns `true` if a record is sought.
pub(crate) fn is_sought(sought: Sought, record: &RecordRef<'_>) -> bool
    ensures { result ≡ is_sought sought (type_code record.now.record_type) }
{
    let code = u16::from(record.record_type());
    match sought {
        Sought::Any => true,
        Sought::Soa => code == SOA,
        Sought::Ns => code == NS,
        Sought::Cname => code == CNAME,
        Sought::Dname => code == DNAME,
        Sought::Address => is_address(code),
        Sought::NotBesideAlias => !is_beside_alias(code),
    }
}

/// Returns `true` for the types of addresses.
pub(crate) fn is_address(code: u16) -> bool
    ensures { result ≡ is_address code }
{
    code == A || code == AAAA
}

/// Returns `true` for the types that may be beside a CNAME record.
fn is_beside_alias(code: u16) -> bool
    ensures { result ≡ is_beside_alias code }
{
    matches!(code, CNAME | SIG | KEY | NXT | RRSIG | NSEC)
}

/// Returns the number of the first record whose owner is before that of the record before it.
#[tactic(auto, unfolding(crate::specs::Checks::OwnersAreInOrder))]
pub(crate) fn out_of_order(records: &[RecordRef<'_>]) -> Option<usize>
    ensures none { IfNone result (OwnersAreInOrder records.now) }
    ensures some { IfSome result (IsOutOfOrder records.now) }
{
    'records: for i in 1..records.len() {
        if is_before(&records[i], &records[i - 1]) {
            return Some(i);
        }
    }
    None
}

/// Returns `true` if the owner of a record is before that of another.
fn is_before(record: &RecordRef<'_>, other: &RecordRef<'_>) -> bool
    ensures { result ≡ is_lt (labels_cmp record.now.owner other.now.owner) }
{
    cmp_owners(record, other).is_lt()
}

/// Returns the number of labels of a zone's name.
#[tactic(auto, using(dnw_base::proofs::Wires::few_labels))]
pub(crate) fn label_count(zone: &Name) -> usize
    ensures count { result ≡ length zone.now.labels }
    ensures few { result ≤ max_name }
{
    zone.wire_labels().len()
}

/// Returns `true` if two names are the same but for ASCII case.
#[tactic(auto, unfolding(crate::specs::Checks::is_same))]
pub(crate) fn is_same(name: &WireLabels<'_>, other: &WireLabels<'_>) -> bool
    ensures { result ≡ is_same name.now other.now }
{
    cmp_labels(name.clone(), other.clone()).is_eq()
}

/// Returns `true` if a name is that of a zone.
pub(crate) fn is_apex(name: &WireLabels<'_>, zone: &Name) -> bool
    ensures { result ≡ is_same name.now zone.now.labels }
{
    is_same(name, &zone.wire_labels())
}

/// Returns `true` if a name is another or below it.
#[tactic(auto, unfolding(crate::specs::Checks::is_in))]
pub(crate) fn is_in(zone: &WireLabels<'_>, name: &WireLabels<'_>) -> bool
    ensures { result ≡ is_in zone.now name.now }
{
    is_same(&last_labels(name.clone(), zone.len()), zone)
}
