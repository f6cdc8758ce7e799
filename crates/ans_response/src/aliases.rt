//! Aliases, and the names that they lead to.
ghost use Rattle.std.specs.Prelude.{◌≡◌, ◌+◌, ◌<◌, ◌≤◌, ◌++◌, true, false, List, ℕ, length, take, drop, IsTrue};
ghost use Rattle.std.specs.Option.{option_map};
ghost use Rattle.dns_names_wire.specs.Words.{AreLabels, NameAt, encoded_size, put, wire};
ghost use Rattle.ans_response.specs.Counted.{AreTargets, Targets, counted_records, record_seen};
ghost use Rattle.ans_response.specs.Meanings.{agrees, by_cname, by_made, is_strictly_below, made_name, next_name, substituted};
ghost use Rattle.ans_response.specs.Seen.{alias_seen};

use crate::asked::Asked;
use crate::names::{copy_of, is_same};
use crate::reason::Reason;
use crate::sought::{Sought, first_sought};
use dns_names_wire::limits::MAX_NAME;
use dns_names_wire::message::MessageRef;
use dns_names_wire::name::laws;
use dns_names_wire::{BinDecoder, Name, NameRef, RecordRef};

/// Returns the name that a name is an alias of, if it is one (RFC 1034, section 3.6.2; RFC 6672, section 2.2).
///
/// It fails with `NoTarget` if the data of the alias are no name, and with `WrongAlias` if there is a CNAME record, and it is not the one
/// that DNAME makes.
#[tactic(auto, unfolding(crate::specs::Meanings::next_name))]
pub(crate) fn next_name(
    message: &MessageRef<'_>,
    asked: &Asked<'_>,
    name: &Name,
) -> Result<Option<Name>, Reason>
    ensures { (target : Targets) → AreTargets target
        → alias_seen result ≡ next_name asked.now (counted_records target asked.now message.now.answers) name.now.labels }
{
    let cname = first_sought(message.answers(), asked, name, Sought::Alias);
    let dname = first_sought(message.answers(), asked, name, Sought::AliasAbove);
    match dname {
        None => by_cname(name, &cname),
        Some(dname) => by_dname(name, &dname, &cname),
    }
}

/// Returns the name that a CNAME record leads to, if it is there.
fn by_cname(name: &Name, cname: &Option<RecordRef<'_>>) -> Result<Option<Name>, Reason>
    ensures { (target : Targets) → AreTargets target → alias_seen result ≡ by_cname (option_map (record_seen target) cname.now) }
{
    let Some(cname) = cname else {
        return Ok(None);
    };
    match target_of(cname) {
        None => Err(Reason::NoTarget),
        Some(target) => Ok(Some(copy_of(&target, name))),
    }
}

/// Returns the name that DNAME makes of one below it, unless a CNAME record leads elsewhere.
fn by_dname(
    name: &Name,
    dname: &RecordRef<'_>,
    cname: &Option<RecordRef<'_>>,
) -> Result<Option<Name>, Reason>
    requires { is_strictly_below dname.now.owner name.now.labels ≡ true }
    ensures { (target : Targets) → AreTargets target
        → alias_seen result ≡ by_made (option_map (record_seen target) cname.now) (made_name name.now.labels (record_seen target dname.now)) }
{
    let Some(made) = made_name(name, dname) else {
        return Err(Reason::NoTarget);
    };
    if !agrees(cname, &made) {
        return Err(Reason::WrongAlias);
    }
    Ok(Some(made))
}

/// Returns `true` if there is no CNAME record, or one that leads to a name.
fn agrees(cname: &Option<RecordRef<'_>>, made: &Name) -> bool
    ensures { (target : Targets) → AreTargets target → result ≡ agrees (option_map (record_seen target) cname.now) made.now.labels }
{
    let Some(cname) = cname else {
        return true;
    };
    match target_of(cname) {
        None => false,
        Some(target) => is_same(&target, made),
    }
}

/// Returns the name that the data of a record are, up to their end.
fn target_of<'m>(record: &RecordRef<'m>) -> Option<NameRef<'m>>
    ensures { (target : Targets) → AreTargets target → result ≡ target record.now }
{
    let mut reader = record.data_decoder();
    let Ok(name) = NameRef::read(&mut reader) else {
        return None;
    };
    if reader.is_empty() { Some(name) } else { None }
}

/// Returns the name that DNAME makes of one below its owner, or `None` if its data are no name or that name is too long.
#[tactic(auto, unfolding(crate::specs::Meanings::made_name))]
fn made_name(name: &Name, dname: &RecordRef<'_>) -> Option<Name>
    requires { is_strictly_below dname.now.owner name.now.labels ≡ true }
    ensures { (target : Targets) → AreTargets target
        → option_map (λ made. made.labels) result ≡ made_name name.now.labels (record_seen target dname.now) }
{
    let target = target_of(dname)?;
    substituted(dname.owner(), &target, name)
}

/// Returns a name with a target in place of its last labels, which are those of the owner (RFC 6672, section 2.2). Returns `None` if it
/// is too long.
fn substituted(owner: &NameRef<'_>, target: &NameRef<'_>, name: &Name) -> Option<Name>
    requires { is_strictly_below owner.now name.now.labels ≡ true }
    ensures { option_map (λ made. made.labels) result ≡ substituted owner.now target.now name.now.labels }
{
    laws::reads_back();
    let kept = kept_octets(owner, name);
    let mut octets = [0; MAX_NAME];
    name.as_name_ref().copy_wire(&mut octets).unwrap();
    if !put_after(&mut octets, kept, target) {
        return None;
    }
    Some(first_name(&octets, name))
}

/// Returns the number of octets of a name before its last labels, which are those of an owner.
fn kept_octets(owner: &NameRef<'_>, name: &Name) -> usize
    requires { is_strictly_below owner.now name.now.labels ≡ true }
    ensures kept { result + encoded_size owner.now ≡ encoded_size name.now.labels }
    ensures labels { AreLabels name.now.labels }
{
    name.encoded_len() - owner.encoded_len()
}

/// Puts the wire form of a name after some octets, if it fits.
fn put_after(octets: &mut [u8], kept: usize, name: &NameRef<'_>) -> bool
    requires { kept ≤ length octets.old }
    ensures put { IsTrue result → octets.new ≡ take kept octets.old ++ put (drop kept octets.old) (wire name.now) }
    ensures fits { IsTrue result → kept + encoded_size name.now ≤ length octets.old }
    ensures long { result ≡ false → length octets.old < kept + encoded_size name.now }
    ensures labels { AreLabels name.now }
{
    let size = name.encoded_len();
    if octets.len() - kept < size {
        return false;
    }
    name.copy_wire(&mut octets[kept..]).unwrap();
    true
}

/// Copies the name at the start of octets. It allocates nothing, as any other name has the room.
fn first_name(octets: &[u8], other: &Name) -> Name
    requires { (labels : List (List ℕ)) × (e : ℕ) × (k : ℕ) × NameAt octets.now 0 labels e k }
    ensures { (labels : List (List ℕ)) (e k : ℕ) → NameAt octets.now 0 labels e k → result.labels ≡ labels }
{
    let mut reader = BinDecoder::new(octets);
    let name = NameRef::read(&mut reader).unwrap();
    copy_of(&name, other)
}
