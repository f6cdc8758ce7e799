//! The records of a section.
ghost use Rattle.std.specs.Prelude.{◌≡◌, ◌∷◌, List, ℕ, map, slice_get, IfOk, OnOk};
ghost use Rattle.std.specs.List.{flat_map};
ghost use Rattle.std.specs.Option.{option_to_list};
ghost use Rattle.dns_names_wire.specs.Words.{dname_code, wire};
ghost use Rattle.ans_answer.specs.Answers.{records_of_type};
ghost use Rattle.ans_answer.specs.Seen.{all_labels, answer_seen, node_records, numbered_name, part_seen, parts_seen};
ghost use Rattle.ans_reply.specs.Sections.{each_once, made_aliases, part_records, section_of};
ghost use Rattle.ans_reply.specs.Inside.Roles.{sent, with_wanted};

use crate::record::{Listed, push_once};
use crate::seen::is_wanted;
use ans_answer::answer::{Answer, Part};
use ans_answer::denial::denial_ttl;
use ans_store::lookup::Node;
use ans_store::store::ZoneStore;
use dns_names_wire::type_codes::{CNAME, DNAME, SOA};
use dns_names_wire::{Name, RecordRef};
use std::alloc::{AllocError, Global};

/// As what records of the zone are sent.
#[derive(Drop)]
pub(crate) enum Role {
    /// As they are.
    Kept,
    /// As those of this name.
    Named(Name),
    /// As SOA records that deny.
    Denying,
}

/// Returns a record of the zone as it is sent.
fn sent<'a>(alloc: Global, role: &Role, record: &RecordRef<'a>) -> Listed<'a>
    ensures { result ≡ sent role.now record.now }
{
    match role {
        Role::Kept => Listed::sent_as(owner_of(alloc, record), record.ttl(), record),
        Role::Named(name) => Listed::sent_as(name.copied(), record.ttl(), record),
        Role::Denying => Listed::sent_as(owner_of(alloc, record), denial_ttl(record), record),
    }
}

/// Returns the owner of a record.
fn owner_of(alloc: Global, record: &RecordRef<'_>) -> Name
    ensures { result.labels ≡ record.now.owner }
{
    record.owner().to_name(alloc).unwrap()
}

/// Adds a record of the zone, if it is asked for.
fn add_wanted<'a>(
    alloc: Global,
    records: &mut Vec<Listed<'a>>,
    record: &RecordRef<'a>,
    code: u16,
    role: &Role,
) -> Result<(), AllocError>
    ensures { OnOk result (records.new.items ≡ with_wanted code role.now records.old.items record.now) }
{
    if !is_wanted(record, code) {
        return Ok(());
    }
    push_once(records, sent(alloc, role, record))
}

/// Adds the records of a type among those of a name.
pub(crate) fn add_set<'a>(
    alloc: Global,
    records: &mut Vec<Listed<'a>>,
    zone: &ZoneStore<'a>,
    node: Node,
    code: u16,
    role: &Role,
) -> Result<(), AllocError>
    ensures { OnOk result (records.new.items ≡ each_once records.old.items (map (sent role.now) (records_of_type code (node_records zone.now.records node)))) }
{
    let end = node.end.min(zone.len());
    'records: for number in node.start..end {
        add_wanted(alloc, records, &zone.get(number), code, role)?;
    }
    Ok(())
}

/// Returns the first record of a type among those of a name.
fn first_of<'a>(zone: &ZoneStore<'a>, node: Node, code: u16) -> Option<RecordRef<'a>>
    ensures { result ≡ slice_get (records_of_type code (node_records zone.now.records node)) 0 }
{
    let end = node.end.min(zone.len());
    'records: for number in node.start..end {
        let record = zone.get(number);
        if is_wanted(&record, code) {
            return Some(record);
        }
    }
    None
}

/// Adds the CNAME record that is made of the DNAME record of a name.
fn add_made<'a>(
    records: &mut Vec<Listed<'a>>,
    zone: &ZoneStore<'a>,
    node: Node,
    owner: Name,
    target: &'a [u8],
) -> Result<(), AllocError>
    ensures { OnOk result ((name : List (List ℕ)) → target.now ≡ wire name
        → records.new.items ≡ each_once records.old.items (made_aliases owner.labels name (slice_get (records_of_type dname_code (node_records zone.now.records node)) 0))) }
{
    let Some(record) = first_of(zone, node, DNAME) else {
        return Ok(());
    };
    let class = record.class().code();
    push_once(
        records,
        Listed::new(owner, CNAME, class, record.ttl(), target),
    )?;
    Ok(())
}

/// Returns the name of this number: that which is asked for, or one that an alias leads to.
fn name_of(alloc: Global, asked: &Name, names: &[Name], number: usize) -> Name
    ensures { result.labels ≡ numbered_name (asked.now.labels ∷ all_labels names.now) number }
{
    if number == 0 {
        return asked.copied();
    }
    match names.get(number - 1) {
        Some(name) => name.copied(),
        None => Name::root(alloc),
    }
}

/// Returns the wire form of the name to which the name of this number leads.
fn target_of<'a>(names: &'a [Name], number: usize) -> &'a [u8]
    ensures { result.now ≡ wire (numbered_name (all_labels names.now) number) }
{
    match names.get(number) {
        Some(name) => name.as_wire(),
        None => &[0],
    }
}

/// Adds the records of a part.
fn add_part<'a>(
    alloc: Global,
    records: &mut Vec<Listed<'a>>,
    zone: &ZoneStore<'a>,
    asked: &Name,
    names: &'a [Name],
    part: Part,
) -> Result<(), AllocError>
    ensures { OnOk result (records.new.items ≡ each_once records.old.items (part_records (part_seen zone.now.records (asked.now.labels ∷ all_labels names.now) part))) }
{
    match part {
        Part::Kept(node, code) => add_set(alloc, records, zone, node, code, &Role::Kept),
        Part::Named(number, node, code) => {
            let role = Role::Named(name_of(alloc, asked, names, number));
            add_set(alloc, records, zone, node, code, &role)
        }
        Part::Made(number, node) => {
            let owner = name_of(alloc, asked, names, number);
            add_made(records, zone, node, owner, target_of(names, number))
        }
        Part::Denying(node) => add_set(alloc, records, zone, node, SOA, &Role::Denying),
    }
}

/// Adds the records of parts.
fn add_parts<'a>(
    alloc: Global,
    records: &mut Vec<Listed<'a>>,
    zone: &ZoneStore<'a>,
    asked: &Name,
    names: &'a [Name],
    parts: &[Part],
) -> Result<(), AllocError>
    ensures { OnOk result (records.new.items ≡ each_once records.old.items (flat_map part_records (parts_seen zone.now.records (asked.now.labels ∷ all_labels names.now) parts.now))) }
{
    'parts: for part in parts {
        add_part(alloc, records, zone, asked, names, *part)?;
    }
    Ok(())
}

/// Adds the records of a part, if there is one.
pub(crate) fn add_some<'a>(
    alloc: Global,
    records: &mut Vec<Listed<'a>>,
    zone: &ZoneStore<'a>,
    asked: &Name,
    names: &'a [Name],
    part: Option<Part>,
) -> Result<(), AllocError>
    ensures { OnOk result (records.new.items ≡ each_once records.old.items (flat_map part_records (parts_seen zone.now.records (asked.now.labels ∷ all_labels names.now) (option_to_list part)))) }
{
    let Some(part) = part else {
        return Ok(());
    };
    add_part(alloc, records, zone, asked, names, part)?;
    Ok(())
}

/// Returns the records of the answer section.
pub(crate) fn answers_of<'a>(
    alloc: Global,
    zone: &ZoneStore<'a>,
    asked: &Name,
    answer: &'a Answer,
) -> Result<Vec<Listed<'a>>, AllocError>
    ensures { IfOk result (λ records. records.items ≡ section_of (answer_seen zone.now.records asked.now.labels answer.now).answers) }
{
    let names = answer.names.as_slice();
    let aliases = answer.aliases.as_slice();
    let mut records = Vec::new(alloc);
    add_parts(alloc, &mut records, zone, asked, names, aliases)?;
    add_some(alloc, &mut records, zone, asked, names, answer.data)?;
    Ok(records)
}

/// Returns the records of the authority section.
pub(crate) fn authorities_of<'a>(
    alloc: Global,
    zone: &ZoneStore<'a>,
    asked: &Name,
    answer: &'a Answer,
) -> Result<Vec<Listed<'a>>, AllocError>
    ensures { IfOk result (λ records. records.items ≡ section_of (option_to_list (answer_seen zone.now.records asked.now.labels answer.now).authority)) }
{
    let names = answer.names.as_slice();
    let mut records = Vec::new(alloc);
    add_some(alloc, &mut records, zone, asked, names, answer.authority)?;
    Ok(records)
}
