//! The records that help: the addresses of servers.
ghost use Rattle.std.specs.Prelude.{◌≡◌, List, [], ℕ, IfOk, OnOk};
ghost use Rattle.std.specs.List.{flat_map};
ghost use Rattle.std.specs.Option.{option_map, option_to_list};
ghost use Rattle.dns_names_wire.specs.Words.{RecordValue};
ghost use Rattle.ans_answer.specs.Additionals.{addresses, server};
ghost use Rattle.ans_answer.specs.Answers.{Named, records_of_type};
ghost use Rattle.ans_answer.specs.Seen.{all_labels, answer_seen, node_records, part_seen};
ghost use Rattle.ans_reply.specs.Sections.{address_parts, each_once, helping_parts, is_referral, part_records, section_of, servers_of, with_server};
ghost use Rattle.ans_reply.specs.Inside.Roles.{owned_in, with_wanted_server};

use crate::record::Listed;
use crate::section::{Role, add_set};
use crate::seen::{ANY, is_met, is_wanted};
use ans_answer::additional::{addresses_of, server_of};
use ans_answer::answer::{Answer, Part};
use ans_store::lookup::Node;
use ans_store::store::ZoneStore;
use dns_names_wire::type_codes::{A, AAAA};
use dns_names_wire::{Name, RecordRef};
use std::alloc::{AllocError, Global};

/// Adds the server that a record names, unless it is there.
fn add_server(
    alloc: Global,
    servers: &mut Vec<Name>,
    record: &RecordRef<'_>,
) -> Result<(), AllocError>
    ensures { OnOk result (all_labels servers.new.items ≡ with_server (all_labels servers.old.items) (server record.now)) }
{
    let Some(server) = server_of(alloc, record) else {
        return Ok(());
    };
    if !is_met(servers.as_slice(), &server) {
        servers.push(server)?;
    }
    Ok(())
}

/// Adds the server that a record names, if it is asked for.
fn add_wanted_server(
    alloc: Global,
    servers: &mut Vec<Name>,
    record: &RecordRef<'_>,
    code: u16,
) -> Result<(), AllocError>
    ensures { OnOk result (all_labels servers.new.items ≡ with_wanted_server code (all_labels servers.old.items) record.now) }
{
    if !is_wanted(record, code) {
        return Ok(());
    }
    add_server(alloc, servers, record)
}

/// Adds the servers that the records of a type name, among those of a name.
fn add_servers_in(
    alloc: Global,
    servers: &mut Vec<Name>,
    zone: &ZoneStore<'_>,
    node: Node,
    code: u16,
) -> Result<(), AllocError>
    ensures { OnOk result (all_labels servers.new.items ≡ servers_of (all_labels servers.old.items) (records_of_type code (node_records zone.now.records node))) }
{
    let end = node.end.min(zone.len());
    'records: for number in node.start..end {
        add_wanted_server(alloc, servers, &zone.get(number), code)?;
    }
    Ok(())
}

/// Adds the servers that the records of a part name.
fn add_servers(
    alloc: Global,
    servers: &mut Vec<Name>,
    zone: &ZoneStore<'_>,
    part: Part,
) -> Result<(), AllocError>
    ensures { OnOk result (all_labels servers.new.items ≡ servers_of (all_labels servers.old.items) (owned_in zone.now.records part)) }
{
    match part {
        Part::Kept(node, code) => add_servers_in(alloc, servers, zone, node, code),
        Part::Named(_, node, code) => add_servers_in(alloc, servers, zone, node, code),
        Part::Made(..) => Ok(()),
        Part::Denying(_) => Ok(()),
    }
}

/// Adds the servers that the records of parts name.
fn add_all_servers(
    alloc: Global,
    servers: &mut Vec<Name>,
    zone: &ZoneStore<'_>,
    parts: &[Part],
) -> Result<(), AllocError>
    ensures { OnOk result (all_labels servers.new.items ≡ servers_of (all_labels servers.old.items) (flat_map (owned_in zone.now.records) parts.now)) }
{
    'parts: for part in parts {
        add_servers(alloc, servers, zone, *part)?;
    }
    Ok(())
}

/// Adds the servers that the records of a part name, if there is one.
fn add_some_servers(
    alloc: Global,
    servers: &mut Vec<Name>,
    zone: &ZoneStore<'_>,
    part: Option<Part>,
) -> Result<(), AllocError>
    ensures { OnOk result (all_labels servers.new.items ≡ servers_of (all_labels servers.old.items) (flat_map (owned_in zone.now.records) (option_to_list part))) }
{
    let Some(part) = part else {
        return Ok(());
    };
    add_servers(alloc, servers, zone, part)
}

/// Returns the servers that the records of an answer name, each once.
fn named_servers(
    alloc: Global,
    zone: &ZoneStore<'_>,
    answer: &Answer,
) -> Result<Vec<Name>, AllocError>
    ensures { IfOk result (λ servers. all_labels servers.items
        ≡ servers_of (servers_of (servers_of [] (flat_map (owned_in zone.now.records) answer.now.aliases.items)) (flat_map (owned_in zone.now.records) (option_to_list answer.now.data)))
        (flat_map (owned_in zone.now.records) (option_to_list answer.now.authority))) }
{
    let mut servers = Vec::new(alloc);
    add_all_servers(alloc, &mut servers, zone, answer.aliases.as_slice())?;
    add_some_servers(alloc, &mut servers, zone, answer.data)?;
    add_some_servers(alloc, &mut servers, zone, answer.authority)?;
    Ok(servers)
}

/// Returns `true` if the authority section has the servers of a delegation.
fn is_referral(authority: Option<Part>) -> bool
    ensures { (records : List RecordValue) (names : List (List (List ℕ))) → result ≡ is_referral (option_map (part_seen records names) authority) }
{
    match authority {
        Some(Part::Kept(_, _)) => true,
        Some(Part::Named(_, _, _)) => false,
        Some(Part::Made(_, _)) => false,
        Some(Part::Denying(_)) => false,
        None => false,
    }
}

/// Adds the addresses of one type of a server.
fn add_addresses<'a>(
    alloc: Global,
    records: &mut Vec<Listed<'a>>,
    zone: &ZoneStore<'a>,
    is_referral: bool,
    server: &Name,
    code: u16,
) -> Result<(), AllocError>
    ensures { OnOk result (records.new.items ≡ each_once records.old.items (part_records (Named server.now.labels (addresses zone.now is_referral server.now.labels code)))) }
{
    let Some(node) = addresses_of(zone, is_referral, server, code) else {
        return Ok(());
    };
    let role = Role::Named(server.copied());
    add_set(alloc, records, zone, node, code, &role)
}

/// Adds the addresses of a server.
fn add_server_addresses<'a>(
    alloc: Global,
    records: &mut Vec<Listed<'a>>,
    zone: &ZoneStore<'a>,
    is_referral: bool,
    server: &Name,
) -> Result<(), AllocError>
    ensures { OnOk result (records.new.items ≡ each_once records.old.items (flat_map part_records (address_parts zone.now is_referral server.now.labels))) }
{
    add_addresses(alloc, records, zone, is_referral, server, A)?;
    add_addresses(alloc, records, zone, is_referral, server, AAAA)?;
    Ok(())
}

/// Adds the addresses of servers.
fn add_all_addresses<'a>(
    alloc: Global,
    records: &mut Vec<Listed<'a>>,
    zone: &ZoneStore<'a>,
    is_referral: bool,
    servers: &[Name],
) -> Result<(), AllocError>
    ensures { OnOk result (records.new.items ≡ each_once records.old.items (flat_map part_records (flat_map (address_parts zone.now is_referral) (all_labels servers.now)))) }
{
    'servers: for server in servers {
        add_server_addresses(alloc, records, zone, is_referral, server)?;
    }
    Ok(())
}

/// Returns the records of the additional section.
pub(crate) fn additionals_of<'a>(
    alloc: Global,
    zone: &ZoneStore<'a>,
    asked: &Name,
    code: u16,
    answer: &Answer,
) -> Result<Vec<Listed<'a>>, AllocError>
    ensures { IfOk result (λ records. records.items ≡ section_of (helping_parts zone.now code (answer_seen zone.now.records asked.now.labels answer.now))) }
{
    let mut records = Vec::new(alloc);
    if code == ANY {
        return Ok(records);
    }
    let servers = named_servers(alloc, zone, answer)?;
    let is_referral = is_referral(answer.authority);
    add_all_addresses(alloc, &mut records, zone, is_referral, servers.as_slice())?;
    Ok(records)
}
