//! What a zone says of names, with delegations, aliases, wildcards and names without records. named, nsd and knotd answered so.

use ans_answer::kind::{Kind, kind_of};
use ans_answer::outcome::{Outcome, outcome_of};
use ans_store::lookup::Node;
use ans_store::store::ZoneStore;
use dns_names_wire::Name;
use dns_names_wire::data_text::parse_record;
use std::alloc::Global;
use std::test::Fail;

/// The zone `a.test.`, by its records in canonical order of their owners.
const ZONE: [&str; 15] = [
    "a.test. 60 SOA ns.a.test. h.a.test. 1 2 3 4 5",
    "a.test. 60 NS ns.a.test.",
    "*.a.test. 60 TXT x",
    "alias.a.test. 60 CNAME ns.a.test.",
    "*.b.a.test. 60 MX 5 ns.a.test.",
    "x.b.a.test. 60 TXT x",
    "d.a.test. 60 DNAME b.a.test.",
    "e.e.a.test. 60 A 192.0.2.1",
    "ns.a.test. 60 A 192.0.2.1",
    "*.s.a.test. 60 CNAME ns.a.test.",
    "sub.a.test. 60 NS ns.sub.a.test.",
    "sub.a.test. 60 DS 1 13 2 abababababababababababababababababababababababababababababababab",
    "ns.sub.a.test. 60 A 192.0.2.3",
    "*.W.a.test. 60 A 192.0.2.4",
    "y.*.w.a.test. 60 A 192.0.2.5",
];

/// Names and types that were asked, and what the answers said.
const ROWS: [(&str, u16, &str); 28] = [
    ("a.test.", 6, "records"),
    ("A.TEST.", 1, "no data"),
    ("q.a.test.", 16, "records"),
    ("q.a.test.", 1, "no data"),
    ("p.q.a.test.", 16, "records"),
    ("alias.a.test.", 1, "alias"),
    ("alias.a.test.", 5, "records"),
    ("b.a.test.", 1, "no data"),
    ("y.b.a.test.", 15, "records"),
    ("x.b.a.test.", 15, "no data"),
    ("z.x.b.a.test.", 15, "no name"),
    ("d.a.test.", 1, "no data"),
    ("d.a.test.", 39, "records"),
    ("x.d.a.test.", 1, "redirect"),
    ("e.a.test.", 1, "no data"),
    ("q.e.a.test.", 1, "no name"),
    ("E.e.a.test.", 1, "records"),
    ("q.s.a.test.", 1, "alias"),
    ("sub.a.test.", 2, "referral"),
    ("sub.a.test.", 43, "records"),
    ("sub.a.test.", 1, "referral"),
    ("x.sub.a.test.", 43, "referral"),
    ("ns.sub.a.test.", 1, "referral"),
    ("q.w.a.test.", 1, "records"),
    ("y.*.w.a.test.", 1, "records"),
    ("z.*.w.a.test.", 1, "no name"),
    ("*.w.a.test.", 1, "records"),
    ("a.b.", 1, "outside"),
];

/// Returns the octets of records, by their lines.
pub(crate) fn octets_of(alloc: Global, lines: &[&str]) -> Result<Vec<u8>, Fail> {
    let mut octets = Vec::new(alloc);
    for line in lines {
        octets.extend_from_slice(parse_record(alloc, line, None)?.as_slice())?;
    }
    Ok(octets)
}

/// Returns a word for what records say of a type.
fn kind_word(zone: &ZoneStore<'_>, node: Node, code: u16) -> &'static str {
    match kind_of(zone, node, code) {
        Kind::Records => "records",
        Kind::Alias => "alias",
        Kind::NoData => "no data",
    }
}

/// Returns a word for what a zone says of a name and a type.
fn word(zone: &ZoneStore<'_>, name: &Name, code: u16) -> &'static str {
    match outcome_of(zone, name, code) {
        Outcome::Outside => "outside",
        Outcome::Referral(_) => "referral",
        Outcome::Redirect(_) => "redirect",
        Outcome::Exact(node) | Outcome::Synthesised(node) => kind_word(zone, node, code),
        Outcome::NoName => "no name",
    }
}

#[test]
fn each_name_has_the_outcome_that_servers_give_it(rt: HostRuntime) -> Result<(), Fail> {
    let alloc = rt.alloc();
    let octets = octets_of(alloc, &ZONE)?;
    let apex = Name::from_ascii(alloc, "A.test.")?;
    let zone = ZoneStore::load(alloc, apex, octets.as_slice())?;
    for (name, code, wanted) in ROWS {
        let name = Name::from_ascii(alloc, name)?;
        assert_eq!(rt; word(&zone, &name, code), wanted);
    }
    Ok(())
}
