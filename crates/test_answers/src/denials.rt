//! What the NSEC records that a server sent with an answer prove. The zone was signed by dnssec-signzone 9.18 and served by named 9.18: the
//! rows say of each question which records named sent, and what its answer said.

use ans_denial::denial::{Denial, closest_encloser, denial_of};
use ans_denial::nsec::Nsec;
use dns_names_wire::{Name, RecordType, RecordTypeSet};
use std::alloc::Global;
use std::test::Fail;

/// The NSEC records of the zone: owner, next name and types, without RRSIG and NSEC.
const CHAIN: [(&str, &str, &[u16]); 14] = [
    ("a.test.", "*.a.test.", &[2, 6, 48]),
    ("*.a.test.", "alias.a.test.", &[16]),
    ("alias.a.test.", "*.b.a.test.", &[5]),
    ("*.b.a.test.", "x.b.a.test.", &[15]),
    ("x.b.a.test.", "d.a.test.", &[16]),
    ("d.a.test.", "e.e.a.test.", &[39]),
    ("e.e.a.test.", "f.a.test.", &[1]),
    ("f.a.test.", "ns.a.test.", &[16]),
    ("ns.a.test.", "*.s.a.test.", &[1]),
    ("*.s.a.test.", "sub.a.test.", &[5]),
    ("sub.a.test.", "uns.a.test.", &[2, 43]),
    ("uns.a.test.", "*.W.a.test.", &[2]),
    ("*.W.a.test.", "y.*.W.a.test.", &[1]),
    ("y.*.w.a.test.", "a.test.", &[1]),
];

/// Names and types that were asked, the numbers of the records that came, and what the answers said.
const ROWS: [(&str, u16, &[usize], &str); 23] = [
    ("a.test.", 1, &[0], "no data"),
    ("q.a.test.", 1, &[1, 8], "no data"),
    ("p.q.a.test.", 1, &[1, 8], "no data"),
    ("b.a.test.", 1, &[2], "no data"),
    ("y.b.a.test.", 1, &[3, 4], "no data"),
    ("x.b.a.test.", 1, &[4], "no data"),
    ("z.x.b.a.test.", 1, &[4], "no name"),
    ("d.a.test.", 1, &[5], "no data"),
    ("e.a.test.", 1, &[5], "no data"),
    ("q.e.a.test.", 1, &[5, 6], "no name"),
    ("e.e.a.test.", 2, &[6], "no data"),
    ("f.a.test.", 1, &[7], "no data"),
    ("g.f.a.test.", 1, &[7], "no name"),
    ("s.a.test.", 1, &[8], "no data"),
    ("uns.a.test.", 43, &[11], "insecure"),
    ("w.a.test.", 1, &[11], "no data"),
    ("q.w.a.test.", 2, &[12, 13], "no data"),
    ("*.w.a.test.", 2, &[12], "no data"),
    ("y.*.w.a.test.", 2, &[13], "no data"),
    ("z.*.w.a.test.", 1, &[12, 13], "no name"),
    ("zz.f.a.test.", 1, &[7], "no name"),
    ("*.a.test.", 1, &[1], "no data"),
    ("x.*.a.test.", 1, &[1], "no name"),
];

/// Names and types that are there, or that the zone sends away: the whole chain proves nothing of them.
const UNPROVED: [(&str, u16); 7] = [
    ("alias.a.test.", 1),
    ("q.a.test.", 16),
    ("sub.a.test.", 1),
    ("x.sub.a.test.", 43),
    ("x.uns.a.test.", 1),
    ("x.d.a.test.", 1),
    ("a.test.", 43),
];

/// The records of the zone, with names in memory.
#[derive(Drop)]
struct Chain {
    owners: Vec<Name>,
    nexts: Vec<Name>,
    sets: Vec<RecordTypeSet>,
}

/// Returns the records of the zone.
fn signed_chain(alloc: Global) -> Result<Chain, Fail> {
    let mut owners = Vec::new(alloc);
    let mut nexts = Vec::new(alloc);
    let mut sets = Vec::new(alloc);
    for (owner, next, codes) in CHAIN {
        owners.push(Name::from_ascii(alloc, owner)?)?;
        nexts.push(Name::from_ascii(alloc, next)?)?;
        let mut types = Vec::new(alloc);
        for code in codes {
            types.push(RecordType::from(*code))?;
        }
        types.push(RecordType::RRSIG)?;
        types.push(RecordType::NSEC)?;
        sets.push(RecordTypeSet::new(alloc, types)?)?;
    }
    Ok(Chain {
        owners,
        nexts,
        sets,
    })
}

/// Returns the records with these numbers.
fn records<'a>(alloc: Global, chain: &'a Chain, numbers: &[usize]) -> Result<Vec<Nsec<'a>>, Fail> {
    let mut nsecs = Vec::new(alloc);
    for number in numbers {
        let (Some(owner), Some(next), Some(types)) = (
            chain.owners.as_slice().get(*number),
            chain.nexts.as_slice().get(*number),
            chain.sets.as_slice().get(*number),
        ) else {
            continue;
        };
        nsecs.push(Nsec { owner, next, types })?;
    }
    Ok(nsecs)
}

/// Returns a word for what is proved.
fn word(denial: Denial) -> &'static str {
    match denial {
        Denial::NoName => "no name",
        Denial::NoData | Denial::NoWildcardData => "no data",
        Denial::Insecure => "insecure",
        Denial::Nothing(_) => "nothing",
    }
}

#[test]
fn records_that_a_server_sent_prove_what_it_said(rt: HostRuntime) -> Result<(), Fail> {
    let alloc = rt.alloc();
    let chain = signed_chain(alloc)?;
    let apex = Name::from_ascii(alloc, "A.test.")?;
    for (name, code, numbers, wanted) in ROWS {
        let name = Name::from_ascii(alloc, name)?;
        let nsecs = records(alloc, &chain, numbers)?;
        assert_eq!(rt;
            word(denial_of(nsecs.as_slice(), &name, code, &apex)),
            wanted
        );
    }
    Ok(())
}

#[test]
fn a_chain_proves_nothing_of_what_is_there_or_sent_away(rt: HostRuntime) -> Result<(), Fail> {
    let alloc = rt.alloc();
    let chain = signed_chain(alloc)?;
    let apex = Name::from_ascii(alloc, "a.test.")?;
    let nsecs = records(
        alloc,
        &chain,
        &[0, 1, 2, 3, 4, 5, 6, 7, 8, 9, 10, 11, 12, 13],
    )?;
    for (name, code) in UNPROVED {
        let name = Name::from_ascii(alloc, name)?;
        assert_eq!(rt;
            word(denial_of(nsecs.as_slice(), &name, code, &apex)),
            "nothing"
        );
    }
    Ok(())
}

#[test]
fn the_record_beside_a_wildcards_answer_proves_the_labels_that_its_rrsig_counts(
    rt: HostRuntime,
) -> Result<(), Fail> {
    let alloc = rt.alloc();
    let chain = signed_chain(alloc)?;
    let apex = Name::from_ascii(alloc, "a.test.")?;
    let nsecs = records(alloc, &chain, &[4, 8])?;
    for (name, labels) in [("y.b.a.test.", 3), ("q.a.test.", 2), ("p.q.a.test.", 2)] {
        let name = Name::from_ascii(alloc, name)?;
        assert_eq!(rt;
            closest_encloser(nsecs.as_slice(), &name, &apex),
            Some(labels)
        );
    }
    Ok(())
}
