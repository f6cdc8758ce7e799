//! What the NSEC3 records that a server sent with an answer prove. The zones were signed by dnssec-signzone 9.18 and served by named 9.18: the
//! rows say of each question which records named sent, and what its answer said.

use ans_denial::denial::{Denial, Reason, denial_by_hashes};
use ans_denial::nsec3::{Hashing, Nsec3, hash_count, is_expansion};
use dns_names_wire::field_text::parse_hash;
use dns_names_wire::{Name, RecordType, RecordTypeSet};
use std::alloc::Global;
use std::test::Fail;

/// The NSEC3 records of the zone: hash, next hash and types.
const CHAIN: [(&str, &str, &[u16]); 18] = [
    (
        "0bara33m0k7hiuupod45kf9jfpl4e6d8",
        "4iqt36h7v6g24mn47r44r0qc0s201oa9",
        &[1, 46],
    ),
    (
        "4iqt36h7v6g24mn47r44r0qc0s201oa9",
        "7eh4jtvvgkropimouvlkkmaos6j7rpep",
        &[16, 46],
    ),
    (
        "7eh4jtvvgkropimouvlkkmaos6j7rpep",
        "8fp99v3tvdt70k5e87coqdmt9qcfto9q",
        &[2, 43, 46],
    ),
    (
        "8fp99v3tvdt70k5e87coqdmt9qcfto9q",
        "a8bu0arutsuvi7scio780seu07hm5tbb",
        &[1, 46],
    ),
    (
        "a8bu0arutsuvi7scio780seu07hm5tbb",
        "bt2roicb57m8n164nhnqqffqhu9eubf9",
        &[],
    ),
    (
        "bt2roicb57m8n164nhnqqffqhu9eubf9",
        "cs5ob6oefqk186i1j7c3vr3nhvbabsm4",
        &[],
    ),
    (
        "cs5ob6oefqk186i1j7c3vr3nhvbabsm4",
        "dog0qg28aaklvsp7aid4snrbbgqushls",
        &[1, 46],
    ),
    (
        "dog0qg28aaklvsp7aid4snrbbgqushls",
        "e1kl0phn2hc0frc6clc9snceh8aa04mi",
        &[],
    ),
    (
        "e1kl0phn2hc0frc6clc9snceh8aa04mi",
        "ehaoop6jhs45bkj4n2v9gifnop1vu653",
        &[16, 46],
    ),
    (
        "ehaoop6jhs45bkj4n2v9gifnop1vu653",
        "hn8ocn3elkmbr2to8d4v1ac92kik1iev",
        &[5, 46],
    ),
    (
        "hn8ocn3elkmbr2to8d4v1ac92kik1iev",
        "k67iaqft4n3kgir5b2g4dulpdnf7f5cl",
        &[],
    ),
    (
        "k67iaqft4n3kgir5b2g4dulpdnf7f5cl",
        "lb7652htjbj28nuts7apardkhvr38hqs",
        &[5, 46],
    ),
    (
        "lb7652htjbj28nuts7apardkhvr38hqs",
        "m5am3fvq8ms0iv8k0i2tlm6usnr1cs94",
        &[2],
    ),
    (
        "m5am3fvq8ms0iv8k0i2tlm6usnr1cs94",
        "n8m2jol2m4a07htpmp70qrge8up1savr",
        &[15, 46],
    ),
    (
        "n8m2jol2m4a07htpmp70qrge8up1savr",
        "qkc8sogkv628kbe2g4sprif01urnc75b",
        &[16, 46],
    ),
    (
        "qkc8sogkv628kbe2g4sprif01urnc75b",
        "s0ehgp8m0ns58q4ivcrucjitr7h88rs6",
        &[1, 46],
    ),
    (
        "s0ehgp8m0ns58q4ivcrucjitr7h88rs6",
        "tdkchbq7074flr9kc00imjcaipaqmvb1",
        &[2, 6, 46, 48, 51],
    ),
    (
        "tdkchbq7074flr9kc00imjcaipaqmvb1",
        "0bara33m0k7hiuupod45kf9jfpl4e6d8",
        &[39, 46],
    ),
];

/// Those that came from the zone that leaves delegations without DS records out, when DS of `uns.a.test.` was asked.
const OPT_OUT: [(&str, &str, &[u16]); 2] = [
    (
        "egsha6ge3ji35edojbk05a41a4e2jkr9",
        "el241dv5req76cjitonnvkk5gp6fktec",
        &[2, 6, 46, 48, 51],
    ),
    (
        "f8b8bjj4e14a92okaskqlu96bq6vi57q",
        "k7vqchk65jur5uvmqm7h48ath4kdn3km",
        &[39, 46],
    ),
];

/// Names and types that were asked, the numbers of the records that came, and what the answers said.
const ROWS: [(&str, u16, &[usize], &str); 23] = [
    ("a.test.", 1, &[16], "no data"),
    ("q.a.test.", 1, &[14, 15, 16], "no data"),
    ("p.q.a.test.", 1, &[14, 15, 16], "no data"),
    ("b.a.test.", 1, &[7], "no data"),
    ("y.b.a.test.", 1, &[5, 7, 13], "no data"),
    ("x.b.a.test.", 1, &[1], "no data"),
    ("z.x.b.a.test.", 1, &[1, 5], "no name"),
    ("d.a.test.", 1, &[17], "no data"),
    ("e.a.test.", 1, &[10], "no data"),
    ("q.e.a.test.", 1, &[10, 14], "no name"),
    ("e.e.a.test.", 2, &[15], "no data"),
    ("f.a.test.", 1, &[8], "no data"),
    ("g.f.a.test.", 1, &[8, 16, 17], "no name"),
    ("s.a.test.", 1, &[5], "no data"),
    ("uns.a.test.", 43, &[12], "insecure"),
    ("w.a.test.", 1, &[4], "no data"),
    ("q.w.a.test.", 2, &[3, 4, 6], "no data"),
    ("*.w.a.test.", 2, &[6], "no data"),
    ("y.*.w.a.test.", 2, &[0], "no data"),
    ("z.*.w.a.test.", 1, &[1, 6, 10], "no name"),
    ("zz.f.a.test.", 1, &[8, 16], "no name"),
    ("*.a.test.", 1, &[14], "no data"),
    ("x.*.a.test.", 1, &[0, 14], "no name"),
];

/// Names that a wildcard answered for, the number of the record beside it, and what the RRSIG counted.
const WILD: [(&str, usize, u8); 4] = [
    ("q.a.test.", 15, 2),
    ("p.q.a.test.", 15, 2),
    ("y.b.a.test.", 5, 3),
    ("q.s.a.test.", 9, 3),
];

/// How the zone's names are hashed.
const HASHING: Hashing<'static> = Hashing {
    salt: &[0xaa, 0xbb],
    iterations: 1,
    most_iterations: 50,
    most_hashes: 16,
};

/// A record with its own memory.
#[derive(Drop)]
struct Owned {
    own: Vec<u8>,
    next: Vec<u8>,
    types: RecordTypeSet,
}

/// Returns the records with these numbers.
fn records(
    alloc: Global,
    chain: &[(&str, &str, &[u16])],
    numbers: &[usize],
) -> Result<Vec<Owned>, Fail> {
    let mut records = Vec::new(alloc);
    for number in numbers {
        let Some((own, next, codes)) = chain.get(*number) else {
            continue;
        };
        let mut record = Owned {
            own: Vec::new(alloc),
            next: Vec::new(alloc),
            types: RecordTypeSet::new(alloc, types_of(alloc, codes)?)?,
        };
        parse_hash(own, &mut record.own)?;
        parse_hash(next, &mut record.next)?;
        records.push(record)?;
    }
    Ok(records)
}

/// Returns the types with these codes.
fn types_of(alloc: Global, codes: &[u16]) -> Result<Vec<RecordType>, Fail> {
    let mut types = Vec::new(alloc);
    for code in codes {
        types.push(RecordType::from(*code))?;
    }
    Ok(types)
}

/// Returns the records as they are given.
fn borrowed<'a>(
    alloc: Global,
    records: &'a [Owned],
    opt_out: bool,
) -> Result<Vec<Nsec3<'a>>, Fail> {
    let mut nsecs = Vec::new(alloc);
    for record in records {
        nsecs.push(Nsec3 {
            own: record.own.as_slice(),
            next: record.next.as_slice(),
            opt_out,
            types: &record.types,
        })?;
    }
    Ok(nsecs)
}

/// Returns a word for what is proved.
fn word(denial: Denial) -> &'static str {
    match denial {
        Denial::NoName => "no name",
        Denial::NoData | Denial::NoWildcardData => "no data",
        Denial::Insecure => "insecure",
        Denial::Nothing(Reason::OptOut) => "opt-out",
        Denial::Nothing(Reason::TooManyIterations) => "iterations",
        Denial::Nothing(Reason::TooManyHashes) => "hashes",
        Denial::Nothing(_) => "nothing",
    }
}

#[test]
fn hashed_records_that_a_server_sent_prove_what_it_said(rt: HostRuntime) -> Result<(), Fail> {
    let alloc = rt.alloc();
    let apex = Name::from_ascii(alloc, "A.test.")?;
    for (name, code, numbers, wanted) in ROWS {
        let name = Name::from_ascii(alloc, name)?;
        let owned = records(alloc, &CHAIN, numbers)?;
        let nsecs = borrowed(alloc, owned.as_slice(), false)?;
        assert_eq!(rt;
            word(denial_by_hashes(nsecs.as_slice(), &HASHING, &name, code, &apex)),
            wanted
        );
    }
    Ok(())
}

#[test]
fn a_delegation_that_may_be_left_out_is_not_denied(rt: HostRuntime) -> Result<(), Fail> {
    let alloc = rt.alloc();
    let apex = Name::from_ascii(alloc, "a.test.")?;
    let name = Name::from_ascii(alloc, "uns.a.test.")?;
    let owned = records(alloc, &OPT_OUT, &[0, 1])?;
    let nsecs = borrowed(alloc, owned.as_slice(), true)?;
    let hashing = Hashing {
        salt: &[],
        iterations: 0,
        most_iterations: 0,
        most_hashes: 16,
    };
    assert_eq!(rt;
        word(denial_by_hashes(nsecs.as_slice(), &hashing, &name, 43, &apex)),
        "opt-out"
    );
    Ok(())
}

#[test]
fn the_hashed_record_beside_a_wildcards_answer_proves_it(rt: HostRuntime) -> Result<(), Fail> {
    let alloc = rt.alloc();
    let apex = Name::from_ascii(alloc, "a.test.")?;
    for (name, number, labels) in WILD {
        let name = Name::from_ascii(alloc, name)?;
        let owned = records(alloc, &CHAIN, &[number])?;
        let nsecs = borrowed(alloc, owned.as_slice(), false)?;
        assert_eq!(rt;
            is_expansion(nsecs.as_slice(), &HASHING, &name, labels, &apex),
            true
        );
    }
    Ok(())
}

#[test]
fn more_than_the_caller_allows_proves_nothing(rt: HostRuntime) -> Result<(), Fail> {
    let alloc = rt.alloc();
    let apex = Name::from_ascii(alloc, "a.test.")?;
    let name = Name::from_ascii(alloc, "z.x.b.a.test.")?;
    let owned = records(alloc, &CHAIN, &[1, 5])?;
    let nsecs = borrowed(alloc, owned.as_slice(), false)?;
    let few = Hashing {
        most_iterations: 0,
        ..HASHING
    };
    assert_eq!(rt;
        word(denial_by_hashes(nsecs.as_slice(), &few, &name, 1, &apex)),
        "iterations"
    );
    assert_eq!(rt; hash_count(&name, &apex), 6);
    let few = Hashing {
        most_hashes: 5,
        ..HASHING
    };
    assert_eq!(rt;
        word(denial_by_hashes(nsecs.as_slice(), &few, &name, 1, &apex)),
        "hashes"
    );
    Ok(())
}
