//! Checks of zones. What is found is worked by hand from the RFCs that `zone::Check` names; `named-checkzone` and `kzonecheck` say the
//! same of such zones.

use dns_names_wire::binary::BinDecodable;
use dns_names_wire::data_text::parse_record;
use dns_names_wire::name::Name;
use dns_names_wire::record::RecordRef;
use dns_names_wire::zone::{Check, CheckError, Finding, check_zone};
use std::alloc::Global;
use std::test::Fail;

/// Returns what the zone `a.` is found to have, by the lines of its records.
fn found(alloc: Global, lines: &[&str]) -> Result<Result<Vec<Finding>, CheckError>, Fail> {
    let mut octets = Vec::new(alloc);
    for line in lines {
        octets.push(parse_record(alloc, line, None)?)?;
    }
    let mut records = Vec::new(alloc);
    for wire in &octets {
        records.push(RecordRef::from_bytes(alloc, wire.as_slice())?)?;
    }
    let zone = Name::from_ascii(alloc, "A.")?;
    Ok(check_zone(alloc, &zone, records.as_slice()))
}

/// Returns a finding of a record.
fn of_record(check: Check, number: usize, other: Option<usize>) -> Finding {
    Finding {
        check,
        number: Some(number),
        other,
    }
}

#[test]
fn each_check_finds_its_records(rt: HostRuntime) -> Result<(), Fail> {
    let lines = [
        "a. 60 SOA ns.a. h.a. 1 2 3 4 5",
        "a. 60 SOA ns.a. h.a. 2 2 3 4 5",
        "a. 60 NS ns.a.",
        "A. 60 NS lost.a.",
        "c.a. 60 CNAME ns.a.",
        "c.a. 60 TXT x",
        "d.a. 60 DNAME b.",
        "x.d.a. 60 TXT x",
        "ds.a. 60 DS 1 13 1 0000000000000000000000000000000000000000",
        "m.a. 60 MX 5 c.a.",
        "n_s.a. 60 A 192.0.2.1",
        "ns.a. 60 A 192.0.2.1",
        "ns.a. 61 A 192.0.2.2",
        "s.a. 60 SOA ns.a. h.a. 1 2 3 4 5",
        "sub.a. 60 NS sub.a.",
        "sub.a. 60 A 192.0.2.3",
        "x.sub.a. 60 TXT x",
        "z.a. 60 CH TXT x",
        "b. 60 TXT x",
    ];
    let wanted = [
        of_record(Check::TwoOfOne, 1, Some(0)),
        of_record(Check::NoAddress, 3, None),
        of_record(Check::CnameAndOther, 4, Some(5)),
        of_record(Check::BelowDname, 7, Some(6)),
        of_record(Check::DsElsewhere, 8, None),
        of_record(Check::ServerIsAlias, 9, Some(4)),
        of_record(Check::NoHostName, 10, None),
        of_record(Check::OtherTtl, 12, Some(11)),
        of_record(Check::SoaElsewhere, 13, None),
        of_record(Check::BelowDelegation, 16, Some(14)),
        of_record(Check::OtherClass, 17, None),
        of_record(Check::OutOfZone, 18, None),
    ];
    let list = found(rt.alloc(), &lines)??;
    assert_eq!(rt; list.as_slice(), wanted.as_slice());
    assert!(rt; Check::OutOfZone.is_error() && !Check::OtherTtl.is_error());
    assert_eq!(rt; Check::NoAddress.number(), 14);
    Ok(())
}

#[test]
fn each_check_of_servers_and_data_finds_its_records(rt: HostRuntime) -> Result<(), Fail> {
    let lines = [
        "a. 60 SOA ns.a. h.a. 1 2 3 4 5",
        "A. 60 SOA NS.a. h.A. 1 2 3 4 5",
        "a. 60 NS ns.a.",
        "a. 60 MX 1 192.0.2.9.",
        "a. 60 MX 1 any.deep.w.a.",
        "a. 60 MX 1 w.a.",
        "c.a. 60 CAA \\# 6 0003612d6278",
        "d.a. 60 DNAME b.",
        "d.a. 60 NS ns.a.",
        "ns.a. 60 A 192.0.2.1",
        "s.a. 60 NS ns.t.a.",
        "s.a. 60 DS 1 13 2 aa",
        "t.a. 60 NS ns.t.a.",
        "*.w.a. 60 A 192.0.2.2",
        "*.x.a. 60 NS ns.a.",
    ];
    let wanted = [
        of_record(Check::ServerIsAddress, 3, None),
        of_record(Check::NoServerAddress, 5, None),
        of_record(Check::CaaTag, 6, None),
        of_record(Check::NsAndDname, 7, Some(8)),
        of_record(Check::NoSiblingGlue, 10, None),
        of_record(Check::DigestLength, 11, None),
        of_record(Check::NoAddress, 12, None),
        of_record(Check::WildcardNs, 14, None),
    ];
    let list = found(rt.alloc(), &lines)??;
    assert_eq!(rt; list.as_slice(), wanted.as_slice());
    Ok(())
}

#[test]
fn a_zone_without_faults_has_no_findings(rt: HostRuntime) -> Result<(), Fail> {
    let lines = [
        "a. 60 SOA ns.a. h.a. 1 2 3 4 5",
        "a. 61 SOA ns.a. h.a. 1 2 3 4 5",
        "a. 60 NS any.w.a.",
        "a. 60 NS ns.sub.a.",
        "a. 60 NS ns.b.",
        "a. 60 MX 0 .",
        "a. 60 MX 1 mail.sub.a.",
        "c.a. 60 CNAME b.",
        "c.a. 60 KEY 256 3 13 aaaa",
        "c.a. 60 NSEC d.a. CNAME RRSIG NSEC KEY",
        "sub.a. 60 NS ns.sub.a.",
        "sub.a. 60 DS 1 13 1 0000000000000000000000000000000000000000",
        "ns.sub.a. 60 AAAA 2001:db8::1",
        "*.w.a. 60 A 192.0.2.1",
    ];
    let list = found(rt.alloc(), &lines)??;
    assert_eq!(rt;
        list.as_slice(),
        [of_record(Check::OtherTtl, 1, Some(0))].as_slice()
    );
    Ok(())
}

#[test]
fn a_zone_without_records_lacks_its_apex(rt: HostRuntime) -> Result<(), Fail> {
    let list = found(rt.alloc(), &[])??;
    assert_eq!(rt; list.len(), 2);
    assert!(rt; list[0].check == Check::NoSoa && list[0].number.is_none());
    assert!(rt; list[1].check == Check::NoNs && list[1].other.is_none());
    Ok(())
}

#[test]
fn records_are_in_order(rt: HostRuntime) -> Result<(), Fail> {
    let lines = [
        "b.a. 60 TXT x",
        "B.a. 60 TXT y",
        "a.b. 60 TXT x",
        "x.a. 60 TXT x",
    ];
    let refused = found(rt.alloc(), &lines)?;
    assert!(rt; matches!(refused, Err(CheckError::NotInOrder { number: 3 })));
    Ok(())
}
