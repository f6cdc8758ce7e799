//! Module `codes`: types and classes, by their codes and texts, serial numbers, and sets of types.

use crate::bounds::{compared, is_copy, is_debug, is_display, is_eq, is_hash, is_ord};
use dns_names_wire::codes::{
    DNSClass, RecordDataDecodable, RecordType, RecordTypeSet, SerialNumber, TypeIter,
};
use dns_names_wire::decoder::BinDecoder;
use dns_names_wire::error::{DecodeError, ProtoResult};
use dns_names_wire::lower_name::LowerName;
use dns_names_wire::name::Name;
use dns_names_wire::restrict::Restrict;
use std::alloc::Global;
use std::cmp::Ordering;
use std::test::Fail;

const TYPES: [(RecordType, u16, &str); 39] = [
    (RecordType::ZERO, 0, "ZERO"),
    (RecordType::A, 1, "A"),
    (RecordType::NS, 2, "NS"),
    (RecordType::CNAME, 5, "CNAME"),
    (RecordType::SOA, 6, "SOA"),
    (RecordType::NULL, 10, "NULL"),
    (RecordType::PTR, 12, "PTR"),
    (RecordType::HINFO, 13, "HINFO"),
    (RecordType::MX, 15, "MX"),
    (RecordType::TXT, 16, "TXT"),
    (RecordType::SIG, 24, "SIG"),
    (RecordType::KEY, 25, "KEY"),
    (RecordType::AAAA, 28, "AAAA"),
    (RecordType::SRV, 33, "SRV"),
    (RecordType::NAPTR, 35, "NAPTR"),
    (RecordType::CERT, 37, "CERT"),
    (RecordType::DNAME, 39, "DNAME"),
    (RecordType::OPT, 41, "OPT"),
    (RecordType::DS, 43, "DS"),
    (RecordType::SSHFP, 44, "SSHFP"),
    (RecordType::RRSIG, 46, "RRSIG"),
    (RecordType::NSEC, 47, "NSEC"),
    (RecordType::DNSKEY, 48, "DNSKEY"),
    (RecordType::NSEC3, 50, "NSEC3"),
    (RecordType::NSEC3PARAM, 51, "NSEC3PARAM"),
    (RecordType::TLSA, 52, "TLSA"),
    (RecordType::SMIMEA, 53, "SMIMEA"),
    (RecordType::CDS, 59, "CDS"),
    (RecordType::CDNSKEY, 60, "CDNSKEY"),
    (RecordType::OPENPGPKEY, 61, "OPENPGPKEY"),
    (RecordType::CSYNC, 62, "CSYNC"),
    (RecordType::SVCB, 64, "SVCB"),
    (RecordType::HTTPS, 65, "HTTPS"),
    (RecordType::TSIG, 250, "TSIG"),
    (RecordType::IXFR, 251, "IXFR"),
    (RecordType::AXFR, 252, "AXFR"),
    (RecordType::ANY, 255, "ANY"),
    (RecordType::CAA, 257, "CAA"),
    (RecordType::ANAME, 65305, "ANAME"),
];

#[test]
fn types_have_codes_and_texts(rt: HostRuntime) -> Result<(), Fail> {
    let alloc = rt.alloc();
    is_copy::<RecordType>();
    is_debug::<RecordType>();
    is_display::<RecordType>();
    for (record_type, code, text) in TYPES {
        let own: u16 = u16::from(record_type);
        let of_code: RecordType = RecordType::from(code);
        let printed: &'static str = record_type.into();
        assert_eq!(rt; (own, printed), (code, text));
        assert_eq!(rt; of_code, record_type);
        assert_eq!(rt; format!(in alloc; "{record_type}")?.as_str(), text);
        let parsed: Result<RecordType, DecodeError> = RecordType::from_str(alloc, text);
        if matches!(
            record_type,
            RecordType::IXFR | RecordType::OPT | RecordType::ZERO
        ) {
            assert!(rt; matches!(parsed, Err(DecodeError::UnknownRecordTypeStr(_))));
        } else {
            assert_eq!(rt; parsed?, record_type);
        }
    }
    let unknown: RecordType = RecordType::from(65280u16);
    assert_eq!(rt; unknown, RecordType::Unknown(65280u16));
    assert_eq!(rt; format!(in alloc; "{unknown}")?.as_str(), "Unknown");
    Ok(())
}

/// Returns what the tests say of a type.
fn tests_of(record_type: RecordType) -> [bool; 10] {
    [
        record_type.is_any(),
        record_type.is_cert(),
        record_type.is_cname(),
        record_type.is_ns(),
        record_type.is_soa(),
        record_type.is_srv(),
        record_type.is_ip_addr(),
        record_type.is_dnssec(),
        record_type.is_rrsig(),
        record_type.is_zero(),
    ]
}

#[test]
fn types_are_tested(rt: HostRuntime) {
    for (record_type, at) in [
        (RecordType::ANY, 0),
        (RecordType::CERT, 1),
        (RecordType::CNAME, 2),
        (RecordType::NS, 3),
        (RecordType::SOA, 4),
        (RecordType::SRV, 5),
        (RecordType::A, 6),
        (RecordType::AAAA, 6),
        (RecordType::TSIG, 7),
        (RecordType::ZERO, 9),
    ] {
        let mut wanted = [false; 10];
        wanted[at] = true;
        assert_eq!(rt; tests_of(record_type), wanted);
    }
    let mut wanted = [false; 10];
    wanted[7] = true;
    wanted[8] = true;
    assert_eq!(rt; tests_of(RecordType::RRSIG), wanted);
}

#[test]
fn types_are_compared(rt: HostRuntime) {
    is_eq::<RecordType>();
    is_ord::<RecordType>();
    is_hash::<RecordType>();
    let less = (false, true, Some(Ordering::Less), Ordering::Less);
    let unknown = RecordType::Unknown(1);
    assert!(rt; compared(&RecordType::A, &unknown) == less);
    assert!(rt; compared(&unknown, &RecordType::NS) == less);
}

#[test]
fn classes_have_codes_and_texts(rt: HostRuntime) -> Result<(), Fail> {
    let alloc = rt.alloc();
    is_copy::<DNSClass>();
    is_debug::<DNSClass>();
    is_display::<DNSClass>();
    for (class, code, text) in [
        (DNSClass::IN, 1, "IN"),
        (DNSClass::CH, 3, "CH"),
        (DNSClass::HS, 4, "HS"),
        (DNSClass::NONE, 254, "NONE"),
        (DNSClass::ANY, 255, "ANY"),
    ] {
        let (own, printed): (u16, &'static str) = (u16::from(class), class.into());
        let of_code: DNSClass = DNSClass::from(code);
        let parsed: Result<DNSClass, DecodeError> = DNSClass::from_str(alloc, text);
        assert_eq!(rt; (own, printed), (code, text));
        assert_eq!(rt; (of_code, parsed?), (class, class));
        assert_eq!(rt; format!(in alloc; "{class}")?.as_str(), text);
    }
    let opt: DNSClass = DNSClass::for_opt(100u16);
    let unknown: DNSClass = DNSClass::from(512);
    assert_eq!(rt;
        (opt, unknown),
        (DNSClass::OPT(512u16), DNSClass::Unknown(512u16))
    );
    assert_eq!(rt;
        format!(in alloc; "{opt} {unknown}")?.as_str(),
        "OPT UNKNOWN"
    );
    let refused = DNSClass::from_str(alloc, "OPT");
    assert!(rt; matches!(refused, Err(DecodeError::UnknownDnsClassStr(_))));
    Ok(())
}

#[test]
fn classes_are_compared(rt: HostRuntime) {
    is_eq::<DNSClass>();
    is_ord::<DNSClass>();
    is_hash::<DNSClass>();
    let less = (false, true, Some(Ordering::Less), Ordering::Less);
    assert!(rt; compared(&DNSClass::OPT(0), &DNSClass::OPT(512)) == less);
    assert!(rt; compared(&DNSClass::OPT(512), &DNSClass::Unknown(512)) == less);
}

#[test]
fn serial_numbers_wrap(rt: HostRuntime) {
    is_copy::<SerialNumber>();
    is_debug::<SerialNumber>();
    is_eq::<SerialNumber>();
    is_hash::<SerialNumber>();
    let (last, zero): (SerialNumber, SerialNumber) = (
        SerialNumber::new(4294967295u32),
        SerialNumber::from(0u32),
    );
    let next: SerialNumber = last + SerialNumber::new(1);
    let number: u32 = next.get();
    assert_eq!(rt; number, 0);
    assert_eq!(rt; next, zero);
    let order: Option<Ordering> = last.partial_cmp(&zero);
    let undecided: Option<Ordering> = zero.partial_cmp(&SerialNumber::new(2147483648));
    assert_eq!(rt; (order, undecided), (Some(Ordering::Less), None));
}

#[test]
fn sets_have_types(rt: HostRuntime) -> Result<(), Fail> {
    is_debug::<RecordTypeSet>();
    is_eq::<RecordTypeSet>();
    is_hash::<RecordTypeSet>();
    let made: ProtoResult<RecordTypeSet> = RecordTypeSet::new(
        rt.alloc(),
        [RecordType::NS, RecordType::A],
    );
    let made = made?;
    let (has, lacks): (bool, bool) = (made.contains(RecordType::A), made.contains(RecordType::MX));
    assert!(rt; has && !lacks);
    let mut types: TypeIter<'_> = made.iter();
    let first: Option<RecordType> = types.next();
    assert_eq!(rt;
        (first, types.next()),
        (Some(RecordType::A), Some(RecordType::NS))
    );
    assert!(rt; types.next().is_none());
    let copy: ProtoResult<RecordTypeSet> = made.clone();
    assert!(rt; copy? == made);
    Ok(())
}

/// Reads a value from data of this length.
fn data<'r, D: RecordDataDecodable<'r>>(
    alloc: Global,
    bytes: &'r [u8],
    length: u16,
) -> Result<D, DecodeError> {
    let mut decoder = BinDecoder::new(bytes);
    let read: Result<D, DecodeError> = D::read_data(alloc, &mut decoder, Restrict::new(length));
    read
}

#[test]
fn values_of_six_types_are_data(rt: HostRuntime) -> Result<(), Fail> {
    let alloc = rt.alloc();
    assert_eq!(rt; data::<u16>(alloc, b"\x00\x01", 0)?, 1);
    assert_eq!(rt; data::<i32>(alloc, &[255; 4], 0)?, -1);
    assert_eq!(rt; data::<u32>(alloc, b"\x00\x00\x00\x01", 0)?, 1);
    assert_eq!(rt; data::<Name>(alloc, b"\x01A\x00", 0)?.len(), 2);
    assert_eq!(rt; data::<LowerName>(alloc, b"\x01A\x00", 0)?.len(), 2);
    let set = data::<RecordTypeSet>(alloc, b"\x00\x01\x40\x99", 3)?;
    assert!(rt; set == RecordTypeSet::new(alloc, [RecordType::A])?);
    let refused = data::<RecordTypeSet>(alloc, b"\x00\x00\x05", 3);
    assert!(rt; matches!(refused, Err(DecodeError::NsecBitmapOutOfBounds)));
    Ok(())
}
