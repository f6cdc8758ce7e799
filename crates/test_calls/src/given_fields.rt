//! Data of records from typed fields, and records to and from `WireRecord`.

use dns_names_wire::dns_class::DNSClass;
use dns_names_wire::encoder::RDataEncoding;
use dns_names_wire::fields::{
    Field, Items, Kind, ListKind, NameForm, Shape, Shaped, are_names_decompressed,
};
use dns_names_wire::name::Name;
use dns_names_wire::rdata::{FromFieldsError, RData, RDataError, Record};
use dns_names_wire::record::{WireData, WireRecord};
use dns_names_wire::record_type::RecordType;
use std::alloc::Global;
use std::test::Fail;

/// Data of a type, and among them fields of every kind.
const DATA: [(u16, &[u8]); 19] = [
    (1, b"\x7f\x00\x00\x01"), // A
    (15, b"\x00\x0a\x01b\x01a\x00"), // MX
    (16, b"\x02ab\x00"), // TXT
    (
        28,
        b"\x20\x01\x0d\xb8\x00\x00\x00\x00\x00\x00\x00\x00\x00\x00\xff\x01",
    ), // AAAA
    (
        29,
        b"\x00\x33\x16\x13\x89\x17\x2d\xd0\x70\xbe\x15\xf0\x00\x98\x8d\x20",
    ), // LOC
    (42, b"\x00\x01\x1c\x83\xc0\xa8\x26\x00\x02\x08\x01\xff"), // APL
    (45, b"\x0a\x03\x02\x02gw\x00key"), // IPSECKEY
    (
        46,
        b"\x00\x0f\x05\x02\x00\x00\x0e\x10\xff\xff\xff\xff\x00\x00\x00\x01\x12\x34\x01a\x00sig",
    ), // RRSIG
    (47, b"\x01B\x00\x00\x01\x40"), // NSEC
    (
        50,
        b"\x01\x00\x00\x0a\x02\xaa\xbb\x01\xcc\x00\x01\x40\x01\x01\x40",
    ), // NSEC3
    (55, b"\x02\x02\x00\x01\xaa\xbb\x7f\x01a\x00\x01b\x00"), // HIP
    (64, b"\x00\x01\x00\x00\x03\x00\x02\x00\x35"), // SVCB
    (104, b"\x00\x0a\x00\x14\x4f\xff\xff\x20\xee\x64"), // NID
    (108, b"\x00\x00\x5e\x00\x53\x2a"), // EUI48
    (109, b"\x80\x00\x5e\xef\x10\x00\x00\x2a"), // EUI64
    (
        250,
        b"\x01a\x00\x00\x00\x5f\x0f\x90\x43\x01\x2c\x00\x02\xaa\xbb\xdc\xc6\x00\x00\x00\x00",
    ), // TSIG
    (257, b"\x80\x05issue;"), // CAA
    (260, b"\x0a\x81\xcb\x00\x71\x0f"), // AMTRELAY
    (65280, b""),
];

/// Makes data of the fields that data have.
pub(crate) fn made_again(alloc: Global, data: &RData) -> Result<RData, Fail> {
    let mut fields = Vec::new(alloc);
    for field in data.fields() {
        let Ok(field) = field else {
            return Err(Fail::from("a field"));
        };
        fields.push(field)?;
    }
    match RData::from_fields(alloc, data.class(), data.record_type(), fields.as_slice()) {
        Ok(made) => Ok(made),
        Err(_) => Err(Fail::from("fields of the type")),
    }
}

#[test]
fn data_of_each_kind_are_made_of_their_fields(rt: HostRuntime) -> Result<(), Fail> {
    let alloc = rt.alloc();
    for (code, octets) in DATA {
        let Ok(data) = RData::new(alloc, DNSClass::IN, RecordType::from(code), octets) else {
            return Err(Fail::from("data of the type"));
        };
        let made = made_again(alloc, &data)?;
        assert!(rt; made.record_type() == data.record_type());
        assert!(rt; made.octets() == octets);
    }
    Ok(())
}

#[test]
fn fields_append_the_octets_that_they_are(rt: HostRuntime) -> Result<(), Fail> {
    let alloc = rt.alloc();
    for (code, octets) in DATA {
        let Ok(data) = RData::new(alloc, DNSClass::IN, RecordType::from(code), octets) else {
            return Err(Fail::from("data of the type"));
        };
        let mut out = Vec::new(alloc);
        for field in data.fields() {
            let Ok(field) = field else {
                return Err(Fail::from("a field"));
            };
            assert!(rt; field.append_to(&mut out)?);
        }
        assert!(rt; out.as_slice() == octets);
    }
    let mut out = Vec::new(alloc);
    assert!(rt; !Field::Counted(&[0; 256]).append_to(&mut out)?);
    assert!(rt; !Field::LongCounted(&[0; 65536]).append_to(&mut out)?);
    assert!(rt; out.is_empty());
    Ok(())
}

#[test]
fn octets_of_another_shape_are_reported(rt: HostRuntime) -> Result<(), Fail> {
    let alloc = rt.alloc();
    let data = RecordType::from(260);
    let relay = [
        Field::U8(10),
        Field::Shaped(Shaped::new(Shape::Relay, b"\x01\xcb\x00\x71\x0f")?),
    ];
    assert!(rt; RData::from_fields(alloc, DNSClass::IN, data, &relay).is_ok());
    let gateway = [
        Field::U8(10),
        Field::Shaped(Shaped::new(Shape::Gateway, b"\x00\x02")?),
    ];
    assert!(rt; RData::from_fields(alloc, DNSClass::IN, data, &gateway).is_err());
    assert!(rt; Shaped::new(Shape::Relay, b"\x01\xcb\x00\x71").is_err());
    assert!(rt; Shaped::new(Shape::Relay, b"\x01\xcb\x00\x71\x0f\x00").is_err());
    assert!(rt; Shaped::new(Shape::Relay, b"\x03\xc0\x00").is_err());
    assert!(rt; Shaped::new(Shape::Gateway, b"\x04\x02").is_err());
    assert!(rt; Items::new(ListKind::Prefixes, b"\x00\x01\x15\x04\xc0\xa8\x20\x00").is_err());
    assert!(rt; Items::new(ListKind::Names, b"\x01a\xc0\x00").is_err());
    Ok(())
}

#[test]
fn receivers_decompress_names_of_some_types(rt: HostRuntime) -> Result<(), Fail> {
    for code in [2, 6, 15, 17, 18, 21, 24, 26, 30, 33, 35] {
        assert!(rt; are_names_decompressed(RecordType::from(code)));
    }
    for code in [1, 13, 16, 23, 36, 38, 39, 46, 47, 64, 107, 250] {
        assert!(rt; !are_names_decompressed(RecordType::from(code)));
    }
    Ok(())
}

#[test]
fn a_list_of_another_kind_is_reported(rt: HostRuntime) -> Result<(), Fail> {
    let alloc = rt.alloc();
    let texts = [Field::Texts(Items::new(ListKind::Texts, b"\x02ab")?)];
    assert!(rt; RData::from_fields(alloc, DNSClass::IN, RecordType::TXT, &texts).is_ok());
    let texts = [Field::Texts(Items::new(ListKind::Types, b"\x00\x01\x40")?)];
    assert!(rt; RData::from_fields(alloc, DNSClass::IN, RecordType::TXT, &texts).is_err());
    let texts = [Field::Texts(Items::new(ListKind::Texts, b"")?)];
    assert!(rt; RData::from_fields(alloc, DNSClass::IN, RecordType::TXT, &texts).is_err());
    Ok(())
}

#[test]
fn data_are_made_of_a_number_and_a_name(rt: HostRuntime) -> Result<(), Fail> {
    let alloc = rt.alloc();
    let exchange = Name::from_ascii(alloc, "b.a.")?;
    let fields = [Field::U16(10), Field::Name(exchange.as_name_ref())];
    let Ok(data) = RData::from_fields(alloc, DNSClass::IN, RecordType::MX, &fields) else {
        return Err(Fail::from("fields of an MX record"));
    };
    assert!(rt; data.octets() == b"\x00\x0a\x01b\x01a\x00".as_slice());
    Ok(())
}

#[test]
fn fields_that_are_not_those_of_the_type_are_reported(rt: HostRuntime) -> Result<(), Fail> {
    let alloc = rt.alloc();
    let number = [Field::U16(10)];
    let Err(missing) = RData::from_fields(alloc, DNSClass::IN, RecordType::MX, &number) else {
        return Err(Fail::from("a field is missing"));
    };
    assert!(rt;
        matches!(
            missing,
            FromFieldsError::Missing {
                field: 1,
                wanted: Kind::Name(NameForm::Compressible)
            }
        )
    );
    assert_eq!(rt;
        format!(in alloc; "{missing}")?.as_str(),
        "field 1 of kind Name(Compressible) is missing"
    );
    let numbers = [Field::U16(10), Field::U8(1)];
    let Err(mismatch) = RData::from_fields(alloc, DNSClass::IN, RecordType::MX, &numbers) else {
        return Err(Fail::from("a number is no name"));
    };
    assert!(rt; matches!(mismatch, FromFieldsError::Mismatch { field: 1, .. }));
    let Err(many) = RData::from_fields(
        alloc,
        DNSClass::IN,
        RecordType::from(108),
        &[Field::U48(1), Field::U8(1)],
    ) else {
        return Err(Fail::from("a field too many"));
    };
    assert!(rt; matches!(many, FromFieldsError::TooMany { field: 1 }));
    Ok(())
}

#[test]
fn fields_that_are_too_long_are_reported(rt: HostRuntime) -> Result<(), Fail> {
    let alloc = rt.alloc();
    let long = [0; 256];
    let fields = [Field::Counted(&long[1..]), Field::Counted(&long)];
    let Err(FromFieldsError::Mismatch { field, .. }) = RData::from_fields(
        alloc,
        DNSClass::IN,
        RecordType::HINFO,
        &fields,
    ) else {
        return Err(Fail::from("a string of 256 octets"));
    };
    assert_eq!(rt; field, 1);
    let number = [Field::U48(1 << 48)];
    assert!(rt; RData::from_fields(alloc, DNSClass::IN, RecordType::from(108), &number).is_err());
    let number = [Field::U48((1 << 48) - 1)];
    assert!(rt; RData::from_fields(alloc, DNSClass::IN, RecordType::from(108), &number).is_ok());
    Ok(())
}

/// A record of the owner `a.` with a type and data.
fn wire_record(
    alloc: Global,
    record_type: RecordType,
    rdata: WireData,
) -> Result<WireRecord, Fail> {
    Ok(WireRecord {
        owner: Name::from_ascii(alloc, "a.")?,
        record_type,
        class: DNSClass::NONE,
        ttl: 300,
        rdata,
    })
}

#[test]
fn bytes_and_names_become_records_and_come_back(rt: HostRuntime) -> Result<(), Fail> {
    let alloc = rt.alloc();
    let address = WireData::Bytes(Vec::from_slice(alloc, b"\x7f\x00\x00\x01")?);
    let Ok(record) = wire_record(alloc, RecordType::A, address)?.to_record(alloc) else {
        return Err(Fail::from("an address"));
    };
    assert!(rt; record.name == Name::from_ascii(alloc, "a.")?);
    assert!(rt; record.dns_class() == DNSClass::NONE);
    assert_eq!(rt; record.ttl, 300);
    let WireRecord { rdata, .. } = WireRecord::from_record(alloc, &record)?.ok_or(
        "a record of bytes",
    )?;
    let WireData::Bytes(bytes) = rdata else {
        return Err(Fail::from("bytes"));
    };
    assert!(rt; bytes.as_slice() == b"\x7f\x00\x00\x01".as_slice());
    let server = WireData::Name {
        name: Name::from_ascii(alloc, "b.a.")?,
        encoding: RDataEncoding::Other,
    };
    let Ok(record) = wire_record(alloc, RecordType::NS, server)?.to_record(alloc) else {
        return Err(Fail::from("a name"));
    };
    assert!(rt; record.data.octets() == b"\x01b\x01a\x00".as_slice());
    let WireRecord { rdata, .. } = WireRecord::from_record(alloc, &record)?.ok_or(
        "a record of a name",
    )?;
    let WireData::Name { name, encoding } = rdata else {
        return Err(Fail::from("a name again"));
    };
    assert!(rt; name == Name::from_ascii(alloc, "b.a.")?);
    assert!(rt; matches!(encoding, RDataEncoding::StandardRecord));
    Ok(())
}

#[test]
fn a_name_among_other_fields_is_no_wire_record(rt: HostRuntime) -> Result<(), Fail> {
    let alloc = rt.alloc();
    let mail = WireData::Bytes(Vec::from_slice(alloc, b"\x00\x0a\x01b\x01a\x00")?);
    let Ok(record) = wire_record(alloc, RecordType::MX, mail)?.to_record(alloc) else {
        return Err(Fail::from("data of an MX record"));
    };
    assert!(rt; WireRecord::from_record(alloc, &record)?.is_none());
    let short = WireData::Bytes(Vec::from_slice(alloc, b"\x00")?);
    let Err(RDataError::Field(error)) = wire_record(alloc, RecordType::A, short)?.to_record(alloc)
    else {
        return Err(Fail::from("an octet is no address"));
    };
    assert_eq!(rt; error.field, 0);
    Ok(())
}
