//! Module `record`: records, written and read.

use dns_names_wire::binary::{BinDecodable, BinEncodable};
use dns_names_wire::codes::{DNSClass, RecordType};
use dns_names_wire::decoder::BinDecoder;
use dns_names_wire::encoder::{BinEncoder, RDataEncoding};
use dns_names_wire::error::{DecodeError, ProtoResult};
use dns_names_wire::name::{Name, NameRef};
use dns_names_wire::record::{RecordRef, WireData, WireRecord};
use dns_names_wire::script::{Reply, Step, run};
use std::alloc::Global;
use std::test::Fail;

/// Returns a record of `a.`
fn record(alloc: Global, record_type: RecordType, rdata: WireData) -> ProtoResult<WireRecord> {
    Ok(WireRecord {
        owner: Name::from_ascii(alloc, "a.")?,
        record_type,
        class: DNSClass::IN,
        ttl: 300u32,
        rdata,
    })
}

/// Returns the address of `a.`
fn address(alloc: Global) -> Result<WireRecord, Fail> {
    let bytes: Vec<u8> = Vec::from_slice(alloc, b"\x01\x02\x03\x04")?;
    Ok(record(alloc, RecordType::A, WireData::Bytes(bytes))?)
}

/// Returns the server `b.a.` of `a.`
fn server(alloc: Global) -> Result<WireRecord, Fail> {
    let data: WireData = WireData::Name {
        name: Name::from_ascii(alloc, "b.a.")?,
        encoding: RDataEncoding::StandardRecord,
    };
    Ok(record(alloc, RecordType::NS, data)?)
}

const ADDRESS: &[u8] = b"\x01a\x00\x00\x01\x00\x01\x00\x00\x01\x2c\x00\x04\x01\x02\x03\x04";

const SERVER: &[u8] = b"\xc0\x00\x00\x02\x00\x01\x00\x00\x01\x2c\x00\x04\x01b\xc0\x00";

#[test]
fn records_are_written(rt: HostRuntime) -> Result<(), Fail> {
    let alloc = rt.alloc();
    let mut bytes = Vec::new(alloc);
    let mut encoder = BinEncoder::new(&mut bytes);
    let first: ProtoResult<()> = address(alloc)?.emit(&mut encoder);
    let second: ProtoResult<()> = server(alloc)?.emit(&mut encoder);
    first?;
    second?;
    drop(encoder);
    assert!(rt; &bytes.as_slice()[..ADDRESS.len()] == ADDRESS);
    assert!(rt; &bytes.as_slice()[ADDRESS.len()..] == SERVER);
    let data: ProtoResult<Vec<u8>> = server(alloc)?.rdata.to_bytes(alloc);
    assert_eq!(rt; data?.as_slice(), b"\x01b\x01a\x00".as_slice());
    Ok(())
}

#[test]
fn records_are_steps(rt: HostRuntime) -> Result<(), Fail> {
    let alloc = rt.alloc();
    let steps = [
        Step::Record(address(alloc)?),
        Step::Canonical(true),
        Step::Record(server(alloc)?),
    ];
    let mut buffer = Vec::new(alloc);
    let replies: ProtoResult<Vec<Reply>> = run(alloc, &mut buffer, &steps);
    assert!(rt;
        matches!(
            replies?.as_slice(),
            [
                Reply::Done { len: 17 },
                Reply::Done { len: 17 },
                Reply::Done { len: 34 }
            ]
        )
    );
    Ok(())
}

/// Returns what a record has beside its owner.
fn parts<'r>(record: &RecordRef<'r>) -> (RecordType, DNSClass, u32, &'r [u8]) {
    let (record_type, class): (RecordType, DNSClass) = (record.record_type(), record.class());
    let (ttl, rdata): (u32, &'r [u8]) = (record.ttl(), record.rdata());
    (record_type, class, ttl, rdata)
}

#[test]
fn records_are_read(rt: HostRuntime) -> Result<(), Fail> {
    let alloc = rt.alloc();
    let mut decoder = BinDecoder::new(ADDRESS);
    let read: Result<RecordRef<'_>, DecodeError> = RecordRef::read(alloc, &mut decoder);
    let read = read?;
    let owner: &NameRef<'_> = read.owner();
    assert_eq!(rt; owner.encoded_len(), 3);
    let (record_type, class, ttl, rdata) = parts(&read);
    assert_eq!(rt;
        (record_type, class, ttl),
        (RecordType::A, DNSClass::IN, 300)
    );
    assert_eq!(rt; rdata, b"\x01\x02\x03\x04".as_slice());
    let message = b"\x00\x00\x02\x00\x01\x00\x00\x00\x00\x00\x04\x01a\x00\x00";
    let whole: Result<RecordRef<'_>, DecodeError> = RecordRef::from_bytes(alloc, message);
    let name: Result<Name, DecodeError> = whole?.data_name(alloc);
    assert!(rt;
        matches!(
            name,
            Err(DecodeError::IncorrectRDataLengthRead { read: 3, len: 4 })
        )
    );
    let message = b"\x00\x00\x02\x00\x01\x00\x00\x00\x00\x00\x03\x01a\x00";
    let name = RecordRef::from_bytes(alloc, message)?.data_name(alloc)?;
    assert_eq!(rt; name.to_ascii(alloc)?.as_str(), "a.");
    Ok(())
}
