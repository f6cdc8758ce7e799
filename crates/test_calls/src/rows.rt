//! Rows of bytes, as records are written and read.

use crate::sections::{Data, Row, record_of};
use dns_names_wire::binary::{BinDecodable, BinEncodable};
use dns_names_wire::decoder::BinDecoder;
use dns_names_wire::encoder::{BinEncoder, RDataEncoding};
use dns_names_wire::error::{DecodeError, ProtoError};
use dns_names_wire::name::Name;
use dns_names_wire::rdata::Record;
use dns_names_wire::record::{RecordRef, WireRecord};
use dns_names_wire::record_type::RecordType;
use std::test::Fail;

/// An address of the owner `a.`.
const ADDRESS: Row<'static> = Row {
    owner: "a.",
    record_type: RecordType::A,
    data: Data::Bytes(b"\x01\x02\x03\x04"),
};

#[test]
fn records_are_written_after_their_owner(rt: HostRuntime) -> Result<(), Fail> {
    let alloc = rt.alloc();
    let mut bytes = Vec::new(alloc);
    let mut encoder = BinEncoder::new(&mut bytes);
    Name::from_ascii(alloc, "a.")?.emit(&mut encoder)?;
    record_of(alloc, ADDRESS)?.emit(&mut encoder)?;
    assert_eq!(rt; encoder.len(), 19);
    let server = Row {
        owner: "a.",
        record_type: RecordType::NS,
        data: Data::Name("b.a.", RDataEncoding::StandardRecord),
    };
    record_of(alloc, server)?.emit(&mut encoder)?;
    assert_eq!(rt; encoder.len(), 35);
    let alias = Row {
        owner: "a.",
        record_type: RecordType::CNAME,
        data: Data::Name("b.a.", RDataEncoding::Other),
    };
    record_of(alloc, alias)?.emit(&mut encoder)?;
    drop(encoder);
    let head = b"\x01a\x00\xc0\x00\x00\x01\x00\x01\x00\x00\x01\x2c\x00\x04\x01\x02\x03\x04";
    let next = b"\xc0\x00\x00\x02\x00\x01\x00\x00\x01\x2c\x00\x04\x01b\xc0\x00";
    let last = b"\xc0\x00\x00\x05\x00\x01\x00\x00\x01\x2c\x00\x05\x01b\x01a\x00";
    assert_eq!(rt; bytes.len(), 52);
    assert!(rt; bytes.as_slice().starts_with(head));
    assert!(rt; bytes.as_slice().ends_with(last));
    assert!(rt; &bytes.as_slice()[19..35] == next.as_slice());
    Ok(())
}

#[test]
fn a_record_of_a_message_is_written_again(rt: HostRuntime) -> Result<(), Fail> {
    let alloc = rt.alloc();
    let tail = b"\x00\x01\x00\x01\x00\x00\x01\x2c\x00\x04\x01\x02\x03\x04";
    let mut message = Vec::from_slice(alloc, b"\x01a\x00\x01b\xc0\x00")?;
    message.extend_from_slice(tail)?;
    let mut decoder = BinDecoder::new(message.as_slice());
    decoder.skip(3)?;
    let owned = Record::from_ref(alloc, &RecordRef::read(alloc, &mut decoder)?)?;
    let record = WireRecord::from_record(alloc, &owned)?.ok_or("a record of bytes")?;
    let mut bytes = Vec::new(alloc);
    let mut encoder = BinEncoder::new(&mut bytes);
    Name::from_ascii(alloc, "x.b.a.")?.emit(&mut encoder)?;
    encoder.set_max_size(22);
    assert!(rt;
        matches!(
            record.emit(&mut encoder),
            Err(ProtoError::MaxBufferSizeExceeded(22))
        )
    );
    assert_eq!(rt; encoder.len(), 7);
    encoder.set_max_size(23);
    record.emit(&mut encoder)?;
    drop(encoder);
    assert_eq!(rt; bytes.len(), 23);
    assert!(rt; bytes.as_slice().starts_with(b"\x01x\x01b\x01a\x00\xc0\x02"));
    assert!(rt; bytes.as_slice().ends_with(tail));
    Ok(())
}

#[test]
fn a_refused_record_leaves_the_count_of_names(rt: HostRuntime) -> Result<(), Fail> {
    let alloc = rt.alloc();
    let mut bytes = Vec::new(alloc);
    let mut encoder = BinEncoder::new(&mut bytes).with_limits(64, 2);
    Name::from_ascii(alloc, "a.")?.emit(&mut encoder)?;
    encoder.set_max_size(18);
    assert!(rt;
        matches!(
            record_of(alloc, ADDRESS)?.emit(&mut encoder),
            Err(ProtoError::MaxBufferSizeExceeded(18))
        )
    );
    assert_eq!(rt; encoder.len(), 3);
    encoder.set_max_size(19);
    record_of(alloc, ADDRESS)?.emit(&mut encoder)?;
    drop(encoder);
    assert_eq!(rt;
        bytes.as_slice(),
        b"\x01a\x00\xc0\x00\x00\x01\x00\x01\x00\x00\x01\x2c\x00\x04\x01\x02\x03\x04".as_slice()
    );
    Ok(())
}

#[test]
fn a_data_name_has_the_length_of_the_data(rt: HostRuntime) -> Result<(), Fail> {
    let alloc = rt.alloc();
    // the name in data ends before them
    let longer = b"\x00\x00\x02\x00\x01\x00\x00\x00\x00\x00\x04\x01a\x00\x00";
    assert!(rt;
        matches!(
            RecordRef::from_bytes(alloc, longer)?.data_name(alloc),
            Err(DecodeError::IncorrectRDataLengthRead { read: 3, len: 4 })
        )
    );
    // the name in data goes on after them
    let shorter = b"\x00\x00\x02\x00\x01\x00\x00\x00\x00\x00\x02\x01a\x00";
    assert!(rt;
        matches!(
            RecordRef::from_bytes(alloc, shorter)?.data_name(alloc),
            Err(DecodeError::IncorrectRDataLengthRead { read: 3, len: 2 })
        )
    );
    let cut = b"\x00\x00\x02\x00\x01\x00\x00\x00\x00\x00\x04\x01a\x00";
    assert!(rt;
        matches!(
            RecordRef::from_bytes(alloc, cut),
            Err(DecodeError::InsufficientBytes)
        )
    );
    Ok(())
}
