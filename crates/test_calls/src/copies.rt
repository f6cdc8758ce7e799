//! Messages that are written again, against the octets that dnspython 2.3.0 writes for them.

use dns_names_wire::message::{EdnsError, MessageRef};
use dns_names_wire::message_writer::{CopyError, Section, WriteError, WriterState};
use dns_names_wire::{DecodeError, RecordType};
use std::alloc::Global;
use std::test::Fail;

/// A response of an authority for the servers of example.com, with one of their addresses.
const REFERRAL: &[u8] =
    b"\x12\x34\x85\x80\x00\x01\x00\x02\x00\x01\x00\x01\x07example\x03com\x00\x00\x02\x00\x01\
\xc0\x0c\x00\x02\x00\x01\x00\x00\x0e\x10\x00\x06\x03ns1\xc0\x0c\xc0\x0c\x00\x02\x00\x01\x00\x00\x0e\x10\x00\x06\x03ns2\xc0\x0c\
\xc0\x14\x00\x02\x00\x01\x00\x02\xa3\x00\x00\x14\x01a\x0cgtld-servers\x03net\x00\
\xc0\x29\x00\x01\x00\x01\x00\x00\x0e\x10\x00\x04\xc0\x00\x02\x01";

/// Its question, with TC, and the address: of the two answers, which are a set, only one has room, and the authority has none.
const TRUNCATED: &[u8] =
    b"\x12\x34\x87\x80\x00\x01\x00\x00\x00\x00\x00\x01\x07example\x03com\x00\x00\x02\x00\x01\
\x03ns1\xc0\x0c\x00\x01\x00\x01\x00\x00\x0e\x10\x00\x04\xc0\x00\x02\x01";

/// Its question and its answers: an address that only goes with them has no room, so TC is clear.
const ANSWERS: &[u8] =
    b"\x12\x34\x85\x80\x00\x01\x00\x02\x00\x00\x00\x00\x07example\x03com\x00\x00\x02\x00\x01\
\xc0\x0c\x00\x02\x00\x01\x00\x00\x0e\x10\x00\x06\x03ns1\xc0\x0c\xc0\x0c\x00\x02\x00\x01\x00\x00\x0e\x10\x00\x06\x03ns2\xc0\x0c";

/// The referral without compression.
const WHOLE: &[u8] =
    b"\x12\x34\x85\x80\x00\x01\x00\x02\x00\x01\x00\x01\x07example\x03com\x00\x00\x02\x00\x01\
\x07example\x03com\x00\x00\x02\x00\x01\x00\x00\x0e\x10\x00\x11\x03ns1\x07example\x03com\x00\
\x07example\x03com\x00\x00\x02\x00\x01\x00\x00\x0e\x10\x00\x11\x03ns2\x07example\x03com\x00\
\x03com\x00\x00\x02\x00\x01\x00\x02\xa3\x00\x00\x14\x01a\x0cgtld-servers\x03net\x00\
\x03ns1\x07example\x03com\x00\x00\x01\x00\x01\x00\x00\x0e\x10\x00\x04\xc0\x00\x02\x01";

/// The response of an authority, with one answer, and an `OPT` record with the options COOKIE and NSID.
const RESPONSE: &str =
    "123485000001000100000001076578616d706c6503636f6d0000020001c00c0002000100000e100006036e7331c00c\
    00002904d0000080000012000a00080102030405060708000300026e73";

/// The octets of the `OPT` record.
const OPT_LEN: usize = 29;

/// The octets of a copy, or why there is none.
fn copied(alloc: Global, octets: &[u8], max_size: usize) -> Result<Vec<u8>, CopyError> {
    let Ok(message) = MessageRef::read(octets) else {
        return Err(CopyError::Write(WriteError::NoMessage));
    };
    let mut buffer = [7; 512];
    let mut writer = WriterState::new();
    writer.copy(alloc, &mut buffer, &message, max_size)?;
    Vec::from_slice(alloc, &buffer[..writer.end.min(512)]).map_err(|_| CopyError::Memory)
}

/// The octets of a padded copy, or why there is none.
fn padded(
    alloc: Global,
    octets: &[u8],
    max_size: usize,
    block: usize,
) -> Result<Vec<u8>, CopyError> {
    let Ok(message) = MessageRef::read(octets) else {
        return Err(CopyError::Write(WriteError::NoMessage));
    };
    let mut buffer = [7; 1024];
    let mut writer = WriterState::new();
    writer.copy_padded(alloc, &mut buffer, &message, max_size, block)?;
    Vec::from_slice(alloc, &buffer[..writer.end.min(1024)]).map_err(|_| CopyError::Memory)
}

#[test]
fn copies_are_compressed(rt: HostRuntime) -> Result<(), Fail> {
    let alloc = rt.alloc();
    assert_eq!(rt; copied(alloc, WHOLE, 512)?.as_slice(), REFERRAL);
    assert_eq!(rt; copied(alloc, REFERRAL, 512)?.as_slice(), REFERRAL);
    assert_eq!(rt; copied(alloc, WHOLE, 113)?.as_slice(), REFERRAL);
    Ok(())
}

#[test]
fn sets_without_room_are_left_out(rt: HostRuntime) -> Result<(), Fail> {
    let alloc = rt.alloc();
    assert_eq!(rt; copied(alloc, WHOLE, 60)?.as_slice(), TRUNCATED);
    assert_eq!(rt; copied(alloc, WHOLE, 65)?.as_slice(), ANSWERS);
    assert!(rt;
        matches!(
            copied(alloc, WHOLE, 28),
            Err(CopyError::Write(WriteError::NoRoom))
        )
    );
    assert!(rt;
        matches!(
            copied(alloc, &[0; 12], 11),
            Err(CopyError::Write(WriteError::NoRoom))
        )
    );
    Ok(())
}

#[test]
fn copies_end_with_edns(rt: HostRuntime) -> Result<(), Fail> {
    let alloc = rt.alloc();
    let response = hex::decode(alloc, RESPONSE)?;
    assert_eq!(rt;
        copied(alloc, response.as_slice(), 512)?.as_slice(),
        response.as_slice()
    );
    let small = copied(alloc, response.as_slice(), 29 + OPT_LEN)?;
    assert_eq!(rt; small.len(), 29 + OPT_LEN);
    let message = MessageRef::read(small.as_slice())?;
    assert!(rt; message.header().metadata.truncation);
    assert!(rt; message.edns()?.is_some());
    assert!(rt;
        matches!(
            copied(alloc, response.as_slice(), 28 + OPT_LEN),
            Err(CopyError::Write(WriteError::NoRoom))
        )
    );
    Ok(())
}

/// A copy is padded to a multiple of a block of at most 512 octets, once (RFC 7830, section 3), and not without room, or without EDNS.
#[test]
fn copies_are_padded(rt: HostRuntime) -> Result<(), Fail> {
    let alloc = rt.alloc();
    let response = hex::decode(alloc, RESPONSE)?;
    let len = response.len();
    for block in 0usize..1000 {
        let copy = padded(alloc, response.as_slice(), 65_535, block)?;
        let multiple = block.min(512).max(1);
        assert!(rt; copy.len() % multiple == 0 || block == 0);
        assert!(rt; copy.len() < len + 4 + multiple);
        let message = MessageRef::read(copy.as_slice())?;
        assert!(rt; message.edns()?.is_some());
        let again = padded(alloc, copy.as_slice(), 65_535, 468)?;
        assert!(rt; block == 0 || again.as_slice() == copy.as_slice());
        assert!(rt;
            padded(alloc, response.as_slice(), len, block)?.as_slice() == response.as_slice()
        );
        assert!(rt; padded(alloc, REFERRAL, 512, block)?.as_slice() == REFERRAL);
    }
    assert!(rt;
        matches!(
            padded(alloc, response.as_slice(), 28 + OPT_LEN, 128),
            Err(CopyError::Write(WriteError::NoRoom))
        )
    );
    Ok(())
}

/// A response with an address, an `OPT` record and a signature.
const SIGNED: &[u8] =
    b"\0\x07\x80\0\0\0\0\0\0\0\0\x03\x01a\0\0\x01\0\x01\0\0\0\0\0\x04\xc0\0\x02\x01\
\0\0\x29\x04\xd0\0\0\0\0\0\0\x01k\0\0\xfa\0\xff\0\0\0\0\0\x13\x01h\0\0\0\0\0\0\x01\x01\x2c\0\0\0\x07\0\0\0\0";

/// It without the address, which is no glue.
const WITHOUT_THE_ADDRESS: &[u8] = b"\0\x07\x80\0\0\0\0\0\0\0\0\x02\
\0\0\x29\x04\xd0\0\0\0\0\0\0\x01k\0\0\xfa\0\xff\0\0\0\0\0\x13\x01h\0\0\0\0\0\0\x01\x01\x2c\0\0\0\x07\0\0\0\0";

#[test]
fn signatures_stay_last(rt: HostRuntime) -> Result<(), Fail> {
    let alloc = rt.alloc();
    assert_eq!(rt; copied(alloc, SIGNED, 512)?.as_slice(), SIGNED);
    assert_eq!(rt; copied(alloc, SIGNED, 71)?.as_slice(), WITHOUT_THE_ADDRESS);
    Ok(())
}

/// The update of a zone: with a prerequisite, that a name is in use, and two additions (RFC 2136, section 2).
const UPDATE: &[u8] = b"\0\x07\x28\0\0\x01\0\x01\0\x02\0\0\x01a\0\0\x06\0\x01\
\x01b\xc0\x0c\0\xff\0\xff\0\0\0\0\0\0\x01c\xc0\x0c\0\x01\0\x01\0\0\0\0\0\x04\xc0\0\x02\x01\x01d\xc0\x0c\0\x01\0\x01\0\0\0\0\0\x04\xc0\0\x02\x02";

/// Half of an update is another update, so a request is copied whole, or not at all.
#[test]
fn a_request_is_never_cut(rt: HostRuntime) -> Result<(), Fail> {
    let alloc = rt.alloc();
    assert_eq!(rt; copied(alloc, UPDATE, UPDATE.len())?.as_slice(), UPDATE);
    for max_size in [12, 19, 33, 51, UPDATE.len() - 1] {
        assert!(rt;
            matches!(
                copied(alloc, UPDATE, max_size),
                Err(CopyError::Write(WriteError::NoRoom))
            )
        );
    }
    Ok(())
}

/// An answer with the servers of its zone, and what denies another (RFC 4035, section 3.1.3).
const DENIED: &[u8] = b"\0\x07\x80\0\0\x01\0\x01\0\x01\0\0\x01a\0\0\x01\0\x01\
\xc0\x0c\0\x01\0\x01\0\0\0\0\0\x04\xc0\0\x02\x01\xc0\x0c\0\x2f\0\x01\0\0\0\0\0\x06\x01a\0\0\x01\x40";

/// TC is set if the answer loses its proof.
#[test]
fn what_denies_is_required(rt: HostRuntime) -> Result<(), Fail> {
    let alloc = rt.alloc();
    assert_eq!(rt; copied(alloc, DENIED, DENIED.len())?.as_slice(), DENIED);
    let cut = copied(alloc, DENIED, DENIED.len() - 1)?;
    assert_eq!(rt; (cut.len(), cut.as_slice()[2]), (35, 0x82));
    Ok(())
}

#[test]
fn a_record_of_a_message_is_added(rt: HostRuntime) -> Result<(), Fail> {
    let alloc = rt.alloc();
    let message = MessageRef::read(REFERRAL)?;
    let record = message.answers().next().unwrap();
    let mut buffer = [7; 64];
    let mut writer = WriterState::new();
    writer.begin(&mut buffer, 1, 0, 64)?;
    writer.record_of(alloc, &mut buffer, Section::Answers, &record)?;
    assert!(rt;
        writer.end == 41
            && &buffer[12..41]
                == b"\x07example\x03com\0\0\x02\0\x01\0\0\x0e\x10\0\x06\x03ns1\xc0\x0c".as_slice()
    );
    Ok(())
}

#[test]
fn messages_that_are_not_copied(rt: HostRuntime) -> Result<(), Fail> {
    let alloc = rt.alloc();
    // An address of three octets, whose data begin at 23.
    let short = b"\0\0\0\0\0\0\0\x01\0\0\0\0\0\0\x01\0\x01\0\0\0\0\0\x03\x01\x02\x03";
    assert!(rt;
        matches!(
            copied(alloc, short, 512),
            Err(CopyError::Data { offset: 23, .. })
        )
    );
    // Two `OPT` records.
    let twice = b"\0\0\0\0\0\0\0\0\0\0\0\x02\0\0\x29\x02\0\0\0\0\0\0\0\0\0\x29\x02\0\0\0\0\0\0\0";
    assert!(rt;
        matches!(
            copied(alloc, twice, 512),
            Err(CopyError::Edns(EdnsError::Decode(DecodeError::DuplicateEdns)))
        )
    );
    // An `OPT` record as an authority.
    let outside = b"\0\0\0\0\0\0\0\0\0\x01\0\0\0\0\x29\x02\0\0\0\0\0\0\0";
    assert!(rt;
        matches!(
            copied(alloc, outside, 512),
            Err(CopyError::Edns(EdnsError::Decode(DecodeError::RecordNotInAdditionalSection(
                RecordType::OPT
            ))))
        )
    );
    Ok(())
}
