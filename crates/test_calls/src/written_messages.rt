//! Messages that are written item by item, against the octets that dnspython 2.3.0 writes for them.

use dns_names_wire::Name;
use dns_names_wire::message_writer::{DataError, Section, WriteError, WriterState};
use std::test::Fail;
use uses::messages::write_and_read;

/// A response of an authority for the servers of example.com, with one of their addresses.
const REFERRAL: &[u8] =
    b"\x12\x34\x85\x80\x00\x01\x00\x02\x00\x01\x00\x01\x07example\x03com\x00\x00\x02\x00\x01\
\xc0\x0c\x00\x02\x00\x01\x00\x00\x0e\x10\x00\x06\x03ns1\xc0\x0c\xc0\x0c\x00\x02\x00\x01\x00\x00\x0e\x10\x00\x06\x03ns2\xc0\x0c\
\xc0\x14\x00\x02\x00\x01\x00\x02\xa3\x00\x00\x14\x01a\x0cgtld-servers\x03net\x00\
\xc0\x29\x00\x01\x00\x01\x00\x00\x0e\x10\x00\x04\xc0\x00\x02\x01";

/// Adds a record of IN.
fn add(
    writer: &mut WriterState,
    room: &mut [u8],
    section: Section,
    owner: &Name,
    record_type: u16,
    ttl: u32,
    data: &[u8],
) -> Result<(), DataError> {
    writer.record_data(
        room,
        section,
        owner.wire_labels(),
        record_type,
        1,
        ttl,
        data,
    )
}

#[test]
fn items_one_by_one(rt: HostRuntime) -> Result<(), Fail> {
    let alloc = rt.alloc();
    let child = Name::from_ascii(alloc, "example.com.")?;
    let parent = Name::from_ascii(alloc, "com.")?;
    let first = Name::from_ascii(alloc, "ns1.example.com.")?;
    let second = Name::from_ascii(alloc, "ns2.example.com.")?;
    let other = Name::from_ascii(alloc, "a.gtld-servers.net.")?;
    let address = b"\xc0\x00\x02\x01".as_slice();
    let mut buffer = [7; 512];
    let room = buffer.as_mut_slice();
    let mut writer = WriterState::new();
    writer.begin(room, 0x1234, 0x8580, 512)?;
    writer.question(room, child.wire_labels(), 2, 1)?;
    for (section, owner, record_type, ttl, data) in [
        (Section::Answers, &child, 2, 3_600, first.as_wire()),
        (Section::Answers, &child, 2, 3_600, second.as_wire()),
        (Section::Authorities, &parent, 2, 172_800, other.as_wire()),
        (Section::Additionals, &first, 1, 3_600, address),
    ] {
        add(&mut writer, room, section, owner, record_type, ttl, data)?;
    }
    assert!(rt; writer.end == REFERRAL.len() && room.starts_with(REFERRAL));
    let late = add(
        &mut writer,
        room,
        Section::Answers,
        &child,
        2,
        3_600,
        first.as_wire(),
    );
    assert!(rt; matches!(late, Err(DataError::Write(WriteError::OutOfOrder))));
    assert!(rt; writer.end == REFERRAL.len() && room.starts_with(REFERRAL));
    Ok(())
}

/// The response of an authority that example.com. has an address.
const ADDRESS: &[u8] =
    b"\x00\x01\x84\x00\x00\x01\x00\x01\x00\x00\x00\x00\x07example\x03com\x00\x00\x01\x00\x01\
\xc0\x0c\x00\x01\x00\x01\x00\x00\x0e\x10\x00\x04\xc0\x00\x02\x01";

#[test]
fn a_caller_reads_what_it_wrote(rt: HostRuntime) -> Result<(), Fail> {
    let name = Name::from_ascii(rt.alloc(), "example.com.")?;
    let mut buffer = [7; 64];
    let room = buffer.as_mut_slice();
    let counts = write_and_read(room, 1, &name, &[192, 0, 2, 1])?;
    assert_eq!(rt; counts.queries, 1);
    assert_eq!(rt; counts.answers, 1);
    assert_eq!(rt; counts.authorities, 0);
    assert_eq!(rt; counts.additionals, 0);
    assert!(rt; room.starts_with(ADDRESS));
    Ok(())
}
