//! Records as steps of scripts.

use crate::sections::{Data, Row, record_of};
use dns_names_wire::binary::BinDecodable;
use dns_names_wire::decoder::BinDecoder;
use dns_names_wire::encoder::{CANDIDATE_LIMIT, NAME_LIMIT, RDataEncoding};
use dns_names_wire::error::{ProtoError, ProtoResult};
use dns_names_wire::name::Name;
use dns_names_wire::record::RecordRef;
use dns_names_wire::record_type::RecordType;
use dns_names_wire::script::{self, Reply, Step};
use std::alloc::Global;
use std::test::Fail;

/// An address of the owner `a.`, as a script writes it after that name.
const ADDRESS: Row<'static> = Row {
    owner: "a.",
    record_type: RecordType::A,
    data: Data::Bytes(b"\x01\x02\x03\x04"),
};

/// The name `a.` and its address.
const WITH_ADDRESS: &[u8] =
    b"\x01a\x00\xc0\x00\x00\x01\x00\x01\x00\x00\x01\x2c\x00\x04\x01\x02\x03\x04";

/// Returns the step that writes the name `a.`.
fn owner(alloc: Global) -> ProtoResult<Step> {
    Ok(Step::Name(Name::from_ascii(alloc, "a.")?))
}

/// Returns the step that writes a record of the owner `a.` with this name as its data.
fn with_name(
    alloc: Global,
    record_type: RecordType,
    text: &str,
    encoding: RDataEncoding,
) -> ProtoResult<Step> {
    let row = Row {
        owner: "a.",
        record_type,
        data: Data::Name(text, encoding),
    };
    Ok(Step::Record(record_of(alloc, row)?))
}

/// Returns the message that a script writes: this step, a header with these flags and counts, and a record for each row.
pub(crate) fn message_of(
    alloc: Global,
    first: Step,
    flags: u16,
    counts: [u16; 3],
    rows: &[Row<'_>],
) -> ProtoResult<Vec<u8>> {
    let mut steps = vec![in alloc; first, Step::U16(0x1234), Step::U16(flags), Step::U16(0)]?;
    for count in counts {
        steps.push(Step::U16(count))?;
    }
    for row in rows {
        steps.push(Step::Record(record_of(alloc, *row)?))?;
    }
    let mut bytes = Vec::new(alloc);
    script::run(alloc, &mut bytes, steps.as_slice())?;
    Ok(bytes)
}

/// Returns `true` if every step was done, and left the buffer with these lengths.
fn are_done(replies: &[Reply], lens: &[usize]) -> bool {
    replies.len() == lens.len()
        && replies.iter().zip(lens).all(|(
            reply,
            wanted,
        )| matches!(reply, Reply::Done { len } if len == wanted))
}

#[test]
fn records_share_names_with_what_is_before_them(rt: HostRuntime) -> Result<(), Fail> {
    let alloc = rt.alloc();
    let steps = vec![in alloc;
        owner(alloc)?,
        // a record after its owner's name begins with a pointer
        Step::Record(record_of(alloc, ADDRESS)?),
        // the name in the data of a standard record is compressed, and read back
        with_name(alloc, RecordType::NS, "b.a.", RDataEncoding::StandardRecord)?,
        // the name in other data is written whole
        with_name(alloc, RecordType::CNAME, "b.a.", RDataEncoding::Other)?,
    ]?;
    let mut bytes = Vec::new(alloc);
    let replies = script::run(alloc, &mut bytes, steps.as_slice())?;
    assert!(rt; are_done(replies.as_slice(), &[3, 19, 35, 52]));
    let next = b"\xc0\x00\x00\x02\x00\x01\x00\x00\x01\x2c\x00\x04\x01b\xc0\x00";
    let last = b"\xc0\x00\x00\x05\x00\x01\x00\x00\x01\x2c\x00\x05\x01b\x01a\x00";
    assert_eq!(rt; bytes.len(), 52);
    assert!(rt; bytes.as_slice().starts_with(WITH_ADDRESS));
    assert!(rt; &bytes.as_slice()[19..35] == next.as_slice());
    assert!(rt; bytes.as_slice().ends_with(last));
    let mut decoder = BinDecoder::new(bytes.as_slice());
    decoder.skip(19)?;
    let server = RecordRef::read(alloc, &mut decoder)?.data_name(alloc)?;
    assert_eq!(rt; server.as_wire(), b"\x01b\x01a\x00".as_slice());
    assert_eq!(rt; decoder.index(), 35);
    Ok(())
}

#[test]
fn a_refused_record_leaves_nothing(rt: HostRuntime) -> Result<(), Fail> {
    let alloc = rt.alloc();
    let steps = vec![in alloc;
        owner(alloc)?,
        Step::Max(18),
        Step::Record(record_of(alloc, ADDRESS)?),
        Step::Max(19),
        Step::Record(record_of(alloc, ADDRESS)?),
    ]?;
    // a record without room is refused whole, and written where it has room
    // With two names to be compressed, the second record shares its owner only if the first one is not counted.
    for names in [NAME_LIMIT, 2] {
        let mut bytes = Vec::new(alloc);
        let replies = script::run_limited(
            alloc,
            &mut bytes,
            steps.as_slice(),
            CANDIDATE_LIMIT,
            names,
        )?;
        assert_eq!(rt; replies.len(), 5);
        assert!(rt; are_done(&replies.as_slice()[..2], &[3, 3]));
        assert!(rt;
            matches!(
                replies.as_slice()[2],
                Reply::Refused {
                    error: ProtoError::MaxBufferSizeExceeded(18),
                    len: 3
                }
            )
        );
        assert!(rt; are_done(&replies.as_slice()[3..], &[3, 19]));
        assert_eq!(rt; bytes.as_slice(), WITH_ADDRESS);
    }
    Ok(())
}

#[test]
fn canonical_form_is_of_the_records_after_it(rt: HostRuntime) -> Result<(), Fail> {
    let alloc = rt.alloc();
    let steps = vec![in alloc;
        owner(alloc)?,
        Step::Canonical(true),
        with_name(alloc, RecordType::NS, "B.a.", RDataEncoding::StandardRecord)?,
        Step::Canonical(false),
        with_name(alloc, RecordType::NS, "B.a.", RDataEncoding::StandardRecord)?,
    ]?;
    let mut bytes = Vec::new(alloc);
    let replies = script::run(alloc, &mut bytes, steps.as_slice())?;
    // In canonical form the name in the data is whole and in lower case (RFC 4034, section 6.2).
    assert!(rt; are_done(replies.as_slice(), &[3, 3, 20, 20, 36]));
    let canonical = b"\xc0\x00\x00\x02\x00\x01\x00\x00\x01\x2c\x00\x05\x01b\x01a\x00";
    let standard = b"\xc0\x00\x00\x02\x00\x01\x00\x00\x01\x2c\x00\x04\x01B\xc0\x00";
    assert_eq!(rt; bytes.len(), 36);
    assert!(rt; &bytes.as_slice()[3..20] == canonical.as_slice());
    assert!(rt; bytes.as_slice().ends_with(standard));
    Ok(())
}
