//! Whole messages: those of `examples/responses`, which dnspython made and printed, and small ones that the RFCs rule out.

use dns_names_wire::binary::{BinDecodable, BinEncodable};
use dns_names_wire::decoder::BinDecoder;
use dns_names_wire::dns_class::DNSClass;
use dns_names_wire::error::DecodeError;
use dns_names_wire::message::{
    EdnsError, Header, MessageErrorKind, MessageRef, MessageType, OpCode, QueryRef, ResponseCode,
    Section,
};
use dns_names_wire::name::Name;
use dns_names_wire::record::RecordRef;
use dns_names_wire::record_type::RecordType;
use std::test::Fail;

/// `examples/responses/mail.hex`.
const MAIL: &str = "000784000001000600000002076578616d706c65036f72670000ff0001c00c00\
    0f000100000e100009000a046d782d61c00cc00c000f000100000e10000e0014\
    046d782d62046d61696cc00cc00c0010000100000e10003a24763d7370663120\
    696e636c7564653a5f7370662e6578616d706c652e6f7267202d616c6c136120\
    2271756f74656422205c20c8207061727400c00c0101000100000e1000160005\
    69737375656c657473656e63727970742e6f7267c00c0101000100000e100024\
    8005696f6465666d61696c746f3a686f73746d6173746572406578616d706c65\
    2e6f7267065f696d617073045f746370c00c0021000100000e10000800000005\
    03e1c02bc02b0001000100000e100004cb00711900002904d0000080000000";

/// `examples/responses/nxdomain.hex`.
const NXDOMAIN: &str = "ffff81b30001000000020001076e6f7468696e670468657265074578616d706c\
    6500001c0001c01900060001000003840027036e7331c0190a686f73746d6173\
    746572c01978c4052d00001c2000000e100012750000000384c019002f000100\
    00038400140161076578616d706c650000072200000000038000002910000000\
    00000000";

/// The octets of `MAIL`, and the offset at which its last record but one begins: 16 octets before the 11 of `OPT`.
const MAIL_LEN: usize = 287;

const MAIL_ADDRESS: usize = 260;

#[test]
fn the_header_and_the_question(rt: HostRuntime) -> Result<(), Fail> {
    let alloc = rt.alloc();
    let octets = hex::decode(alloc, MAIL)?;
    let message = MessageRef::read(octets.as_slice())?;
    let metadata = message.header().metadata;
    assert_eq!(rt; metadata.id, 7);
    assert_eq!(rt; metadata.message_type, MessageType::Response);
    assert_eq!(rt; metadata.op_code, OpCode::Query);
    assert!(rt; metadata.authoritative && !metadata.truncation && !metadata.recursion_desired);
    let owner = Name::from_ascii(alloc, "example.org.")?;
    let mut queries = message.queries();
    let query = queries.next().ok_or("a question")?;
    assert!(rt; query.name().eq_name(&owner));
    assert_eq!(rt; query.query_type(), RecordType::ANY);
    assert_eq!(rt; query.query_class(), DNSClass::IN);
    assert!(rt; queries.next().is_none());
    Ok(())
}

#[test]
fn mail_exchangers(rt: HostRuntime) -> Result<(), Fail> {
    let alloc = rt.alloc();
    let octets = hex::decode(alloc, MAIL)?;
    let message = MessageRef::read(octets.as_slice())?;
    let owner = Name::from_ascii(alloc, "example.org.")?;
    let types = [
        RecordType::MX,
        RecordType::MX,
        RecordType::TXT,
        RecordType::CAA,
        RecordType::CAA,
        RecordType::SRV,
    ];
    let mut answers = message.answers();
    for record_type in types {
        let record = answers.next().ok_or("an answer")?;
        assert_eq!(rt; record.record_type(), record_type);
        assert_eq!(rt; record.ttl(), 3600);
        assert_eq!(rt;
            record.owner().eq_name(&owner),
            record_type != RecordType::SRV
        );
    }
    assert!(rt; answers.next().is_none());
    assert!(rt; message.authorities().next().is_none());
    Ok(())
}

/// The question takes 17 octets after the header, and the owner of the first answer is a pointer. The additional records are an
/// address of 16 octets, whose owner is a pointer, and the `OPT` record of 11.
#[test]
fn edns_and_the_offsets(rt: HostRuntime) -> Result<(), Fail> {
    let octets = hex::decode(rt.alloc(), MAIL)?;
    let message = MessageRef::read(octets.as_slice())?;
    let edns = message.edns()?.ok_or("EDNS")?;
    assert_eq!(rt; edns.max_payload(), 1232);
    assert_eq!(rt; edns.version(), 0);
    assert!(rt; edns.dnssec_ok() && edns.options().next().is_none());
    assert!(rt; edns.options_offset() == MAIL_LEN && edns.options_len() == 0);
    assert_eq!(rt; message.response_code()?, ResponseCode::NoError);
    assert_eq!(rt; message.end(), MAIL_LEN);
    let offsets = message.section_offsets();
    assert_eq!(rt; offsets.answers, 29);
    assert!(rt; offsets.authorities == MAIL_LEN - 27 && offsets.additionals == MAIL_LEN - 27);
    let first = message.answers().next().ok_or("an answer")?;
    assert_eq!(rt; first.rdata_offset(), 41);
    let opt = message.opt()?.ok_or("an OPT record")?;
    assert_eq!(rt; opt.rdata_offset(), MAIL_LEN);
    Ok(())
}

#[test]
fn a_name_that_does_not_exist(rt: HostRuntime) -> Result<(), Fail> {
    let alloc = rt.alloc();
    let octets = hex::decode(alloc, NXDOMAIN)?;
    let message = MessageRef::read(octets.as_slice())?;
    let metadata = message.header().metadata;
    assert_eq!(rt; metadata.id, 65535);
    assert!(rt; metadata.recursion_desired && metadata.recursion_available);
    assert!(rt; metadata.authentic_data && metadata.checking_disabled && !metadata.authoritative);
    assert_eq!(rt; message.response_code()?, ResponseCode::NXDomain);
    let mut authorities = message.authorities();
    assert_eq!(rt;
        authorities.next().ok_or("a record")?.record_type(),
        RecordType::SOA
    );
    assert_eq!(rt;
        authorities.next().ok_or("another")?.record_type(),
        RecordType::NSEC
    );
    assert!(rt; authorities.next().is_none());
    let edns = message.edns()?.ok_or("EDNS")?;
    assert_eq!(rt; edns.max_payload(), 4096);
    assert!(rt; !edns.dnssec_ok());
    Ok(())
}

#[test]
fn headers_are_written_as_they_were(rt: HostRuntime) -> Result<(), Fail> {
    let alloc = rt.alloc();
    for text in [MAIL, NXDOMAIN] {
        let octets = hex::decode(alloc, text)?;
        let header = Header::from_bytes(alloc, octets.as_slice())?;
        let written = header.to_bytes(alloc)?;
        assert_eq!(rt; written.len(), 12);
        assert!(rt; octets.as_slice().starts_with(written.as_slice()));
        let mut decoder = BinDecoder::new(octets.as_slice());
        Header::read(alloc, &mut decoder)?;
        QueryRef::read_next(&mut decoder)?;
        RecordRef::read_next(&mut decoder)?;
        assert_eq!(rt; header.metadata.op_code.code(), 0);
    }
    Ok(())
}

/// A decoder of the first octets of a message, at an offset.
fn cut(message: &[u8], end: usize, start: usize) -> Result<BinDecoder<'_>, DecodeError> {
    let mut decoder = BinDecoder::new(message.get(..end).ok_or(DecodeError::InsufficientBytes)?);
    decoder.skip(start)?;
    Ok(decoder)
}

#[test]
fn a_question_or_record_that_is_cut_leaves_the_cursor(rt: HostRuntime) -> Result<(), Fail> {
    let octets = hex::decode(rt.alloc(), MAIL)?;
    // The question is after the header, and takes 13 octets of its name and four; the first record takes 12 and nine of data.
    for end in 12..29 {
        let mut decoder = cut(octets.as_slice(), end, 12)?;
        assert!(rt; QueryRef::read_next(&mut decoder).is_err());
        assert_eq!(rt; decoder.index(), 12);
    }
    for end in 29..50 {
        let mut decoder = cut(octets.as_slice(), end, 29)?;
        assert!(rt; RecordRef::read_next(&mut decoder).is_err());
        assert_eq!(rt; decoder.index(), 29);
        assert!(rt; RecordRef::read(rt.alloc(), &mut decoder).is_err());
        assert_eq!(rt; decoder.index(), 29);
    }
    let mut decoder = cut(octets.as_slice(), 50, 12)?;
    assert!(rt; QueryRef::read_next(&mut decoder).is_ok());
    assert_eq!(rt; decoder.index(), 29);
    assert!(rt; RecordRef::read_next(&mut decoder).is_ok());
    assert_eq!(rt; decoder.index(), 50);
    Ok(())
}

#[test]
fn pointers_are_counted(rt: HostRuntime) -> Result<(), Fail> {
    let octets = hex::decode(rt.alloc(), MAIL)?;
    // Six owners follow one pointer, and the last address two; `OPT` follows none.
    assert!(rt; MessageRef::read_limited(octets.as_slice(), 8).is_ok());
    let Err(error) = MessageRef::read_limited(octets.as_slice(), 7) else {
        return Err(Fail::from("seven pointers were enough"));
    };
    assert_eq!(rt; error.section, Section::Additionals);
    assert_eq!(rt; error.item, 0);
    assert_eq!(rt; error.offset, MAIL_ADDRESS);
    assert!(rt; matches!(error.kind, MessageErrorKind::TooManyPointers));
    Ok(())
}

#[test]
fn cut_messages_say_where(rt: HostRuntime) -> Result<(), Fail> {
    let octets = hex::decode(rt.alloc(), MAIL)?;
    let ends = [
        (11, Section::Header, 0, 0),
        (28, Section::Queries, 0, 12),
        (MAIL_LEN - 1, Section::Additionals, 1, MAIL_LEN - 11),
    ];
    for (end, section, item, offset) in ends {
        let cut = octets.as_slice().get(..end).ok_or("octets")?;
        let Err(error) = MessageRef::read(cut) else {
            return Err(Fail::from("a cut message was read"));
        };
        assert_eq!(rt; error.section, section);
        assert_eq!(rt; error.item, item);
        assert_eq!(rt; error.offset, offset);
        assert!(rt;
            matches!(
                error.kind,
                MessageErrorKind::Decode(DecodeError::InsufficientBytes)
            )
        );
    }
    Ok(())
}

#[test]
fn octets_may_follow(rt: HostRuntime) -> Result<(), Fail> {
    let mut octets = hex::decode(rt.alloc(), NXDOMAIN)?;
    let end = octets.len();
    octets.extend_from_slice(b"more")?;
    let message = MessageRef::read(octets.as_slice())?;
    assert_eq!(rt; message.end(), end);
    assert_eq!(rt; message.trailing(), b"more".as_slice());
    Ok(())
}

/// A header with two additional records, an `OPT` record of 4096 octets with an empty option of code 3 (NSID, RFC 5001), and
/// a second one without options and with the high bits of `BADVERS` (RFC 6891, section 6.1.3).
const TWO: &[u8] = b"\x00\x01\x80\x00\x00\x00\x00\x00\x00\x00\x00\x02\
\x00\x00\x29\x10\x00\x00\x00\x00\x00\x00\x04\x00\x03\x00\x00\
\x00\x00\x29\x01\x00\x01\x00\x00\x00\x00\x00";

/// The octets of `TWO` with these at two offsets.
fn with(changes: [(usize, u8); 2]) -> [u8; 38] {
    let mut octets = [0; 38];
    octets.copy_from_slice(TWO);
    for (at, octet) in changes {
        if let Some(changed) = octets.get_mut(at) {
            *changed = octet;
        }
    }
    octets
}

#[test]
fn rules_of_edns(rt: HostRuntime) -> Result<(), Fail> {
    let message = MessageRef::read(TWO)?;
    assert!(rt;
        matches!(
            message.edns(),
            Err(EdnsError::Decode(DecodeError::DuplicateEdns))
        )
    );
    assert!(rt;
        matches!(
            message.opt(),
            Err(EdnsError::Decode(DecodeError::DuplicateEdns))
        )
    );
    assert!(rt;
        matches!(
            message.response_code(),
            Err(EdnsError::Decode(DecodeError::DuplicateEdns))
        )
    );
    let one = with([(11, 1), (0, 0)]);
    let edns = MessageRef::read(&one)?.edns()?.ok_or("EDNS")?;
    let mut options = edns.options();
    let option = options.next().ok_or("an option")?;
    assert_eq!(rt; option.code(), 3);
    assert!(rt; option.octets().is_empty() && options.next().is_none());
    let longer = with([(11, 1), (26, 1)]);
    assert!(rt; matches!(MessageRef::read(&longer)?.edns(), Err(EdnsError::CutOption)));
    assert!(rt; matches!(MessageRef::read(&longer)?.opt(), Err(EdnsError::CutOption)));
    // The first record becomes one of type 0x2a, so that the second is the only `OPT`.
    let second = with([(14, 0x2a), (0, 0)]);
    let message = MessageRef::read(&second)?;
    assert_eq!(rt; message.edns()?.ok_or("EDNS")?.max_payload(), 512);
    assert_eq!(rt; message.response_code()?, ResponseCode::BADVERS);
    assert_eq!(rt; message.response_code()?.code(), 16);
    Ok(())
}

/// Returns `true` for the error of an `OPT` record in another section.
fn is_misplaced<T>(found: &Result<T, EdnsError>) -> bool {
    matches!(
        found,
        Err(EdnsError::Decode(DecodeError::RecordNotInAdditionalSection(RecordType::OPT)))
    )
}

/// An `OPT` record as an answer or as an authority, alone or with one among the additional records, breaks the first rule of
/// EDNS. It is a record of the message all the same.
#[test]
fn opt_is_an_additional_record(rt: HostRuntime) -> Result<(), Fail> {
    for (section, is_answer) in [(7, true), (9, false)] {
        // `TWO` as a message of one record, and as one of a record in each of two sections.
        for additionals in [0, 1] {
            let octets = with([(section, 1), (11, additionals)]);
            let message = MessageRef::read(&octets)?;
            assert_eq!(rt; message.answers().next().is_some(), is_answer);
            assert_eq!(rt; message.authorities().next().is_some(), !is_answer);
            assert_eq!(rt; message.additionals().next().is_some(), additionals == 1);
            assert!(rt; is_misplaced(&message.edns()));
            assert!(rt; is_misplaced(&message.opt()));
            assert!(rt; is_misplaced(&message.response_code()));
        }
        // A record of another type in the section, and the `OPT` record among the additional ones.
        let mut other = with([(section, 1), (11, 1)]);
        other[14] = 0x2a;
        assert!(rt; MessageRef::read(&other)?.edns()?.is_some());
        // The `OPT` record in the section, before one of another type.
        let mut first = with([(section, 2), (11, 0)]);
        first[29] = 0x2a;
        assert!(rt; is_misplaced(&MessageRef::read(&first)?.edns()));
    }
    Ok(())
}

#[test]
fn opt_belongs_to_the_root(rt: HostRuntime) -> Result<(), Fail> {
    let octets =
        b"\x00\x01\x00\x00\x00\x00\x00\x00\x00\x00\x00\x01\x01a\x00\x00\x29\x10\x00\x00\x00\x00\x00\x00\x00";
    assert!(rt;
        matches!(
            MessageRef::read(octets)?.edns(),
            Err(EdnsError::OwnerNotRoot)
        )
    );
    Ok(())
}
