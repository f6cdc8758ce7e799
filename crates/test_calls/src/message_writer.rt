//! Messages written into a buffer of the caller. The octets are worked out by hand from RFC 1035, sections 4.1 and 4.1.4.

use dns_names_wire::message_writer::{
    Asked, Data, DataError, Edns, Piece, ReplyError, SLOTS, Section, WriteError, WriterState,
    pieces_of, whole_name,
};
use dns_names_wire::name::Name;
use std::test::Fail;

/// An answer to a query for the mail exchange of `a.example.`, and the address of `mx.a.example.`
const ANSWER: &[u8] =
    b"\x12\x34\x81\x80\x00\x01\x00\x01\x00\x00\x00\x01\x01a\x07example\x00\x00\x0f\x00\x01\
\xc0\x0c\x00\x0f\x00\x01\x00\x00\x00\x3c\x00\x07\x00\x0a\x02mx\xc0\x0c\
\xc0\x29\x00\x01\x00\x01\x00\x00\x00\x3c\x00\x04\xc0\x00\x02\x01";

/// The data of two addresses.
const FIRST: &[u8] = b"\xc0\x00\x02\x01";

const SECOND: &[u8] = b"\xc0\x00\x02\x02";

fn no_message() -> WriterState {
    WriterState {
        end: 0,
        max_size: 0,
        reserved: 0,
        owner: 0,
        rank: 0,
        has_opt: 0,
        hints: [0; SLOTS],
    }
}

/// Adds `a.example. 60 IN MX 10 mx.a.example.` to the answers.
fn add_exchange(
    state: &mut WriterState,
    buffer: &mut [u8],
    owner: &Name,
    host: &Name,
) -> Result<(), WriteError> {
    let data = [Piece::Octets(b"\x00\x0a"), Piece::Name(host.wire_labels())];
    state.record(
        buffer,
        Section::Answers,
        owner.wire_labels(),
        15,
        1,
        60,
        &data,
    )
}

/// Adds `mx.a.example. 60 IN A 192.0.2.1` to the additional records.
fn add_address(state: &mut WriterState, buffer: &mut [u8], host: &Name) -> Result<(), WriteError> {
    let data = [Piece::Octets(b"\xc0\x00\x02\x01")];
    state.record(
        buffer,
        Section::Additionals,
        host.wire_labels(),
        1,
        1,
        60,
        &data,
    )
}

#[test]
fn an_answer_is_written_into_a_buffer(rt: HostRuntime) -> Result<(), Fail> {
    let alloc = rt.alloc();
    let owner = Name::from_ascii(alloc, "a.example.")?;
    let host = Name::from_ascii(alloc, "mx.a.example.")?;
    let mut buffer = [7; 80];
    let mut state = no_message();
    let early = state.question(&mut buffer, owner.wire_labels(), 15, 1);
    assert!(rt; early == Err(WriteError::NoMessage));
    let begun = state.begin(&mut buffer, 0x1234, 0x8180, ANSWER.len());
    assert!(rt; begun.is_ok());
    let asked = state.question(&mut buffer, owner.wire_labels(), 15, 1);
    assert!(rt; asked.is_ok());
    assert!(rt; add_exchange(&mut state, &mut buffer, &owner, &host).is_ok());
    assert!(rt; add_address(&mut state, &mut buffer, &host).is_ok());
    assert!(rt; state.end == ANSWER.len() && &buffer[..state.end] == ANSWER);
    let late = add_exchange(&mut state, &mut buffer, &owner, &host);
    assert!(rt; late == Err(WriteError::OutOfOrder));
    let more = add_address(&mut state, &mut buffer, &host);
    assert!(rt; more == Err(WriteError::NoRoom));
    assert!(rt; state.end == ANSWER.len() && &buffer[..state.end] == ANSWER);
    Ok(())
}

#[test]
fn no_buffer_of_less_than_a_header_has_a_message(rt: HostRuntime) {
    let mut buffer = [7; 11];
    let outcome = no_message().begin(&mut buffer, 1, 2, 512);
    assert!(rt; outcome == Err(WriteError::NoRoom) && buffer == [7; 11]);
}

/// A message of at most 46 octets, whose answers are `a. 60 IN A 192.0.2.1`.
fn after_one_address(owner: &Name) -> Result<(WriterState, [u8; 64]), WriteError> {
    let mut buffer = [0; 64];
    let mut state = no_message();
    state.begin(&mut buffer, 1, 0x8000, 46)?;
    add_addresses(&mut state, &mut buffer, owner, 1)?;
    Ok((state, buffer))
}

/// Adds so many of the addresses 192.0.2.1 and 192.0.2.2 to the answers, as one set.
fn add_addresses(
    state: &mut WriterState,
    buffer: &mut [u8],
    owner: &Name,
    count: usize,
) -> Result<(), WriteError> {
    let (first, second) = ([Piece::Octets(FIRST)], [Piece::Octets(SECOND)]);
    let set = [Data { pieces: &first }, Data { pieces: &second }];
    let set = &set[..count.min(2)];
    state.record_set(buffer, Section::Answers, owner.wire_labels(), 1, 1, 60, set)
}

/// A set has no room if one of its records has none, and TC says so if it is required.
#[test]
fn a_set_is_whole_or_left_out(rt: HostRuntime) -> Result<(), Fail> {
    let owner = Name::from_ascii(rt.alloc(), "a.")?;
    let (mut state, mut buffer) = after_one_address(&owner)?;
    assert!(rt; state.end == 29);
    let before = buffer;
    let outcome = add_addresses(&mut state, &mut buffer, &owner, 2);
    assert!(rt; outcome == Err(WriteError::NoRoom) && state.end == 29);
    assert!(rt; buffer[..29] == before[..29]);
    let (first, second) = ([Piece::Octets(FIRST)], [Piece::Octets(SECOND)]);
    let set = [Data { pieces: &first }, Data { pieces: &second }];
    let answers = Section::Answers;
    let outcome = state.require_set(&mut buffer, answers, owner.wire_labels(), 1, 1, 60, &set);
    assert!(rt; outcome == Err(WriteError::NoRoom) && state.end == 29);
    assert!(rt; buffer[2] == 0x82 && buffer[7] == 1 && buffer[12..29] == before[12..29]);
    Ok(())
}

/// The octets that are held back are for a last record, after which none follows.
#[test]
fn a_last_record_has_what_is_held_back(rt: HostRuntime) -> Result<(), Fail> {
    let owner = Name::from_ascii(rt.alloc(), "a.")?;
    let (mut state, mut buffer) = after_one_address(&owner)?;
    assert!(rt; state.end == 29);
    state.hold_back(17);
    assert!(rt; add_addresses(&mut state, &mut buffer, &owner, 1).is_err());
    let data = [Piece::Octets(SECOND)];
    let last = state.last_record(&mut buffer, 17, owner.wire_labels(), 250, 255, 0, &data);
    assert!(rt; last.is_ok() && state.end == 46);
    assert!(rt;
        &buffer[29..46]
            == b"\x01a\x00\x00\xfa\x00\xff\x00\x00\x00\x00\x00\x04\xc0\x00\x02\x02".as_slice()
    );
    state.max_size = 64;
    let outcome = add_addresses(&mut state, &mut buffer, &owner, 1);
    assert!(rt; outcome == Err(WriteError::OutOfOrder));
    Ok(())
}

/// A query for the address of `a.`, by a sender that accepts 1,232 octets and DNSSEC records.
const QUERY: &[u8] = b"\xab\xcd\x01\x10\x00\x01\x00\x00\x00\x00\x00\x01\x01a\x00\x00\x01\x00\x01\
\x00\x00\x29\x04\xd0\x00\x00\x80\x00\x00\x00";

/// The reply, with an address, and padded to 64 octets.
const REPLY: &[u8] = b"\xab\xcd\x85\x10\x00\x01\x00\x01\x00\x00\x00\x01\x01a\x00\x00\x01\x00\x01\
\xc0\x0c\x00\x01\x00\x01\x00\x00\x00\x3c\x00\x04\xc0\x00\x02\x01\
\x00\x00\x29\x04\xd0\x00\x00\x80\x00\x00\x12\x00\x0c\x00\x0e\
\x00\x00\x00\x00\x00\x00\x00\x00\x00\x00\x00\x00\x00\x00";

#[test]
fn a_reply_has_the_question_edns_and_padding(rt: HostRuntime) -> Result<(), Fail> {
    let mut buffer = [7; 100];
    let mut state = no_message();
    let asked = Asked {
        has_edns: true,
        max_payload: 1232,
        dnssec_ok: true,
        rcode: 0,
    };
    assert!(rt; state.reply_to(&mut buffer, QUERY, 0x0400, 0, 512) == Ok(asked));
    assert!(rt; state.end == 19 && state.reserved == 11);
    let owner = whole_name(b"\x01a\x00").unwrap();
    let answers = Section::Answers;
    let address = b"\xc0\x00\x02\x01";
    let short = state.record_data(&mut buffer, answers, owner.clone(), 1, 1, 60, &address[1..]);
    assert!(rt; short == Err(DataError::Data) && state.end == 19);
    let cut = state.set_data(
        &mut buffer,
        answers,
        owner.clone(),
        1,
        1,
        60,
        b"\x00\x04\xc0",
    );
    assert!(rt; cut == Err(DataError::List) && state.end == 19);
    let list = b"\x00\x04\xc0\x00\x02\x01";
    let added = state.set_data(&mut buffer, answers, owner, 1, 1, 60, list);
    assert!(rt; added.is_ok());
    let edns = Edns {
        max_payload: 1232,
        rcode_high: 0,
        version: 0,
        dnssec_ok: true,
        options: b"",
    };
    let cut = Edns {
        options: b"\x00\x03\x00\x01",
        ..edns
    };
    assert!(rt; state.edns(&mut buffer, 11, &cut, 64) == Err(WriteError::CutOption));
    assert!(rt; state.edns(&mut buffer, 11, &edns, 64).is_ok());
    assert!(rt; state.edns(&mut buffer, 0, &edns, 0) == Err(WriteError::SecondOpt));
    assert!(rt; state.end == REPLY.len() && &buffer[..state.end] == REPLY);
    Ok(())
}

#[test]
fn what_is_no_request_has_no_reply(rt: HostRuntime) {
    let mut buffer = [7; 100];
    let mut state = no_message();
    let outcome = state.reply_to(&mut buffer, REPLY, 0, 0, 512);
    assert!(rt; outcome == Err(ReplyError::NoRequest) && buffer == [7; 100]);
    let outcome = state.reply_to(&mut buffer, &QUERY[..11], 0, 0, 512);
    assert!(rt; outcome == Err(ReplyError::NoRequest));
    let outcome = state.reply_to(&mut buffer, QUERY, 0, 4096, 512);
    assert!(rt; outcome == Err(ReplyError::LongCode) && buffer == [7; 100]);
    let refused = Asked {
        has_edns: false,
        max_payload: 512,
        dnssec_ok: false,
        rcode: 1,
    };
    assert!(rt; state.reply_to(&mut buffer, &QUERY[..18], 0x0400, 0, 512) == Ok(refused));
    assert!(rt; &buffer[..12] == b"\xab\xcd\x85\x11\x00\x00\x00\x00\x00\x00\x00\x00".as_slice());
    assert!(rt; state.end == 12);
}

#[test]
fn a_query_has_its_question_and_a_size(rt: HostRuntime) {
    let mut buffer = [7; 100];
    let mut state = no_message();
    let name = whole_name(b"\x01a\x00").unwrap();
    let plain = state.query(&mut buffer, 0xabcd, false, name.clone(), 1, 1, None, 512);
    assert!(rt; plain.is_ok() && state.end == 19);
    assert!(rt;
        &buffer[..19]
            == b"\xab\xcd\x00\x00\x00\x01\x00\x00\x00\x00\x00\x00\x01a\x00\x00\x01\x00\x01".as_slice()
    );
    let sized = state.query(
        &mut buffer,
        0xabcd,
        true,
        name.clone(),
        1,
        1,
        Some(1232),
        30,
    );
    assert!(rt; sized.is_ok() && state.end == 30);
    assert!(rt; &buffer[2..4] == b"\x01\x00".as_slice());
    assert!(rt; &buffer[19..30] == b"\x00\x00\x29\x04\xd0\x00\x00\x00\x00\x00\x00".as_slice());
    let full = state.query(&mut buffer, 1, true, name.clone(), 1, 1, Some(1232), 29);
    assert!(rt; full == Err(WriteError::NoRoom) && state.end == 30 && state.max_size == 30);
    let short = state.query(&mut buffer[..11], 1, true, name, 1, 1, None, 512);
    assert!(rt; short == Err(WriteError::NoRoom) && state.end == 30);
}

#[test]
fn names_of_the_first_types_are_pieces(rt: HostRuntime) {
    let mail = pieces_of(1, 15, b"\x00\x0a\x02mx\x00").unwrap();
    assert!(rt;
        matches!(
            mail.as_slice(),
            [Piece::Octets(b"\x00\x0a"), Piece::Name(_)]
        )
    );
    let service = pieces_of(1, 33, b"\x00\x01\x00\x02\x00\x03\x02mx\x00").unwrap();
    assert!(rt; matches!(service.as_slice(), [Piece::Octets(_)]));
    assert!(rt; pieces_of(1, 15, b"\x00\x0a\xc0\x0c").is_none());
    assert!(rt; pieces_of(254, 15, b"").unwrap().as_slice().is_empty());
}
