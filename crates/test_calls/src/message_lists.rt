//! Messages from lists of items. The octets are worked out by hand from RFC 1035, sections 4.1 and 4.1.4.

use dns_names_wire::message_list::{
    ListError, Need, PushError, Written, fill_list, push_data, push_question, push_record,
    write_list,
};
use dns_names_wire::message_writer::{SLOTS, Section, WriterState};
use dns_names_wire::name::Name;
use dns_names_wire::record::RecordRef;
use dns_names_wire::{BinDecodable, BinDecoder};
use std::alloc::Global;
use std::test::Fail;

/// The id, the flags and the response code of a response.
const ID: u16 = 0x1234;

const RESPONSE: u16 = 0x8180;

/// An answer to a query for the mail exchange of `a.example.`, the address of `mx.a.example.`, and `OPT`.
const ANSWER: &[u8] =
    b"\x12\x34\x81\x80\x00\x01\x00\x01\x00\x00\x00\x02\x01a\x07example\x00\x00\x0f\x00\x01\
\xc0\x0c\x00\x0f\x00\x01\x00\x00\x00\x3c\x00\x07\x00\x0a\x02mx\xc0\x0c\
\xc0\x29\x00\x01\x00\x01\x00\x00\x00\x3c\x00\x04\xc0\x00\x02\x01\
\x00\x00\x29\x04\xd0\x00\x00\x80\x00\x00\x00";

/// How many octets it has up to its first answer, and up to its additional records.
const ASKED: usize = 27;

const ANSWERED: usize = 46;

/// Adds the root's record of a type, a class and a time to live to the additional records of a list.
fn push_last(list: &mut Vec<u8>, owner: &Name, code: u16, own: &[u8]) -> Result<(), PushError> {
    push_data(
        list,
        Section::Additionals,
        Need::Usual,
        owner.wire_labels(),
        code,
        1232,
        0x8000,
        own,
    )
}

/// Returns the list of `ANSWER`. `OPT` is before the address, which is needed as is said.
fn list_of(alloc: Global, need: Need) -> Result<Vec<u8>, Fail> {
    let owner = Name::from_ascii(alloc, "a.example.")?;
    let host = Name::from_ascii(alloc, "mx.a.example.")?;
    let mut list = Vec::new(alloc);
    push_question(&mut list, owner.wire_labels(), 15, 1)?;
    let exchange = b"\x00\x0a\x02mx\x01a\x07example\x00";
    let mx = (Section::Answers, Need::Usual, owner.wire_labels());
    push_data(&mut list, mx.0, mx.1, mx.2, 15, 1, 60, exchange)?;
    push_last(&mut list, &Name::root(alloc), 41, b"")?;
    let address = (Section::Additionals, need, host.wire_labels());
    push_data(
        &mut list,
        address.0,
        address.1,
        address.2,
        1,
        1,
        60,
        b"\xc0\x00\x02\x01",
    )?;
    Ok(list)
}

/// Writes the message of a list into at most so many octets.
fn written(list: &[u8], max_size: usize, buffer: &mut [u8]) -> Result<Written, ListError> {
    write_list(list, max_size, ID, RESPONSE, 0, true, 0, buffer)
}

#[test]
fn a_list_becomes_a_message(rt: HostRuntime) -> Result<(), Fail> {
    let alloc = rt.alloc();
    let list = list_of(alloc, Need::Usual)?;
    let mut buffer = [7; 100];
    let whole = written(list.as_slice(), 512, &mut buffer)?;
    assert!(rt; whole.len == ANSWER.len() && !whole.truncated);
    assert!(rt; &buffer[..whole.len] == ANSWER);
    let tight = written(list.as_slice(), ANSWER.len(), &mut buffer)?;
    assert!(rt; tight == whole && &buffer[..whole.len] == ANSWER);
    Ok(())
}

#[test]
fn what_has_no_room_is_left_out(rt: HostRuntime) -> Result<(), Fail> {
    let alloc = rt.alloc();
    let mut buffer = [7; 100];
    // The address is extra; so it goes, and nothing is said, but if the caller says that it must not.
    for (need, is_missed) in [
        (Need::Usual, false),
        (Need::Optional, false),
        (Need::Required, true),
    ] {
        let list = list_of(alloc, need)?;
        let cut = written(list.as_slice(), ANSWER.len() - 1, &mut buffer)?;
        assert!(rt; cut.len == ANSWERED + 11 && cut.truncated == is_missed);
        assert!(rt; &buffer[12..ANSWERED] == &ANSWER[12..ANSWERED]);
        assert!(rt; &buffer[6..12] == b"\x00\x01\x00\x00\x00\x01".as_slice());
        assert!(rt; &buffer[ANSWERED..cut.len] == &ANSWER[ANSWER.len() - 11..]);
    }
    // The answer is missed.
    let list = list_of(alloc, Need::Usual)?;
    let bare = written(list.as_slice(), ASKED + 11, &mut buffer)?;
    assert!(rt; bare.len == ASKED + 11 && bare.truncated);
    let short = written(list.as_slice(), ASKED + 10, &mut buffer);
    assert!(rt; short == Err(ListError::TooLong));
    Ok(())
}

#[test]
fn lists_that_are_none_fail(rt: HostRuntime) -> Result<(), Fail> {
    let alloc = rt.alloc();
    let root = Name::root(alloc);
    let mut buffer = [7; 100];
    let list = list_of(alloc, Need::Usual)?;
    let cut = written(&list.as_slice()[..list.len() - 1], 512, &mut buffer);
    assert!(rt; cut == Err(ListError::BadItem));
    let none = written(b"\x07\x00\x00\x01\x00\x01", 512, &mut buffer);
    assert!(rt; none == Err(ListError::BadItem));
    assert!(rt; written(b"", 512, &mut buffer[..11]) == Err(ListError::NoRoom));
    assert!(rt; written(b"", 11, &mut buffer) == Err(ListError::TooLong));
    for (code, own, error) in [
        (41, b"\x00".as_slice(), ListError::CutOption),
        (15, b"\x00", ListError::BadData),
    ] {
        let mut list = Vec::new(alloc);
        push_last(&mut list, &root, code, own)?;
        assert!(rt; written(list.as_slice(), 512, &mut buffer) == Err(error));
    }
    let mut twice = Vec::new(alloc);
    push_last(&mut twice, &root, 41, b"")?;
    push_last(&mut twice, &root, 41, b"")?;
    assert!(rt; written(twice.as_slice(), 512, &mut buffer) == Err(ListError::SecondOpt));
    let mut owned = Vec::new(alloc);
    push_last(&mut owned, &Name::from_ascii(alloc, "a.")?, 41, b"")?;
    assert!(rt; written(owned.as_slice(), 512, &mut buffer) == Err(ListError::OwnerNotRoot));
    Ok(())
}

#[test]
fn records_of_a_list_fill_messages(rt: HostRuntime) -> Result<(), Fail> {
    let alloc = rt.alloc();
    let root = Name::root(alloc);
    let mut list = Vec::new(alloc);
    for octet in 1..4 {
        let address = [192, 0, 2, octet];
        let answer = (Section::Answers, Need::Usual, root.wire_labels());
        push_data(&mut list, answer.0, answer.1, answer.2, 1, 1, 60, &address)?;
    }
    let mut buffer = [7; 42];
    let mut state = no_message();
    state.begin(&mut buffer, ID, RESPONSE, 42)?;
    let next = fill_list(&mut buffer, list.as_slice(), 0, &mut state)?;
    assert!(rt; next == 32 && state.end == 42 && &buffer[6..8] == b"\x00\x02".as_slice());
    let full = fill_list(&mut buffer, list.as_slice(), next, &mut state);
    assert!(rt; full == Err(ListError::TooLong));
    state.begin(&mut buffer, ID, RESPONSE, 42)?;
    assert!(rt; fill_list(&mut buffer, list.as_slice(), next, &mut state) == Ok(48));
    assert!(rt; state.end == 27 && &buffer[23..27] == b"\xc0\x00\x02\x03".as_slice());
    let past = fill_list(&mut buffer, list.as_slice(), 49, &mut state);
    assert!(rt; past == Err(ListError::BadItem));
    Ok(())
}

#[test]
fn records_that_were_read_go_into_lists(rt: HostRuntime) -> Result<(), Fail> {
    let alloc = rt.alloc();
    let mut decoder = BinDecoder::new(&ANSWER[..ANSWERED + 16]);
    decoder.skip(ANSWERED)?;
    let address = RecordRef::read_next(&mut decoder)?;
    let mut list = Vec::new(alloc);
    push_record(&mut list, Section::Additionals, Need::Required, &address)?;
    let octets =
        b"\x23\x02mx\x01a\x07example\x00\x00\x01\x00\x01\x00\x00\x00\x3c\x00\x04\xc0\x00\x02\x01";
    assert!(rt; list.as_slice() == octets.as_slice());
    Ok(())
}

fn no_message() -> WriterState {
    WriterState {
        end: 0,
        max_size: 0,
        reserved: 0,
        owner: 0,
        rank: 0,
        has_opt: 0,
        hints: [0; SLOTS],
    }
}
