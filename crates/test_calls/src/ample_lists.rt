//! Items that are added to lists: at every size that a body could take for a limit, with ample memory.

use crate::ample::{LIMITS, counts, record_octets, sizes};
use dns_names_wire::message_list::{Need, PushError, push_data, push_question, push_record};
use dns_names_wire::message_writer::Section;
use dns_names_wire::name::Name;
use dns_names_wire::{BinDecoder, RecordRef};
use std::alloc::Global;
use std::test::Fail;

/// Adds a record of the root, with these data, to the answers of a list.
fn push(alloc: Global, list: &mut Vec<u8>, own: &[u8]) -> Result<(), PushError> {
    let root = Name::root(alloc);
    let owner = root.wire_labels();
    push_data(list, Section::Answers, Need::Usual, owner, 999, 1, 60, own)
}

#[test]
fn records_of_any_size_go_into_lists(rt: HostRuntime) -> Result<(), Fail> {
    let alloc = rt.alloc();
    let all = sizes(alloc)?;
    for len in all.as_slice() {
        let mut own = Vec::new(alloc);
        own.resize(*len, 7)?;
        let mut list = Vec::new(alloc);
        push(alloc, &mut list, own.as_slice())?;
        assert!(rt; list.len() == *len + 12);
        let octets = record_octets(alloc, 999, own.as_slice())?;
        let record = RecordRef::read_next(&mut BinDecoder::new(octets.as_slice()))?;
        push_record(&mut list, Section::Answers, Need::Optional, &record)?;
        assert!(rt; list.len() == *len + 12 + octets.len() + 1);
    }
    let mut long = Vec::new(alloc);
    long.resize(65_536, 7)?;
    let mut list = Vec::new(alloc);
    let pushed = push(alloc, &mut list, long.as_slice());
    assert!(rt; pushed == Err(PushError::TooLong) && list.is_empty());
    Ok(())
}

#[test]
fn lists_of_any_size_take_questions(rt: HostRuntime) -> Result<(), Fail> {
    let alloc = rt.alloc();
    let root = Name::root(alloc);
    let all = counts(alloc, &LIMITS)?;
    for count in all.as_slice() {
        let mut list = Vec::new(alloc);
        for _ in 0..*count {
            push_question(&mut list, root.wire_labels(), 1, 1)?;
        }
        assert!(rt; list.len() == *count * 6);
    }
    Ok(())
}
