//! Calls that may report out of memory, with ample memory, for what is ordinary and has no other test: nothing at all, names of
//! each number of labels, lists of names and words, files that are included, and messages with records in each section. No
//! contract refuses a body that reports out of memory for one of them, so these tests have to.

use crate::ample::{counts, octets, record_octets};
use crate::sort_keys::name_of;
use dns_names_wire::binary::BinEncodable;
use dns_names_wire::canonical::signed_fields;
use dns_names_wire::decoder::BinDecoder;
use dns_names_wire::dns_class::DNSClass;
use dns_names_wire::dnssec::zone_digest;
use dns_names_wire::encoder::BinEncoder;
use dns_names_wire::label::Label;
use dns_names_wire::lower_name::LowerName;
use dns_names_wire::message::MessageRef;
use dns_names_wire::message_writer::WriterState;
use dns_names_wire::name::Name;
use dns_names_wire::name_ref::NameRef;
use dns_names_wire::rdata::RData;
use dns_names_wire::record_type::RecordType;
use dns_names_wire::record_type_set::RecordTypeSet;
use dns_names_wire::script;
use dns_names_wire::txt::{Lexer, Token};
use dns_names_wire::zone::{
    Context, Entry, append_origin, append_ttl, entry_of, read_records, scan,
};
use std::alloc::Global;
use std::test::Fail;

#[test]
fn there_may_be_nothing(rt: HostRuntime) -> Result<(), Fail> {
    let alloc = rt.alloc();
    let mut bytes = Vec::new(alloc);
    assert_eq!(rt; script::run(alloc, &mut bytes, &[])?.len(), 0);
    assert_eq!(rt; script::run_limited(alloc, &mut bytes, &[], 1, 1)?.len(), 0);
    assert_eq!(rt;
        BinDecoder::new(b"").read_vec(alloc, 0)?.unverified().len(),
        0
    );
    let set = RecordTypeSet::new(alloc, Vec::new(alloc))?;
    assert_eq!(rt; set.clone()?.to_bytes(alloc)?.len(), 0);
    let data = RData::new(alloc, DNSClass::IN, RecordType::NULL, b"")?;
    assert_eq!(rt; data.octets().len(), 0);
    assert!(rt; signed_fields(alloc, &data).is_err());
    assert_eq!(rt; read_records(alloc, Name::root(alloc), b"")?.len(), 0);
    // The SHA-384 hash of nothing begins so.
    let digest = zone_digest(alloc, &Name::root(alloc), &[], 1)?;
    assert!(rt;
        digest
            .as_slice()
            .starts_with(b"\x38\xb0\x60\xa7\x51\xac\x96\x38")
    );
    let mut encoder = BinEncoder::new(&mut bytes);
    encoder.emit_vec(b"")?;
    let none: [u16; 0] = [];
    assert!(rt; matches!(encoder.emit_all(none.iter()), Ok(0)));
    assert_eq!(rt; encoder.len(), 0);
    Ok(())
}

/// Returns the wire form of a name of so many labels.
fn wire_of(alloc: Global, labels: usize) -> Result<Vec<u8>, Fail> {
    let mut wire = Vec::new(alloc);
    for _ in 0..labels {
        wire.extend_from_slice(b"\x01a")?;
    }
    wire.push(0)?;
    Ok(wire)
}

#[test]
fn names_have_up_to_127_labels(rt: HostRuntime) -> Result<(), Fail> {
    let alloc = rt.alloc();
    let label = Label::from_ascii(alloc, "a")?;
    for labels in 1usize..128 {
        let wire = wire_of(alloc, labels)?;
        let text = "a.".repeat(alloc, labels)?;
        let name = name_of(alloc, wire.as_slice())?;
        assert_eq!(rt; name.to_ascii(alloc)?.as_str(), text.as_str());
        assert_eq!(rt; name.to_text(alloc)?.as_str(), text.as_str());
        assert!(rt; Name::from_ascii(alloc, text.as_str())? == name);
        assert!(rt; Name::parse(alloc, text.as_str(), Some(&name))? == name);
        assert!(rt; Name::from_text(alloc, text.as_str(), None)? == name);
        assert!(rt; name.clone()?.to_lowercase()? == name);
        let base = name.base_name()?;
        assert_eq!(rt;
            base.encoded_len(),
            labels.saturating_mul(2).saturating_sub(1)
        );
        assert!(rt; base.prepend_label(alloc, &label)? == name);
        assert_eq!(rt; name.trim_to(1)?.encoded_len(), 3);
        assert!(rt; name.to_bytes(alloc)?.as_slice() == wire.as_slice());
        let lower = LowerName::new(&name)?;
        assert!(rt; lower.clone()?.to_name()? == name);
        assert!(rt; lower.to_bytes(alloc)?.as_slice() == wire.as_slice());
        let borrowed = NameRef::read(&mut BinDecoder::new(wire.as_slice()))?;
        assert!(rt; borrowed.to_name(alloc)? == name);
        assert!(rt; borrowed.to_bytes(alloc)?.as_slice() == wire.as_slice());
        assert!(rt; Name::root(alloc).append_name(&name)? == name);
        assert!(rt; Name::root(alloc).append_domain(&name)? == name);
    }
    Ok(())
}

/// Names of the root's labels, the last of which is the first in order.
#[test]
fn lists_of_names_are_sorted(rt: HostRuntime) -> Result<(), Fail> {
    let alloc = rt.alloc();
    let all = counts(alloc, &[127, 128, 255])?;
    for count in all.as_slice() {
        let count = *count;
        let mut names = Vec::new(alloc);
        for number in 0..count {
            let wire = [1, (255usize.saturating_sub(number) % 256) as u8, 0];
            names.push(name_of(alloc, &wire)?)?;
        }
        let order = Name::canonical_order(alloc, names.as_slice())?;
        assert_eq!(rt; order.len(), count);
        assert_eq!(rt; order.get(0), Some(count.saturating_sub(1)));
        let mut bytes = Vec::new(alloc);
        let mut encoder = BinEncoder::new(&mut bytes);
        assert!(rt; matches!(encoder.emit_all(names.iter()), Ok(written) if written == count));
        assert_eq!(rt; encoder.len(), count.saturating_mul(3));
    }
    Ok(())
}

#[test]
fn lists_of_words_are_tokens(rt: HostRuntime) -> Result<(), Fail> {
    let alloc = rt.alloc();
    let all = counts(alloc, &[0, 127, 128, 255, 256])?;
    for count in all.as_slice() {
        let words = "ab ".repeat(alloc, *count)?;
        let text = format!(in alloc; "({})", words.as_str())?;
        let mut lexer = Lexer::new(text.as_str());
        let Some(token) = lexer.next_token(alloc)? else {
            return Err(Fail::from("a token"));
        };
        assert!(rt; matches!(token.clone()?, Token::List(list) if list.len() == *count));
    }
    Ok(())
}

/// Returns how long the file is that an entry includes.
fn included(alloc: Global, entry: &str) -> Result<usize, Fail> {
    let mut line = Vec::new(alloc);
    scan(entry.as_bytes(), &mut line)?;
    let mut context = Context::new(Name::from_ascii(alloc, "example.")?);
    match entry_of(alloc, &mut context, false, line.as_slice())? {
        Entry::Include(found) => Ok(found.file_len),
        _ => Err(Fail::from("an entry that includes a file")),
    }
}

#[test]
fn names_of_files_have_any_length(rt: HostRuntime) -> Result<(), Fail> {
    let alloc = rt.alloc();
    for len in 1usize..301 {
        let file = "f".repeat(alloc, len)?;
        let entry = format!(in alloc; "$INCLUDE {}\n", file.as_str())?;
        assert_eq!(rt; included(alloc, entry.as_str())?, len);
        let entry = format!(in alloc; "$INCLUDE {} sub ; c\n", file.as_str())?;
        assert_eq!(rt; included(alloc, entry.as_str())?, len);
    }
    Ok(())
}

#[test]
fn zone_files_have_any_origin_and_time(rt: HostRuntime) -> Result<(), Fail> {
    let alloc = rt.alloc();
    for labels in 1usize..128 {
        let name = name_of(alloc, wire_of(alloc, labels)?.as_slice())?;
        let mut context = Context::new(Name::root(alloc));
        let mut text = Vec::new(alloc);
        append_origin(alloc, &mut context, &name, &mut text)?;
        let shown = "a.".repeat(alloc, labels)?;
        let wanted = format!(in alloc; "$ORIGIN {}\n", shown.as_str())?;
        assert_eq!(rt; text.as_slice(), wanted.as_bytes());
        let seconds = u32::try_from(labels).map_err(|_| "seconds")?;
        let mut text = Vec::new(alloc);
        append_ttl(alloc, &mut context, seconds, &mut text)?;
        let wanted = format!(in alloc; "$TTL {seconds}\n")?;
        assert_eq!(rt; text.as_slice(), wanted.as_bytes());
    }
    Ok(())
}

/// Returns whether a message with so many records in each section is written again as it is. The records are of the root, whose
/// types are numbered, so that each is a set of its own.
fn is_copied(alloc: Global, counts: [u8; 3]) -> Result<bool, Fail> {
    let [answers, authorities, additionals] = counts;
    let mut bytes = Vec::new(alloc);
    let head = [
        0,
        7,
        0x84,
        0,
        0,
        0,
        0,
        answers,
        0,
        authorities,
        0,
        additionals,
    ];
    bytes.extend_from_slice(&head)?;
    for count in counts {
        for number in 0..count {
            let own = octets(alloc, usize::from(number))?;
            let code = 65_280u16.saturating_add(u16::from(number));
            bytes.extend_from_slice(record_octets(alloc, code, own.as_slice())?.as_slice())?;
        }
    }
    let message = MessageRef::read(bytes.as_slice())?;
    let mut room = Vec::new(alloc);
    room.resize(65_535, 0)?;
    let mut writer = WriterState::new();
    writer.copy(alloc, room.as_mut_slice(), &message, 65_535)?;
    Ok(writer.end == bytes.len() && room.as_slice().starts_with(bytes.as_slice()))
}

/// Returns whether a response of so many records, and an `OPT` record, is padded to a multiple of 468 octets (RFC 8467, section 4.1).
fn is_padded(alloc: Global, answers: u8) -> Result<bool, Fail> {
    let mut bytes = Vec::new(alloc);
    bytes.extend_from_slice(b"\0\x07\x84\0\0\0\0")?;
    bytes.extend_from_slice(&[answers])?;
    bytes.extend_from_slice(b"\0\0\0\x01")?;
    for number in 0..answers {
        let own = octets(alloc, usize::from(number))?;
        let code = 65_280u16.saturating_add(u16::from(number));
        bytes.extend_from_slice(record_octets(alloc, code, own.as_slice())?.as_slice())?;
    }
    bytes.extend_from_slice(b"\0\0\x29\x04\xd0\0\0\0\0")?;
    let kept = bytes.len();
    bytes.extend_from_slice(b"\0\0")?;
    let message = MessageRef::read(bytes.as_slice())?;
    let mut room = Vec::new(alloc);
    room.resize(65_535, 0)?;
    let mut writer = WriterState::new();
    writer.copy_padded(alloc, room.as_mut_slice(), &message, 65_535, 468)?;
    let is_same = room.as_slice().get(..kept).unwrap_or_default()
        == bytes.as_slice().get(..kept).unwrap_or_default();
    Ok(is_same && writer.end % 468 == 0)
}

#[test]
fn messages_of_each_size_are_padded(rt: HostRuntime) -> Result<(), Fail> {
    let alloc = rt.alloc();
    for count in 0u8..101 {
        assert!(rt; is_padded(alloc, count)?);
    }
    Ok(())
}

#[test]
fn a_message_has_records_in_each_section(rt: HostRuntime) -> Result<(), Fail> {
    let alloc = rt.alloc();
    for count in 0u8..101 {
        assert!(rt; is_copied(alloc, [count, 0, 0])?);
        assert!(rt; is_copied(alloc, [1, count, 0])?);
        assert!(rt; is_copied(alloc, [1, 2, count])?);
    }
    Ok(())
}
