//! Calls that may report out of memory, with ample memory, at the sizes that a byte and 16 bits hold and past them.

use crate::ample::counts;
use dns_names_wire::binary::BinEncodable;
use dns_names_wire::dns_class::DNSClass;
use dns_names_wire::encoder::{BinEncoder, NameEncoding};
use dns_names_wire::error::ProtoResult;
use dns_names_wire::name::Name;
use dns_names_wire::record::{WireData, WireRecord};
use dns_names_wire::record_type::RecordType;
use dns_names_wire::record_type_set::RecordTypeSet;
use dns_names_wire::script::{self, Item, Part, Reply, Step};
use std::alloc::Global;
use std::test::Fail;

/// Sizes of what stands in a message, about limits.
const SIZES: [usize; 3] = [255, 256, 65_535];

/// Sizes of lists about limits.
const LIMITS: [usize; 5] = [255, 256, 4_096, 4_097, 65_536];

/// Returns so many zeros.
fn zeros(alloc: Global, len: usize) -> ProtoResult<Vec<u8>> {
    let mut bytes = Vec::new(alloc);
    bytes.resize(len, 0)?;
    Ok(bytes)
}

/// Returns a record of the root with so many octets of data.
fn record(alloc: Global, len: usize) -> ProtoResult<WireRecord> {
    Ok(WireRecord {
        owner: Name::root(alloc),
        record_type: RecordType::NULL,
        class: DNSClass::IN,
        ttl: 0,
        rdata: WireData::Bytes(zeros(alloc, len)?),
    })
}

/// Returns `true` if a run of the steps does each, and leaves so many bytes.
fn runs(alloc: Global, steps: &[Step], len: usize) -> ProtoResult<bool> {
    let mut bytes = Vec::new(alloc);
    let replies = script::run(alloc, &mut bytes, steps)?;
    let are_done = replies
        .as_slice()
        .iter()
        .all(|reply| matches!(reply, Reply::Done { len: _ }));
    Ok(are_done && replies.len() == steps.len() && bytes.len() == len)
}

#[test]
fn a_script_may_have_many_steps(rt: HostRuntime) -> Result<(), Fail> {
    let alloc = rt.alloc();
    let all = counts(alloc, &LIMITS)?;
    for count in all.as_slice() {
        let count = *count;
        let mut steps = Vec::with_capacity(alloc, count)?;
        for _ in 0..count {
            steps.push(Step::Canonical(true))?;
        }
        assert!(rt; runs(alloc, steps.as_slice(), 0)?);
        let mut bytes = Vec::new(alloc);
        let replies = script::run_limited(alloc, &mut bytes, steps.as_slice(), 1, 1)?;
        assert_eq!(rt; replies.len(), count);
    }
    Ok(())
}

#[test]
fn a_script_may_have_many_placeholders(rt: HostRuntime) -> Result<(), Fail> {
    let alloc = rt.alloc();
    let all = counts(alloc, &[255, 256, 4_097, 32_767])?;
    for count in all.as_slice() {
        let count = *count;
        let mut steps = Vec::with_capacity(alloc, count.saturating_add(1))?;
        for _ in 0..count {
            steps.push(Step::Reserve)?;
        }
        steps.push(Step::Fill {
            place: count.saturating_sub(1),
            value: 1,
        })?;
        assert!(rt; runs(alloc, steps.as_slice(), count.saturating_mul(2))?);
    }
    Ok(())
}

#[test]
fn a_step_may_write_a_whole_message(rt: HostRuntime) -> Result<(), Fail> {
    let alloc = rt.alloc();
    let all = counts(alloc, &SIZES)?;
    for len in all.as_slice() {
        let len = *len;
        assert!(rt; runs(alloc, &[Step::Bytes(zeros(alloc, len)?)], len)?);
    }
    // A record of the root has 11 octets before its data.
    let all = counts(alloc, &[0, 255, 256, 65_524])?;
    for len in all.as_slice() {
        let len = *len;
        let end = len.saturating_add(11);
        assert!(rt; runs(alloc, &[Step::Record(record(alloc, len)?)], end)?);
        let mut bytes = Vec::new(alloc);
        let mut encoder = BinEncoder::new(&mut bytes);
        record(alloc, len)?.emit(&mut encoder)?;
        assert_eq!(rt; encoder.offset(), end);
    }
    for len in 0usize..256 {
        assert!(rt;
            runs(
                alloc,
                &[Step::Text(zeros(alloc, len)?)],
                len.saturating_add(1)
            )?
        );
    }
    Ok(())
}

/// Returns `true` if a step of these items writes all of them, in so many bytes.
fn writes_items(alloc: Global, items: Vec<Item>, len: usize) -> ProtoResult<bool> {
    let wanted = items.len();
    let mut bytes = Vec::new(alloc);
    let replies = script::run(alloc, &mut bytes, &[Step::Items(items)])?;
    let [reply] = replies.as_slice() else {
        return Ok(false);
    };
    Ok(matches!(
        reply,
        Reply::Items { count, error: None, len: told } if *count == wanted && *told == len
    ))
}

#[test]
fn a_step_may_have_many_items_and_an_item_many_parts(rt: HostRuntime) -> Result<(), Fail> {
    let alloc = rt.alloc();
    let all = counts(alloc, &LIMITS)?;
    for count in all.as_slice() {
        let count = *count;
        let mut items = Vec::with_capacity(alloc, count)?;
        let mut parts = Vec::new(alloc);
        for _ in 0..count {
            items.push(Item {
                encoding: Some(NameEncoding::Uncompressed),
                parts: Vec::new(alloc),
            })?;
            if parts.len() < 65_535 {
                parts.push(Part::U8(0))?;
            }
        }
        assert!(rt; writes_items(alloc, items, 0)?);
        let len = parts.len();
        let one = vec![in alloc;
            Item {
                encoding: None,
                parts
            },
        ]?;
        assert!(rt; writes_items(alloc, one, len)?);
    }
    Ok(())
}

#[test]
fn bytes_are_written_at_the_end_and_before_it(rt: HostRuntime) -> Result<(), Fail> {
    let alloc = rt.alloc();
    let all = counts(alloc, &SIZES)?;
    for len in all.as_slice() {
        let len = *len;
        let data = zeros(alloc, len)?;
        let mut bytes = Vec::new(alloc);
        let mut encoder = BinEncoder::new(&mut bytes);
        encoder.emit_vec(data.as_slice())?;
        assert!(rt; len / 2 <= encoder.len());
        encoder.set_offset(len / 2);
        encoder.emit_vec(data.as_slice().get(len / 2..).ok_or("a half")?)?;
        encoder.set_offset(0);
        data.emit(&mut encoder)?;
        assert_eq!(rt; encoder.len(), len);
        assert_eq!(rt; data.to_bytes(alloc)?.len(), len);
        encoder.set_offset(0);
        let text = data.as_slice().get(1..).ok_or("a text")?;
        encoder.emit_character_data_unrestricted(text)?;
        assert_eq!(rt; encoder.len(), len);
    }
    Ok(())
}

#[test]
fn a_placeholder_is_reserved_at_the_end_and_before_it(rt: HostRuntime) -> Result<(), Fail> {
    let alloc = rt.alloc();
    let all = counts(alloc, &[0, 255, 256, 65_533])?;
    for len in all.as_slice() {
        let len = *len;
        let mut bytes = zeros(alloc, len)?;
        let offset = u32::try_from(len).map_err(|_| "an offset")?;
        assert_eq!(rt; bytes.len(), len);
        let mut encoder = BinEncoder::with_offset(&mut bytes, offset);
        let place = encoder.place::<u16>()?;
        encoder.emit_at(place, 0x0102)?;
        assert_eq!(rt; encoder.offset(), len.saturating_add(2));
        assert!(rt; len <= encoder.len());
        encoder.set_offset(len);
        let place = encoder.place::<u16>()?;
        place.replace(&mut encoder, 0x0304)?;
        assert!(rt; len / 2 <= encoder.len());
        encoder.set_offset(len / 2);
        let place = encoder.place::<u16>()?;
        encoder.emit_at(place, 0x0506)?;
        assert_eq!(rt; encoder.len(), (len / 2).saturating_add(2));
        assert!(rt; encoder.into_bytes().as_slice().ends_with(b"\x05\x06"));
    }
    Ok(())
}

#[test]
fn an_encoder_may_keep_many_candidates(rt: HostRuntime) -> Result<(), Fail> {
    let alloc = rt.alloc();
    let all = counts(alloc, &[64, 65, 255, 256, 257, 1_000])?;
    for count in all.as_slice() {
        let count = u16::try_from(*count).map_err(|_| "a count")?;
        let mut bytes = Vec::new(alloc);
        let mut encoder = BinEncoder::new(&mut bytes).with_limits(usize::from(count), 65_536);
        let mut last = 0;
        for number in 0..count {
            let [high, low] = number.to_be_bytes();
            last = encoder.len();
            encoder.emit_vec(&[2, high, low])?;
            assert!(rt; last < encoder.offset() && encoder.len() <= 3_000);
            encoder.store_label_pointer(last, encoder.len())?;
        }
        let end = encoder.len();
        assert!(rt; last < encoder.offset() && last < end && end <= 3_000);
        let found = encoder.get_label_pointer(last, end);
        assert_eq!(rt; found.map(usize::from), Some(last));
        encoder.set_offset(last);
        encoder.trim();
        encoder.emit_vec(&[2, 255, 255])?;
        assert!(rt; last < encoder.offset() && end == encoder.len());
        encoder.store_label_pointer(last, end)?;
        let found = encoder.get_label_pointer(last, end);
        assert_eq!(rt; found.map(usize::from), Some(last));
    }
    Ok(())
}

#[test]
fn many_names_are_compressed(rt: HostRuntime) -> Result<(), Fail> {
    let alloc = rt.alloc();
    let all = counts(alloc, &[64, 65, 121, 257, 1_000])?;
    for count in all.as_slice() {
        let count = *count;
        let mut bytes = Vec::new(alloc);
        let mut encoder = BinEncoder::new(&mut bytes).with_limits(65_536, 65_536);
        let mut names = Vec::new(alloc);
        for number in 0..count {
            let text = format!(in alloc; "host{number:05}.zone.")?;
            names.push(Name::from_ascii(alloc, text.as_str())?)?;
        }
        assert!(rt; matches!(encoder.emit_all(names.iter()), Ok(written) if written == count));
        // The first is whole in 16 octets, and the others point to its zone and take 12.
        let len = encoder.len();
        assert_eq!(rt; len, count.saturating_mul(12).saturating_add(4));
        for name in names.as_slice() {
            name.emit(&mut encoder)?;
        }
        assert_eq!(rt; encoder.len(), count.saturating_mul(2).saturating_add(len));
    }
    Ok(())
}

#[test]
fn a_list_may_have_many_items(rt: HostRuntime) -> Result<(), Fail> {
    let alloc = rt.alloc();
    let all = counts(alloc, &[255, 256, 32_767])?;
    for count in all.as_slice() {
        let count = *count;
        let items = vec![in alloc; 7u16; count]?;
        let mut bytes = Vec::new(alloc);
        let mut encoder = BinEncoder::new(&mut bytes);
        assert!(rt; matches!(encoder.emit_all(items.iter()), Ok(written) if written == count));
        assert_eq!(rt; encoder.len(), count.saturating_mul(2));
    }
    Ok(())
}

#[test]
fn a_set_may_have_all_types(rt: HostRuntime) -> Result<(), Fail> {
    let alloc = rt.alloc();
    let all = counts(alloc, &LIMITS)?;
    for count in all.as_slice() {
        let count = *count;
        let mut types = Vec::new(alloc);
        for code in 0..count {
            let code = u16::try_from(code).map_err(|_| "a code")?;
            types.push(RecordType::from(code))?;
        }
        let set = RecordTypeSet::new(alloc, types)?;
        assert_eq!(rt; set.iter().count(), count);
        let copy = set.clone()?;
        // Each window of 256 types takes 34 octets, and a shorter one as many as its last type asks for.
        let last = match count % 256 {
            0 => 0,
            types => types.div_ceil(8).saturating_add(2),
        };
        let wanted = (count / 256).saturating_mul(34).saturating_add(last);
        assert_eq!(rt; copy.to_bytes(alloc)?.len(), wanted);
    }
    Ok(())
}
