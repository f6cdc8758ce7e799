//! The benchmark's functions: `include/dnw_bench.h` says what each does.
//!
//! Each works through its input `count` times and returns the sum of the checksums, without regard to carries past 64
//! bits. A failure counts as 2^40.
#![tactic(auto)]

ghost use Rattle.std.specs.Prelude.{◌≡◌};

use dns_names_wire::binary::{BinDecodable, BinEncodable};
use dns_names_wire::decoder::BinDecoder;
use dns_names_wire::encoder::{BinEncoder, NameEncoding, RDataEncoding};
use dns_names_wire::error::{DecodeError, ProtoResult};
use dns_names_wire::name::Name;
use dns_names_wire::record::{RecordRef, WireData, WireRecord};
use dns_names_wire::record_data::RecordDataDecodable;
use dns_names_wire::record_type::RecordType;
use dns_names_wire::record_type_set::RecordTypeSet;
use dns_names_wire::restrict::Restrict;
use dns_names_wire::txt::{Lexer, Token, parse_ttl};
use std::alloc::{AllocError, Global};
use std::cmp::Ordering;
use std::hash::{DefaultHasher, Hash, Hasher};

mod bulk;
mod messages;
mod zones;

/// What a failure adds.
const FAILURE: u64 = 1 << 40;

/// A message's header (RFC 1035, section 4.1.1), which is not looked into.
const HEADER: [u8; 12] = [0; 12];

/// Reads the name at each start: its end, and 65536 times its encoded length.
#[unsafe(no_mangle)]
pub extern "C" fn dnw_read_names(alloc: Global, msg: &[u8], starts: &[u32], count: u64) -> u64
    ensures idle { count ≡ 0 → result ≡ 0 }
{
    let mut sum = 0u64;
    for _round in 0..count {
        sum = sum.wrapping_add(read_each(alloc, msg, starts));
    }
    sum
}

/// Reads the name at each start in the place of the one before: as [`dnw_read_names`].
#[unsafe(no_mangle)]
pub extern "C" fn dnw_read_over(alloc: Global, msg: &[u8], starts: &[u32], count: u64) -> u64
    ensures idle { count ≡ 0 → result ≡ 0 }
{
    let mut name = Name::new(alloc);
    let mut sum = 0u64;
    for _round in 0..count {
        sum = sum.wrapping_add(read_each_over(&mut name, msg, starts));
    }
    sum
}

/// Writes the names of a list, compressed, into a new message: its length. The list has to be one of wire forms; else
/// the result is 0.
#[unsafe(no_mangle)]
pub extern "C" fn dnw_emit_names(alloc: Global, names: &[u8], count: u64) -> u64
    ensures idle { count ≡ 0 → result ≡ 0 }
{
    let Ok(names) = names_of(alloc, names) else {
        return 0;
    };
    let mut sum = 0u64;
    for _round in 0..count {
        sum = sum.wrapping_add(emit_each(alloc, names.as_slice(), NameEncoding::Compressed));
    }
    sum
}

/// Writes the names of a list, in lower case, into a new message: its length.
#[unsafe(no_mangle)]
pub extern "C" fn dnw_emit_lower(alloc: Global, names: &[u8], count: u64) -> u64
    ensures idle { count ≡ 0 → result ≡ 0 }
{
    let Ok(names) = names_of(alloc, names) else {
        return 0;
    };
    let mut sum = 0u64;
    for _round in 0..count {
        sum = sum.wrapping_add(emit_each(
            alloc,
            names.as_slice(),
            NameEncoding::UncompressedLowercase,
        ));
    }
    sum
}

/// Copies the names of a list into a vector with room for all: the vector's length.
#[unsafe(no_mangle)]
pub extern "C" fn dnw_clone_names(alloc: Global, names: &[u8], count: u64) -> u64
    ensures idle { count ≡ 0 → result ≡ 0 }
{
    let Ok(names) = names_of(alloc, names) else {
        return 0;
    };
    let mut sum = 0u64;
    for _round in 0..count {
        sum = sum.wrapping_add(match clone_each(alloc, names.as_slice()) {
            Ok(copies) => copies.len() as u64,
            Err(_) => FAILURE,
        });
    }
    sum
}

/// Copies each name of a list in the place of the one before: the sum of their sizes.
#[unsafe(no_mangle)]
pub extern "C" fn dnw_copy_over(alloc: Global, names: &[u8], count: u64) -> u64
    ensures idle { count ≡ 0 → result ≡ 0 }
{
    let Ok(names) = names_of(alloc, names) else {
        return 0;
    };
    let mut copy = Name::new(alloc);
    let mut sum = 0u64;
    for _round in 0..count {
        sum = sum.wrapping_add(copy_each_over(&mut copy, names.as_slice()));
    }
    sum
}

/// Reads the names of a list into a vector that grows: the vector's length.
#[unsafe(no_mangle)]
pub extern "C" fn dnw_collect_names(alloc: Global, names: &[u8], count: u64) -> u64
    ensures idle { count ≡ 0 → result ≡ 0 }
{
    let mut sum = 0u64;
    for _round in 0..count {
        sum = sum.wrapping_add(match names_of(alloc, names) {
            Ok(names) => names.len() as u64,
            Err(_) => FAILURE,
        });
    }
    sum
}

/// Parses the texts, each ended by a line feed: the sum of the names' encoded lengths. If they are not UTF-8, the result
/// is 0.
#[unsafe(no_mangle)]
pub extern "C" fn dnw_parse_names(alloc: Global, texts: &[u8], count: u64) -> u64
    ensures idle { count ≡ 0 → result ≡ 0 }
{
    let Ok(text) = str::from_utf8(texts) else {
        return 0;
    };
    let Ok(lines) = lines_of(alloc, text) else {
        return 0;
    };
    let mut sum = 0u64;
    for _round in 0..count {
        sum = sum.wrapping_add(parse_each(alloc, lines.as_slice()));
    }
    sum
}

/// Prints the names of a list: the sum of the texts' lengths.
#[unsafe(no_mangle)]
pub extern "C" fn dnw_to_ascii(alloc: Global, names: &[u8], count: u64) -> u64
    ensures idle { count ≡ 0 → result ≡ 0 }
{
    let Ok(names) = names_of(alloc, names) else {
        return 0;
    };
    let mut sum = 0u64;
    for _round in 0..count {
        sum = sum.wrapping_add(print_each(alloc, names.as_slice()));
    }
    sum
}

/// Compares each name with the next: 0, 1 or 2 if it is less, equal or greater.
#[unsafe(no_mangle)]
pub extern "C" fn dnw_compare(alloc: Global, names: &[u8], count: u64) -> u64
    ensures idle { count ≡ 0 → result ≡ 0 }
{
    let Ok(names) = names_of(alloc, names) else {
        return 0;
    };
    let mut sum = 0u64;
    for _round in 0..count {
        sum = sum.wrapping_add(compare_each(names.as_slice()));
    }
    sum
}

/// Sorts the names: the sum of their encoded lengths, each times its rank from 1.
#[unsafe(no_mangle)]
pub extern "C" fn dnw_sort(alloc: Global, names: &[u8], count: u64) -> u64
    ensures idle { count ≡ 0 → result ≡ 0 }
{
    let Ok(names) = names_of(alloc, names) else {
        return 0;
    };
    let mut sum = 0u64;
    for _round in 0..count {
        sum = sum.wrapping_add(match sort_all(alloc, names.as_slice()) {
            Ok(ranked) => ranked,
            Err(_) => FAILURE,
        });
    }
    sum
}

/// Hashes each name: the hashes.
#[unsafe(no_mangle)]
pub extern "C" fn dnw_hash(alloc: Global, names: &[u8], count: u64) -> u64
    ensures idle { count ≡ 0 → result ≡ 0 }
{
    let Ok(names) = names_of(alloc, names) else {
        return 0;
    };
    let mut sum = 0u64;
    for _round in 0..count {
        sum = sum.wrapping_add(hash_each(names.as_slice()));
    }
    sum
}

/// Takes the tokens of a text: for each 1 and the bytes of its texts. If the text is not UTF-8, the result is 0.
#[unsafe(no_mangle)]
pub extern "C" fn dnw_lex(alloc: Global, text: &[u8], count: u64) -> u64
    ensures idle { count ≡ 0 → result ≡ 0 }
{
    let Ok(text) = str::from_utf8(text) else {
        return 0;
    };
    let mut sum = 0u64;
    for _round in 0..count {
        sum = sum.wrapping_add(lex_all(alloc, text));
    }
    sum
}

/// Reads the texts, each ended by a line feed, as times to live: the sum of the seconds. If they are not UTF-8, the result
/// is 0.
#[unsafe(no_mangle)]
pub extern "C" fn dnw_parse_ttls(alloc: Global, texts: &[u8], count: u64) -> u64
    ensures idle { count ≡ 0 → result ≡ 0 }
{
    let Ok(text) = str::from_utf8(texts) else {
        return 0;
    };
    let Ok(lines) = lines_of(alloc, text) else {
        return 0;
    };
    let mut sum = 0u64;
    for _round in 0..count {
        sum = sum.wrapping_add(parse_each_ttl(alloc, lines.as_slice()));
    }
    sum
}

/// Reads the sets of types of a list: the sum of the numbers of types.
#[unsafe(no_mangle)]
pub extern "C" fn dnw_read_type_sets(alloc: Global, sets: &[u8], count: u64) -> u64
    ensures idle { count ≡ 0 → result ≡ 0 }
{
    let Ok(bitmaps) = bitmaps_of(alloc, sets) else {
        return 0;
    };
    let mut sum = 0u64;
    for _round in 0..count {
        sum = sum.wrapping_add(read_each_set(alloc, bitmaps.as_slice()));
    }
    sum
}

/// Writes sets of the same types as those of a list: the sum of the lengths.
#[unsafe(no_mangle)]
pub extern "C" fn dnw_emit_type_sets(alloc: Global, sets: &[u8], count: u64) -> u64
    ensures idle { count ≡ 0 → result ≡ 0 }
{
    let Ok(sets) = sets_of(alloc, sets) else {
        return 0;
    };
    let mut sum = 0u64;
    for _round in 0..count {
        sum = sum.wrapping_add(emit_each_set(alloc, sets.as_slice()));
    }
    sum
}

/// Reads the records of a message after its header, with their owners and the names in data of type NS, CNAME and PTR: for
/// each the encoded lengths of its names, the length of other data, and its time to live.
#[unsafe(no_mangle)]
pub extern "C" fn dnw_read_records(alloc: Global, msg: &[u8], count: u64) -> u64
    ensures idle { count ≡ 0 → result ≡ 0 }
{
    let mut sum = 0u64;
    for _round in 0..count {
        sum = sum.wrapping_add(match read_each_record(alloc, msg) {
            Ok(read) => read,
            Err(_) => FAILURE,
        });
    }
    sum
}

/// Writes the records of a message into a new one, after a header: its length. The message has to be a header and records;
/// else the result is 0.
#[unsafe(no_mangle)]
pub extern "C" fn dnw_emit_records(alloc: Global, msg: &[u8], count: u64) -> u64
    ensures idle { count ≡ 0 → result ≡ 0 }
{
    let Ok(records) = records_of(alloc, msg) else {
        return 0;
    };
    let mut sum = 0u64;
    for _round in 0..count {
        sum = sum.wrapping_add(match emit_each_record(alloc, records.as_slice()) {
            Ok(len) => len,
            Err(_) => FAILURE,
        });
    }
    sum
}

/// Reads a whole message, with all its names, each label of them, and all its data: numbers, last octets and lengths.
#[unsafe(no_mangle)]
pub extern "C" fn dnw_read_message(msg: &[u8], count: u64) -> u64
    ensures idle { count ≡ 0 → result ≡ 0 }
{
    let mut sum = 0u64;
    for _round in 0..count {
        sum = sum.wrapping_add(match messages::read_whole(msg) {
            Ok(size) => size,
            Err(_) => FAILURE,
        });
    }
    sum
}

/// Reads a whole message, and walks over its records but `OPT`: the lengths of owners and data, types and times to live.
#[unsafe(no_mangle)]
pub extern "C" fn dnw_walk_message(msg: &[u8], count: u64) -> u64
    ensures idle { count ≡ 0 → result ≡ 0 }
{
    let mut sum = 0u64;
    for _round in 0..count {
        sum = sum.wrapping_add(match messages::walk_whole(msg) {
            Ok(size) => size,
            Err(_) => FAILURE,
        });
    }
    sum
}

/// Reads the fields of the data of a message's records, whose owners are passed before: as `dnw_read_message` adds them up. If
/// the message can't be read, the result is 0.
#[unsafe(no_mangle)]
pub extern "C" fn dnw_read_fields(alloc: Global, msg: &[u8], count: u64) -> u64
    ensures idle { count ≡ 0 → result ≡ 0 }
{
    let Some(records) = messages::records_of(alloc, msg) else {
        return 0;
    };
    let mut sum = 0u64;
    for _round in 0..count {
        sum = sum.wrapping_add(messages::read_fields(records.as_slice()));
    }
    sum
}

/// Writes the questions and records of a message into a new one of at most `max_size` octets: its length. If the message
/// can't be read, the result is 0.
#[unsafe(no_mangle)]
pub extern "C" fn dnw_write_message(alloc: Global, msg: &[u8], max_size: u16, count: u64) -> u64
    ensures idle { count ≡ 0 → result ≡ 0 }
{
    let Some(mut parts) = messages::parts_of(alloc, msg) else {
        return 0;
    };
    let mut sum = 0u64;
    for _round in 0..count {
        sum = sum.wrapping_add(messages::write_parts(&mut parts, max_size));
    }
    sum
}

fn read_each_record(alloc: Global, msg: &[u8]) -> ProtoResult<u64> {
    let mut decoder = BinDecoder::new(msg);
    decoder.read_slice(HEADER.len())?;
    let mut sum = 0u64;
    for _ in 0..msg.len() {
        if decoder.is_empty() {
            break;
        }
        let record = RecordRef::read(alloc, &mut decoder)?;
        let owner = record.owner().to_name(alloc)?;
        let data = if has_name(record.record_type()) {
            size(&record.data_name(alloc)?)
        } else {
            record.rdata().len() as u64
        };
        sum = sum
            .wrapping_add(size(&owner))
            .wrapping_add(data)
            .wrapping_add(record.ttl() as u64);
    }
    Ok(sum)
}

fn emit_each_record(alloc: Global, records: &[WireRecord]) -> ProtoResult<u64> {
    let mut message = Vec::new(alloc);
    let mut encoder = BinEncoder::new(&mut message);
    encoder.emit_vec(&HEADER)?;
    for record in records {
        record.emit(&mut encoder)?;
    }
    drop(encoder);
    Ok(message.len() as u64)
}

/// Returns `true` if the data of such a record are a name.
fn has_name(record_type: RecordType) -> bool {
    matches!(
        record_type,
        RecordType::NS | RecordType::CNAME | RecordType::PTR
    )
}

fn lex_all(alloc: Global, text: &str) -> u64 {
    let mut lexer = Lexer::new(text);
    let mut sum = 0u64;
    for _ in 0..text.len() {
        match lexer.next_token(alloc) {
            Ok(Some(token)) => sum = sum.wrapping_add(token_size(&token)),
            Ok(None) => return sum,
            Err(_) => return sum.wrapping_add(FAILURE),
        }
    }
    sum
}

#[inline]
fn token_size(token: &Token) -> u64 {
    match token {
        Token::CharData(text) => (text.len() as u64).wrapping_add(1),
        Token::List(words) => {
            let mut sum = 1u64;
            for word in words {
                sum = sum.wrapping_add(word.len() as u64);
            }
            sum
        }
        _ => 1,
    }
}

fn parse_each_ttl(alloc: Global, texts: &[&str]) -> u64 {
    let mut sum = 0u64;
    for text in texts {
        sum = sum.wrapping_add(match parse_ttl(alloc, text) {
            Ok(seconds) => seconds as u64,
            Err(_) => FAILURE,
        });
    }
    sum
}

fn read_each_set(alloc: Global, bitmaps: &[&[u8]]) -> u64 {
    let mut sum = 0u64;
    for bitmap in bitmaps {
        match read_set(alloc, bitmap) {
            Ok(set) => {
                for _kind in set.iter() {
                    sum = sum.wrapping_add(1);
                }
            }
            Err(_) => sum = sum.wrapping_add(FAILURE),
        }
    }
    sum
}

fn emit_each_set(alloc: Global, sets: &[RecordTypeSet]) -> u64 {
    let mut sum = 0u64;
    for set in sets {
        sum = sum.wrapping_add(match set.to_bytes(alloc) {
            Ok(bytes) => bytes.len() as u64,
            Err(_) => FAILURE,
        });
    }
    sum
}

fn compare_each(names: &[Name]) -> u64 {
    let mut sum = 0u64;
    for pair in names.windows(2) {
        sum = sum.wrapping_add(match pair[0].cmp(&pair[1]) {
            Ordering::Less => 0,
            Ordering::Equal => 1,
            Ordering::Greater => 2,
        });
    }
    sum
}

fn sort_all(alloc: Global, names: &[Name]) -> Result<u64, AllocError> {
    let mut sorted = Vec::with_capacity(alloc, names.len())?;
    for name in names {
        sorted.push(name)?;
    }
    sorted.sort()?;
    let mut sum = 0u64;
    let mut rank = 0u64;
    for name in sorted.as_slice() {
        rank = rank.wrapping_add(1);
        sum = sum.wrapping_add(rank.wrapping_mul(name.encoded_len() as u64));
    }
    Ok(sum)
}

fn hash_each(names: &[Name]) -> u64 {
    let mut sum = 0u64;
    for name in names {
        let mut state = DefaultHasher::new();
        name.hash(&mut state);
        sum = sum.wrapping_add(state.finish());
    }
    sum
}

fn read_each(alloc: Global, msg: &[u8], starts: &[u32]) -> u64 {
    let mut sum = 0u64;
    for start in starts {
        sum = sum.wrapping_add(read_one(alloc, msg, *start));
    }
    sum
}

#[inline]
fn read_one(alloc: Global, msg: &[u8], start: u32) -> u64 {
    let mut decoder = BinDecoder::new(msg);
    if decoder.skip(start as usize).is_err() {
        return FAILURE;
    }
    match Name::read(alloc, &mut decoder) {
        Ok(name) => (decoder.index() as u64)
            .wrapping_add(65536 * name.encoded_len() as u64)
            .wrapping_add(closing(&name)),
        Err(_) => FAILURE,
    }
}

fn read_each_over(name: &mut Name, msg: &[u8], starts: &[u32]) -> u64 {
    let mut sum = 0u64;
    for start in starts {
        sum = sum.wrapping_add(read_one_over(name, msg, *start));
    }
    sum
}

#[inline]
fn read_one_over(name: &mut Name, msg: &[u8], start: u32) -> u64 {
    let mut decoder = BinDecoder::new(msg);
    if decoder.skip(start as usize).is_err() || name.read_into(&mut decoder).is_err() {
        return FAILURE;
    }
    (decoder.index() as u64)
        .wrapping_add(65536 * name.encoded_len() as u64)
        .wrapping_add(closing(name))
}

fn copy_each_over(copy: &mut Name, names: &[Name]) -> u64 {
    let mut sum = 0u64;
    for name in names {
        copy.clone_from(name);
        sum = sum.wrapping_add(size(copy));
    }
    sum
}

/// Returns the size of a name's wire form.
#[inline]
fn size(name: &Name) -> u64 {
    (name.encoded_len() as u64).wrapping_add(closing(name))
}

/// Returns the closing zero of a name: so its octets are needed, and LLVM leaves none of the work out.
#[inline]
fn closing(name: &Name) -> u64 {
    match name.as_wire().last() {
        Some(octet) => u64::from(*octet),
        None => FAILURE,
    }
}

fn emit_each(alloc: Global, names: &[Name], encoding: NameEncoding) -> u64 {
    let mut message = Vec::new(alloc);
    let mut encoder = BinEncoder::new(&mut message);
    encoder.set_name_encoding(encoding);
    let mut failed = 0u64;
    for name in names {
        if name.emit(&mut encoder).is_err() {
            failed = failed.wrapping_add(FAILURE);
        }
    }
    drop(encoder);
    failed.wrapping_add(message.len() as u64)
}

fn clone_each(alloc: Global, names: &[Name]) -> ProtoResult<Vec<Name>> {
    let mut copies = Vec::with_capacity(alloc, names.len())?;
    for name in names {
        copies.reserve(1)?;
        copies.push_reserved(name.copied());
    }
    Ok(copies)
}

fn parse_each(alloc: Global, texts: &[&str]) -> u64 {
    let mut sum = 0u64;
    for text in texts {
        sum = sum.wrapping_add(match Name::from_ascii(alloc, text) {
            Ok(name) => size(&name),
            Err(_) => FAILURE,
        });
    }
    sum
}

fn print_each(alloc: Global, names: &[Name]) -> u64 {
    let mut sum = 0u64;
    for name in names {
        sum = sum.wrapping_add(match name.to_ascii(alloc) {
            Ok(text) => text.len() as u64,
            Err(_) => FAILURE,
        });
    }
    sum
}

/// Returns the names of a list.
fn names_of(alloc: Global, list: &[u8]) -> ProtoResult<Vec<Name>> {
    let mut decoder = BinDecoder::new(list);
    let mut names = Vec::new(alloc);
    for _ in 0..list.len() {
        if decoder.is_empty() {
            break;
        }
        names.reserve(1)?;
        names.push_reserved(Name::read(alloc, &mut decoder)?);
    }
    Ok(names)
}

/// Returns the records of a message after its header.
fn records_of(alloc: Global, msg: &[u8]) -> ProtoResult<Vec<WireRecord>> {
    let mut decoder = BinDecoder::new(msg);
    decoder.read_slice(HEADER.len())?;
    let mut records = Vec::new(alloc);
    for _ in 0..msg.len() {
        if decoder.is_empty() {
            break;
        }
        records.push(record_of(alloc, &RecordRef::read(alloc, &mut decoder)?)?)?;
    }
    Ok(records)
}

fn record_of(alloc: Global, record: &RecordRef<'_>) -> ProtoResult<WireRecord> {
    let rdata = if has_name(record.record_type()) {
        WireData::Name {
            name: record.data_name(alloc)?,
            encoding: RDataEncoding::StandardRecord,
        }
    } else {
        WireData::Bytes(Vec::from_slice(alloc, record.rdata())?)
    };
    Ok(WireRecord {
        owner: record.owner().to_name(alloc)?,
        record_type: record.record_type(),
        class: record.class(),
        ttl: record.ttl(),
        rdata,
    })
}

/// Returns the lines of a text.
fn lines_of(alloc: Global, text: &str) -> Result<Vec<&str>, AllocError> {
    let mut lines = Vec::new(alloc);
    for line in text.lines() {
        lines.push(line)?;
    }
    Ok(lines)
}

/// Returns the bitmaps of a list, in which two octets before each are its length.
fn bitmaps_of(alloc: Global, list: &[u8]) -> ProtoResult<Vec<&[u8]>> {
    let mut decoder = BinDecoder::new(list);
    let mut bitmaps = Vec::new(alloc);
    for _ in 0..list.len() {
        if decoder.is_empty() {
            break;
        }
        let len = decoder.read_u16()?.unverified();
        bitmaps.push(decoder.read_slice(len as usize)?.unverified())?;
    }
    Ok(bitmaps)
}

/// Returns new sets of the types that the bitmaps of a list have.
fn sets_of(alloc: Global, list: &[u8]) -> ProtoResult<Vec<RecordTypeSet>> {
    let mut sets = Vec::new(alloc);
    for bitmap in bitmaps_of(alloc, list)?.as_slice() {
        sets.push(RecordTypeSet::new(alloc, read_set(alloc, bitmap)?.iter())?)?;
    }
    Ok(sets)
}

#[inline]
fn read_set(alloc: Global, bitmap: &[u8]) -> Result<RecordTypeSet, DecodeError> {
    let length = Restrict::new((bitmap.len() % 65536) as u16);
    RecordTypeSet::read_data(alloc, &mut BinDecoder::new(bitmap), length)
}
