//! Record types, classes, keys, sets of types, serial numbers, and what is read from record data.

use crate::notation::{
    BAD_LINE, decode_error_word, error_word, first_word, hexadecimal, name, number, octets,
    push_word,
};
use dns_names_wire::binary::{BinDecodable, BinEncodable};
use dns_names_wire::decoder::BinDecoder;
use dns_names_wire::dns_class::DNSClass;
use dns_names_wire::encoder::BinEncoder;
use dns_names_wire::error::{DecodeError, ProtoResult};
use dns_names_wire::lower_name::LowerName;
use dns_names_wire::name::Name;
use dns_names_wire::record_data::RecordDataDecodable;
use dns_names_wire::record_type::RecordType;
use dns_names_wire::record_type_set::RecordTypeSet;
use dns_names_wire::restrict::Restrict;
use dns_names_wire::rr_key::RrKey;
use dns_names_wire::serial_number::SerialNumber;
use std::alloc::Global;
use std::cmp::Ordering;
use std::fmt::{Display, Write};
use std::hash::{DefaultHasher, Hash, Hasher};

/// Returns the answer to a request about codes.
pub(crate) fn answer(alloc: Global, kind: &str, words: &str) -> ProtoResult<String> {
    match kind {
        "type" => shown_type(alloc, type_of(words)?),
        "class" => shown_class(alloc, class_of(words)?),
        "types" | "classes" => folded_codes(alloc, kind, words),
        "type-name" => match RecordType::from_str(alloc, words) {
            Ok(kind) => Ok(format!(in alloc; "{kind:?}")?),
            Err(error) => Ok(decode_error_word(alloc, &error)?),
        },
        "class-name" => match DNSClass::from_str(alloc, words) {
            Ok(class) => Ok(format!(in alloc; "{class:?}")?),
            Err(error) => Ok(decode_error_word(alloc, &error)?),
        },
        "for-opt" => Ok(format!(in alloc; "{:?}", DNSClass::for_opt(number(words)?))?),
        "type-cmp" => {
            let (a, b) = first_word(words)?;
            compared(alloc, &type_of(a)?, &type_of(b)?)
        }
        "class-cmp" => {
            let (a, b) = first_word(words)?;
            compared(alloc, &class_of(a)?, &class_of(b)?)
        }
        "key-cmp" => {
            let (a, words) = key_of(alloc, words)?;
            let (b, _) = key_of(alloc, words)?;
            compared(alloc, &a, &b)
        }
        "serial" => serial(alloc, words),
        "data" => data(alloc, words),
        _ => sets(alloc, kind, words),
    }
}

/// Returns the answer to a request about sets of types.
fn sets(alloc: Global, kind: &str, words: &str) -> ProtoResult<String> {
    match kind {
        "set-read" => {
            let (len, bitmap) = first_word(words)?;
            read_set(alloc, number(len)?, octets(alloc, bitmap)?.as_slice())
        }
        "set-cuts" => cut_sets(alloc, octets(alloc, words)?.as_slice()),
        "set-new" => shown_set(alloc, &set_of(alloc, words)?),
        "set-under" => {
            let (max, codes) = first_word(words)?;
            emit_under(alloc, number(max)?, &set_of(alloc, codes)?)
        }
        "set-eq" => {
            let (a, b) = first_word(words)?;
            let (a, b) = (set_of(alloc, a)?, set_of(alloc, b)?);
            Ok(format!(in alloc; "{} {}", a == b, hash_of(&a) == hash_of(&b))?)
        }
        "set-has" => {
            let (codes, kind) = first_word(words)?;
            Ok(format!(in alloc; "{}", set_of(alloc, codes)?.contains(type_of(kind)?))?)
        }
        "sets" => folded_sets(alloc, words),
        _ => Err(BAD_LINE),
    }
}

/// Returns the type with a code, or after `U` `Unknown` of a code.
fn type_of(word: &str) -> ProtoResult<RecordType> {
    match word.strip_prefix('U') {
        Some(code) => Ok(RecordType::Unknown(number(code)?)),
        None => Ok(RecordType::from(number::<u16>(word)?)),
    }
}

/// Returns the class with a code, or after `U` or `O` `Unknown` or `OPT` of a number.
fn class_of(word: &str) -> ProtoResult<DNSClass> {
    if let Some(code) = word.strip_prefix('U') {
        return Ok(DNSClass::Unknown(number(code)?));
    }
    match word.strip_prefix('O') {
        Some(size) => Ok(DNSClass::OPT(number(size)?)),
        None => Ok(DNSClass::from(number::<u16>(word)?)),
    }
}

/// Returns a type's code, Debug text and name, and the answers of its tests.
fn shown_type(alloc: Global, record_type: RecordType) -> ProtoResult<String> {
    let name = record_type.name();
    let mut shown = format!(in alloc; "{} {record_type:?} {name}", record_type.code())?;
    let tests = [
        (record_type.is_any(), "any"),
        (record_type.is_cert(), "cert"),
        (record_type.is_cname(), "cname"),
        (record_type.is_ns(), "ns"),
        (record_type.is_soa(), "soa"),
        (record_type.is_srv(), "srv"),
        (record_type.is_ip_addr(), "ip_addr"),
        (record_type.is_dnssec(), "dnssec"),
        (record_type.is_rrsig(), "rrsig"),
        (record_type.is_zero(), "zero"),
    ];
    for (holds, test) in tests {
        if holds {
            push_word(&mut shown, test)?;
        }
    }
    let printed = format!(in alloc; "{record_type}")?;
    let octets = record_type.to_bytes(alloc)?;
    if printed.as_str() != name
        || RecordType::from_bytes(alloc, octets.as_slice())?
            != RecordType::from(record_type.code())
    {
        push_word(&mut shown, "differs from its text or octets")?;
    }
    Ok(shown)
}

/// Returns a class's code, Debug text and name.
fn shown_class(alloc: Global, class: DNSClass) -> ProtoResult<String> {
    let name = class.name();
    let mut shown = format!(in alloc; "{} {class:?} {name}", class.code())?;
    let printed = format!(in alloc; "{class}")?;
    let octets = class.to_bytes(alloc)?;
    if printed.as_str() != name
        || DNSClass::from_bytes(alloc, octets.as_slice())? != DNSClass::from(class.code())
    {
        push_word(&mut shown, "differs from its text or octets")?;
    }
    Ok(shown)
}

/// Returns the key of a name and a type, and the words after them.
fn key_of(alloc: Global, words: &str) -> ProtoResult<(RrKey, &str)> {
    let (text, words) = first_word(words)?;
    let (kind, words) = words.split_once(' ').unwrap_or((words, ""));
    let key = RrKey::new(LowerName::from_name(name(alloc, text)?)?, type_of(kind)?);
    Ok((key.clone()?, words))
}

/// Returns how two values compare, whether they are equal, and whether they hash alike.
fn compared<T: Ord + Hash>(alloc: Global, a: &T, b: &T) -> ProtoResult<String> {
    let order = a.cmp(b);
    Ok(format!(in alloc; "{order:?} {} {}", a == b, hash_of(a) == hash_of(b))?)
}

fn hash_of<T: Hash>(x: &T) -> u64 {
    let mut state = DefaultHasher::new();
    x.hash(&mut state);
    state.finish()
}

/// Returns how two serial numbers compare, and their sum.
fn serial(alloc: Global, words: &str) -> ProtoResult<String> {
    let (a, b) = first_word(words)?;
    let a = SerialNumber::new(number(a)?);
    let b = SerialNumber::from(number::<u32>(b)?);
    let order = match a.partial_cmp(&b) {
        Some(Ordering::Less) => "Less",
        Some(Ordering::Equal) => "Equal",
        Some(Ordering::Greater) => "Greater",
        None => "None",
    };
    Ok(format!(in alloc; "{order} {} {}", a == b, (a + b).get())?)
}

/// Reads record data of a type, and returns the value and the cursor.
fn data(alloc: Global, words: &str) -> ProtoResult<String> {
    let (kind, words) = first_word(words)?;
    let (len, message) = first_word(words)?;
    let length = Restrict::new(number::<u16>(len)?);
    let message = octets(alloc, message)?;
    let mut decoder = BinDecoder::new(message.as_slice());
    let value = match kind {
        "u16" => value_word(alloc, u16::read_data(alloc, &mut decoder, length))?,
        "i32" => value_word(alloc, i32::read_data(alloc, &mut decoder, length))?,
        "u32" => value_word(alloc, u32::read_data(alloc, &mut decoder, length))?,
        "name" => value_word(alloc, Name::read_data(alloc, &mut decoder, length))?,
        "lower" => value_word(alloc, LowerName::read_data(alloc, &mut decoder, length))?,
        _ => return Err(BAD_LINE),
    };
    Ok(format!(in alloc; "{value} {}", decoder.index())?)
}

fn value_word<T: Display + Drop>(
    alloc: Global,
    read: Result<T, DecodeError>,
) -> ProtoResult<String> {
    match read {
        Ok(value) => Ok(format!(in alloc; "{value}")?),
        Err(error) => Ok(decode_error_word(alloc, &error)?),
    }
}

/// Reads a set, and returns it or the error, and the cursor.
fn read_set(alloc: Global, len: u16, bitmap: &[u8]) -> ProtoResult<String> {
    let mut decoder = BinDecoder::new(bitmap);
    let answer = match RecordTypeSet::read_data(alloc, &mut decoder, Restrict::new(len)) {
        Ok(set) => shown_set(alloc, &set)?,
        Err(error) => decode_error_word(alloc, &error)?,
    };
    Ok(format!(in alloc; "{answer} {}", decoder.index())?)
}

/// Reads each beginning of a bitmap as a set, and returns the codes of each, or `x` if it fails.
fn cut_sets(alloc: Global, bitmap: &[u8]) -> ProtoResult<String> {
    let mut answers = String::new(alloc);
    for len in 0..bitmap.len().saturating_add(1) {
        let answer = cut_set(alloc, bitmap.get(..len).unwrap_or(bitmap))?;
        push_word(&mut answers, answer.as_str())?;
    }
    Ok(answers)
}

/// Reads a whole bitmap as a set that is written back as it was, and returns its codes, or `x`.
fn cut_set(alloc: Global, bitmap: &[u8]) -> ProtoResult<String> {
    let mut decoder = BinDecoder::new(bitmap);
    let len = half(bitmap.len() as u64);
    if let Ok(set) = RecordTypeSet::read_data(alloc, &mut decoder, Restrict::new(len)) {
        if set.to_bytes(alloc)?.as_slice() == bitmap {
            return codes_of(alloc, &set);
        }
    }
    Ok(String::from_str(alloc, "x")?)
}

/// Makes the set of types between commas; `-` stands for none.
fn set_of(alloc: Global, words: &str) -> ProtoResult<RecordTypeSet> {
    let mut types = Vec::new(alloc);
    if words != "-" {
        for word in words.split(',') {
            types.push(type_of(word)?)?;
        }
    }
    RecordTypeSet::new(alloc, types)
}

/// Returns a set's types and octets.
fn shown_set(alloc: Global, set: &RecordTypeSet) -> ProtoResult<String> {
    let copy = set.clone()?;
    let octets = copy.to_bytes(alloc)?;
    Ok(format!(in alloc;
        "{} {}",
        codes_of(alloc, set)?,
        hexadecimal(alloc, octets.as_slice())?
    )?)
}

/// Returns a set's types between commas, as codes, with `U` before that of an `Unknown` whose code has a name.
fn codes_of(alloc: Global, set: &RecordTypeSet) -> ProtoResult<String> {
    let mut codes = String::new(alloc);
    for record_type in set.iter() {
        if !codes.is_empty() {
            codes.push_str(",")?;
        }
        let code = record_type.code();
        if RecordType::from(code) != record_type {
            codes.push_str("U")?;
        }
        write!(codes, "{code}")?;
    }
    if codes.is_empty() {
        codes.push_str("-")?;
    }
    Ok(codes)
}

/// Writes a set under a maximum size, and returns the outcome and the octets.
fn emit_under(alloc: Global, max: u16, set: &RecordTypeSet) -> ProtoResult<String> {
    let mut bytes = Vec::new(alloc);
    let mut encoder = BinEncoder::new(&mut bytes);
    encoder.set_max_size(max);
    let outcome = set.emit(&mut encoder);
    drop(encoder);
    let written = hexadecimal(alloc, bytes.as_slice())?;
    match outcome {
        Ok(()) => Ok(format!(in alloc; "ok {written}")?),
        Err(error) => Ok(format!(in alloc; "{} {written}", error_word(alloc, &error)?)?),
    }
}

/// A checksum of lines of text: FNV-1a of 64 bits.
#[derive(Drop)]
struct Checksum(u64);

impl Checksum {
    fn new() -> Self {
        Checksum(14695981039346656037)
    }

    /// Takes a line in.
    fn add(&mut self, line: &str) {
        for byte in line.as_bytes() {
            self.0 = (self.0 ^ *byte as u64).wrapping_mul(1099511628211);
        }
        self.0 = (self.0 ^ 10).wrapping_mul(1099511628211);
    }
}

/// Returns the checksum of the answers for the codes from one to below another.
fn folded_codes(alloc: Global, kind: &str, words: &str) -> ProtoResult<String> {
    let (first, end) = first_word(words)?;
    let mut checksum = Checksum::new();
    for code in number::<u32>(first)?..number::<u32>(end)? {
        let code = half(u64::from(code));
        let shown = match kind {
            "types" => shown_type(alloc, RecordType::from(code))?,
            _ => shown_class(alloc, DNSClass::from(code))?,
        };
        checksum.add(shown.as_str());
    }
    Ok(format!(in alloc; "{}", checksum.0)?)
}

/// A generator of numbers (Knuth's MMIX), as make_codes.py has.
#[derive(Drop)]
struct Random(u64);

impl Random {
    /// Returns a number below `n`.
    fn below(&mut self, n: u64) -> u64 {
        self.0 = self
            .0
            .wrapping_mul(6364136223846793005)
            .wrapping_add(1442695040888963407);
        if n == 0 {
            return 0;
        }
        (self.0 >> 33) % n
    }
}

/// Returns the checksum of the answers for so many bitmaps of a generator: valid, cut, changed in an octet, or with
/// windows in any order.
fn folded_sets(alloc: Global, words: &str) -> ProtoResult<String> {
    let (seed, count) = first_word(words)?;
    let mut random = Random(number(seed)?);
    let mut checksum = Checksum::new();
    for _ in 0..number::<u32>(count)? {
        let bitmap = bitmap(alloc, &mut random)?;
        let answer = read_set(alloc, half(bitmap.len() as u64), bitmap.as_slice())?;
        checksum.add(answer.as_str());
    }
    Ok(format!(in alloc; "{}", checksum.0)?)
}

fn bitmap(alloc: Global, random: &mut Random) -> ProtoResult<Vec<u8>> {
    let form = random.below(4);
    let windows = random.below(3).saturating_add(1);
    let mut bytes = Vec::new(alloc);
    let mut window = random.below(3);
    for _ in 0..windows {
        let len = if form == 2 {
            random.below(36)
        } else {
            random.below(8).saturating_add(1)
        };
        bytes.push(octet(window))?;
        bytes.push(octet(len))?;
        for _ in 0..len {
            let bits = if random.below(3) == 0 {
                random.below(256)
            } else {
                0
            };
            bytes.push(octet(bits))?;
        }
        window = if form == 3 {
            random.below(3)
        } else {
            window.saturating_add(1).saturating_add(random.below(3))
        };
    }
    let len = bytes.len() as u64;
    if form == 1 {
        bytes.truncate(random.below(len.saturating_add(1)) as usize);
    }
    if form == 2 {
        let at = random.below(len) as usize;
        let changed = octet(random.below(256));
        if let Some(byte) = bytes.as_mut_slice().get_mut(at) {
            *byte = changed;
        }
    }
    Ok(bytes)
}

/// Returns the low 16 bits of a number.
fn half(number: u64) -> u16 {
    (number % 65536) as u16
}

/// Returns the low 8 bits of a number.
fn octet(number: u64) -> u8 {
    (number % 256) as u8
}
