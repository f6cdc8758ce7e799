//! The codes of types and classes, and serial numbers.
ghost use Rattle.std.specs.Prelude.{◌≡◌, Some, IfOk, IfErr};
ghost use Rattle.dnw_base.specs.RecordTypes.{type_code, type_of_code, type_of_text, type_text};
ghost use Rattle.dnw_base.specs.DnsClasses.{class_code, class_of_code, class_of_text, class_text};
ghost use Rattle.dnw_base.specs.Serials.{serial_sum};
ghost use Rattle.dnw_c_zone.specs.CodeCalls.{ComparesSerials, FailsToGive, ParsesCode, PutsCode};
ghost use Rattle.dnw_c_base.specs.Results.{Returns};
ghost use Rattle.dnw_c_base.specs.declared.failure.Failure.TheVariants.{UnknownText};

use dnw_base::dns_class::DNSClass;
use dnw_base::record_type::RecordType;
use dnw_base::serial_number::SerialNumber;
use dnw_c_base::buffer::put;
use dnw_c_base::failure::Failure;
use dnw_c_base::results::report;
use dnw_c_base::sign::sign_of;

/// Puts the text of the type with a code, and its length. It gives the code back.
#[unsafe(no_mangle)]
pub extern "C" fn dnw_type_print(code: u16, text: &mut [u8], len: &mut usize) -> u32
    ensures text { Returns (PutsCode (type_text (type_of_code code)) text.old text.new) len.old len.new result }
    ensures back { type_of_text (type_text (type_of_code code)) ≡ Some (type_of_code code) }
{
    report(put(text, RecordType::from(code).to_text().as_bytes()), len)
}

/// Puts the code of the type that a text gives.
#[unsafe(no_mangle)]
pub extern "C" fn dnw_type_parse(text: &[u8], code: &mut u16) -> u32
    ensures { Returns (ParsesCode type_of_text type_code UnknownText text.now) code.old code.new result }
{
    report(type_named(text).map(|kind| u16::from(kind)), code)
}

/// Puts the text of the class with a code, and its length. It gives the code back.
#[unsafe(no_mangle)]
pub extern "C" fn dnw_class_print(code: u16, text: &mut [u8], len: &mut usize) -> u32
    ensures text { Returns (PutsCode (class_text (class_of_code code)) text.old text.new) len.old len.new result }
    ensures back { class_of_text (class_text (class_of_code code)) ≡ Some (class_of_code code) }
{
    report(put(text, DNSClass::from(code).to_text().as_bytes()), len)
}

/// Puts the code of the class that a text gives.
#[unsafe(no_mangle)]
pub extern "C" fn dnw_class_parse(text: &[u8], code: &mut u16) -> u32
    ensures { Returns (ParsesCode class_of_text class_code UnknownText text.now) code.old code.new result }
{
    report(class_named(text).map(|class| u16::from(class)), code)
}

/// Compares two serial numbers by the shorter way round, and puts -1, 0 or 1.
#[unsafe(no_mangle)]
pub extern "C" fn dnw_serial_compare(left: u32, right: u32, order: &mut i32) -> u32
    ensures { Returns (ComparesSerials left right) order.old order.new result }
{
    report(compared(left, right), order)
}

/// Returns the sum of two serial numbers, which starts again at 0 once it is past the greatest.
#[unsafe(no_mangle)]
pub extern "C" fn dnw_serial_add(serial: u32, other: u32) -> u32
    ensures { result ≡ serial_sum serial other }
{
    let sum = SerialNumber::new(serial) + SerialNumber::new(other);
    sum.get()
}

/// Compares two serial numbers, and returns -1, 0 or 1.
fn compared(left: u32, right: u32) -> Result<i32, Failure>
    ensures { ComparesSerials left right result }
{
    match SerialNumber::new(left).partial_cmp(&SerialNumber::new(right)) {
        Some(way) => Ok(sign_of(way)),
        None => Err(Failure::NotOrdered),
    }
}

/// Returns the type that a text gives.
fn type_named(text: &[u8]) -> Result<RecordType, Failure>
    ensures ok { IfOk result (λ kind. type_of_text text.now ≡ Some kind) }
    ensures err { IfErr result (FailsToGive type_of_text UnknownText text.now) }
{
    let Ok(name) = str::from_utf8(text) else {
        return Err(Failure::NotUtf8);
    };
    RecordType::from_text(name).ok_or(Failure::UnknownText)
}

/// Returns the class that a text gives.
fn class_named(text: &[u8]) -> Result<DNSClass, Failure>
    ensures ok { IfOk result (λ class. class_of_text text.now ≡ Some class) }
    ensures err { IfErr result (FailsToGive class_of_text UnknownText text.now) }
{
    let Ok(name) = str::from_utf8(text) else {
        return Err(Failure::NotUtf8);
    };
    DNSClass::from_text(name).ok_or(Failure::UnknownText)
}
