//! Values of each type that a message may hold, with ample memory.

use dns_names_wire::binary::{BinDecodable, BinEncodable};
use dns_names_wire::decoder::BinDecoder;
use dns_names_wire::dns_class::DNSClass;
use dns_names_wire::encoder::BinEncoder;
use dns_names_wire::label::Label;
use dns_names_wire::lower_name::LowerName;
use dns_names_wire::name::Name;
use dns_names_wire::record_data::RecordDataDecodable;
use dns_names_wire::record_type::RecordType;
use dns_names_wire::restrict::Restrict;
use std::fmt;
use std::test::Fail;

/// The numbers 1, -2 and 3, the type AAAA, the class IN and the name `A.`
const MESSAGE: &[u8] = b"\x00\x01\xff\xff\xff\xfe\x00\x00\x00\x03\x00\x1c\x00\x01\x01A\x00";

#[test]
fn a_value_of_each_type_is_read(rt: HostRuntime) -> Result<(), Fail> {
    let mut decoder = BinDecoder::new(MESSAGE);
    assert!(rt; matches!(u16::read(rt.alloc(), &mut decoder), Ok(1)));
    assert!(rt; matches!(i32::read(rt.alloc(), &mut decoder), Ok(-2)));
    assert!(rt; matches!(u32::read(rt.alloc(), &mut decoder), Ok(3)));
    assert!(rt;
        matches!(
            RecordType::read(rt.alloc(), &mut decoder),
            Ok(RecordType::AAAA)
        )
    );
    assert!(rt; matches!(DNSClass::read(rt.alloc(), &mut decoder), Ok(DNSClass::IN)));
    let name = LowerName::read(rt.alloc(), &mut decoder).map_err(|_| "a name")?;
    assert_eq!(rt; name.to_ascii(rt.alloc())?.as_str(), "a.");
    assert!(rt; decoder.is_empty());
    Ok(())
}

#[test]
fn a_name_is_read_from_bytes(rt: HostRuntime) -> Result<(), Fail> {
    let name = Name::from_bytes(rt.alloc(), b"\x01A\x00".as_slice()).map_err(|_| "a name")?;
    assert_eq!(rt; name.to_ascii(rt.alloc())?.as_str(), "A.");
    let lower = LowerName::from_bytes(rt.alloc(), b"\x01A\x00".as_slice()).map_err(|_| "a name")?;
    assert_eq!(rt; lower.to_ascii(rt.alloc())?.as_str(), "a.");
    Ok(())
}

#[test]
fn a_name_in_lower_case_is_read_from_record_data(rt: HostRuntime) -> Result<(), Fail> {
    let mut decoder = BinDecoder::new(b"\x01A\x00");
    let length = Restrict::new(3u16);
    let name = LowerName::read_data(rt.alloc(), &mut decoder, length).map_err(|_| "a name")?;
    assert_eq!(rt; name.to_ascii(rt.alloc())?.as_str(), "a.");
    Ok(())
}

#[test]
fn a_wildcard_is_a_label(rt: HostRuntime) -> Result<(), Fail> {
    assert_eq!(rt; Label::wildcard(rt.alloc())?.as_bytes(), b"*".as_slice());
    Ok(())
}

#[test]
fn a_placeholder_is_filled(rt: HostRuntime) -> Result<(), Fail> {
    let mut bytes = Vec::new(rt.alloc());
    let mut encoder = BinEncoder::new(&mut bytes);
    let place = encoder.place::<u16>()?;
    encoder.emit_u8(42)?;
    encoder.emit_at(place, 1)?;
    assert_eq!(rt; encoder.into_bytes().as_slice(), b"\x00\x01\x2a".as_slice());
    Ok(())
}

/// A sink that takes texts, or none.
#[derive(Drop)]
struct Sink {
    is_open: bool,
    len: usize,
}

impl fmt::Write for Sink {
    fn write_str(&mut self, text: &str) -> fmt::Result {
        if !self.is_open {
            return Err(fmt::Error);
        }
        self.len = self.len.saturating_add(text.len());
        Ok(())
    }
}

#[test]
fn a_label_is_written_unless_its_sink_fails(rt: HostRuntime) -> Result<(), Fail> {
    // 63 octets of which each takes four characters are the longest text.
    let long = [0; 63];
    for (bytes, len) in [
        (b"a".as_slice(), 1),
        (b"a.b".as_slice(), 4),
        (long.as_slice(), 252),
    ] {
        let label = Label::from_raw_bytes(rt.alloc(), bytes)?;
        let mut open = Sink {
            is_open: true,
            len: 0,
        };
        assert!(rt; label.write_ascii(&mut open).is_ok());
        assert_eq!(rt; open.len, len);
        let mut closed = Sink {
            is_open: false,
            len: 0,
        };
        assert!(rt; label.write_ascii(&mut closed).is_err());
        assert_eq!(rt; closed.len, 0);
    }
    Ok(())
}
