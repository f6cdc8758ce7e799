//! The callers in `crates/uses/src/conversions`.

use dns_names_wire::error::LexerError;
use dns_names_wire::label::Label;
use dns_names_wire::message::{OpCode, ResponseCode};
use dns_names_wire::restrict::Restrict;
use dns_names_wire::txt::Token;
use dns_names_wire::usage::localhost;
use dns_names_wire::{
    BinDecoder, DNSClass, DecodeError, LowerName, Name, ProtoResult, RecordType, SerialNumber,
};
use std::alloc::Global;
use std::cmp::Ordering;
use std::net::{Ipv4Addr, Ipv6Addr};
use std::test::Fail;
use uses::conversions::{codes, errors, names, wires};

#[test]
fn codes_and_their_values(rt: HostRuntime) {
    assert_eq!(rt; codes::type_with(28), RecordType::AAAA);
    assert_eq!(rt; codes::type_with(65280), RecordType::Unknown(65280));
    assert_eq!(rt; codes::class_with(1), DNSClass::IN);
    assert!(rt; codes::is_meta(RecordType::AXFR));
    assert!(rt; !codes::is_meta(RecordType::OPT));
    assert!(rt; codes::have_one_code(DNSClass::OPT(1024), DNSClass::Unknown(1024)));
    assert!(rt; !codes::have_one_code(DNSClass::IN, DNSClass::CH));
    let (op, response) = codes::header_codes(OpCode::Notify, ResponseCode::NXDomain);
    assert_eq!(rt; op, (4, "Notify"));
    assert_eq!(rt; response, (3, "NXDomain"));
    let (op, response) = codes::header_values(5, 16);
    assert_eq!(rt; op, OpCode::Update);
    assert_eq!(rt; response, ResponseCode::BADVERS);
}

#[test]
fn texts_of_codes(rt: HostRuntime) -> Result<(), Fail> {
    let alloc = rt.alloc();
    assert_eq!(rt; codes::names_of(DNSClass::IN, RecordType::MX), ("IN", "MX"));
    let printed = codes::printed(alloc, DNSClass::IN, RecordType::Unknown(7))?;
    assert_eq!(rt; printed.as_str(), "IN Unknown (IN Unknown(7))");
    assert_eq!(rt; codes::named_type(alloc, "AAAA")?, RecordType::AAAA);
    assert_eq!(rt; codes::named_class(alloc, "CH")?, DNSClass::CH);
    let error = codes::named_type(alloc, "aaaa").unwrap_err();
    assert_eq!(rt;
        error.to_string(alloc)?.as_str(),
        "record type string unknown: aaaa"
    );
    let words = codes::written("ch", "type28");
    assert_eq!(rt; words, Some((DNSClass::CH, RecordType::AAAA)));
    assert_eq!(rt; codes::written("IN", "TYPE65536"), None);
    let (class, record_type) = codes::words(DNSClass::IN, RecordType::Unknown(65280));
    assert_eq!(rt; class.as_str(), "IN");
    assert_eq!(rt; record_type.as_str(), "TYPE65280");
    Ok(())
}

#[test]
fn codes_compared(rt: HostRuntime) -> Result<(), Fail> {
    let alloc = rt.alloc();
    let unknown = RecordType::Unknown(1);
    assert_eq!(rt; codes::lesser(unknown, RecordType::A), RecordType::A);
    assert_eq!(rt; codes::lesser(unknown, RecordType::NS), unknown);
    assert_eq!(rt; codes::greater(DNSClass::IN, DNSClass::IN), None);
    assert_eq!(rt;
        codes::greater(DNSClass::IN, DNSClass::CH),
        Some(DNSClass::CH)
    );
    let kinds = [RecordType::A, RecordType::NS, RecordType::A];
    assert_eq!(rt;
        codes::count_different(alloc, &kinds, &[DNSClass::IN])?,
        (2, 1)
    );
    assert!(rt; codes::is_newer(0, u32::MAX));
    assert!(rt; !codes::is_newer(1 << 31, 0));
    assert_eq!(rt; codes::next_serial(SerialNumber::new(u32::MAX)), 0);
    let set = codes::listed_types(alloc, &[RecordType::MX, RecordType::A])?;
    assert_eq!(rt; codes::set_text(alloc, &set)?.as_str(), " A MX NSEC");
    Ok(())
}

/// Returns the texts of names, with a blank after each.
fn texts(alloc: Global, names: &[Name]) -> ProtoResult<String> {
    let mut text = String::new(alloc);
    for name in names {
        text.push_str(name.to_ascii(alloc)?.as_str())?;
        text.push(' ')?;
    }
    Ok(text)
}

#[test]
fn what_gives_a_name(rt: HostRuntime) -> Result<(), Fail> {
    let alloc = rt.alloc();
    let v4 = Ipv4Addr::new(192, 0, 2, 1);
    let v6 = Ipv6Addr::new(0x2001, 0xdb8, 0, 0, 0, 0, 0, 1);
    let of_host = names::names_of_host(alloc, "a.", v4, v6)?;
    assert_eq!(rt;
        texts(alloc, of_host.as_slice())?.as_str(),
        "a. 1.2.0.192.in-addr.arpa. \
         1.0.0.0.0.0.0.0.0.0.0.0.0.0.0.0.0.0.0.0.0.0.0.0.8.b.d.0.1.0.0.2.ip6.arpa. \
         1.2.0.192.in-addr.arpa. "
    );
    let address = names::address_or_name(alloc, String::from_str(alloc, "192.0.2.1")?)?;
    assert!(rt; address == Ok(v4.into()));
    let name = names::address_or_name(alloc, String::from_str(alloc, "a.")?)?;
    assert!(rt; name == Err(Name::from_ascii(alloc, "a.")?));
    let (name, lower, again) = names::three_ways(alloc, String::from_str(alloc, "A.bC.")?)?;
    assert_eq!(rt;
        texts(alloc, &[name, lower, again])?.as_str(),
        "A.bC. a.bc. a.bc. "
    );
    Ok(())
}

#[test]
fn what_gives_a_label(rt: HostRuntime) -> Result<(), Fail> {
    let alloc = rt.alloc();
    let (second, fourth) = (String::from_str(alloc, "b")?, vec![in alloc; b'd']?);
    let name = names::joined(alloc, "a", second, b"c", fourth)?;
    let around = names::between(alloc, &name, names::label_of(alloc, "e")?)?;
    assert_eq!(rt;
        texts(alloc, &[name, around])?.as_str(),
        "a.b.c.d e.a.b.c.d.e "
    );
    Ok(())
}

#[test]
fn labels_of_a_name(rt: HostRuntime) -> Result<(), Fail> {
    let alloc = rt.alloc();
    let name = Name::from_ascii(alloc, "a.bc.d.")?;
    assert!(rt; names::has_label(&name, b"bc"));
    assert!(rt; !names::has_label(&name, b"BC"));
    assert_eq!(rt;
        names::ends(&name),
        Some((b"a".as_slice(), b"d".as_slice()))
    );
    assert_eq!(rt; names::ends(&name.trim_to(1)?), None);
    Ok(())
}

#[test]
fn names_and_labels_compared(rt: HostRuntime) -> Result<(), Fail> {
    let alloc = rt.alloc();
    let name = |text: &str| Name::from_ascii(alloc, text);
    let (small, capital) = (
        Label::from_ascii(alloc, "a")?,
        Label::from_ascii(alloc, "B")?,
    );
    let orders = names::label_orders(&small, &capital);
    assert!(rt; orders == (Ordering::Less, Ordering::Greater));
    let orders = names::label_orders(&small, &Label::from_ascii(alloc, "A")?);
    assert!(rt; orders == (Ordering::Equal, Ordering::Greater));
    let mut sorted = vec![in alloc;
        name("b.a.")?,
        name("A.")?,
        name("z.")?,
        name("a.")?,
        name("B")?,
    ]?;
    assert!(rt; names::sort_names(&mut sorted));
    assert_eq!(rt; sorted.len(), 4);
    assert!(rt; !names::sort_names(&mut sorted));
    assert_eq!(rt; sorted[0].to_ascii(alloc)?.as_str(), "B");
    assert_eq!(rt; sorted[2].to_ascii(alloc)?.as_str(), "b.a.");
    assert!(rt; names::are_same(&name("a.b.")?, &name("a.b.")?));
    assert!(rt; !names::are_same(&name("a.b.")?, &name("A.b.")?));
    assert!(rt; !names::are_same(&name("a.b.")?, &name("a.b")?));
    Ok(())
}

#[test]
fn keys_and_zones(rt: HostRuntime) -> Result<(), Fail> {
    let alloc = rt.alloc();
    let key = |text: &str, record_type: RecordType| names::key_of(
        &Name::from_ascii(alloc, text)?,
        record_type,
    );
    let keys = [
        key("A.", RecordType::NS)?,
        key("a.", RecordType::NS)?,
        key("a.", RecordType::A)?,
    ];
    assert!(rt; keys[0] == keys[1]);
    assert_eq!(rt; names::count_different(alloc, &keys)?, (2, 1));
    assert!(rt; *names::greater_key(&keys[1], &keys[2]) == keys[0]);
    let name = Name::from_ascii(alloc, "A.localHOST.")?;
    let lower = LowerName::from_str(alloc, "LOCALhost.")?;
    assert!(rt; names::is_zone_of(&lower, &name));
    assert!(rt; !names::is_zone_of(keys[0].name(), &name));
    assert!(rt; names::is_loopback(&localhost(alloc)?, &name));
    assert!(rt; !names::is_loopback(&localhost(alloc)?, keys[0].name()));
    Ok(())
}

#[test]
fn texts_of_names_and_nets(rt: HostRuntime) -> Result<(), Fail> {
    let alloc = rt.alloc();
    let (label, name) = (
        Label::from_ascii(alloc, "A")?,
        Name::from_ascii(alloc, "A.b.")?,
    );
    let printed = names::printed(alloc, &label, &name, &LowerName::new(&name)?)?;
    assert_eq!(rt;
        printed.as_str(),
        "A A.b. a.b. (A Name(\"A.b.\") LowerName(Name(\"a.b.\")))"
    );
    let (own, in_zone) = names::parsed(alloc, "c", &name)?;
    assert_eq!(rt; texts(alloc, &[own, in_zone])?.as_str(), "c c.A.b. ");
    let net = Name::from_ascii(alloc, "168.192.in-addr.arpa.")?;
    let wider = Name::from_ascii(alloc, "D.0.1.0.0.2.ip6.arpa.")?;
    let (text, are_equal) = names::nets(alloc, &net, &wider)?;
    assert_eq!(rt; text.as_str(), "192.168.0.0/16 2001:d00::/24");
    assert!(rt; !are_equal);
    assert!(rt; names::nets(alloc, &net, &net)?.1);
    Ok(())
}

#[test]
fn errors_of_errors(rt: HostRuntime) -> Result<(), Fail> {
    let alloc = rt.alloc();
    assert_eq!(rt; errors::name_text(alloc, b"\x01a\x00")?.as_str(), "a.");
    let error = errors::name_text(alloc, b"").unwrap_err();
    assert_eq!(rt;
        error.to_string(alloc)?.as_str(),
        "decoding error: unexpected end of input reached"
    );
    assert!(rt; errors::first_name(alloc, "")?.is_none());
    assert!(rt; errors::first_name(alloc, "a. b.")? == Some(Name::from_ascii(alloc, "a.")?));
    for (text, wanted) in [
        ("\"", "lexer error: unclosed quoted string"),
        ("\r", "lexer error: unexpected end of input"),
        ("@", "unrecognized token in stream: At"),
        ("a..b", "proto error: Malformed label: "),
    ] {
        let error = errors::first_name(alloc, text).unwrap_err();
        assert_eq!(rt; error.to_string(alloc)?.as_str(), wanted);
    }
    assert_eq!(rt; errors::name_and_ttl(alloc, b"\x00", "1h")?.1, 3600);
    for octets in [b"\x40".as_slice(), b"\x00"] {
        let error = errors::name_and_ttl(alloc, octets, "x").unwrap_err();
        let text = error.to_string(alloc)?;
        let is_of_reading = text.as_str().starts_with("proto error: decoding error: ");
        assert_eq!(rt; is_of_reading, octets == b"\x40".as_slice());
    }
    Ok(())
}

#[test]
fn errors_made_copied_and_compared(rt: HostRuntime) -> Result<(), Fail> {
    let alloc = rt.alloc();
    let parsing = errors::parse_error(DecodeError::RecordAfterSig);
    let text = "proto error: decoding error: record after TSIG or SIG(0)";
    assert_eq!(rt; parsing.to_string(alloc)?.as_str(), text);
    let (wire, own) = errors::fixed_errors("no");
    assert_eq!(rt; wire.to_string(alloc)?.as_str(), "no");
    assert_eq!(rt; own.to_string(alloc)?.as_str(), "no");
    let made = errors::own_errors(String::from_str(alloc, "x")?, String::from_str(alloc, "y")?);
    assert_eq!(rt; made.0.to_string(alloc)?.as_str(), "x");
    assert_eq!(rt; made.1.to_string(alloc)?.as_str(), "y");
    let reading = DecodeError::LabelBytesTooLong(64);
    let lexing = LexerError::UnclosedList;
    let (a, b, c, d) = errors::copies(&reading, &made.0, &lexing, &parsing)?;
    let printed = errors::texts(alloc, &a, &b, &c, &d)?;
    assert_eq!(rt;
        printed.as_str(),
        "label bytes exceed 63: 64 (LabelBytesTooLong(64))\n\
         x (Msg(\"x\"))\n\
         unclosed list, missing ')' (UnclosedList)\n\
         proto error: decoding error: record after TSIG or SIG(0) (Proto(Decode(RecordAfterSig)))"
    );
    assert!(rt; errors::begins_with(alloc, "@ a", &Token::At)?);
    assert!(rt; !errors::begins_with(alloc, "\r", &Token::At)?);
    assert!(rt; errors::begins_with(alloc, "(", &Token::At).is_err());
    Ok(())
}

#[test]
fn values_and_their_octets(rt: HostRuntime) -> Result<(), Fail> {
    let alloc = rt.alloc();
    let name = Name::from_ascii(alloc, "A.")?;
    let octets = wires::question(alloc, &name, RecordType::MX, DNSClass::IN)?;
    assert_eq!(rt; octets.as_slice(), b"\x01A\x00\x00\x0f\x00\x01".as_slice());
    let (lower, record_type, class) = wires::question_of(alloc, octets.as_slice())?;
    assert_eq!(rt; lower.to_ascii(alloc)?.as_str(), "a.");
    assert_eq!(rt; (class, record_type), (DNSClass::IN, RecordType::MX));
    assert_eq!(rt;
        wires::numbers(alloc, 1, -2, 4294967295)?,
        (1, -2, 4294967295)
    );
    // A bitmap of one type takes a window's number, its length and an octet.
    let set = codes::listed_types(alloc, &[])?;
    assert_eq!(rt; wires::size(alloc, &lower, &set, &octets)?, 2 + 3 + 8 + 7);
    let mut decoder = BinDecoder::new(b"\x00\x0a\x01a\x00");
    let (preference, exchange) = wires::mail(alloc, &mut decoder, Restrict::new(5))?;
    assert_eq!(rt; preference, 10);
    assert_eq!(rt; exchange.to_ascii(alloc)?.as_str(), "a.");
    let data = b"\x01A\x00\x01B\x00\xff\xff\xff\xff\xff\xff\xff\xfe";
    let mut decoder = BinDecoder::new(data);
    let found = wires::start_of_zone(alloc, &mut decoder, Restrict::new(14))?;
    assert_eq!(rt; found.0.to_ascii(alloc)?.as_str(), "a.");
    assert_eq!(rt; found.1.to_ascii(alloc)?.as_str(), "B.");
    assert_eq!(rt; (found.2, found.3), (4294967295, -2));
    Ok(())
}

#[test]
fn values_of_messages_are_verified(rt: HostRuntime) {
    for (octet, length) in [(0, Err(0)), (1, Ok(1)), (63, Ok(63)), (64, Err(64))] {
        assert_eq!(rt; wires::label_length(Restrict::new(octet)), length);
    }
    for (octets, last) in [(0, None), (3, Some(23)), (32, Some(255)), (33, None)] {
        assert_eq!(rt; wires::last_type(Restrict::new(octets)), last);
    }
    assert!(rt; wires::ends_within(10, Restrict::new(5), 15));
    assert!(rt; !wires::ends_within(10, Restrict::new(5), 14));
    assert!(rt; !wires::ends_within(usize::MAX, Restrict::new(1), usize::MAX));
}
