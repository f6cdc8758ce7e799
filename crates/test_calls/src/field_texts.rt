//! The texts of single values of fields, with the values of the RFCs.

use dns_names_wire::field_text::{
    Base32Hex, Base64, CharacterString, FieldTextError, Hexadecimal, Locator, Nsap, Pairs, Salt,
    parse_base64, parse_hash, parse_hexadecimal, parse_ipv4, parse_ipv6, parse_locator, parse_nsap,
    parse_pairs, parse_prefix, parse_salt, parse_string, parse_tag, parse_text, parse_time,
    parse_u8, parse_u16, parse_u32, parse_u48, tag_text, time_text, write_prefix,
};
use std::net::Ipv4Addr;
use std::test::Fail;

#[test]
fn numbers_are_parsed(rt: HostRuntime) {
    assert_eq!(rt; parse_u8("013"), Ok(13));
    assert_eq!(rt; parse_u8("255"), Ok(255));
    assert_eq!(rt; parse_u8("256"), Err(FieldTextError::Number(255)));
    assert_eq!(rt; parse_u16("65535"), Ok(65535));
    assert_eq!(rt; parse_u16("+1"), Err(FieldTextError::Number(65535)));
    assert_eq!(rt; parse_u32("4294967295"), Ok(4294967295));
    assert_eq!(rt; parse_u32(""), Err(FieldTextError::Number(4294967295)));
    assert_eq!(rt; parse_u48("281474976710655"), Ok(281474976710655));
    assert_eq!(rt;
        parse_u48("281474976710656"),
        Err(FieldTextError::Number(281474976710655))
    );
}

/// RFC 4648, section 10.
#[test]
fn octets_have_the_texts_of_rfc_4648(rt: HostRuntime) -> Result<(), Fail> {
    let rows = [
        ("", "", ""),
        ("f", "66", "Zg=="),
        ("fo", "666F", "Zm8="),
        ("foo", "666F6F", "Zm9v"),
        ("foob", "666F6F62", "Zm9vYg=="),
        ("fooba", "666F6F6261", "Zm9vYmE="),
        ("foobar", "666F6F626172", "Zm9vYmFy"),
    ];
    for (text, base16, base64) in rows {
        let alloc = rt.alloc();
        let octets = text.as_bytes();
        assert_eq!(rt;
            format!(in alloc; "{}", Hexadecimal(octets))?.as_str(),
            base16
        );
        assert_eq!(rt; format!(in alloc; "{}", Base64(octets))?.as_str(), base64);
        let mut parsed = Vec::new(alloc);
        parse_hexadecimal(base16, &mut parsed)?;
        parse_base64(base64, &mut parsed)?;
        assert_eq!(rt;
            parsed.as_slice(),
            format!(in alloc; "{text}{text}")?.as_bytes()
        );
    }
    Ok(())
}

/// RFC 4648, section 10, without its padding, which RFC 5155, section 3.3, leaves out.
#[test]
fn hashed_names_have_the_texts_of_rfc_4648(rt: HostRuntime) -> Result<(), Fail> {
    let rows = [
        ("f", "CO"),
        ("fo", "CPNG"),
        ("foo", "CPNMU"),
        ("foob", "CPNMUOG"),
        ("fooba", "CPNMUOJ1"),
        ("foobar", "CPNMUOJ1E8"),
    ];
    for (text, digits) in rows {
        let alloc = rt.alloc();
        assert_eq!(rt;
            format!(in alloc; "{}", Base32Hex(text.as_bytes()))?.as_str(),
            digits
        );
        let mut parsed = Vec::new(alloc);
        parse_hash(digits, &mut parsed)?;
        parse_hash(digits.to_ascii_lowercase(alloc)?.as_str(), &mut parsed)?;
        assert_eq!(rt;
            parsed.as_slice(),
            format!(in alloc; "{text}{text}")?.as_bytes()
        );
    }
    let mut unchanged = Vec::from_slice(rt.alloc(), b"x")?;
    for text in [
        "",
        "C",
        "CP0",
        "CPNMUX",
        "CPNMUOW",
        "CP",
        "CO======",
        "CPNMUOJ1E",
    ] {
        assert_eq!(rt; parse_hash(text, &mut unchanged), Err(FieldTextError::Hash));
        assert_eq!(rt; unchanged.as_slice(), b"x".as_slice());
    }
    Ok(())
}

/// RFC 7043, sections 3.2 and 4.2.
#[test]
fn identifiers_are_printed_and_parsed(rt: HostRuntime) -> Result<(), Fail> {
    let rows = [
        ("00-00-5e-00-53-2a", [0, 0, 0x5e, 0, 0x53, 0x2a].as_slice()),
        (
            "00-00-5e-ef-10-00-00-2a",
            [0, 0, 0x5e, 0xef, 0x10, 0, 0, 0x2a].as_slice(),
        ),
    ];
    for (text, octets) in rows {
        let alloc = rt.alloc();
        assert_eq!(rt; format!(in alloc; "{}", Pairs(octets))?.as_str(), text);
        let mut parsed = Vec::new(alloc);
        parse_pairs(text.to_ascii_uppercase(alloc)?.as_str(), &mut parsed)?;
        assert_eq!(rt; parsed.as_slice(), octets);
    }
    let mut unchanged = Vec::from_slice(rt.alloc(), b"x")?;
    for text in ["", "0", "00-", "00-0", "00 5e", "00:5e", "-00", "0g"] {
        assert_eq!(rt;
            parse_pairs(text, &mut unchanged),
            Err(FieldTextError::Pairs)
        );
        assert_eq!(rt; unchanged.as_slice(), b"x".as_slice());
    }
    Ok(())
}

/// RFC 3123, sections 4 and 5.
#[test]
fn prefixes_are_printed_and_parsed(rt: HostRuntime) -> Result<(), Fail> {
    let rows = [
        (
            "1:192.168.32.0/21",
            b"\x00\x01\x15\x03\xc0\xa8\x20".as_slice(),
        ),
        (
            "!1:192.168.38.0/28",
            b"\x00\x01\x1c\x83\xc0\xa8\x26".as_slice(),
        ),
        ("2:ff00::/8", b"\x00\x02\x08\x01\xff".as_slice()),
        ("1:0.0.0.0/0", b"\x00\x01\x00\x00".as_slice()),
    ];
    for (text, octets) in rows {
        let alloc = rt.alloc();
        let mut shown = String::new(alloc);
        assert_eq!(rt; write_prefix(octets, &mut shown)?, true);
        assert_eq!(rt; shown.as_str(), text);
        let mut parsed = Vec::new(alloc);
        parse_prefix(text.as_bytes(), &mut parsed)?;
        assert_eq!(rt; parsed.as_slice(), octets);
    }
    let mut unchanged = Vec::from_slice(rt.alloc(), b"x")?;
    let none = [
        "",
        "1",
        "1:192.0.2.0",
        "1:192.0.2.0/33",
        "2:::/129",
        "3:::/0",
        "!!1:0.0.0.0/0",
        "1:/0",
    ];
    for text in none {
        assert_eq!(rt;
            parse_prefix(text.as_bytes(), &mut unchanged),
            Err(FieldTextError::Prefix)
        );
        assert_eq!(rt; unchanged.as_slice(), b"x".as_slice());
    }
    let mut nothing = String::new(rt.alloc());
    assert_eq!(rt; write_prefix(b"\x00\x03\x08\x00", &mut nothing)?, false);
    assert_eq!(rt; write_prefix(b"\x00\x01\x08\x01\x00", &mut nothing)?, false);
    assert_eq!(rt; nothing.as_str(), "");
    Ok(())
}

/// RFC 6742, section 2.1.2, and RFC 1706, section 5.
#[test]
fn locators_and_nsap_are_printed_and_parsed(rt: HostRuntime) -> Result<(), Fail> {
    let alloc = rt.alloc();
    let node = 0x0014_4fff_ff20_ee64;
    assert_eq!(rt;
        format!(in alloc; "{}", Locator(node))?.as_str(),
        "0014:4fff:ff20:ee64"
    );
    for text in ["0014:4fff:ff20:ee64", "14:4FFF:ff20:ee64"] {
        assert_eq!(rt; parse_locator(text.as_bytes())?, node);
    }
    for text in [
        "",
        "1:2:3",
        "1:2:3:4:5",
        "1::3:4",
        "12345:2:3:4",
        "1:2:3:g",
        "+1:2:3:4",
    ] {
        assert_eq!(rt;
            parse_locator(text.as_bytes()),
            Err(FieldTextError::Locator)
        );
    }
    let mut octets = Vec::new(alloc);
    parse_nsap(alloc, b"0x47.0005.80.005A00", &mut octets)?;
    assert_eq!(rt;
        octets.as_slice(),
        b"\x47\x00\x05\x80\x00\x5a\x00".as_slice()
    );
    assert_eq!(rt;
        format!(in alloc; "{}", Nsap(octets.as_slice()))?.as_str(),
        "0x47000580005a00"
    );
    for text in ["", "47", "0X47", "0x4", "0x47+00"] {
        assert_eq!(rt;
            parse_nsap(alloc, text.as_bytes(), &mut octets),
            Err(FieldTextError::Nsap)
        );
    }
    Ok(())
}

/// RFC 8659, section 4.1.1.
#[test]
fn tags_and_values_are_parsed(rt: HostRuntime) -> Result<(), Fail> {
    let alloc = rt.alloc();
    let mut parsed = Vec::new(alloc);
    parse_tag("issue", &mut parsed)?;
    assert_eq!(rt; parsed.as_slice(), b"issue".as_slice());
    assert_eq!(rt; tag_text(parsed.as_slice()), Some("issue"));
    assert_eq!(rt; tag_text(b"is-sue"), None);
    for text in ["", "is-sue", "\"issue\""] {
        assert_eq!(rt; parse_tag(text, &mut parsed), Err(FieldTextError::Tag));
    }
    let long = "v".repeat(alloc, 65535)?;
    let mut value = Vec::new(alloc);
    parse_text(long.as_bytes(), &mut value)?;
    assert_eq!(rt; value.len(), 65535);
    let longer = "v".repeat(alloc, 65536)?;
    assert_eq!(rt;
        parse_text(longer.as_bytes(), &mut value),
        Err(FieldTextError::Text)
    );
    assert_eq!(rt; parse_string(b"vv\"", &mut value), Ok(()));
    assert_eq!(rt; value.len(), 65538);
    Ok(())
}

#[test]
fn texts_that_are_no_octets_leave_the_vector_unchanged(rt: HostRuntime) -> Result<(), Fail> {
    let mut octets = Vec::new(rt.alloc());
    octets.push(7)?;
    assert_eq!(rt;
        parse_hexadecimal("4d5", &mut octets),
        Err(FieldTextError::Hexadecimal)
    );
    assert_eq!(rt;
        parse_hexadecimal("4g", &mut octets),
        Err(FieldTextError::Hexadecimal)
    );
    assert_eq!(rt;
        parse_base64("Zg", &mut octets),
        Err(FieldTextError::Base64)
    );
    assert_eq!(rt;
        parse_base64("Zh==", &mut octets),
        Err(FieldTextError::Base64)
    );
    assert_eq!(rt; parse_salt("", &mut octets), Err(FieldTextError::Salt));
    assert_eq!(rt;
        parse_string(b"\"a\"b", &mut octets),
        Err(FieldTextError::CharacterString)
    );
    assert_eq!(rt;
        parse_string(b"a\\256", &mut octets),
        Err(FieldTextError::CharacterString)
    );
    assert_eq!(rt; octets.as_slice(), [7].as_slice());
    Ok(())
}

/// RFC 5155, sections 3.3 and B.1: the salt of the example is `aabbccdd`, and no salt is `-`.
#[test]
fn salts_are_printed_and_parsed(rt: HostRuntime) -> Result<(), Fail> {
    let mut salt = Vec::new(rt.alloc());
    parse_salt("-", &mut salt)?;
    assert_eq!(rt;
        format!(in rt.alloc(); "{}", Salt(salt.as_slice()))?.as_str(),
        "-"
    );
    parse_salt("aabbccdd", &mut salt)?;
    assert_eq!(rt; salt.as_slice(), [0xaa, 0xbb, 0xcc, 0xdd].as_slice());
    assert_eq!(rt;
        format!(in rt.alloc(); "{}", Salt(salt.as_slice()))?.as_str(),
        "AABBCCDD"
    );
    Ok(())
}

/// RFC 5952, sections 4.2 and 4.3, and RFC 4291, section 2.2.
#[test]
fn addresses_are_printed_as_rfc_5952_has_them(rt: HostRuntime) -> Result<(), Fail> {
    let rows = [
        ("2001:db8:0:0:0:0:2:1", "2001:db8::2:1"),
        ("2001:db8:0:1:1:1:1:1", "2001:db8:0:1:1:1:1:1"),
        ("2001:0:0:1:0:0:0:1", "2001:0:0:1::1"),
        ("2001:db8:0:0:1:0:0:1", "2001:db8::1:0:0:1"),
        ("2001:DB8::AAAA", "2001:db8::aaaa"),
        ("::FFFF:129.144.52.38", "::ffff:129.144.52.38"),
    ];
    for (text, printed) in rows {
        let address = parse_ipv6(text)?;
        assert_eq!(rt; format!(in rt.alloc(); "{address}")?.as_str(), printed);
    }
    assert_eq!(rt; parse_ipv6("2001:db8::1::1"), Err(FieldTextError::Ipv6));
    assert_eq!(rt; parse_ipv4("10.2.0.52"), Ok(Ipv4Addr::new(10, 2, 0, 52)));
    assert_eq!(rt; parse_ipv4("10.2.0.052"), Err(FieldTextError::Ipv4));
    Ok(())
}

/// RFC 1035, section 5.1.
#[test]
fn strings_are_printed_and_parsed(rt: HostRuntime) -> Result<(), Fail> {
    let rows = [
        ("\"\"", b"".as_slice()),
        ("\"VAX-11/780 unix\"", b"VAX-11/780 unix".as_slice()),
        ("\"a\\\"b\\\\c\"", b"a\"b\\c".as_slice()),
        ("\"\\007\\255\"", [7, 255].as_slice()),
    ];
    for (text, octets) in rows {
        assert_eq!(rt;
            format!(in rt.alloc(); "{}", CharacterString(octets))?.as_str(),
            text
        );
        let mut parsed = Vec::new(rt.alloc());
        parse_string(text.as_bytes(), &mut parsed)?;
        assert_eq!(rt; parsed.as_slice(), octets);
    }
    let mut parsed = Vec::new(rt.alloc());
    parse_string(b"bare\\032\\x", &mut parsed)?;
    assert_eq!(rt; parsed.as_slice(), b"bare x".as_slice());
    for text in [[34, 233, 128, 34].as_slice(), [233, 128].as_slice()] {
        let mut parsed = Vec::new(rt.alloc());
        parse_string(text, &mut parsed)?;
        assert_eq!(rt; parsed.as_slice(), [233, 128].as_slice());
    }
    Ok(())
}

/// RFC 4034, section 3.3, has the first row's time; the others are the ends of the range and the days round a 29 February,
/// of 2000 and of 2100, which has none.
#[test]
fn times_are_printed_and_parsed(rt: HostRuntime) {
    let rows = [
        ("20030322173103", 1048354263),
        ("19700101000000", 0),
        ("20000229000000", 951782400),
        ("21000301000000", 4107542400),
        ("21060207062815", 4294967295),
    ];
    for (text, seconds) in rows {
        assert_eq!(rt; time_text(seconds).as_str(), text);
        assert_eq!(rt; parse_time(text), Ok(seconds));
    }
    assert_eq!(rt; parse_time("1048354263"), Ok(1048354263));
    assert_eq!(rt; parse_time("21000229000000"), Err(FieldTextError::Time));
    assert_eq!(rt; parse_time("21060207062816"), Ok(0));
    assert_eq!(rt; parse_time("20030322240000"), Err(FieldTextError::Time));
    assert_eq!(rt; parse_time("19691231235959"), Err(FieldTextError::Time));
}
