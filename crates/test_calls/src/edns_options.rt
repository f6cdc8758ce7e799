//! EDNS options, typed: those of the RFCs' formats, read, written as the same octets, and shown as `dig` of BIND 9.18 shows them.

use dns_names_wire::edns_options::{OptionCode, OptionData, OptionError, ZoneVersion};
use std::test::Fail;

/// Reads an option, and returns whether it is shown and written so.
fn is_shown(rt: HostRuntime, code: u16, hexadecimal: &str, shown: &str) -> Result<bool, Fail> {
    let alloc = rt.alloc();
    let octets = hex::decode(alloc, hexadecimal)?;
    let option = OptionData::read(code, octets.as_slice())?;
    let mut written = Vec::new(alloc);
    option.append_to(&mut written)?;
    let is_same = written.as_slice() == octets.as_slice() && u16::from(option.code()) == code;
    Ok(is_same && option.to_string(alloc)?.as_str() == shown)
}

#[test]
fn options_as_dig_shows_them(rt: HostRuntime) -> Result<(), Fail> {
    let rows = [
        (3, "6e73", "NSID: 6e 73 (\"ns\")"),
        (8, "00011400c00020", "CLIENT-SUBNET: 192.0.32.0/20/0"),
        (
            8,
            "0002382020010db8000001",
            "CLIENT-SUBNET: 2001:db8:0:100::/56/32",
        ),
        (
            9,
            "000f4240",
            "EXPIRE: 1000000 (1 week 4 days 13 hours 46 minutes 40 seconds)",
        ),
        (10, "0102030405060708", "COOKIE: 0102030405060708"),
        (11, "0032", "TCP KEEPALIVE: 5.0 secs"),
        (12, "0000000000", "PAD: (5 bytes)"),
        (
            13,
            "076578616d706c6503636f6d00",
            "OPT=13: 07 65 78 61 6d 70 6c 65 03 63 6f 6d 00 (\".example.com.\")",
        ),
        (15, "00126e6f", "EDE: 18 (Prohibited): (no)"),
        (15, "000fc3a90a5c", "EDE: 15 (Blocked): (é.\\)"),
        (
            18,
            "056167656e7403636f6d00",
            "OPT=18: 05 61 67 65 6e 74 03 63 6f 6d 00 (\".agent.com.\")",
        ),
        (19, "020078563412", "OPT=19: 02 00 78 56 34 12 (\"..xV4.\")"),
        (65001, "0102", "OPT=65001: 01 02 (\"..\")"),
    ];
    for (code, octets, shown) in rows {
        assert!(rt; is_shown(rt, code, octets, shown)?);
    }
    Ok(())
}

#[test]
fn options_that_break_a_rule(rt: HostRuntime) -> Result<(), Fail> {
    let alloc = rt.alloc();
    let rows = [
        (8, "00012100c000020100", OptionError::Prefix),
        (8, "00022000", OptionError::Length),
        (8, "00011400c0002f", OptionError::Bits),
        (9, "00", OptionError::Length),
        (10, "010203040506070809", OptionError::Length),
        (11, "01", OptionError::Length),
        (13, "0765786100", OptionError::Name),
        (15, "00", OptionError::Length),
        (15, "000fff", OptionError::Text),
        (18, "", OptionError::Name),
        (18, "c000", OptionError::Name),
        (19, "0200785634", OptionError::Length),
    ];
    for (code, hexadecimal, wanted) in rows {
        let octets = hex::decode(alloc, hexadecimal)?;
        let error = OptionData::read(code, octets.as_slice())
            .err()
            .ok_or("a broken rule")?;
        assert_eq!(rt; error, wanted);
    }
    let version = OptionData::ZoneVersion(Some(ZoneVersion {
        labels: 2,
        version_type: 0,
        version: b"123",
    }));
    assert_eq!(rt;
        version.append_to(&mut Vec::new(alloc)),
        Err(OptionError::Length)
    );
    let named = OptionData::Unknown {
        code: 3,
        octets: b"ns",
    };
    assert_eq!(rt; named.fault(), Some(OptionError::Named));
    assert_eq!(rt; OptionCode::from(19), OptionCode::ZoneVersion);
    Ok(())
}
