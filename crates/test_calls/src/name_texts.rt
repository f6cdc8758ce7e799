//! The texts of names in master files. dnspython prints and reads them so.

use dns_names_wire::name::Name;
use dns_names_wire::name_text::{NameTextError, NameTextRule};
use std::test::Fail;

/// Texts and the wire forms of their names, in hexadecimal.
const TEXTS: [(&str, &str); 9] = [
    (".", "00"),
    ("www.example.", "03777777076578616d706c6500"),
    (
        "0/25.2.0.192.in-addr.arpa.",
        "04302f3235013201300331393207696e2d61646472046172706100",
    ),
    ("-dash.example.", "052d64617368076578616d706c6500"),
    ("a!b.example.", "03612162076578616d706c6500"),
    ("_sip._tcp.x.", "045f736970045f746370017800"),
    ("sp\\032ace\\..", "077370206163652e00"),
    ("\\000\\127\\255.", "03007fff00"),
    ("\\\"\\$\\(\\)\\;\\@\\\\.", "07222428293b405c00"),
];

#[test]
fn texts_of_names_come_back(rt: HostRuntime) -> Result<(), Fail> {
    for (text, wire) in TEXTS {
        let name = Name::from_text(rt.alloc(), text, None).map_err(|_| "a name")?;
        assert_eq!(rt; hex::encode(rt.alloc(), name.as_wire())?.as_str(), wire);
        assert!(rt; name.is_fqdn());
        assert_eq!(rt; name.to_text(rt.alloc())?.as_str(), text);
    }
    Ok(())
}

#[test]
fn a_text_may_have_octets_that_are_no_utf8(rt: HostRuntime) -> Result<(), Fail> {
    let name = Name::from_text_bytes(rt.alloc(), b"\xff.x.", None).map_err(|_| "a name")?;
    assert_eq!(rt; name.to_text(rt.alloc())?.as_str(), "\\255.x.");
    Ok(())
}

#[test]
fn an_origin_completes_a_text(rt: HostRuntime) -> Result<(), Fail> {
    let origin = Name::from_text(rt.alloc(), "example.", None).map_err(|_| "a name")?;
    for (text, whole) in [("a", "a.example."), ("@", "example."), ("a.", "a.")] {
        let name = Name::from_text(rt.alloc(), text, Some(&origin)).map_err(|_| "a name")?;
        assert_eq!(rt; name.to_text(rt.alloc())?.as_str(), whole);
    }
    for text in ["a.b", "@"] {
        let name = Name::from_text(rt.alloc(), text, None).map_err(|_| "a name")?;
        assert!(rt; !name.is_fqdn());
        assert_eq!(rt; name.to_text(rt.alloc())?.as_str(), text);
    }
    Ok(())
}

/// Texts that give no name, with the offset and the rule.
const FAULTS: [(&str, usize, NameTextRule); 6] = [
    ("", 0, NameTextRule::EmptyLabel),
    ("a..b", 2, NameTextRule::EmptyLabel),
    ("a\\256", 4, NameTextRule::BadEscape),
    ("a\\1x", 3, NameTextRule::BadEscape),
    ("a\\", 2, NameTextRule::UnfinishedEscape),
    (
        "aaaaaaaaaaaaaaaaaaaaaaaaaaaaaaaaaaaaaaaaaaaaaaaaaaaaaaaaaaaaaaaa",
        63,
        NameTextRule::LabelTooLong,
    ),
];

#[test]
fn a_text_that_gives_no_name_has_an_offset(rt: HostRuntime) -> Result<(), Fail> {
    for (text, offset, rule) in FAULTS {
        match Name::from_text(rt.alloc(), text, None) {
            Ok(_) => return Err(Fail::from("no name")),
            Err(error) => assert_eq!(rt; error, NameTextError { offset, rule }),
        }
    }
    Ok(())
}
