//! Names as lists write them: labels with dots between them, and a dot at the end if the name is fully qualified. A letter, a
//! digit, `+`, `-` or `_` stands for itself, and any other octet is `=` and two hexadecimal digits.

use crate::notation::BAD_LINE;
use dns_names_wire::decoder::BinDecoder;
use dns_names_wire::error::ProtoResult;
use dns_names_wire::name::Name;
use std::alloc::Global;

/// Returns the name.
pub(crate) fn name_of(alloc: Global, text: &str) -> ProtoResult<Name> {
    let labels = text.strip_suffix(".").unwrap_or(text);
    let mut wire = Vec::new(alloc);
    if !labels.is_empty() {
        for label in labels.split('.') {
            push_label(&mut wire, label)?;
        }
    }
    wire.push(0)?;
    let mut decoder = BinDecoder::new(wire.as_slice());
    let mut name = Name::read(alloc, &mut decoder)?;
    name.set_fqdn(text.ends_with('.'));
    Ok(name)
}

/// Adds the octets of a label, and the octet before them that says how many they are.
fn push_label(wire: &mut Vec<u8>, label: &str) -> ProtoResult<()> {
    let start = wire.len();
    wire.push(0)?;
    let mut parts = label.split('=');
    wire.extend_from_slice(parts.next().unwrap_or("").as_bytes())?;
    for part in parts {
        let [high, low, others @ ..] = part.as_bytes() else {
            return Err(BAD_LINE);
        };
        wire.push(
            hex_digit(*high)?
                .saturating_mul(16)
                .saturating_add(hex_digit(*low)?),
        )?;
        wire.extend_from_slice(others)?;
    }
    let len = wire.len().saturating_sub(start).saturating_sub(1);
    if let Some(octet) = wire.get_mut(start) {
        *octet = u8::try_from(len).map_err(|_| BAD_LINE)?;
    }
    Ok(())
}

fn hex_digit(c: u8) -> ProtoResult<u8> {
    match c {
        b'0'..=b'9' => Ok(c - b'0'),
        b'a'..=b'f' => Ok(c - b'a' + 10),
        _ => Err(BAD_LINE),
    }
}
