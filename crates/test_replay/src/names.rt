//! Names by their calls.

use crate::notation::{BAD_LINE, first_word, hexadecimal, octets, push_word};
use dns_names_wire::binary::BinEncodable;
use dns_names_wire::error::{ProtoError, ProtoResult};
use dns_names_wire::name::Name;
use std::alloc::Global;

/// Returns the answer to a request about names, which are written as texts.
pub(crate) fn answer(alloc: Global, kind: &str, words: &str) -> ProtoResult<String> {
    match kind {
        "name" => calls(alloc, words),
        "append" => append(alloc, words, false),
        "append-octets" => append(alloc, words, true),
        "made" => shown(alloc, Ok(made(alloc, words)?)),
        "lower" => shown(alloc, Name::from_ascii(alloc, words)?.to_lowercase()),
        _ => {
            let (first, second) = first_word(words)?;
            let name = Name::from_ascii(alloc, first)?;
            let other = Name::from_ascii(alloc, second)?;
            match kind {
                "append-name" => shown(alloc, name.append_name(&other)),
                "append-domain" => shown(alloc, name.append_domain(&other)),
                "in-zone" => in_zone(alloc, &name, &other),
                "eq-name" => Ok(format!(in alloc; "{}", name.as_name_ref().eq_name(&other))?),
                _ => Err(BAD_LINE),
            }
        }
    }
}

/// Returns whether a name is in a zone, by each of the calls that test it.
fn in_zone(alloc: Global, name: &Name, zone: &Name) -> ProtoResult<String> {
    let is_in = name.is_in(zone);
    let borrowed = name.as_name_ref().is_in(zone);
    if is_in != borrowed
        || is_in != zone.zone_of(name)
        || is_in != name.as_name_ref().zone_of(zone)
    {
        return Err(ProtoError::Message("the calls do not agree"));
    }
    Ok(format!(in alloc; "{is_in}")?)
}

/// Returns a name's Debug text and whether it is fully qualified, or the error's Debug text.
pub(crate) fn shown(alloc: Global, name: ProtoResult<Name>) -> ProtoResult<String> {
    Ok(match name {
        Ok(name) => format!(in alloc; "{name:?} {}", name.is_fqdn())?,
        Err(e) => format!(in alloc; "{e:?}")?,
    })
}

/// Returns what a name's calls return: the wire form, the encoded length, `len`, the numbers of labels without a first
/// asterisk and with it, whether it is the root, and its text.
fn calls(alloc: Global, text: &str) -> ProtoResult<String> {
    let name = Name::from_ascii(alloc, text)?.clone()?;
    let form = name.to_bytes(alloc)?;
    if form.as_slice() != name.as_wire() || name.is_empty() {
        return Err(ProtoError::Message("the calls differ"));
    }
    let form = hexadecimal(alloc, form.as_slice())?;
    let (encoded, len, labels) = (name.encoded_len(), name.len(), name.num_labels());
    let (count, is_root) = (name.iter().len(), name.is_root());
    Ok(format!(in alloc; "{form} {encoded} {len} {labels} {count} {is_root} {name:?}")?)
}

/// Returns a name without labels.
fn made(alloc: Global, kind: &str) -> ProtoResult<Name> {
    Ok(match kind {
        "root" => Name::root(alloc),
        "new" => Name::new(alloc),
        "default" => Name::default(alloc),
        "qualified" => {
            let mut name = Name::new(alloc);
            name.set_fqdn(true);
            name
        }
        _ => return Err(BAD_LINE),
    })
}

/// Appends labels, texts or octets, to the relative name without labels, and returns it and its labels in hexadecimal.
fn append(alloc: Global, words: &str, are_octets: bool) -> ProtoResult<String> {
    let mut name = Name::new(alloc);
    for word in words.split(' ') {
        let longer = if are_octets {
            name.append_label(alloc, octets(alloc, word)?)
        } else {
            name.append_label(alloc, word)
        };
        name = match longer {
            Ok(longer) => longer,
            Err(e) => return Ok(format!(in alloc; "{e:?}")?),
        };
    }
    let mut text = format!(in alloc; "{name:?}")?;
    for label in name.iter() {
        push_word(&mut text, hexadecimal(alloc, label)?.as_str())?;
    }
    Ok(text)
}
