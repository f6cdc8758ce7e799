//! What the words after `dnw zone` and `dnw zone-digest` ask for.

use crate::base::{Given, Known, Misuse, Refusal, Sink, Watch, said_of};
use crate::zones::listing::ZoneFile;
use crate::zones::shown::{Form, Wanted};
use dns_names_wire::dnssec::zone_digest;
use dns_names_wire::field_text::{parse_u8, parse_u32};
use dns_names_wire::name::Name;
use std::alloc::Global;
use std::io::Read;
use std::rt::Files;

/// The greatest time to live (RFC 2181, section 8).
const MAX_TTL: u32 = 0x7fff_ffff;

/// The options of `dnw zone`.
const OPTIONS: [Known; 8] = [
    Known::Valued("--origin", "NAME"),
    Known::Valued("--ttl", "SECONDS"),
    Known::Valued("--generate-limit", "NUMBER"),
    Known::Flag("--sort"),
    Known::Flag("--relative"),
    Known::Flag("--wire"),
    Known::Flag("--check"),
    Known::Repeated("--include", "DIR"),
];

/// The options of `dnw zone-digest`.
const DIGEST_OPTIONS: [Known; 1] = [Known::Repeated("--include", "DIR")];

/// What of a zone a digest is computed of.
const WANTED_OF_DIGEST: Wanted = Wanted {
    form: Form::Nothing,
    is_sorted: false,
    ttl: None,
    generate_limit: 0,
};

/// Shows the records of the zone files that the words name, or of standard input for `-`, as the options ask for: each as soon as it is
/// there, or all in canonical order. Names without a dot at their end are below the origin. Each error is said, and after the first one
/// of a file no more of its records are shown.
pub(crate) fn zone<E: Files + AllocGlobal, I: Read, O: Sink, P: Watch>(
    env: &E,
    alloc: Global,
    words: &[String],
    input: &mut I,
    out: &mut O,
    watch: &mut P,
) -> Result<(), Refusal> {
    let given = Given::of(alloc, words, &OPTIONS)?;
    let wanted = wanted_of(alloc, &given)?;
    let files = given.some("FILE or -")?;
    let Some(origin) = given.value("--origin") else {
        return Err(Misuse::Missing("--origin NAME").into());
    };
    let folders = given.values(alloc, "--include")?;
    for file in files {
        let zone = ZoneFile {
            file: *file,
            origin,
            folders: folders.as_slice(),
            wanted,
        };
        let shown = zone.show(env, alloc, input, out, watch);
        said_of(alloc, file, 1 < files.len(), shown, out)?;
    }
    Ok(())
}

/// What the options ask for: of `--relative`, `--wire` and `--check` only one is there.
fn wanted_of(alloc: Global, given: &Given<'_>) -> Result<Wanted, Refusal> {
    let form = match given.one_of(&["--relative", "--wire", "--check"])? {
        Some("--relative") => Form::Relative,
        Some("--wire") => Form::Wire,
        Some(_) => Form::Findings,
        None => Form::Lines,
    };
    Ok(Wanted {
        form,
        is_sorted: given.has("--sort"),
        ttl: ttl_of(alloc, given)?,
        generate_limit: generate_limit_of(alloc, given)?,
    })
}

/// The time to live that `--ttl` gives to records for which the file states none.
fn ttl_of(alloc: Global, given: &Given<'_>) -> Result<Option<u32>, Refusal> {
    let Some(word) = given.value("--ttl") else {
        return Ok(None);
    };
    match parse_u32(word) {
        Ok(ttl) if ttl <= MAX_TTL => Ok(Some(ttl)),
        _ => Err(Misuse::wrong(alloc, "a number of at most 2147483647", word)),
    }
}

/// How many records `--generate-limit` allows a `$GENERATE`, which is an error without it.
fn generate_limit_of(alloc: Global, given: &Given<'_>) -> Result<u32, Refusal> {
    let Some(word) = given.value("--generate-limit") else {
        return Ok(0);
    };
    match parse_u32(word) {
        Ok(limit) => Ok(limit),
        Err(_) => Err(Misuse::wrong(alloc, "a number of at most 4294967295", word)),
    }
}

/// Shows the digest that a ZONEMD record of a zone has (RFC 8976), by the hash algorithm, in hexadecimal digits. The words are the apex,
/// the algorithm and the zone file, whose names without a dot at their end are below the apex.
pub(crate) fn digest<E: Files + AllocGlobal, I: Read, O: Sink, P: Watch>(
    env: &E,
    alloc: Global,
    words: &[String],
    input: &mut I,
    out: &mut O,
    watch: &mut P,
) -> Result<(), Refusal> {
    let given = Given::of(alloc, words, &DIGEST_OPTIONS)?;
    let [apex, algorithm, file] = given.plain.as_slice() else {
        return Err(given.wrong_count(alloc, &["APEX", "ALGORITHM", "FILE or -"]));
    };
    let Ok(algorithm) = parse_u8(algorithm) else {
        return Err(Misuse::wrong(alloc, "a number of at most 255", algorithm));
    };
    let folders = given.values(alloc, "--include")?;
    let zone = ZoneFile {
        file: *file,
        origin: *apex,
        folders: folders.as_slice(),
        wanted: WANTED_OF_DIGEST,
    };
    let Some(kept) = zone.kept(env, alloc, input, out, watch)? else {
        return Ok(());
    };
    let apex = Name::from_text(alloc, apex, None)?;
    let digest = zone_digest(alloc, &apex, kept.records(alloc)?.as_slice(), algorithm)?;
    watch.ends();
    out.put_line(hex::encode(alloc, digest.as_slice())?.as_str())
}
