//! Which module makes which request.

use crate::notation::BAD_LINE;
use crate::tally::Tally;
use crate::{
    bounds, codes, data_texts, decoding, dnssec, encoding, errors, fields, labels, names, nets,
    ordering, readings, record_sets, records, restrict, scripts, texts, tokens, walking,
};
use dns_names_wire::error::ProtoResult;
use std::alloc::Global;

/// Makes a request, which is its first word and the others, and returns the answer. The tally counts what an answer covers
/// beyond one text.
pub(crate) fn answer(
    alloc: Global,
    kind: &str,
    words: &str,
    tally: &mut Tally,
) -> ProtoResult<String> {
    match kind {
        "lex" | "lex-cuts" | "lex-texts" | "lex-zone" | "time" | "times" => {
            tokens::answer(alloc, kind, words, tally)
        }
        "decode" | "from-bytes" => decoding::answer(alloc, kind, words),
        "restrict" => restrict::answer(alloc, words),
        "encode" | "encode-numbered" | "to-bytes" => encoding::answer(alloc, kind, words),
        "script" | "script-end" | "script-replies" | "script-done" | "items" => {
            scripts::answer(alloc, kind, words)
        }
        "error" => errors::answer(alloc, words),
        "extremes" | "clamp" => bounds::answer(alloc, kind, words),
        _ => of_names(alloc, kind, words),
    }
}

/// Makes a request about names, or one of `of_records`.
fn of_names(alloc: Global, kind: &str, words: &str) -> ProtoResult<String> {
    match kind {
        "readings" | "read" | "cuts" | "octets" | "pairs" | "chain" | "blocks" => {
            readings::answer(alloc, kind, words)
        }
        "walk" | "borrowed" => walking::answer(alloc, kind, words),
        "text" | "print" | "parse" | "origin" => texts::answer(alloc, kind, words),
        "label" | "label-text" | "into-label" => labels::answer(alloc, kind, words),
        "made"
        | "name"
        | "append"
        | "append-octets"
        | "append-name"
        | "append-domain"
        | "lower"
        | "in-zone"
        | "eq-name" => names::answer(alloc, kind, words),
        "order"
        | "label-order"
        | "lower-order"
        | "cmp"
        | "edits"
        | "from_labels"
        | "from-texts"
        | "trimmed"
        | "base_name"
        | "into_wildcard"
        | "trim_to"
        | "append_label"
        | "prepend_label"
        | "append_name"
        | "append_domain"
        | "back"
        | "lower-name"
        | "tests" => ordering::answer(alloc, kind, words),
        _ => of_records(alloc, kind, words),
    }
}

/// Makes a request about codes, nets or records.
fn of_records(alloc: Global, kind: &str, words: &str) -> ProtoResult<String> {
    match kind {
        "class"
        | "class-cmp"
        | "class-name"
        | "classes"
        | "data"
        | "for-opt"
        | "key-cmp"
        | "serial"
        | "set-cuts"
        | "set-eq"
        | "set-has"
        | "set-new"
        | "set-read"
        | "set-under"
        | "sets"
        | "type"
        | "type-cmp"
        | "type-name"
        | "types" => { codes::answer(alloc, kind, words) }
        "ip"
        | "arpa"
        | "arpa-error"
        | "net"
        | "zone"
        | "zone-made"
        | "zone-has"
        | "zone-is"
        | "to-ip"
        | "into" => nets::answer(alloc, kind, words),
        "fields" => fields::answer(alloc, words),
        "record" => records::answer(alloc, words),
        "data-text" | "data-parse" => data_texts::answer(alloc, kind, words),
        "record-set" => record_sets::answer(alloc, words),
        "key-tag" | "ds" | "nsec3" | "nsec-covers" | "nsec3-covers" | "zone-digest" => {
            dnssec::answer(alloc, kind, words)
        }
        _ => Err(BAD_LINE),
    }
}
