//! Running a script.
ghost use Rattle.std.specs.Prelude.{◌≡◌, ℕ, ◌+◌, ◌<◌, ◌≤◌, ◌^◌, List, [], ◌∷◌, None, Ok, get_or, length, map, set, IfOk, IfErr, OnErr, vec_len};
ghost use Rattle.std.specs.Vec.{vec_capacity};
ghost use Rattle.std.specs.List.{AllByRecursion};
ghost use Rattle.dnw_base.specs.declared.error.ProtoError.{ProtoError};
ghost use Rattle.dnw_base.specs.Limits.{max_message};
ghost use Rattle.dnw_write.specs.Encoder.{TakesRoom, Writes, WritesText, reserved, usual_candidates, usual_names};
ghost use Rattle.dnw_write.specs.EncoderValue.{value, lender};
ghost use Rattle.dnw_write_script.specs.WrittenRecords.{EmitsRecord};
ghost use Rattle.dnw_write_script.specs.Script.{action};
ghost use Rattle.dnw_write_script.specs.Pieces.{Account, after_action, opening};
ghost use Rattle.dnw_write_script.specs.Ran.{Ran};
ghost use Rattle.dnw_write_script.specs.Runs.{Runs, RunsStep, RunsItems, GivesReply, beginning};
ghost use Rattle.dnw_write_script.specs.Inside.Running.{FillsKept, HoldsPlace, KeepsPlace, RunsTo, Tracks, reply_to};

use super::{Item, Reply, Step};
use crate::wire_record::WireRecord;
use dnw_base::error::ProtoResult;
use dnw_write::binary::BinEncodable;
use dnw_write::encoder::{BinEncoder, CANDIDATE_LIMIT, NAME_LIMIT, NameEncoding, Place};
use std::alloc::Global;

/// The placeholders of a run, by their numbers: `None` if it is used up.
type Places = Vec<Option<Place<u16>>>;

/// Writes the steps after what the buffer has, and returns a reply to each. If a step fails, those after it go on.
///
/// The buffer's length must fit in 32 bits. Memory for the replies is allocated first: if it runs out, nothing is written. A
/// run of no steps does not allocate.
pub fn run(alloc: Global, buf: &mut Vec<u8>, steps: &[Step]) -> ProtoResult<Vec<Reply>>
    requires { length buf.old.items < 2 ^ 32 }
    ensures { Ran buf.old.items usual_candidates usual_names steps.now result buf.new.items }
{
    run_limited(alloc, buf, steps, CANDIDATE_LIMIT, NAME_LIMIT)
}

/// Writes the steps as `run` does, with other limits on the candidates that are kept and on the names that are
/// compressed.
pub fn run_limited(
    alloc: Global,
    buf: &mut Vec<u8>,
    steps: &[Step],
    candidates: usize,
    names: usize,
) -> ProtoResult<Vec<Reply>>
    requires { length buf.old.items < 2 ^ 32 }
    ensures { Ran buf.old.items candidates names steps.now result buf.new.items }
{
    run_all(alloc, buf, steps, candidates, names)
}

/// Runs the steps with these limits.
fn run_all(
    alloc: Global,
    buf: &mut Vec<u8>,
    steps: &[Step],
    candidates: usize,
    names: usize,
) -> ProtoResult<Vec<Reply>>
    requires { length buf.old.items < 2 ^ 32 }
    ensures runs { IfOk result (λ replies. RunsTo buf.old.items candidates names (map action steps.now) replies.items buf.new.items) }
    ensures err { IfErr result (λ e. (1 ≤ length steps.now) × (e ≡ ProtoError.Memory)) }
    ensures same { OnErr result (buf.new.items ≡ buf.old.items) }
{
    let mut replies = Vec::with_capacity(alloc, steps.len())?;
    let mut places = Vec::with_capacity(alloc, steps.len())?;
    let end = buf.len() as u32;
    let mut encoder = BinEncoder::with_offset(buf, end).with_limits(candidates, names);
    run_steps(&mut encoder, steps, &mut places, &mut replies);
    drop(encoder);
    Ok(replies)
}

/// Writes the steps, and adds a reply to each.
fn run_steps(
    encoder: &mut BinEncoder<'_>,
    steps: &[Step],
    places: &mut Places,
    replies: &mut Vec<Reply>,
)
    requires begins { value encoder.old ≡ beginning (value encoder.old).bytes (value encoder.old).candidate_limit (value encoder.old).name_limit }
    requires no_places { places.old.items ≡ [] }
    requires no_replies { replies.old.items ≡ [] }
    requires room_for_places { length steps.now ≤ vec_capacity places.old }
    requires room_for_replies { length steps.now ≤ vec_capacity replies.old }
    ensures runs { Runs (opening (length (value encoder.old).bytes)) (value encoder.old) (map action steps.now) replies.new.items (value encoder.new) }
    ensures lender { lender encoder.new ≡ lender encoder.old }
{
    for step in steps {
        let reply = run_step(encoder, step, places);
        replies.push_reserved(reply);
    }
}

/// Does one step.
#[tactic(auto, using(crate::proofs::Placing::open_kept, crate::proofs::Placing::tracks_fill))]
fn run_step(encoder: &mut BinEncoder<'_>, step: &Step, places: &mut Places) -> Reply
    requires at_end { (value encoder.old).offset ≡ length (value encoder.old).bytes }
    requires holds { AllByRecursion (HoldsPlace (value encoder.old)) places.old.items }
    requires room { vec_len places.old < vec_capacity places.old }
    ensures runs { (a : Account) → Tracks places.old.items a.places → RunsStep a (value encoder.old) (action step.now) result (value encoder.new) }
    ensures tracks { (a : Account) → Tracks places.old.items a.places → Tracks places.new.items (after_action a (action step.now) result).places }
    ensures few { vec_len places.new ≤ vec_len places.old + 1 }
    ensures room { vec_capacity places.new ≡ vec_capacity places.old }
    ensures lender { lender encoder.new ≡ lender encoder.old }
{
    match step {
        Step::Name(name) => write(encoder, name),
        Step::U8(number) => write_byte(encoder, *number),
        Step::U16(number) => write(encoder, number),
        Step::I32(number) => write(encoder, number),
        Step::U32(number) => write(encoder, number),
        Step::Bytes(bytes) => write(encoder, bytes),
        Step::Text(text) => write_text(encoder, text.as_slice()),
        Step::Max(size) => set_max(encoder, *size),
        Step::Encoding(mode) => set_mode(encoder, *mode),
        Step::Canonical(canonical) => set_canonical(encoder, *canonical),
        Step::Reserve => reserve(encoder, places),
        Step::Fill { place, value } => fill(encoder, places, *place, *value),
        Step::Record(record) => write_record(encoder, record),
        Step::Items(items) => write_items(encoder, items.as_slice()),
    }
}

/// Writes a value at the end.
fn write<E: BinEncodable>(encoder: &mut BinEncoder<'_>, item: &E) -> Reply
    requires at_end { (value encoder.old).offset ≡ length (value encoder.old).bytes }
    ensures reply { GivesReply (E.emits item.now (value encoder.old)) result (value encoder.new) }
    ensures lender { lender encoder.new ≡ lender encoder.old }
{
    let outcome = item.emit(encoder);
    reply_to(encoder, outcome)
}

/// Writes a byte at the end.
fn write_byte(encoder: &mut BinEncoder<'_>, number: u8) -> Reply
    ensures reply { GivesReply (Writes (value encoder.old) (number ∷ [])) result (value encoder.new) }
    ensures lender { lender encoder.new ≡ lender encoder.old }
{
    let outcome = encoder.emit_u8(number);
    reply_to(encoder, outcome)
}

/// Writes character data at the end.
fn write_text(encoder: &mut BinEncoder<'_>, text: &[u8]) -> Reply
    ensures reply { GivesReply (WritesText (value encoder.old) text.now) result (value encoder.new) }
    ensures lender { lender encoder.new ≡ lender encoder.old }
{
    let outcome = encoder.emit_character_data(text);
    reply_to(encoder, outcome)
}

/// Writes a record at the end, or nothing of it.
fn write_record(encoder: &mut BinEncoder<'_>, item: &WireRecord) -> Reply
    requires at_end { (value encoder.old).offset ≡ length (value encoder.old).bytes }
    ensures reply { GivesReply (EmitsRecord item.now (value encoder.old)) result (value encoder.new) }
    ensures lender { lender encoder.new ≡ lender encoder.old }
{
    write(encoder, item)
}

/// Sets the maximum size.
fn set_max(encoder: &mut BinEncoder<'_>, size: u16) -> Reply
    ensures reply { result ≡ reply_to (Ok tt) (length (value encoder.new).bytes) }
    ensures value { value encoder.new ≡ record (value encoder.old) { max_size = size } }
    ensures small { size ≤ max_message }
    ensures lender { lender encoder.new ≡ lender encoder.old }
{
    encoder.set_max_size(size);
    reply_to(encoder, Ok(()))
}

/// Sets how names are written.
fn set_mode(encoder: &mut BinEncoder<'_>, mode: NameEncoding) -> Reply
    ensures reply { result ≡ reply_to (Ok tt) (length (value encoder.new).bytes) }
    ensures value { value encoder.new ≡ record (value encoder.old) { encoding = mode } }
    ensures lender { lender encoder.new ≡ lender encoder.old }
{
    encoder.set_name_encoding(mode);
    reply_to(encoder, Ok(()))
}

/// Sets whether the data of records are written in canonical form.
fn set_canonical(encoder: &mut BinEncoder<'_>, canonical: bool) -> Reply
    ensures reply { result ≡ reply_to (Ok tt) (length (value encoder.new).bytes) }
    ensures value { value encoder.new ≡ record (value encoder.old) { canonical = canonical } }
    ensures lender { lender encoder.new ≡ lender encoder.old }
{
    encoder.set_canonical_form(canonical);
    reply_to(encoder, Ok(()))
}

/// Returns the reply to a write.
fn reply_to(encoder: &BinEncoder<'_>, outcome: ProtoResult<()>) -> Reply
    ensures { result ≡ reply_to outcome (length (value encoder.now).bytes) }
{
    let len = encoder.len();
    match outcome {
        Ok(()) => Reply::Done { len },
        Err(error) => Reply::Refused { error, len },
    }
}

/// Reserves a placeholder.
fn reserve(encoder: &mut BinEncoder<'_>, places: &mut Places) -> Reply
    requires room { vec_len places.old < vec_capacity places.old }
    ensures reply { GivesReply (TakesRoom (value encoder.old) 2 (reserved (value encoder.old) 2)) result (value encoder.new) }
    ensures place { KeepsPlace places.old.items (value encoder.old).offset result places.new.items }
    ensures few { vec_len places.new ≤ vec_len places.old + 1 }
    ensures room { vec_capacity places.new ≡ vec_capacity places.old }
    ensures lender { lender encoder.new ≡ lender encoder.old }
{
    match encoder.place::<u16>() {
        Ok(place) => {
            places.push_reserved(Some(place));
            reply_to(encoder, Ok(()))
        }
        Err(error) => reply_to(encoder, Err(error)),
    }
}

/// Fills a placeholder, which is used up also if this fails.
#[tactic(auto, using(crate::proofs::Placing::holds_at))]
fn fill(encoder: &mut BinEncoder<'_>, places: &mut Places, number: usize, filling: u16) -> Reply
    requires holds { AllByRecursion (HoldsPlace (value encoder.old)) places.old.items }
    ensures fills { FillsKept (value encoder.old) (get_or places.old.items number None) filling result (value encoder.new) }
    ensures spends { places.new.items ≡ set places.old.items number None }
    ensures len { vec_len places.new ≡ vec_len places.old }
    ensures room { vec_capacity places.new ≡ vec_capacity places.old }
    ensures lender { lender encoder.new ≡ lender encoder.old }
{
    let Some(place) = take_place(places, number) else {
        return Reply::NoPlace;
    };
    let outcome = encoder.emit_at(place, filling);
    reply_to(encoder, outcome)
}

/// Takes the placeholder of this number, if there is one that is not used up.
fn take_place(places: &mut Places, number: usize) -> Option<Place<u16>>
    ensures place { result ≡ get_or places.old.items number None }
    ensures spends { places.new.items ≡ set places.old.items number None }
    ensures len { vec_len places.new ≡ vec_len places.old }
    ensures room { vec_capacity places.new ≡ vec_capacity places.old }
{
    if number >= places.len() {
        return None;
    }
    places[number].take()
}

/// Writes items, up to the first that fails.
fn write_items(encoder: &mut BinEncoder<'_>, items: &[Item]) -> Reply
    requires at_end { (value encoder.old).offset ≡ length (value encoder.old).bytes }
    ensures runs { RunsItems (value encoder.old) items.now result (value encoder.new) }
    ensures at_end { (value encoder.new).offset ≡ length (value encoder.new).bytes }
    ensures lender { lender encoder.new ≡ lender encoder.old }
{
    let mut rest = items.iter();
    match encoder.emit_iter(&mut rest) {
        Ok(count) => Reply::Items {
            count,
            error: None,
            len: encoder.len(),
        },
        Err(error) => Reply::Items {
            count: items.len() - rest.len() - 1,
            error: Some(error),
            len: encoder.len(),
        },
    }
}
