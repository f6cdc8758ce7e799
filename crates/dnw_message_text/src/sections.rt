//! The questions and the records of a message, as `dig` shows them under titles.
ghost use Rattle.std.specs.Prelude.{◌≡◌, ◌++◌, IfOk, string_bytes};
ghost use Rattle.dnw_message_read.specs.Edns.{is_opt};
ghost use Rattle.dnw_message_text.specs.MessageTexts.{IsAdditionalsText, IsAnswersText, IsAuthoritiesText, IsQuestionsText, IsQuestionPart, IsRecordLinePart, IsRecordPart, IsSectionText};
ghost use Rattle.dnw_message_text.specs.MessageTexts.{begins_with_additionals, begins_with_authorities, gap_after, question_part, section_title, shown_additionals, title_text, update_title, usual_title};
ghost use Rattle.dnw_message_text.specs.Parts.{AddsText, AreParts};

use dnw_base::record_type::RecordType;
use dnw_message_read::error::Section;
use dnw_message_read::header::HeaderCounts;
use dnw_message_read::items::{Queries, Records};
use dnw_message_read::message::MessageRef;
use dnw_message_read::op_code::OpCode;
use dnw_message_read::query::QueryRef;
use dnw_record::record_ref::RecordRef;
use dnw_zone_data::name::write_name;
use dnw_zone_record::record_line::record_text;
use std::alloc::{AllocError, Global};

/// What is before the lines of a section, and how many items it shows in lines.
#[derive(Clone, Copy)]
struct Head {
    gap: &'static str,
    title: &'static str,
    count: usize,
}

/// Appends the questions.
pub(crate) fn push_questions(
    text: &mut String,
    message: &MessageRef<'_>,
    shows_edns: bool,
) -> Result<(), AllocError>
    ensures { IfOk result (λ _. AddsText (IsQuestionsText message.now shows_edns) (string_bytes text.old) (string_bytes text.new)) }
{
    let header = message.header();
    let head = Head {
        gap: gap_after(shows_edns, true),
        title: section_title(header.metadata.op_code, Section::Queries),
        count: usize::from(header.counts.queries),
    };
    push_query_section(text, head, message.queries())
}

/// Appends the answers.
pub(crate) fn push_answers(
    alloc: Global,
    text: &mut String,
    message: &MessageRef<'_>,
    shows_edns: bool,
) -> Result<(), AllocError>
    ensures { IfOk result (λ _. AddsText (IsAnswersText message.now shows_edns) (string_bytes text.old) (string_bytes text.new)) }
{
    let header = message.header();
    let head = Head {
        gap: gap_after(shows_edns, header.counts.queries == 0),
        title: section_title(header.metadata.op_code, Section::Answers),
        count: usize::from(header.counts.answers),
    };
    push_section(alloc, text, head, false, message.answers())
}

/// Appends the authorities.
pub(crate) fn push_authorities(
    alloc: Global,
    text: &mut String,
    message: &MessageRef<'_>,
    shows_edns: bool,
) -> Result<(), AllocError>
    ensures { IfOk result (λ _. AddsText (IsAuthoritiesText message.now shows_edns) (string_bytes text.old) (string_bytes text.new)) }
{
    let header = message.header();
    let head = Head {
        gap: gap_after(shows_edns, begins_with_authorities(&header.counts)),
        title: section_title(header.metadata.op_code, Section::Authorities),
        count: usize::from(header.counts.authorities),
    };
    push_section(alloc, text, head, false, message.authorities())
}

/// Appends the additional records, but for the `OPT` record if the fields of EDNS are shown.
pub(crate) fn push_additionals(
    alloc: Global,
    text: &mut String,
    message: &MessageRef<'_>,
    shows_edns: bool,
) -> Result<(), AllocError>
    ensures { IfOk result (λ _. AddsText (IsAdditionalsText message.now shows_edns) (string_bytes text.old) (string_bytes text.new)) }
{
    let header = message.header();
    let head = Head {
        gap: gap_after(shows_edns, begins_with_additionals(&header.counts)),
        title: section_title(header.metadata.op_code, Section::Additionals),
        count: shown_additionals(message, shows_edns),
    };
    push_section(alloc, text, head, shows_edns, message.additionals())
}

/// Appends how many octets follow the message, if any do.
pub(crate) fn push_rest(
    text: &mut String,
    message: &MessageRef<'_>,
    shows_edns: bool,
) -> Result<(), AllocError> {
    let is_next = begins_with_additionals(&message.header().counts)
        && shown_additionals(message, shows_edns) == 0;
    push_count(
        text,
        gap_after(shows_edns, is_next),
        message.trailing().len(),
    )
}

/// Appends that so many octets follow, after a gap, if any do.
fn push_count(text: &mut String, gap: &str, count: usize) -> Result<(), AllocError> {
    match count {
        0 => Ok(()),
        1 => write!(
            text,
            "{gap}\n;; WARNING: Message has {count} extra byte at end"
        ),
        _ => write!(
            text,
            "{gap}\n;; WARNING: Message has {count} extra bytes at end"
        ),
    }
}

/// Returns `true` if no question and no answer is there.
fn begins_with_authorities(counts: &HeaderCounts) -> bool
    ensures { result ≡ begins_with_authorities counts.now }
{
    counts.queries == 0 && counts.answers == 0
}

/// Returns `true` if no question, no answer and no authority is there.
fn begins_with_additionals(counts: &HeaderCounts) -> bool
    ensures { result ≡ begins_with_additionals counts.now }
{
    begins_with_authorities(counts) && counts.authorities == 0
}

/// Returns how many additional records are shown in lines.
fn shown_additionals(message: &MessageRef<'_>, shows_edns: bool) -> usize
    ensures { result ≡ shown_additionals message.now shows_edns }
{
    let counted = usize::from(message.header().counts.additionals);
    counted.saturating_sub(usize::from(shows_edns))
}

/// Returns an empty line, but none between the fields of EDNS and what is next.
fn gap_after(shows_edns: bool, is_next: bool) -> &'static str
    ensures { result.now ≡ gap_after shows_edns is_next }
{
    if shows_edns && is_next { "" } else { "\n" }
}

/// Returns the title of a section of a message with this operation.
fn section_title(op: OpCode, section: Section) -> &'static str
    ensures { result.now ≡ section_title op section }
{
    match op {
        OpCode::Update => update_title(section),
        _ => usual_title(section),
    }
}

fn usual_title(section: Section) -> &'static str
    ensures { result.now ≡ usual_title section }
{
    match section {
        Section::Header => "HEADER",
        Section::Queries => "QUESTION",
        Section::Answers => "ANSWER",
        Section::Authorities => "AUTHORITY",
        Section::Additionals => "ADDITIONAL",
    }
}

/// Returns the title of a section of an UPDATE (RFC 2136, section 2).
fn update_title(section: Section) -> &'static str
    ensures { result.now ≡ update_title section }
{
    match section {
        Section::Header => "HEADER",
        Section::Queries => "ZONE",
        Section::Answers => "PREREQUISITE",
        Section::Authorities => "UPDATE",
        Section::Additionals => "ADDITIONAL",
    }
}

/// Appends the title of a section, after a gap.
fn push_title(text: &mut String, head: Head) -> Result<(), AllocError>
    ensures { IfOk result (λ _. string_bytes text.new ≡ string_bytes text.old ++ title_text head.gap.now head.title.now) }
{
    let (gap, title) = (head.gap, head.title);
    write!(text, "{gap}\n;; {title} SECTION:")
}

/// Appends the section of the questions, if there are any.
fn push_query_section(text: &mut String, head: Head, queries: Queries<'_>) -> Result<(), AllocError>
    ensures { IfOk result (λ _. AddsText (IsSectionText head.gap.now head.title.now head.count (AreParts IsQuestionPart queries.entry)) (string_bytes text.old) (string_bytes text.new)) }
{
    if head.count == 0 {
        return Ok(());
    }
    push_title(text, head)?;
    push_queries(text, queries)
}

/// Appends questions, each in a line.
#[tactic(auto, using(crate::proofs::Adding::no_part, crate::proofs::Adding::one_part, crate::proofs::Adding::all_parts))]
fn push_queries(text: &mut String, mut queries: Queries<'_>) -> Result<(), AllocError>
    ensures { IfOk result (λ _. AddsText (AreParts IsQuestionPart queries.entry) (string_bytes text.old) (string_bytes text.new)) }
{
    'queries: while let Some(query) = queries.next() {
        push_query(text, &query)?;
    }
    Ok(())
}

/// Appends a question in a line.
fn push_query(text: &mut String, query: &QueryRef<'_>) -> Result<(), AllocError>
    ensures { IfOk result (λ _. string_bytes text.new ≡ string_bytes text.old ++ question_part query.now) }
{
    let (class, record_type) = (query.query_class().to_text(), query.query_type().to_text());
    text.push_str("\n;")?;
    write_name(query.name(), text)?;
    write!(text, "\t{}\t{}", class.as_str(), record_type.as_str())
}

/// Appends a section of records, if any are shown.
fn push_section(
    alloc: Global,
    text: &mut String,
    head: Head,
    hides_opt: bool,
    records: Records<'_>,
) -> Result<(), AllocError>
    ensures { IfOk result (λ _. AddsText (IsSectionText head.gap.now head.title.now head.count (AreParts (IsRecordPart hides_opt) records.entry)) (string_bytes text.old) (string_bytes text.new)) }
{
    if head.count == 0 {
        return Ok(());
    }
    push_title(text, head)?;
    push_records(alloc, text, hides_opt, records)
}

/// Appends records, each in a line.
#[tactic(auto, using(crate::proofs::Adding::no_part, crate::proofs::Adding::one_part, crate::proofs::Adding::all_parts))]
fn push_records(
    alloc: Global,
    text: &mut String,
    hides_opt: bool,
    mut records: Records<'_>,
) -> Result<(), AllocError>
    ensures { IfOk result (λ _. AddsText (AreParts (IsRecordPart hides_opt) records.entry) (string_bytes text.old) (string_bytes text.new)) }
{
    'records: while let Some(record) = records.next() {
        push_record(alloc, text, hides_opt, &record)?;
    }
    Ok(())
}

/// Appends a record in a line, or nothing of an `OPT` record that is hidden.
fn push_record(
    alloc: Global,
    text: &mut String,
    hides_opt: bool,
    record: &RecordRef<'_>,
) -> Result<(), AllocError>
    ensures { IfOk result (λ _. AddsText (IsRecordPart hides_opt «record».now) (string_bytes text.old) (string_bytes text.new)) }
{
    if hides_opt && is_opt(record.record_type()) {
        return Ok(());
    }
    push_line(alloc, text, record)
}

/// Appends a record in a line.
fn push_line(alloc: Global, text: &mut String, record: &RecordRef<'_>) -> Result<(), AllocError>
    ensures { IfOk result (λ _. AddsText (IsRecordLinePart «record».now) (string_bytes text.old) (string_bytes text.new)) }
{
    let line = record_text(alloc, record)?;
    text.push('\n')?;
    text.push_str(line.as_str())
}

/// Returns `true` for `OPT`.
fn is_opt(record_type: RecordType) -> bool
    ensures { result ≡ is_opt record_type }
{
    matches!(record_type, RecordType::OPT)
}
