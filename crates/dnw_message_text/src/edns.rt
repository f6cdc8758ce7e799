//! What a message says by EDNS (RFC 6891), as `dig` shows it.
ghost use Rattle.std.specs.Prelude.{◌≡◌, ◌++◌, ℕ, List, IfOk, string_bytes};
ghost use Rattle.dnw_message_text.specs.MessageTexts.{IsOptionPart, rule_text};
ghost use Rattle.dnw_message_text.specs.Parts.{AddsText, AreParts};

use dnw_message_read::edns::{EdnsError, EdnsOption, EdnsOptions, EdnsRef};
use dnw_message_read::message::MessageRef;
use dnw_message_read::option::OptionData;
use std::alloc::{AllocError, Global};

/// Appends what a message says by EDNS, and returns `true` if its fields are shown. Else it says nothing, or breaks a rule, which a line
/// says.
pub(crate) fn push_edns(
    alloc: Global,
    text: &mut String,
    message: &MessageRef<'_>,
) -> Result<bool, AllocError> {
    match message.edns() {
        Ok(Some(edns)) => {
            push_fields(text, &edns)?;
            push_options(text, edns.options())?;
            Ok(true)
        }
        Ok(None) => Ok(false),
        Err(error) => {
            push_rule(alloc, text, &error)?;
            Ok(false)
        }
    }
}

/// Appends the version, the flags and the size of the messages that are accepted.
fn push_fields(text: &mut String, edns: &EdnsRef<'_>) -> Result<(), AllocError> {
    let flags = if edns.dnssec_ok() { " do" } else { "" };
    let (version, payload) = (edns.version(), edns.max_payload());
    write!(
        text,
        "\n\n;; OPT PSEUDOSECTION:\n; EDNS: version: {version}, flags:{flags}; udp: {payload}"
    )
}

/// Appends the options, each in a line.
#[tactic(auto, using(crate::proofs::Adding::no_part, crate::proofs::Adding::one_part, crate::proofs::Adding::all_parts))]
fn push_options(text: &mut String, mut options: EdnsOptions<'_>) -> Result<(), AllocError>
    ensures { IfOk result (λ _. AddsText (AreParts IsOptionPart options.entry) (string_bytes text.old) (string_bytes text.new)) }
{
    'options: while let Some(option) = options.next() {
        push_option(text, &option)?;
    }
    Ok(())
}

/// Appends an option in a line. One that breaks a rule is shown by its octets.
fn push_option(text: &mut String, option: &EdnsOption<'_>) -> Result<(), AllocError>
    ensures { IfOk result (λ _. AddsText (IsOptionPart option.now) (string_bytes text.old) (string_bytes text.new)) }
{
    let shown = OptionData::read_any(option.code(), option.octets());
    write!(text, "\n; {shown}")
}

/// Appends the rule that a message breaks.
fn push_rule(alloc: Global, text: &mut String, error: &EdnsError) -> Result<(), AllocError>
    ensures { IfOk result (λ _. AddsText (λ own. (rule : List ℕ) × (own ≡ rule_text rule)) (string_bytes text.old) (string_bytes text.new)) }
{
    let rule = format!(in alloc; "{error}")?;
    write!(
        text,
        "\n\n;; WARNING: EDNS breaks a rule: {}",
        rule.as_str()
    )
}
