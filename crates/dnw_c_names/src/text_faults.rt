//! Where the texts of names go wrong, and the origins that complete them.
ghost use Rattle.std.specs.Prelude.{◌≡◌, IfOk, IfErr};
ghost use Rattle.dnw_c_names.specs.NameCalls.{FindsFault, IsOriginForm, IsNoOriginForm};
ghost use Rattle.dnw_c_names.specs.TextFaultCalls.{of_rule};

use crate::wire_form::labels_of;
use dnw_c_base::failure::Failure;
use dnw_name_form::wire_labels::WireLabels;
use dnw_name_text::error::NameTextRule;
use dnw_name_text::reading::read;
use std::alloc::Global;

/// Returns 0 if a text gives a name, and else the number of the rule that it breaks, and puts the offset at which it goes
/// wrong. The origin is a wire form, or no octets for none. It does not allocate.
#[unsafe(no_mangle)]
pub extern "C" fn dnw_name_text_fault(
    alloc: Global,
    text: &[u8],
    origin: &[u8],
    offset: &mut usize,
) -> u32
    ensures { FindsFault text.now origin.now offset.old offset.new result }
{
    match origin_labels(origin) {
        Ok(labels) => match read(alloc, text, labels) {
            Ok(_) => 0,
            Err(error) => {
                *offset = error.offset;
                of_rule(error.rule).number()
            }
        },
        Err(failure) => failure.number(),
    }
}

/// Returns the labels of an origin, or none for no octets.
pub(crate) fn origin_labels(form: &[u8]) -> Result<Option<WireLabels<'_>>, Failure>
    ensures ok { IfOk result (IsOriginForm form.now) }
    ensures err { IfErr result (IsNoOriginForm form.now) }
{
    if form.is_empty() {
        return Ok(None);
    }
    let labels = labels_of(form)?;
    Ok(Some(labels))
}

/// Returns the failure that stands for a rule.
pub(crate) fn of_rule(rule: NameTextRule) -> Failure
    ensures { result ≡ of_rule rule }
{
    match rule {
        NameTextRule::EmptyLabel => Failure::EmptyLabel,
        NameTextRule::LabelTooLong => Failure::LabelTooLong,
        NameTextRule::NameTooLong => Failure::NameTooLong,
        NameTextRule::BadEscape => Failure::BadEscape,
        NameTextRule::UnfinishedEscape => Failure::TextCut,
    }
}
