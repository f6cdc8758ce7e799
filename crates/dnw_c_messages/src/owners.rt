//! Names that are given by their wire forms.
ghost use Rattle.std.specs.Prelude.{IfOk, IfErr};
ghost use Rattle.dnw_c_base.specs.WireForms.{IsFormOf, IsNoForm};

use dnw_c_base::failure::Failure;
use dnw_c_base::names::name_ref_at;
use dnw_message_writer::data::whole_name;
use dnw_name_form::wire_labels::WireLabels;

/// Returns the labels of a wire form, without a copy. It fails unless the octets are the wire form of a name, and nothing but it.
#[inline(always)]
pub(crate) fn labels_of(form: &[u8]) -> Result<WireLabels<'_>, Failure>
    ensures ok { IfOk result (λ labels. IsFormOf form.now labels) }
    ensures err { IfErr result (IsNoForm form.now) }
{
    if let Some(labels) = whole_name(form) {
        let end = labels.as_wire().len();
        if end == form.len() {
            return Ok(labels);
        }
    }
    labels_read(form)
}

/// Returns the labels of a wire form as it is read, or why it is none.
#[inline(never)]
fn labels_read(form: &[u8]) -> Result<WireLabels<'_>, Failure>
    ensures ok { IfOk result (λ labels. IsFormOf form.now labels) }
    ensures err { IfErr result (IsNoForm form.now) }
{
    let (_, end) = name_ref_at(form, 0)?;
    if end != form.len() {
        return Err(Failure::BytesLeft);
    }
    Ok(WireLabels::new(form))
}
