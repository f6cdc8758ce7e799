//! How a name is written.
ghost use Rattle.std.specs.Prelude.{◌≡◌, true};
ghost use Rattle.dnw_write.specs.EmittedName.{EmitsLabels, EmitsName};
ghost use Rattle.dnw_write.specs.EncoderValue.{value, lender};
ghost use Rattle.dnw_write.specs.NameFrames.{frame_name};
ghost use Rattle.dnw_base.specs.Names.{lower};

use super::BinEncodable;
use crate::encoder::{BinEncoder, NameEncoding};
use dnw_base::error::ProtoResult;
use dnw_base::limits::MAX_NAME;
use dnw_name::name::Name;
use dnw_name::name_ref::NameRef;

impl BinEncodable for Name {
    ghost emits = { EmitsName };

    ghost keeps_frame = { frame_name };

    /// Writes the name: in lower case or compressed if the encoder's mode says so.
    fn emit(&self, encoder: &mut BinEncoder<'_>) -> ProtoResult<()> {
        match encoder.name_encoding() {
            NameEncoding::UncompressedLowercase => emit_lowercase(self, encoder),
            _ => encoder.emit_labels(&self.wire_labels()),
        }
    }
}

impl BinEncodable for NameRef<'_> {
    ghost emits = { λ labels. EmitsName (record { is_fqdn = true; labels = labels }) };

    ghost keeps_frame = { λ labels. frame_name (record { is_fqdn = true; labels = labels }) };

    /// Writes the name as `Name` does: without a copy, unless pointers are between its labels or the mode is lower case.
    fn emit(&self, encoder: &mut BinEncoder<'_>) -> ProtoResult<()> {
        match encoder.name_encoding() {
            NameEncoding::UncompressedLowercase => emit_ref_lowercase(self, encoder),
            _ => emit_ref(self, encoder),
        }
    }
}

/// Writes the name in lower case. It is a function of its own, so that other modes do not pay for a second name.
#[cold]
#[inline(never)]
fn emit_lowercase(name: &Name, encoder: &mut BinEncoder<'_>) -> ProtoResult<()>
    ensures writes { EmitsLabels (value encoder.old) (lower name.now.labels) result (value encoder.new) }
    ensures lender { lender encoder.new ≡ lender encoder.old }
{
    encoder.emit_labels(&name.to_lowercase()?.wire_labels())
}

/// Writes a borrowed name in its own case, from where it is if its labels are in one piece.
#[inline(always)]
fn emit_ref(name: &NameRef<'_>, encoder: &mut BinEncoder<'_>) -> ProtoResult<()>
    ensures writes { EmitsLabels (value encoder.old) name.now result (value encoder.new) }
    ensures lender { lender encoder.new ≡ lender encoder.old }
{
    match name.labels_in_place() {
        Some(labels) => encoder.emit_labels(&labels),
        None => emit_ref_copied(name, encoder),
    }
}

/// Writes a borrowed name from a copy. It is a function of its own, so that a name in one piece does not pay for the copy's room.
#[inline(never)]
fn emit_ref_copied(name: &NameRef<'_>, encoder: &mut BinEncoder<'_>) -> ProtoResult<()>
    ensures writes { EmitsLabels (value encoder.old) name.now result (value encoder.new) }
    ensures lender { lender encoder.new ≡ lender encoder.old }
{
    encoder.emit_labels(&name.wire_labels(&mut [0; MAX_NAME]))
}

/// Writes a borrowed name in lower case.
#[cold]
#[inline(never)]
fn emit_ref_lowercase(name: &NameRef<'_>, encoder: &mut BinEncoder<'_>) -> ProtoResult<()>
    ensures writes { EmitsLabels (value encoder.old) (lower name.now) result (value encoder.new) }
    ensures lender { lender encoder.new ≡ lender encoder.old }
{
    emit_lowercase(&name.to_name(encoder.allocator())?, encoder)
}
