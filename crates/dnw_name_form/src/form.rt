//! The wire form of a name.
ghost use Rattle.std.specs.Prelude.{◌≡◌, ◌≢◌, ℕ, ◌+◌, ◌-◌, ◌≤◌, ◌↔◌, List, [], ◌∷◌, ◌++◌, length, drop, reverse, Ok, IsTrue, IfErr, OnOk, MatchOption};
ghost use Rattle.dnw_base.specs.Limits.{max_name};
ghost use Rattle.dnw_base.specs.Fault.{FailsOr, Updates};
ghost use Rattle.dnw_base.specs.Labels.{IsLabel, wildcard};
ghost use Rattle.dnw_base.specs.Names.{AreLabels, encoded_size, lower, wire};
ghost use Rattle.dnw_name_form.specs.Edits.{with_label, with_labels};
ghost use Rattle.dnw_name_form.specs.Inside.Lengths.{HasLengths};
ghost use Rattle.dnw_name_form.specs.Inside.WireBytes.{labels_of, IsWire};

use crate::label_iter::LabelIter;
use crate::lengths::{few_lengths, with_length};
use crate::octets::Octets;
use crate::wire_labels::{WireLabels, last_labels};
use dnw_base::error::{DecodeError, ProtoError, ProtoResult};
use dnw_base::limits::MAX_NAME;
use std::alloc::Global;
use std::marker::Model;

/// The wire form of a name: each label after its length octet, and a closing zero (RFC 1035, section 3.1). It has at
/// most 255 octets, which are kept inline, so nothing here allocates.
///
/// A contract sees it as the list of its labels.
#[derive(Drop)]
pub struct WireForm {
    bytes: Octets,
    // The lengths of the last labels, or 0 if they are not known: so two forms are compared without a walk over them.
    lengths: u64,
}

impl Model for WireForm {
    ghost use Rattle.std.specs.Prelude.{ℕ, List, reverse};
    ghost use Rattle.dnw_name_form.specs.Inside.Lengths.{HasLengths};
    ghost use Rattle.dnw_name_form.specs.Inside.WireBytes.{labels_of, IsWire};

    ghost Value = { List (List ℕ) };

    ghost view = { λ form. labels_of form.bytes };

    ghost invariant = { λ form. IsWire form.bytes × HasLengths (reverse (labels_of form.bytes)) form.lengths };
}

impl WireForm {
    /// Creates the wire form of no labels.
    #[inline(always)]
    pub fn new(_alloc: Global) -> Self
        ensures { result ≡ [] }
    {
        let mut bytes = Octets::new();
        bytes.push(0);
        WireForm { bytes, lengths: 0 }
    }

    /// Takes octets that are a wire form. They are not walked over, so no lengths are known.
    #[inline(always)]
    #[tactic(auto, using(crate::proofs::LastLengths::none_known))]
    pub fn from_wire(bytes: Octets) -> Self
        requires { IsWire bytes }
        ensures { result ≡ labels_of bytes }
    {
        WireForm { bytes, lengths: 0 }
    }

    /// Copies octets that are a wire form.
    #[inline(always)]
    #[tactic(auto, using(crate::proofs::Wires::few_octets))]
    pub fn from_octets(_alloc: Global, octets: &[u8]) -> Self
        requires { IsWire octets.now }
        ensures { result ≡ labels_of octets.now }
    {
        WireForm {
            bytes: Octets::from_slice(octets),
            lengths: few_lengths(octets),
        }
    }

    /// Copies octets that are a wire form in the place of this one, as `from_octets`.
    #[inline(always)]
    #[tactic(auto, using(crate::proofs::Wires::few_octets))]
    pub fn copy_octets(&mut self, octets: &[u8])
        requires { IsWire octets.now }
        ensures { self.new ≡ labels_of octets.now }
    {
        self.bytes.copy_from(octets);
        self.lengths = few_lengths(octets);
    }

    /// Returns the octets.
    #[inline(always)]
    pub fn as_bytes(&self) -> &[u8]
        ensures form { result.now ≡ wire self.now }
        ensures labels { AreLabels self.now }
    {
        self.bytes.as_slice()
    }

    /// Returns the number of octets.
    #[inline(always)]
    #[tactic(auto, using(crate::proofs::Wires::size_of_wire))]
    pub fn len(&self) -> usize
        ensures size { result ≡ encoded_size self.now }
        ensures labels { AreLabels self.now }
    {
        self.bytes.len()
    }

    /// Returns the lengths of the last labels, eight at most, in the octets of a number, that of the last one in the low octet.
    /// It may be 0 if they are not known.
    #[inline(always)]
    pub fn lengths(&self) -> u64
        ensures { HasLengths (reverse self.now) result }
    {
        self.lengths
    }

    /// Returns `true` if there are no labels.
    #[inline(always)]
    #[tactic(auto, using(crate::proofs::Wires::one_octet))]
    pub fn has_no_labels(&self) -> bool
        ensures { IsTrue result ↔ (self.now ≡ []) }
    {
        self.bytes.len() == 1
    }

    /// Returns an iterator over the labels from both ends.
    #[inline(always)]
    pub fn iter(&self) -> LabelIter<'_>
        ensures labels { result ≡ self.now }
        ensures names { AreLabels self.now }
    {
        LabelIter::new(self.bytes.as_slice())
    }

    /// Returns an iterator over the labels from the left.
    #[inline(always)]
    pub fn labels(&self) -> WireLabels<'_>
        ensures labels { result ≡ self.now }
        ensures names { AreLabels self.now }
    {
        WireLabels::new(self.bytes.as_slice())
    }

    /// Adds a label at the end. It fails with `DomainNameTooLong` and the size that the form would have, if that is
    /// past 255.
    #[tactic(auto, using(crate::proofs::Wires::size_of_wire, crate::proofs::EditLemmas::with_label_long))]
    pub fn push(&mut self, label: &[u8]) -> ProtoResult<()>
        requires { IsLabel label.now }
        ensures updates { Updates (with_label self.old label.now) ⊥ self.old result self.new }
    {
        let size = self.bytes.len() + 1 + label.len();
        if size > MAX_NAME {
            return Err(ProtoError::Decode(DecodeError::DomainNameTooLong(size)));
        }
        push_label(&mut self.bytes, label);
        self.lengths = with_length(self.lengths, label.len() as u8);
        Ok(())
    }

    /// Adds labels at the end. It fails with `DomainNameTooLong` and the size with the first label that does not fit.
    pub fn append(&mut self, mut labels: WireLabels<'_>) -> ProtoResult<()>
        ensures ok { OnOk result (with_labels self.old labels.entry ≡ Ok self.new) }
        ensures err { IfErr result (FailsOr (with_labels self.old labels.entry) ⊥) }
    {
        'labels: while let Some(label) = labels.next() {
            self.push(label)?;
        }
        Ok(())
    }

    /// Returns the form of the last `count` labels, or of all if there are fewer.
    pub fn last(&self, count: usize) -> Self
        ensures { result ≡ drop (length self.now - count) self.now }
    {
        WireForm::from_wire(Octets::from_slice(last_labels(self.labels(), count).as_wire()))
    }

    /// Returns the form with `*` in place of the first label (RFC 4592, section 2.1.1), or `None` if there is no label.
    pub fn to_wildcard(&self) -> Option<Self>
        ensures { MatchOption result (self.now ≡ []) (λ form. (self.now ≢ []) × (form ≡ wildcard ∷ drop 1 self.now)) }
    {
        let mut labels = self.labels();
        labels.next()?;
        let mut bytes = Octets::new();
        bytes.push(1);
        bytes.push(b'*');
        bytes.extend(labels.as_wire());
        Some(WireForm::from_wire(bytes))
    }

    /// Returns the form with its ASCII letters in lower case (RFC 4343).
    pub fn to_lowercase(&self) -> Self
        ensures { result ≡ lower self.now }
    {
        let mut bytes = self.bytes.clone();
        // Length octets are no letters.
        bytes.make_ascii_lowercase();
        WireForm::from_wire(bytes)
    }

    /// Copies the form.
    #[inline(always)]
    pub fn clone(&self) -> Self
        ensures { result ≡ self.now }
    {
        WireForm {
            bytes: self.bytes.clone(),
            lengths: self.lengths,
        }
    }

    /// Copies another form in the place of this one: only the octets that it has, and not all its room.
    #[inline(always)]
    #[tactic(auto, using(crate::proofs::Wires::few_octets))]
    pub fn clone_from(&mut self, source: &Self)
        ensures { self.new ≡ source.now }
    {
        self.bytes.copy_from(source.bytes.as_slice());
        self.lengths = source.lengths;
    }
}

/// Adds a label before the closing zero.
#[tactic(auto, using(crate::proofs::Wires::some_octet))]
fn push_label(bytes: &mut Octets, label: &[u8])
    requires wire { IsWire bytes.old }
    requires label { IsLabel label.now }
    requires room { length bytes.old + 1 + length label.now ≤ max_name }
    ensures wire { IsWire bytes.new }
    ensures labels { labels_of bytes.new ≡ labels_of bytes.old ++ label.now ∷ [] }
{
    // The length is in the place of the zero octet that ended the form.
    let end = bytes.len() - 1;
    bytes.set(end, label.len() as u8);
    bytes.extend(label);
    bytes.push(0);
}
