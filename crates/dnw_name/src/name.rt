//! Domain names.
ghost use Rattle.std.specs.Prelude.{◌≡◌, ◌≢◌, ℕ, ◌+◌, ◌^◌, ◌<◌, ◌≤◌, ◌↔◌, false, true, List, [], ◌∷◌, length, min, Some, Ok, Result, IsTrue, IfOk, IfErr, OnOk, OnErr, IsErrOf, IsOkAnd, string_bytes};
ghost use Rattle.std.specs.Iterator.{IsFinite, size};
ghost use Rattle.std.specs.List.{AllByRecursion};
ghost use Rattle.std.specs.Option.{option_copied};
ghost use Rattle.std.specs.Str.{chars};
ghost use Rattle.dnw_base.specs.Limits.{max_labels, pointer_offsets};
ghost use Rattle.dnw_base.specs.Fault.{Follows, NeedsErrorText};
ghost use Rattle.dnw_base.specs.Decoder.{Decoder};
ghost use Rattle.dnw_base.specs.Labels.{wildcard};
ghost use Rattle.dnw_base.specs.Names.{NameValue, AreLabels, encoded_size, IsWildcard, lower, wire};
ghost use Rattle.dnw_name_read.specs.Reading.{TakesName, StopsAt};
ghost use Rattle.dnw_name_form.specs.Inside.WireBytes.{labels_of, IsWire};
ghost use Rattle.dnw_name_form.specs.Edits.{append_label, prepend_label, append_name, append_domain, base_name, trim_to, into_wildcard};
ghost use Rattle.dnw_name_text.specs.AsciiText.{max_text, name_text, name_from_text, name_from_text_at, IsLabelText};
ghost use Rattle.dnw_name_text.specs.NameReading.{name_of_text, origin_labels};
ghost use Rattle.dnw_name_text.specs.NameTexts.{text_of_name};
ghost use Rattle.dnw_name_order.specs.Order.{IsLocalhost, IsZoneOfCase, IsZoneOf};
ghost use Rattle.dnw_name.specs.FromLabels.{JoinsItems};

use crate::name::joining::Joining;
use crate::name_ref::NameRef;
use arrayvec::ArrayString;
use dnw_base::decoder::BinDecoder;
use dnw_base::error::{DecodeError, ProtoError, ProtoResult};
use dnw_base::limits::MAX_NAME;
use dnw_name_form::form::WireForm;
use dnw_name_form::label::IntoLabel;
pub use dnw_name_form::label_iter::LabelIter;
use dnw_name_form::wire_labels::WireLabels;
use dnw_name_order::order;
use dnw_name_read::walk::ReadSteps;
use dnw_name_text::error::NameTextError;
use dnw_name_text::printing::push_name;
use dnw_name_text::{ascii, reading};
use std::alloc::{AllocError, Global};
use std::fmt;
use std::marker::Model;

mod joining;
mod ordering;
mod reverse;

/// The wire form of `localhost` (RFC 6761, section 6.3).
const LOCALHOST: &[u8] = b"\x09localhost\x00";

/// A domain name: its labels, and whether it is fully qualified, so that it ends at the root (RFC 1034, section 3.1).
///
/// It has at most 255 octets, which are kept inline. So a name takes some 270 bytes wherever it is, and neither reading
/// nor copying one allocates.
///
/// A contract sees it as the flag `is_fqdn` and the list of its labels, from the left.
#[derive(Drop)]
pub struct Name {
    // The larger field is first, so that a copy moves it at once.
    form: WireForm,
    is_fqdn: bool,
}

impl Model for Name {
    ghost use Rattle.dnw_base.specs.Names.{NameValue};

    ghost Value = { NameValue };

    ghost view = { λ n. record { is_fqdn = n.is_fqdn; labels = n.form } };
}

impl Name {
    /// The most octets of a name on the wire (RFC 1035, section 2.3.4).
    pub const MAX_LENGTH: usize = MAX_NAME;

    /// Creates the relative name without labels.
    pub fn new(alloc: Global) -> Self
        ensures { result ≡ record { is_fqdn = false; labels = [] } }
    {
        Name {
            is_fqdn: false,
            form: WireForm::new(alloc),
        }
    }

    /// Creates the relative name without labels, as `new`.
    pub fn default(alloc: Global) -> Self
        ensures { result ≡ record { is_fqdn = false; labels = [] } }
    {
        Name::new(alloc)
    }

    /// Creates the root, `.`.
    pub fn root(alloc: Global) -> Self
        ensures { result ≡ record { is_fqdn = true; labels = [] } }
    {
        Name::qualified(WireForm::new(alloc))
    }

    /// Creates the fully qualified name with this wire form.
    #[inline(always)]
    pub(crate) fn qualified(form: WireForm) -> Self
        ensures { result ≡ record { is_fqdn = true; labels = form } }
    {
        Name {
            is_fqdn: true,
            form,
        }
    }

    /// Reads the name at the cursor, and leaves the cursor after the name's own octets (RFC 1035, section 4.1.4). The
    /// name is fully qualified and keeps its case.
    ///
    /// If it fails, the cursor is unchanged. It does not allocate.
    #[inline(always)]
    pub fn read(alloc: Global, decoder: &mut BinDecoder<'_>) -> Result<Self, DecodeError>
        ensures ok { IfOk result (λ name. IsTrue name.is_fqdn × (k : ℕ) × TakesName decoder.old decoder.new name.labels k) }
        ensures err { IfErr result (λ e. (k : ℕ) × (j : ℕ) × StopsAt decoder.old e k j) }
        ensures same { OnErr result (decoder.new ≡ decoder.old) }

        // It accepts what the definition accepts, and fails where the definition stops.
        ensures accepts { (after : Decoder) (ls : List (List ℕ)) (k : ℕ) → TakesName decoder.old after ls k
            → IsOkAnd result (λ name. name ≡ record { is_fqdn = true; labels = ls }) × (decoder.new ≡ after) }
        ensures fails { (error : DecodeError) (k j : ℕ) → StopsAt decoder.old error k j → IsErrOf result error }
        ensures no_memory { IsErrOf result DecodeError.Memory → ⊥ }
    {
        let mut steps = ReadSteps::default();
        Name::read_counted(alloc, decoder, &mut steps)
    }

    /// Reads as `read` does, and counts the steps, also if it fails.
    #[inline(always)]
    pub fn read_counted(
        alloc: Global,
        decoder: &mut BinDecoder<'_>,
        steps: &mut ReadSteps,
    ) -> Result<Self, DecodeError>
        ensures ok { IfOk result (λ name. IsTrue name.is_fqdn × TakesName decoder.old decoder.new name.labels steps.new.pointers
            × (steps.new.labels ≡ length name.labels)) }
        ensures err { IfErr result (λ e. StopsAt decoder.old e steps.new.pointers steps.new.labels) }
        ensures same { OnErr result (decoder.new ≡ decoder.old) }

        // It accepts what the definition accepts, and fails where the definition stops.
        ensures accepts { (after : Decoder) (ls : List (List ℕ)) (k : ℕ) → TakesName decoder.old after ls k
            → IsOkAnd result (λ name. name ≡ record { is_fqdn = true; labels = ls }) × (decoder.new ≡ after) }
        ensures fails { (error : DecodeError) (k j : ℕ) → StopsAt decoder.old error k j → IsErrOf result error }
        ensures no_memory { IsErrOf result DecodeError.Memory → ⊥ }

        // Every reading takes few steps.
        ensures few_pointers { steps.new.pointers ≤ min decoder.old.index pointer_offsets }
        ensures few_labels { steps.new.labels ≤ max_labels + 1 }
    {
        let name = NameRef::read_counted(decoder, steps)?;
        Ok(name.copied(alloc))
    }

    /// Reads the name at the cursor as `read` does, in the place of this one. It fails as `read`, and then both the cursor
    /// and this name are unchanged.
    ///
    /// No new name is made and moved, so it takes fewer instructions than `read` for names that are read one after another.
    #[inline(always)]
    pub fn read_into(&mut self, decoder: &mut BinDecoder<'_>) -> Result<(), DecodeError>
        ensures ok { OnOk result (IsTrue self.new.is_fqdn × (k : ℕ) × TakesName decoder.old decoder.new self.new.labels k) }
        ensures err { IfErr result (λ e. (k : ℕ) × (j : ℕ) × StopsAt decoder.old e k j) }
        ensures same { OnErr result ((decoder.new ≡ decoder.old) × (self.new ≡ self.old)) }

        // It accepts what the definition accepts, and fails where the definition stops.
        ensures accepts { (after : Decoder) (ls : List (List ℕ)) (k : ℕ) → TakesName decoder.old after ls k
            → IsOkAnd result (λ _. self.new ≡ record { is_fqdn = true; labels = ls }) × (decoder.new ≡ after) }
        ensures fails { (error : DecodeError) (k j : ℕ) → StopsAt decoder.old error k j → IsErrOf result error }
        ensures no_memory { IsErrOf result DecodeError.Memory → ⊥ }
    {
        let name = NameRef::read(decoder)?;
        name.clone_into(self);
        Ok(())
    }

    /// Returns `true` for the root: the name is fully qualified and has no labels.
    pub fn is_root(&self) -> bool
        ensures { IsTrue result ↔ ((self.now.labels ≡ []) × IsTrue self.now.is_fqdn) }
    {
        self.is_fqdn && self.form.has_no_labels()
    }

    /// Returns `true` if the name is fully qualified, so that it ends at the root.
    #[inline(always)]
    pub fn is_fqdn(&self) -> bool
        ensures { result ≡ self.now.is_fqdn }
    {
        self.is_fqdn
    }

    /// Makes the name fully qualified or relative.
    #[inline(always)]
    pub fn set_fqdn(&mut self, val: bool)
        ensures { self.new ≡ record { is_fqdn = val; labels = self.old.labels } }
    {
        self.is_fqdn = val;
    }

    /// Returns the name with its ASCII letters in lower case (RFC 4343). It does not allocate and cannot fail.
    #[inline(always)]
    pub fn to_lowercase(&self) -> ProtoResult<Self>
        ensures { result ≡ Ok (record { is_fqdn = self.now.is_fqdn; labels = lower self.now.labels }) }
    {
        Ok(Name {
            is_fqdn: self.is_fqdn,
            form: self.form.to_lowercase(),
        })
    }

    /// Returns an iterator over the labels, from the left or from the right, as their bytes.
    #[inline(always)]
    pub fn iter(&self) -> LabelIter<'_>
        ensures labels { result ≡ self.now.labels }
        ensures names { AreLabels self.now.labels }
    {
        self.form.iter()
    }

    /// Returns an iterator over the labels from the left, which returns the wire form of those that are left, too.
    #[inline(always)]
    pub fn wire_labels(&self) -> WireLabels<'_>
        ensures labels { result ≡ self.now.labels }
        ensures names { AreLabels self.now.labels }
    {
        self.form.labels()
    }

    /// Adds a label at the end. It fails with `DomainNameTooLong` and the size that the name would have, if that is past
    /// 255. It allocates only if making the label does.
    pub fn append_label<L: IntoLabel>(mut self, alloc: Global, label: L) -> ProtoResult<Self>
        ensures follows { Follows (append_label self (L.label_of label)) (L.may_run_out label) result }
    {
        let label = label.into_label(alloc)?;
        self.form.push(label.as_bytes())?;
        Ok(self)
    }

    /// Returns the name with a label at the front. It fails with `DomainNameTooLong` and the size of the name up to the
    /// first label, from the left, that brings it past 255. It allocates only if making the label does.
    pub fn prepend_label<L: IntoLabel>(&self, alloc: Global, label: L) -> ProtoResult<Self>
        ensures follows { Follows (prepend_label self.now (L.label_of label)) (L.may_run_out label) result }
    {
        let label = label.into_label(alloc)?;
        let mut form = WireForm::new(alloc);
        form.push(label.as_bytes())?;
        form.append(self.wire_labels())?;
        Ok(Name {
            is_fqdn: self.is_fqdn,
            form,
        })
    }

    /// Creates the fully qualified name with the labels of all items. The iterator must end.
    ///
    /// It fails with `DomainNameTooLong` and the number of labels that were made if they are more than 255, else with a
    /// `Msg` if an item gives no label, and else with `DomainNameTooLong` and the size with the first label that does not
    /// fit. It allocates only if making a label does, and for the text of its own error.
    pub fn from_labels<I: IntoIterator<Item = L>, L: IntoLabel>(
        alloc: Global,
        labels: I,
    ) -> ProtoResult<Self>
        requires ends { (it : I.IntoIter) → I.into_iter_gives labels it → I.IntoIter.can_next it × IsFinite (I.IntoIter.remaining it) }
        requires fits { (it : I.IntoIter) → I.into_iter_gives labels it → size (I.IntoIter.remaining it) < 2 ^ 64 }
        ensures joins { (it : I.IntoIter) × I.into_iter_gives labels it × JoinsItems I.IntoIter.next_gives L.label_of L.may_run_out it result }
    {
        let mut joining = Joining::new(alloc);
        for label in labels {
            joining.add(alloc, label)?;
        }
        Ok(Name::qualified(joining.finish(alloc)?))
    }

    /// Adds the labels of `other`, and takes its flag. It fails with `DomainNameTooLong` and the size with the first
    /// label that does not fit.
    pub fn append_name(mut self, other: &Self) -> ProtoResult<Self>
        ensures follows { Follows (append_name self other.now) ⊥ result }
    {
        self.form.append(other.wire_labels())?;
        self.is_fqdn = other.is_fqdn;
        Ok(self)
    }

    /// Adds the labels of `domain`, and makes the name fully qualified. It fails as `append_name`.
    pub fn append_domain(self, domain: &Self) -> ProtoResult<Self>
        ensures follows { Follows (append_domain self domain.now) ⊥ result }
    {
        let mut name = self.append_name(domain)?;
        name.set_fqdn(true);
        Ok(name)
    }

    /// Returns the name without its first label, fully qualified. If there is none, it returns a copy. It does not
    /// allocate and cannot fail.
    pub fn base_name(&self) -> ProtoResult<Self>
        ensures { result ≡ Ok (base_name self.now) }
    {
        let len = self.wire_labels().len();
        if len == 0 {
            return self.clone();
        }
        self.trim_to(len - 1)
    }

    /// Returns the last labels, `num_labels` of them, as a fully qualified name. If there are fewer, it returns a copy. It
    /// does not allocate and cannot fail.
    pub fn trim_to(&self, num_labels: usize) -> ProtoResult<Self>
        ensures { result ≡ Ok (trim_to self.now num_labels) }
    {
        if num_labels > self.wire_labels().len() {
            return self.clone();
        }
        Ok(Name::qualified(self.form.last(num_labels)))
    }

    /// Returns `true` if this name is the zone of `name`: its labels are the last ones of `name`, with capitals as they
    /// are. Whether they are fully qualified is ignored.
    pub fn zone_of_case(&self, name: &Self) -> bool
        ensures { IsTrue result ↔ IsZoneOfCase self.now.labels name.now.labels }
    {
        order::is_zone_of_case(self.wire_labels(), name.wire_labels())
    }

    /// Returns `true` if this name is the zone of `name`: its labels are the last ones of `name`, ignoring ASCII case (RFC
    /// 1034, section 4.2, and RFC 4343). Whether they are fully qualified is ignored.
    pub fn zone_of(&self, name: &Self) -> bool
        ensures { IsTrue result ↔ IsZoneOf self.now.labels name.now.labels }
    {
        order::is_zone_of(self.wire_labels(), name.wire_labels())
    }

    /// Returns `true` if this name is in the zone: `zone.zone_of(self)`.
    pub fn is_in(&self, zone: &Self) -> bool
        ensures { IsTrue result ↔ IsZoneOf zone.now.labels self.now.labels }
    {
        zone.zone_of(self)
    }

    /// Returns the number of labels, without a `*` at the start.
    pub fn num_labels(&self) -> u8
        ensures wildcard { IsWildcard self.now.labels → result + 1 ≡ length self.now.labels }
        ensures other { ¬ (IsWildcard self.now.labels) → result ≡ length self.now.labels }
    {
        let mut labels = self.wire_labels();
        let Some(first) = labels.next() else {
            return 0;
        };
        let others = labels.len() as u8;
        if is_asterisk(first) {
            others
        } else {
            others + 1
        }
    }

    /// Returns the number of bytes of all labels plus the number of labels, or 1 if there are no labels.
    pub fn len(&self) -> usize
        ensures none { self.now.labels ≡ [] → result ≡ 1 }
        ensures some { self.now.labels ≢ [] → result + 1 ≡ encoded_size self.now.labels }
    {
        if self.form.has_no_labels() {
            1
        } else {
            self.encoded_len() - 1
        }
    }

    /// Returns `false`: even the root takes an octet.
    pub fn is_empty(&self) -> bool
        ensures { result ≡ false }
    {
        false
    }

    /// Returns the number of octets of the wire form.
    #[inline(always)]
    pub fn encoded_len(&self) -> usize
        ensures size { result ≡ encoded_size self.now.labels }
        ensures labels { AreLabels self.now.labels }
    {
        self.form.len()
    }

    /// Returns the wire form, with its closing zero (RFC 1035, section 3.1).
    #[inline(always)]
    pub fn as_wire(&self) -> &[u8]
        ensures { result.now ≡ wire self.now.labels }
    {
        self.form.as_bytes()
    }

    /// Copies the name. It does not allocate and cannot fail. See `copied`, whose result is the name itself.
    #[inline(always)]
    pub fn clone(&self) -> ProtoResult<Self>
        ensures { result ≡ Ok self.now }
    {
        Ok(self.copied())
    }

    /// Returns a copy of the name. It does not allocate.
    ///
    /// It takes fewer instructions than `clone`, whose result has room for an error too and is moved in parts.
    #[inline(always)]
    pub fn copied(&self) -> Self
        ensures { result ≡ self.now }
    {
        Name {
            is_fqdn: self.is_fqdn,
            form: self.form.clone(),
        }
    }

    /// Copies `source` in the place of this name: only the octets that it has, so it takes fewer instructions than
    /// `copied`. It does not allocate and cannot fail.
    #[inline(always)]
    pub fn clone_from(&mut self, source: &Self)
        ensures { self.new ≡ source.now }
    {
        self.is_fqdn = source.is_fqdn;
        self.form.clone_from(&source.form);
    }

    /// Copies octets that are a wire form in the place of this name. It is fully qualified.
    #[inline(always)]
    pub(crate) fn copy_octets(&mut self, octets: &[u8])
        requires { IsWire octets.now }
        ensures { self.new ≡ record { is_fqdn = true; labels = labels_of octets.now } }
    {
        self.is_fqdn = true;
        self.form.copy_octets(octets);
    }

    /// Creates a name from its text in master files (RFC 1035, section 5.1). Any octet stands for itself, but for a dot and a
    /// backslash: `\DDD` in decimal is that octet, and a backslash before any other octet is that octet. It does not allocate.
    ///
    /// A name with a dot at its end is fully qualified, and `.` is the root. Any other one is completed by the labels of the
    /// origin, if there is one, and is fully qualified then; else it is relative. `@` is the origin, or the relative name
    /// without labels.
    ///
    /// ```
    /// Name::from_text(alloc, "0/25.2.0.192.in-addr.arpa.", None)?; // 0/25.2.0.192.in-addr.arpa.
    /// Name::from_text(alloc, "a\\032b", Some(&origin))?; // `a b`, in the zone `origin`
    /// Name::from_text(alloc, "a\\256", None)?; // Err(NameTextError { offset: 4, rule: NameTextRule::BadEscape })
    /// ```
    pub fn from_text(
        alloc: Global,
        text: &str,
        origin: Option<&Name>,
    ) -> Result<Self, NameTextError>
        ensures { result ≡ name_of_text (origin_labels (option_copied origin.entry)) text.now }
    {
        Name::from_text_bytes(alloc, text.as_bytes(), origin)
    }

    /// Creates a name from the octets of its text, as `from_text` does: they need not be UTF-8, since a name may have any octets (RFC
    /// 2181, section 11).
    pub fn from_text_bytes(
        alloc: Global,
        text: &[u8],
        origin: Option<&Name>,
    ) -> Result<Self, NameTextError>
        ensures { result ≡ name_of_text (origin_labels (option_copied origin.entry)) text.now }
    {
        let labels = match origin {
            Some(name) => Some(name.wire_labels()),
            None => None,
        };
        let name = reading::read(alloc, text, labels)?;
        Ok(Name {
            is_fqdn: name.is_fqdn,
            form: name.form,
        })
    }

    /// Returns the name as its text in master files (RFC 1035, section 5.1), in ASCII: its labels with a dot between them, and one
    /// at the end if it is fully qualified. The root is `.`, and the relative name without labels `@`. A quote, `$`, `(`, `)`,
    /// `.`, `;`, `@` and a backslash are printed after a backslash, and octets that are not printable ASCII as `\DDD` in decimal.
    ///
    /// `from_text`, without an origin, gives the name back: `dnw_name_text::laws` says so of every name. It has at most 1004
    /// bytes.
    pub fn to_text(&self, alloc: Global) -> Result<String, AllocError>
        ensures { IfOk result (λ text. string_bytes text ≡ text_of_name self.now) }
    {
        let mut text = ArrayString::<{ ascii::MAX_TEXT }>::new();
        push_name(&mut text, self.wire_labels(), self.is_fqdn);
        let mut out = String::new(alloc);
        out.push_str(text.as_str())?;
        Ok(out)
    }

    /// Creates a name from text as hickory-proto reads it, with octal escapes; `from_text` reads what other programs print. It is
    /// fully qualified if the text ends in a dot. The text `.` is the root, and the empty text the relative name without
    /// labels.
    ///
    /// A backslash makes the next character an ordinary one, and a backslash with three octal digits stands for the
    /// character of that number. The first fault from the left is the error. Only an error with an allocated text can
    /// run out of memory.
    pub fn from_ascii(alloc: Global, name: &str) -> ProtoResult<Self>
        ensures follows { Follows (name_from_text (chars name.now)) (NeedsErrorText (name_from_text (chars name.now))) result }
    {
        let parsed = ascii::read(alloc, name)?;
        Ok(Name {
            is_fqdn: parsed.is_fqdn,
            form: parsed.form,
        })
    }

    /// Creates a name from text, as `from_ascii`.
    pub fn from_str(alloc: Global, name: &str) -> ProtoResult<Self>
        ensures follows { Follows (name_from_text (chars name.now)) (NeedsErrorText (name_from_text (chars name.now))) result }
    {
        Name::from_ascii(alloc, name)
    }

    /// Creates a name from text, as `from_ascii`.
    pub fn from_str_relaxed(alloc: Global, name: &str) -> ProtoResult<Self>
        ensures follows { Follows (name_from_text (chars name.now)) (NeedsErrorText (name_from_text (chars name.now))) result }
    {
        Name::from_str(alloc, name)
    }

    /// Creates a name from text as hickory-proto reads it, as `from_ascii`. If there is an origin, it completes a relative name.
    pub fn parse(alloc: Global, local: &str, origin: Option<&Name>) -> ProtoResult<Self>
        ensures follows { Follows (name_from_text_at (chars local.now) (option_copied origin.entry)) (NeedsErrorText (name_from_text (chars local.now))) result }
    {
        let name = Name::from_ascii(alloc, local)?;
        match origin {
            Some(origin) if !name.is_fqdn() => name.append_domain(origin),
            _ => Ok(name),
        }
    }

    /// Returns the name as text as hickory-proto prints it, with octal escapes; `to_text` prints what other programs read. It has the
    /// labels with a dot between them, and one at the end if the name is fully qualified. If each label stands for itself as
    /// text, `from_ascii` gives the name back. It has at most 1004 bytes.
    ///
    /// It fails with `Memory`, but not for the relative name without labels, whose text is empty.
    #[tactic(auto, using(dnw_name_text::proofs::ReadBack::read_back, dnw_name_text::proofs::AsciiSizes::texts_are_short))]
    pub fn to_ascii(&self, alloc: Global) -> ProtoResult<String>
        ensures ok { IfOk result (λ text. string_bytes text ≡ name_text self.now) }
        ensures reads_back { AllByRecursion IsLabelText self.now.labels → IfOk result (λ text. name_from_text (chars (string_bytes text)) ≡ Ok self.now) }
        ensures short { length (name_text self.now) ≤ max_text }
        ensures err { IfErr result (λ e. (1 ≤ length (name_text self.now)) × (e ≡ ProtoError.Memory)) }
    {
        if self.has_no_text() {
            return Ok(String::new(alloc));
        }
        Ok(self.to_string(alloc)?)
    }

    /// Returns `true` if the text is empty: the name is relative and has no labels.
    #[tactic(auto, using(dnw_base::proofs::Wires::no_labels_size, dnw_name_text::proofs::AsciiSizes::some_text))]
    fn has_no_text(&self) -> bool
        ensures none { IsTrue result → name_text self.now ≡ [] }
        ensures some { result ≡ false → 1 ≤ length (name_text self.now) }
        ensures labels { AreLabels self.now.labels }
    {
        let size = self.encoded_len();
        !self.is_fqdn && size == 1
    }

    /// Returns `true` if the last label is `localhost`, ignoring ASCII case (RFC 6761, section 6.3).
    pub fn is_localhost(&self) -> bool
        ensures { IsTrue result ↔ IsLocalhost self.now.labels }
    {
        order::is_zone_of(WireLabels::new(LOCALHOST), self.wire_labels())
    }

    /// Returns `true` if the first label is `*` (RFC 4592, section 2.1.1).
    pub fn is_wildcard(&self) -> bool
        ensures { IsTrue result ↔ IsWildcard self.now.labels }
    {
        match self.wire_labels().next() {
            Some(first) => is_asterisk(first),
            None => false,
        }
    }

    /// Returns the name with `*` in place of its first label. Without labels it becomes the root. It does not allocate and
    /// cannot fail.
    pub fn into_wildcard(self) -> ProtoResult<Self>
        ensures { result ≡ Ok (into_wildcard self) }
    {
        match self.form.to_wildcard() {
            Some(form) => Ok(Name {
                is_fqdn: self.is_fqdn,
                form,
            }),
            None => Ok(Name::qualified(self.form)),
        }
    }
}

fn is_asterisk(label: &[u8]) -> bool
    ensures { IsTrue result ↔ (label.now ≡ wildcard) }
{
    label.len() == 1 && label[0] == b'*'
}

impl<'a> IntoIterator for &'a Name {
    type Item = &'a [u8];

    type IntoIter = LabelIter<'a>;

    ghost into_iter_gives = { λ name labels. labels ≡ name.now.labels };

    fn into_iter(self) -> LabelIter<'a> {
        self.iter()
    }
}

/// It is printed as hickory-proto prints it, as by `to_ascii`.
impl fmt::Display for Name {
    ghost output = { λ n. Some (name_text n) };

    fn fmt<W: fmt::Write>(&self, f: &mut fmt::Formatter<W>) -> fmt::Result {
        let mut text = ArrayString::<{ ascii::MAX_TEXT }>::new();
        ascii::push_labels_text(&mut text, self.wire_labels());
        if self.is_fqdn {
            text.push('.');
        }
        f.write_str(text.as_str())
    }
}

impl fmt::Debug for Name {
    fn fmt<W: fmt::Write>(&self, f: &mut fmt::Formatter<W>) -> fmt::Result {
        write!(f, "Name(\"{self}\")")
    }
}
