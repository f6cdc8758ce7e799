//! Names in a message, which are walked without copying.
ghost use Rattle.std.specs.Prelude.{◌≡◌, ℕ, List, ◌+◌, ◌<◌, ◌≤◌, ◌↔◌, true, min, [], length, Ok, IsTrue, IfOk, IfErr, IfSome, IfNone, OnErr, IsErrOf, IsOkAnd};
ghost use Rattle.dnw_base.specs.Decoder.{Decoder};
ghost use Rattle.dnw_base.specs.Limits.{max_labels, max_name, pointer_offsets};
ghost use Rattle.dnw_name_read.specs.Buffers.{put};
ghost use Rattle.dnw_name_read.specs.Reading.{TakesName, StopsAt};
ghost use Rattle.dnw_base.specs.Names.{AreLabels, encoded_size, lower, wire};
ghost use Rattle.dnw_name_read.specs.Inside.Found.{labels_at};
ghost use Rattle.dnw_name_form.specs.Inside.WireBytes.{labels_of, IsWire};
ghost use Rattle.dnw_name_order.specs.Order.{labels_cmp, IsZoneOf};

use crate::name::Name;
use dnw_base::decoder::BinDecoder;
use dnw_base::error::{DecodeError, ProtoResult};
use dnw_base::limits::MAX_NAME;
use dnw_name_form::form::WireForm;
use dnw_name_form::octets::Octets;
use dnw_name_form::wire_labels::WireLabels;
use dnw_name_order::order;
use dnw_name_read::copy;
use dnw_name_read::ref_labels::RefLabels;
use dnw_name_read::walk::{self, ReadSteps};
use std::alloc::Global;
use std::cmp::Ordering;
use std::marker::Model;

/// A name in a message. It borrows its labels from the message, and nothing here allocates.
///
/// It takes 56 bytes, while a `Name` takes some 270 and is a copy: use this to compare a name or to pass over it, and
/// `to_name` to keep it. A contract sees it as the list of its labels.
#[derive(Drop)]
pub struct NameRef<'a> {
    message: &'a [u8],
    first: usize,
    size: usize,
    labels: usize,
    // The two pieces of the wire form, as a walk has found them: so many octets at the first label, and the others.
    head: usize,
    tail: usize,
}

impl<'a> Model for NameRef<'a> {
    ghost use Rattle.std.specs.Prelude.{List, ℕ};
    ghost use Rattle.dnw_base.specs.Names.{AreLabels, encoded_size, lower, wire};
    ghost use Rattle.dnw_name_order.specs.Order.{IsZoneOf};
    ghost use Rattle.dnw_name_read.specs.Inside.Found.{labels_at, NameLiesAt};

    ghost Value = { List (List ℕ) };

    ghost view = { λ n. labels_at n.message.now n.first };

    ghost invariant = { λ n. NameLiesAt n.message.now n.first n.size n.labels n.head n.tail };
}

impl<'a> NameRef<'a> {
    /// Reads the name at the cursor, and leaves the cursor after the name's own octets (RFC 1035, section 4.1.4). If it
    /// fails, the cursor is unchanged. It accepts exactly what `Name::read` accepts.
    // Inlined, since LLVM takes a large result that is returned through memory apart, octet by octet.
    #[inline(always)]
    pub fn read(decoder: &mut BinDecoder<'a>) -> Result<Self, DecodeError>
        ensures ok { IfOk result (λ name. (k : ℕ) × TakesName decoder.old decoder.new name k) }
        ensures err { IfErr result (λ e. (k : ℕ) × (j : ℕ) × StopsAt decoder.old e k j) }
        ensures same { OnErr result (decoder.new ≡ decoder.old) }

        // It accepts what the definition accepts, and fails where the definition stops.
        ensures accepts { (after : Decoder) (ls : List (List ℕ)) (k : ℕ) → TakesName decoder.old after ls k
            → IsOkAnd result (λ name. name ≡ ls) × (decoder.new ≡ after) }
        ensures fails { (error : DecodeError) (k j : ℕ) → StopsAt decoder.old error k j → IsErrOf result error }
    {
        let mut steps = ReadSteps::default();
        NameRef::read_counted(decoder, &mut steps)
    }

    /// Reads as `read` does, and counts the steps, also if it fails.
    #[inline(always)]
    pub fn read_counted(
        decoder: &mut BinDecoder<'a>,
        steps: &mut ReadSteps,
    ) -> Result<Self, DecodeError>
        ensures ok { IfOk result (λ name. TakesName decoder.old decoder.new name steps.new.pointers
            × (steps.new.labels ≡ length name)) }
        ensures err { IfErr result (λ e. StopsAt decoder.old e steps.new.pointers steps.new.labels) }
        ensures same { OnErr result (decoder.new ≡ decoder.old) }

        // It accepts what the definition accepts, and fails where the definition stops.
        ensures accepts { (after : Decoder) (ls : List (List ℕ)) (k : ℕ) → TakesName decoder.old after ls k
            → IsOkAnd result (λ name. name ≡ ls) × (decoder.new ≡ after) }
        ensures fails { (error : DecodeError) (k j : ℕ) → StopsAt decoder.old error k j → IsErrOf result error }

        // Every reading takes few steps.
        ensures few_pointers { steps.new.pointers ≤ min decoder.old.index pointer_offsets }
        ensures few_labels { steps.new.labels ≤ max_labels + 1 }
    {
        let message = decoder.message();
        let start = decoder.index();
        let walked = walk::walk(message, start, steps)?;
        decoder.skip(walked.end - start).unwrap();
        Ok(NameRef {
            message,
            first: walked.first,
            size: walked.size,
            labels: steps.labels,
            head: walked.head,
            tail: walked.tail,
        })
    }

    /// Returns an iterator over the labels, from the left, borrowed from the message.
    #[inline(always)]
    pub fn labels(&self) -> RefLabels<'a>
        ensures { result ≡ self.now }
    {
        RefLabels::new(self.message, self.first, self.labels)
    }

    /// Returns the number of all labels, a `*` at the start included.
    #[inline(always)]
    pub fn num_labels(&self) -> u8
        ensures { result ≡ length self.now }
    {
        self.labels as u8
    }

    /// Returns the number of octets of the wire form.
    #[inline(always)]
    pub fn encoded_len(&self) -> usize
        ensures size { result ≡ encoded_size self.now }
        ensures labels { AreLabels self.now }
    {
        self.size
    }

    /// Returns `true` for the root: the name has no labels.
    #[inline(always)]
    pub fn is_root(&self) -> bool
        ensures { IsTrue result ↔ (self.now ≡ []) }
    {
        self.labels == 0
    }

    /// Returns `true` if `other` has the same labels, ignoring ASCII case (RFC 4343). It ignores whether `other` is fully
    /// qualified.
    pub fn eq_name(&self, other: &Name) -> bool
        ensures { IsTrue result ↔ (lower self.now ≡ lower other.now.labels) }
    {
        self.encoded_len() == other.encoded_len()
            && order::eq_labels(self.wire_labels(&mut [0; MAX_NAME]), other.wire_labels())
    }

    /// Compares the labels with those of `other` in canonical order (RFC 4034, section 6.1): from the last one, and ignoring
    /// ASCII case. It ignores whether `other` is fully qualified.
    ///
    /// So the names of a message can be looked up in a sorted store without a `Name` for each.
    pub fn cmp_name(&self, other: &Name) -> Ordering
        ensures { result ≡ labels_cmp self.now other.now.labels }
    {
        order::cmp_labels(self.wire_labels(&mut [0; MAX_NAME]), other.wire_labels())
    }

    /// Returns `true` if `zone` is a zone of this name: its labels are the last ones of this name, ignoring ASCII case (RFC
    /// 1034, section 4.2, and RFC 4343). Whether `zone` is fully qualified is ignored.
    ///
    /// `Name::zone_of` asks the other way round: there `self` is the zone.
    pub fn zone_of(&self, zone: &Name) -> bool
        ensures { IsTrue result ↔ IsZoneOf zone.now.labels self.now }
    {
        order::is_zone_of(zone.wire_labels(), self.wire_labels(&mut [0; MAX_NAME]))
    }

    /// Returns `true` if this name is in the zone. It is another name for `zone_of`, and the same call as `Name::is_in`.
    pub fn is_in(&self, zone: &Name) -> bool
        ensures { IsTrue result ↔ IsZoneOf zone.now.labels self.now }
    {
        self.zone_of(zone)
    }

    /// Copies the name. It is fully qualified. This does not allocate and cannot fail.
    #[inline(always)]
    pub fn to_name(&self, alloc: Global) -> ProtoResult<Name>
        ensures { result ≡ Ok (record { is_fqdn = true; labels = self.now }) }
    {
        Ok(self.copied(alloc))
    }

    /// Returns the labels as an iterator over a wire form: over the message's own octets if no pointer follows the first
    /// label, and else over a copy in `room`.
    #[inline(always)]
    pub fn wire_labels<'r>(&self, room: &'r mut [u8; MAX_NAME]) -> WireLabels<'r>
    where
        'a: 'r,
        ensures { result ≡ self.now }
    {
        let size = self.encoded_len();
        if let Some(labels) = self.labels_in_place() {
            return labels;
        }
        self.fill(room);
        WireLabels::new(&room[..size])
    }

    /// Returns the labels as an iterator over the message's own octets, if no pointer follows the first label.
    #[inline(always)]
    pub fn labels_in_place(&self) -> Option<WireLabels<'a>>
        ensures { IfSome result (λ labels. labels ≡ self.now) }
    {
        if self.head != self.size {
            return None;
        }
        let octets = &self.message[self.first..self.first + self.size];
        Some(WireLabels::new(octets))
    }

    /// Copies the wire form to the front of a buffer, and returns its length (RFC 1035, section 3.1). Returns `None` if it
    /// does not fit; the buffer is then unchanged. 255 octets are enough for any name.
    #[inline(always)]
    pub fn copy_wire(&self, out: &mut [u8]) -> Option<usize>
        ensures some { IfSome result (λ len. (len ≡ encoded_size self.now) × (out.new ≡ put out.old (wire self.now))) }
        ensures none { IfNone result ((length out.old < encoded_size self.now) × (out.new ≡ out.old)) }
    {
        let size = self.encoded_len();
        if size > out.len() {
            return None;
        }
        self.fill(out);
        Some(size)
    }

    /// Copies the name in the place of another, as `to_name` does into a new one. It is fully qualified.
    #[inline(always)]
    pub fn clone_into(&self, name: &mut Name)
        ensures { name.new ≡ record { is_fqdn = true; labels = self.now } }
    {
        match self.piece() {
            Some(octets) => name.copy_octets(octets),
            None => *name = self.gathered(),
        }
    }

    /// Copies the name, as `to_name`.
    #[inline(always)]
    pub(crate) fn copied(&self, alloc: Global) -> Name
        ensures { result ≡ record { is_fqdn = true; labels = self.now } }
    {
        if let Some(octets) = self.piece() {
            return Name::qualified(WireForm::from_octets(alloc, octets));
        }
        self.gathered()
    }

    /// Copies the name piece by piece.
    #[inline(always)]
    fn gathered(&self) -> Name
        ensures { result ≡ record { is_fqdn = true; labels = self.now } }
    {
        let size = self.encoded_len();
        let mut room = [0; MAX_NAME];
        self.fill(&mut room);
        Name::qualified(WireForm::from_wire(Octets::from_array(room, size)))
    }

    /// Puts the wire form at the front of a buffer.
    #[inline(always)]
    fn fill(&self, out: &mut [u8])
        requires { encoded_size self.now ≤ length out.old }
        ensures { out.new ≡ put out.old (wire self.now) }
    {
        let (first, size) = (self.first, self.size);
        copy::copy_name(out, self.message, first, size, self.head, self.tail);
    }

    /// Returns the wire form if it is in the message in one piece: no pointer follows the first label.
    #[inline(always)]
    fn piece(&self) -> Option<&'a [u8]>
        ensures wire { IfSome result (λ octets. octets.now ≡ wire self.now) }
        ensures form { IfSome result (λ octets. IsWire octets.now × (labels_of octets.now ≡ self.now)) }
    {
        let labels = self.labels_in_place()?;
        Some(labels.as_wire())
    }
}

impl Name {
    /// Returns a view of the name as a `NameRef`, without a copy. Whether the name is fully qualified is not part of it.
    pub fn as_name_ref(&self) -> NameRef<'_>
        ensures { result ≡ self.now.labels }
    {
        let size = self.encoded_len();
        NameRef {
            message: self.as_wire(),
            first: 0,
            size,
            labels: self.wire_labels().len(),
            head: size,
            tail: 0,
        }
    }
}
