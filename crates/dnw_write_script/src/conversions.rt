//! Records of any type from those whose data are bytes or one name, and back.
ghost use Rattle.std.specs.Prelude.{◌≡◌, [], ◌∷◌, true, IfNone, IfOk, IfSome, MatchOption};
ghost use Rattle.std.specs.List.{list_any};
ghost use Rattle.dnw_base.specs.Names.{wire};
ghost use Rattle.dnw_record.specs.DataPieces.{data_kinds};
ghost use Rattle.dnw_write_script.specs.WireRecords.{HaveNameAndOthers, SaysData, encoding_of, is_name};

use crate::wire_record::{WireData, WireRecord};
use dnw_base::decoder::BinDecoder;
use dnw_data::kind::{Kind, NameForm};
use dnw_data::table;
use dnw_name::name::Name;
use dnw_name::name_ref::NameRef;
use dnw_record::rdata::{RData, RDataError};
use dnw_record::record::Record;
use dnw_write::encoder::RDataEncoding;
use std::alloc::{AllocError, Global};

impl WireRecord {
    ghost use Rattle.std.specs.Prelude.{◌≡◌, IfOk, IfErr, MatchOption, MatchResult};
    ghost use Rattle.dnw_record.specs.DataPieces.{IsData, data_kinds, kinds_of};
    ghost use Rattle.dnw_record.specs.DataCopies.{FailsToCopy, alone};
    ghost use Rattle.dnw_write_script.specs.WireRecords.{HaveNameAndOthers, IsOfWireRecord, SaysRecord, wire_data_octets};

    /// Creates a record of any type with the owner, the type, the class, the time to live and the data of this one. A name that is
    /// its data is in its wire form.
    ///
    /// It fails as `RData::new` does.
    pub fn to_record(&self, alloc: Global) -> Result<Record, RDataError>
        ensures ok { IfOk result (IsOfWireRecord self.now) }
        ensures err { IfErr result (FailsToCopy (kinds_of self.now.class self.now.record_type (wire_data_octets self.now.rdata))
            (alone (wire_data_octets self.now.rdata))) }

        // Octets that are data of the type with every name in its wire form are accepted, and stay as they are.
        ensures kept { IsData (kinds_of self.now.class self.now.record_type (wire_data_octets self.now.rdata)) (wire_data_octets self.now.rdata)
            → MatchResult result (λ r. r.data.octets ≡ wire_data_octets self.now.rdata) (λ e. e ≡ RDataError.Memory) }
    {
        let octets = match &self.rdata {
            WireData::Bytes(bytes) => bytes.as_slice(),
            WireData::Name { name, .. } => name.as_wire(),
        };
        let data = RData::new(alloc, self.class, self.record_type, octets)?;
        Ok(Record {
            name: self.owner.copied(),
            ttl: self.ttl,
            data,
        })
    }

    /// Creates a record that is written as one of any type: its data are bytes if no field of the type is a name, and a name if that
    /// is the only field, which is then written as the table says. Returns `None` if the type has a name and other fields, as MX and
    /// SOA: among bytes a name is neither compressed nor lowered.
    ///
    /// It fails if an allocation fails.
    pub fn from_record(alloc: Global, item: &Record) -> Result<Option<Self>, AllocError>
        ensures { IfOk result (λ x. MatchOption x (HaveNameAndOthers (data_kinds item.now.data)) (SaysRecord item.now)) }
    {
        let Some(rdata) = wire_data(alloc, &item.data)? else {
            return Ok(None);
        };
        Ok(Some(WireRecord {
            owner: item.name.copied(),
            record_type: item.data.record_type(),
            class: item.data.class(),
            ttl: item.ttl,
            rdata,
        }))
    }
}

/// Returns data as bytes or as a name, if they are one of these.
fn wire_data(alloc: Global, rdata: &RData) -> Result<Option<WireData>, AllocError>
    ensures { IfOk result (λ x. MatchOption x (HaveNameAndOthers (data_kinds rdata.now))
        (SaysData (data_kinds rdata.now) rdata.now.octets)) }
{
    let octets = rdata.octets();
    let kinds = table::fields_of(rdata.class(), rdata.record_type(), octets);
    if let Some(form) = only_form(kinds) {
        return Ok(Some(WireData::Name {
            name: only_name(alloc, rdata),
            encoding: encoding_of(form),
        }));
    }
    if has_name(kinds) {
        return Ok(None);
    }
    Ok(Some(WireData::Bytes(Vec::from_slice(alloc, octets)?)))
}

/// Returns the form of the name that is the only one of these kinds.
fn only_form(kinds: &[Kind]) -> Option<NameForm>
    ensures some { IfSome result (λ form. kinds.now ≡ Kind.Name form ∷ []) }
    ensures none { IfNone result ((form : NameForm) → kinds.now ≡ Kind.Name form ∷ [] → ⊥) }
{
    match kinds {
        [Kind::Name(form)] => Some(*form),
        _ => None,
    }
}

/// Returns the name that the data are.
fn only_name(alloc: Global, rdata: &RData) -> Name
    requires { (form : NameForm) × (data_kinds rdata.now ≡ Kind.Name form ∷ []) }
    ensures { (result.is_fqdn ≡ true) × (rdata.now.octets ≡ wire result.labels) }
{
    let name = NameRef::read(&mut BinDecoder::new(rdata.octets())).unwrap();
    name.to_name(alloc).unwrap()
}

/// Returns `true` if one of these kinds is a name.
fn has_name(kinds: &[Kind]) -> bool
    ensures { result ≡ list_any is_name kinds.now }
{
    kinds.iter().any(|kind| matches!(kind, Kind::Name(_)))
}

/// Returns how names of this form are written.
fn encoding_of(form: NameForm) -> RDataEncoding
    ensures { result ≡ encoding_of form }
{
    match form {
        NameForm::Compressible => RDataEncoding::StandardRecord,
        NameForm::Lowered => RDataEncoding::Canonical,
        NameForm::Plain => RDataEncoding::Other,
    }
}
