//! Records in a message, which are read without copying.
ghost use Rattle.std.specs.Prelude.{◌≡◌, ℕ, ◌+◌, List, length, true, IfOk, IfErr, OnErr, IsErrOf, IsOkAnd, slice_range};
ghost use Rattle.dnw_base.specs.declared.error.DecodeError.{DecodeError};
ghost use Rattle.dnw_base.specs.Decoder.{Decoder};
ghost use Rattle.dnw_base.specs.Names.{NameValue};
ghost use Rattle.dnw_record.specs.Records.{RecordValue, TakesRecord, FailsRecord, HasDataName, FailsDataName, data_octets, fixed_size};
ghost use Rattle.dnw_record.specs.RecordFields.{record_fields};
ghost use Rattle.dnw_record.specs.FixedFields.{FieldsOf};

use dnw_base::decoder::BinDecoder;
use dnw_base::dns_class::DNSClass;
use dnw_base::error::DecodeError;
use dnw_base::record_type::RecordType;
use dnw_data::fields::Fields;
use dnw_data::kind::Kind;
use dnw_data::table;
use dnw_name::binary::BinDecodable;
use dnw_name::name::Name;
use dnw_name::name_ref::NameRef;
use std::alloc::Global;
use std::marker::Model;

/// How many octets are between a record's owner and its data: type, class, time to live and length.
pub const FIXED_SIZE: usize = 10;

/// A record in a message (RFC 1035, section 4.1.3). It borrows its owner and its data from the message, and nothing here
/// allocates.
///
/// A contract sees it as a record of a message: its parts, and where the message has its data.
#[derive(Drop)]
pub struct RecordRef<'r> {
    message: &'r [u8],
    owner: NameRef<'r>,
    record_type: RecordType,
    class: DNSClass,
    ttl: u32,
    start: usize,
    len: u16,
}

impl<'r> Model for RecordRef<'r> {
    ghost use Rattle.std.specs.Prelude.{◌≤◌, ◌+◌};
    ghost use Rattle.dnw_record.specs.Records.{RecordValue, record_length};

    ghost Value = { RecordValue };

    ghost view = { λ r. record {
      message = r.message.now;
      owner = r.owner;
      record_type = r.record_type;
      class = r.class;
      ttl = r.ttl;
      start = r.start;
      len = r.len;
    } };

    ghost invariant = { λ r. r.start + r.len ≤ record_length r.message.now };
}

impl<'r> RecordRef<'r> {
    ghost use Rattle.std.specs.Prelude.{◌≡◌, ℕ, length};
    ghost use Rattle.dnw_record.specs.Records.{data_octets};

    /// Reads the record at the cursor as `read` does, but needs no allocator. If it fails, the cursor is unchanged.
    #[inline(always)]
    pub fn read_next(reader: &mut BinDecoder<'r>) -> Result<Self, DecodeError>
        ensures ok { IfOk result (λ r. TakesRecord reader.old r reader.new) }
        ensures err { IfErr result (FailsRecord reader.old) }
        ensures same { OnErr result (reader.new ≡ reader.old) }

        // It accepts what the definition accepts, and fails where the definition does.
        ensures accepts { (r : RecordValue) (after : Decoder) → TakesRecord reader.old r after
            → IsOkAnd result (λ x. x ≡ r) × (reader.new ≡ after) }
        ensures fails { (error : DecodeError) → FailsRecord reader.old error → IsErrOf result error }
    {
        let mut ahead = BinDecoder::new(reader.message());
        ahead.skip(reader.index()).unwrap();
        let record = read_on(&mut ahead)?;
        *reader = ahead;
        Ok(record)
    }

    /// Returns the name that owns the record.
    #[inline(always)]
    pub fn owner(&self) -> &NameRef<'r>
        ensures { result.now ≡ self.now.owner }
    {
        &self.owner
    }

    /// Returns the type.
    #[inline(always)]
    pub fn record_type(&self) -> RecordType
        ensures { result ≡ self.now.record_type }
    {
        self.record_type
    }

    /// Returns the class.
    #[inline(always)]
    pub fn class(&self) -> DNSClass
        ensures { result ≡ self.now.class }
    {
        self.class
    }

    /// Returns the time to live, in seconds.
    #[inline(always)]
    pub fn ttl(&self) -> u32
        ensures { result ≡ self.now.ttl }
    {
        self.ttl
    }

    /// Returns the octets of the data, borrowed from the message.
    #[inline(always)]
    pub fn rdata(&self) -> &'r [u8]
        ensures octets { result.now ≡ data_octets self.now }
        ensures len { length result.now ≡ self.now.len }
    {
        &self.message[self.start..self.start + self.len as usize]
    }

    /// Returns the offset at which the data begin in the message.
    #[inline(always)]
    pub fn rdata_offset(&self) -> usize
        ensures { result ≡ self.now.start }
    {
        self.start
    }

    /// Returns an iterator over the fields of the data, by the table of `dnw_data::table`. Nothing is copied, and nothing
    /// here allocates.
    ///
    /// Names in the data may be compressed, whatever the type. Each item is a field, or the first error with the number of
    /// its field; after that nothing follows. Data of a type that is not in the table are one field of octets.
    #[inline(always)]
    pub fn fields(&self) -> Fields<'r>
        ensures { result ≡ record_fields self.now }
    {
        let message = &self.message[..self.start + self.len as usize];
        Fields::new(message, self.start, self.class, self.record_type)
    }

    /// Returns the kinds of those fields.
    #[inline(always)]
    pub fn kinds(&self) -> &'static [Kind]
        ensures { result.now ≡ (record_fields self.now).kinds }
    {
        let end = self.start + self.len as usize;
        let data = &self.message[..end][self.start..];
        table::fields_of(self.class, self.record_type, data)
    }

    /// Returns a decoder of the message up to the end of the data, at their start. Names that are read from it may have
    /// pointers to what is before the data.
    #[inline(always)]
    pub fn data_decoder(&self) -> BinDecoder<'r>
        ensures { result ≡ (record_fields self.now).reader }
    {
        let mut reader = BinDecoder::new(&self.message[..self.start + self.len as usize]);
        reader.skip(self.start).unwrap();
        reader
    }

    /// Reads the data as a name, fully qualified, which may be compressed (RFC 1035, section 4.1.4). It does not allocate.
    ///
    /// It fails with the error of reading the name there, or with `IncorrectRDataLengthRead` if the name's own octets are
    /// not as many as the data.
    #[inline(always)]
    pub fn data_name(&self, alloc: Global) -> Result<Name, DecodeError>
        ensures ok { IfOk result (HasDataName self.now) }
        ensures err { IfErr result (FailsDataName self.now) }

        // It accepts what the definition accepts, and fails where the definition does.
        ensures accepts { (name : NameValue) → HasDataName self.now name → IsOkAnd result (λ x. x ≡ name) }
        ensures fails { (error : DecodeError) → FailsDataName self.now error → IsErrOf result error }
        ensures no_memory { IsErrOf result DecodeError.Memory → ⊥ }
    {
        let mut reader = BinDecoder::new(self.message);
        reader.skip(self.start).unwrap();
        let name = Name::read(alloc, &mut reader)?;
        let read = reader.index() - self.start;
        let len = self.len as usize;
        if read != len {
            return Err(DecodeError::IncorrectRDataLengthRead { read, len });
        }
        Ok(name)
    }
}

/// The fields of a record between its owner and its data.
#[derive(Clone, Copy)]
struct FixedFields {
    record_type: RecordType,
    class: DNSClass,
    ttl: u32,
    len: u16,
}

/// Returns the fields that these ten octets are.
#[inline(always)]
fn fields_of(octets: &[u8]) -> FixedFields
    requires { length octets.now ≡ fixed_size }
    ensures { FieldsOf octets.now result }
{
    FixedFields {
        record_type: RecordType::from(u16::from_be_bytes([octets[0], octets[1]])),
        class: DNSClass::from(u16::from_be_bytes([octets[2], octets[3]])),
        ttl: u32::from_be_bytes([octets[4], octets[5], octets[6], octets[7]]),
        len: u16::from_be_bytes([octets[8], octets[9]]),
    }
}

/// Reads a record at the cursor. If it fails, the cursor may be past the owner.
#[inline(always)]
fn read_on<'r>(reader: &mut BinDecoder<'r>) -> Result<RecordRef<'r>, DecodeError>
    ensures ok { IfOk result (λ r. TakesRecord reader.old r reader.new) }
    ensures err { IfErr result (FailsRecord reader.old) }
{
    let owner = NameRef::read(reader)?;
    let fields = fields_of(reader.read_slice(FIXED_SIZE)?.unverified());
    let start = reader.index();
    reader.skip(fields.len as usize)?;
    Ok(RecordRef {
        message: reader.message(),
        owner,
        record_type: fields.record_type,
        class: fields.class,
        ttl: fields.ttl,
        start,
        len: fields.len,
    })
}

impl<'r> BinDecodable<'r> for RecordRef<'r> {
    ghost stands = { TakesRecord };

    ghost fails = { FailsRecord };

    /// Reads the record at the cursor, and leaves the cursor after its data, which are not looked into. It does not
    /// allocate.
    ///
    /// It fails with the error of reading the owner, or with `InsufficientBytes` if the fields or the data after it are
    /// not all there.
    fn read(_alloc: Global, decoder: &mut BinDecoder<'r>) -> Result<Self, DecodeError> {
        RecordRef::read_next(decoder)
    }

    fn from_bytes(alloc: Global, bytes: &'r [u8]) -> Result<Self, DecodeError> {
        let mut decoder = BinDecoder::new(bytes);
        RecordRef::read(alloc, &mut decoder)
    }
}
