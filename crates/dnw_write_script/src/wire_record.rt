//! Records whose data are bytes or one name, as they are written (RFC 1035, section 4.1.3).
ghost use Rattle.std.specs.Prelude.{◌≡◌};
ghost use Rattle.dnw_write.specs.Encoder.{mode_of_rdata};
ghost use Rattle.dnw_write.specs.EncoderValue.{value, lender};
ghost use Rattle.dnw_write_script.specs.WrittenRecords.{EmitsData, EmitsDataName, EmitsRecord};
ghost use Rattle.dnw_write_script.specs.RecordFrames.{frame_data, frame_record};

use crate::emitting::emit_record;
use dnw_base::dns_class::DNSClass;
use dnw_base::error::ProtoResult;
use dnw_base::record_type::RecordType;
use dnw_name::name::Name;
use dnw_write::binary::BinEncodable;
use dnw_write::encoder::{BinEncoder, RDataEncoding};

/// A record to be written into a message (RFC 1035, section 4.1.3).
///
/// It is written whole or not at all: a write that fails leaves the encoder unchanged if it began at the buffer's end,
/// as the writes of a message do; see `laws::refused_records_undo`.
#[derive(Debug, Drop)]
pub struct WireRecord {
    /// The name that owns the record, written in the encoder's mode.
    pub owner: Name,
    /// The type.
    pub record_type: RecordType,
    /// The class.
    pub class: DNSClass,
    /// The time to live, in seconds.
    pub ttl: u32,
    /// The data, after a length of two octets that is filled in once they are written.
    pub rdata: WireData,
}

/// The data of a record.
#[derive(Debug, Drop)]
pub enum WireData {
    /// Bytes, which are written as they are.
    Bytes(Vec<u8>),
    /// A name, as the data of NS, CNAME and PTR are (RFC 1035, section 3.3).
    Name {
        /// The name.
        name: Name,
        /// How it is written: in this mode if the encoder is in canonical form or not, and the encoder's mode is put back.
        encoding: RDataEncoding,
    },
}

impl BinEncodable for WireData {
    ghost emits = { EmitsData };

    ghost keeps_frame = { frame_data };

    /// Writes the data alone, without their length: a name in the mode for such data.
    fn emit(&self, encoder: &mut BinEncoder<'_>) -> ProtoResult<()> {
        match self {
            WireData::Bytes(bytes) => encoder.emit_vec(bytes.as_slice()),
            WireData::Name { name, encoding } => emit_data_name(name, *encoding, encoder),
        }
    }
}

impl BinEncodable for WireRecord {
    ghost emits = { EmitsRecord };

    ghost keeps_frame = { frame_record };

    /// Writes the owner, the type, the class, the time to live, the length and the data. If one of them fails, the encoder
    /// is put back to where it was.
    fn emit(&self, encoder: &mut BinEncoder<'_>) -> ProtoResult<()> {
        emit_record(
            &self.owner,
            self.record_type,
            self.class,
            self.ttl,
            &self.rdata,
            encoder,
        )
    }
}

/// Writes a name in the mode for such data, and puts the former mode back in any case.
fn emit_data_name(
    name: &Name,
    encoding: RDataEncoding,
    encoder: &mut BinEncoder<'_>,
) -> ProtoResult<()>
    ensures writes { EmitsDataName name.now encoding (value encoder.old) result (value encoder.new) }
    ensures lender { lender encoder.new ≡ lender encoder.old }
{
    let former = encoder.name_encoding();
    let mode = encoding.name_encoding(encoder.is_canonical_form(), former);
    encoder.set_name_encoding(mode);
    let outcome = name.emit(encoder);
    encoder.set_name_encoding(former);
    outcome
}
