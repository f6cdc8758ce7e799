//! How every record is written: its fields in turn, and whole or not at all.
ghost use Rattle.std.specs.Prelude.{◌≡◌, ◌≤◌, length};
ghost use Rattle.dnw_write.specs.Marks.{rewound};
ghost use Rattle.dnw_write.specs.EncoderValue.{value, lender};
ghost use Rattle.dnw_write_script.specs.Inside.Going.{WritesOn};
ghost use Rattle.dnw_write_script.specs.WrittenRecords.{EmitsWhole, FixedFit, InOrder, fixed_octets};

use dnw_base::dns_class::DNSClass;
use dnw_base::error::ProtoResult;
use dnw_base::record_type::RecordType;
use dnw_write::binary::BinEncodable;
use dnw_write::encoder::{BinEncoder, Mark};

/// Writes the owner, the type, the class and the time to live, and the data after their length. If one of them fails, the encoder is
/// put back to where it was.
pub(crate) fn emit_record<N: BinEncodable, D: BinEncodable>(
    owner: &N,
    record_type: RecordType,
    class: DNSClass,
    ttl: u32,
    rdata: &D,
    encoder: &mut BinEncoder<'_>,
) -> ProtoResult<()>
    requires owner { WritesOn (N.emits owner.now) }
    requires rdata { WritesOn (D.emits rdata.now) }
    ensures writes { EmitsWhole (FixedFit record_type class ttl) (InOrder (N.emits owner.now) (fixed_octets record_type class ttl) (D.emits rdata.now))
        (value encoder.old) result (value encoder.new) }
    ensures lender { lender encoder.new ≡ lender encoder.old }
{
    let fixed = fixed_octets(record_type, class, ttl);
    let mark = encoder.mark();
    let outcome = emit_fields(owner, &fixed, rdata, encoder);
    if outcome.is_err() {
        undo(encoder, mark);
    }
    outcome
}

/// Puts an encoder back to where it was before a record that is not written.
fn undo(encoder: &mut BinEncoder<'_>, mark: Mark)
    requires { mark.offset ≤ length (value encoder.old).bytes }
    ensures value { value encoder.new ≡ rewound (value encoder.old) mark }
    ensures lender { lender encoder.new ≡ lender encoder.old }
{
    encoder.rewind(mark);
}

/// Writes all of these in turn, up to the first that fails.
fn emit_fields<N: BinEncodable, D: BinEncodable>(
    owner: &N,
    fixed: &[u8; 8],
    rdata: &D,
    encoder: &mut BinEncoder<'_>,
) -> ProtoResult<()>
    requires { WritesOn (D.emits rdata.now) }
    ensures writes { InOrder (N.emits owner.now) fixed.now (D.emits rdata.now) (value encoder.old) result (value encoder.new) }
    ensures lender { lender encoder.new ≡ lender encoder.old }
{
    owner.emit(encoder)?;
    encoder.emit_vec(fixed)?;
    let place = encoder.place::<u16>()?;
    rdata.emit(encoder)?;
    let most = encoder.max_size();
    let len = encoder.len_since_place(&place);
    // No write ends past the maximum, so two octets hold the length.
    prove!(len <= most as usize);
    encoder.emit_at(place, len as u16)
}

/// Returns the type, the class and the time to live, as they are written.
#[inline(always)]
fn fixed_octets(record_type: RecordType, class: DNSClass, ttl: u32) -> [u8; 8]
    ensures octets { result ≡ fixed_octets record_type class ttl }
    ensures fit { FixedFit record_type class ttl }
{
    let code = u16::to_be_bytes(u16::from(record_type));
    let class = u16::to_be_bytes(u16::from(class));
    let ttl = u32::to_be_bytes(ttl);
    [
        code[0], code[1], class[0], class[1], ttl[0], ttl[1], ttl[2], ttl[3],
    ]
}
