//! Sort keys of records.
ghost use Rattle.std.specs.Prelude.{◌≡◌, IfOk, IfErr};
ghost use Rattle.std.specs.Int.{w16, to_be_bytes};
ghost use Rattle.dnw_base.specs.DnsClasses.{class_code};
ghost use Rattle.dnw_base.specs.RecordTypes.{type_code};
ghost use Rattle.dnw_signed.specs.CanonicalData.{FailsCanonical};
ghost use Rattle.dnw_signed.specs.RecordKeys.{IsRecordKey};

use crate::fields::put_record_data;
use dnw_name_order::sort_key::MAX_SORT_KEY_LENGTH;
use dnw_record::rdata::RDataError;
use dnw_record::record_ref::RecordRef;
use std::alloc::Global;

/// Returns the sort key of a record of a message: octets that compare as bytes as records do by owner, type, class and data, each
/// in canonical form (RFC 4034, sections 6.1 to 6.3). The keys of two records are equal exactly if the records are: the time to
/// live makes no difference (RFC 2136, section 1.1.1), and neither does the case of letters that canonical form lowers. So keys
/// can be hashed, and a set of them has each record once. `laws::keys_order_records` has these facts.
///
/// The key has the sort key of the owner, an octet 0, the type and the class in two octets each, and the data.
///
/// It fails with `Field` if the data are not the fields of their type, and with `Memory` if an allocation fails.
pub fn record_key(alloc: Global, item: &RecordRef<'_>) -> Result<Vec<u8>, RDataError>
    ensures ok { IfOk result (λ key. IsRecordKey item.now key.items) }
    ensures err { IfErr result (FailsCanonical item.now) }
{
    let mut room = [0; MAX_SORT_KEY_LENGTH];
    let mut key = Vec::from_slice(alloc, item.owner().sort_key(&mut room))?;
    key.extend_from_slice(&[0])?;
    key.extend_from_slice(&u16::to_be_bytes(u16::from(item.record_type())))?;
    key.extend_from_slice(&u16::to_be_bytes(u16::from(item.class())))?;
    put_record_data(item, &mut key)?;
    Ok(key)
}
