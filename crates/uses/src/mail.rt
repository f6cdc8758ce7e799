//! Makes the data of an MX record of a number and a name.
ghost use Rattle.std.specs.Prelude.{◌≡◌, [], ◌∷◌, None, IfErr, IfOk};
ghost use Rattle.dns_names_wire.specs.Words.{FieldsAre, alone, data_kinds, seen};

use dns_names_wire::fields::Field;
use dns_names_wire::rdata::{FromFieldsError, RData};
use dns_names_wire::{DNSClass, Name, RecordType};
use std::alloc::Global;

/// Returns the data of an MX record: how it is preferred, and where mail goes. Its fields are read as just these.
///
/// It fails only if an allocation fails.
pub fn mail_data(alloc: Global, preference: u16, exchange: &Name) -> Result<RData, FromFieldsError>
    ensures ok { IfOk result (λ r. FieldsAre 0 (data_kinds r) (alone r.octets)
        (seen (Field.U16 preference) ∷ seen (Field.Name exchange.now.labels) ∷ []) None) }
    ensures err { IfErr result (λ e. e ≡ FromFieldsError.Memory) }
{
    let fields = [Field::U16(preference), Field::Name(exchange.as_name_ref())];
    RData::from_fields(alloc, DNSClass::IN, RecordType::MX, &fields)
}
