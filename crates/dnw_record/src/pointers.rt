//! The compression pointers that names in the data of records follow.
ghost use Rattle.std.specs.Prelude.{◌≡◌, ℕ, List, IfSome, IfNone};
ghost use Rattle.dnw_base.specs.declared.error.DecodeError.{DecodeError};
ghost use Rattle.dnw_name_read.specs.Reading.{TakesName};
ghost use Rattle.dnw_data.specs.Fields.{FailsName};
ghost use Rattle.dnw_record.specs.Inside.Copying.{IsNoName};
ghost use Rattle.dnw_record.specs.DataPointers.{FieldFollows, IsNoField, TakesDataPointers};

use crate::record_ref::RecordRef;
use dnw_base::decoder::BinDecoder;
use dnw_data::field::Field;
use dnw_data::kind::Kind;
use dnw_name::name_ref::NameRef;
use dnw_name_read::walk::ReadSteps;

/// Takes the compression pointers that the names in a record's data follow from those that are `left`. Returns how many are left
/// then, or `None` if they are too few.
///
/// One name may follow thousands of pointers, and each record of a message may have such a name. Who reads the data of many records
/// of others calls this for each of them first, and stops at `None`: so the time that all take is linear in their octets and in the
/// number of pointers that is allowed. `dnw_base::limits::MAX_POINTERS` is far more than ordinary messages need.
///
/// Fields are read up to the first that is none of its kind. It does not allocate.
pub fn pointers_left(item: &RecordRef<'_>, left: usize) -> Option<usize>
    ensures { TakesDataPointers item.now left result }
{
    let mut reader = item.data_decoder();
    let mut kinds = item.kinds();
    let mut now = left;
    'fields: while let Some((kind, others)) = kinds.split_first() {
        let Some(followed) = pass_field(*kind, &mut reader) else {
            return Some(now);
        };
        if followed > now {
            return None;
        }
        now -= followed;
        kinds = others;
    }
    Some(now)
}

/// Passes the field of this kind at the cursor, and returns how many pointers it follows.
fn pass_field(kind: Kind, reader: &mut BinDecoder<'_>) -> Option<usize>
    ensures some { IfSome result (FieldFollows kind reader.old reader.new) }
    ensures none { IfNone result (IsNoField kind reader.old) }
{
    match kind {
        Kind::Name(_) => pass_name(reader),
        _ => pass_own(kind, reader),
    }
}

/// Passes the name at the cursor, and returns how many pointers it follows.
fn pass_name(reader: &mut BinDecoder<'_>) -> Option<usize>
    ensures some { IfSome result (λ k. (labels : List (List ℕ)) × TakesName reader.old reader.new labels k) }
    ensures none { IfNone result ((error : DecodeError) × FailsName reader.old error) }
{
    let mut steps = ReadSteps::default();
    match NameRef::read_counted(reader, &mut steps) {
        Ok(_) => Some(steps.pointers),
        Err(_) => None,
    }
}

/// Passes the field of this kind at the cursor, which is no name.
fn pass_own(kind: Kind, reader: &mut BinDecoder<'_>) -> Option<usize>
    requires { IsNoName kind }
    ensures some { IfSome result (FieldFollows kind reader.old reader.new) }
    ensures none { IfNone result (IsNoField kind reader.old) }
{
    match Field::read(kind, reader) {
        Ok(_) => {}
        Err(_) => return None,
    }
    Some(0)
}
