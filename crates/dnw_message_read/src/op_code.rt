//! Kinds of query.
ghost use Rattle.std.specs.Prelude.{◌≡◌};
ghost use Rattle.dnw_message_read.specs.OpCodes.{op_entry, op_code, op_of_code};

use dnw_base::of_table;

/// What a message asks for (RFC 6895, section 2.2).
///
/// Each has a code of four bits. `Unknown` of a code that has a name is another value than the named one.
#[derive(Debug, Clone, Copy, PartialEq, Eq)]
pub enum OpCode {
    /// A question (RFC 1035, section 4.1.1).
    Query,
    /// The status of a server (RFC 1035, section 4.1.1).
    Status,
    /// A zone has changed (RFC 1996).
    Notify,
    /// Records are to be changed (RFC 2136).
    Update,
    /// An operation without a name here, by its code.
    Unknown(u8),
}

/// The table of the operations, by their codes.
macro_rules! ops {
    ($($asked:tt)*) => {
        of_table! {
            OpCode {
                Query = 0,
                Status = 2,
                Notify = 4,
                Update = 5,
            }
            $($asked)*
        }
    };
}

impl OpCode {
    /// Returns the code of the operation, as `u8::from` does.
    #[inline]
    pub fn code(self) -> u8
        ensures { result ≡ op_code self }
    {
        u8::from(self)
    }

    /// Returns the name of the operation, as IANA's registry spells it, or `Unknown`, as `<&str>::from` does.
    #[inline]
    pub fn name(self) -> &'static str
        ensures { result.now ≡ (op_entry self).name }
    {
        <&str>::from(self)
    }
}

/// The name of an operation, as IANA's registry spells it, or `Unknown`.
impl From<OpCode> for &'static str {
    ghost use Rattle.std.specs.Prelude.{◌≡◌};
    ghost use Rattle.dnw_message_read.specs.OpCodes.{op_entry};

    ghost from_gives = { λ op name. name.now ≡ (op_entry op).name };

    fn from(rt: OpCode) -> &'static str {
        ops!(name_of rt, OpCode::Unknown(_) => "Unknown",)
    }
}

/// The operation with a code: the named one, or `Unknown`.
impl From<u8> for OpCode {
    ghost use Rattle.std.specs.Prelude.{◌≡◌};
    ghost use Rattle.dnw_message_read.specs.OpCodes.{op_code, op_of_code};

    ghost from_gives = { λ code op. op ≡ op_of_code code };

    #[tactic(auto, unfolding(crate::specs::OpCodes::op_of_code))]
    fn from(value: u8) -> Self
        ensures gives { result ≡ op_of_code value }
        ensures code { op_code result ≡ value }
    {
        ops!(by_code value)
    }
}

/// The code of an operation.
impl From<OpCode> for u8 {
    ghost use Rattle.std.specs.Prelude.{◌≡◌};
    ghost use Rattle.dnw_message_read.specs.OpCodes.{op_code};

    ghost from_gives = { λ op code. code ≡ op_code op };

    fn from(rt: OpCode) -> u8 {
        ops!(code_of rt, OpCode::Unknown(code) => code,)
    }
}
