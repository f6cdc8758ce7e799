//! The codes of options.
ghost use Rattle.std.specs.Prelude.{◌≡◌};
ghost use Rattle.dnw_message_read.specs.Codes.{option_code, option_of_code};

use dnw_base::of_table;

/// What an option is, by IANA's registry "DNS EDNS0 Option Codes (OPT)".
///
/// Each has a code of 16 bits. `Unknown` of a code that has a name here is another value than the named one.
#[derive(Debug, Clone, Copy, PartialEq, Eq)]
pub enum OptionCode {
    /// The identifier of a server (RFC 5001).
    Nsid,
    /// The network of a client (RFC 7871).
    ClientSubnet,
    /// The time after which a zone expires (RFC 7314).
    Expire,
    /// Cookies of a client and a server (RFC 7873).
    Cookie,
    /// How long a connection over TCP is kept (RFC 7828).
    TcpKeepalive,
    /// Octets that say nothing (RFC 7830).
    Padding,
    /// Where a chain of signatures starts (RFC 7901).
    Chain,
    /// An extended DNS error (RFC 8914).
    ExtendedError,
    /// The domain of an agent that errors are reported to (RFC 9567).
    ReportChannel,
    /// The version of a zone (RFC 9660).
    ZoneVersion,
    /// An option without a name here, by its code.
    Unknown(u16),
}

/// The table of the options, by their codes.
macro_rules! options {
    ($($asked:tt)*) => {
        of_table! {
            OptionCode {
                Nsid = 3,
                ClientSubnet = 8,
                Expire = 9,
                Cookie = 10,
                TcpKeepalive = 11,
                Padding = 12,
                Chain = 13,
                ExtendedError = 15,
                ReportChannel = 18,
                ZoneVersion = 19,
            }
            $($asked)*
        }
    };
}

/// The option with a code: the named one, or `Unknown`.
impl From<u16> for OptionCode {
    ghost use Rattle.std.specs.Prelude.{◌≡◌};
    ghost use Rattle.dnw_message_read.specs.Codes.{option_code, option_of_code};

    ghost from_gives = { λ code option. option ≡ option_of_code code };

    #[tactic(auto, unfolding(crate::specs::Codes::option_of_code))]
    fn from(value: u16) -> Self
        ensures gives { result ≡ option_of_code value }
        ensures code { option_code result ≡ value }
    {
        options!(by_code value)
    }
}

/// The code of an option.
impl From<OptionCode> for u16 {
    ghost use Rattle.std.specs.Prelude.{◌≡◌};
    ghost use Rattle.dnw_message_read.specs.Codes.{option_code};

    ghost from_gives = { λ option code. code ≡ option_code option };

    fn from(rt: OptionCode) -> u16 {
        options!(code_of rt, OptionCode::Unknown(code) => code,)
    }
}
