//! How a request went.
ghost use Rattle.std.specs.Prelude.{◌≡◌};
ghost use Rattle.dnw_message_read.specs.ResponseCodes.{response_entry, response_code, response_of_code};

use dnw_base::of_table;

/// How a request went (RFC 6895, section 2.3).
///
/// Each has a code. A header has its low four bits, and an `OPT` record the eight bits above them (RFC 6891, section
/// 6.1.3). `Unknown` of a code that has a name is another value than the named one.
#[derive(Debug, Clone, Copy, PartialEq, Eq)]
pub enum ResponseCode {
    /// No error (RFC 1035, section 4.1.1).
    NoError,
    /// The request could not be read (RFC 1035, section 4.1.1).
    FormErr,
    /// The server failed (RFC 1035, section 4.1.1).
    ServFail,
    /// The name does not exist (RFC 1035, section 4.1.1).
    NXDomain,
    /// The request is of a kind that the server does not know (RFC 1035, section 4.1.1).
    NotImp,
    /// The server refuses (RFC 1035, section 4.1.1).
    Refused,
    /// A name exists that should not (RFC 2136, section 2.2).
    YXDomain,
    /// A set of records exists that should not (RFC 2136, section 2.2).
    YXRRSet,
    /// A set of records that should exist does not (RFC 2136, section 2.2).
    NXRRSet,
    /// The server is not authoritative for the zone (RFC 2136, section 2.2), or does not allow the request (RFC 8945,
    /// section 4.2).
    NotAuth,
    /// A name is not in the zone (RFC 2136, section 2.2).
    NotZone,
    /// The version of EDNS is not known (RFC 6891, section 6.1.3). Its code is 16, as that of `BADSIG`.
    BADVERS,
    /// The signature of a transaction is wrong (RFC 8945, section 3). Its code is 16, as that of `BADVERS`.
    BADSIG,
    /// The key is not known (RFC 8945, section 3).
    BADKEY,
    /// The time of the signature is too far from the server's (RFC 8945, section 3).
    BADTIME,
    /// The mode of the key is not supported (RFC 2930, section 2.6).
    BADMODE,
    /// The name of the key is taken (RFC 2930, section 2.6).
    BADNAME,
    /// The algorithm is not supported (RFC 2930, section 2.6).
    BADALG,
    /// The signature is cut too short (RFC 8945, section 3).
    BADTRUNC,
    /// The cookie is missing or wrong (RFC 7873, section 8).
    BADCOOKIE,
    /// A code without a name here.
    Unknown(u16),
}

/// The table of the responses, by their codes.
macro_rules! responses {
    ($($asked:tt)*) => {
        of_table! {
            ResponseCode {
                NoError = 0,
                FormErr = 1,
                ServFail = 2,
                NXDomain = 3,
                NotImp = 4,
                Refused = 5,
                YXDomain = 6,
                YXRRSet = 7,
                NXRRSet = 8,
                NotAuth = 9,
                NotZone = 10,
                BADVERS = 16,
                BADKEY = 17,
                BADTIME = 18,
                BADMODE = 19,
                BADNAME = 20,
                BADALG = 21,
                BADTRUNC = 22,
                BADCOOKIE = 23,
            }
            $($asked)*
        }
    };
}

impl ResponseCode {
    /// Returns the code of the response, as `u16::from` does.
    #[inline]
    pub fn code(self) -> u16
        ensures { result ≡ response_code self }
    {
        u16::from(self)
    }

    /// Returns the name of the response, as IANA's registry spells it, or `Unknown`, as `<&str>::from` does.
    #[inline]
    pub fn name(self) -> &'static str
        ensures { result.now ≡ (response_entry self).name }
    {
        <&str>::from(self)
    }
}

/// The name of a response, as IANA's registry spells it, or `Unknown`.
impl From<ResponseCode> for &'static str {
    ghost use Rattle.std.specs.Prelude.{◌≡◌};
    ghost use Rattle.dnw_message_read.specs.ResponseCodes.{response_entry};

    ghost from_gives = { λ response name. name.now ≡ (response_entry response).name };

    fn from(rt: ResponseCode) -> &'static str {
        responses!(name_of rt,
            ResponseCode::BADSIG => "BADSIG",
            ResponseCode::Unknown(_) => "Unknown",
        )
    }
}

/// The response with a code: the named one, `BADVERS` for 16, or `Unknown`.
impl From<u16> for ResponseCode {
    ghost use Rattle.std.specs.Prelude.{◌≡◌};
    ghost use Rattle.dnw_message_read.specs.ResponseCodes.{response_code, response_of_code};

    ghost from_gives = { λ code response. response ≡ response_of_code code };

    #[tactic(auto, unfolding(crate::specs::ResponseCodes::response_of_code))]
    fn from(value: u16) -> Self
        ensures gives { result ≡ response_of_code value }
        ensures code { response_code result ≡ value }
    {
        responses!(by_code value)
    }
}

/// The code of a response.
impl From<ResponseCode> for u16 {
    ghost use Rattle.std.specs.Prelude.{◌≡◌};
    ghost use Rattle.dnw_message_read.specs.ResponseCodes.{response_code};

    ghost from_gives = { λ response code. code ≡ response_code response };

    fn from(rt: ResponseCode) -> u16 {
        responses!(code_of rt,
            ResponseCode::BADSIG => 16,
            ResponseCode::Unknown(code) => code,
        )
    }
}
