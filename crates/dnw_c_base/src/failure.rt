//! Why a call fails.
ghost use Rattle.std.specs.Prelude.{◌≡◌, ◌≢◌, ◌≤◌, length, IfSome, IfNone};
ghost use Rattle.dnw_c_base.specs.declared.failure.Failure.{Failure};
ghost use Rattle.dnw_c_base.specs.declared.failure.Failure.TheVariants.{NoMemory};
ghost use Rattle.dnw_c_base.specs.Failures.{HasText, number, failure_text, of_decode, of_proto};

use dnw_base::error::{DecodeError, ProtoError};
use std::alloc::{AllocError, AllocFailed};

/// Why a call fails. In the header each has its number, from 1 on in this order.
#[derive(Clone, Copy)]
pub enum Failure {
    /// Memory ran out.
    NoMemory = 1,
    /// The result is longer than the buffer that it was to go into.
    NoRoom,
    /// The message ends within the name, or before it.
    MessageCut,
    /// A compression pointer does not point back.
    PointerNotBack,
    /// A label begins with an octet from 64 to 191.
    ReservedOctet,
    /// A segment of a name runs into the one that it was reached from.
    SegmentsOverlap,
    /// A name takes more than 255 octets.
    NameTooLong,
    /// A label takes more than 63 octets.
    LabelTooLong,
    /// A text has a label, a character or an escape that is not allowed.
    BadText,
    /// A text is not UTF-8.
    NotUtf8,
    /// Bytes follow after the name.
    BytesLeft,
    /// A message would go past its maximum.
    MessageTooLong,
    /// Another cause, which no call reports today.
    Other,
    /// A text is the name of no record type, or of no class.
    UnknownText,
    /// Two serial numbers are so far apart that neither comes after the other.
    NotOrdered,
    /// A bitmap has an octet or a bit that no window allows, or is longer than a record's data can be.
    BadBitmap,
    /// A text is no time to live, or one of too many seconds.
    BadTime,
    /// A text ends within an escape, or after a carriage return.
    TextCut,
    /// A character of a text stands where it may not.
    IllegalCharacter,
    /// A text has a control character that is not white space.
    ControlCharacter,
    /// A text ends in a list, before its closing parenthesis.
    UnclosedList,
    /// A text ends in a quoted text, before its closing quote.
    UnclosedQuote,
    /// A `$` begins none of the control entries.
    UnknownEntry,
    /// The octets of the name in a record's data are not as many as the data.
    WrongDataLength,
    /// An address has neither 4 nor 16 bytes.
    BadAddress,
    /// A name is not below `in-addr.arpa` or `ip6.arpa` as the name of an address or a net is.
    NotReverse,
    /// A list of items has one of no kind, or one that is cut or that is no name or record.
    BadItem,
    /// A label of a text has no character.
    EmptyLabel,
    /// An escape of a text is not three decimal digits up to 255.
    BadEscape,
    /// The names of a message follow more pointers than the caller allows.
    TooManyPointers,
    /// A message has more than one `OPT` record.
    DuplicateEdns,
    /// An `OPT` record is not owned by the root.
    OwnerNotRoot,
    /// An option of an `OPT` record is not all there.
    CutOption,
    /// Service parameters are not in ascending order.
    BadParams,
    /// A text or octets that are not data of the record type, or too many octets of them.
    BadData,
    /// A record is no RRSIG.
    NotRrsig,
    /// There is no record that an RRSIG covers.
    NotCovered,
    /// The owner of an RRSIG has fewer labels than the RRSIG counts.
    TooFewLabels,
    /// The data of a record, with their names whole, are longer than two octets can say.
    DataTooLong,
    /// An `OPT` record is among the answers or the authorities.
    OutsideAdditionals,
    /// The octets are not the data of a DNSKEY.
    NotDnskey,
    /// The digest type or the hash algorithm is none that is known.
    UnknownAlgorithm,
    /// A name would be hashed more often than the caller allows.
    TooManyIterations,
    /// An address prefix or a gateway is none of its family or type.
    BadFamily,
}

/// The table of the failures: each with its number in C and a text about it. The rule that is named gets the rows, after
/// what it is asked about.
macro_rules! failures {
    ($rule:ident $asked:expr) => {
        $rule! { $asked =>
            NoMemory = 1, "out of memory";
            NoRoom = 2, "the buffer for the result is too short";
            MessageCut = 3, "the message ends within the name";
            PointerNotBack = 4, "a compression pointer does not point back";
            ReservedOctet = 5, "an octet from 64 to 191 begins no label";
            SegmentsOverlap = 6, "a name runs into the name that points to it";
            NameTooLong = 7, "a name of more than 255 octets";
            LabelTooLong = 8, "a label of more than 63 octets";
            BadText = 9, "a label, a character or an escape of the text is not allowed";
            NotUtf8 = 10, "the text is not UTF-8";
            BytesLeft = 11, "bytes follow after the name";
            MessageTooLong = 12, "the message would be longer than its maximum";
            Other = 13, "another failure";
            UnknownText = 14, "the text names no record type and no class";
            NotOrdered = 15, "neither serial number comes after the other";
            BadBitmap = 16, "the bitmap is out of bounds";
            BadTime = 17, "the text is no time to live";
            TextCut = 18, "the text ends within an escape or a line's end";
            IllegalCharacter = 19, "a character stands where it may not";
            ControlCharacter = 20, "the text has a control character";
            UnclosedList = 21, "the text ends before the ) of a list";
            UnclosedQuote = 22, "the text ends before a closing quote";
            UnknownEntry = 23, "no control entry has this name";
            WrongDataLength = 24, "the data of the record are not as long as their name";
            BadAddress = 25, "an address has 4 or 16 bytes";
            NotReverse = 26, "the name is no reverse name of an address or a net";
            BadItem = 27, "an item of the list is malformed";
            EmptyLabel = 28, "a label of the text is empty";
            BadEscape = 29, "an escape of the text is not three digits up to 255";
            TooManyPointers = 30, "the names follow more pointers than the caller allows";
            DuplicateEdns = 31, "the message has more than one OPT record";
            OwnerNotRoot = 32, "the OPT record is not owned by the root";
            CutOption = 33, "an option of the OPT record is cut";
            BadParams = 34, "the service parameters are not in ascending order";
            BadData = 35, "not data of the record type";
            NotRrsig = 36, "the record is no RRSIG";
            NotCovered = 37, "the RRSIG covers none of the records";
            TooFewLabels = 38, "the owner has fewer labels than the RRSIG counts";
            DataTooLong = 39, "the data of a record, or a text in them, are too long";
            OutsideAdditionals = 40, "an OPT record is outside the additional section";
            NotDnskey = 41, "the octets are no data of a DNSKEY";
            UnknownAlgorithm = 42, "the digest type or hash algorithm is not known";
            TooManyIterations = 43, "more iterations than the caller allows";
            BadFamily = 44, "an address prefix or a gateway is none of its family or type";
        }
    };
}

macro_rules! with_number {
    ($number:expr => $($failure:ident = $code:literal, $text:literal;)*) => {
        match $number {
            $($code => Some(Failure::$failure),)*
            _ => None,
        }
    };
}

macro_rules! text_about {
    ($of:expr => $($failure:ident = $code:literal, $text:literal;)*) => {
        match $of {
            $(Failure::$failure => $text,)*
        }
    };
}

impl Failure {
    /// Returns its number in C.
    pub fn number(self) -> u32
        ensures { result ≡ number self }
    {
        self as u32
    }

    /// Returns the failure with this number.
    pub fn from_number(code: u32) -> Option<Self>
        ensures some { IfSome result (λ failure. number failure ≡ code) }
        ensures none { IfNone result ((failure : Failure) → number failure ≢ code) }
    {
        failures!(with_number code)
    }

    /// Returns a text about it, for people.
    pub fn text(self) -> &'static str
        ensures text { result.now ≡ failure_text self }
        ensures few { length result.now ≤ 64 }
    {
        failures!(text_about self)
    }
}

/// Returns why a name or a field of a message is rejected.
pub fn of_decode(error: &DecodeError) -> Failure
    ensures { result ≡ of_decode error.now }
{
    match error {
        DecodeError::InsufficientBytes => Failure::MessageCut,
        DecodeError::PointerNotPriorToLabel { idx: _, ptr: _ } => Failure::PointerNotBack,
        DecodeError::UnrecognizedLabelCode(_) => Failure::ReservedOctet,
        DecodeError::LabelOverlapsWithOther { label: _, other: _ } => Failure::SegmentsOverlap,
        DecodeError::DomainNameTooLong(_) => Failure::NameTooLong,
        DecodeError::LabelBytesTooLong(_) => Failure::LabelTooLong,
        DecodeError::Memory => Failure::NoMemory,
        DecodeError::IncorrectRDataLengthRead { read: _, len: _ } => Failure::WrongDataLength,
        DecodeError::DuplicateEdns => Failure::DuplicateEdns,
        DecodeError::RecordNotInAdditionalSection(_) => Failure::OutsideAdditionals,
        DecodeError::NsecBitmapOutOfBounds => Failure::BadBitmap,
        DecodeError::SvcParamsOutOfOrder => Failure::BadParams,
        DecodeError::UnknownAddressFamily(_) => Failure::BadFamily,
        _ => Failure::Other,
    }
}

/// Returns why a text is rejected or a write fails.
pub fn of_proto(error: &ProtoError) -> Failure
    ensures { result ≡ of_proto error.now }
{
    match error {
        ProtoError::Decode(cause) => of_decode(cause),
        ProtoError::Message(_) | ProtoError::Msg(_) => Failure::BadText,
        ProtoError::MaxBufferSizeExceeded(_) => Failure::MessageTooLong,
        ProtoError::Memory => Failure::NoMemory,
        _ => Failure::Other,
    }
}

impl From<DecodeError> for Failure {
    ghost from_gives = { λ error failure. failure ≡ of_decode error };

    fn from(error: DecodeError) -> Failure {
        of_decode(&error)
    }
}

impl From<ProtoError> for Failure {
    ghost from_gives = { λ error failure. failure ≡ of_proto error };

    fn from(error: ProtoError) -> Failure {
        of_proto(&error)
    }
}

impl<T: Drop> From<AllocFailed<T>> for Failure {
    ghost from_gives = { λ _ failure. failure ≡ NoMemory };

    fn from(_error: AllocFailed<T>) -> Failure {
        Failure::NoMemory
    }
}

impl From<AllocError> for Failure {
    ghost from_gives = { λ _ failure. failure ≡ NoMemory };

    fn from(_error: AllocError) -> Failure {
        Failure::NoMemory
    }
}

/// Returns the text for a number, which is empty for a number that stands for nothing.
pub fn text_of(code: u32) -> &'static str
    ensures text { HasText code result.now }
    ensures few { length result.now ≤ 64 }
{
    match Failure::from_number(code) {
        Some(failure) => failure.text(),
        None if code == 0 => "success",
        None => "",
    }
}
