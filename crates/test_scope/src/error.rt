//! Module `error`: each variant of each error, with its fields, its text, its copy and what converts into it.

use crate::bounds::{is_debug, is_display, is_eq};
use dns_names_wire::codes::RecordType;
use dns_names_wire::error::{
    DecodeError, LexerError, ParseError, ParseResult, ProtoError, ProtoResult,
};
use dns_names_wire::txt::Token;
use std::alloc::{AllocError, Global};
use std::test::Fail;

/// Returns an allocated text.
fn text(alloc: Global) -> Result<String, AllocError> {
    String::from_str(alloc, "text")
}

/// Returns a copy of each error, as text.
fn proto_texts(alloc: Global, errors: &[ProtoError]) -> Result<Vec<String>, Fail> {
    let mut texts = Vec::new(alloc);
    for error in errors {
        let copy: Result<ProtoError, ProtoError> = error.clone();
        texts.push(copy?.to_string(alloc)?)?;
    }
    Ok(texts)
}

#[test]
fn errors_of_the_wire_layer(rt: HostRuntime) -> Result<(), Fail> {
    let alloc = rt.alloc();
    is_debug::<ProtoError>();
    is_display::<ProtoError>();
    let errors = [
        ProtoError::CharacterDataTooLong {
            max: 255usize,
            len: 256usize,
        },
        ProtoError::Decode(DecodeError::InsufficientBytes),
        ProtoError::MaxBufferSizeExceeded(5usize),
        ProtoError::Message("fixed"),
        ProtoError::Msg(text(alloc)?),
        ProtoError::NotAllRecordsWritten { count: 2usize },
        ProtoError::NotAResponse,
        ProtoError::Utf8,
        ProtoError::FromUtf8,
        ProtoError::ParseInt,
        ProtoError::Memory,
    ];
    let texts = proto_texts(alloc, &errors)?;
    assert_eq!(rt; texts.len(), 11);
    assert_eq!(rt; texts[0].as_str(), "char data length exceeds 255: 256");
    assert_eq!(rt;
        texts[1].as_str(),
        "decoding error: unexpected end of input reached"
    );
    assert_eq!(rt; texts[2].as_str(), "maximum buffer size exceeded: 5");
    assert_eq!(rt; texts[3].as_str(), "fixed");
    assert_eq!(rt; texts[4].as_str(), "text");
    assert_eq!(rt;
        texts[5].as_str(),
        "not all records could be written, wrote: 2"
    );
    assert_eq!(rt; texts[10].as_str(), "out of memory");
    Ok(())
}

/// Returns the text of a copy of each error.
fn decode_texts(alloc: Global, errors: &[DecodeError]) -> Result<Vec<String>, Fail> {
    let mut texts = Vec::new(alloc);
    for error in errors {
        let copy: Result<DecodeError, DecodeError> = error.clone();
        texts.push(copy?.to_string(alloc)?)?;
    }
    Ok(texts)
}

#[test]
fn errors_of_reading_names(rt: HostRuntime) -> Result<(), Fail> {
    let alloc = rt.alloc();
    is_debug::<DecodeError>();
    is_display::<DecodeError>();
    let errors = [
        DecodeError::InsufficientBytes,
        DecodeError::PointerNotPriorToLabel {
            idx: 2usize,
            ptr: 0u16,
        },
        DecodeError::LabelBytesTooLong(64usize),
        DecodeError::UnrecognizedLabelCode(64u8),
        DecodeError::DomainNameTooLong(256usize),
        DecodeError::LabelOverlapsWithOther {
            label: 0usize,
            other: 2usize,
        },
        DecodeError::NsecBitmapOutOfBounds,
        DecodeError::Memory,
    ];
    let texts = decode_texts(alloc, &errors)?;
    let wanted = [
        "unexpected end of input reached",
        "label points to data not prior to idx: 2 ptr: 0",
        "label bytes exceed 63: 64",
        "unrecognized label code: 1000000",
        "name label data exceed 255: 256",
        "overlapping labels name 0 other 2",
        "NSEC bitmap out of bounds",
        "out of memory",
    ];
    for at in 0..wanted.len() {
        assert_eq!(rt; texts[at].as_str(), wanted[at]);
    }
    Ok(())
}

#[test]
fn errors_of_reading_records(rt: HostRuntime) -> Result<(), Fail> {
    let alloc = rt.alloc();
    let errors = [
        DecodeError::IncorrectRDataLengthRead {
            read: 3usize,
            len: 4usize,
        },
        DecodeError::InvalidEmptyRecord,
        DecodeError::InvalidPreviousIndex,
        DecodeError::UnknownDigestAlgorithm(9u8),
        DecodeError::UnknownDnsClassStr(text(alloc)?),
        DecodeError::UnknownDnsClassValue(9u16),
        DecodeError::UnknownRecordTypeStr(text(alloc)?),
        DecodeError::UnknownRecordTypeValue(9u16),
        DecodeError::UnrecognizedNsec3Flags(2u8),
        DecodeError::UnrecognizedCsyncFlags(4u16),
        DecodeError::UnknownNsec3HashAlgorithm(9u8),
        DecodeError::RecordAfterSig,
        DecodeError::RecordNotInAdditionalSection(RecordType::OPT),
        DecodeError::DuplicateEdns,
        DecodeError::SvcParamsOutOfOrder,
        DecodeError::SvcParamMissingValue,
        DecodeError::CaaTagInvalid,
        DecodeError::NaptrFlagsInvalid,
        DecodeError::UnknownAddressFamily(9u16),
        DecodeError::Utf8,
    ];
    assert_eq!(rt; decode_texts(alloc, &errors)?.len(), 20);
    Ok(())
}

/// Returns the text of a copy of each error.
fn parse_texts(alloc: Global, errors: &[ParseError]) -> Result<Vec<String>, Fail> {
    let mut texts = Vec::new(alloc);
    for error in errors {
        let copy: Result<ParseError, ParseError> = error.clone();
        texts.push(copy?.to_string(alloc)?)?;
    }
    Ok(texts)
}

#[test]
fn errors_of_texts(rt: HostRuntime) -> Result<(), Fail> {
    let alloc = rt.alloc();
    is_debug::<ParseError>();
    is_display::<ParseError>();
    let errors = [
        ParseError::CharToInt('x'),
        ParseError::Message("fixed"),
        ParseError::MissingToken(text(alloc)?),
        ParseError::Msg(text(alloc)?),
        ParseError::ParseTime(text(alloc)?),
        ParseError::UnexpectedToken(Token::At),
        ParseError::Lexer(LexerError::UnclosedList),
        ParseError::ParseInt,
        ParseError::Proto(ProtoError::ParseInt),
        ParseError::UnknownRecordType(9u16),
        ParseError::UnsupportedRecordType(RecordType::A),
        ParseError::Memory,
    ];
    let texts = parse_texts(alloc, &errors)?;
    assert_eq!(rt; texts.len(), 12);
    assert_eq!(rt; texts[1].as_str(), "fixed");
    assert_eq!(rt; texts[3].as_str(), "text");
    assert_eq!(rt; texts[11].as_str(), "out of memory");
    Ok(())
}

#[test]
fn errors_of_the_lexer(rt: HostRuntime) -> Result<(), Fail> {
    is_debug::<LexerError>();
    is_display::<LexerError>();
    is_eq::<LexerError>();
    let errors = [
        LexerError::EOF,
        LexerError::IllegalCharacter(')'),
        LexerError::IllegalState("the lexer has failed"),
        LexerError::Message("fixed"),
        LexerError::UnclosedList,
        LexerError::UnclosedQuotedString,
        LexerError::UnrecognizedChar('x'),
        LexerError::UnrecognizedDollar(text(rt.alloc())?),
        LexerError::UnrecognizedOctet(9u32),
        LexerError::Memory,
    ];
    for error in errors.iter() {
        let copy: Result<LexerError, LexerError> = error.clone();
        assert!(rt; copy.as_ref() == Ok(error));
        assert!(rt; !copy?.to_string(rt.alloc())?.is_empty());
    }
    Ok(())
}

#[test]
fn errors_are_made_of_texts_and_of_errors(rt: HostRuntime) -> Result<(), Fail> {
    let alloc = rt.alloc();
    let owned: ProtoError = ProtoError::from(text(alloc)?);
    let fixed: ProtoError = ProtoError::from("fixed");
    let decoded: ProtoError = ProtoError::from(DecodeError::DuplicateEdns);
    let result: ProtoResult<u8> = Err(owned);
    assert!(rt; matches!(result, Err(ProtoError::Msg(_))));
    assert!(rt; matches!(fixed, ProtoError::Message("fixed")));
    assert!(rt; matches!(decoded, ProtoError::Decode(DecodeError::DuplicateEdns)));
    let owned: ParseError = ParseError::from(text(alloc)?);
    let fixed: ParseError = ParseError::from("fixed");
    let decoded: ParseError = ParseError::from(DecodeError::DuplicateEdns);
    let of_proto: ParseError = ParseError::from(ProtoError::ParseInt);
    let of_lexer: ParseError = ParseError::from(LexerError::EOF);
    let result: ParseResult<u8> = Err(owned);
    assert!(rt; matches!(result, Err(ParseError::Msg(_))));
    assert!(rt; matches!(fixed, ParseError::Message("fixed")));
    assert!(rt;
        matches!(
            decoded,
            ParseError::Proto(ProtoError::Decode(DecodeError::DuplicateEdns))
        )
    );
    assert!(rt; matches!(of_proto, ParseError::Proto(ProtoError::ParseInt)));
    assert!(rt; matches!(of_lexer, ParseError::Lexer(LexerError::EOF)));
    Ok(())
}
