//! The lowest layer of DNS, proved: names, labels and the binary wire format.
//!
//! The types that callers name most stand at the root; each module has all that belongs together, by upstream's paths. The
//! words of the contracts are those of `specs/Words.antt`, which is the file to read first.
#![tactic(auto)]

pub use dnw_base::decoder::BinDecoder;
pub use dnw_base::dns_class::DNSClass;
pub use dnw_base::error::{DecodeError, ProtoError, ProtoResult};
pub use dnw_base::record_type::RecordType;
pub use dnw_base::restrict::Restrict;
pub use dnw_base::serial_number::SerialNumber;
pub use dnw_data::record_type_set::RecordTypeSet;
pub use dnw_name::binary::BinDecodable;
pub use dnw_name::name::Name;
pub use dnw_name::name_ref::NameRef;
pub use dnw_name_arpa::net::{IpNet, Ipv4Net, Ipv6Net};
pub use dnw_name_form::label::{IntoLabel, Label};
pub use dnw_name_zones::into_name::IntoName;
pub use dnw_name_zones::lower_name::LowerName;
pub use dnw_name_zones::rr_key::RrKey;
pub use dnw_name_zones::usage::ZoneUsage;
pub use dnw_record::record_ref::RecordRef;
pub use dnw_write::binary::BinEncodable;
pub use dnw_write::encoder::{BinEncoder, NameEncoding, Place, RDataEncoding};
pub use dnw_write_script::wire_record::{WireData, WireRecord};

/// Types that are read from messages or written into them.
pub mod binary {
    pub use dnw_name::binary::BinDecodable;
    pub use dnw_write::binary::{BinEncodable, EncodedSize};
}

/// Types that are read from the data of a record.
pub mod record_data {
    pub use dnw_data::record_data::RecordDataDecodable;
}

/// Codes: types and classes of records, sets of types, serial numbers, and types that are read from the data of a record.
pub mod codes {
    pub use dnw_base::code_text::{CodeText, MAX_CODE_TEXT};
    pub use dnw_base::dns_class::DNSClass;
    pub use dnw_base::record_type::RecordType;
    pub use dnw_base::serial_number::SerialNumber;
    pub use dnw_data::record_data::RecordDataDecodable;
    pub use dnw_data::record_type_set::{RecordTypeSet, TypeIter};
}

/// Records in canonical form: the octets that a signature covers, and what follows from their definitions.
pub mod canonical {
    pub use dnw_record::pointers::pointers_left;
    pub use dnw_signed::canonical::{record_set, signed_fields};
    pub use dnw_signed::covering::signed_octets;
    pub use dnw_signed::error::CanonicalError;
    pub use dnw_signed::fields::canonical_octets;
    pub use dnw_signed::laws;
    pub use dnw_signed::record_key::record_key;
}

/// What follows from the tables of types and classes, for callers' proofs.
pub mod code_laws;

/// The text of records and their data in master files, by the table of fields and in the form that any data have.
pub mod data_text {
    pub use dnw_zone_data::data_text::{data_text, parse};
    pub use dnw_zone_data::error::{DataTextError, Wanted};
    pub use dnw_zone_data::generic::Generic;
    pub use dnw_zone_record::entry::{RecordEntryError, parse_entry};
    pub use dnw_zone_record::laws;
    pub use dnw_zone_record::record_line::{RecordLineError, parse_record, record_text};
}

/// EDNS options, typed: read from their octets, written and shown, and what follows from their definitions.
pub mod edns_options {
    pub use dnw_message_read::code::OptionCode;
    pub use dnw_message_read::option::{OptionData, ZoneVersion};
    pub use dnw_message_read::option_error::OptionError;
    pub use dnw_message_read::option_laws as laws;
}

/// A cursor over the bytes of a message.
pub mod decoder {
    pub use dnw_base::decoder::BinDecoder;
}

/// The classes of records.
pub mod dns_class {
    pub use dnw_base::dns_class::DNSClass;
}

/// The sums that DNSSEC makes: key tags, digests of keys and of zones, hashed names, and which names a record covers.
pub mod dnssec {
    pub use dnw_signed::covers::{nsec_covers, nsec3_covers};
    pub use dnw_signed::ds::{Digest, MAX_DIGEST_LENGTH, ds_digest};
    pub use dnw_signed::error::DnssecError;
    pub use dnw_signed::key_tag::key_tag;
    pub use dnw_signed::nsec3::{NSEC3_HASH_LENGTH, NSEC3_LABEL_LENGTH, nsec3_hash, nsec3_label};
    pub use dnw_signed::zone_digest::zone_digest;
}

/// Writing messages of a bounded size, and what follows from the definitions of writing.
pub mod encoder {
    pub use dnw_write::encoder::{
        BinEncoder, CANDIDATE_LIMIT, Mark, ModalEncoder, NAME_LIMIT, NameEncoding, Place,
        RDataEncoding, laws,
    };
}

/// The errors of this layer.
pub mod error {
    pub use dnw_base::error::{DecodeError, ProtoError, ProtoResult};
    pub use dnw_zone_lexer::errors::{LexerError, ParseError, ParseResult};
}

/// Texts of single values in master files: numbers, octets, times, addresses and their prefixes, character strings, tags, hashed
/// names, identifiers of hardware and of nodes, and addresses of NSAP.
pub mod field_text {
    pub use dnw_zone_values::address::{parse_ipv4, parse_ipv6};
    pub use dnw_zone_values::base32::{Base32Hex, parse_hash};
    pub use dnw_zone_values::error::FieldTextError;
    pub use dnw_zone_values::laws;
    pub use dnw_zone_values::locator::{Locator, parse_locator};
    pub use dnw_zone_values::nsap::{Nsap, parse_nsap};
    pub use dnw_zone_values::number::{parse_u8, parse_u16, parse_u32, parse_u48};
    pub use dnw_zone_values::octets::{
        Base64, Hexadecimal, Salt, parse_base64, parse_hexadecimal, parse_salt,
    };
    pub use dnw_zone_values::pairs::{Pairs, parse_pairs};
    pub use dnw_zone_values::prefix::{parse_prefix, write_prefix};
    pub use dnw_zone_values::string::{CharacterString, parse_string, parse_text};
    pub use dnw_zone_values::tag::{parse_tag, tag_text};
    pub use dnw_zone_values::time::{parse_time, time_text};
}

/// The fields of the data of records, by one table of record types, and what follows from their definitions.
pub mod fields {
    pub use dnw_data::field::Field;
    pub use dnw_data::fields::{FieldError, Fields};
    pub use dnw_data::kind::{Kind, ListKind, NameForm, Shape, Shown};
    pub use dnw_data::laws::{fields_are_walked, one_reading};
    pub use dnw_data::lists::{Item, Items};
    pub use dnw_data::shapes::Shaped;
    pub use dnw_data::table::{are_names_decompressed, fields_of};
}

/// Types that give a name: names, texts and addresses.
pub mod into_name {
    pub use dnw_name_zones::into_name::IntoName;
}

/// Labels, of which names are made.
pub mod label {
    pub use dnw_name_form::label::{CaseInsensitive, CaseSensitive, IntoLabel, Label, LabelCmp};
}

/// The limits of labels, names, records and messages.
pub mod limits {
    pub use dnw_base::limits::{
        MAX_CHARACTER_DATA, MAX_DATA, MAX_LABEL, MAX_MESSAGE, MAX_NAME, MAX_POINTERS, MIN_PAYLOAD,
    };
}

/// Domain names in lower case, as zones and caches are keyed.
pub mod lower_name {
    pub use dnw_name_zones::lower_name::LowerName;
}

/// Whole messages, which are checked once and read without a copy: headers, sections and EDNS.
pub mod message {
    pub use dnw_message_read::edns::{EdnsError, EdnsOption, EdnsOptions, EdnsRef};
    pub use dnw_message_read::error::{MessageError, MessageErrorKind, Section};
    pub use dnw_message_read::header::{Header, HeaderCounts, MessageType, Metadata};
    pub use dnw_message_read::items::{Queries, Records};
    pub use dnw_message_read::laws;
    pub use dnw_message_read::message::{MessageRef, SectionOffsets};
    pub use dnw_message_read::op_code::OpCode;
    pub use dnw_message_read::query::QueryRef;
    pub use dnw_message_read::response_code::ResponseCode;
}

/// Messages from lists of items: which sets of records are left out if they have no room, whether TC says so, and what comes last.
pub mod message_list {
    pub use dnw_message_writer::list::fill::fill_list;
    pub use dnw_message_writer::list::push::{
        Need, PushError, push_data, push_question, push_record,
    };
    pub use dnw_message_writer::list::writing::write_list;
    pub use dnw_message_writer::list::{ListError, Written};
}

/// Whole messages as text: in the layout of `dig`, and as JSON (RFC 8427).
pub mod message_text {
    pub use dnw_message_text::json::message_json;
    pub use dnw_message_text::text::message_text;
}

/// Messages written item by item into a buffer of the caller: without an allocation, and with names that are compressed by hints,
/// each of which is checked by reading.
pub mod message_writer {
    pub use dnw_message_writer::copying::CopyError;
    pub use dnw_message_writer::data::{Pieces, pieces_of, whole_name};
    pub use dnw_message_writer::edns::{Edns, MAX_BLOCK};
    pub use dnw_message_writer::hints::SLOTS;
    pub use dnw_message_writer::laws;
    pub use dnw_message_writer::listed::DataError;
    pub use dnw_message_writer::needs::{Purpose, is_server};
    pub use dnw_message_writer::pieces::Piece;
    pub use dnw_message_writer::reply::{Asked, ReplyError, reply_code, takes_records};
    pub use dnw_message_writer::section::{Section, WriteError};
    pub use dnw_message_writer::set::{Data, cut_off};
    pub use dnw_message_writer::state::WriterState;
}

/// Domain names, owned and within a message, types that give a name, and what follows from the definitions of reading names.
pub mod name {
    pub use dnw_name::name::Name;
    pub use dnw_name::name_ref::NameRef;
    pub use dnw_name_arpa::laws::{names_give_prefixes, reverse_names_come_back};
    pub use dnw_name_form::label_iter::LabelIter;
    pub use dnw_name_read::laws;
    pub use dnw_name_read::ref_labels::RefLabels;
    pub use dnw_name_read::walk::ReadSteps;
    pub use dnw_name_zones::into_name::IntoName;
}

/// The texts of names in master files, which `Name::from_text` reads and `Name::to_text` prints: why a text gives no name, and that what is
/// printed is read as the same name.
pub mod name_text {
    pub use dnw_name_text::error::{NameTextError, NameTextRule};
    pub use dnw_name_text::laws::names_come_back;
}

/// Names within a message, which are walked without a copy.
pub mod name_ref {
    pub use dnw_name::name_ref::NameRef;
    pub use dnw_name_read::ref_labels::RefLabels;
    pub use dnw_name_read::walk::ReadSteps;
}

/// Nets of IP addresses.
pub mod net {
    pub use dnw_name_arpa::net::{IpNet, Ipv4Net, Ipv6Net};
}

/// The data of records of any type, and records that have them, by the table of `fields`.
pub mod rdata {
    pub use dnw_record::from_fields::FromFieldsError;
    pub use dnw_record::rdata::{RData, RDataError};
    pub use dnw_record::record::Record;
}

/// Resource records: written whole or not at all, and read without a copy.
pub mod record {
    pub use dnw_record::record_ref::RecordRef;
    pub use dnw_write_script::record_laws as laws;
    pub use dnw_write_script::wire_record::{WireData, WireRecord};
}

/// The types of records.
pub mod record_type {
    pub use dnw_base::record_type::RecordType;
}

/// The codes of the types that rules name, as numbers.
pub mod type_codes {
    pub use dnw_base::type_codes::{
        A, AAAA, ANY, AXFR, CNAME, DNAME, DS, IXFR, KEY, MX, NS, NSEC, NSEC3, NXT, OPT, PTR, RRSIG,
        SIG, SOA, SRV, TSIG, ZONEMD,
    };
}

/// Sets of record types, as NSEC, NSEC3 and CSYNC have them.
pub mod record_type_set {
    pub use dnw_data::record_type_set::{
        RecordTypeSet, TypeIter, bitmaps_list_bits, sets_come_back,
    };
}

/// Untrusted values, which have to be verified.
pub mod restrict {
    pub use dnw_base::restrict::{Restrict, RestrictedMath, Verified};
}

/// Keys of sets of records: a name and a type.
pub mod rr_key {
    pub use dnw_name_zones::rr_key::RrKey;
}

/// Scripts: messages written step by step.
pub mod script {
    pub use dnw_write_script::script::{Item, Part, Reply, Step, laws, run, run_limited};
}

/// Serial numbers of zones (RFC 1982).
pub mod serial_number {
    pub use dnw_base::serial_number::SerialNumber;
}

/// Sort keys of names, which compare as bytes as the names do in canonical order, and what follows from their definition; and
/// lists of names, sorted by them.
pub mod sort_key {
    pub use dnw_name_order::sort_key::{MAX_SORT_KEY_LENGTH, laws};
    pub use dnw_name_order::sorting::CanonicalOrder;
}

/// Where a text that gives no name by `Name::from_ascii` goes wrong. `Name::from_text` returns its own error, of [`name_text`].
pub mod text_fault {
    pub use dnw_name_text::ascii_fault::{TextFault, TextRule, fault_of};
}

/// What follows from the definitions of texts, for callers' proofs.
pub mod text_laws;

/// Times to live, and hickory-proto's lexer of master files (RFC 1035, section 5.1): a part of the port, which `data_text` does not use.
/// It does not say whether a token was quoted, and the escapes in its tokens are characters of Unicode.
pub mod txt {
    pub use dnw_zone_lexer::errors::{LexerError, ParseError, ParseResult};
    pub use dnw_zone_lexer::ttl::parse_ttl;
    pub use dnw_zone_lexer::zone_lex::{Lexer, Token};
}

/// Special-use zones: what is special about their names, and for whom (RFC 6761).
pub mod usage {
    pub use dnw_name_zones::usage::{
        AppUsage, AuthUsage, CacheUsage, OpUsage, RegistryUsage, ResolverUsage, UserUsage,
        ZoneUsage, default, in_addr_arpa, in_addr_arpa_127, in_addr_arpa_169_254, invalid,
        ip6_arpa, ip6_arpa_1, ip6_arpa_fe_8, ip6_arpa_fe_9, ip6_arpa_fe_b, local, localhost, onion,
    };
}

/// Zone files, entry by entry (RFC 1035, section 5; RFC 2308, section 4), with the place of each error.
pub mod zone {
    pub use dnw_zone_checks::checks::{CheckError, check_zone};
    pub use dnw_zone_checks::finding::{Check, Finding};
    pub use dnw_zone_file::context::Context;
    pub use dnw_zone_file::entry::{Entry, Include, ZoneRecord, entry_of};
    pub use dnw_zone_file::error::{ZoneError, ZoneRule};
    pub use dnw_zone_file::generate::{Generated, is_generate, take_generated};
    pub use dnw_zone_file::laws;
    pub use dnw_zone_file::place::{TextPlace, place_of};
    pub use dnw_zone_file::short_line::{append_origin, append_short_record, append_ttl};
    pub use dnw_zone_file::step::{Found, Step, take_entry};
    pub use dnw_zone_file::writer::append_record;
    pub use dnw_zone_file::zone_text::{OwnedRecord, ZoneTextError, read_records};
    pub use dnw_zone_record::scan::{Ending, is_indented, scan};
    pub use dnw_zone_record::word_error::WordRule;
}
