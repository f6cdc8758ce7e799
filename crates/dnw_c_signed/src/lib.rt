//! The functions of the C library for what signatures cover, for the sums of DNSSEC, and for the order of records.
//! `include/dns_names_wire.h` says what each takes and returns, and `tools/c-library` joins them with those of `dnw_c_names`.
//!
//! A slice is passed as a pointer and then a length, and results are put into buffers of the caller. Every input is tested,
//! whatever the caller promises, and nothing is kept from one call to the next. Read `specs/SigningCalls.antt` first: what a
//! call puts.
#![tactic(auto)]

/// Sort keys of records.
pub mod record_keys;
/// Records of a message.
pub mod records;
/// The octets that a signature covers.
pub mod signing;
/// The sums of DNSSEC.
pub mod sums;
/// The digest of a zone.
pub mod zones;
/// Checks of zones.
pub mod zone_checks;
