//! What of the data of an RRSIG is before the name of its signer (RFC 4034, section 3.1).

/// The octets before that name: the type covered, the algorithm, the labels, the original time to live, the expiration, the inception
/// and the key tag.
pub const BEFORE_SIGNER: usize = 18;
