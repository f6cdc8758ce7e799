//! Kinds of field.

/// What a field of the data of a record is.
#[derive(Clone, Copy, Debug, PartialEq, Eq)]
pub enum Kind {
    /// A name, which may be read with pointers (RFC 1035, section 4.1.4).
    Name(NameForm),
    /// A number of one octet.
    U8,
    /// A number of two octets, the high one first, as all numbers (RFC 1035, section 2.3.2).
    U16,
    /// A number of four octets.
    U32,
    /// A number of six octets, an identifier of hardware (RFC 7043, section 3.1).
    U48,
    /// A number of eight octets, an identifier of hardware (RFC 7043, section 4.1).
    U64,
    /// An IPv4 address of four octets.
    Ipv4,
    /// An IPv6 address of 16 octets.
    Ipv6,
    /// A record type, by its code of two octets.
    TypeCode,
    /// A time of four octets, in seconds since 1970, as a serial number (RFC 4034, section 3.1.5).
    Time,
    /// A time of six octets, in seconds since 1970 (RFC 8945, section 4.2).
    LongTime,
    /// An identifier of a node or of an endpoint, or a locator, of eight octets (RFC 6742, sections 2.1.1 and 2.3.1).
    Locator,
    /// The number of a node, of eight octets (the template IPN of the registry).
    NodeNumber,
    /// An address of Chaosnet, of two octets (RFC 1035, section 3.6).
    ChaosAddress,
    /// A length octet and that many octets: a character string (RFC 1035, section 3.3), or octets that are shown otherwise.
    Counted(Shown),
    /// A length of two octets and that many octets (RFC 2930, sections 2.7 and 2.8; RFC 8945, section 4.2).
    LongCounted(Shown),
    /// Octets whose first ones say what follows them.
    Shaped(Shape),
    /// Octets up to the end.
    Octets(Shown),
    /// Items up to the end.
    List(ListKind),
}

/// How a name in the data of a record is written.
#[derive(Clone, Copy, Debug, PartialEq, Eq)]
pub enum NameForm {
    /// It may be compressed, and canonical form lowers it: names in the types of RFC 1035 (RFC 3597, section 4).
    Compressible,
    /// It is never compressed, and canonical form lowers it (RFC 4034, section 6.2, and RFC 6840, section 5.1).
    Lowered,
    /// It is never compressed, and canonical form leaves it as it is.
    Plain,
}

/// How octets are shown in text.
#[derive(Clone, Copy, Debug, PartialEq, Eq)]
pub enum Shown {
    /// As a character string (RFC 1035, section 5.1).
    Text,
    /// As letters and digits, without quotes (RFC 8659, section 4.1.1).
    Tag,
    /// In hexadecimal (RFC 4648, section 8).
    Hex,
    /// In base 32 with the extended hex alphabet, without padding (RFC 4648, section 7).
    Base32Hex,
    /// In base 64 (RFC 4648, section 4).
    Base64,
    /// In base 64, or as `-` if there are none (the template DOA of the registry).
    MaybeBase64,
    /// In hexadecimal after `0x`, with any dots (RFC 1706, section 5).
    Nsap,
    /// As the ports whose bits are set (RFC 1035, section 3.4.2).
    Ports,
    /// As the record types whose bits are set, of at most 128 types (RFC 2535, section 5.2).
    OldTypes,
}

/// What the items of a list are.
#[derive(Clone, Copy, Debug, PartialEq, Eq)]
pub enum ListKind {
    /// Character strings, at least one (RFC 1035, section 3.3.14).
    Texts,
    /// The windows of a bitmap of record types (RFC 4034, section 4.1.2).
    Types,
    /// Service parameters (RFC 9460, section 2.2).
    Params,
    /// Address prefixes (RFC 3123, section 4).
    Prefixes,
    /// Names in their wire form (RFC 8005, section 5).
    Names,
}

/// What the first octets of a field say of those that follow them.
#[derive(Clone, Copy, Debug, PartialEq, Eq)]
pub enum Shape {
    /// The version of a location, and the location (RFC 1876, section 2). Octets of a version other than 0 go to the end.
    Location,
    /// The type of a gateway, an algorithm, and the gateway (RFC 4025, sections 2.3 to 2.5).
    Gateway,
    /// A flag and the type of a relay, and the relay (RFC 8777, section 4.2). A relay of an unknown type goes to the end.
    Relay,
    /// The length of a host identity tag, an algorithm, the length of a key, the tag and the key (RFC 8005, section 5).
    HostIdentity,
    /// The length of a prefix of an IPv6 address, and the octets with the other bits (RFC 2874, section 3.1.1).
    AddressSuffix,
}
