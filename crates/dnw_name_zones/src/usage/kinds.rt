//! How those who meet a name of a special-use zone treat it (RFC 6761, section 5).

/// Human users: whether they know names of the zone as special (RFC 6761, section 5, question 1).
#[derive(Clone, Copy, Debug, PartialEq, Eq)]
pub enum UserUsage {
    /// As other names.
    Normal,
    /// The names stand for the loopback address.
    Loopback,
    /// The names are those of the own link.
    LinkLocal,
    /// The names do not exist.
    NxDomain,
}

/// Application software (RFC 6761, section 5, question 2).
#[derive(Clone, Copy, Debug, PartialEq, Eq)]
pub enum AppUsage {
    /// Uses the names as others.
    Normal,
    /// May know that the names stand for the loopback address.
    Loopback,
    /// May know that the names are those of the own link.
    LinkLocal,
    /// May know that the names do not exist.
    NxDomain,
}

/// Libraries that resolve names (RFC 6761, section 5, question 3).
#[derive(Clone, Copy, Debug, PartialEq, Eq)]
pub enum ResolverUsage {
    /// Send queries to their caching servers.
    Normal,
    /// Return the loopback address, and send no query.
    Loopback,
    /// Send queries by multicast DNS (RFC 6762).
    LinkLocal,
    /// Return at once that the name does not exist, and send no query.
    NxDomain,
}

/// Caching servers (RFC 6761, section 5, question 4).
#[derive(Clone, Copy, Debug, PartialEq, Eq)]
pub enum CacheUsage {
    /// Answer at once and ask no other server, unless they are configured to.
    NonRecursive,
    /// Answer at once that the name does not exist.
    NxDomain,
    /// Answer at once with the loopback address.
    Loopback,
    /// Resolve the names as others.
    Normal,
}

/// Authoritative servers (RFC 6761, section 5, question 5).
#[derive(Clone, Copy, Debug, PartialEq, Eq)]
pub enum AuthUsage {
    /// Answer at once that the name does not exist, unless they are configured to know the zone.
    Local,
    /// Answer at once that the name does not exist.
    NxDomain,
    /// Answer at once with the loopback address.
    Loopback,
    /// Treat the names as others.
    Normal,
}

/// Operators of servers (RFC 6761, section 5, question 6).
#[derive(Clone, Copy, Debug, PartialEq, Eq)]
pub enum OpUsage {
    /// May configure the zone as others.
    Normal,
    /// Know that the names stand for the loopback address, whatever they configure.
    Loopback,
    /// Know that the names do not exist, whatever they configure.
    NxDomain,
}

/// Registries and registrars (RFC 6761, section 5, question 7).
#[derive(Clone, Copy, Debug, PartialEq, Eq)]
pub enum RegistryUsage {
    /// Register names of the zone as others.
    Normal,
    /// Register no names of the zone.
    Reserved,
}
