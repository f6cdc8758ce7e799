//! What earlier entries say for later ones.
ghost use Rattle.dnw_zone_file.specs.Contexts.{IsFirst};

use dnw_base::dns_class::DNSClass;
use dnw_name::name::Name;
use dnw_name_form::form::WireForm;

/// What the entries so far say for those that leave it out (RFC 1035, section 5.1; RFC 2308, section 4).
#[derive(Drop)]
pub struct Context {
    /// The name that completes names without a dot at their end.
    pub origin: Name,
    /// The owner of the last record.
    pub owner: Option<WireForm>,
    /// The time to live of the last `$TTL`, or the minimum of an SOA record before which no time to live was stated.
    pub default_ttl: Option<u32>,
    /// The last time to live of a record that has one of its own.
    pub last_ttl: Option<u32>,
    /// The time to live of records for which the file states none, if the caller gives one.
    pub fallback_ttl: Option<u32>,
    /// The last class of a record that has one of its own, or else `IN`.
    pub class: DNSClass,
}

impl Context {
    /// Creates what is known before the first entry.
    #[inline(always)]
    pub fn new(origin: Name) -> Self
        ensures { IsFirst origin result }
    {
        Context {
            origin,
            owner: None,
            default_ttl: None,
            last_ttl: None,
            fallback_ttl: None,
            class: DNSClass::IN,
        }
    }
}
