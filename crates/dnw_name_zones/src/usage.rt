//! Special-use zones: what is special about their names, and for whom (RFC 6761; RFC 6762, section 12; RFC 7686).
ghost use Rattle.std.specs.Prelude.{◌≡◌};
ghost use Rattle.dnw_name_zones.specs.Zones.{zone, reverse_zone, test_zone, localhost_zone, local_zone, invalid_zone, example_zone, default_value};

use dnw_name::name::Name;
use std::alloc::Global;
use std::marker::Model;
use std::ops::Deref;

mod kinds;
mod zones;

pub use kinds::{
    AppUsage, AuthUsage, CacheUsage, OpUsage, RegistryUsage, ResolverUsage, UserUsage,
};
pub use zones::{
    default, in_addr_arpa, in_addr_arpa_127, in_addr_arpa_169_254, invalid, ip6_arpa, ip6_arpa_1,
    ip6_arpa_fe_8, ip6_arpa_fe_9, ip6_arpa_fe_b, local, localhost, onion,
};

/// A zone, and how those who meet a name in it treat that name (RFC 6761, section 5).
///
/// A contract sees it as its name and the seven usages.
#[derive(Drop)]
pub struct ZoneUsage {
    name: Name,
    user: UserUsage,
    app: AppUsage,
    resolver: ResolverUsage,
    cache: CacheUsage,
    auth: AuthUsage,
    op: OpUsage,
    registry: RegistryUsage,
}

impl Model for ZoneUsage {
    ghost use Rattle.dnw_name_zones.specs.Usages.{Zone};
    ghost use Rattle.dnw_name_zones.specs.Zones.{zone};

    ghost Value = { Zone };

    ghost view = { λ z. zone z.user z.app z.resolver z.cache z.auth z.op z.registry z.name };
}

impl ZoneUsage {
    /// Creates a zone of a name and seven usages.
    pub fn new(
        name: Name,
        user: UserUsage,
        app: AppUsage,
        resolver: ResolverUsage,
        cache: CacheUsage,
        auth: AuthUsage,
        op: OpUsage,
        registry: RegistryUsage,
    ) -> Self
        ensures { result ≡ zone user app resolver cache auth op registry name }
    {
        ZoneUsage {
            name,
            user,
            app,
            resolver,
            cache,
            auth,
            op,
            registry,
        }
    }

    /// Creates the root, with no special use.
    pub fn default(alloc: Global) -> Self
        ensures { result ≡ default_value }
    {
        ZoneUsage::new(
            Name::root(alloc),
            UserUsage::Normal,
            AppUsage::Normal,
            ResolverUsage::Normal,
            CacheUsage::Normal,
            AuthUsage::Normal,
            OpUsage::Normal,
            RegistryUsage::Normal,
        )
    }

    /// Creates a zone of reverse names of private addresses (RFC 6761, section 6.1).
    pub fn reverse(name: Name) -> Self
        ensures { result ≡ reverse_zone name }
    {
        ZoneUsage::new(
            name,
            UserUsage::Normal,
            AppUsage::Normal,
            ResolverUsage::Normal,
            CacheUsage::NonRecursive,
            AuthUsage::Local,
            OpUsage::Normal,
            RegistryUsage::Reserved,
        )
    }

    /// Creates a zone for tests, as `test.` (RFC 6761, section 6.2).
    pub fn test(name: Name) -> Self
        ensures { result ≡ test_zone name }
    {
        // As reverse names of private addresses.
        ZoneUsage::reverse(name)
    }

    /// Creates a zone of the loopback address, as `localhost.` (RFC 6761, section 6.3).
    pub fn localhost(name: Name) -> Self
        ensures { result ≡ localhost_zone name }
    {
        ZoneUsage::new(
            name,
            UserUsage::Loopback,
            AppUsage::Loopback,
            ResolverUsage::Loopback,
            CacheUsage::Loopback,
            AuthUsage::Loopback,
            OpUsage::Loopback,
            RegistryUsage::Reserved,
        )
    }

    /// Creates a zone of the own link, as `local.` (RFC 6762, section 12).
    pub fn local(name: Name) -> Self
        ensures { result ≡ local_zone name }
    {
        ZoneUsage::new(
            name,
            UserUsage::LinkLocal,
            AppUsage::LinkLocal,
            ResolverUsage::LinkLocal,
            CacheUsage::Normal,
            AuthUsage::Local,
            OpUsage::Normal,
            RegistryUsage::Reserved,
        )
    }

    /// Creates a zone of names that do not exist, as `invalid.` (RFC 6761, section 6.4).
    pub fn invalid(name: Name) -> Self
        ensures { result ≡ invalid_zone name }
    {
        ZoneUsage::new(
            name,
            UserUsage::NxDomain,
            AppUsage::NxDomain,
            ResolverUsage::NxDomain,
            CacheUsage::NxDomain,
            AuthUsage::NxDomain,
            OpUsage::NxDomain,
            RegistryUsage::Reserved,
        )
    }

    /// Creates a zone for examples, as `example.` (RFC 6761, section 6.5).
    pub fn example(name: Name) -> Self
        ensures { result ≡ example_zone name }
    {
        ZoneUsage::new(
            name,
            UserUsage::Normal,
            AppUsage::Normal,
            ResolverUsage::Normal,
            CacheUsage::Normal,
            AuthUsage::Normal,
            OpUsage::Normal,
            RegistryUsage::Reserved,
        )
    }

    /// Returns the name of the zone.
    pub fn name(&self) -> &Name
        ensures { result.now ≡ self.now.name }
    {
        &self.name
    }

    /// Returns how users treat the names.
    pub fn user(&self) -> UserUsage
        ensures { result ≡ self.now.user }
    {
        self.user
    }

    /// Returns how applications treat the names.
    pub fn app(&self) -> AppUsage
        ensures { result ≡ self.now.app }
    {
        self.app
    }

    /// Returns how libraries that resolve names treat them.
    pub fn resolver(&self) -> ResolverUsage
        ensures { result ≡ self.now.resolver }
    {
        self.resolver
    }

    /// Returns how caching servers treat the names.
    pub fn cache(&self) -> CacheUsage
        ensures { result ≡ self.now.cache }
    {
        self.cache
    }

    /// Returns how authoritative servers treat the names.
    pub fn auth(&self) -> AuthUsage
        ensures { result ≡ self.now.auth }
    {
        self.auth
    }

    /// Returns how operators of servers treat the names.
    pub fn op(&self) -> OpUsage
        ensures { result ≡ self.now.op }
    {
        self.op
    }

    /// Returns how registries treat the names.
    pub fn registry(&self) -> RegistryUsage
        ensures { result ≡ self.now.registry }
    {
        self.registry
    }
}

impl Deref for ZoneUsage {
    type Target = Name;

    ghost deref_gives = { λ zone name. name ≡ zone.name };

    fn deref(&self) -> &Name {
        &self.name
    }
}
