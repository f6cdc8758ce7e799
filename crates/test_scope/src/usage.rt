//! Module `usage`: special-use zones.

use crate::bounds::{is_copy, is_eq};
use dns_names_wire::error::ProtoResult;
use dns_names_wire::name::Name;
use dns_names_wire::usage::{
    self, AppUsage, AuthUsage, CacheUsage, OpUsage, RegistryUsage, ResolverUsage, UserUsage,
    ZoneUsage,
};
use std::alloc::Global;
use std::test::Fail;

#[test]
fn usages_are_copied_and_compared(rt: HostRuntime) {
    is_copy::<UserUsage>();
    is_copy::<AppUsage>();
    is_copy::<ResolverUsage>();
    is_copy::<CacheUsage>();
    is_copy::<AuthUsage>();
    is_copy::<OpUsage>();
    is_copy::<RegistryUsage>();
    is_eq::<UserUsage>();
    is_eq::<AppUsage>();
    is_eq::<ResolverUsage>();
    is_eq::<CacheUsage>();
    is_eq::<AuthUsage>();
    is_eq::<OpUsage>();
    is_eq::<RegistryUsage>();
    assert!(rt; CacheUsage::NonRecursive != CacheUsage::Normal);
}

/// Returns the seven usages of a zone, by their places in their types.
fn usages(zone: &ZoneUsage) -> [usize; 7] {
    let user: UserUsage = zone.user();
    let app: AppUsage = zone.app();
    let resolver: ResolverUsage = zone.resolver();
    let cache: CacheUsage = zone.cache();
    let auth: AuthUsage = zone.auth();
    let op: OpUsage = zone.op();
    let registry: RegistryUsage = zone.registry();
    [
        user_place(user),
        app_place(app),
        resolver_place(resolver),
        cache_place(cache),
        auth_place(auth),
        op_place(op),
        registry_place(registry),
    ]
}

fn user_place(usage: UserUsage) -> usize {
    match usage {
        UserUsage::Normal => 0,
        UserUsage::Loopback => 1,
        UserUsage::LinkLocal => 2,
        UserUsage::NxDomain => 3,
    }
}

fn app_place(usage: AppUsage) -> usize {
    match usage {
        AppUsage::Normal => 0,
        AppUsage::Loopback => 1,
        AppUsage::LinkLocal => 2,
        AppUsage::NxDomain => 3,
    }
}

fn resolver_place(usage: ResolverUsage) -> usize {
    match usage {
        ResolverUsage::Normal => 0,
        ResolverUsage::Loopback => 1,
        ResolverUsage::LinkLocal => 2,
        ResolverUsage::NxDomain => 3,
    }
}

fn cache_place(usage: CacheUsage) -> usize {
    match usage {
        CacheUsage::NonRecursive => 0,
        CacheUsage::NxDomain => 1,
        CacheUsage::Loopback => 2,
        CacheUsage::Normal => 3,
    }
}

fn auth_place(usage: AuthUsage) -> usize {
    match usage {
        AuthUsage::Local => 0,
        AuthUsage::NxDomain => 1,
        AuthUsage::Loopback => 2,
        AuthUsage::Normal => 3,
    }
}

fn op_place(usage: OpUsage) -> usize {
    match usage {
        OpUsage::Normal => 0,
        OpUsage::Loopback => 1,
        OpUsage::NxDomain => 2,
    }
}

fn registry_place(usage: RegistryUsage) -> usize {
    match usage {
        RegistryUsage::Normal => 0,
        RegistryUsage::Reserved => 1,
    }
}

#[test]
fn zones_are_made_of_a_name(rt: HostRuntime) {
    let alloc = rt.alloc();
    let made: ZoneUsage = ZoneUsage::new(
        Name::root(alloc),
        UserUsage::NxDomain,
        AppUsage::LinkLocal,
        ResolverUsage::Loopback,
        CacheUsage::NonRecursive,
        AuthUsage::NxDomain,
        OpUsage::Loopback,
        RegistryUsage::Normal,
    );
    assert_eq!(rt; usages(&made), [3, 2, 1, 0, 1, 1, 0]);
    let zones: [ZoneUsage; 7] = [
        ZoneUsage::default(alloc),
        ZoneUsage::reverse(Name::root(alloc)),
        ZoneUsage::test(Name::root(alloc)),
        ZoneUsage::localhost(Name::root(alloc)),
        ZoneUsage::local(Name::root(alloc)),
        ZoneUsage::invalid(Name::root(alloc)),
        ZoneUsage::example(Name::root(alloc)),
    ];
    let wanted = [
        [0, 0, 0, 3, 3, 0, 0],
        [0, 0, 0, 0, 0, 0, 1],
        [0, 0, 0, 0, 0, 0, 1],
        [1, 1, 1, 2, 2, 1, 1],
        [2, 2, 2, 3, 0, 0, 1],
        [3, 3, 3, 1, 1, 2, 1],
        [0, 0, 0, 3, 3, 0, 1],
    ];
    for at in 0..wanted.len() {
        assert_eq!(rt; usages(&zones[at]), wanted[at]);
    }
}

/// Returns the text of the name of a zone.
fn zone_text(alloc: Global, zone: ProtoResult<ZoneUsage>) -> ProtoResult<String> {
    let zone = zone?;
    let name: &Name = zone.name();
    let lent: &Name = &zone;
    assert_same(name, lent)?;
    name.to_ascii(alloc)
}

/// Fails if two names differ.
fn assert_same(left: &Name, right: &Name) -> ProtoResult<()> {
    if left == right {
        Ok(())
    } else {
        Err("two names".into())
    }
}

#[test]
fn zones_are_known(rt: HostRuntime) -> Result<(), Fail> {
    let alloc = rt.alloc();
    let names: [ProtoResult<Name>; 2] = [usage::in_addr_arpa(alloc), usage::ip6_arpa(alloc)];
    let [v4, v6] = names;
    assert_eq!(rt; v4?.to_ascii(alloc)?.as_str(), "in-addr.arpa.");
    assert_eq!(rt; v6?.to_ascii(alloc)?.as_str(), "ip6.arpa.");
    for (zone, text) in [
        (usage::default(alloc), "."),
        (usage::localhost(alloc), "localhost."),
        (usage::in_addr_arpa_127(alloc), "127.in-addr.arpa."),
        (
            usage::ip6_arpa_1(alloc),
            "1.0.0.0.0.0.0.0.0.0.0.0.0.0.0.0.0.0.0.0.0.0.0.0.0.0.0.0.0.0.0.0.ip6.arpa.",
        ),
        (usage::local(alloc), "local."),
        (usage::in_addr_arpa_169_254(alloc), "254.169.in-addr.arpa."),
        (usage::ip6_arpa_fe_8(alloc), "8.e.f.ip6.arpa."),
        (usage::ip6_arpa_fe_9(alloc), "9.e.f.ip6.arpa."),
        (usage::ip6_arpa_fe_b(alloc), "b.e.f.ip6.arpa."),
        (usage::invalid(alloc), "invalid."),
        (usage::onion(alloc), "onion."),
    ] {
        assert_eq!(rt; zone_text(alloc, zone)?.as_str(), text);
    }
    Ok(())
}
