//! Types that give a name.
ghost use Rattle.std.specs.Prelude.{◌≡◌, None, Ok, string_bytes};
ghost use Rattle.std.specs.Str.{chars};
ghost use Rattle.std.specs.declared.net.ip_addr.IpAddr.TheVariants.{V4, V6};
ghost use Rattle.dnw_base.specs.Fault.{Follows, NeedsErrorText};
ghost use Rattle.dnw_name_text.specs.AsciiText.{name_from_text};
ghost use Rattle.dnw_name_arpa.specs.Arpa.{reverse_name};
ghost use Rattle.dnw_name_zones.specs.AddressTexts.{ReadsIp};

use crate::lower_name::LowerName;
use dnw_base::error::ProtoResult;
use dnw_name::name::Name;
use std::alloc::Global;
use std::net::{IpAddr, Ipv4Addr, Ipv6Addr};

/// Types that give a name: names, texts and addresses.
pub trait IntoName {
    ghost use Rattle.std.specs.Prelude.{Result, Option};
    ghost use Rattle.std.specs.declared.net.ip_addr.IpAddr.{IpAddr};
    ghost use Rattle.dnw_base.specs.Fault.{Fault};
    ghost use Rattle.dnw_base.specs.Names.{NameValue};

    // The name, or why there is none.
    ghost name_of: { Self → Result NameValue Fault };

    // Making the name, or the error, may allocate.
    ghost may_run_out: { Self → Type 0 };

    // The address that a text writes.
    ghost ip_gives: { Self → Option IpAddr → Type 0 };

    /// Makes the name. A text is read as by `Name::from_ascii`, and an address gives its reverse name.
    fn into_name(self, alloc: Global) -> ProtoResult<Name>
        ensures follows { Follows (name_of self) (may_run_out self) result };

    /// Returns the address that a text writes. It is `None` if the text writes none, and for all other types.
    fn to_ip(&self) -> Option<IpAddr>
        ensures ip { ip_gives self.now result };
}

impl<'a> IntoName for &'a str {
    ghost name_of = { λ text. name_from_text (chars text.now) };

    ghost may_run_out = { λ text. NeedsErrorText (name_from_text (chars text.now)) };

    ghost ip_gives = { λ text. ReadsIp text.now };

    fn into_name(self, alloc: Global) -> ProtoResult<Name> {
        Name::from_ascii(alloc, self)
    }

    fn to_ip(&self) -> Option<IpAddr> {
        self.parse::<IpAddr>().ok()
    }
}

impl IntoName for String {
    ghost name_of = { λ text. name_from_text (chars (string_bytes text)) };

    ghost may_run_out = { λ text. NeedsErrorText (name_from_text (chars (string_bytes text))) };

    ghost ip_gives = { λ text. ReadsIp (string_bytes text) };

    fn into_name(self, alloc: Global) -> ProtoResult<Name> {
        Name::from_ascii(alloc, self.as_str())
    }

    fn to_ip(&self) -> Option<IpAddr> {
        self.as_str().parse::<IpAddr>().ok()
    }
}

impl<'a> IntoName for &'a String {
    ghost name_of = { λ text. name_from_text (chars (string_bytes text.now)) };

    ghost may_run_out = { λ text. NeedsErrorText (name_from_text (chars (string_bytes text.now))) };

    ghost ip_gives = { λ text. ReadsIp (string_bytes text.now) };

    fn into_name(self, alloc: Global) -> ProtoResult<Name> {
        Name::from_ascii(alloc, self.as_str())
    }

    fn to_ip(&self) -> Option<IpAddr> {
        self.as_str().parse::<IpAddr>().ok()
    }
}

impl IntoName for Name {
    ghost name_of = { Ok };

    ghost may_run_out = { λ _. ⊥ };

    ghost ip_gives = { λ _ ip. ip ≡ None };

    fn into_name(self, _alloc: Global) -> ProtoResult<Name> {
        Ok(self)
    }

    fn to_ip(&self) -> Option<IpAddr> {
        None
    }
}

impl IntoName for LowerName {
    ghost name_of = { Ok };

    ghost may_run_out = { λ _. ⊥ };

    ghost ip_gives = { λ _ ip. ip ≡ None };

    fn into_name(self, _alloc: Global) -> ProtoResult<Name> {
        self.to_name()
    }

    fn to_ip(&self) -> Option<IpAddr> {
        None
    }
}

impl<'a> IntoName for &'a LowerName {
    ghost name_of = { λ name. Ok name.now };

    ghost may_run_out = { λ _. ⊥ };

    ghost ip_gives = { λ _ ip. ip ≡ None };

    fn into_name(self, _alloc: Global) -> ProtoResult<Name> {
        self.to_name()
    }

    fn to_ip(&self) -> Option<IpAddr> {
        None
    }
}

impl IntoName for IpAddr {
    ghost name_of = { λ ip. Ok (reverse_name ip) };

    ghost may_run_out = { λ _. ⊥ };

    ghost ip_gives = { λ _ ip. ip ≡ None };

    fn into_name(self, alloc: Global) -> ProtoResult<Name> {
        Name::from_ip(alloc, self)
    }

    fn to_ip(&self) -> Option<IpAddr> {
        None
    }
}

impl IntoName for Ipv4Addr {
    ghost name_of = { λ addr. Ok (reverse_name (V4 addr)) };

    ghost may_run_out = { λ _. ⊥ };

    ghost ip_gives = { λ _ ip. ip ≡ None };

    fn into_name(self, alloc: Global) -> ProtoResult<Name> {
        Name::from_ipv4(alloc, self)
    }

    fn to_ip(&self) -> Option<IpAddr> {
        None
    }
}

impl IntoName for Ipv6Addr {
    ghost name_of = { λ addr. Ok (reverse_name (V6 addr)) };

    ghost may_run_out = { λ _. ⊥ };

    ghost ip_gives = { λ _ ip. ip ≡ None };

    fn into_name(self, alloc: Global) -> ProtoResult<Name> {
        Name::from_ipv6(alloc, self)
    }

    fn to_ip(&self) -> Option<IpAddr> {
        None
    }
}
