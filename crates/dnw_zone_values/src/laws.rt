//! What is printed of a value is parsed as the same value, for each kind.
//!
//! The functions do nothing. Each is there for its clauses.
ghost use Rattle.std.specs.Prelude.{◌≡◌, ◌<◌, ℕ, ◌^◌, List, ◌≤◌, decimal};
ghost use Rattle.std.specs.Net.Addr.{ipv4_octets, ipv6_segments, IsIpv4Addr, IsIpv6Addr};
ghost use Rattle.std.specs.Net.Grammar.{IsIpv4Text, IsIpv6Text};
ghost use Rattle.std.specs.Net.Text.{ipv4_text, ipv6_text};
ghost use Rattle.dnw_zone_values.specs.Spelling.{ComesBack};
ghost use Rattle.dnw_zone_values.specs.Numbers.{max_u32, max_u48, IsNumberText};
ghost use Rattle.dnw_zone_values.specs.Octets.{IsOctets, IsSalt, hex_text, base64_text, salt_text, IsHexText, IsBase64Text, IsSaltText};
ghost use Rattle.dnw_zone_values.specs.Strings.{IsString, IsText, string_text, IsStringText, IsLongText};
ghost use Rattle.dnw_zone_values.specs.Times.{IsDateText, IsTimeText};
ghost use Rattle.dnw_zone_values.specs.Tags.{IsTag, IsTagText};
ghost use Rattle.dnw_zone_values.specs.Base32.{IsHash, base32_text, IsHashText};
ghost use Rattle.dnw_zone_values.specs.Pairs.{IsIdentifier, pairs_text, IsPairsText};
ghost use Rattle.dnw_zone_values.specs.Prefixes.{PrefixesAreUnambiguous, PrefixTextsComeBack};
ghost use Rattle.dnw_zone_values.specs.Locators.{locator_text, IsLocatorText};
ghost use Rattle.dnw_zone_values.specs.Nsap.{nsap_text, IsNsapText};

/// Numbers of up to six octets round-trip.
pub fn numbers_come_back()
    ensures { (max : ℕ) → max ≤ max_u48 → ComesBack (λ n. n ≤ max) decimal (IsNumberText max) }
{}

/// Octets round-trip, in hexadecimal and in base 64, and so do salts.
pub fn octets_come_back()
    ensures hexadecimal { ComesBack IsOctets hex_text IsHexText }
    ensures base64 { ComesBack IsOctets base64_text IsBase64Text }
    ensures salt { ComesBack IsSalt salt_text IsSaltText }
{}

/// Addresses round-trip.
pub fn addresses_come_back()
    ensures ipv4 { ComesBack IsIpv4Addr (λ a. ipv4_text (ipv4_octets a)) IsIpv4Text }
    ensures ipv6 { ComesBack IsIpv6Addr (λ a. ipv6_text (ipv6_segments a)) IsIpv6Text }
{}

/// Character strings round-trip, and so do texts of up to 65535 octets that are written as they are.
pub fn strings_come_back()
    ensures strings { ComesBack IsString string_text IsStringText }
    ensures texts { ComesBack IsText string_text IsLongText }
{}

/// A text spells one time at most. What `time_text` returns spells its time, so it is parsed as that time.
pub fn times_come_back()
    ensures one { (text : List ℕ) (a b : ℕ) → IsTimeText text a → IsTimeText text b → a ≡ b }
    ensures printed { (text : List ℕ) (seconds : ℕ) → seconds ≤ max_u32 → IsDateText text seconds → IsTimeText text seconds }
{}

/// Tags round-trip, which are printed as they are; hashed names in base 32, and octets as pairs of digits.
pub fn identifiers_come_back()
    ensures tags { ComesBack IsTag (λ tag. tag) IsTagText }
    ensures hashes { ComesBack IsHash base32_text IsHashText }
    ensures pairs { ComesBack IsIdentifier pairs_text IsPairsText }
{}

/// Address prefixes that have a text round-trip, and a text is one prefix at most.
pub fn prefixes_come_back()
    ensures back { PrefixTextsComeBack }
    ensures one { PrefixesAreUnambiguous }
{}

/// Identifiers of nodes and locators round-trip, and addresses of NSAP.
pub fn locators_come_back()
    ensures locators { ComesBack (λ n. n < 2 ^ 64) locator_text IsLocatorText }
    ensures nsap { ComesBack IsOctets nsap_text IsNsapText }
{}
