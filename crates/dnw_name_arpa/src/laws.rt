//! What follows from the definitions of reverse names, for callers' proofs.
//!
//! The functions do nothing: each exists for its clauses.
ghost use Rattle.dnw_name_arpa.specs.ArpaLaws.{NamesGivePrefixes, PrefixesComeBack, TextsComeBack, AddressesArePrefixes, AddressesComeBack};

/// A name gives a prefix exactly if it is one of `in-addr.arpa.` or `ip6.arpa.`, ignoring ASCII case, with a label for each
/// octet or nibble of the prefix (RFC 1035, section 3.5; RFC 3596, section 2.5).
pub fn names_give_prefixes()
    ensures { NamesGivePrefixes }
{}

/// The name of a prefix is read as that prefix, and so is its text. Each address is a prefix. The name of an address is read,
/// and the net that is read has that address, and a prefix of all of its bits.
pub fn reverse_names_come_back()
    ensures prefixes { PrefixesComeBack }
    ensures texts { TextsComeBack }
    ensures whole { AddressesArePrefixes }
    ensures addresses { AddressesComeBack }
{}
