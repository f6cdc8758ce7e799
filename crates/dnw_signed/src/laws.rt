//! What follows from the definitions of sets of records, for callers' proofs.
//!
//! The functions do nothing. Each is there for its clauses.
ghost use Rattle.dnw_signed.specs.CanonicalLaws.{DependsOnSet, KeepsInAnyOrder};
ghost use Rattle.dnw_signed.specs.RecordKeys.{KeysAreOfSame, KeysOrderRecords};

/// The octets of a set of records depend on the set alone: not on the order of the records, on how often one is there, on the
/// case of names, or on the times to live.
pub fn sets_have_one_form()
    ensures same { DependsOnSet }
    ensures any_order { KeepsInAnyOrder }
{}

/// Sort keys of records compare as the records do: the canonical order of their owners decides, and then their types, classes and
/// data. They are equal exactly if all of these are, but for the case of the owners.
pub fn keys_order_records()
    ensures order { KeysOrderRecords }
    ensures same { KeysAreOfSame }
{}
