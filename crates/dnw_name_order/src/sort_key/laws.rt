//! What follows from the definition of sort keys, for callers' proofs.
//!
//! The functions do nothing: each exists for its clauses.
ghost use Rattle.std.specs.Prelude.{◌≡◌};
ghost use Rattle.dnw_name_order.specs.SortKeys.{max_sort_key};
ghost use Rattle.dnw_name_order.specs.SortKeyLaws.{EndedKeysCompare, KeysCompare, KeysCompareNames, KeysAreEqual, ZonesBegin, KeysAreShort};
ghost use Rattle.dnw_name_order.specs.declared.sort_key.TheConstants.{MAX_SORT_KEY_LENGTH};

/// The plain order of keys, a prefix first, is the canonical order of the labels, and so that of names that are all fully
/// qualified, or all relative. If an octet 0 is after each key, the names decide before what is after it.
pub fn keys_compare()
    ensures labels { KeysCompare }
    ensures ended { EndedKeysCompare }
    ensures names { KeysCompareNames }
{}

/// Keys are equal exactly if the labels are equal, ignoring ASCII case.
pub fn keys_are_equal()
    ensures { KeysAreEqual }
{}

/// A key begins with the key of a zone exactly if its name is within the zone.
pub fn zones_begin()
    ensures { ZonesBegin }
{}

/// No name has a longer key than `MAX_SORT_KEY_LENGTH`.
pub fn keys_are_short()
    ensures limit { MAX_SORT_KEY_LENGTH ≡ max_sort_key }
    ensures short { KeysAreShort }
{}
