//! Bounds, which a type meets if it has the implementations that callers rely on.

use std::cmp::Ordering;
use std::fmt;
use std::hash::Hash;

pub(crate) fn is_copy<T: Copy>() {}

pub(crate) fn is_debug<T: fmt::Debug>() {}

pub(crate) fn is_display<T: fmt::Display>() {}

pub(crate) fn is_eq<T: Eq>() {}

pub(crate) fn is_hash<T: Hash>() {}

pub(crate) fn is_ord<T: Ord>() {}

/// Returns how two values compare, by all operators.
pub(crate) fn compared<T: Ord>(left: &T, right: &T) -> (bool, bool, Option<Ordering>, Ordering) {
    (
        left == right,
        left < right,
        left.partial_cmp(right),
        left.cmp(right),
    )
}
