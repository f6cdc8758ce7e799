//! The greater and the lesser of two names, and names that are kept between two others.

use crate::notation::{BAD_LINE, first_word, name};
use dns_names_wire::error::{ProtoError, ProtoResult};
use dns_names_wire::name::Name;
use std::alloc::Global;
use std::cmp::{max_by, min_by};

/// Returns the answer to a request about the bounds of names.
pub(crate) fn answer(alloc: Global, kind: &str, words: &str) -> ProtoResult<String> {
    let (first, words) = first_word(words)?;
    match kind {
        "extremes" => extremes(alloc, &name(alloc, first)?, &name(alloc, words)?),
        "clamp" => {
            let (low, high) = first_word(words)?;
            let low = name(alloc, low)?;
            let high = name(alloc, high)?;
            if !low.cmp(&high).is_le() {
                return Err(BAD_LINE);
            }
            Ok(format!(in alloc; "{}", name(alloc, first)?.clamp(low, high))?)
        }
        _ => Err(BAD_LINE),
    }
}

/// Returns the greater and the lesser of two names, by `max` and `min`, as by `max_by` and `min_by`.
fn extremes(alloc: Global, left: &Name, right: &Name) -> ProtoResult<String> {
    let greater = left.clone()?.max(right.clone()?);
    let lesser = left.clone()?.min(right.clone()?);
    let greater_by = max_by(left.clone()?, right.clone()?, |x: &Name, y: &Name| x.cmp(y));
    let lesser_by = min_by(left.clone()?, right.clone()?, |x: &Name, y: &Name| x.cmp(y));
    if greater != greater_by || lesser != lesser_by {
        return Err(ProtoError::Message("the calls differ"));
    }
    Ok(format!(in alloc; "{greater} {lesser}")?)
}
