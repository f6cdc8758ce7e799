//! Lists of service parameters (RFC 9460, section 2.1).
ghost use Rattle.std.specs.Prelude.{◌≡◌, List, [], Some, IfOk, MatchOption, string_bytes};
ghost use Rattle.dnw_zone_values.specs.Params.{ParamValue, in_key_order};
ghost use Rattle.dnw_zone_data.specs.ParamLists.{AreParamWords, AreParams, IsParamsWanted, PrintsParams};
ghost use Rattle.dnw_zone_data.specs.Appending.{Appended, AppendsOne};

use crate::error::Wanted;
use crate::words::{after_spaces, split_param};
use dnw_zone_values::mandatory::keeps_mandatory;
use dnw_zone_values::param::{Param, push_params, sort_params};
use dnw_zone_values::printing::write_params;
use dnw_zone_values::word::parse_param;
use std::alloc::{AllocError, Global};

/// Appends the octets of the parameters that all words are, in the order of their keys. Returns `false` if one is no parameter, if
/// a key is there twice, or if one that is mandatory is left out; some octets may be appended then.
pub fn parse_params(alloc: Global, text: &[u8], out: &mut Vec<u8>) -> Result<bool, AllocError>
    ensures { IfOk result (AppendsOne (AreParams text.now) out.old.items out.new.items) }
{
    let Some(params) = params_of_words(alloc, text)? else {
        return Ok(false);
    };
    let start = out.len();
    push_params(params.as_slice(), out)?;
    if keeps_mandatory(&out.as_slice()[start..]) {
        Ok(true)
    } else {
        Ok(false)
    }
}

/// Appends the text of parameters, each after a space. Returns `false` if the octets end within one, or if a key that is mandatory
/// is left out; nothing is changed then.
pub(crate) fn write_param_list(
    alloc: Global,
    octets: &[u8],
    out: &mut String,
) -> Result<bool, AllocError>
    ensures { IfOk result (Appended (PrintsParams octets.now) (string_bytes out.old) (string_bytes out.new)) }
{
    if !keeps_mandatory(octets) {
        return Ok(false);
    }
    write_params(alloc, octets, out)
}

/// Returns what is wanted in place of a text that is no field of parameters: that `mandatory` keeps its rule, if all else is as wanted.
pub(crate) fn params_wanted(alloc: Global, text: &[u8]) -> Result<Wanted, AllocError>
    ensures { IfOk result (IsParamsWanted text.now) }
{
    match params_of_words(alloc, text)? {
        Some(_) => Ok(Wanted::Mandatory),
        None => Ok(Wanted::Params),
    }
}

/// Returns the parameters that all words are, in the order of their keys, or `None` if a word is none or a key is there twice.
fn params_of_words(alloc: Global, text: &[u8]) -> Result<Option<Vec<Param>>, AllocError>
    ensures { IfOk result (λ x. MatchOption x ((listed own : List ParamValue) → AreParamWords text.now listed → ¬ (in_key_order [] listed ≡ Some own))
        (λ params. (listed : List ParamValue) × AreParamWords text.now listed × (in_key_order [] listed ≡ Some params.items))) }
{
    let Some(mut params) = listed_params(alloc, text)? else {
        return Ok(None);
    };
    if sort_params(&mut params) {
        Ok(Some(params))
    } else {
        Ok(None)
    }
}

/// Returns the parameters that all words are, or `None` if a word is none.
fn listed_params(alloc: Global, text: &[u8]) -> Result<Option<Vec<Param>>, AllocError>
    ensures { IfOk result (λ x. MatchOption x ((listed : List ParamValue) → ¬ (AreParamWords text.now listed)) (λ listed. AreParamWords text.now listed.items)) }
{
    let mut params = Vec::new(alloc);
    let mut left = after_spaces(text);
    'params: while !left.is_empty() {
        let (word, rest) = split_param(left);
        let Some(param) = parse_param(alloc, word)? else {
            return Ok(None);
        };
        params.push(param)?;
        left = after_spaces(rest);
    }
    Ok(Some(params))
}
