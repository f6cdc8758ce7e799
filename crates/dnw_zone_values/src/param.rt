//! Parameters in the order of their keys (RFC 9460, section 2.2).
ghost use Rattle.std.specs.Prelude.{◌≡◌, ◌≤◌, ◌++◌, IfOk, OnErr, length};
ghost use Rattle.dnw_zone_values.specs.Params.{params_wire, Sorts};
ghost use Rattle.dnw_zone_values.specs.Inside.Steps.{ascend};

use std::alloc::AllocError;
use std::marker::Model;

/// The most octets of a value, since their number is written in two; and so the most characters of its text that are printed.
pub(crate) const MAX_VALUE: usize = 65535;

/// A parameter: its key, and the octets of its value.
///
/// A contract sees it as these two.
#[derive(Drop)]
pub struct Param {
    pub(crate) key: u16,
    pub(crate) octets: Vec<u8>,
}

impl Model for Param {
    ghost use Rattle.std.specs.Prelude.{◌≤◌, length};
    ghost use Rattle.dnw_zone_values.specs.Params.{ParamValue};

    ghost Value = { ParamValue };

    ghost view = { λ p. record { key = p.key; octets = p.octets.items } };

    ghost invariant = { λ p. length p.octets.items ≤ 65535 };
}

/// Puts parameters in the order of their keys, in a number of steps that is n log n. Returns `false` if a key is there twice; they may
/// have moved then.
pub fn sort_params(params: &mut Vec<Param>) -> bool
    ensures { Sorts params.old.items params.new.items result }
{
    if are_ascending(params.as_slice()) {
        return true;
    }
    params
        .as_mut_slice()
        .sort_unstable_by_key(|param| param.key);
    are_ascending(params.as_slice())
}

/// Returns `true` if each key is above the one before it.
fn are_ascending(params: &[Param]) -> bool
    ensures { result ≡ ascend 0 params.now }
{
    let mut least = 0u32;
    let mut left = params;
    while let Some((first, rest)) = left.split_first() {
        let key = u32::from(first.key);
        if key < least {
            return false;
        }
        least = key + 1;
        left = rest;
    }
    true
}

/// Appends the octets of parameters. It fails only if there are some and it runs out of memory.
pub fn push_params(params: &[Param], out: &mut Vec<u8>) -> Result<(), AllocError>
    ensures ok { IfOk result (λ _. out.new.items ≡ out.old.items ++ params_wire params.now) }
    ensures err { OnErr result (1 ≤ length params.now) }
{
    for param in params {
        out.extend_from_slice(&param.key.to_be_bytes())?;
        out.extend_from_slice(&(param.octets.len() as u16).to_be_bytes())?;
        out.extend_from_slice(param.octets.as_slice())?;
    }
    Ok(())
}
