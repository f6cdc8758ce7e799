//! Results that reach C.
ghost use Rattle.dnw_c_base.specs.Results.{IsStored};

use crate::failure::Failure;

/// Stores a value and returns 0, or returns the number of a failure. Then what is there is unchanged.
pub fn report<T: Copy>(found: Result<T, Failure>, place: &mut T) -> u32
    ensures { IsStored found place.old place.new result }
{
    match found {
        Ok(value) => {
            *place = value;
            0
        }
        Err(failure) => failure.number(),
    }
}

/// Stores two values as `report` stores one.
pub fn report_both<T: Copy, U: Copy>(
    found: Result<(T, U), Failure>,
    first: &mut T,
    second: &mut U,
) -> u32
    ensures { IsStored found (first.old, second.old) (first.new, second.new) result }
{
    match found {
        Ok((one, other)) => {
            *first = one;
            *second = other;
            0
        }
        Err(why) => why.number(),
    }
}
