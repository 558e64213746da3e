//! What is found by its number, and told in numbers.

ghost use Rattle.std.specs.Prelude.{◌≡◌};
ghost use Rattle.c_outcomes.specs.Outcomes as definitions;

use crate::numbers::{OK, RANGE};

/// What C is told of a value.
pub trait Telling<T>: Copy {
    ghost told_of: { T → Self };

    fn told_of(value: &T) -> Self
        ensures { result ≡ told_of value.now };
}

/// The item of a list with a number from 0.
#[inline(always)]
pub fn item_at<T>(items: &[T], number: usize) -> Result<&T, u32>
    ensures { definitions.found result ≡ definitions.item_at items.now number }
{
    if number >= items.len() {
        return Err(RANGE);
    }
    Ok(&items[number])
}

/// Tells of what was found, or returns why nothing was.
pub fn tell<T, U: Telling<T>>(found: Result<&T, u32>, told: &mut U) -> u32
    ensures { definitions.TellsOf U.told_of (definitions.found found.entry) told.new result }
{
    match found {
        Err(fault) => fault,
        Ok(value) => {
            *told = U::told_of(value);
            OK
        }
    }
}
