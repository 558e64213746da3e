//! The headers of an emission, by their numbers from 0.

ghost use Rattle.std.specs.Prelude.{◌≡◌};
ghost use Rattle.machine_spec.specs.Machine.{bytes_of};
ghost use Rattle.c_outcomes.specs.Outcomes as definitions;

use crate::copying::part_bytes;
use crate::emissions::emission_at;
use crate::telling::{Telling, item_at};
use machine_spec::Outcome;
use wire_spec::Header;

/// How long a header is, and whether its value is null.
#[repr(C)]
#[derive(Clone, Copy)]
pub struct HeaderTold {
    /// The key's length in bytes.
    pub key_length: usize,
    /// The value's length in bytes, 0 for null.
    pub value_length: usize,
    /// 2 for a null value, else 0.
    pub nulls: u32,
}

impl Telling<Header> for HeaderTold {
    ghost told_of = { definitions.header_told };

    fn told_of(header: &Header) -> HeaderTold {
        HeaderTold {
            key_length: header.key.len(),
            value_length: part_bytes(&header.value).len(),
            nulls: if header.value.is_none() { 2 } else { 0 },
        }
    }
}

/// A header of an emission of an outcome that was found.
#[inline(always)]
pub fn header_at(outcome: Result<&Outcome, u32>, number: usize, at: usize) -> Result<&Header, u32>
    ensures { definitions.found result ≡ definitions.header_at (definitions.emission_at (definitions.found outcome.entry) number) at }
{
    item_at(emission_at(outcome, number)?.headers.list.as_slice(), at)
}

/// The bytes of a header's key.
pub fn header_key_at(outcome: Result<&Outcome, u32>, number: usize, at: usize) -> Result<&[u8], u32>
    ensures { definitions.found result ≡ definitions.part_at (λ h. h.key) (definitions.header_at (definitions.emission_at (definitions.found outcome.entry) number) at) }
{
    Ok(header_at(outcome, number, at)?.key.as_slice())
}

/// The bytes of a header's value.
pub fn header_value_at(
    outcome: Result<&Outcome, u32>,
    number: usize,
    at: usize,
) -> Result<&[u8], u32>
    ensures { definitions.found result ≡ definitions.part_at (λ h. bytes_of h.value) (definitions.header_at (definitions.emission_at (definitions.found outcome.entry) number) at) }
{
    Ok(part_bytes(&header_at(outcome, number, at)?.value))
}
