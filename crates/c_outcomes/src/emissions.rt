//! The emissions of an outcome, by their numbers from 0.

ghost use Rattle.std.specs.Prelude.{◌≡◌};
ghost use Rattle.machine_spec.specs.Machine.{bytes_of};
ghost use Rattle.c_outcomes.specs.Outcomes as definitions;

use crate::copying::part_bytes;
use crate::telling::{Telling, item_at};
use bytes::Bytes;
use machine_spec::{Emission, Outcome};

/// What is emitted to an output partition: how long it is, and which parts of it are null.
#[repr(C)]
#[derive(Clone, Copy)]
pub struct EmissionTold {
    /// The output partition.
    pub output: usize,
    /// The key's length in bytes, 0 for null.
    pub key_length: usize,
    /// The value's length in bytes, 0 for null.
    pub value_length: usize,
    /// 1 for a null key plus 2 for a null value.
    pub nulls: u32,
    /// How many headers there are.
    pub header_count: usize,
}

/// The reject code of an outcome, 0 where the record is kept.
pub fn code_of(outcome: &Outcome) -> u64
    ensures { result ≡ definitions.code_of outcome.now }
{
    match outcome {
        Outcome::Kept(_) => 0,
        Outcome::Rejected(code) => *code,
    }
}

/// The emissions of an outcome, none where the record is rejected.
pub fn emissions_of(outcome: &Outcome) -> &[Emission]
    ensures { result.now ≡ definitions.emissions_of outcome.now }
{
    match outcome {
        Outcome::Kept(emissions) => emissions.list.as_slice(),
        Outcome::Rejected(_) => &[],
    }
}

/// Which parts are null.
fn nulls_of(key: &Option<Bytes>, value: &Option<Bytes>) -> u32
    ensures { result ≡ definitions.nulls_of key.now value.now }
{
    let first = if key.is_none() { 1 } else { 0 };
    let second = if value.is_none() { 2 } else { 0 };
    first + second
}

impl Telling<Emission> for EmissionTold {
    ghost told_of = { definitions.description_of };

    fn told_of(emission: &Emission) -> EmissionTold {
        EmissionTold {
            output: emission.out,
            key_length: part_bytes(&emission.key).len(),
            value_length: part_bytes(&emission.value).len(),
            nulls: nulls_of(&emission.key, &emission.value),
            header_count: emission.headers.list.len(),
        }
    }
}

/// An emission of an outcome that was found.
#[inline(always)]
pub fn emission_at(outcome: Result<&Outcome, u32>, number: usize) -> Result<&Emission, u32>
    ensures { definitions.found result ≡ definitions.emission_at (definitions.found outcome.entry) number }
{
    item_at(emissions_of(outcome?), number)
}

/// The bytes of an emission's key.
pub fn key_at(outcome: Result<&Outcome, u32>, number: usize) -> Result<&[u8], u32>
    ensures { definitions.found result ≡ definitions.part_at (λ e. bytes_of e.key) (definitions.emission_at (definitions.found outcome.entry) number) }
{
    Ok(part_bytes(&emission_at(outcome, number)?.key))
}

/// The bytes of an emission's value.
pub fn value_at(outcome: Result<&Outcome, u32>, number: usize) -> Result<&[u8], u32>
    ensures { definitions.found result ≡ definitions.part_at (λ e. bytes_of e.value) (definitions.emission_at (definitions.found outcome.entry) number) }
{
    Ok(part_bytes(&emission_at(outcome, number)?.value))
}
