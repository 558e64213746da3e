ghost use Rattle.std.specs.Prelude.{◌≡◌, pos, true};
ghost use Rattle.verifier_spec.specs.States.{is_proper};
ghost use Rattle.verifier_spec.specs.Joins.{joined_numbers, joined_kind, pairwise, joined_state};
ghost use Rattle.verifier_spec.specs.Ranges.{joined_range};

use crate::sets::intersection;
use crate::{kinds, order};
use machine_spec::Region;
use verifier_spec::{Abs, Abstract, Interval, Range};

/// The least interval that contains two, if both are intervals of numbers.
fn joined_numbers(a: Option<Interval>, b: Option<Interval>) -> Abs
    ensures { result ≡ joined_numbers a b }
{
    match (a, b) {
        (Some(a), Some(b)) => Abs::Num(a.low.min(b.low), a.high.max(b.high)),
        (Some(_), None) => Abs::None,
        (None, _) => Abs::None,
    }
}

/// The join of two lengths, each by the view of its own state unless they are of one region.
fn joined_lengths(a: &Abstract, b: &Abstract, region: Region, other: Region) -> Abs
    ensures { result ≡ joined_kind a.now b.now (Abs.Len region) (Abs.Len other) }
{
    if order::same_region(region, other) {
        Abs::Len(region)
    } else {
        joined_numbers(
            kinds::range_of(a, Abs::Len(region)),
            kinds::range_of(b, Abs::Len(other)),
        )
    }
}

/// The join of what a state knows of a register and what another knows of it.
fn joined_kind(a: &Abstract, b: &Abstract, kind: Abs, other: Abs) -> Abs
    ensures { result ≡ joined_kind a.now b.now kind other }
{
    match (kind, other) {
        (Abs::Len(region), Abs::Len(other)) => joined_lengths(a, b, region, other),
        (Abs::Addr(region, low, high), Abs::Addr(other, other_low, other_high)) => {
            if order::same_region(region, other) {
                Abs::Addr(region, low.min(other_low), high.max(other_high))
            } else {
                Abs::None
            }
        }
        (kind, other) => joined_numbers(kinds::range_of(a, kind), kinds::range_of(b, other)),
    }
}

fn joined_kinds(a: &Abstract, b: &Abstract, kinds: &[Abs; 11], others: &[Abs; 11]) -> [Abs; 11]
    ensures { result ≡ pairwise (joined_kind a.now b.now) kinds.now others.now }
{
    let mut joined = *kinds;
    for register in 0..11 {
        joined[register] = joined_kind(a, b, kinds[register], others[register]);
    }
    joined
}

/// The least range that two are within.
fn joined_range(a: Range, b: Range) -> Range
    ensures { result ≡ joined_range a b }
{
    Range {
        min: a.min.min(b.min),
        max: a.max.max(b.max),
    }
}

/// The join of two states.
#[tactic(auto, using(verifier_spec::proofs::Joins::joined_proper))]
pub fn joined(a: &Abstract, b: &Abstract) -> Abstract
    ensures state { result ≡ joined_state a.now b.now }
    ensures proper { is_proper a.now ≡ true → is_proper b.now ≡ true → is_proper result ≡ true }
{
    Abstract {
        registers: joined_kinds(a, b, &a.registers, &b.registers),
        key: joined_range(a.key, b.key),
        value: joined_range(a.value, b.value),
        set: intersection(&a.set, &b.set),
    }
}
