ghost use Rattle.std.specs.Prelude.{◌≡◌};
ghost use Rattle.verifier_spec.specs.Ranges.{is_range_within};
ghost use Rattle.verifier_spec.specs.Kinds.{kind_at, same_region, is_kind_within};
ghost use Rattle.verifier_spec.specs.States.{each_below, is_within};

use crate::{kinds, sets};
use machine_spec::Region;
use verifier_spec::{Abs, Abstract, Range};

pub fn same_region(a: Region, b: Region) -> bool
    ensures { result ≡ same_region a b }
{
    match (a, b) {
        (Region::Stack, Region::Stack) => true,
        (Region::Key, Region::Key) => true,
        (Region::Value, Region::Value) => true,
        (Region::Stack, Region::Key) => false,
        (Region::Stack, Region::Value) => false,
        (Region::Key, Region::Stack) => false,
        (Region::Key, Region::Value) => false,
        (Region::Value, Region::Stack) => false,
        (Region::Value, Region::Key) => false,
    }
}

fn is_within_numbers(inner: &Abstract, kind: Abs, low: u64, high: u64) -> bool
    ensures { result ≡ is_kind_within inner.now kind (Abs.Num low high) }
{
    match kind {
        Abs::None => false,
        Abs::Num(lo, hi) => low <= lo && hi <= high,
        Abs::Len(region) => {
            let numbers = kinds::length_interval(inner, region);
            low <= numbers.low && numbers.high <= high
        }
        Abs::Addr(_, _, _) => false,
    }
}

fn is_within_length(inner: &Abstract, kind: Abs, region: Region) -> bool
    ensures { result ≡ is_kind_within inner.now kind (Abs.Len region) }
{
    match kind {
        Abs::None => false,
        Abs::Num(_, _) => false,
        Abs::Len(other) => same_region(other, region),
        Abs::Addr(_, _, _) => false,
    }
}

fn is_within_addresses(inner: &Abstract, kind: Abs, region: Region, low: i64, high: i64) -> bool
    ensures { result ≡ is_kind_within inner.now kind (Abs.Addr region low high) }
{
    match kind {
        Abs::None => false,
        Abs::Num(_, _) => false,
        Abs::Len(_) => false,
        Abs::Addr(other, lo, hi) => same_region(other, region) && (low <= lo && hi <= high),
    }
}

fn is_kind_within(inner: &Abstract, kind: Abs, outer: Abs) -> bool
    ensures { result ≡ is_kind_within inner.now kind outer }
{
    match outer {
        Abs::None => true,
        Abs::Num(low, high) => is_within_numbers(inner, kind, low, high),
        Abs::Len(region) => is_within_length(inner, kind, region),
        Abs::Addr(region, low, high) => is_within_addresses(inner, kind, region, low, high),
    }
}

fn is_register_within(inner: &Abstract, outer: &Abstract, register: u8) -> bool
    ensures { result ≡ is_kind_within inner.now (kind_at inner.now register) (kind_at outer.now register) }
{
    is_kind_within(
        inner,
        kinds::kind_at(inner, register),
        kinds::kind_at(outer, register),
    )
}

#[tactic(auto, using(crate::proofs::Below::each_below_none, crate::proofs::Below::each_below_more))]
fn are_registers_within(inner: &Abstract, outer: &Abstract) -> bool
    ensures { result ≡ each_below 11 (λ r. is_kind_within inner.now (kind_at inner.now r) (kind_at outer.now r)) }
{
    for register in 0..11 {
        if !is_register_within(inner, outer, register) {
            return false;
        }
    }
    true
}

/// Whether the lengths of a range are in another.
fn is_range_within(inner: Range, outer: Range) -> bool
    ensures { result ≡ is_range_within inner outer }
{
    outer.min <= inner.min && inner.max <= outer.max
}

/// Whether a state is within another: each register is, the key's and the value's ranges are, and no
/// fewer bytes are set.
#[tactic(auto, unfolding(verifier_spec::specs::States::is_within))]
pub fn is_within(inner: &Abstract, outer: &Abstract) -> bool
    ensures { result ≡ is_within inner.now outer.now }
{
    are_registers_within(inner, outer)
        && (is_range_within(inner.key, outer.key)
            && (is_range_within(inner.value, outer.value)
                && sets::is_within(&inner.set, &outer.set)))
}
