//! The bytes that an instruction may read or write.

ghost use Rattle.std.specs.Prelude.{◌≡◌, pos, neg_ℤ, ◌+ℤ◌, Some, option_map};
ghost use Rattle.verifier_spec.specs.Checks.{reach_at};
ghost use Rattle.explain.specs.Reasons as definitions;
ghost use Rattle.explain.specs.Reasons.{first_below};

use crate::reason::{Reached, Reason};
use lattice::{contains_all, kinds};
use machine_spec::{MemoryOperand, STACK_SIZE};
use verifier_spec::{Abs, Abstract, StackSet};

fn first_byte(low: i64, offset: i16) -> i128
    ensures { result ≡ low +ℤ offset }
{
    low as i128 + offset as i128
}

fn last_byte(high: i64, offset: i16, size: u8) -> i128
    ensures { result ≡ ((high +ℤ offset) +ℤ pos size) +ℤ neg_ℤ (pos 1) }
{
    high as i128 + offset as i128 + size as i128 - 1
}

fn reached_by(m: MemoryOperand, kind: Abs) -> Option<Reached>
    ensures { result ≡ definitions.reached_by m kind (reach_at m.direction kind m.offset m.size) }
{
    match kind {
        Abs::None => None,
        Abs::Num(_, _) => None,
        Abs::Len(_) => None,
        Abs::Addr(region, low, high) => Some(Reached {
            base: m.base,
            kind,
            region,
            first: first_byte(low, m.offset),
            last: last_byte(high, m.offset, m.size.byte_count()),
        }),
    }
}

/// The bytes that an instruction may read or write.
pub fn reached_bytes(memory: Option<MemoryOperand>, state: &Abstract) -> Option<Reached>
    ensures { result ≡ definitions.reached_bytes memory state.now }
{
    let m = memory?;
    reached_by(m, kinds::kind_at(state, m.base))
}

pub fn outside_record(state: &Abstract, bytes: Option<Reached>) -> Option<Reason>
    ensures { result ≡ option_map (definitions.outside_record state.now) bytes }
{
    let bytes = bytes?;
    let least = kinds::length_range(state, bytes.region).min;
    Some(Reason::OutsideRecord(bytes, least))
}

/// Whether a place of the stack is among some bytes and may not be set.
pub fn is_unset_in(set: &StackSet, bytes: Reached, place: u64) -> bool
    ensures { result ≡ definitions.is_unset_in set.now bytes place }
{
    bytes.first <= place as i128 && place as i128 <= bytes.last && !contains_all(set, place, 1)
}

/// The first place of the stack that is among some bytes and may not be set.
#[tactic(auto, using(crate::proofs::Places::none_first, crate::proofs::Places::none_more, crate::proofs::Places::found_first))]
pub fn first_unset(set: &StackSet, bytes: Reached) -> Option<u64>
    ensures { result ≡ first_below STACK_SIZE (definitions.is_unset_in set.now bytes) }
{
    for place in 0..STACK_SIZE as u64 {
        if is_unset_in(set, bytes, place) {
            return Some(place);
        }
    }
    None
}

pub fn unset_byte(set: &StackSet, bytes: Option<Reached>) -> Option<Reason>
    ensures { result ≡ definitions.unset_byte set.now bytes }
{
    let bytes = bytes?;
    let place = first_unset(set, bytes)?;
    Some(Reason::UnsetByte(bytes, place))
}
