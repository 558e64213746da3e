ghost use Rattle.std.specs.Prelude.{◌≡◌, length};
ghost use Rattle.std.specs.List.{list_all};
ghost use Rattle.verifier_spec.specs.Ranges.{is_proper_range};
ghost use Rattle.verifier_spec.specs.Kinds.{is_proper_kind};
ghost use Rattle.verifier_spec.specs.States.{is_proper};

use verifier_spec::{Abs, Abstract, Range};
use wire_spec::{MAX_KEY, MAX_VALUE};

/// The furthest that an address's offset may be from 0, either way: 2^32 bytes.
const FURTHEST: i64 = 4_294_967_296;

fn is_proper_kind(kind: Abs) -> bool
    ensures { result ≡ is_proper_kind kind }
{
    match kind {
        Abs::None => true,
        Abs::Num(lo, hi) => lo <= hi,
        Abs::Len(region) => !region.is_stack(),
        Abs::Addr(_, lo, hi) => -FURTHEST <= lo && (lo <= hi && hi <= FURTHEST),
    }
}

fn are_proper_kinds(kinds: &[Abs; 11]) -> bool
    ensures proper { result ≡ list_all is_proper_kind kinds.now }
    ensures count { length kinds.now ≡ 11 }
{
    kinds.iter().all(|kind| is_proper_kind(*kind))
}

/// Whether a range has a length, and none above a limit.
fn is_proper_range(limit: u32, range: Range) -> bool
    ensures { result ≡ is_proper_range limit range }
{
    range.min <= range.max && range.max <= limit
}

/// Whether each kind and the ranges of lengths are in their ranges.
#[tactic(auto, unfolding(verifier_spec::specs::States::is_proper))]
pub fn is_proper(state: &Abstract) -> bool
    ensures { result ≡ is_proper state.now }
{
    are_proper_kinds(&state.registers)
        && (is_proper_range(MAX_KEY as u32, state.key)
            && is_proper_range(MAX_VALUE as u32, state.value))
}
