ghost use Rattle.std.specs.Prelude.{◌≡◌, ◌≤◌, true, IfSome, slice_index_or};
ghost use Rattle.machine_spec.specs.Values.{immediate};
ghost use Rattle.verifier_spec.specs.Ranges.{interval_of};
ghost use Rattle.verifier_spec.specs.Kinds.{kind_at, length_range, range_of, is_unknown, is_number_kind, is_address_kind, is_proper_kind};
ghost use Rattle.verifier_spec.specs.States.{is_proper};
ghost use Rattle.verifier_spec.specs.Checks.{source_kind};

use machine_spec::{Region, STACK_SIZE, Source, Width};
use verifier_spec::{Abs, Abstract, Interval, Range};

/// The kind with a number; past r10, none.
pub fn kind_of(kinds: &[Abs; 11], register: usize) -> Abs
    ensures { result ≡ slice_index_or kinds.now register Abs.None }
{
    if register < 11 {
        kinds[register]
    } else {
        Abs::None
    }
}

/// What a state knows of a register.
#[tactic(auto, using(verifier_spec::proofs::Proper::kind_at_proper))]
pub fn kind_at(state: &Abstract, register: u8) -> Abs
    ensures kind { result ≡ kind_at state.now register }
    ensures proper { is_proper state.now ≡ true → is_proper_kind result ≡ true }
{
    kind_of(&state.registers, register as usize)
}

/// The bits of an immediate in a width, read unsigned (RFC 9669, section 4.1).
pub fn constant(width: Width, constant: i32) -> u64
    ensures { result ≡ immediate width constant }
{
    match width {
        Width::Bits32 => u64::from(constant.cast_unsigned()),
        Width::Bits64 => i64::from(constant).cast_unsigned(),
    }
}

/// What a state knows of the second operand.
pub fn source_kind(state: &Abstract, width: Width, source: Source) -> Abs
    ensures kind { result ≡ source_kind state.now width source }
    ensures proper { is_proper state.now ≡ true → is_proper_kind result ≡ true }
{
    match source {
        Source::Register(register) => kind_at(state, register),
        Source::Immediate(immediate) => {
            let number = constant(width, immediate);
            Abs::Num(number, number)
        }
    }
}

/// The lengths that a region may have.
pub fn length_range(state: &Abstract, region: Region) -> Range
    ensures range { result ≡ length_range state.now region }
    ensures ordered { is_proper state.now ≡ true → result.min ≤ result.max }
{
    match region {
        Region::Stack => Range {
            min: STACK_SIZE as u32,
            max: STACK_SIZE as u32,
        },
        Region::Key => state.key,
        Region::Value => state.value,
    }
}

/// The numbers that a region's length may be.
pub fn length_interval(state: &Abstract, region: Region) -> Interval
    ensures interval { result ≡ interval_of (length_range state.now region) }
    ensures ordered { is_proper state.now ≡ true → result.low ≤ result.high }
{
    let range = length_range(state, region);
    Interval {
        low: range.min as u64,
        high: range.max as u64,
    }
}

/// The numbers that a kind represents, if it represents numbers.
#[tactic(auto, using(verifier_spec::proofs::Proper::range_ordered))]
pub fn range_of(state: &Abstract, kind: Abs) -> Option<Interval>
    ensures range { result ≡ range_of state.now kind }
    ensures ordered { is_proper state.now ≡ true → is_proper_kind kind ≡ true → IfSome result (λ r. r.low ≤ r.high) }
{
    match kind {
        Abs::None => None,
        Abs::Num(low, high) => Some(Interval { low, high }),
        Abs::Len(region) => Some(length_interval(state, region)),
        Abs::Addr(_, _, _) => None,
    }
}

pub fn is_unknown(kind: Abs) -> bool
    ensures { result ≡ is_unknown kind }
{
    match kind {
        Abs::None => true,
        Abs::Num(_, _) => false,
        Abs::Len(_) => false,
        Abs::Addr(_, _, _) => false,
    }
}

pub fn is_number(kind: Abs) -> bool
    ensures { result ≡ is_number_kind kind }
{
    match kind {
        Abs::None => false,
        Abs::Num(_, _) => true,
        Abs::Len(_) => true,
        Abs::Addr(_, _, _) => false,
    }
}

pub fn is_address(kind: Abs) -> bool
    ensures { result ≡ is_address_kind kind }
{
    match kind {
        Abs::None => false,
        Abs::Num(_, _) => false,
        Abs::Len(_) => false,
        Abs::Addr(_, _, _) => true,
    }
}
