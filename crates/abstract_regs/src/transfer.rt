ghost use Rattle.std.specs.Prelude.{◌≡◌, ℕ, ◌≤◌, pos, neg_ℤ, ◌+ℤ◌, ◌≤ℤ◌, true, false, if◌then◌else◌, None, Some, IfSome, slice_set};
ghost use Rattle.verifier_spec.specs.Kinds.{kind_at, length_range, range_of, is_proper_kind, furthest};
ghost use Rattle.verifier_spec.specs.States.{is_proper};
ghost use Rattle.std.specs.Ordering.{int_eq};
ghost use Rattle.std.specs.List.{list_any, fold};
ghost use Rattle.machine_spec.specs.Machine.{signature_of, helper_of};
ghost use Rattle.machine_spec.specs.declared.summary.Direction.TheVariants as direction;
ghost use Rattle.verifier_spec.specs.Checks.{can_move, can_compute_kinds, source_kind, reach_at, may_leave_stack, named_reach, may_be_wrong_room, is_wrong_argument_kind, failed_check};
ghost use Rattle.verifier_spec.specs.Transfer.{with_kind, numbers, on_ranges, moved_address, moved_kind, computed_kind, changed_kind, loaded_kind, with_stored, with_room, with_argument, with_lengths, with_range, narrowed_range, state_after_test, answer_kind, after_call_kinds, called_kinds, met_edge, falls_to, jumps_to};
ghost use Rattle.machine_spec.specs.declared.helper.TheConstants.{HELPERS};

use crate::checks;
use lattice::{kinds, with_places};
use machine_spec::{
    Argument, Change, Condition, Extension, Helper, Instruction, Operation, Region, Size, Source,
    Summary, Test, Width,
};
use verifier_spec::{Abs, Abstract, Interval, Range, StackSet};

// ---- a register's kind

fn put_kind(kinds: &mut [Abs; 11], register: usize, kind: Abs)
    ensures { kinds.new ≡ slice_set kinds.old register kind }
{
    if register < 11 {
        kinds[register] = kind;
    }
}

#[tactic(auto, using(verifier_spec::proofs::Proper::with_kind_proper))]
fn set_kind(state: &mut Abstract, register: u8, kind: Abs)
    requires state { is_proper state.old ≡ true }
    requires kind { is_proper_kind kind ≡ true }
    ensures changed { state.new ≡ with_kind state.old register kind }
    ensures proper { is_proper state.new ≡ true }
{
    put_kind(&mut state.registers, register as usize, kind);
}

// ---- arithmetic

/// The numbers of an interval.
fn numbers(range: Interval) -> Abs
    requires { range.low ≤ range.high }
    ensures kind { result ≡ numbers range }
    ensures proper { is_proper_kind result ≡ true }
{
    Abs::Num(range.low, range.high)
}

/// An operation on an interval and the numbers of another kind.
fn on_ranges(width: Width, operation: Operation, a: Interval, b: Option<Interval>) -> Abs
    requires first { a.low ≤ a.high }
    requires second { IfSome b (λ r. r.low ≤ r.high) }
    ensures kind { result ≡ on_ranges width operation (Some a) b }
    ensures proper { is_proper_kind result ≡ true }
{
    match b {
        Some(range) => numbers(lattice::result_range(width, operation, a, range)),
        None => Abs::None,
    }
}

fn moved_by(at: i64, by: i128) -> i64
    requires from { neg_ℤ (pos furthest) ≤ℤ (at +ℤ by) }
    requires to { (at +ℤ by) ≤ℤ pos furthest }
    ensures { result ≡ at +ℤ by }
{
    (at as i128 + by) as i64
}

fn address_moved(operation: Operation, region: Region, low: i64, high: i64, range: Interval) -> Abs
    requires address { is_proper_kind (Abs.Addr region low high) ≡ true }
    requires range { range.low ≤ range.high }
    requires can { can_move operation low high (Some range) ≡ true }
    ensures moved { result ≡ moved_address operation region low high (Some range) }
    ensures proper { is_proper_kind result ≡ true }
{
    let least = checks::least_displacement(operation, range);
    let greatest = checks::greatest_displacement(operation, range);
    Abs::Addr(region, moved_by(low, least), moved_by(high, greatest))
}

fn moved_address(
    state: &Abstract,
    operation: Operation,
    region: Region,
    ends: (i64, i64),
    by: Abs,
) -> Abs
    requires state { is_proper state.now ≡ true }
    requires address { is_proper_kind (Abs.Addr region ends.0 ends.1) ≡ true }
    requires number { is_proper_kind by ≡ true }
    requires can { can_move operation ends.0 ends.1 (range_of state.now by) ≡ true }
    ensures moved { result ≡ moved_address operation region ends.0 ends.1 (range_of state.now by) }
    ensures proper { is_proper_kind result ≡ true }
{
    match kinds::range_of(state, by) {
        Some(range) => address_moved(operation, region, ends.0, ends.1, range),
        None => Abs::None,
    }
}

#[tactic(auto, using(crate::proofs::Passes::moves_parts))]
fn computed_kind(state: &Abstract, width: Width, operation: Operation, to: Abs, by: Abs) -> Abs
    requires state { is_proper state.now ≡ true }
    requires first { is_proper_kind to ≡ true }
    requires second { is_proper_kind by ≡ true }
    requires can { can_compute_kinds state.now width operation to by ≡ true }
    ensures kind { result ≡ computed_kind state.now width operation to by }
    ensures proper { is_proper_kind result ≡ true }
{
    match to {
        Abs::None => Abs::None,
        Abs::Num(low, high) => on_ranges(
            width,
            operation,
            Interval { low, high },
            kinds::range_of(state, by),
        ),
        Abs::Len(region) => on_ranges(
            width,
            operation,
            kinds::length_interval(state, region),
            kinds::range_of(state, by),
        ),
        Abs::Addr(region, low, high) => moved_address(state, operation, region, (low, high), by),
    }
}

/// What a move of a width moves of a value.
fn moved_kind(state: &Abstract, width: Width, kind: Abs) -> Abs
    requires state { is_proper state.now ≡ true }
    requires kind { is_proper_kind kind ≡ true }
    ensures kind { result ≡ moved_kind state.now width kind }
    ensures proper { is_proper_kind result ≡ true }
{
    match width {
        Width::Bits32 => match kinds::range_of(state, kind) {
            Some(range) => numbers(lattice::cut(Width::Bits32, range)),
            None => Abs::None,
        },
        Width::Bits64 => kind,
    }
}

fn changed_kind(state: &Abstract, change: Change, kind: Abs) -> Abs
    requires state { is_proper state.now ≡ true }
    requires kind { is_proper_kind kind ≡ true }
    ensures kind { result ≡ changed_kind state.now change kind }
    ensures proper { is_proper_kind result ≡ true }
{
    match kinds::range_of(state, kind) {
        Some(range) => numbers(lattice::changed_range(change, range)),
        None => Abs::None,
    }
}

// ---- memory

fn loaded_kind(size: Size, extension: Extension) -> Abs
    ensures kind { result ≡ loaded_kind size extension }
    ensures proper { is_proper_kind result ≡ true }
{
    match extension {
        Extension::Zero => match size {
            Size::Byte => Abs::Num(0, u8::MAX as u64),
            Size::Half => Abs::Num(0, u16::MAX as u64),
            Size::Word => Abs::Num(0, u32::MAX as u64),
            Size::Double => Abs::Num(0, u64::MAX),
        },
        Extension::Sign => Abs::Num(0, u64::MAX),
    }
}

/// Whether an address from low to high, and the offset, is one place.
fn is_one_place(low: i64, high: i64, offset: i16) -> bool
    ensures { result ≡ int_eq (low +ℤ offset) (high +ℤ offset) }
{
    checks::first_byte(low, offset) == checks::first_byte(high, offset)
}

/// The set of stack bytes after a store to base + offset: it sets those at one known place.
#[tactic(auto, using(crate::proofs::Stores::place_inside))]
fn with_stored(set: &StackSet, base: Abs, offset: i16, size: Size) -> StackSet
    requires inside { may_leave_stack (reach_at direction.Write base offset size) ≡ false }
    ensures { result ≡ with_stored set.now (reach_at direction.Write base offset size) }
{
    match base {
        Abs::Addr(region, low, high) => {
            if region.is_stack() && is_one_place(low, high, offset) {
                with_places(
                    set,
                    checks::first_place(low, offset),
                    u64::from(size.byte_count()),
                )
            } else {
                *set
            }
        }
        Abs::None => *set,
        Abs::Num(_, _) => *set,
        Abs::Len(_) => *set,
    }
}

#[tactic(auto, using(crate::proofs::Passes::store_inside, verifier_spec::proofs::Proper::with_set_proper), unfolding(verifier_spec::specs::Transfer::falls_to))]
fn store(state: &mut Abstract, size: Size, base: u8, offset: i16, source: Source)
    requires state { is_proper state.old ≡ true }
    requires passes { failed_check HELPERS (Instruction.Store size base offset source) state.old ≡ None }
    ensures stored { Some state.new ≡ falls_to (Instruction.Store size base offset source) state.old }
    ensures proper { is_proper state.new ≡ true }
{
    state.set = with_stored(&state.set, kinds::kind_at(state, base), offset, size);
}

// ---- conditional jumps by a constant

/// Sets the range of a region's lengths.
#[tactic(auto, using(verifier_spec::proofs::Proper::with_lengths_proper))]
fn set_lengths(state: &mut Abstract, region: Region, range: Range)
    requires state { is_proper state.old ≡ true }
    requires range { range.min ≤ range.max }
    requires inside { range.max ≤ (length_range state.old region).max }
    ensures changed { state.new ≡ with_lengths state.old region range }
    ensures proper { is_proper state.new ≡ true }
{
    match region {
        Region::Stack => {}
        Region::Key => state.key = range,
        Region::Value => state.value = range,
    }
}

/// Leaves these lengths of a region, if there are any.
#[tactic(auto, using(verifier_spec::proofs::Proper::length_range_limit))]
fn narrow_lengths(
    state: &mut Abstract,
    register: u8,
    region: Region,
    narrow: Option<Interval>,
) -> bool
    requires state { is_proper state.old ≡ true }
    requires range { IfSome narrow (λ r. (r.low ≤ r.high) × (r.high ≤ (length_range state.old region).max)) }
    ensures edge { (if result then Some state.new else None) ≡ with_range state.old register (Abs.Len region) narrow }
    ensures proper { is_proper state.new ≡ true }
{
    match narrow {
        Some(part) => {
            let range = Range {
                min: part.low as u32,
                max: part.high as u32,
            };
            set_lengths(state, region, range);
            true
        }
        None => false,
    }
}

/// Leaves these numbers of a register, if there are any.
fn narrow_numbers(state: &mut Abstract, register: u8, narrow: Option<Interval>) -> bool
    requires state { is_proper state.old ≡ true }
    requires range { IfSome narrow (λ r. r.low ≤ r.high) }
    ensures edge { (low high : ℕ) → (if result then Some state.new else None) ≡ with_range state.old register (Abs.Num low high) narrow }
    ensures proper { is_proper state.new ≡ true }
{
    match narrow {
        Some(part) => {
            set_kind(state, register, numbers(part));
            true
        }
        None => false,
    }
}

/// The state along an edge of a jump by a constant, of a register of this kind. Returns whether the edge may be taken.
fn follow_edge(
    state: &mut Abstract,
    test: (Width, Test),
    along: bool,
    register: u8,
    kind: Abs,
    constant: u64,
) -> bool
    requires state { is_proper state.old ≡ true }
    requires kind { is_proper_kind kind ≡ true }
    ensures edge { (if result then Some state.new else None)
        ≡ with_range state.old register kind (narrowed_range test.0 test.1 along (range_of state.old kind) constant) }
    ensures proper { is_proper state.new ≡ true }
{
    match kind {
        Abs::None => true,
        Abs::Num(low, high) => {
            let range = Interval { low, high };
            let narrow = lattice::narrowed(test.0, test.1, along, range, constant);
            narrow_numbers(state, register, narrow)
        }
        Abs::Len(region) => {
            let range = kinds::length_interval(state, region);
            let narrow = lattice::narrowed(test.0, test.1, along, range, constant);
            narrow_lengths(state, register, region, narrow)
        }
        Abs::Addr(_, _, _) => true,
    }
}

fn follow_test(
    state: &mut Abstract,
    test: (Width, Test),
    along: bool,
    register: u8,
    source: Source,
) -> bool
    requires { is_proper state.old ≡ true }
    ensures edge { (if result then Some state.new else None) ≡ state_after_test state.old test.0 test.1 along register source }
    ensures proper { is_proper state.new ≡ true }
{
    match source {
        Source::Register(_) => true,
        Source::Immediate(immediate) => {
            let kind = kinds::kind_at(state, register);
            let constant = kinds::constant(test.0, immediate);
            follow_edge(state, test, along, register, kind, constant)
        }
    }
}

// ---- calls

fn answer_kind(helper: Helper) -> Abs
    ensures kind { result ≡ answer_kind helper }
    ensures proper { is_proper_kind result ≡ true }
{
    Abs::Num(0, helper.signature().greatest)
}

#[tactic(auto, using(crate::proofs::Calls::after_call_eleven))]
fn after_call_kinds(kinds: &[Abs; 11], answer: Abs) -> [Abs; 11]
    ensures { result ≡ after_call_kinds kinds.now answer }
{
    [
        answer,
        Abs::None,
        Abs::None,
        Abs::None,
        Abs::None,
        Abs::None,
        kinds[6],
        kinds[7],
        kinds[8],
        kinds[9],
        kinds[10],
    ]
}

/// Whether an address from low to high is one place.
fn is_known(low: i64, high: i64) -> bool
    ensures { result ≡ int_eq low high }
{
    low == high
}

/// The set of stack bytes after a helper wrote room: where the room is at one known place, as many
/// bytes of it are set as it has at least.
#[tactic(auto, using(crate::proofs::Stores::room_inside))]
fn with_room(set: &StackSet, address: Abs, count: Option<Interval>) -> StackSet
    requires inside { may_be_wrong_room (named_reach direction.Write address count) count ≡ false }
    requires order { IfSome count (λ r. r.low ≤ r.high) }
    ensures { result ≡ with_room set.now address count }
{
    match address {
        Abs::Addr(region, low, high) => match count {
            Some(count) => {
                if region.is_stack() && is_known(low, high) {
                    with_places(set, low.unsigned_abs(), count.low)
                } else {
                    *set
                }
            }
            None => *set,
        },
        Abs::None => *set,
        Abs::Num(_, _) => *set,
        Abs::Len(_) => *set,
    }
}

/// The set of stack bytes after a helper wrote to what one of its arguments names.
fn with_argument(state: &Abstract, set: &StackSet, argument: Argument) -> StackSet
    requires state { is_proper state.now ≡ true }
    requires right { is_wrong_argument_kind state.now argument ≡ false }
    ensures { result ≡ with_argument state.now set.now argument }
{
    match argument {
        Argument::Nothing => *set,
        Argument::Number(_) => *set,
        Argument::Bytes(_, _) => *set,
        Argument::Room(address, count) => {
            let count = kinds::kind_at(state, count);
            with_room(
                set,
                kinds::kind_at(state, address),
                kinds::range_of(state, count),
            )
        }
    }
}

/// The set of stack bytes after a helper wrote to what its arguments name.
#[tactic(auto, using(crate::proofs::Calls::next_right, crate::proofs::Calls::next_fold))]
fn with_arguments(state: &Abstract, arguments: &[Argument]) -> StackSet
    requires state { is_proper state.now ≡ true }
    requires right { list_any (is_wrong_argument_kind state.now) arguments.now ≡ false }
    ensures { result ≡ fold (with_argument state.now) state.now.set arguments.now }
{
    let mut set = state.set;
    for argument in arguments {
        set = with_argument(state, &set, *argument);
    }
    set
}

#[tactic(auto, using(crate::proofs::Calls::called_proper))]
fn call(state: &mut Abstract, helper: Helper)
    requires state { is_proper state.old ≡ true }
    requires right { list_any (is_wrong_argument_kind state.old) (signature_of helper).arguments ≡ false }
    ensures called { Some state.new ≡ called_kinds (Some helper) state.old }
    ensures proper { is_proper state.new ≡ true }
{
    let set = with_arguments(state, &helper.signature().arguments);
    state.registers = after_call_kinds(&state.registers, answer_kind(helper));
    state.set = set;
}

/// The state after a call. Returns whether a helper has the number.
fn call_numbered(state: &mut Abstract, number: i32) -> bool
    requires state { is_proper state.old ≡ true }
    requires passes { failed_check HELPERS (Instruction.Call number) state.old ≡ None }
    ensures called { (if result then Some state.new else None) ≡ called_kinds (helper_of number) state.old }
    ensures proper { is_proper state.new ≡ true }
{
    match Helper::with_number(number) {
        Some(helper) => {
            call(state, helper);
            true
        }
        None => false,
    }
}

// ---- the two edges

#[tactic(auto, using(crate::proofs::Passes::can_compute_passes))]
fn compute(state: &mut Abstract, width: Width, operation: Operation, register: u8, source: Source)
    requires state { is_proper state.old ≡ true }
    requires passes { failed_check HELPERS (Instruction.Compute width operation register source) state.old ≡ None }
    ensures edge { state.new ≡ with_kind state.old register
        (computed_kind state.old width operation (kind_at state.old register) (source_kind state.old width source)) }
    ensures proper { is_proper state.new ≡ true }
{
    let to = kinds::kind_at(state, register);
    let by = kinds::source_kind(state, width, source);
    let kind = computed_kind(state, width, operation, to, by);
    set_kind(state, register, kind);
}

/// Goes on to the next instruction from one whose checks pass. Returns whether a run can come there.
#[tactic(auto, unfolding(verifier_spec::specs::Transfer::falls_to))]
pub fn fall(instruction: Instruction, state: &mut Abstract) -> bool
    requires state { is_proper state.old ≡ true }
    requires passes { failed_check HELPERS instruction state.old ≡ None }
    ensures edge { (if result then Some state.new else None) ≡ falls_to instruction state.old }
    ensures proper { is_proper state.new ≡ true }
{
    match instruction {
        Instruction::Move(width, dst, source) => {
            let kind = kinds::source_kind(state, width, source);
            let kind = moved_kind(state, width, kind);
            set_kind(state, dst, kind);
        }
        Instruction::Compute(width, operation, dst, source) => {
            compute(state, width, operation, dst, source);
        }
        Instruction::Unary(change, dst, src) => {
            let kind = changed_kind(state, change, kinds::kind_at(state, src));
            set_kind(state, dst, kind);
        }
        Instruction::Load(size, extension, dst, _, _) => {
            set_kind(state, dst, loaded_kind(size, extension));
        }
        Instruction::Store(size, base, offset, source) => store(state, size, base, offset, source),
        Instruction::JumpIf(width, test, dst, source, _) => {
            return follow_test(state, (width, test), false, dst, source);
        }
        Instruction::Wide(dst, number) => set_kind(state, dst, Abs::Num(number, number)),
        Instruction::Call(number) => return call_numbered(state, number),
        Instruction::Jump(_) | Instruction::Exit => return false,
    }
    true
}

fn meet(condition: Option<Condition>, state: &mut Abstract) -> bool
    requires { is_proper state.old ≡ true }
    ensures edge { (if result then Some state.new else None) ≡ met_edge condition state.old }
    ensures proper { is_proper state.new ≡ true }
{
    match condition {
        Some(c) => follow_test(state, (c.width, c.test), true, c.dst, c.source),
        None => true,
    }
}

/// Takes an instruction's jump, if it has one. Returns whether a run can take it.
#[tactic(auto, unfolding(verifier_spec::specs::Transfer::jumps_to))]
pub fn jump(instruction: Instruction, state: &mut Abstract) -> bool
    requires { is_proper state.old ≡ true }
    ensures edge { (if result then Some state.new else None) ≡ jumps_to instruction state.old }
    ensures proper { is_proper state.new ≡ true }
{
    let summary = Summary::of(instruction);
    match summary.jump {
        Some(_) => meet(summary.condition, state),
        None => false,
    }
}
