ghost use Rattle.std.specs.Prelude.{◌≡◌, ◌+◌, pos, neg_ℤ, ◌+ℤ◌, ◌&&◌, ◌||◌, int_le, unsigned_abs};
ghost use Rattle.std.specs.List.{list_any, flat_map};
ghost use Rattle.machine_spec.specs.Arithmetic.{signed};
ghost use Rattle.machine_spec.specs.Traps.{source_registers, operand_registers, base_registers, condition_registers, argument_registers, arguments_of};
ghost use Rattle.verifier_spec.specs.Kinds.{kind_at, is_unknown, furthest};
ghost use Rattle.verifier_spec.specs.Checks.{reads_unknown, is_one_sign, least_displacement, greatest_displacement, can_move, can_compute_kinds, has_wrong_kinds, has_wrong_base_kind, has_wrong_condition_kind, reach_at, reach_of, may_write_record, may_leave_record, may_leave_stack, may_read_unset, named_reach, may_name_wrongly, may_be_wrong_room, is_whole, is_wrong_argument_kind, may_exit_wrongly, failed_check};
ghost use Rattle.machine_spec.specs.Image.{helpers_of};

use lattice::{contains_all, kinds, same_region};
use machine_spec::{
    Argument, Condition, Direction, Helper, Instruction, MemoryOperand, Operands, Operation,
    Region, STACK_SIZE, Source, Summary, Table, Width,
};
use verifier_spec::{Abs, Abstract, Check, Interval};

/// The first number that is negative where it is read as signed: 2^63.
const FIRST_NEGATIVE: u64 = 9_223_372_036_854_775_808;

// ---- registers that are read

fn is_unknown_at(state: &Abstract, register: u8) -> bool
    ensures { result ≡ is_unknown (kind_at state.now register) }
{
    kinds::is_unknown(kinds::kind_at(state, register))
}

fn is_unknown_source(state: &Abstract, source: Source) -> bool
    ensures { result ≡ list_any (λ r. is_unknown (kind_at state.now r)) (source_registers source) }
{
    match source {
        Source::Register(register) => is_unknown_at(state, register),
        Source::Immediate(_) => false,
    }
}

fn is_unknown_operand(state: &Abstract, takes: Operands) -> bool
    ensures { result ≡ list_any (λ r. is_unknown (kind_at state.now r)) (operand_registers takes) }
{
    match takes {
        Operands::Nothing => false,
        Operands::Any(source) => is_unknown_source(state, source),
        Operands::Number(_, source) => is_unknown_source(state, source),
        Operands::Computed(_, _, dst, source) => {
            is_unknown_at(state, dst) || is_unknown_source(state, source)
        }
    }
}

fn is_unknown_base(state: &Abstract, memory: Option<MemoryOperand>) -> bool
    ensures { result ≡ list_any (λ r. is_unknown (kind_at state.now r)) (base_registers memory) }
{
    match memory {
        Some(m) => is_unknown_at(state, m.base),
        None => false,
    }
}

fn is_unknown_in_condition(state: &Abstract, condition: Option<Condition>) -> bool
    ensures { result ≡ list_any (λ r. is_unknown (kind_at state.now r)) (condition_registers condition) }
{
    match condition {
        Some(c) => is_unknown_at(state, c.dst) || is_unknown_source(state, c.source),
        None => false,
    }
}

fn is_unknown_argument(state: &Abstract, argument: Argument) -> bool
    ensures { result ≡ list_any (λ r. is_unknown (kind_at state.now r)) (argument_registers argument) }
{
    match argument {
        Argument::Nothing => false,
        Argument::Number(register) => is_unknown_at(state, register),
        Argument::Bytes(address, count) | Argument::Room(address, count) => {
            is_unknown_at(state, address) || is_unknown_at(state, count)
        }
    }
}

fn is_one_unknown(state: &Abstract, arguments: &[Argument]) -> bool
    ensures { result ≡ list_any (λ a. list_any (λ r. is_unknown (kind_at state.now r)) (argument_registers a)) arguments.now }
{
    for argument in arguments {
        if is_unknown_argument(state, *argument) {
            return true;
        }
    }
    false
}

#[tactic(auto, using(crate::proofs::ReadParts::reads_each))]
fn is_unknown_in_call(state: &Abstract, helper: Option<Helper>) -> bool
    ensures { result ≡ list_any (λ r. is_unknown (kind_at state.now r)) (flat_map argument_registers (arguments_of helper)) }
{
    match helper {
        Some(helper) => is_one_unknown(state, &helper.signature().arguments),
        None => false,
    }
}

#[tactic(auto, using(crate::proofs::ReadParts::reads_parts))]
fn reads_unknown(summary: Summary, state: &Abstract) -> bool
    ensures { result ≡ reads_unknown summary state.now }
{
    is_unknown_operand(state, summary.takes)
        || is_unknown_base(state, summary.memory)
        || is_unknown_in_condition(state, summary.condition)
        || is_unknown_in_call(state, summary.helper())
        || (summary.exits && is_unknown_at(state, 0))
}

// ---- kinds that an instruction takes

/// Whether the numbers of an interval, read as signed, are all negative or none of them is.
pub fn is_one_sign(range: Interval) -> bool
    ensures { result ≡ is_one_sign range }
{
    range.high < FIRST_NEGATIVE || FIRST_NEGATIVE <= range.low
}

/// A number read as signed, in as many bits as its negative needs.
fn signed(number: u64) -> i128
    ensures { result ≡ signed Width.Bits64 number }
{
    i128::from(number.cast_signed())
}

fn negative(number: u64) -> i128
    ensures { result ≡ neg_ℤ (signed Width.Bits64 number) }
{
    -i128::from(number.cast_signed())
}

/// The least displacement that an operation makes of a number of an interval.
pub fn least_displacement(operation: Operation, range: Interval) -> i128
    ensures { result ≡ least_displacement operation range }
{
    if operation.is_subtraction() {
        negative(range.high)
    } else {
        signed(range.low)
    }
}

/// The greatest displacement that an operation makes of a number of an interval.
pub fn greatest_displacement(operation: Operation, range: Interval) -> i128
    ensures { result ≡ greatest_displacement operation range }
{
    if operation.is_subtraction() {
        negative(range.low)
    } else {
        signed(range.high)
    }
}

/// Whether a displaced offset is within the range of an address, from its low end on.
fn is_after_least(at: i64, operation: Operation, range: Interval) -> bool
    ensures { result ≡ int_le (neg_ℤ (pos furthest)) (at +ℤ least_displacement operation range) }
{
    -4_294_967_296 - i128::from(at) <= least_displacement(operation, range)
}

fn is_before_greatest(at: i64, operation: Operation, range: Interval) -> bool
    ensures { result ≡ int_le (at +ℤ greatest_displacement operation range) (pos furthest) }
{
    greatest_displacement(operation, range) <= 4_294_967_296 - i128::from(at)
}

fn can_move(operation: Operation, low: i64, high: i64, range: Option<Interval>) -> bool
    ensures { result ≡ can_move operation low high range }
{
    match range {
        Some(range) => {
            is_one_sign(range)
                && (is_after_least(low, operation, range)
                    && is_before_greatest(high, operation, range))
        }
        None => false,
    }
}

fn can_compute(state: &Abstract, width: Width, operation: Operation, to: Abs, by: Abs) -> bool
    ensures { result ≡ can_compute_kinds state.now width operation to by }
{
    match to {
        Abs::None => false,
        Abs::Num(_, _) => kinds::is_number(by),
        Abs::Len(_) => kinds::is_number(by),
        Abs::Addr(_, low, high) => {
            operation.moves_address(width)
                && can_move(operation, low, high, kinds::range_of(state, by))
        }
    }
}

fn has_wrong_kinds(takes: Operands, state: &Abstract) -> bool
    ensures { result ≡ has_wrong_kinds takes state.now }
{
    match takes {
        Operands::Nothing => false,
        Operands::Any(_) => false,
        Operands::Number(width, source) => {
            !kinds::is_number(kinds::source_kind(state, width, source))
        }
        Operands::Computed(width, operation, dst, source) => !can_compute(
            state,
            width,
            operation,
            kinds::kind_at(state, dst),
            kinds::source_kind(state, width, source),
        ),
    }
}

fn has_wrong_base_kind(memory: Option<MemoryOperand>, state: &Abstract) -> bool
    ensures { result ≡ has_wrong_base_kind memory state.now }
{
    match memory {
        Some(m) => !kinds::is_address(kinds::kind_at(state, m.base)),
        None => false,
    }
}

fn has_wrong_condition_kind(condition: Option<Condition>, state: &Abstract) -> bool
    ensures { result ≡ has_wrong_condition_kind condition state.now }
{
    match condition {
        Some(c) => {
            !(kinds::is_number(kinds::kind_at(state, c.dst))
                && kinds::is_number(kinds::source_kind(state, c.width, c.source)))
        }
        None => false,
    }
}

// ---- bytes that may be read or written

pub fn first_byte(low: i64, offset: i16) -> i128
    ensures { result ≡ low +ℤ offset }
{
    low as i128 + offset as i128
}

fn end_byte(high: i64, offset: i16, size: u8) -> i128
    ensures { result ≡ (high +ℤ offset) +ℤ pos size }
{
    let last = high as i128 + offset as i128;
    last + size as i128
}

/// Whether the bytes at the offset from any place from low to high lie in the first `length` bytes.
fn is_reach_within(low: i64, high: i64, offset: i16, size: u8, length: u32) -> bool
    ensures { result ≡ (int_le (pos 0) (low +ℤ offset) && int_le ((high +ℤ offset) +ℤ pos size) (pos length)) }
{
    0 <= first_byte(low, offset) && end_byte(high, offset, size) <= length as i128
}

fn access_writes_record(m: MemoryOperand, base: Abs) -> bool
    ensures { result ≡ may_write_record (reach_at m.direction base m.offset m.size) }
{
    match base {
        Abs::Addr(region, _, _) => !m.direction.is_read() && !region.is_stack(),
        Abs::None => false,
        Abs::Num(_, _) => false,
        Abs::Len(_) => false,
    }
}

fn may_write_record(memory: Option<MemoryOperand>, state: &Abstract) -> bool
    ensures { result ≡ may_write_record (reach_of memory state.now) }
{
    match memory {
        Some(m) => access_writes_record(m, kinds::kind_at(state, m.base)),
        None => false,
    }
}

fn access_leaves_record(state: &Abstract, m: MemoryOperand, base: Abs) -> bool
    ensures { result ≡ may_leave_record state.now (reach_at m.direction base m.offset m.size) }
{
    match base {
        Abs::Addr(region, low, high) => {
            let length = kinds::length_range(state, region).min;
            !region.is_stack() && !is_reach_within(low, high, m.offset, m.size.byte_count(), length)
        }
        Abs::None => false,
        Abs::Num(_, _) => false,
        Abs::Len(_) => false,
    }
}

fn may_leave_record(memory: Option<MemoryOperand>, state: &Abstract) -> bool
    ensures { result ≡ may_leave_record state.now (reach_of memory state.now) }
{
    match memory {
        Some(m) => access_leaves_record(state, m, kinds::kind_at(state, m.base)),
        None => false,
    }
}

fn access_leaves_stack(m: MemoryOperand, base: Abs) -> bool
    ensures { result ≡ may_leave_stack (reach_at m.direction base m.offset m.size) }
{
    match base {
        Abs::Addr(region, low, high) => {
            region.is_stack()
                && !is_reach_within(low, high, m.offset, m.size.byte_count(), STACK_SIZE as u32)
        }
        Abs::None => false,
        Abs::Num(_, _) => false,
        Abs::Len(_) => false,
    }
}

fn may_leave_stack(memory: Option<MemoryOperand>, state: &Abstract) -> bool
    ensures { result ≡ may_leave_stack (reach_of memory state.now) }
{
    match memory {
        Some(m) => access_leaves_stack(m, kinds::kind_at(state, m.base)),
        None => false,
    }
}

pub fn first_place(low: i64, offset: i16) -> u64
    ensures { result ≡ unsigned_abs (low +ℤ offset) }
{
    first_byte(low, offset).unsigned_abs() as u64
}

fn reach_length(low: i64, high: i64, offset: i16, size: u8) -> u128
    ensures { result ≡ unsigned_abs ((high +ℤ offset) +ℤ neg_ℤ (low +ℤ offset)) + size }
{
    let apart = first_byte(high, offset) - first_byte(low, offset);
    apart.unsigned_abs() + size as u128
}

fn access_reads_unset(state: &Abstract, m: MemoryOperand, base: Abs) -> bool
    ensures { result ≡ may_read_unset state.now (reach_at m.direction base m.offset m.size) }
{
    match base {
        Abs::Addr(region, low, high) => {
            if m.direction.is_read() && region.is_stack() {
                let first = first_place(low, m.offset);
                let count = reach_length(low, high, m.offset, m.size.byte_count());
                !contains_all(&state.set, first, count)
            } else {
                false
            }
        }
        Abs::None => false,
        Abs::Num(_, _) => false,
        Abs::Len(_) => false,
    }
}

fn may_read_unset(memory: Option<MemoryOperand>, state: &Abstract) -> bool
    ensures { result ≡ may_read_unset state.now (reach_of memory state.now) }
{
    match memory {
        Some(m) => access_reads_unset(state, m, kinds::kind_at(state, m.base)),
        None => false,
    }
}

// ---- bytes that a helper reads

/// Whether `count` bytes from any place from `low` to `high` lie in the first `length` of a region.
fn are_within(low: i64, high: i64, count: u64, length: u32) -> bool
    ensures { result ≡ (int_le (pos 0) low && int_le (high +ℤ pos count) (pos length)) }
{
    0 <= low && high as i128 + count as i128 <= length as i128
}

/// How many places there are from `low` up to `high` and `count` more.
fn count_from(low: i64, high: i64, count: u64) -> u128
    ensures { result ≡ unsigned_abs (high +ℤ neg_ℤ low) + count }
{
    let apart = high as i128 - low as i128;
    apart.unsigned_abs() + count as u128
}

/// Whether `count` bytes from a place from `low` to `high` may lie outside their region or not be
/// set.
fn may_be_missing(state: &Abstract, region: Region, low: i64, high: i64, count: u64) -> bool
    ensures { result ≡ may_name_wrongly state.now (Some (record {
      direction = Direction.Read;
      region = region;
      low = low;
      high = high;
      size = count;
    })) }
{
    match region {
        Region::Stack => {
            !are_within(low, high, count, STACK_SIZE as u32)
                || !contains_all(&state.set, low.unsigned_abs(), count_from(low, high, count))
        }
        Region::Key | Region::Value => {
            !are_within(low, high, count, kinds::length_range(state, region).min)
        }
    }
}

fn may_name_wrongly(state: &Abstract, address: Abs, count: Option<Interval>) -> bool
    ensures { result ≡ may_name_wrongly state.now (named_reach Direction.Read address count) }
{
    match address {
        Abs::Addr(region, low, high) => match count {
            Some(count) => may_be_missing(state, region, low, high, count.high),
            None => true,
        },
        Abs::None => true,
        Abs::Num(_, _) => true,
        Abs::Len(_) => true,
    }
}

/// Whether an address and a number name exactly the key or the value.
fn is_whole(address: Abs, count: Abs) -> bool
    ensures { result ≡ is_whole address count }
{
    match address {
        Abs::Addr(region, low, high) => match count {
            Abs::Len(other) => same_region(region, other) && (low == 0 && high == 0),
            Abs::None => false,
            Abs::Num(_, _) => false,
            Abs::Addr(_, _, _) => false,
        },
        Abs::None => false,
        Abs::Num(_, _) => false,
        Abs::Len(_) => false,
    }
}

// ---- room that a helper writes

/// Whether `count` bytes from any place from `low` to `high` may not be on the stack or pass its end.
fn may_leave_room(region: Region, low: i64, high: i64, count: u64) -> bool
    ensures { result ≡ (may_write_record (Some (record {
      direction = Direction.Write;
      region = region;
      low = low;
      high = high;
      size = count;
    })) || may_leave_stack (Some (record {
      direction = Direction.Write;
      region = region;
      low = low;
      high = high;
      size = count;
    }))) }
{
    match region {
        Region::Stack => !are_within(low, high, count, STACK_SIZE as u32),
        Region::Key => true,
        Region::Value => true,
    }
}

/// Whether room may be none at all, not be on the stack or pass its end.
fn may_be_wrong_room(address: Abs, count: Option<Interval>) -> bool
    ensures { result ≡ may_be_wrong_room (named_reach Direction.Write address count) count }
{
    match address {
        Abs::Addr(region, low, high) => match count {
            Some(count) => count.low == 0 || may_leave_room(region, low, high, count.high),
            None => true,
        },
        Abs::None => true,
        Abs::Num(_, _) => true,
        Abs::Len(_) => true,
    }
}

// ---- calls and the exit

/// Whether a helper's argument may not be what it must be.
pub fn is_wrong_argument(state: &Abstract, argument: Argument) -> bool
    ensures { result ≡ is_wrong_argument_kind state.now argument }
{
    match argument {
        Argument::Nothing => false,
        Argument::Number(register) => !kinds::is_number(kinds::kind_at(state, register)),
        Argument::Bytes(address, count) => {
            let address = kinds::kind_at(state, address);
            let count = kinds::kind_at(state, count);
            !is_whole(address, count)
                && may_name_wrongly(state, address, kinds::range_of(state, count))
        }
        Argument::Room(address, count) => {
            let count = kinds::kind_at(state, count);
            may_be_wrong_room(
                kinds::kind_at(state, address),
                kinds::range_of(state, count),
            )
        }
    }
}

fn has_wrong_argument(state: &Abstract, arguments: &[Argument]) -> bool
    ensures { result ≡ list_any (is_wrong_argument_kind state.now) arguments.now }
{
    for argument in arguments {
        if is_wrong_argument(state, *argument) {
            return true;
        }
    }
    false
}

fn may_call_wrongly(state: &Abstract, helper: Option<Helper>) -> bool
    ensures { result ≡ list_any (is_wrong_argument_kind state.now) (arguments_of helper) }
{
    match helper {
        Some(helper) => has_wrong_argument(state, &helper.signature().arguments),
        None => false,
    }
}

fn may_exit_wrongly(exits: bool, state: &Abstract) -> bool
    ensures { result ≡ may_exit_wrongly exits state.now }
{
    exits && !kinds::is_number(kinds::kind_at(state, 0))
}

// ---- the first check that fails

/// The first check of an instruction of a program with a helper table that fails in a state, if one
/// does.
#[tactic(auto, unfolding(verifier_spec::specs::Checks::failed_check))]
pub fn failed_check(instruction: Instruction, state: &Abstract, table: Table) -> Option<Check>
    ensures { result ≡ failed_check (helpers_of table) instruction state.now }
{
    let summary = Summary::of(instruction);
    if summary.writes_frame() {
        Some(Check::Frame)
    } else if summary.calls_no_helper(table) {
        Some(Check::Helper)
    } else if reads_unknown(summary, state) {
        Some(Check::Unset)
    } else if has_wrong_kinds(summary.takes, state) {
        Some(Check::WrongType)
    } else if has_wrong_base_kind(summary.memory, state) {
        Some(Check::WrongType)
    } else if has_wrong_condition_kind(summary.condition, state) {
        Some(Check::WrongType)
    } else if may_write_record(summary.memory, state) {
        Some(Check::ReadOnly)
    } else if may_leave_record(summary.memory, state) {
        Some(Check::RecordBounds)
    } else if may_leave_stack(summary.memory, state) {
        Some(Check::StackBounds)
    } else if may_read_unset(summary.memory, state) {
        Some(Check::StackUnset)
    } else if may_call_wrongly(state, summary.helper()) {
        Some(Check::HelperArg)
    } else if may_exit_wrongly(summary.exits, state) {
        Some(Check::Exit)
    } else {
        None
    }
}
