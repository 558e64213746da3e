//! The trap of a state, if there is one.
ghost use Rattle.std.specs.Prelude.{◌≡◌, ℕ, ◌+◌, ◌<◌, ◌^◌, is_none};
ghost use Rattle.std.specs.List.{list_any, flat_map};
ghost use Rattle.machine_spec.specs.Image.{jump_target};
ghost use Rattle.machine_spec.specs.Values as values;
ghost use Rattle.machine_spec.specs.Traps as definitions;
ghost use Rattle.machine_spec.specs.Traps.{source_registers, operand_registers, base_registers, condition_registers, argument_registers, arguments_of, first_of, traps};
ghost use Rattle.bpf_machine.specs.Views.{registers_of, stack_of, access_in, AreFirstSlots, IsNear};
ghost use Rattle.bpf_machine.specs.States.{program_run, input_of, state_of};

use crate::machine::Machine;
use crate::memory::{Run, Span, named_access, span_of};
use crate::registers::{REGISTERS, get, operand};
use crate::slots::is_marked;
use crate::stack::Stack;
use crate::tagged::{Tagged, can_compute, is_address, is_nothing, is_number, is_taken};
use machine_spec::{
    Argument, Condition, Direction, Helper, MemoryOperand, Operands, STACK_SIZE, Source, Summary,
    Trap,
};

// ---- registers that are read

fn has_nothing(registers: &[Tagged; REGISTERS], register: u8) -> bool
    ensures { result ≡ values.is_nothing (registers_of registers.now register) }
{
    is_nothing(get(registers, register))
}

fn is_source_nothing(registers: &[Tagged; REGISTERS], source: Source) -> bool
    ensures { result ≡ list_any (λ r. values.is_nothing (registers_of registers.now r)) (source_registers source) }
{
    match source {
        Source::Register(register) => has_nothing(registers, register),
        Source::Immediate(_) => false,
    }
}

fn is_operand_nothing(registers: &[Tagged; REGISTERS], takes: Operands) -> bool
    ensures { result ≡ list_any (λ r. values.is_nothing (registers_of registers.now r)) (operand_registers takes) }
{
    match takes {
        Operands::Nothing => false,
        Operands::Any(source) => is_source_nothing(registers, source),
        Operands::Number(_, source) => is_source_nothing(registers, source),
        Operands::Computed(_, _, dst, source) => {
            has_nothing(registers, dst) || is_source_nothing(registers, source)
        }
    }
}

fn is_base_nothing(registers: &[Tagged; REGISTERS], memory: Option<MemoryOperand>) -> bool
    ensures { result ≡ list_any (λ r. values.is_nothing (registers_of registers.now r)) (base_registers memory) }
{
    match memory {
        Some(m) => has_nothing(registers, m.base),
        None => false,
    }
}

fn is_condition_nothing(registers: &[Tagged; REGISTERS], condition: Option<Condition>) -> bool
    ensures { result ≡ list_any (λ r. values.is_nothing (registers_of registers.now r)) (condition_registers condition) }
{
    match condition {
        Some(c) => has_nothing(registers, c.dst) || is_source_nothing(registers, c.source),
        None => false,
    }
}

fn is_argument_nothing(registers: &[Tagged; REGISTERS], argument: Argument) -> bool
    ensures { result ≡ list_any (λ r. values.is_nothing (registers_of registers.now r)) (argument_registers argument) }
{
    match argument {
        Argument::Nothing => false,
        Argument::Number(register) => has_nothing(registers, register),
        Argument::Bytes(address, count) | Argument::Room(address, count) => {
            has_nothing(registers, address) || has_nothing(registers, count)
        }
    }
}

fn is_one_nothing(registers: &[Tagged; REGISTERS], arguments: &[Argument]) -> bool
    ensures { result ≡ list_any (λ a. list_any (λ r. values.is_nothing (registers_of registers.now r))
        (argument_registers a)) arguments.now }
{
    for argument in arguments {
        if is_argument_nothing(registers, *argument) {
            return true;
        }
    }
    false
}

fn is_call_nothing(registers: &[Tagged; REGISTERS], helper: Option<Helper>) -> bool
    ensures { result ≡ list_any (λ r. values.is_nothing (registers_of registers.now r))
        (flat_map argument_registers (arguments_of helper)) }
{
    match helper {
        Some(helper) => is_one_nothing(registers, &helper.signature().arguments),
        None => false,
    }
}

/// Whether a register that an instruction reads holds nothing.
#[tactic(auto, using(crate::proofs::ReadParts::reads_parts))]
fn reads_unset_register(summary: Summary, registers: &[Tagged; REGISTERS]) -> bool
    ensures { result ≡ definitions.reads_unset_register summary (registers_of registers.now) }
{
    is_operand_nothing(registers, summary.takes)
        || is_base_nothing(registers, summary.memory)
        || is_condition_nothing(registers, summary.condition)
        || is_call_nothing(registers, summary.helper())
        || (summary.exits && has_nothing(registers, 0))
}

// ---- kinds of values

fn has_wrong_operands(takes: Operands, registers: &[Tagged; REGISTERS]) -> bool
    ensures { result ≡ definitions.has_wrong_operands takes (registers_of registers.now) }
{
    match takes {
        Operands::Nothing => false,
        Operands::Any(_) => false,
        Operands::Number(width, source) => !is_number(operand(width, registers, source)),
        Operands::Computed(width, operation, dst, source) => {
            let second = operand(width, registers, source);
            !can_compute(width, operation, get(registers, dst), second)
        }
    }
}

fn has_wrong_base(memory: Option<MemoryOperand>, registers: &[Tagged; REGISTERS]) -> bool
    ensures { result ≡ definitions.has_wrong_base memory (registers_of registers.now) }
{
    match memory {
        Some(m) => !is_address(get(registers, m.base)),
        None => false,
    }
}

fn has_wrong_condition(condition: Option<Condition>, registers: &[Tagged; REGISTERS]) -> bool
    ensures { result ≡ definitions.has_wrong_condition condition (registers_of registers.now) }
{
    match condition {
        Some(c) => {
            !(is_number(get(registers, c.dst)) && is_number(operand(c.width, registers, c.source)))
        }
        None => false,
    }
}

// ---- memory

/// Whether `size` bytes from a place on lie in a region of this length.
fn is_in_region(start: i128, size: u64, length: usize) -> bool
    ensures { result ≡ definitions.is_in_region start size length }
{
    0 <= start && start.unsigned_abs() + size as u128 <= length as u128
}

fn writes_record(span: Option<Span>) -> bool
    ensures { result ≡ definitions.writes_record (access_in span) }
{
    match span {
        Some(span) => !span.direction.is_read() && !span.region.is_stack(),
        None => false,
    }
}

fn leaves_record(run: &Run, span: Option<Span>) -> bool
    ensures { result ≡ definitions.leaves_record (input_of run.now) (access_in span) }
{
    match span {
        Some(span) => {
            if span.region.is_stack() {
                false
            } else {
                !is_in_region(span.start, span.size, run.length_of(span.region))
            }
        }
        None => false,
    }
}

fn leaves_stack(span: Option<Span>) -> bool
    ensures { result ≡ definitions.leaves_stack (access_in span) }
{
    match span {
        Some(span) => {
            if span.region.is_stack() {
                !is_in_region(span.start, span.size, STACK_SIZE)
            } else {
                false
            }
        }
        None => false,
    }
}

fn is_unset(byte: Option<u8>) -> bool
    ensures { result ≡ is_none byte }
{
    match byte {
        Some(_) => false,
        None => true,
    }
}

/// Whether one of `count` bytes from a place on is not set.
fn has_unset(stack: &Stack, place: u128, count: u64) -> bool
    requires { place + count < 2 ^ 128 }
    ensures { result ≡ definitions.has_unset (stack_of stack.now) place count }
{
    for k in 0..count {
        if is_unset(stack.get(place + k as u128)) {
            return true;
        }
    }
    false
}

fn reads_unset(stack: &Stack, span: Option<Span>) -> bool
    ensures { result ≡ definitions.reads_unset (stack_of stack.now) (access_in span) }
{
    match span {
        Some(span) => {
            if span.direction.is_read() && span.region.is_stack() {
                has_unset(stack, span.start.unsigned_abs(), span.size)
            } else {
                false
            }
        }
        None => false,
    }
}

// ---- calls, jumps and the exit

/// Whether bytes that an argument names lie outside their region or are not set, or it names none.
fn names_wrongly(run: &Run, stack: &Stack, span: Option<Span>) -> bool
    ensures { result ≡ definitions.names_wrongly (input_of run.now) (stack_of stack.now) (access_in span) }
{
    match span {
        Some(_) => leaves_record(run, span) || leaves_stack(span) || reads_unset(stack, span),
        None => true,
    }
}

/// Whether room has no byte, is not on the stack or passes its end, or there is none.
fn is_wrong_room(span: Option<Span>) -> bool
    ensures { result ≡ definitions.is_wrong_room (access_in span) }
{
    match span {
        Some(room) => room.size == 0 || writes_record(span) || leaves_stack(span),
        None => true,
    }
}

fn is_wrong_argument(run: &Run, machine: &Machine, argument: Argument) -> bool
    ensures { result ≡ definitions.is_wrong_argument (input_of run.now) (state_of run.now machine.now) argument }
{
    let registers = &machine.registers;
    match argument {
        Argument::Nothing => false,
        Argument::Number(register) => !is_number(get(registers, register)),
        Argument::Bytes(address, count) => {
            let address = get(registers, address);
            let span = named_access(Direction::Read, address, get(registers, count));
            names_wrongly(run, &machine.stack, span)
        }
        Argument::Room(address, count) => {
            let address = get(registers, address);
            is_wrong_room(named_access(Direction::Write, address, get(registers, count)))
        }
    }
}

fn has_wrong_argument(run: &Run, machine: &Machine, arguments: &[Argument]) -> bool
    ensures { result ≡ list_any (definitions.is_wrong_argument (input_of run.now) (state_of run.now machine.now))
        arguments.now }
{
    for argument in arguments {
        if is_wrong_argument(run, machine, *argument) {
            return true;
        }
    }
    false
}

fn calls_wrongly(run: &Run, machine: &Machine, helper: Option<Helper>) -> bool
    ensures { result ≡ list_any (definitions.is_wrong_argument (input_of run.now) (state_of run.now machine.now))
        (arguments_of helper) }
{
    match helper {
        Some(helper) => has_wrong_argument(run, machine, &helper.signature().arguments),
        None => false,
    }
}

fn exits_wrongly(exits: bool, registers: &[Tagged; REGISTERS]) -> bool
    ensures { result ≡ definitions.exits_wrongly exits (registers_of registers.now) }
{
    exits && is_address(get(registers, 0))
}

/// The slot that a jump leads to. A jump back leads nowhere.
#[tactic(auto, using(machine_spec::proofs::Slots::forward_target, machine_spec::proofs::Slots::back_target))]
pub fn jump_target(slot: usize, distance: i32) -> Option<usize>
    requires { slot < 2 ^ 62 }
    ensures { result ≡ jump_target slot distance }
{
    if distance < 0 {
        None
    } else {
        Some(slot + 1 + distance.unsigned_abs() as usize)
    }
}

fn is_valid_target(run: &Run, slot: Option<usize>) -> bool
    requires { AreFirstSlots run.now.image.now run.now.firsts.now }
    ensures { result ≡ definitions.is_valid_target (program_run run.now) slot }
{
    match slot {
        Some(slot) => is_marked(run.firsts, slot),
        None => false,
    }
}

fn is_met(condition: Option<Condition>, registers: &[Tagged; REGISTERS]) -> bool
    ensures { result ≡ definitions.is_met condition (registers_of registers.now) }
{
    match condition {
        Some(c) => {
            let second = operand(c.width, registers, c.source);
            is_taken(c.width, c.test, get(registers, c.dst), second)
        }
        None => true,
    }
}

fn jumps_wrongly(
    run: &Run,
    condition: Option<Condition>,
    jump: Option<i32>,
    machine: &Machine,
) -> bool
    requires firsts { AreFirstSlots run.now.image.now run.now.firsts.now }
    requires slot { machine.now.slot < 2 ^ 62 }
    ensures { result ≡ definitions.jumps_wrongly (program_run run.now) condition jump (state_of run.now machine.now) }
{
    match jump {
        Some(distance) => {
            is_met(condition, &machine.registers)
                && !is_valid_target(run, jump_target(machine.slot, distance))
        }
        None => false,
    }
}

// ---- which trap

/// The trap of an instruction, if there is one, the first in their order.
pub fn trap_of(run: &Run, summary: Summary, machine: &Machine) -> Option<Trap>
    requires firsts { AreFirstSlots run.now.image.now run.now.firsts.now }
    requires slot { machine.now.slot < 2 ^ 62 }
    requires near { (r : ℕ) → IsNear (registers_of machine.now.registers r) }
    ensures { result
        ≡ first_of (traps (program_run run.now) (input_of run.now) summary (state_of run.now machine.now)) }
{
    let registers = &machine.registers;
    let span = span_of(summary.memory, registers);
    if summary.writes_frame() {
        Some(Trap::Frame)
    } else if summary.calls_no_helper(run.table) {
        Some(Trap::Helper)
    } else if reads_unset_register(summary, registers) {
        Some(Trap::Unset)
    } else if has_wrong_operands(summary.takes, registers) {
        Some(Trap::WrongType)
    } else if has_wrong_base(summary.memory, registers) {
        Some(Trap::WrongType)
    } else if has_wrong_condition(summary.condition, registers) {
        Some(Trap::WrongType)
    } else if writes_record(span) {
        Some(Trap::ReadOnly)
    } else if leaves_record(run, span) {
        Some(Trap::RecordBounds)
    } else if leaves_stack(span) {
        Some(Trap::StackBounds)
    } else if reads_unset(&machine.stack, span) {
        Some(Trap::StackUnset)
    } else if calls_wrongly(run, machine, summary.helper()) {
        Some(Trap::HelperArgument)
    } else if exits_wrongly(summary.exits, registers) {
        Some(Trap::Exit)
    } else if jumps_wrongly(run, summary.condition, summary.jump, machine) {
        Some(Trap::Jump)
    } else {
        None
    }
}
