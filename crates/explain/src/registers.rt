//! The registers that an instruction reads and of which nothing is known.

ghost use Rattle.std.specs.Prelude.{◌≡◌, ◌∷◌, [], if◌then◌else◌, find};
ghost use Rattle.std.specs.List.{flat_map};
ghost use Rattle.machine_spec.specs.Traps.{source_registers, operand_registers, base_registers, condition_registers, argument_registers, arguments_of};
ghost use Rattle.verifier_spec.specs.Kinds.{kind_at, is_unknown};
ghost use Rattle.explain.specs.Reasons as definitions;

use lattice::kinds;
use machine_spec::{Argument, Condition, Helper, MemoryOperand, Operands, Source, Summary};
use verifier_spec::Abstract;

fn unknown_at(state: &Abstract, register: u8) -> Option<u8>
    ensures { result ≡ find (λ r. is_unknown (kind_at state.now r)) (register ∷ []) }
{
    if kinds::is_unknown(kinds::kind_at(state, register)) {
        Some(register)
    } else {
        None
    }
}

fn unknown_of_registers(state: &Abstract, first: u8, second: u8) -> Option<u8>
    ensures { result ≡ find (λ r. is_unknown (kind_at state.now r)) (first ∷ second ∷ []) }
{
    unknown_at(state, first).or(unknown_at(state, second))
}

fn unknown_source(state: &Abstract, source: Source) -> Option<u8>
    ensures { result ≡ find (λ r. is_unknown (kind_at state.now r)) (source_registers source) }
{
    match source {
        Source::Register(register) => unknown_at(state, register),
        Source::Immediate(_) => None,
    }
}

fn unknown_of_two(state: &Abstract, dst: u8, source: Source) -> Option<u8>
    ensures { result ≡ find (λ r. is_unknown (kind_at state.now r)) (dst ∷ source_registers source) }
{
    unknown_at(state, dst).or(unknown_source(state, source))
}

fn unknown_operand(state: &Abstract, takes: Operands) -> Option<u8>
    ensures { result ≡ find (λ r. is_unknown (kind_at state.now r)) (operand_registers takes) }
{
    match takes {
        Operands::Nothing => None,
        Operands::Any(source) => unknown_source(state, source),
        Operands::Number(_, source) => unknown_source(state, source),
        Operands::Computed(_, _, dst, source) => unknown_of_two(state, dst, source),
    }
}

fn unknown_base(state: &Abstract, memory: Option<MemoryOperand>) -> Option<u8>
    ensures { result ≡ find (λ r. is_unknown (kind_at state.now r)) (base_registers memory) }
{
    unknown_at(state, memory?.base)
}

fn unknown_in_condition(state: &Abstract, condition: Option<Condition>) -> Option<u8>
    ensures { result ≡ find (λ r. is_unknown (kind_at state.now r)) (condition_registers condition) }
{
    let c = condition?;
    unknown_of_two(state, c.dst, c.source)
}

fn unknown_argument(state: &Abstract, argument: Argument) -> Option<u8>
    ensures { result ≡ find (λ r. is_unknown (kind_at state.now r)) (argument_registers argument) }
{
    match argument {
        Argument::Nothing => None,
        Argument::Number(register) => unknown_at(state, register),
        Argument::Bytes(address, count) => unknown_of_registers(state, address, count),
        Argument::Room(address, count) => unknown_of_registers(state, address, count),
    }
}

#[tactic(auto, using(crate::proofs::Unknown::in_arguments))]
fn first_unknown_argument(state: &Abstract, arguments: &[Argument]) -> Option<u8>
    ensures { result ≡ find (λ r. is_unknown (kind_at state.now r)) (flat_map argument_registers arguments.now) }
{
    for argument in arguments {
        if let Some(register) = unknown_argument(state, *argument) {
            return Some(register);
        }
    }
    None
}

fn unknown_in_call(state: &Abstract, helper: Option<Helper>) -> Option<u8>
    ensures { result ≡ find (λ r. is_unknown (kind_at state.now r)) (flat_map argument_registers (arguments_of helper)) }
{
    first_unknown_argument(state, &helper?.signature().arguments)
}

fn unknown_at_exit(state: &Abstract, exits: bool) -> Option<u8>
    ensures { result ≡ find (λ r. is_unknown (kind_at state.now r)) (if exits then 0 ∷ [] else []) }
{
    if exits { unknown_at(state, 0) } else { None }
}

/// The first register that an instruction reads and of which nothing is known.
#[tactic(auto, using(crate::proofs::Unknown::unknown_parts))]
pub fn unknown_register(summary: Summary, state: &Abstract) -> Option<u8>
    ensures { result ≡ definitions.unknown_register summary state.now }
{
    unknown_operand(state, summary.takes)
        .or(unknown_base(state, summary.memory))
        .or(unknown_in_condition(state, summary.condition))
        .or(unknown_in_call(state, summary.helper()))
        .or(unknown_at_exit(state, summary.exits))
}
