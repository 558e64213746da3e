//! The operands and arguments that are not of the kind that they must be.

ghost use Rattle.std.specs.Prelude.{◌≡◌, Some, find};
ghost use Rattle.verifier_spec.specs.Kinds.{kind_at, range_of};
ghost use Rattle.verifier_spec.specs.Checks.{source_kind, is_wrong_argument_kind};
ghost use Rattle.explain.specs.Reasons as definitions;

use crate::reason::Reason;
use abstract_regs::{greatest_displacement, is_one_sign, is_wrong_argument, least_displacement};
use lattice::kinds;
use machine_spec::{
    Argument, Condition, MemoryOperand, Operands, Operation, Source, Summary, Width,
};
use verifier_spec::{Abs, Abstract, Interval};

// ---- operands

fn no_number(state: &Abstract, register: u8) -> Option<Reason>
    ensures { result ≡ definitions.no_number state.now register }
{
    let kind = kinds::kind_at(state, register);
    if kinds::is_number(kind) {
        None
    } else {
        Some(Reason::NoNumber(register, kind))
    }
}

fn no_number_source(state: &Abstract, source: Source) -> Option<Reason>
    ensures { result ≡ definitions.no_number_source state.now source }
{
    match source {
        Source::Register(register) => no_number(state, register),
        Source::Immediate(_) => None,
    }
}

fn no_sign(state: &Abstract, dst: u8, source: Source) -> Option<Reason>
    ensures { result ≡ definitions.no_sign state.now dst source }
{
    match source {
        Source::Register(register) => {
            let kind = kinds::kind_at(state, register);
            Some(Reason::NoSign(dst, register, kind))
        }
        Source::Immediate(_) => None,
    }
}

/// An address moved by numbers of different signs, or too far.
fn wrong_sum(
    state: &Abstract,
    operation: Operation,
    dst: u8,
    source: Source,
    range: Interval,
) -> Option<Reason>
    ensures { result ≡ definitions.wrong_move state.now operation dst source (Some range) }
{
    if is_one_sign(range) {
        Some(Reason::TooFar(
            dst,
            kinds::kind_at(state, dst),
            least_displacement(operation, range),
            greatest_displacement(operation, range),
        ))
    } else {
        no_sign(state, dst, source)
    }
}

/// An address moved by what is no number, or by one that moves it wrongly.
fn wrong_move(
    state: &Abstract,
    width: Width,
    operation: Operation,
    dst: u8,
    source: Source,
) -> Option<Reason>
    ensures { result ≡ definitions.wrong_move state.now operation dst source (range_of state.now (source_kind state.now width source)) }
{
    match kinds::range_of(state, kinds::source_kind(state, width, source)) {
        Some(range) => wrong_sum(state, operation, dst, source, range),
        None => no_number_source(state, source),
    }
}

/// What an operation doesn't take.
fn wrong_operand(
    state: &Abstract,
    width: Width,
    operation: Operation,
    dst: u8,
    source: Source,
) -> Option<Reason>
    ensures { result ≡ definitions.wrong_operand state.now width operation dst source (kind_at state.now dst) }
{
    match kinds::kind_at(state, dst) {
        Abs::None => no_number(state, dst),
        Abs::Num(_, _) => no_number_source(state, source),
        Abs::Len(_) => no_number_source(state, source),
        Abs::Addr(_, _, _) => {
            if operation.moves_address(width) {
                wrong_move(state, width, operation, dst, source)
            } else {
                no_number(state, dst)
            }
        }
    }
}

fn wrong_operands(takes: Operands, state: &Abstract) -> Option<Reason>
    ensures { result ≡ definitions.wrong_operands takes state.now }
{
    match takes {
        Operands::Nothing => None,
        Operands::Any(_) => None,
        Operands::Number(_, source) => no_number_source(state, source),
        Operands::Computed(width, operation, dst, source) => {
            wrong_operand(state, width, operation, dst, source)
        }
    }
}

fn no_address(state: &Abstract, register: u8) -> Option<Reason>
    ensures { result ≡ definitions.no_address state.now register }
{
    let kind = kinds::kind_at(state, register);
    if kinds::is_address(kind) {
        None
    } else {
        Some(Reason::NoAddress(register, kind))
    }
}

fn wrong_base(memory: Option<MemoryOperand>, state: &Abstract) -> Option<Reason>
    ensures { result ≡ definitions.wrong_base memory state.now }
{
    no_address(state, memory?.base)
}

fn wrong_condition(condition: Option<Condition>, state: &Abstract) -> Option<Reason>
    ensures { result ≡ definitions.wrong_condition condition state.now }
{
    let c = condition?;
    no_number(state, c.dst).or(no_number_source(state, c.source))
}

/// The first operand that is not of the kind that it must be.
pub fn wrong_type(summary: Summary, state: &Abstract) -> Option<Reason>
    ensures { result ≡ definitions.wrong_type summary state.now }
{
    wrong_operands(summary.takes, state).or(wrong_base(summary.memory, state).or(wrong_condition(
        summary.condition,
        state,
    )))
}

// ---- arguments of a call

fn first_wrong(state: &Abstract, arguments: &[Argument]) -> Option<Argument>
    ensures { result ≡ find (is_wrong_argument_kind state.now) arguments.now }
{
    for argument in arguments {
        if is_wrong_argument(state, *argument) {
            return Some(*argument);
        }
    }
    None
}

pub fn first_wrong_argument(summary: Summary, state: &Abstract) -> Option<Argument>
    ensures { result ≡ definitions.first_wrong_argument summary state.now }
{
    first_wrong(state, &summary.helper()?.signature().arguments)
}

/// The kind that an argument's address or length should not have, if one has such a kind.
fn wrong_pair(state: &Abstract, address: u8, count: u8) -> Option<Reason>
    ensures { result ≡ definitions.wrong_pair state.now address count }
{
    let kind = kinds::kind_at(state, address);
    let count_kind = kinds::kind_at(state, count);
    if !kinds::is_address(kind) {
        Some(Reason::NoAddress(address, kind))
    } else if !kinds::is_number(count_kind) {
        Some(Reason::NoNumber(count, count_kind))
    } else {
        None
    }
}

fn wrong_bytes(state: &Abstract, address: u8, count: u8) -> Reason
    ensures { result ≡ definitions.wrong_bytes state.now address count }
{
    let kind = kinds::kind_at(state, address);
    let count_kind = kinds::kind_at(state, count);
    let wrong = Reason::WrongBytes(address, kind, count, count_kind);
    wrong_pair(state, address, count).unwrap_or(wrong)
}

fn wrong_room(state: &Abstract, address: u8, count: u8) -> Reason
    ensures { result ≡ definitions.wrong_room state.now address count }
{
    let kind = kinds::kind_at(state, address);
    let count_kind = kinds::kind_at(state, count);
    let wrong = Reason::WrongRoom(address, kind, count, count_kind);
    wrong_pair(state, address, count).unwrap_or(wrong)
}

pub fn wrong_argument(state: &Abstract, argument: Option<Argument>) -> Option<Reason>
    ensures { result ≡ definitions.wrong_argument state.now argument }
{
    match argument {
        Some(Argument::Number(register)) => {
            let kind = kinds::kind_at(state, register);
            Some(Reason::NoNumber(register, kind))
        }
        Some(Argument::Bytes(address, count)) => Some(wrong_bytes(state, address, count)),
        Some(Argument::Room(address, count)) => Some(wrong_room(state, address, count)),
        Some(Argument::Nothing) => None,
        None => None,
    }
}
