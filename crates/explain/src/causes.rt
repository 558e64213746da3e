//! What a refusal is about.

ghost use Rattle.std.specs.Prelude.{◌≡◌};
ghost use Rattle.std.specs.Option.{option_copied};
ghost use Rattle.machine_spec.specs.Summaries.{summary_of};
ghost use Rattle.explain.specs.Reasons as definitions;

use crate::accesses::{outside_record, reached_bytes, unset_byte};
use crate::graph::landing_slot;
use crate::operands::{first_wrong_argument, wrong_argument, wrong_type};
use crate::reason::Reason;
use crate::registers::unknown_register;
use abstract_regs::State;
use bpf_isa::Code;
use lattice::kinds;
use machine_spec::{Placed, Summary};
use notes::claim_at;
use verifier_spec::{Abstract, Check, VerifyFault};

// ---- jumps

fn landing_of(placed: Placed) -> Option<i128>
    ensures { result ≡ definitions.landing_of placed }
{
    let offset = Summary::of(placed.instruction).jump?;
    Some(landing_slot(placed.slot, offset))
}

// ---- by check

/// What a failed check of an instruction's shape is about.
fn shape_reason(placed: Placed, check: Check) -> Option<Reason>
    ensures { result ≡ definitions.shape_reason placed check }
{
    match check {
        Check::JumpTarget => landing_of(placed).map(Reason::NoTarget),
        Check::BackJump => landing_of(placed).map(Reason::Back),
        Check::RunsOff => Some(Reason::Last),
        Check::Frame
        | Check::Helper
        | Check::Unset
        | Check::WrongType
        | Check::ReadOnly
        | Check::RecordBounds
        | Check::StackBounds
        | Check::StackUnset
        | Check::HelperArg
        | Check::Exit
        | Check::Memory
        | Check::Notes => None,
    }
}

/// What a failed check of an instruction is about, in a state.
fn state_reason(placed: Placed, state: &Abstract, check: Check) -> Option<Reason>
    ensures { result ≡ definitions.state_reason placed (summary_of placed.instruction) state.now check }
{
    let summary = Summary::of(placed.instruction);
    match check {
        Check::JumpTarget => shape_reason(placed, Check::JumpTarget),
        Check::BackJump => shape_reason(placed, Check::BackJump),
        Check::RunsOff => shape_reason(placed, Check::RunsOff),
        Check::Frame => Some(Reason::Frame),
        Check::Helper => summary.call.map(Reason::NoHelper),
        Check::Unset => unknown_register(summary, state).map(Reason::Unknown),
        Check::WrongType => wrong_type(summary, state),
        Check::ReadOnly => reached_bytes(summary.memory, state).map(Reason::ReadOnly),
        Check::RecordBounds => outside_record(state, reached_bytes(summary.memory, state)),
        Check::StackBounds => reached_bytes(summary.memory, state).map(Reason::OutsideStack),
        Check::StackUnset => unset_byte(&state.set, reached_bytes(summary.memory, state)),
        Check::HelperArg => wrong_argument(state, first_wrong_argument(summary, state)),
        Check::Exit => Some(Reason::NoNumber(0, kinds::kind_at(state, 0))),
        Check::Memory => None,
        Check::Notes => None,
    }
}

fn reason_of(placed: Placed, claim: Option<&State>, check: Check) -> Option<Reason>
    ensures { result ≡ definitions.reason_of placed (option_copied claim.entry) check }
{
    match claim {
        Some(state) => state_reason(placed, state.as_abstract(), check),
        None => shape_reason(placed, check),
    }
}

/// What a fault of code with these states is about.
pub fn reason_at(code: &Code, states: &[Option<State>], fault: VerifyFault) -> Option<Reason>
    ensures { result ≡ definitions.reason_at code.now states.now fault }
{
    if fault.pc < code.len() {
        reason_of(code.get(fault.pc), claim_at(states, fault.pc), fault.kind)
    } else {
        None
    }
}
