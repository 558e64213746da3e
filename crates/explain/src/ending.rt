//! The end of a listing: how many of its instructions are never reached, and the verdict.

ghost use Rattle.std.specs.Prelude.{◌≡◌, ◌++◌, OnOk, is_some, string_bytes};
ghost use Rattle.verifier_spec.specs.Annotation as claims;
ghost use Rattle.explain.specs.Endings as definitions;

use abstract_regs::State;
use notes::claim_at;
use std::alloc::AllocError;
use verifier_spec::{Check, VerifyFault};

/// Whether an instruction is reached.
pub fn is_reached(states: &[Option<State>], k: usize) -> bool
    ensures { result ≡ is_some (claims.claim_at states.now k) }
{
    claim_at(states, k).is_some()
}

/// How many of the first instructions are never reached.
#[tactic(auto, using(crate::proofs::Counted::one_further, crate::proofs::Counted::none_first))]
fn unreached_count(states: &[Option<State>], count: usize) -> usize
    ensures { result ≡ definitions.unreached_count states.now count }
{
    let mut found = 0;
    for k in 0..count {
        if !is_reached(states, k) {
            found += 1;
        }
    }
    found
}

/// Appends how many of some instructions are never reached, if any.
fn push_unreached(text: &mut String, unreached: usize, count: usize) -> Result<(), AllocError>
    ensures { OnOk result (string_bytes text.new ≡ string_bytes text.old ++ definitions.unreached_text unreached count) }
{
    if unreached == 0 {
        Ok(())
    } else {
        write!(text, "never reached: {unreached} of {count} instructions\n")
    }
}

/// The number and the name of a check.
fn check_text(check: Check) -> &'static str
    ensures { result.now ≡ definitions.check_text check }
{
    match check {
        Check::JumpTarget => "V1 JumpTarget",
        Check::BackJump => "V2 BackJump",
        Check::RunsOff => "V3 RunsOff",
        Check::Unset => "V4 Unset",
        Check::WrongType => "V5 Type",
        Check::Frame => "V6 Frame",
        Check::RecordBounds => "V7 RecordBounds",
        Check::StackBounds => "V8 StackBounds",
        Check::StackUnset => "V9 StackUnset",
        Check::ReadOnly => "V10 ReadOnly",
        Check::Helper => "V11 Helper",
        Check::HelperArg => "V12 HelperArg",
        Check::Exit => "V13 Exit",
        Check::Memory => "V14 Memory",
        Check::Notes => "V15 Notes",
    }
}

/// Appends whether a program is refused, and with which fault.
fn push_verdict(text: &mut String, fault: Option<VerifyFault>) -> Result<(), AllocError>
    ensures { OnOk result (string_bytes text.new ≡ string_bytes text.old ++ definitions.verdict_text fault) }
{
    match fault {
        Some(fault) => {
            let check = check_text(fault.kind);
            let pc = fault.pc;
            write!(text, "refused: {check} at {pc}\n")
        }
        None => text.push_str("ok\n"),
    }
}

/// Appends what follows on the first instructions.
pub fn push_end(
    text: &mut String,
    states: &[Option<State>],
    count: usize,
    fault: Option<VerifyFault>,
) -> Result<(), AllocError>
    ensures { OnOk result (string_bytes text.new ≡ string_bytes text.old ++ definitions.ending_text states.now count fault) }
{
    push_unreached(text, unreached_count(states, count), count)?;
    push_verdict(text, fault)
}
