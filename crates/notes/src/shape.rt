ghost use Rattle.std.specs.Prelude.{◌≡◌, ◌<◌};
ghost use Rattle.machine_spec.specs.Traps.{first_of};
ghost use Rattle.verifier_spec.specs.Checks.{leads_nowhere, leads_back, never_falls, runs_off, shape_checks};

use bpf_isa::Code;
use machine_spec::{MAX_SLOTS, Placed, Summary};
use verifier_spec::Check;

fn leads_nowhere(code: &Code, slot: usize, jump: Option<i32>) -> bool
    requires { slot < MAX_SLOTS }
    ensures { result ≡ leads_nowhere code.now slot jump }
{
    match jump {
        Some(offset) => offset >= 0 && code.target(slot, jump).is_none(),
        None => false,
    }
}

fn leads_back(jump: Option<i32>) -> bool
    ensures { result ≡ leads_back jump }
{
    match jump {
        Some(offset) => offset < 0,
        None => false,
    }
}

/// Whether the next instruction never follows on an instruction: an EXIT or a jump without a
/// condition.
fn never_falls(summary: Summary) -> bool
    ensures { result ≡ never_falls summary }
{
    summary.exits || (summary.jump.is_some() && summary.condition.is_none())
}

fn runs_off(code: &Code, k: usize, summary: Summary) -> bool
    requires { k < MAX_SLOTS }
    ensures { result ≡ runs_off code.now k summary }
{
    k + 1 == code.len() && !never_falls(summary)
}

/// The first check of its shape that the instruction with this number fails: where its jump
/// leads, and that the next instruction follows on none that is the last. They are of every instruction, reached or not.
pub fn failed_shape(code: &Code, k: usize, placed: Placed) -> Option<Check>
    requires number { k < MAX_SLOTS }
    requires slot { placed.slot < MAX_SLOTS }
    ensures { result ≡ first_of (shape_checks code.now k placed) }
{
    let summary = Summary::of(placed.instruction);
    if leads_nowhere(code, placed.slot, summary.jump) {
        return Some(Check::JumpTarget);
    }
    if leads_back(summary.jump) {
        return Some(Check::BackJump);
    }
    if runs_off(code, k, summary) {
        return Some(Check::RunsOff);
    }
    None
}
