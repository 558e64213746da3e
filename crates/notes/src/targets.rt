ghost use Rattle.std.specs.Prelude.{◌≡◌, ℕ, ◌<◌, ◌||◌, false, length, replicate, slice_index_or, IfOk};
ghost use Rattle.machine_spec.specs.Image.{target_of};
ghost use Rattle.verifier_spec.specs.Checks.{jump_of};
ghost use Rattle.notes.specs.Derived.{leads_to, AreTargets};

use bpf_isa::Code;
use machine_spec::{MAX_SLOTS, Placed, Summary};
use std::alloc::{AllocError, Global};

/// The number of the instruction that an instruction's jump leads to, if it is a jump.
fn target(code: &Code, placed: Placed) -> Option<usize>
    requires { placed.slot < MAX_SLOTS }
    ensures { result ≡ target_of code.now placed.slot (jump_of placed.instruction) }
{
    code.target(placed.slot, Summary::of(placed.instruction).jump)
}

/// Marks the instruction with a number, if there is one.
fn mark(targets: &mut [bool], number: Option<usize>)
    ensures length { length targets.new ≡ length targets.old }
    ensures each { (k : ℕ) → k < length targets.old
        → slice_index_or targets.new k false ≡ (slice_index_or targets.old k false || leads_to number k) }
{
    if let Some(number) = number {
        if number < targets.len() {
            targets[number] = true;
        }
    }
}

/// Marks the target of each jump.
fn mark_all(code: &Code, targets: &mut [bool])
    requires { targets.old ≡ replicate (length code.now) false }
    ensures { AreTargets code.now targets.new }
{
    for k in 0..code.len() {
        mark(targets, target(code, code.get(k)));
    }
}

/// For each instruction whether a jump leads to it.
pub fn jump_targets(alloc: Global, code: &Code) -> Result<Vec<bool>, AllocError>
    ensures { IfOk result (λ targets. AreTargets code.now targets.items) }
{
    let mut targets = vec![in alloc; false; code.len()]?;
    mark_all(code, &mut targets);
    Ok(targets)
}
