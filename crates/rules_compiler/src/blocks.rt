//! Blocks that may be left out.

ghost use Rattle.std.specs.Prelude.{◌≡◌, ◌≤◌, ◌++◌, ◌∷◌, pos, length, take, drop, OnOk, IfErr};
ghost use Rattle.rules_compiler.specs.Faults.{IsTooLong};

use crate::fault::Refusal;
use crate::pieces::{TRUTH, skip_if};
use machine_spec::{Instruction, MAX_SLOTS, Source, Test, Width};

/// Has the code from a place on left out where the condition before it passes a test against 0. It is called, so that
/// nothing of it is on the stack while that code is put.
#[inline(never)]
pub fn put_unless(code: &mut Vec<Instruction>, place: usize, test: Test) -> Result<(), Refusal>
    requires { place ≤ length code.old.items }
    ensures code { OnOk result (code.new.items ≡ take place code.old.items ++ (Instruction.JumpIf Width.Bits64 test TRUTH (Source.Immediate (pos 0)) (pos (length (drop place code.old.items))) ∷ drop place code.old.items)) }
    ensures long { IfErr result (IsTooLong (drop place code.old.items)) }
{
    let size = code.len() - place;
    if size > MAX_SLOTS {
        return Err(Refusal::Far);
    }
    code.insert(place, skip_if(test, TRUTH, 0, size as i16))?;
    Ok(())
}
