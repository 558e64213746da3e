//! The instruction at one slot of an image, which need not have code.

ghost use Rattle.std.specs.Prelude.{◌≡◌, ◌<◌, IfSome};
ghost use Rattle.machine_spec.specs.Image.{slot_count, form_at, if_read};
ghost use Rattle.bpf_isa.specs.Spelling.{HasRegisters};

use crate::slot;
use machine_spec::{Instruction, IsaFault};

/// An instruction that was read.
fn if_read(reading: Result<Instruction, IsaFault>) -> Option<Instruction>
    ensures { result ≡ if_read reading }
{
    match reading {
        Ok(instruction) => Some(instruction),
        Err(_) => None,
    }
}

/// The instruction of the profile at a slot of an image, if there is one.
pub fn form_at(image: &[u8], slot: usize) -> Option<Instruction>
    requires { slot < slot_count image.now }
    ensures is_form { result ≡ form_at image.now slot }
    ensures has_registers { IfSome result (λ i. HasRegisters i) }
{
    if_read(slot::read(image, slot))
}
