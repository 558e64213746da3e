//! The slots of an image.
ghost use Rattle.std.specs.Prelude.{◌≡◌, ◌<◌, ◌^◌, IfOk};
ghost use Rattle.machine_spec.specs.Image as definitions;
ghost use Rattle.bpf_machine.specs.Views as views;
ghost use Rattle.bpf_machine.specs.Views.{AreFirstSlots};

use std::alloc::{AllocError, Global};

/// The opcode of the 64-bit immediate, which has two slots (RFC 9669, section 3.2).
const WIDE: u8 = 0x18;

/// How many whole slots an image has.
pub fn slot_count(image: &[u8]) -> usize
    ensures is_count { result ≡ definitions.slot_count image.now }
    ensures is_small { result < 2 ^ 61 }
{
    image.len() / 8
}

/// The first slot after one.
fn slot_after(image: &[u8], slot: usize) -> usize
    requires { slot < definitions.slot_count image.now }
    ensures { result ≡ definitions.slot_after image.now slot }
{
    if image[8 * slot] == WIDE {
        slot + 2
    } else {
        slot + 1
    }
}

/// Marks the slots of an image at which an instruction begins, by one walk. It fails only where memory
/// runs out.
pub fn first_slots(alloc: Global, image: &[u8]) -> Result<Vec<bool>, AllocError>
    ensures { IfOk result (λ marks. AreFirstSlots image.now marks.items) }
{
    let slots = slot_count(image);
    let mut marks = vec![in alloc; false; slots]?;
    let mut slot = 0;
    for _steps in 0..slots {
        if slot >= slots {
            break;
        }
        marks[slot] = true;
        slot = slot_after(image, slot);
    }
    Ok(marks)
}

/// Whether a slot is marked; those past the end are not.
pub fn is_marked(marks: &[bool], slot: usize) -> bool
    ensures { result ≡ views.is_marked marks.now slot }
{
    match marks.get(slot) {
        Some(is_marked) => *is_marked,
        None => false,
    }
}
