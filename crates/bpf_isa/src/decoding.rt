//! From an image to its code.

ghost use Rattle.std.specs.Prelude.{◌≡◌, ◌+◌, ◌<◌, ◌≤◌, ◌==◌, [], ◌∷◌, ◌++◌, length, if◌then◌else◌, Some, None, IfOk, OnOk, IsTrue};
ghost use Rattle.machine_spec.specs.Image as definitions;
ghost use Rattle.machine_spec.specs.Image.{read_image, read_slots, first_slots, IsCodeOf};
ghost use Rattle.wire_spec.specs.Memory.{AnswersAs};
ghost use Rattle.bpf_isa.specs.Code.{IsTable};

use crate::code::Code;
use crate::placed_list::PlacedList;
use crate::slot;
use crate::slot_table::SlotTable;
use machine_spec::{Instruction, IsaFault, MAX_SLOTS, Placed};
use std::alloc::{AllocError, Global};

/// Whether an image has 1 to `MAX_SLOTS` slots and nothing after them.
fn has_size(image: &[u8]) -> bool
    ensures { result ≡ definitions.has_size image.now }
{
    let slots = image.len() / 8;
    image.len() % 8 == 0 && 1 <= slots && slots <= MAX_SLOTS
}

/// How many slots an instruction has.
fn slots_of(instruction: Instruction) -> usize
    ensures is { result ≡ definitions.slots_of instruction }
    ensures is_small { result ≤ 2 }
{
    match instruction {
        Instruction::Wide(_, _) => 2,
        Instruction::Move(_, _, _)
        | Instruction::Compute(_, _, _, _)
        | Instruction::Load(_, _, _, _, _)
        | Instruction::Unary(_, _, _)
        | Instruction::Store(_, _, _, _)
        | Instruction::JumpIf(_, _, _, _, _)
        | Instruction::Jump(_)
        | Instruction::Call(_)
        | Instruction::Exit => 1,
    }
}

/// Appends that the next slot is the first of the instruction with a number, and that no
/// instruction begins at the slot after it, if it has two.
fn enter(numbers: &mut SlotTable, number: u16, slots: usize) -> Result<(), AllocError>
    requires { number < MAX_SLOTS }
    ensures { OnOk result (numbers.new ≡ (numbers.old ++ Some number ∷ []) ++ (if slots == 2 then None ∷ [] else [])) }
{
    numbers.push(Some(number))?;
    if slots == 2 {
        numbers.push(None)?;
    }
    Ok(())
}

/// Appends the instruction of the next slots.
fn push(
    placed: &mut PlacedList,
    numbers: &mut SlotTable,
    instruction: Instruction,
) -> Result<(), AllocError>
    requires table { IsTable placed.old numbers.old }
    requires is_within { length placed.old ≤ length numbers.old }
    requires is_small { length numbers.old < MAX_SLOTS }
    ensures code { OnOk result (placed.new ≡ placed.old ++ record { slot = length numbers.old; instruction = instruction } ∷ []) }
    ensures slots { OnOk result (length numbers.new ≡ length numbers.old + definitions.slots_of instruction) }
    ensures table { OnOk result (IsTable placed.new numbers.new) }
{
    let number = placed.len() as u16;
    let slot = numbers.len();
    enter(numbers, number, slots_of(instruction))?;
    placed.push(Placed { slot, instruction })?;
    Ok(())
}

/// The code of an image whose size is right.
fn read_code(alloc: Global, image: &[u8]) -> Result<Code, IsaFault>
    requires { IsTrue (definitions.has_size image.now) }
    ensures { AnswersAs IsaFault.Memory (λ code. code) result (read_slots image.now (first_slots image.now)) }
{
    let slots = image.len() / 8;
    let mut placed = PlacedList::with_capacity(alloc, slots).map_err(|_| IsaFault::Memory)?;
    let mut numbers = SlotTable::with_capacity(alloc, slots).map_err(|_| IsaFault::Memory)?;
    let mut slot = 0;
    while slot < slots {
        let instruction = slot::read(image, slot)?;
        push(&mut placed, &mut numbers, instruction).map_err(|_| IsaFault::Memory)?;
        slot += slots_of(instruction);
    }
    Ok(Code { placed, numbers })
}

/// The code of an image (RFC 9669, section 3). It fails with the first refusal: of the size, then
/// of the lowest slot that holds no instruction of the profile; or as `Memory` where memory runs
/// out.
#[tactic(auto, unfolding(machine_spec::specs::Image::read_image))]
pub fn decode(alloc: Global, image: &[u8]) -> Result<Code, IsaFault>
    // What it answers is what the image reads as, unless memory runs out.
    ensures exact { AnswersAs IsaFault.Memory (λ code. code) result (read_image image.now) }
    // The code is the image's.
    ensures is_code { IfOk result (λ code. IsCodeOf image.now code) }
{
    if has_size(image) {
        read_code(alloc, image)
    } else {
        Err(IsaFault::Size)
    }
}
