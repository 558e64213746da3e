ghost use Rattle.std.specs.Prelude.{◌≡◌, ◌<◌, ◌≤◌, length, slice_get, option_map, IfSome};
ghost use Rattle.machine_spec.specs.Image.{number_at, jump_target, target_of};
ghost use Rattle.bpf_isa.specs.Code.{HasImage};
ghost use Rattle.bpf_isa.specs.Spelling.{HasRegisters};

use crate::placed_list::PlacedList;
use crate::slot_table::SlotTable;
use machine_spec::{Instruction, MAX_SLOTS, Placed};
use std::marker::Model;

/// The instructions of an image, in order, each with the slot that it begins at. A clause sees
/// the list of them.
#[derive(Debug, Drop)]
pub struct Code {
    pub(crate) placed: PlacedList,
    /// For each slot the number of the instruction that begins there.
    pub(crate) numbers: SlotTable,
}

impl Model for Code {
    ghost use Rattle.std.specs.Prelude.{List};
    ghost use Rattle.machine_spec.specs.declared.instruction.Placed.{Placed};
    ghost use Rattle.bpf_isa.specs.Code.{IsKept};

    ghost Value = { List Placed };

    ghost view = { λ c. c.placed };

    ghost invariant = { λ c. IsKept c.placed c.numbers };
}

/// The slot that a jump leads to.
#[tactic(auto, using(machine_spec::proofs::Slots::forward_target, machine_spec::proofs::Slots::back_target))]
fn jump_target(slot: usize, offset: i32) -> Option<usize>
    requires { slot < MAX_SLOTS }
    ensures { result ≡ jump_target slot offset }
{
    if offset < 0 {
        None
    } else {
        Some(slot + 1 + offset.unsigned_abs() as usize)
    }
}

impl Code {
    /// How many instructions there are.
    pub fn len(&self) -> usize
        ensures is_length { result ≡ length self.now }
        ensures is_positive { 0 < result }
        ensures is_small { result ≤ MAX_SLOTS }
        ensures has_image { HasImage self.now }
    {
        self.placed.len()
    }

    /// The instruction with this number, from 0, and its slot.
    pub fn get(&self, k: usize) -> Placed
        requires { k < length self.now }
        ensures is_at { slice_get self.now k ≡ Some result }
        ensures is_small { result.slot < MAX_SLOTS }
        ensures has_registers { HasRegisters result.instruction }
    {
        self.placed.get(k)
    }

    /// The instruction with this number, from 0.
    pub fn instr(&self, k: usize) -> Instruction
        requires { k < length self.now }
        ensures is_at { option_map (λ p. p.instruction) (slice_get self.now k) ≡ Some result }
        ensures has_registers { HasRegisters result }
    {
        self.get(k).instruction
    }

    /// The slot at which the instruction with this number begins.
    pub fn slot(&self, k: usize) -> usize
        requires { k < length self.now }
        ensures is_at { option_map (λ p. p.slot) (slice_get self.now k) ≡ Some result }
        ensures is_small { result < MAX_SLOTS }
    {
        self.get(k).slot
    }

    /// The number of the instruction that begins at a slot, if one does.
    pub fn at(&self, slot: usize) -> Option<usize>
        ensures is_number { result ≡ number_at self.now slot }
        ensures is_within { IfSome result (λ k. k < length self.now) }
    {
        self.entry(slot)
    }

    /// The number of the instruction that a jump from a slot leads to, if it leads to one. A jump
    /// back leads nowhere.
    pub fn target(&self, slot: usize, jump: Option<i32>) -> Option<usize>
        requires { slot < MAX_SLOTS }
        ensures is_target { result ≡ target_of self.now slot jump }
        ensures is_within { IfSome result (λ k. k < length self.now) }
    {
        match jump {
            Some(offset) => match jump_target(slot, offset) {
                Some(slot) => self.at(slot),
                None => None,
            },
            None => None,
        }
    }

    /// What the table of slots has at a slot.
    fn entry(&self, slot: usize) -> Option<usize>
        ensures { result ≡ number_at self.now slot }
    {
        self.numbers.get(slot)
    }
}
