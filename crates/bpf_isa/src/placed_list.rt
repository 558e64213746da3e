ghost use Rattle.std.specs.Prelude.{◌≡◌, ◌<◌, ◌++◌, [], ◌∷◌, length, slice_get, Some, IfOk, OnOk};

use machine_spec::{Instruction, MAX_SLOTS, Placed};
use std::alloc::{AllocError, Global};
use std::marker::Model;

/// Instructions with the slots that they begin at. The slots are a list of their own, since an
/// instruction takes 16 bytes and its slot two, and a `Placed` takes 24. A clause sees one list.
#[derive(Debug, Drop)]
pub struct PlacedList {
    slots: Vec<u16>,
    instructions: Vec<Instruction>,
}

impl Model for PlacedList {
    ghost use Rattle.std.specs.Prelude.{◌≡◌, List, length};
    ghost use Rattle.machine_spec.specs.declared.instruction.Placed.{Placed};
    ghost use Rattle.bpf_isa.specs.Code.{placed_of};

    ghost Value = { List Placed };

    ghost view = { λ p. placed_of p.slots.items p.instructions.items };

    ghost invariant = { λ p. length p.slots.items ≡ length p.instructions.items };
}

impl PlacedList {
    /// No instructions, with room for a number of them. It fails only where memory runs out.
    pub fn with_capacity(alloc: Global, capacity: usize) -> Result<PlacedList, AllocError>
        ensures { IfOk result (λ p. p ≡ []) }
    {
        Ok(PlacedList {
            slots: Vec::with_capacity(alloc, capacity)?,
            instructions: Vec::with_capacity(alloc, capacity)?,
        })
    }

    /// How many instructions there are.
    pub fn len(&self) -> usize
        ensures { result ≡ length self.now }
    {
        self.instructions.len()
    }

    /// The instruction with this number, from 0, and its slot.
    pub fn get(&self, k: usize) -> Placed
        requires { k < length self.now }
        ensures { slice_get self.now k ≡ Some result }
    {
        Placed {
            slot: self.slots[k] as usize,
            instruction: self.instructions[k],
        }
    }

    /// Appends an instruction. It fails only where memory runs out; no contract says what the list
    /// is then.
    pub fn push(&mut self, placed: Placed) -> Result<(), AllocError>
        requires { placed.slot < MAX_SLOTS }
        ensures { OnOk result (self.new ≡ self.old ++ placed ∷ []) }
    {
        self.slots.push(placed.slot as u16)?;
        if self.instructions.push(placed.instruction).is_err() {
            self.slots.pop();
            return Err(AllocError);
        }
        Ok(())
    }
}
