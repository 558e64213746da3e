ghost use Rattle.std.specs.Prelude.{◌≡◌, ◌<◌, ◌++◌, [], ◌∷◌, length, slice_get, option_and_then, IfOk, IfSome, OnOk};
ghost use Rattle.bpf_isa.specs.Code.{entry_number};

use machine_spec::MAX_SLOTS;
use std::alloc::{AllocError, Global};
use std::marker::Model;

/// Stands for no instruction, since the numbers of instructions are below it.
const NO_NUMBER: u16 = MAX_SLOTS as u16;

/// For each slot of an image the number of the instruction that begins there, if one does, in two
/// bytes. A clause sees the list of them.
#[derive(Debug, Drop)]
pub struct SlotTable {
    numbers: Vec<u16>,
}

impl Model for SlotTable {
    ghost use Rattle.std.specs.Prelude.{ℕ, List, Option};
    ghost use Rattle.bpf_isa.specs.Code.{entry_numbers};

    ghost Value = { List (Option ℕ) };

    ghost view = { λ t. entry_numbers t.numbers.items };
}

fn number_in(number: u16) -> Option<usize>
    ensures { result ≡ entry_number number }
{
    if number == NO_NUMBER {
        None
    } else {
        Some(number as usize)
    }
}

impl SlotTable {
    /// A table of no slots, with room for a number of them. It fails only where memory runs out.
    pub fn with_capacity(alloc: Global, capacity: usize) -> Result<SlotTable, AllocError>
        ensures { IfOk result (λ t. t ≡ []) }
    {
        Ok(SlotTable {
            numbers: Vec::with_capacity(alloc, capacity)?,
        })
    }

    /// How many slots there are.
    pub fn len(&self) -> usize
        ensures { result ≡ length self.now }
    {
        self.numbers.len()
    }

    /// The number of the instruction that begins at a slot; none where none does, or the table has
    /// no such slot.
    pub fn get(&self, slot: usize) -> Option<usize>
        ensures { result ≡ option_and_then (λ number. number) (slice_get self.now slot) }
    {
        match self.numbers.get(slot) {
            Some(number) => number_in(*number),
            None => None,
        }
    }

    /// Appends the next slot, with the number of the instruction that begins there, if one does. It
    /// fails only where memory runs out.
    pub fn push(&mut self, number: Option<u16>) -> Result<(), AllocError>
        requires { IfSome number (λ n. n < MAX_SLOTS) }
        ensures { OnOk result (self.new ≡ self.old ++ number ∷ []) }
    {
        self.numbers.push(number.unwrap_or(NO_NUMBER))?;
        Ok(())
    }
}
