//! The state of the plain machine.
ghost use Rattle.std.specs.Prelude.{◌≡◌, ℕ, IfOk};
ghost use Rattle.machine_spec.specs.Machine.{entry_register, entry};
ghost use Rattle.bpf_machine.specs.Views.{registers_of};
ghost use Rattle.bpf_machine.specs.States.{input_of, state_of};

use crate::memory::Run;
use crate::registers::REGISTERS;
use crate::stack::Stack;
use crate::tagged::Tagged;
use helpers::{Emitter, null_flags};
use machine_spec::{Region, STACK_SIZE};
use std::alloc::AllocError;

/// A state: the slot of the next instruction, the registers, the stack and the emissions so far.
#[derive(Drop)]
pub struct Machine {
    pub slot: usize,
    pub registers: [Tagged; REGISTERS],
    pub stack: Stack,
    pub emitter: Emitter,
}

/// The registers at the entry: r1 and r2 are the value's address and length, r3 and r4 the key's, r5
/// the null flags, r10 the stack's end.
fn entry_registers(run: &Run) -> [Tagged; REGISTERS]
    ensures { (r : ℕ) → registers_of result r ≡ entry_register (input_of run.now) r }
{
    let value_length = run.length_of(Region::Value) as u64;
    let key_length = run.length_of(Region::Key) as u64;
    let nulls = null_flags(run.given);
    [
        Tagged::Nothing,
        Tagged::Address(Region::Value, 0),
        Tagged::Number(value_length),
        Tagged::Address(Region::Key, 0),
        Tagged::Number(key_length),
        Tagged::Number(nulls),
        Tagged::Nothing,
        Tagged::Nothing,
        Tagged::Nothing,
        Tagged::Nothing,
        Tagged::Address(Region::Stack, STACK_SIZE as i128),
    ]
}

impl Machine {
    /// The state at the entry of a run. It fails only where memory runs out.
    pub fn new(run: &Run) -> Result<Machine, AllocError>
        ensures { IfOk result (λ m. state_of run.now m ≡ entry (input_of run.now)) }
    {
        let registers = entry_registers(run);
        let stack = Stack::new(run.alloc)?;
        let emitter = Emitter::new(run.alloc);
        Ok(Machine {
            slot: 0,
            registers,
            stack,
            emitter,
        })
    }
}
