//! Whole runs of the plain machine.
ghost use Rattle.std.specs.Prelude.{◌≡◌, ℕ, ◌<◌, ◌≤◌, ◌^◌, Some, IfOk};
ghost use Rattle.machine_spec.specs.Image.{program_of, slot_count};
ghost use Rattle.machine_spec.specs.Meaning.{outcome_of};
ghost use Rattle.machine_spec.specs.Traps.{trap_at};
ghost use Rattle.helpers.specs.Emitted.{emissions_in};
ghost use Rattle.bpf_machine.specs.Views.{value_of, registers_of, AreFirstSlots, IsNear};
ghost use Rattle.bpf_machine.specs.States.{program_run, input_of, state_of};
ghost use Rattle.bpf_machine.specs.Ends.{EndsOnlyIn};
ghost use Rattle.bpf_machine.specs.Advances.{IsFetched, Advances};

use crate::machine::Machine;
use crate::memory::Run;
use crate::registers::get;
use crate::slots::{first_slots, slot_count};
use crate::tagged::Tagged;
use crate::traps::trap_of;
use bpf_isa::form_at;
use helpers::RecordRef;
use machine_spec::{Instruction, Outcome, Place, Summary, Table, Trap};
use std::alloc::{AllocError, Global};
use wire_spec::Record;

/// What a run ends with: an outcome, or the trap of its last state.
#[derive(Drop)]
pub enum End {
    Out(Outcome),
    Trap(Trap),
}

/// What the machine did at a state: an instruction, or nothing because of a trap or an exit there.
#[derive(Clone, Copy, Debug, PartialEq, Eq)]
pub enum Advance {
    Stepped,
    Trapped(Trap),
    Ended,
}

/// What r0 at the exit makes of what was emitted for a record. It fails only where memory runs out.
fn outcome_of(run: &Run, answer: Tagged, machine: Machine) -> Result<Outcome, AllocError>
    ensures { IfOk result (λ outcome. outcome
        ≡ outcome_of (value_of answer) (emissions_in run.now.given.now machine.emitter.list)) }
{
    let Machine { emitter, .. } = machine;
    let mut emitted = emitter.into_emitted();
    match answer {
        Tagged::Number(0) => Ok(Outcome::Kept(emitted.make_emissions(run.alloc, run.given)?)),
        Tagged::Number(code) => Ok(Outcome::Rejected(code)),
        Tagged::Nothing => Ok(Outcome::Rejected(0)),
        Tagged::Address(_, _) => Ok(Outcome::Rejected(0)),
    }
}

impl Machine {
    /// The instruction at the state's slot, or the trap that the state has.
    fn fetched(&self, run: &Run) -> Result<Instruction, Trap>
        requires firsts { AreFirstSlots run.now.image.now run.now.firsts.now }
        requires slot { self.now.slot < 2 ^ 62 }
        requires near { (r : ℕ) → IsNear (registers_of self.now.registers r) }
        ensures { IsFetched (program_run run.now) (input_of run.now) (state_of run.now self.now) result }
    {
        if self.slot >= slot_count(run.image) {
            return Err(Trap::RanOff);
        }
        let Some(instruction) = form_at(run.image, self.slot) else {
            return Err(Trap::Form);
        };
        match trap_of(run, Summary::of(instruction), self) {
            Some(trap) => Err(trap),
            None => Ok(instruction),
        }
    }

    /// Does the instruction at the state's slot, if it has no trap and is no exit.
    fn advance(&mut self, run: &Run) -> Result<Advance, AllocError>
        requires firsts { AreFirstSlots run.now.image.now run.now.firsts.now }
        requires slot { self.old.slot < 2 ^ 62 }
        requires near { (r : ℕ) → IsNear (registers_of self.old.registers r) }
        ensures { IfOk result (Advances (program_run run.now) (input_of run.now) (state_of run.now self.old)
            (state_of run.now self.new)) }
    {
        match self.fetched(run) {
            Err(trap) => Ok(Advance::Trapped(trap)),
            Ok(instruction) => {
                if Summary::of(instruction).exits {
                    return Ok(Advance::Ended);
                }
                self.step(run, instruction)?;
                Ok(Advance::Stepped)
            }
        }
    }
}

/// Does what `trace` does, on a record by reference.
fn trace_reference(
    alloc: Global,
    image: &[u8],
    given: &RecordRef,
    place: &Place,
    table: Table,
) -> Result<(End, u64), AllocError>
    ensures { IfOk result (λ answer. EndsOnlyIn (program_of image.now table)
        (record { given = given.now; place = place.now }) answer.0 answer.1) }
{
    let firsts = first_slots(alloc, image)?;
    let run = Run {
        alloc,
        image,
        firsts: &firsts,
        table,
        given,
        place,
    };
    // Its contract says how many slots there are at most.
    let _ = slot_count(image);
    let mut machine = Machine::new(&run)?;
    let mut count: u64 = 0;
    'steps: loop {
        match machine.advance(&run)? {
            Advance::Stepped => count += 1,
            Advance::Trapped(trap) => return Ok((End::Trap(trap), count)),
            Advance::Ended => {
                let answer = get(&machine.registers, 0);
                let outcome = outcome_of(&run, answer, machine)?;
                return Ok((End::Out(outcome), count + 1));
            }
        }
    }
}

/// Runs the program of an image and a helper table on a record, whatever bytes its image has. Returns
/// what the run ends with, an outcome or the trap of its last state, and how many instructions were
/// done, an exit among them. It fails only where memory runs out.
pub fn trace(
    alloc: Global,
    image: &[u8],
    given: &Record,
    place: &Place,
    table: Table,
) -> Result<(End, u64), AllocError>
    ensures { IfOk result (λ answer. EndsOnlyIn (program_of image.now table)
        (record { given = given.now; place = place.now }) answer.0 answer.1) }
{
    trace_reference(alloc, image, &RecordRef::of(given), place, table)
}
