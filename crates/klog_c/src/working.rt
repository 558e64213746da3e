//! What the calls do with what handles hold.

ghost use Rattle.std.specs.Prelude.{◌≡◌, Some, Ok, IfOk};
ghost use Rattle.wire_spec.specs.RecordSpelling.{RecordFits};
ghost use Rattle.wire_spec.specs.Memory.{AnswersAs};
ghost use Rattle.program_file.specs.Choice.{given_program, program_in};
ghost use Rattle.program_file.specs.declared.fault.FileFault.TheVariants as file_fault;
ghost use Rattle.machine_spec.specs.Meaning.{IsPlace};
ghost use Rattle.c_outcomes.specs.Outcomes.{found};
ghost use Rattle.klog_c.specs.Calls as definitions;
ghost use Rattle.klog_c.specs.Numbers as numbers;
ghost use Rattle.log_item.specs.Programs.{ProgramIs};

use crate::faults::{MEMORY, RANGE, file_number, refusal_told};
use crate::filling::fill;
use crate::handle::Handle;
use crate::object::Object;
use crate::shared::Shared;
use bytes::Bytes;
use log_item::Program;
use machine_spec::{IsaFault, Place, Table};
use program_file::{FileFault, GivenProgram, given_program};
use std::alloc::Global;
use verifier_spec::LoadFault;
use wire_spec::Record;

/// The helper table that a number names: none by 0. `None` where the number is out of its range.
pub(crate) fn table_with_number(number: u32) -> Option<Option<Table>>
    ensures { result ≡ definitions.table_with_number number }
{
    match number {
        0 => Some(None),
        1 => Some(Some(Table::One)),
        2 => Some(Some(Table::Two)),
        _ => None,
    }
}

/// The program that bytes are, by the helper table that is named, if one is.
pub(crate) fn given_of(
    alloc: Global,
    bytes: &[u8],
    named: Option<Table>,
) -> Result<GivenProgram, FileFault>
    ensures { AnswersAs file_fault.Memory (λ p. p) result (given_program named bytes.now) }
{
    let bytes = Bytes::copy_from_slice(alloc, bytes)?;
    given_program(alloc, named, bytes)
}

/// A program that was given, or its refusal.
fn loaded(alloc: Global, given: &GivenProgram) -> Result<Shared, LoadFault>
    ensures { ProgramIs (program_in given.now) result }
{
    let program = Program::new(alloc, &given.image, given.table)?;
    Shared::new(alloc, program).map_err(|_| LoadFault::Isa(IsaFault::Memory))
}

/// Tells the number of a refusal, and writes its place. Where memory ran out there is none.
fn tell_refusal(fault: LoadFault, place: &mut usize) -> u32
    ensures number { result ≡ numbers.fault_number fault }
    ensures place { definitions.TellsPlace fault place.old place.new result }
{
    let (number, at) = refusal_told(fault);
    if number != MEMORY {
        *place = at;
    }
    number
}

/// Puts a program that was given into a handle.
fn put_given(alloc: Global, given: &GivenProgram, program: &mut Handle, place: &mut usize) -> u32
    ensures { definitions.LoadsProgram (program_in given.now) program.old.place.object program.new.place.object place.old place.new result }
{
    match loaded(alloc, given) {
        Ok(shared) => fill(alloc, program, Object::Program(shared)),
        Err(fault) => tell_refusal(fault, place),
    }
}

/// Puts the program that bytes are into a handle, by the helper table that a number names, if it names one.
#[tactic(auto, using(crate::proofs::GivenLaws::loaded, crate::proofs::GivenLaws::not_loaded))]
pub(crate) fn load_into(
    alloc: Global,
    bytes: &[u8],
    number: u32,
    program: &mut Handle,
    place: &mut usize,
) -> u32
    ensures { definitions.Loads (definitions.given_with bytes.now number) program.old.place.object program.new.place.object place.old place.new result }
{
    let Some(named) = table_with_number(number) else {
        return RANGE;
    };
    match given_of(alloc, bytes, named) {
        Ok(given) => put_given(alloc, &given, program, place),
        Err(fault) => file_number(fault),
    }
}

/// Puts another owner of a program that was found into a handle.
pub(crate) fn share_into(alloc: Global, program: Result<&Shared, u32>, other: &mut Handle) -> u32
    ensures { definitions.Shares (found program.entry) other.old.place.object other.new.place.object result }
{
    match program {
        Err(fault) => fault,
        Ok(program) => match program.again() {
            Err(_) => MEMORY,
            Ok(shared) => fill(alloc, other, Object::Program(shared)),
        },
    }
}

/// Puts what a program means on a record into a handle, if there are both.
#[tactic(auto, using(log_spec::proofs::FittingBatches::within_limits))]
pub(crate) fn run_into(
    alloc: Global,
    program: Result<&Shared, u32>,
    given: Result<Record, u32>,
    place: &Place,
    outcome: &mut Handle,
) -> u32
    requires { IfOk given (λ given. RecordFits given × IsPlace place.now) }
    ensures { definitions.RunsGiven (found program.entry) place.now given outcome.old.place.object outcome.new.place.object result }
{
    match program {
        Err(fault) => fault,
        Ok(program) => match given {
            Err(fault) => fault,
            Ok(given) => match program.program().run(alloc, &given, place) {
                Err(_) => MEMORY,
                Ok(found) => fill(alloc, outcome, Object::Outcome(found)),
            },
        },
    }
}
