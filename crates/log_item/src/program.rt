ghost use Rattle.std.specs.Prelude.{◌≡◌, ◌≤◌, ℕ, length, IfOk, OnOk};
ghost use Rattle.exec.specs.declared.block.TheConstants.{BLOCK};
ghost use Rattle.exec.specs.Abreast.{AreGiven};
ghost use Rattle.exec.specs.Endings.{outcome_with, outcomes_of};
ghost use Rattle.helpers.specs.Emitted.{emissions_in};
ghost use Rattle.log_item.specs.Programs.{ProgramIs, RunsSafely, RunsSafelyOnEach};
ghost use Rattle.machine_spec.specs.Image.{program_of, IsCodeOf};
ghost use Rattle.machine_spec.specs.Meaning.{IsPlace, Means};
ghost use Rattle.machine_spec.specs.declared.outcome.Outcome.{Outcome};
ghost use Rattle.verifier_spec.specs.StandsFor.{IsWithinLimits};

use bytes::Bytes;
use exec::{BLOCK, Block, EmittedList, Ending};
use kafka_record::RecordRef;
use machine_spec::{Helper, Instruction, IsaFault, Outcome, Place, Table};
use notes::Verified;
use std::alloc::{AllocError, Global};
use std::marker::Model;
use verifier_spec::LoadFault;
use wire_spec::Record;

/// A program that the verifier accepted, with its image. A clause sees the program: its image and its
/// helper table.
#[derive(Drop)]
pub struct Program {
    image: Bytes,
    verified: Verified,
    // Whether a block of records takes less time abreast.
    pays: bool,
    // Whether it may add headers.
    adds: bool,
}

impl Model for Program {
    ghost use Rattle.machine_spec.specs.Image.{Program, program_of, IsCodeOf};

    ghost Value = { Program };

    ghost view = { λ p. program_of p.image p.verified.table };

    ghost invariant = { λ p. IsCodeOf p.image p.verified.code };
}

/// Whether a program calls the helper that adds headers.
fn adds_headers(verified: &Verified) -> bool {
    let code = verified.code();
    for number in 0..code.len() {
        if let Instruction::Call(named) = code.instr(number) {
            if let Some(Helper::AddHeader) = Helper::with_number(named) {
                return true;
            }
        }
    }
    false
}

impl Program {
    /// The program of an image that decodes to code with an annotation, by a helper table. It fails
    /// with the program's first refusal, or with a memory fault where memory runs out.
    pub fn new(alloc: Global, image: &Bytes, table: Table) -> Result<Program, LoadFault>
        ensures { ProgramIs (program_of image.now table) result }
    {
        let verified = annotate::load(alloc, image, table)?;
        match image.clone() {
            Ok(image) => {
                let pays = exec::pays(&verified);
                let adds = adds_headers(&verified);
                Ok(Program {
                    image,
                    verified,
                    pays,
                    adds,
                })
            }
            Err(_) => Err(LoadFault::Isa(IsaFault::Memory)),
        }
    }

    /// What the program means on a record: an exit within as many instructions as it has, with no
    /// trap on the way and no byte read but this record's own and what is set in the stack. It fails
    /// only where memory runs out.
    pub fn run(&self, alloc: Global, given: &Record, place: &Place) -> Result<Outcome, AllocError>
        requires limits { IsWithinLimits (record { given = given.now; place = place.now }) }
        requires place { IsPlace place.now }
        ensures means { IfOk result (λ outcome. (n : ℕ) × Means self.now (record { given = given.now; place = place.now }) outcome n) }
        ensures safe { (outcome : Outcome)
            × RunsSafely self.now (record { given = given.now; place = place.now }) outcome
            × IfOk result (λ answer. answer ≡ outcome) }
    {
        exec::run(alloc, &self.verified, given, place)
    }

    /// The same, with the room of a list for what the program emits. What is in the list before is
    /// dropped. Returns how the run ends; where it keeps its emissions, the list says what they are. The
    /// list keeps its room however the run ends.
    pub fn run_into(
        &self,
        alloc: Global,
        given: &RecordRef,
        place: &Place,
        emitted: &mut EmittedList,
    ) -> Result<Ending, AllocError>
        requires limits { IsWithinLimits (record { given = given.now; place = place.now }) }
        requires place { IsPlace place.now }
        ensures means { IfOk result (λ ending. (n : ℕ)
            × Means self.now (record { given = given.now; place = place.now })
            (outcome_with ending (emissions_in given.now emitted.new)) n) }
        ensures safe { (outcome : Outcome)
            × RunsSafely self.now (record { given = given.now; place = place.now }) outcome
            × IfOk result (λ ending. outcome_with ending (emissions_in given.now emitted.new) ≡ outcome) }
    {
        exec::run_into(alloc, &self.verified, given, place, emitted)
    }

    /// Runs the program on at most `BLOCK` records, each at its place. The block has what they ended with then.
    /// It fails only where memory runs out; the block may be run again then.
    pub fn run_block(
        &self,
        block: &mut Block,
        given: &[RecordRef],
        places: &[Place],
    ) -> Result<(), AllocError>
        requires given { AreGiven given.now places.now }
        requires few { length given.now ≤ BLOCK }
        ensures long { OnOk result (length block.new ≡ length given.now) }
        ensures safe { OnOk result (RunsSafelyOnEach self.now given.now places.now (outcomes_of given.now block.new)) }
    {
        block.run(&self.verified, given, places)
    }

    /// Whether a block of records takes less time abreast than one record after the other. It is a
    /// choice between two ways to the same outcomes.
    pub fn pays(&self) -> bool {
        self.pays
    }

    /// How many records of a batch are best run before their rows are written: as many as a block has, or half as many
    /// where each row may have a list of added headers.
    pub fn at_once(&self) -> usize
        ensures { 1 ≤ result }
    {
        if self.adds { BLOCK / 2 } else { BLOCK }
    }
}
