//! What the helpers over parts of a record answer, and what they emit.
ghost use Rattle.std.specs.Prelude.{◌≡◌, IfOk, OnOk};
ghost use Rattle.machine_spec.specs.Machine as definitions;
ghost use Rattle.machine_spec.specs.Machine.{effect_of};
ghost use Rattle.machine_spec.specs.Parts.{part_numbered};
ghost use Rattle.helpers.specs.Emitted.{yield_in};
ghost use Rattle.bpf_machine.specs.Views.{registers_of};
ghost use Rattle.bpf_machine.specs.States.{input_of, state_of};

use crate::machine::Machine;
use crate::memory::Run;
use crate::registers::get;
use crate::tagged::number_held;
use helpers::{Part, PartSlice, Piece, ValueChange};
use machine_spec::Helper;
use record_parts::{decimal, equals, find, header};
use std::alloc::AllocError;

impl Machine {
    /// The number that a register holds.
    fn number(&self, register: u8) -> u64
        ensures { result ≡ definitions.number_held (registers_of self.now.registers register) }
    {
        number_held(get(&self.registers, register))
    }

    /// The part of the record that a register names by its number.
    pub(crate) fn part(&self, register: u8) -> Part
        ensures { result ≡ part_numbered (definitions.number_held (registers_of self.now.registers register)) }
    {
        Part::numbered(self.number(register))
    }

    /// Looks for the bytes that r3 and r4 name in the part in r1, from the place in r2 on.
    pub(crate) fn find(&self, run: &Run) -> Result<u64, AllocError>
        ensures { IfOk result (λ answer. answer
            ≡ (effect_of Helper.Find (input_of run.now) (state_of run.now self.now)).answer) }
    {
        let bytes = self.bytes_at(run, 3, 4)?;
        Ok(find(run.given, self.part(1), self.number(2), &bytes))
    }

    /// Whether those bytes stand at the place in r2 of the part in r1, as 1 or 0.
    pub(crate) fn equals(&self, run: &Run) -> Result<u64, AllocError>
        ensures { IfOk result (λ answer. answer
            ≡ (effect_of Helper.Equals (input_of run.now) (state_of run.now self.now)).answer) }
    {
        let bytes = self.bytes_at(run, 3, 4)?;
        let stand = equals(run.given, self.part(1), self.number(2), &bytes);
        Ok(if stand { 1 } else { 0 })
    }

    /// The number that so many digits of the part in r1 write, as r3 says, from the place in r2 on.
    pub(crate) fn decimal(&self, run: &Run) -> Result<u64, AllocError>
        ensures { IfOk result (λ answer. answer
            ≡ (effect_of Helper.Decimal (input_of run.now) (state_of run.now self.now)).answer) }
    {
        let (place, count) = (self.number(2), self.number(3));
        Ok(decimal(run.given, self.part(1), place, count))
    }

    /// Looks for the header whose key r1 and r2 name.
    pub(crate) fn find_header(&self, run: &Run) -> Result<u64, AllocError>
        ensures { IfOk result (λ answer. answer
            ≡ (effect_of Helper.FindHeader (input_of run.now) (state_of run.now self.now)).answer) }
    {
        let key = self.bytes_at(run, 1, 2)?;
        Ok(header(run.given, &key))
    }

    /// Emits the record with a piece of the part in r2 as its value: so many bytes from the place in r3 on as r4 says.
    pub(crate) fn emit_part(&mut self, run: &Run) -> Result<u64, AllocError>
        ensures answer { IfOk result (λ answer. answer
            ≡ (effect_of Helper.EmitPart (input_of run.now) (state_of run.now self.old)).answer) }
        ensures emitted { OnOk result (yield_in run.now.given.now self.new.emitter
            ≡ (effect_of Helper.EmitPart (input_of run.now) (state_of run.now self.old)).emitted) }
        ensures stack { self.new.stack ≡ self.old.stack }
        ensures slot { self.new.slot ≡ self.old.slot }
        ensures registers { self.new.registers ≡ self.old.registers }
    {
        let out = self.number(1);
        let slice = PartSlice {
            part: self.part(2),
            place: self.number(3),
            count: self.number(4),
        };
        self.emitter
            .emit_part(run.alloc, run.given, run.place, out, &slice)
    }

    /// Emits the record with a piece of its value replaced by the bytes that r4 and r5 name.
    pub(crate) fn emit_changed(&mut self, run: &Run) -> Result<u64, AllocError>
        ensures answer { IfOk result (λ answer. answer
            ≡ (effect_of Helper.EmitChanged (input_of run.now) (state_of run.now self.old)).answer) }
        ensures emitted { OnOk result (yield_in run.now.given.now self.new.emitter
            ≡ (effect_of Helper.EmitChanged (input_of run.now) (state_of run.now self.old)).emitted) }
        ensures stack { self.new.stack ≡ self.old.stack }
        ensures slot { self.new.slot ≡ self.old.slot }
        ensures registers { self.new.registers ≡ self.old.registers }
    {
        let out = self.number(1);
        let bytes = self.bytes_at(run, 4, 5)?;
        let change = ValueChange {
            place: self.number(2),
            count: self.number(3),
            bytes: Piece::Stack(&bytes),
        };
        self.emitter
            .emit_changed(run.alloc, run.given, run.place, out, change)
    }
    /// Adds the header whose key r1 and r2 name, and whose value r3 and r4 name.
    pub(crate) fn add_header(&mut self, run: &Run) -> Result<u64, AllocError>
        ensures answer { IfOk result (λ answer. answer
            ≡ (effect_of Helper.AddHeader (input_of run.now) (state_of run.now self.old)).answer) }
        ensures emitted { OnOk result (yield_in run.now.given.now self.new.emitter
            ≡ (effect_of Helper.AddHeader (input_of run.now) (state_of run.now self.old)).emitted) }
        ensures stack { self.new.stack ≡ self.old.stack }
        ensures slot { self.new.slot ≡ self.old.slot }
        ensures registers { self.new.registers ≡ self.old.registers }
    {
        let key = self.bytes_at(run, 1, 2)?;
        let value = self.bytes_at(run, 3, 4)?;
        let key = Piece::Stack(&key);
        let value = Piece::Stack(&value);
        self.emitter.add_header(run.alloc, run.given, key, value)
    }
}
