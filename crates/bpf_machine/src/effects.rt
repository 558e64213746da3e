//! What a call of a helper does beside what it answers.
ghost use Rattle.std.specs.Prelude.{◌≡◌, ℕ, false, IfOk, OnOk};
ghost use Rattle.std.specs.List.{list_any};
ghost use Rattle.machine_spec.specs.Machine as definitions;
ghost use Rattle.machine_spec.specs.Machine.{bytes_at, named_access, loads, fills, signature_of, effect_of};
ghost use Rattle.machine_spec.specs.Traps.{is_wrong_room, is_wrong_argument};
ghost use Rattle.helpers.specs.Emitted.{yield_in};
ghost use Rattle.bpf_machine.specs.Views.{registers_of, stack_of};
ghost use Rattle.bpf_machine.specs.States.{input_of, state_of};

use crate::machine::Machine;
use crate::memory::{Run, room_of};
use crate::registers::get;
use crate::stepping::fill;
use crate::tagged::number_held;
use helpers::{
    HeaderPart, Piece, fill_room, header_count, header_key, header_value, load_part, offset,
    partition, text, timestamp,
};
use machine_spec::{Direction, Helper};
use record_parts::{hash, part_bytes, part_length};
use std::alloc::AllocError;

impl Machine {
    /// The bytes that two registers name.
    pub(crate) fn bytes_at(&self, run: &Run, address: u8, count: u8) -> Result<Vec<u8>, AllocError>
        ensures { IfOk result (λ bytes. bytes.items
            ≡ bytes_at (input_of run.now) (state_of run.now self.now) address count) }
    {
        let first = get(&self.registers, address);
        run.bytes_named(&self.stack, first, get(&self.registers, count))
    }

    /// Emits the record's key with the bytes that r2 and r3 name.
    fn emit_value(&mut self, run: &Run) -> Result<u64, AllocError>
        ensures answer { IfOk result (λ answer. answer
            ≡ (effect_of Helper.EmitValue (input_of run.now) (state_of run.now self.old)).answer) }
        ensures emitted { OnOk result (yield_in run.now.given.now self.new.emitter
            ≡ (effect_of Helper.EmitValue (input_of run.now) (state_of run.now self.old)).emitted) }
        ensures stack { self.new.stack ≡ self.old.stack }
        ensures slot { self.new.slot ≡ self.old.slot }
        ensures registers { self.new.registers ≡ self.old.registers }
    {
        let out = number_held(get(&self.registers, 1));
        let value = self.bytes_at(run, 2, 3)?;
        let value = Piece::Stack(&value);
        self.emitter
            .emit_value(run.alloc, run.given, run.place, out, value)
    }

    /// Emits the bytes that r2 and r3 name with those that r4 and r5 name.
    fn emit(&mut self, run: &Run) -> Result<u64, AllocError>
        ensures answer { IfOk result (λ answer. answer
            ≡ (effect_of Helper.Emit (input_of run.now) (state_of run.now self.old)).answer) }
        ensures emitted { OnOk result (yield_in run.now.given.now self.new.emitter
            ≡ (effect_of Helper.Emit (input_of run.now) (state_of run.now self.old)).emitted) }
        ensures stack { self.new.stack ≡ self.old.stack }
        ensures slot { self.new.slot ≡ self.old.slot }
        ensures registers { self.new.registers ≡ self.old.registers }
    {
        let out = number_held(get(&self.registers, 1));
        let key = self.bytes_at(run, 2, 3)?;
        let value = self.bytes_at(run, 4, 5)?;
        let key = Piece::Stack(&key);
        let value = Piece::Stack(&value);
        self.emitter
            .emit(run.alloc, run.given, run.place, out, key, value)
    }

    /// Copies a part of some bytes, or zeros, to the room that r1 and r3 name.
    fn load(&mut self, run: &Run, bytes: &[u8]) -> Result<u64, AllocError>
        requires { is_wrong_room (named_access Direction.Write (registers_of self.old.registers 1) (registers_of self.old.registers 3)) ≡ false }
        ensures answer { IfOk result (λ answer. answer ≡ (loads (state_of run.now self.old) bytes.now
            (definitions.number_held (registers_of self.old.registers 2)) (definitions.number_held (registers_of self.old.registers 3))).answer) }
        ensures stack { OnOk result (stack_of self.new.stack ≡ (loads (state_of run.now self.old) bytes.now
            (definitions.number_held (registers_of self.old.registers 2)) (definitions.number_held (registers_of self.old.registers 3))).stack) }
        ensures emitter { self.new.emitter ≡ self.old.emitter }
        ensures slot { self.new.slot ≡ self.old.slot }
        ensures registers { self.new.registers ≡ self.old.registers }
    {
        let at = number_held(get(&self.registers, 2));
        let (start, count) = room_of(get(&self.registers, 1), get(&self.registers, 3));
        let mut part = vec![in run.alloc; 0; count]?;
        let answer = load_part(bytes, at, &mut part);
        fill(&mut self.stack, start, &part);
        Ok(answer)
    }

    /// Copies what a program gets of a header to the room that r1 and r3 name, with zeros after it.
    fn load_header(&mut self, run: &Run, part: HeaderPart) -> Result<u64, AllocError>
        requires { is_wrong_room (named_access Direction.Write (registers_of self.old.registers 1) (registers_of self.old.registers 3)) ≡ false }
        ensures answer { IfOk result (λ answer. answer
            ≡ (fills (state_of run.now self.old) part.entry.bytes.now part.entry.answer).answer) }
        ensures stack { OnOk result (stack_of self.new.stack
            ≡ (fills (state_of run.now self.old) part.entry.bytes.now part.entry.answer).stack) }
        ensures emitter { self.new.emitter ≡ self.old.emitter }
        ensures slot { self.new.slot ≡ self.old.slot }
        ensures registers { self.new.registers ≡ self.old.registers }
    {
        let (start, count) = room_of(get(&self.registers, 1), get(&self.registers, 3));
        let mut filled = vec![in run.alloc; 0; count]?;
        fill_room(part.bytes, &mut filled);
        fill(&mut self.stack, start, &filled);
        Ok(part.answer)
    }

    /// Does what a helper does besides its answer, which it returns.
    pub(crate) fn take_effect(&mut self, run: &Run, helper: Helper) -> Result<u64, AllocError>
        requires { list_any (is_wrong_argument (input_of run.now) (state_of run.now self.old))
            (signature_of helper).arguments ≡ false }
        ensures answer { IfOk result (λ answer. answer
            ≡ (effect_of helper (input_of run.now) (state_of run.now self.old)).answer) }
        ensures emitted { OnOk result (yield_in run.now.given.now self.new.emitter
            ≡ (effect_of helper (input_of run.now) (state_of run.now self.old)).emitted) }
        ensures stack { OnOk result (stack_of self.new.stack
            ≡ (effect_of helper (input_of run.now) (state_of run.now self.old)).stack) }
        ensures slot { self.new.slot ≡ self.old.slot }
        ensures registers { self.new.registers ≡ self.old.registers }
    {
        match helper {
            Helper::LoadValue => self.load(run, text(&run.given.value())),
            Helper::LoadKey => self.load(run, text(&run.given.key())),
            Helper::EmitRecord => {
                let out = number_held(get(&self.registers, 1));
                self.emitter
                    .emit_record(run.alloc, run.given, run.place, out)
            }
            Helper::EmitValue => self.emit_value(run),
            Helper::Emit => self.emit(run),
            Helper::EmitNull => {
                let out = number_held(get(&self.registers, 1));
                self.emitter.emit_null(run.alloc, run.given, run.place, out)
            }
            Helper::Offset => Ok(offset(run.place)),
            Helper::Timestamp => Ok(timestamp(run.place)),
            Helper::Partition => Ok(partition(run.place)),
            Helper::HeaderCount => Ok(header_count(run.given)),
            Helper::HeaderKey => {
                let position = number_held(get(&self.registers, 2));
                self.load_header(run, header_key(run.given, position))
            }
            Helper::HeaderValue => {
                let position = number_held(get(&self.registers, 2));
                self.load_header(run, header_value(run.given, position))
            }
            Helper::PartLength => Ok(part_length(run.given, self.part(1))),
            Helper::LoadPart => self.load(run, part_bytes(run.given, self.part(4))),
            Helper::Find => self.find(run),
            Helper::Equals => self.equals(run),
            Helper::Decimal => self.decimal(run),
            Helper::Hash => Ok(hash(run.given, self.part(1))),
            Helper::FindHeader => self.find_header(run),
            Helper::EmitPart => self.emit_part(run),
            Helper::EmitChanged => self.emit_changed(run),
            Helper::AddHeader => self.add_header(run),
        }
    }
}
