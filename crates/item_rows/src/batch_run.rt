//! A program on some records of a batch: one by one, or as a block, abreast.

ghost use Rattle.std.specs.Prelude.{◌≡◌, ◌+◌, ◌<◌, ◌≤◌, ◌^◌, ◌<ℤ◌, ◌≤ℤ◌, pos, length, IfOk, OnOk, IfSome, Some};
ghost use Rattle.std.specs.List.{AllByRecursion};
ghost use Rattle.wire_spec.specs.declared.limits.TheConstants.{TIMESTAMP_END};
ghost use Rattle.machine_spec.specs.Meaning.{IsPlace};
ghost use Rattle.verifier_spec.specs.StandsFor.{IsWithinLimits};
ghost use Rattle.exec.specs.declared.block.TheConstants.{BLOCK};
ghost use Rattle.exec.specs.Endings.{outcomes_of};
ghost use Rattle.log_item.specs.Programs.{RunsSafelyOnEach};
ghost use Rattle.log_spec.specs.Logs.{timestamp_of, place_of, FitsRecord, IsRecordRows};
ghost use Rattle.fates.specs.Fates.{IsFate};
ghost use Rattle.item_rows.specs.ItemRows.{IsOrigin, Adds};
ghost use Rattle.item_rows.specs.Blocks.{places_from, program_in, records_from, IsPartOf, CanRun, HaveRun, GiveRows};

use crate::blocks::Blocks;
use crate::given::Given;
use crate::origin::Origin;
use crate::outcomes::{BlockRecords, RecordAt, push_outcome, push_outcomes};
use crate::part::Part;
use crate::records::timestamp;
use crate::refs::RowRefs;
use fates::{Counts, Fate};
use kafka_record::RecordRef;
use log_item::{BLOCK, Block, EmittedList, LEAST, LoggedBatch, MANY, Program};
use machine_spec::Place;
use std::alloc::{AllocError, Global};

/// What the records of a batch are run by, and the outputs that their rows go to, from `first` on.
#[derive(Drop)]
pub(crate) struct BatchRun<'a> {
    pub(crate) alloc: Global,
    pub(crate) program: Option<&'a Program>,
    pub(crate) origin: &'a Origin,
    pub(crate) batch: &'a LoggedBatch,
    pub(crate) first: usize,
}

impl<'a> BatchRun<'a> {
    /// Where a record with this offset is.
    fn place(&self, offset: u64, given: &RecordRef) -> Place
        requires from { pos 0 ≤ℤ timestamp_of self.now.batch.now given.now }
        requires to { timestamp_of self.now.batch.now given.now <ℤ pos TIMESTAMP_END }
        ensures { result ≡ place_of self.now.origin.now.input self.now.origin.now.outputs offset self.now.batch.now given.now }
    {
        Place {
            partition: self.origin.input,
            offset,
            timestamp: timestamp(self.batch, given),
            outputs: self.origin.outputs,
        }
    }

    /// Where each of these records is, of which the first has this offset.
    fn places(&self, offset: u64, records: &[RecordRef]) -> Result<Vec<Place>, AllocError>
        requires fits { AllByRecursion (FitsRecord self.now.batch.now) records.now }
        requires few { offset + length records.now ≤ TIMESTAMP_END }
        ensures { IfOk result (λ places. places.items ≡ places_from self.now.origin.now.input self.now.origin.now.outputs self.now.batch.now offset records.now) }
    {
        let mut places = Vec::with_capacity(self.alloc, records.len())?;
        let mut next = offset;
        for given in records {
            places.push(self.place(next, given))?;
            next += 1;
        }
        Ok(places)
    }

    /// Runs the program in force on a record, if there is one, and adds the rows that it gives. What it
    /// emits goes through a list, whose room is used again.
    fn push_record(
        &self,
        place: &Place,
        given: &Given<'a>,
        emitted: &mut EmittedList,
        all: &mut [RowRefs<'a>],
    ) -> Result<Fate, AllocError>
        requires limits { IsWithinLimits (record { given = given.now; place = place.now }) }
        requires place { IsPlace place.now }
        ensures { IfOk result (λ fate. IsFate (program_in self.now) place.now given.now fate
            × Adds self.now.first all.old all.new (λ output here. IsRecordRows output (program_in self.now) place.now given.now here)) }
    {
        match self.program {
            None => Ok(Fate::Unprogrammed),
            Some(program) => {
                let ending = program.run_into(self.alloc, &given.record(), place, emitted)?;
                push_outcome(all, self.first, &RecordAt { place, given }, ending, emitted)
            }
        }
    }

    /// The offset of the record with a number in the batch.
    fn offset_of(&self, number: usize) -> u64
        requires { self.now.origin.now.offset + number < 2 ^ 64 }
        ensures { result ≡ self.now.origin.now.offset + number }
    {
        self.origin.offset + number as u64
    }

    /// Runs some records of the batch one by one, adds the rows that they give, and counts them.
    fn push_each(
        &self,
        part: Part,
        emitted: &mut EmittedList,
        all: &mut [RowRefs<'a>],
        counts: &mut Counts,
    ) -> Result<(), AllocError>
        requires part { IsPartOf (length self.now.batch.now.records) part }
        requires run { CanRun self.now (self.now.origin.now.offset + part.first) (records_from part.first part.count self.now.batch.now.records) counts.old }
        ensures { OnOk result (HaveRun self.now (self.now.origin.now.offset + part.first) (records_from part.first part.count self.now.batch.now.records) all.old all.new counts.old counts.new) }
    {
        let _few = self.batch.len();
        for number in part.first..part.first + part.count {
            let found = Given::new(self.batch, number);
            let at = self.place(self.offset_of(number), &found.record());
            let fate = self.push_record(&at, &found, emitted, all)?;
            counts.add(fate)?;
        }
        Ok(())
    }

    /// Some records of the batch, by reference.
    fn references(&self, part: Part) -> Result<Vec<RecordRef<'a>>, AllocError>
        requires { part.first + part.count ≤ length self.now.batch.now.records }
        ensures { IfOk result (λ records. records.items ≡ records_from part.first part.count self.now.batch.now.records) }
    {
        let _few = self.batch.len();
        let mut records = Vec::with_capacity(self.alloc, part.count)?;
        for index in 0..part.count {
            records.push(self.batch.record(part.first + index))?;
        }
        Ok(records)
    }

    /// Runs a program on records of a block, of which the first has this offset. Returns where each of
    /// them is.
    fn run_block(
        &self,
        program: &Program,
        offset: u64,
        records: &[RecordRef],
        block: &mut Block,
    ) -> Result<Vec<Place>, AllocError>
        requires origin { IsOrigin self.now.origin.now }
        requires fits { AllByRecursion (FitsRecord self.now.batch.now) records.now }
        requires few { offset + length records.now ≤ TIMESTAMP_END }
        requires block { length records.now ≤ BLOCK }
        ensures places { IfOk result (λ places. places.items ≡ places_from self.now.origin.now.input self.now.origin.now.outputs self.now.batch.now offset records.now) }
        ensures long { OnOk result (length block.new ≡ length records.now) }
        ensures outcomes { IfOk result (λ places. RunsSafelyOnEach program.now records.now places.items (outcomes_of records.now block.new)) }
    {
        let places = self.places(offset, records)?;
        program.run_block(block, records, places.as_slice())?;
        Ok(places)
    }

    /// Does what `push_each` does, as one block, its records abreast.
    fn push_block(
        &self,
        program: &Program,
        part: Part,
        blocks: &mut Blocks,
        all: &mut [RowRefs<'a>],
        counts: &mut Counts,
    ) -> Result<(), AllocError>
        requires program { program_in self.now ≡ Some program.now }
        requires part { IsPartOf (length self.now.batch.now.records) part }
        requires run { CanRun self.now (self.now.origin.now.offset + part.first) (records_from part.first part.count self.now.batch.now.records) counts.old }
        ensures { OnOk result (HaveRun self.now (self.now.origin.now.offset + part.first) (records_from part.first part.count self.now.batch.now.records) all.old all.new counts.old counts.new) }
    {
        let records = self.references(part)?;
        let mut block = blocks.take(part.count)?;
        let places = self.run_block(
            program,
            self.offset_of(part.first),
            records.as_slice(),
            &mut block,
        )?;
        let ran = BlockRecords {
            places: places.as_slice(),
            logged: self.batch,
            from: part.first,
        };
        push_outcomes(
            self.first,
            &ran,
            &mut block,
            &mut blocks.emitted,
            all,
            counts,
        )?;
        blocks.keep(part.count, block);
        Ok(())
    }

    /// The program in force, where so many records of the batch take less time abreast than one by one.
    fn program_abreast(&self, count: usize) -> Option<&'a Program>
        ensures { IfSome result (λ program. program_in self.now ≡ Some program.now) }
    {
        match self.program {
            Some(program) if count >= LEAST && self.batch.len() >= MANY && program.pays() => {
                Some(program)
            }
            _ => None,
        }
    }

    /// Runs at most a block's records of the batch, adds the rows that they give, and counts them, in the way
    /// that takes less time.
    pub(crate) fn push_part(
        &self,
        part: Part,
        blocks: &mut Blocks,
        all: &mut [RowRefs<'a>],
        counts: &mut Counts,
    ) -> Result<(), AllocError>
        requires part { IsPartOf (length self.now.batch.now.records) part }
        requires run { CanRun self.now (self.now.origin.now.offset + part.first) (records_from part.first part.count self.now.batch.now.records) counts.old }
        ensures { OnOk result (HaveRun self.now (self.now.origin.now.offset + part.first) (records_from part.first part.count self.now.batch.now.records) all.old all.new counts.old counts.new) }
    {
        match self.program_abreast(part.count) {
            Some(program) => self.push_block(program, part, blocks, all, counts),
            None => self.push_each(part, &mut blocks.emitted, all, counts),
        }
    }

    /// The same with all records of the batch, one part after the other.
    pub(crate) fn push_all(
        &self,
        blocks: &mut Blocks,
        all: &mut [RowRefs<'a>],
        counts: &mut Counts,
    ) -> Result<(), AllocError>
        requires { CanRun self.now self.now.origin.now.offset self.now.batch.now.records counts.old }
        ensures { OnOk result (HaveRun self.now self.now.origin.now.offset self.now.batch.now.records all.old all.new counts.old counts.new) }
    {
        let total = self.batch.len();
        let mut done = 0;
        while done < total {
            let part = Part::next(done, total);
            self.push_part(part, blocks, all, counts)?;
            done += part.count;
        }
        Ok(())
    }

    /// Runs a program on the records of the batch from a number on, and drops what they emit.
    pub(crate) fn drop_rest(&self, program: &Program, first: usize, blocks: &mut Blocks)
        requires origin { IsOrigin self.now.origin.now }
        requires within { first ≤ length self.now.batch.now.records }
        ensures { GiveRows self.now.origin.now program.now self.now.batch.now first }
    {
        let _fits = self.batch.len();
        for number in first..self.batch.len() {
            let found = Given::new(self.batch, number);
            let given = found.record();
            let at = self.place(self.offset_of(number), &given);
            let _ending = program.run_into(self.alloc, &given, &at, &mut blocks.emitted);
        }
    }
}
