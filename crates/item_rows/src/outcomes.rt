//! The rows that emissions give, and what became of their records.

ghost use Rattle.std.specs.Prelude.{◌==◌, if◌then◌else◌, [], ◌∷◌, ◌≡◌, ◌≢◌, ℕ, ◌+◌, ◌<◌, ◌≤◌, ◌^◌, length, map, get_or, slice_get, Some, IfOk, OnOk};
ghost use Rattle.machine_spec.specs.declared.limits.TheConstants.{MAX_EMISSIONS};
ghost use Rattle.machine_spec.specs.declared.outcome.Place.{Place};
ghost use Rattle.wire_spec.specs.declared.record.Record.{Record};
ghost use Rattle.helpers.specs.declared.emitted.Emitted.TheVariants.{Cut};
ghost use Rattle.helpers.specs.Emitted.{emission_in, emissions_in};
ghost use Rattle.machine_spec.specs.Meaning.{IsPlace};
ghost use Rattle.exec.specs.Endings.{Ended, outcome_in, outcome_with, outcomes_of};
ghost use Rattle.log_spec.specs.Logs.{row_of, rows_to, rows_of};
ghost use Rattle.fates.specs.Fates.{fate_of};
ghost use Rattle.item_rows.specs.ItemRows.{Adds};
ghost use Rattle.item_rows.specs.Blocks.{records_from, rows_of_each, AreFatesMore};

use crate::given::Given;
use crate::refs::RowRefs;
use fates::{Counts, Fate};
use log_item::{Block, Emitted, EmittedList, Ending, Excerpt, LoggedBatch};
use machine_spec::Place;
use std::alloc::AllocError;

/// A record of a log's batch, and where it is.
#[derive(Drop)]
pub(crate) struct RecordAt<'r, 'a> {
    pub(crate) place: &'r Place,
    pub(crate) given: &'r Given<'a>,
}

/// Records that were run as a block: those of a batch from number `from` on, each at its place.
#[derive(Drop)]
pub(crate) struct BlockRecords<'r, 'a> {
    pub(crate) places: &'r [Place],
    pub(crate) logged: &'a LoggedBatch,
    pub(crate) from: usize,
}

/// The output partition of what a program emitted.
#[inline(always)]
fn out_of(emitted: &Emitted) -> usize
    ensures { (given : Record) → (emission_in given emitted.now).out ≡ result }
{
    match emitted {
        Emitted::Cut(excerpt) => excerpt.out(),
        Emitted::Made(draft) => draft.out,
    }
}

/// Adds the row of an excerpt of a record to its output, where that is one of the outputs from `first` on.
#[inline(always)]
fn push_excerpt<'a>(
    all: &mut [RowRefs<'a>],
    first: usize,
    at: &RecordAt<'_, 'a>,
    number: usize,
    excerpt: &Excerpt,
) -> Result<(), AllocError>
    requires place { IsPlace at.now.place.now }
    requires few { number < MAX_EMISSIONS }
    ensures { OnOk result (Adds first all.old all.new (λ output here. here ≡ (if (emission_in at.now.given.now (Cut excerpt.now)).out == output then row_of at.now.place.now number (emission_in at.now.given.now (Cut excerpt.now)) ∷ [] else []))) }
{
    let out = excerpt.out();
    if out < first || out - first >= all.len() {
        return Ok(());
    }
    all[out - first].push_given(at.place, number, at.given, *excerpt)
}

/// Adds the row of what a program emitted for a record to its output, where that is one of the outputs from
/// `first` on.
#[inline(always)]
fn push_row<'a>(
    all: &mut [RowRefs<'a>],
    first: usize,
    at: &RecordAt<'_, 'a>,
    number: usize,
    emitted: Emitted,
) -> Result<(), AllocError>
    requires place { IsPlace at.now.place.now }
    requires few { number < MAX_EMISSIONS }
    ensures { OnOk result (Adds first all.old all.new (λ output here. here ≡ (if (emission_in at.now.given.now emitted).out == output then row_of at.now.place.now number (emission_in at.now.given.now emitted) ∷ [] else []))) }
{
    let out = out_of(&emitted);
    if out < first || out - first >= all.len() {
        return Ok(());
    }
    all[out - first].push(at.place, number, at.given, emitted)
}

/// Adds the rows of what a program emitted for a record to their outputs. Nothing is left in the list, but its
/// room. Where there is nothing, this takes a test alone.
#[inline(always)]
fn push_rows<'a>(
    all: &mut [RowRefs<'a>],
    first: usize,
    at: &RecordAt<'_, 'a>,
    list: &mut Vec<Emitted>,
) -> Result<(), AllocError>
    requires place { IsPlace at.now.place.now }
    requires few { length list.old.items ≤ MAX_EMISSIONS }
    ensures rows { OnOk result (Adds first all.old all.new (λ output here. here ≡ rows_to output at.now.place.now 0 (emissions_in at.now.given.now list.old.items))) }
    ensures none { list.new.items ≡ [] }
{
    if list.is_empty() {
        return Ok(());
    }
    let mut number = 0;
    for emitted in list.drain(..) {
        push_row(all, first, at, number, emitted)?;
        number += 1;
    }
    Ok(())
}

/// Adds the rows of a record to their outputs: those of what the program emitted, where its run keeps
/// that. Returns what became of the record. The list keeps its room.
#[inline(always)]
pub(crate) fn push_outcome<'a>(
    all: &mut [RowRefs<'a>],
    first: usize,
    at: &RecordAt<'_, 'a>,
    ending: Ending,
    emitted: &mut EmittedList,
) -> Result<Fate, AllocError>
    requires { IsPlace at.now.place.now }
    ensures { IfOk result (λ fate. (fate ≡ fate_of (outcome_with ending (emissions_in at.now.given.now emitted.old)))
        × Adds first all.old all.new (λ output here. here ≡ rows_of output at.now.place.now (outcome_with ending (emissions_in at.now.given.now emitted.old)))) }
{
    match ending {
        Ending::Kept => {
            push_rows(all, first, at, &mut emitted.list)?;
            Ok(Fate::Kept)
        }
        Ending::Rejected(code) => Ok(Fate::Rejected(code)),
    }
}

/// Adds the rows of a record of a block to their outputs, by how its run ended. Returns what became of the
/// record. Most records are rejected, or an excerpt of them is kept, or nothing. What another one emitted goes through
/// a list, whose room is used again.
#[inline(always)]
fn push_ended<'a>(
    all: &mut [RowRefs<'a>],
    first: usize,
    at: &RecordAt<'_, 'a>,
    block: &mut Block,
    index: usize,
    emitted: &mut EmittedList,
) -> Result<Fate, AllocError>
    requires place { IsPlace at.now.place.now }
    requires within { index < length block.old }
    ensures pushed { (ended : Ended) → slice_get block.old index ≡ Some ended → IfOk result (λ fate. (fate ≡ fate_of (outcome_in at.now.given.now ended))
        × Adds first all.old all.new (λ output here. here ≡ rows_of output at.now.place.now (outcome_in at.now.given.now ended))) }
    ensures others { (other : ℕ) → other ≢ index → slice_get block.new other ≡ slice_get block.old other }
    ensures length { length block.new ≡ length block.old }
{
    if let Ending::Rejected(code) = block.ending(index) {
        return Ok(Fate::Rejected(code));
    }
    match block.kept_alone(index) {
        Some(excerpt) => {
            push_excerpt(all, first, at, 0, &excerpt)?;
            Ok(Fate::Kept)
        }
        None => {
            let ending = block.take(index, emitted);
            let fate = push_outcome(all, first, at, ending, emitted)?;
            Ok(fate)
        }
    }
}

/// Adds the rows of the records of a block by the outcomes of its last run, and counts the records.
pub(crate) fn push_outcomes<'a>(
    first: usize,
    records: &BlockRecords<'_, 'a>,
    block: &mut Block,
    emitted: &mut EmittedList,
    all: &mut [RowRefs<'a>],
    counts: &mut Counts,
) -> Result<(), AllocError>
    requires places { length records.now.places.now ≡ length block.old }
    requires records { records.now.from + length block.old ≤ length records.now.logged.now.records }
    requires ranges { (k : ℕ) (p : Place) → k < length records.now.places.now → IsPlace (get_or records.now.places.now k p) }
    requires few { counts.old.records + length block.old < 2 ^ 63 }
    ensures rows { OnOk result (Adds first all.old all.new (λ output here. here ≡ rows_of_each output records.now.places.now (outcomes_of (records_from records.now.from (length block.old) records.now.logged.now.records) block.old))) }
    ensures counts { OnOk result (AreFatesMore (map fate_of (outcomes_of (records_from records.now.from (length block.old) records.now.logged.now.records) block.old)) counts.old counts.new) }
{
    let _few = records.logged.len();
    for index in 0..records.places.len() {
        let given = Given::new(records.logged, records.from + index);
        let at = RecordAt {
            place: &records.places[index],
            given: &given,
        };
        let fate = push_ended(all, first, &at, block, index, emitted)?;
        counts.add(fate)?;
    }
    Ok(())
}
