//! Rows whose parts stay where they are.

ghost use Rattle.std.specs.Prelude.{◌≡◌, ◌<◌, ◌++◌, ◌∷◌, [], length, slice_get, Some, IfOk, OnOk};
ghost use Rattle.machine_spec.specs.declared.outcome.Emission.{Emission};
ghost use Rattle.machine_spec.specs.declared.limits.TheConstants.{MAX_EMISSIONS};
ghost use Rattle.machine_spec.specs.Meaning.{IsPlace};
ghost use Rattle.helpers.specs.Emitted.{excerpt_in, emission_in, emission_of};
ghost use Rattle.std.specs.Arc.{arc_value};
ghost use Rattle.log_spec.specs.Logs.{row_of};
ghost use Rattle.item_rows.specs.RowParts.{IsWithin};
ghost use Rattle.item_rows.specs.RowRefs.{row_with, row_in, rows_by, AreWithin};

use crate::book_row::{BookRow, Made};
use crate::given::Given;
use crate::made::{MadeRecord, emissions};
use crate::numbers::RowNumbers;
use helpers::Draft;
use log_item::{Emitted, Excerpt};
use log_spec::RowRef;
use machine_spec::Place;
use std::alloc::{AllocError, Global};
use std::marker::Model;
use std::sync::Arc;

/// A row but for its parts.
#[derive(Drop)]
pub(crate) struct Slot<'a> {
    pub(crate) numbers: RowNumbers,
    // The record that the row came from.
    pub(crate) given: Given<'a>,
    pub(crate) parts: SlotParts,
}

/// What has the parts of a row.
#[derive(Clone, Copy)]
pub(crate) enum SlotParts {
    /// An excerpt of the given record.
    Given(Excerpt),
    /// The made record with this number.
    Made(usize),
}

/// A row but for its parts, which a made record has or the given one.
#[inline(always)]
fn slot_for<'a>(place: &Place, number: usize, given: &Given<'a>, parts: SlotParts) -> Slot<'a>
    requires place { IsPlace place.now }
    requires few { number < MAX_EMISSIONS }
    ensures row { (e : Emission) → row_with result e ≡ row_of place.now number e }
    ensures parts { (result.given ≡ given.now) × (result.parts ≡ parts) }
{
    Slot {
        numbers: RowNumbers::of(place, number),
        given: given.again(),
        parts,
    }
}

/// The row of a slot. A made record's value that is nowhere in one piece is written to the room.
#[inline(always)]
fn row_of_slot<'r>(
    made: &'r [MadeRecord],
    slot: &'r Slot,
    room: &'r mut Vec<u8>,
) -> Result<RowRef<'r>, AllocError>
    requires { IsWithin (length made.now) slot.now.parts }
    ensures { IfOk result (λ row. row ≡ row_in made.now slot.now) }
{
    match &slot.parts {
        SlotParts::Given(excerpt) => {
            Ok(slot.numbers.with_excerpt(&slot.given.record(), excerpt))
        }
        SlotParts::Made(number) => made[*number].row(&slot.numbers, room),
    }
}

/// Makes room for the made records of so many rows, where there are none yet.
fn make_room(made: &mut Vec<MadeRecord>, rows: usize) -> Result<(), AllocError>
    ensures { made.new.items ≡ made.old.items }
{
    if made.is_empty() {
        made.reserve_exact(rows)?;
    }
    Ok(())
}

/// The rows of slots as books have them, where no record was made.
fn given_rows(alloc: Global, slots: &[Slot]) -> Result<Vec<BookRow>, AllocError>
    requires { AreWithin 0 slots.now }
    ensures { IfOk result (λ rows. rows.items ≡ rows_by [] slots.now) }
{
    let mut rows = Vec::with_capacity(alloc, slots.len())?;
    for slot in slots {
        rows.push(BookRow::of_given(slot)?)?;
    }
    Ok(rows)
}

/// The rows of slots as books have them, which are owners of the made records.
fn book_rows(alloc: Global, slots: &[Slot], made: &Arc<Made>) -> Result<Vec<BookRow>, AllocError>
    requires { AreWithin (length (arc_value made.now)) slots.now }
    ensures { IfOk result (λ rows. rows.items ≡ rows_by (arc_value made.now) slots.now) }
{
    let mut rows = Vec::with_capacity(alloc, slots.len())?;
    for slot in slots {
        rows.push(BookRow::of(slot, made)?)?;
    }
    Ok(rows)
}

/// The rows of an item in one output partition. A row of a record as it is, or of a slice of it, has that record's
/// parts; the parts of other rows are here. Contracts see the list of the rows.
#[derive(Drop)]
pub struct RowRefs<'a> {
    slots: Vec<Slot<'a>>,
    // The records that programs made, in the order of their rows.
    made: Vec<MadeRecord<'a>>,
}

impl<'a> Model for RowRefs<'a> {
    ghost use Rattle.std.specs.Prelude.{List, length};
    ghost use Rattle.log_spec.specs.declared.row.Row.{Row};
    ghost use Rattle.item_rows.specs.RowRefs.{rows_by, AreWithin};

    ghost Value = { List Row };

    ghost view = { λ r. rows_by r.made.items r.slots.items };

    ghost invariant = { λ r. AreWithin (length r.made.items) r.slots.items };
}

impl<'a> RowRefs<'a> {
    /// No rows, and room for so many.
    pub(crate) fn with_capacity(alloc: Global, rows: usize) -> Result<RowRefs<'a>, AllocError>
        ensures { IfOk result (λ made. made ≡ []) }
    {
        Ok(RowRefs {
            slots: Vec::with_capacity(alloc, rows)?,
            made: Vec::new(alloc),
        })
    }

    /// Leaves no rows. The lists keep their room.
    pub(crate) fn clear(&mut self)
        ensures { self.new ≡ [] }
    {
        self.slots.clear();
        self.made.clear();
    }

    /// Adds the row of what a program emitted for a record.
    #[inline(always)]
    pub(crate) fn push(
        &mut self,
        place: &Place,
        number: usize,
        given: &Given<'a>,
        emitted: Emitted,
    ) -> Result<(), AllocError>
        requires place { IsPlace place.now }
        requires few { number < MAX_EMISSIONS }
        ensures { OnOk result (self.new ≡ self.old ++ row_of place.now number (emission_in given.now emitted) ∷ []) }
    {
        match emitted {
            Emitted::Cut(excerpt) => self.push_given(place, number, given, excerpt),
            Emitted::Made(draft) => self.push_made(place, number, given, draft),
        }
    }

    /// Adds the row of an excerpt of a record.
    #[inline(always)]
    pub(crate) fn push_given(
        &mut self,
        place: &Place,
        number: usize,
        given: &Given<'a>,
        excerpt: Excerpt,
    ) -> Result<(), AllocError>
        requires place { IsPlace place.now }
        requires few { number < MAX_EMISSIONS }
        ensures { OnOk result (self.new ≡ self.old ++ row_of place.now number (excerpt_in given.now excerpt) ∷ []) }
    {
        self.slots
            .push(slot_for(place, number, given, SlotParts::Given(excerpt)))?;
        Ok(())
    }

    /// Adds the row of a record that a program made.
    fn push_made(
        &mut self,
        place: &Place,
        number: usize,
        given: &Given<'a>,
        draft: Draft,
    ) -> Result<(), AllocError>
        requires place { IsPlace place.now }
        requires few { number < MAX_EMISSIONS }
        ensures { OnOk result (self.new ≡ self.old ++ row_of place.now number (emission_of given.now draft) ∷ []) }
    {
        let made = self.made.len();
        make_room(&mut self.made, self.slots.capacity())?;
        self.made.push(MadeRecord::new(given, draft))?;
        self.slots
            .push(slot_for(place, number, given, SlotParts::Made(made)))?;
        Ok(())
    }

    /// How many rows there are.
    pub fn len(&self) -> usize
        ensures { result ≡ length self.now }
    {
        self.slots.len()
    }

    /// The row with a number, from 0. A value that is nowhere in one piece is written to the room, in place of what is
    /// there. It fails only where memory runs out.
    #[inline(always)]
    pub fn row<'r>(&'r self, index: usize, room: &'r mut Vec<u8>) -> Result<RowRef<'r>, AllocError>
        requires { index < length self.now }
        ensures { IfOk result (λ row. slice_get self.now index ≡ Some row) }
    {
        let slot = &self.slots[index];
        row_of_slot(&self.made, slot, room)
    }

    /// The rows as books have them. They own what has their parts. It fails only where memory runs out.
    pub(crate) fn into_book_rows(self, alloc: Global) -> Result<Vec<BookRow>, AllocError>
        ensures { IfOk result (λ rows. rows.items ≡ self.entry) }
    {
        let RowRefs { slots, made } = self;
        if made.is_empty() {
            return given_rows(alloc, slots.as_slice());
        }
        let list = emissions(alloc, made)?;
        let made = Arc::new(alloc, Made { list })?;
        book_rows(alloc, slots.as_slice(), &made)
    }
}
