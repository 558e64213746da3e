//! A row as a book has it: its parts stay where they are.

ghost use Rattle.std.specs.Prelude.{◌≡◌, ◌<◌, [], length, get_or, IfOk};
ghost use Rattle.std.specs.Arc.{arc_value};
ghost use Rattle.helpers.specs.Emitted.{excerpt_in};
ghost use Rattle.item_rows.specs.RowParts.{parts_in, no_emission, IsWithin};
ghost use Rattle.item_rows.specs.RowRefs.{row_in};
ghost use Rattle.item_rows.specs.BookRows.{parts_of, AreThere};

use crate::given::Given;
use crate::numbers::RowNumbers;
use crate::refs::{Slot, SlotParts};
use helpers::share_value;
use kafka_record::{HeadersRef, NullableBytes, share_bytes, share_headers};
use log_item::{Excerpt, LoggedBatch};
use log_spec::{Row, RowRef};
use machine_spec::Emission;
use std::alloc::{AllocError, Global};
use std::marker::Model;
use std::sync::Arc;

/// The records that a program made for an output partition. A clause sees the list of them.
#[derive(Drop)]
pub(crate) struct Made {
    pub(crate) list: Vec<Emission>,
}

impl Model for Made {
    ghost use Rattle.std.specs.Prelude.{List};
    ghost use Rattle.machine_spec.specs.declared.outcome.Emission.{Emission};

    ghost Value = { List Emission };

    ghost view = { λ m. m.list.items };
}

/// What has a row's parts.
#[derive(Drop)]
enum Parts {
    /// An excerpt of the record of a log's batch with this number.
    Given {
        logged: LoggedBatch,
        index: usize,
        excerpt: Excerpt,
    },
    /// One of the records that a program made, by its number.
    Made {
        made: Arc<Made>,
        index: usize,
    },
}

/// A row as a book has it. It is one of the owners of what has its parts: the batch of a log that the
/// row's record is of, or the records that a program made for an item. A clause sees the row.
#[derive(Drop)]
pub struct BookRow {
    numbers: RowNumbers,
    parts: Parts,
}

impl Model for BookRow {
    ghost use Rattle.log_spec.specs.declared.row.Row.{Row};
    ghost use Rattle.item_rows.specs.BookRows.{parts_of, AreThere};
    ghost use Rattle.item_rows.specs.RowParts.{row_by};

    ghost Value = { Row };

    ghost view = { λ r. row_by r.numbers (parts_of r.parts) };

    ghost invariant = { λ r. AreThere r.parts };
}

impl Parts {
    /// An excerpt of a record of a log's batch, by another owner of that.
    #[inline(always)]
    fn of_given(given: &Given, excerpt: Excerpt) -> Result<Parts, AllocError>
        ensures { IfOk result (λ parts. AreThere parts × (parts_of parts ≡ excerpt_in given.now excerpt)) }
    {
        let logged = given.logged.share()?;
        Ok(Parts::Given {
            logged,
            index: given.index,
            excerpt,
        })
    }

    /// Another owner of a record that a program made.
    #[inline(always)]
    fn of_made(made: &Arc<Made>, index: usize) -> Result<Parts, AllocError>
        requires { index < length (arc_value made.now) }
        ensures { IfOk result (λ parts. AreThere parts × (parts_of parts ≡ get_or (arc_value made.now) index no_emission)) }
    {
        let made = Arc::try_clone(made)?;
        Ok(Parts::Made { made, index })
    }

    /// Another owner of a slot's parts.
    #[inline(always)]
    fn of(slot: &Slot, made: &Arc<Made>) -> Result<Parts, AllocError>
        requires { IsWithin (length (arc_value made.now)) slot.now.parts }
        ensures { IfOk result (λ parts. AreThere parts × (parts_of parts ≡ parts_in (arc_value made.now) slot.now.given slot.now.parts)) }
    {
        match slot.parts {
            SlotParts::Given(excerpt) => Self::of_given(&slot.given, excerpt),
            SlotParts::Made(index) => Self::of_made(made, index),
        }
    }

    /// Another owner of the same.
    fn share(&self) -> Result<Parts, AllocError>
        requires { AreThere self.now }
        ensures { IfOk result (λ parts. AreThere parts × (parts_of parts ≡ parts_of self.now)) }
    {
        match self {
            Parts::Given {
                logged,
                index,
                excerpt,
            } => {
                let logged = logged.share()?;
                Ok(Parts::Given {
                    logged,
                    index: *index,
                    excerpt: *excerpt,
                })
            }
            Parts::Made { made, index } => {
                let made = Arc::try_clone(made)?;
                Ok(Parts::Made {
                    made,
                    index: *index,
                })
            }
        }
    }
}

impl BookRow {
    /// The row of a slot, whose parts a record has or one of those that a program made. It fails only
    /// where memory runs out.
    #[inline(always)]
    pub(crate) fn of(slot: &Slot, made: &Arc<Made>) -> Result<BookRow, AllocError>
        requires { IsWithin (length (arc_value made.now)) slot.now.parts }
        ensures { IfOk result (λ row. row ≡ row_in (arc_value made.now) slot.now) }
    {
        let parts = Parts::of(slot, made)?;
        Ok(BookRow {
            numbers: slot.numbers,
            parts,
        })
    }

    /// The row of a slot whose parts a record has, where none was made. It fails only where memory runs out.
    #[inline(always)]
    pub(crate) fn of_given(slot: &Slot) -> Result<BookRow, AllocError>
        requires { IsWithin 0 slot.now.parts }
        ensures { IfOk result (λ row. row ≡ row_in [] slot.now) }
    {
        let parts = match slot.parts {
            SlotParts::Given(excerpt) => Parts::of_given(&slot.given, excerpt)?,
            SlotParts::Made(_) => unreachable!(),
        };
        Ok(BookRow {
            numbers: slot.numbers,
            parts,
        })
    }

    /// The record's offset in its input partition.
    #[inline(always)]
    pub fn offset(&self) -> u64
        ensures { result ≡ self.now.offset }
    {
        self.numbers.offset
    }

    /// The row by reference.
    #[inline(always)]
    pub fn by_ref(&self) -> RowRef<'_>
        ensures { result ≡ self.now }
    {
        match &self.parts {
            Parts::Given {
                logged,
                index,
                excerpt,
            } => self.numbers.with_excerpt(&logged.record(*index), excerpt),
            Parts::Made { made, index } => {
                let emission = &made.list[*index];
                let key = NullableBytes::of(&emission.key);
                let value = NullableBytes::of(&emission.value);
                self.numbers
                    .with_parts(key, value, HeadersRef::of(&emission.headers))
            }
        }
    }

    /// The same row, another owner of what has its parts. It fails only where memory runs out.
    pub fn share(&self) -> Result<BookRow, AllocError>
        ensures { IfOk result (λ row. row ≡ self.now) }
    {
        let parts = self.parts.share()?;
        Ok(BookRow {
            numbers: self.numbers,
            parts,
        })
    }

    /// The row as a value, another owner of its parts. It fails only where memory runs out.
    pub fn value(&self, alloc: Global) -> Result<Row, AllocError>
        ensures { IfOk result (λ row. row ≡ self.now) }
    {
        match &self.parts {
            Parts::Given {
                logged,
                index,
                excerpt,
            } => {
                let given = logged.record(*index);
                let headers = given.headers().to_headers(alloc)?;
                let value = share_value(alloc, &given, &excerpt.slice())?;
                Ok(self.numbers.row(given.share_key()?, value, headers))
            }
            Parts::Made { made, index } => {
                let emission = &made.list[*index];
                let headers = share_headers(alloc, &emission.headers)?;
                let key = share_bytes(&emission.key)?;
                let value = share_bytes(&emission.value)?;
                Ok(self.numbers.row(key, value, headers))
            }
        }
    }
}

/// Rows as values, other owners of their parts. It fails only where memory runs out.
pub fn row_values(alloc: Global, rows: &[BookRow]) -> Result<Vec<Row>, AllocError>
    ensures { IfOk result (λ values. values.items ≡ rows.now) }
{
    let mut values = Vec::with_capacity(alloc, rows.len())?;
    for row in rows {
        values.push(row.value(alloc)?)?;
    }
    Ok(values)
}
