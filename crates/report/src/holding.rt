ghost use Rattle.std.specs.Prelude.{◌≡◌, ◌<◌, ◌++◌, Some, length, slice_get, IfOk};
ghost use Rattle.log_spec.specs.Logs.{IsRowsOf};
ghost use Rattle.std.specs.Arc.{arc_value};
ghost use Rattle.fates.specs.Totals.{AreCountsOf};
ghost use Rattle.out_book.specs.Books.{rows_from};
ghost use Rattle.report.specs.Holdings.{HoldsOf, IsOutput};

use fates::Counts;
use out_book::{Book, BookRow, Rows};
use part_log::{Names, Trail};
use std::alloc::{AllocError, Global};
use std::marker::Model;
use std::sync::Arc;

/// What an output partition holds of an input partition: the items that are done, their rows, and what
/// became of their records. Its type keeps that the rows are those of the items, in order and each once,
/// and the counts those of their records.
#[derive(Drop)]
pub struct Holding<Id: Names> {
    output: usize,
    done: Trail<Id>,
    rows: Vec<BookRow>,
    counts: Arc<Counts>,
}

impl<Id: Names> Model for Holding<Id> {
    ghost use Rattle.std.specs.Prelude.{length};
    ghost use Rattle.std.specs.Arc.{arc_value};
    ghost use Rattle.fates.specs.Totals.{AreCountsOf};
    ghost use Rattle.report.specs.Holdings.{Held, held, IsHeld};

    ghost Value = { Held };

    ghost view = { λ h. held h.output h.done h.rows.items };

    ghost invariant = { λ h. IsHeld Id.outputs (held h.output h.done h.rows.items)
        × AreCountsOf h.done.partition Id.outputs h.done.items (length h.done.items) (arc_value h.counts) };
}

impl<Id: Names> Holding<Id> {
    /// What a book holds of an input partition. The rows share their bytes with the book's.
    pub(crate) fn of(
        alloc: Global,
        book: &Book<Id>,
        input: usize,
    ) -> Result<Holding<Id>, AllocError>
        requires { input < Id.inputs }
        ensures { IfOk result (HoldsOf Id.outputs book.now input) }
    {
        let rows = shared(alloc, book.rows_from(input))?;
        let mut counts = Counts::new(alloc);
        counts.add_all(book.counts(input))?;
        let counts = Arc::new(alloc, counts)?;
        Ok(Holding {
            output: book.output(),
            done: book.trail(input).again(),
            rows,
            counts,
        })
    }

    /// Which output partition holds it.
    pub fn output(&self) -> usize
        ensures { result ≡ self.now.output }
    {
        self.output
    }

    /// The items that are done, of the input partition.
    pub fn done(&self) -> &Trail<Id>
        ensures { result.now ≡ self.now.done }
    {
        &self.done
    }

    /// The rows of these items.
    pub fn rows(&self) -> &[BookRow]
        ensures rows { result.now ≡ self.now.rows }
        ensures are { IsRowsOf self.now.done.partition self.now.output Id.outputs self.now.done.items (length self.now.done.items) result.now }
    {
        self.rows.as_slice()
    }

    /// What became of the records of these items.
    pub(crate) fn counts(&self) -> &Arc<Counts>
        ensures { AreCountsOf self.now.done.partition Id.outputs self.now.done.items (length self.now.done.items) (arc_value result.now) }
    {
        &self.counts
    }
}

/// What an output partition holds of each input partition. Contracts see the list of them.
#[derive(Drop)]
pub(crate) struct Holdings<Id: Names> {
    list: Vec<Holding<Id>>,
}

impl<Id: Names> Model for Holdings<Id> {
    ghost use Rattle.std.specs.Prelude.{List};
    ghost use Rattle.report.specs.Holdings.{Held};

    ghost Value = { List Held };

    ghost view = { λ h. h.list.items };
}

impl<Id: Names> Holdings<Id> {
    /// What a book holds of each input partition.
    pub(crate) fn of(alloc: Global, book: &Book<Id>) -> Result<Holdings<Id>, AllocError>
        ensures { IfOk result (λ holdings. IsOutput book.now.output Id.inputs Id.outputs holdings) }
    {
        let mut list = Vec::with_capacity(alloc, book.inputs())?;
        for input in 0..book.inputs() {
            list.push(Holding::of(alloc, book, input)?)?;
        }
        Ok(Holdings { list })
    }

    /// What is held of an input partition.
    pub(crate) fn at(&self, input: usize) -> &Holding<Id>
        requires { input < length self.now }
        ensures { slice_get self.now input ≡ Some result.now }
    {
        &self.list[input]
    }

    /// The list, by input partition.
    pub(crate) fn as_slice(&self) -> &[Holding<Id>]
        ensures { result.now ≡ self.now }
    {
        self.list.as_slice()
    }
}

/// A list of rows, which share their bytes with the given ones.
fn shared(alloc: Global, rows: Rows<'_>) -> Result<Vec<BookRow>, AllocError>
    ensures { IfOk result (λ shared. shared.items ≡ rows.entry) }
{
    let mut left = rows;
    let mut list = Vec::new(alloc);
    while let Some(row) = left.next() {
        list.push(row.share()?)?;
    }
    Ok(list)
}
