ghost use Rattle.std.specs.Prelude.{◌≡◌, ◌<◌, ◌≤◌, IfOk, option_map};
ghost use Rattle.std.specs.Arc.{arc_value};
ghost use Rattle.fates.specs.Totals.{AreItemCounts};
ghost use Rattle.log_spec.specs.Logs.{records_in};
ghost use Rattle.log_item.specs.Items.{item_view};
ghost use Rattle.item_rows.specs.ItemRows.{IsOrigin, GivesRows, AreItemRows, AreRowsFrom, Adds};

use crate::blocks::Blocks;
use crate::book_row::BookRow;
use crate::origin::Origin;
use crate::records::push_records;
use crate::refs::RowRefs;
use crate::rows::{ItemRefs, ItemRows, empty, room_for};
use fates::Counts;
use log_item::{Item, Program};
use std::alloc::{AllocError, Global};
use std::sync::Arc;

/// The rows of an item in one output partition, and what became of its records.
#[derive(Drop)]
pub struct OneOutput {
    /// The rows.
    pub rows: Vec<BookRow>,
    /// The counts of the item's records.
    pub counts: Arc<Counts>,
}

/// Adds the rows of an item: none of a mark or the end, and none of a batch with no mark before it.
/// Returns the counts of its records.
fn push_item<'a>(
    blocks: &mut Blocks,
    origin: &'a Origin,
    program: Option<&'a Program>,
    item: &'a Item,
    first: usize,
    all: &mut [RowRefs<'a>],
) -> Result<Counts, AllocError>
    requires { IsOrigin origin.now }
    ensures { IfOk result (λ counts. AreItemCounts origin.now.input origin.now.outputs (option_map (λ p. p.now) program.entry) origin.now.offset (item_view item.now) counts
        × Adds first all.old all.new (GivesRows origin.now (option_map (λ p. p.now) program.entry) (item_view item.now))) }
{
    match item {
        Item::Mark { .. } => Ok(Counts::new(blocks.alloc)),
        Item::End => Ok(Counts::new(blocks.alloc)),
        Item::Batch(logged) => {
            let _fits = logged.len();
            push_records(blocks, program, origin, logged, first, all)
        }
    }
}

/// For how many of an item's rows each of `count` output partitions has room at first.
fn rows_expected(program: Option<&Program>, item: &Item, count: usize) -> usize
    requires { 0 < count }
    ensures { result ≤ records_in (item_view item.now) }
{
    if program.is_none() {
        return 0;
    }
    room_for(item.records() as usize, count)
}

/// The rows of an item in `count` output partitions from `first` on, and the counts of its records.
fn rows_from<'a>(
    blocks: &mut Blocks,
    origin: &'a Origin,
    program: Option<&'a Program>,
    item: &'a Item,
    first: usize,
    count: usize,
) -> Result<ItemRefs<'a>, AllocError>
    requires origin { IsOrigin origin.now }
    requires some { 0 < count }
    ensures { IfOk result (λ made. AreItemCounts origin.now.input origin.now.outputs (option_map (λ p. p.now) program.entry) origin.now.offset (item_view item.now) made.counts
        × AreRowsFrom first count origin.now (option_map (λ p. p.now) program.entry) (item_view item.now) made.rows) }
{
    let alloc = blocks.alloc;
    let mut all = empty(alloc, count, rows_expected(program, item, count))?;
    let counts = push_item(blocks, origin, program, item, first, all.as_mut_slice())?;
    Ok(ItemRefs::new(all, counts))
}

/// The rows of an item in each output, which refer to the item's records, and the counts of these.
fn item_refs_in<'a>(
    blocks: &mut Blocks,
    origin: &'a Origin,
    program: Option<&'a Program>,
    item: &'a Item,
) -> Result<ItemRefs<'a>, AllocError>
    requires { IsOrigin origin.now }
    ensures rows { IfOk result (λ made. AreItemRows origin.now (option_map (λ p. p.now) program.entry) (item_view item.now) made.rows) }
    ensures counts { IfOk result (λ made. AreItemCounts origin.now.input origin.now.outputs (option_map (λ p. p.now) program.entry) origin.now.offset (item_view item.now) made.counts) }
{
    rows_from(blocks, origin, program, item, 0, origin.outputs)
}

/// The rows of an item in each output, by the program in force before it: none of a mark or the
/// end, and none of a batch with no mark before it; and the counts of its records. Each record is run
/// once, which no clause says. It fails only where memory runs out.
pub fn item_rows_in(
    blocks: &mut Blocks,
    origin: &Origin,
    program: Option<&Program>,
    item: &Item,
) -> Result<ItemRows, AllocError>
    requires { IsOrigin origin.now }
    ensures rows { IfOk result (λ made. AreItemRows origin.now (option_map (λ p. p.now) program.entry) (item_view item.now) made.rows) }
    ensures counts { IfOk result (λ made. AreItemCounts origin.now.input origin.now.outputs (option_map (λ p. p.now) program.entry) origin.now.offset (item_view item.now) made.counts) }
{
    let refs = item_refs_in(blocks, origin, program, item)?;
    refs.into_book_rows(blocks.alloc)
}

/// The rows of an item in one output alone, and the counts of its records. Each record is run once, which
/// no clause says. It fails only where memory runs out.
pub fn output_rows(
    alloc: Global,
    origin: &Origin,
    program: Option<&Program>,
    item: &Item,
    output: usize,
) -> Result<OneOutput, AllocError>
    requires { IsOrigin origin.now }
    ensures rows { IfOk result (λ made. GivesRows origin.now (option_map (λ p. p.now) program.entry) (item_view item.now) output made.rows.items) }
    ensures counts { IfOk result (λ made. AreItemCounts origin.now.input origin.now.outputs (option_map (λ p. p.now) program.entry) origin.now.offset (item_view item.now) (arc_value made.counts)) }
{
    let made = rows_from(&mut Blocks::new(alloc), origin, program, item, output, 1)?;
    let mut rows = made.into_book_rows(alloc)?;
    let counts = Arc::try_clone(rows.counts())?;
    Ok(OneOutput {
        rows: rows.take(alloc, 0),
        counts,
    })
}
