ghost use Rattle.std.specs.Prelude.{◌≡◌, ◌<◌, ◌≤◌, ◌+◌, ◌^◌, ◌++◌, ◌∷◌, [], length, IfOk, OnOk, Some, slice_get, slice_set};
ghost use Rattle.std.specs.Arc.{arc_value};
ghost use Rattle.log_spec.specs.Logs.{FitsLog};
ghost use Rattle.fates.specs.{Fates.AreRecordsFates, Totals.AreCountsWith};
ghost use Rattle.item_rows.specs.ItemRows.{AreEmpty, IsOrigin, item_yield};
ghost use Rattle.item_rows.specs.Blocks.{program_in, records_from, IsPartOf, ArePartRows};

use crate::batch_run::BatchRun;
use crate::blocks::Blocks;
use crate::book_row::BookRow;
use crate::part::Part;
use crate::records::refill;
use crate::refs::RowRefs;
use fates::Counts;
use log_item::BLOCK;
use std::alloc::{AllocError, Global};
use std::marker::Model;
use std::mem;
use std::sync::Arc;

/// Rows in one output partition. Contracts see the list of them.
#[derive(Drop)]
struct OutputRows {
    list: Vec<BookRow>,
}

impl Model for OutputRows {
    ghost use Rattle.std.specs.Prelude.{List};
    ghost use Rattle.log_spec.specs.declared.row.Row.{Row};

    ghost Value = { List Row };

    ghost view = { λ r. r.list.items };
}

impl OutputRows {
    /// No rows.
    fn new(alloc: Global) -> OutputRows
        ensures { result ≡ [] }
    {
        OutputRows {
            list: Vec::new(alloc),
        }
    }

    /// The rows.
    fn as_slice(&self) -> &[BookRow]
        ensures { result.now ≡ self.now }
    {
        self.list.as_slice()
    }

    /// The rows, by value.
    fn into_vec(self) -> Vec<BookRow>
        ensures { result.items ≡ self }
    {
        let OutputRows { list } = self;
        list
    }
}

/// For how many rows of so many records each of `outputs` output partitions has room at first: somewhat more
/// than its share where each record gives one row. Its list then seldom grows.
pub(crate) fn room_for(records: usize, outputs: usize) -> usize
    requires some { 0 < outputs }
    requires few { records < 2 ^ 62 }
    ensures { result ≤ records }
{
    let share = records / outputs;
    records.min(share + share / 8)
}

/// No rows in each of `outputs` output partitions, and room for so many in each.
#[tactic(auto, using(crate::proofs::RowLaws::empty_more, crate::proofs::RowLaws::empty_none))]
pub(crate) fn empty<'a>(
    alloc: Global,
    outputs: usize,
    room: usize,
) -> Result<Vec<RowRefs<'a>>, AllocError>
    ensures { IfOk result (λ all. AreEmpty outputs all.items) }
{
    let mut all = Vec::with_capacity(alloc, outputs)?;
    for _ in 0..outputs {
        let none = RowRefs::with_capacity(alloc, room)?;
        all.push(none)?;
    }
    Ok(all)
}

/// Leaves no rows in each output partition. The lists keep their room.
pub(crate) fn clear_each(all: &mut [RowRefs])
    ensures { AreEmpty (length all.old) all.new }
{
    for output in 0..all.len() {
        all[output].clear();
    }
}

/// The rows of each output partition as books have them.
fn rows_of_each(alloc: Global, mut outputs: Vec<RowRefs>) -> Result<Vec<OutputRows>, AllocError>
    ensures { IfOk result (λ made. made.items ≡ outputs.entry.items) }
{
    let mut made = Vec::with_capacity(alloc, outputs.len())?;
    for rows in outputs.drain(..) {
        let list = rows.into_book_rows(alloc)?;
        made.push(OutputRows { list })?;
    }
    Ok(made)
}

/// The rows of an item, output by output, which refer to the item's records, and what became of these.
/// Contracts see a list for each output partition, and the counts.
#[derive(Drop)]
pub struct ItemRefs<'a> {
    outputs: Vec<RowRefs<'a>>,
    counts: Counts,
}

impl<'a> Model for ItemRefs<'a> {
    ghost use Rattle.item_rows.specs.ItemRows.{ItemYield, item_yield};

    ghost Value = { ItemYield };

    ghost view = { λ r. item_yield r.outputs.items r.counts };
}

impl<'a> ItemRefs<'a> {
    /// These rows and counts.
    pub(crate) fn new(outputs: Vec<RowRefs<'a>>, counts: Counts) -> ItemRefs<'a>
        ensures { result ≡ item_yield outputs.entry.items counts }
    {
        ItemRefs { outputs, counts }
    }

    /// No rows in each of so many output partitions, of no record, and room for those that a part of so many
    /// records may have.
    pub fn none(alloc: Global, outputs: usize, records: usize) -> Result<ItemRefs<'a>, AllocError>
        requires { 0 < outputs }
        ensures { IfOk result (λ made. length made.rows ≡ outputs) }
    {
        let all = empty(alloc, outputs, room_for(records.min(BLOCK), outputs))?;
        Ok(ItemRefs::new(all, Counts::new(alloc)))
    }

    /// The rows and the counts of some records that are run, in place of those that are here.
    pub(crate) fn fill(
        &mut self,
        run: &BatchRun<'a>,
        part: Part,
        blocks: &mut Blocks,
    ) -> Result<(), AllocError>
        requires first { run.now.first ≡ 0 }
        requires origin { IsOrigin run.now.origin.now }
        requires fits { FitsLog run.now.batch.now }
        requires part { IsPartOf (length run.now.batch.now.records) part }
        requires outputs { length self.old.rows ≡ run.now.origin.now.outputs }
        ensures rows { OnOk result (ArePartRows run.now.origin.now (program_in run.now) run.now.batch.now part.first part.count self.new.rows) }
        ensures counts { OnOk result (AreCountsWith (AreRecordsFates run.now.origin.now.input run.now.origin.now.outputs (program_in run.now) run.now.batch.now (run.now.origin.now.offset + part.first) (records_from part.first part.count run.now.batch.now.records)) self.new.counts) }
    {
        self.counts = refill(run, part, blocks, &mut self.outputs)?;
        Ok(())
    }

    /// How many output partitions there are.
    pub fn outputs(&self) -> usize
        ensures { result ≡ length self.now.rows }
    {
        self.outputs.len()
    }

    /// The item's rows in an output partition.
    pub fn rows(&self, output: usize) -> &RowRefs<'a>
        requires { output < length self.now.rows }
        ensures { slice_get self.now.rows output ≡ Some result.now }
    {
        &self.outputs[output]
    }

    /// What became of the item's records.
    pub fn counts(&self) -> &Counts
        ensures { result.now ≡ self.now.counts }
    {
        &self.counts
    }

    /// The rows as books have them. It fails only where memory runs out.
    pub(crate) fn into_book_rows(self, alloc: Global) -> Result<ItemRows, AllocError>
        ensures { IfOk result (λ made. made ≡ self.entry) }
    {
        let ItemRefs { outputs, counts } = self;
        let outputs = rows_of_each(alloc, outputs)?;
        Ok(ItemRows {
            outputs,
            counts: Arc::new(alloc, counts)?,
        })
    }
}

/// The rows of an item, output by output, and what became of its records. Contracts see a list for
/// each output partition, and the counts.
#[derive(Drop)]
pub struct ItemRows {
    outputs: Vec<OutputRows>,
    counts: Arc<Counts>,
}

impl Model for ItemRows {
    ghost use Rattle.std.specs.Arc.{arc_value};
    ghost use Rattle.item_rows.specs.ItemRows.{ItemYield, item_yield};

    ghost Value = { ItemYield };

    ghost view = { λ r. item_yield r.outputs.items (arc_value r.counts) };
}

impl ItemRows {
    /// How many output partitions there are.
    pub fn outputs(&self) -> usize
        ensures { result ≡ length self.now.rows }
    {
        self.outputs.len()
    }

    /// The item's rows in an output partition.
    pub fn rows(&self, output: usize) -> &[BookRow]
        requires { output < length self.now.rows }
        ensures { slice_get self.now.rows output ≡ Some result.now }
    {
        self.outputs[output].as_slice()
    }

    /// What became of the item's records.
    pub fn counts(&self) -> &Arc<Counts>
        ensures { arc_value result.now ≡ self.now.counts }
    {
        &self.counts
    }

    /// The item's rows in an output partition, by value. None are left there.
    pub fn take(&mut self, alloc: Global, output: usize) -> Vec<BookRow>
        requires { output < length self.old.rows }
        ensures rows { slice_get self.old.rows output ≡ Some result.items }
        ensures left { self.new.rows ≡ slice_set self.old.rows output [] }
        ensures counts { self.new.counts ≡ self.old.counts }
    {
        let empty = OutputRows::new(alloc);
        mem::replace(&mut self.outputs[output], empty).into_vec()
    }
}
