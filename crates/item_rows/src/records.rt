ghost use Rattle.std.specs.Prelude.{◌≡◌, ◌+◌, ◌<◌, ◌≤◌, pos, ◌≤ℤ◌, ◌<ℤ◌, unsigned_abs, length, IfOk, OnOk, option_map, Some};
ghost use Rattle.log_spec.specs.Logs.{timestamp_of, FitsLog, IsRecordsRows};
ghost use Rattle.fates.specs.Fates.{AreRecordsFates};
ghost use Rattle.fates.specs.Totals.{AreCountsWith};
ghost use Rattle.item_rows.specs.ItemRows.{IsOrigin, Adds};
ghost use Rattle.item_rows.specs.Blocks.{program_in, records_from, IsPartOf, ArePartRows, GiveRows};

use crate::batch_run::BatchRun;
use crate::blocks::Blocks;
use crate::origin::Origin;
use crate::part::Part;
use crate::refs::RowRefs;
use crate::rows::{ItemRefs, clear_each};
use fates::Counts;
use kafka_record::RecordRef;
use log_item::{LoggedBatch, Program};
use std::alloc::AllocError;
use wire_spec::TIMESTAMP_END;

/// A record's timestamp in milliseconds: its batch's base timestamp plus its delta.
pub(crate) fn timestamp(batch: &LoggedBatch, given: &RecordRef) -> u64
    requires from { pos 0 ≤ℤ timestamp_of batch.now given.now }
    requires to { timestamp_of batch.now given.now <ℤ pos TIMESTAMP_END }
    ensures value { result ≡ unsigned_abs (timestamp_of batch.now given.now) }
    ensures small { result < TIMESTAMP_END }
{
    (batch.base_timestamp() + given.timestamp_delta()) as u64
}

/// Runs the program in force on a batch's records, in order, and adds the rows that they give. Returns
/// the counts of the records.
pub(crate) fn push_records<'a>(
    blocks: &mut Blocks,
    program: Option<&'a Program>,
    origin: &'a Origin,
    batch: &'a LoggedBatch,
    first: usize,
    all: &mut [RowRefs<'a>],
) -> Result<Counts, AllocError>
    requires { IsOrigin origin.now }
    ensures { IfOk result (λ counts. AreCountsWith (AreRecordsFates origin.now.input origin.now.outputs (option_map (λ p. p.now) program.entry) batch.now origin.now.offset batch.now.records) counts
        × Adds first all.old all.new (λ output here. IsRecordsRows origin.now.input output origin.now.outputs (option_map (λ p. p.now) program.entry) batch.now origin.now.offset batch.now.records here)) }
{
    let alloc = blocks.alloc;
    let run = BatchRun {
        alloc,
        program,
        origin,
        batch,
        first,
    };
    let _fits = batch.len();
    let mut counts = Counts::new(alloc);
    run.push_all(blocks, all, &mut counts)?;
    Ok(counts)
}

/// The rows that some records of a batch give, in place of those that are there. Returns the counts of the
/// records.
pub(crate) fn refill<'a>(
    run: &BatchRun<'a>,
    part: Part,
    blocks: &mut Blocks,
    all: &mut [RowRefs<'a>],
) -> Result<Counts, AllocError>
    requires first { run.now.first ≡ 0 }
    requires origin { IsOrigin run.now.origin.now }
    requires fits { FitsLog run.now.batch.now }
    requires part { IsPartOf (length run.now.batch.now.records) part }
    requires outputs { length all.old ≡ run.now.origin.now.outputs }
    ensures { IfOk result (λ counts. ArePartRows run.now.origin.now (program_in run.now) run.now.batch.now part.first part.count all.new
        × AreCountsWith (AreRecordsFates run.now.origin.now.input run.now.origin.now.outputs (program_in run.now) run.now.batch.now (run.now.origin.now.offset + part.first) (records_from part.first part.count run.now.batch.now.records)) counts) }
{
    clear_each(all);
    let mut counts = Counts::new(blocks.alloc);
    run.push_part(part, blocks, all, &mut counts)?;
    Ok(counts)
}

/// The rows of some records of a batch in each output, by a program, and the counts of these records, in
/// place of what `rows` has; its lists keep their room. The rows refer to the batch's records. The origin is
/// the whole batch's. Each record is run once, which no clause says. It fails only where memory runs out; of
/// the rows nothing is said then.
pub fn part_refs_in<'a>(
    blocks: &mut Blocks,
    origin: &'a Origin,
    program: &'a Program,
    batch: &'a LoggedBatch,
    part: Part,
    rows: &mut ItemRefs<'a>,
) -> Result<(), AllocError>
    requires origin { IsOrigin origin.now }
    requires part { IsPartOf (length batch.now.records) part }
    requires outputs { length rows.old.rows ≡ origin.now.outputs }
    ensures rows { OnOk result (ArePartRows origin.now (Some program.now) batch.now part.first part.count rows.new.rows) }
    ensures counts { OnOk result (AreCountsWith (AreRecordsFates origin.now.input origin.now.outputs (Some program.now) batch.now (origin.now.offset + part.first) (records_from part.first part.count batch.now.records)) rows.new.counts) }
{
    let run = BatchRun {
        alloc: blocks.alloc,
        program: Some(program),
        origin,
        batch,
        first: 0,
    };
    let _fits = batch.len();
    rows.fill(&run, part, blocks)
}

/// Runs a program on the records of a batch from a number on, and drops what they emit: where an output
/// failed, the others of its batch are run too. In each output they have rows, also where memory runs out.
pub fn drop_rest(
    blocks: &mut Blocks,
    origin: &Origin,
    program: &Program,
    batch: &LoggedBatch,
    first: usize,
)
    requires origin { IsOrigin origin.now }
    requires within { first ≤ length batch.now.records }
    ensures { GiveRows origin.now program.now batch.now first }
{
    let run = BatchRun {
        alloc: blocks.alloc,
        program: Some(program),
        origin,
        batch,
        first: 0,
    };
    run.drop_rest(program, first, blocks)
}
