//! What batches tell C.

ghost use Rattle.std.specs.Prelude.{◌≡◌};
ghost use Rattle.c_outcomes.specs.Outcomes.{found, part_at};
ghost use Rattle.klog_c.specs.Batches as definitions;

use c_outcomes::{Telling, item_at};
use transform::{OutputBatches, Transformed};

/// How many batches a program was given, and what became of their records.
#[repr(C)]
#[derive(Clone, Copy)]
pub struct Counted {
    /// How many batches there were.
    pub batches: usize,
    /// How many records they had.
    pub records: u64,
    /// How many of these were kept. The others were rejected.
    pub kept: u64,
    /// How many codes rejected others.
    pub codes: usize,
    /// How many output partitions there are.
    pub outputs: usize,
}

/// How many records a code rejected.
#[repr(C)]
#[derive(Clone, Copy)]
pub struct Reject {
    pub code: u64,
    pub records: u64,
}

/// What an output partition's batches are.
#[repr(C)]
#[derive(Clone, Copy)]
pub struct OutputTold {
    /// How many rows are in them.
    pub rows: u64,
    /// How many bytes the batches have.
    pub length: usize,
    /// How many batches they are.
    pub batches: usize,
}

impl Telling<Transformed> for Counted {
    ghost told_of = { definitions.counted_of };

    fn told_of(made: &Transformed) -> Counted {
        Counted {
            batches: made.batches,
            records: made.counts.records(),
            kept: made.counts.kept(),
            codes: made.rejects.len(),
            outputs: made.outputs.len(),
        }
    }
}

impl Telling<(u64, u64)> for Reject {
    ghost told_of = { definitions.reject_of };

    fn told_of(listed: &(u64, u64)) -> Reject {
        let (code, records) = *listed;
        Reject { code, records }
    }
}

impl Telling<OutputBatches> for OutputTold {
    ghost told_of = { definitions.told_of };

    fn told_of(made: &OutputBatches) -> OutputTold {
        OutputTold {
            rows: made.rows,
            length: made.bytes.len(),
            batches: made.batches,
        }
    }
}

/// A code of batches that were found, and how many records it rejected.
pub(crate) fn reject_at(made: Result<&Transformed, u32>, number: usize) -> Result<&(u64, u64), u32>
    ensures { found result ≡ definitions.reject_at (found made.entry) number }
{
    item_at(made?.rejects.as_slice(), number)
}

/// An output partition of batches that were found.
pub(crate) fn output_at(
    made: Result<&Transformed, u32>,
    number: usize,
) -> Result<&OutputBatches, u32>
    ensures { found result ≡ definitions.output_at (found made.entry) number }
{
    item_at(made?.outputs.as_slice(), number)
}

/// The bytes of an output partition's batches.
pub(crate) fn output_bytes(made: Result<&Transformed, u32>, number: usize) -> Result<&[u8], u32>
    ensures { found result ≡ part_at (λ output. output.bytes.items) (definitions.output_at (found made.entry) number) }
{
    Ok(output_at(made, number)?.bytes.as_slice())
}
