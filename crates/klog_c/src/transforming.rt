//! Record batches through a program.

ghost use Rattle.std.specs.Prelude.{◌≡◌, Ok};
ghost use Rattle.c_outcomes.specs.Outcomes.{found};
ghost use Rattle.klog_c.specs.Batches as definitions;

use crate::faults::{RANGE, stop_told};
use crate::filling::fill;
use crate::handle::Handle;
use crate::object::Object;
use crate::shared::Shared;
use item_rows::Origin;
use log_item::Program;
use std::alloc::Global;
use transform::{BatchPlace, transform_batches};
use wire_spec::TIMESTAMP_END;

/// Where record batches are, how many output partitions there are, and how many bytes their batches may take.
#[repr(C)]
#[derive(Clone, Copy)]
pub struct BatchSource {
    /// The first record's offset in its input partition, at most 2^62.
    pub offset: u64,
    /// The input partition, below 64.
    pub partition: usize,
    /// How many output partitions there are, 1 to 64.
    pub outputs: usize,
    /// The most bytes that the batches of all output partitions take together.
    pub limit: u64,
}

/// Where a transform stopped.
#[repr(C)]
#[derive(Clone, Copy)]
pub struct Stopped {
    /// How many whole batches are before.
    pub batch: usize,
    /// How many bytes they have, and so where the next batch begins.
    pub byte: usize,
    /// The record of that batch that the fault is about, 0 where it is about none.
    pub place: u32,
}

fn is_source(source: &BatchSource) -> bool
    ensures { result ≡ definitions.is_source source.now }
{
    source.partition < 64
        && source.offset <= TIMESTAMP_END
        && 1 <= source.outputs
        && source.outputs <= 64
}

/// Puts what a program makes of batches into a handle.
#[tactic(auto, using(crate::proofs::Sources::stopped, crate::proofs::Sources::transformed))]
fn transform_program(
    alloc: Global,
    program: &Program,
    source: &BatchSource,
    bytes: &[u8],
    batches: &mut Handle,
    stopped: &mut Stopped,
) -> u32
    ensures { definitions.Transforms (Ok program.now) source.now bytes.now batches.old.place.object batches.new.place.object stopped.new result }
{
    if !is_source(source) {
        return RANGE;
    }
    let origin = Origin {
        input: source.partition,
        offset: source.offset,
        outputs: source.outputs,
    };
    let mut place = BatchPlace { batch: 0, byte: 0 };
    match transform_batches(alloc, program, &origin, bytes, source.limit, &mut place) {
        Ok(made) => fill(alloc, batches, Object::Batches(made)),
        Err(stop) => {
            let (number, record) = stop_told(stop);
            *stopped = Stopped {
                batch: place.batch,
                byte: place.byte,
                place: record,
            };
            number
        }
    }
}

/// Puts what a program that was found makes of batches into a handle.
pub(crate) fn transform_into(
    alloc: Global,
    program: Result<&Shared, u32>,
    source: &BatchSource,
    bytes: &[u8],
    batches: &mut Handle,
    stopped: &mut Stopped,
) -> u32
    ensures { definitions.Transforms (found program.entry) source.now bytes.now batches.old.place.object batches.new.place.object stopped.new result }
{
    match program {
        Err(fault) => fault,
        Ok(program) => {
            transform_program(alloc, program.program(), source, bytes, batches, stopped)
        }
    }
}
