//! Exports on record batches: a transform, what its batches tell.

ghost use Rattle.std.specs.Prelude.{◌≡◌};
ghost use Rattle.klog_c.specs.Batches.{Transforms, TellsCounts, TellsReject, TellsOutput, CopiesOutput, batches_in};
ghost use Rattle.klog_c.specs.Calls.{program_in};

use crate::handle::Handle;
use crate::object::{batches_of, program_of};
use crate::outputs::{Counted, OutputTold, Reject, output_at, output_bytes, reject_at};
use crate::transforming::{BatchSource, Stopped, transform_into};
use c_outcomes::{copy_found, tell};
use std::alloc::Global;

/// Runs a program on all record batches of some bytes, into a handle that holds nothing or batches. A
/// fault leaves the handle as it was; of a batch or of the offsets `stopped` is then where.
#[unsafe(no_mangle)]
pub extern "C" fn klog_c_transform(
    alloc: Global,
    program: &mut Handle,
    source: &BatchSource,
    bytes: &[u8],
    batches: &mut Handle,
    stopped: &mut Stopped,
) -> u32
    ensures program { program.new.place.object ≡ program.old.place.object }
    ensures batches { Transforms (program_in program.old.place.object) source.now bytes.now batches.old.place.object batches.new.place.object stopped.new result }
{
    let object = program.take(alloc);
    let number = transform_into(alloc, program_of(&object), source, bytes, batches, stopped);
    program.put_back(alloc, object);
    number
}

/// Tells how many batches a program was given, and what became of their records.
#[unsafe(no_mangle)]
pub extern "C" fn klog_c_counts(alloc: Global, batches: &mut Handle, counts: &mut Counted) -> u32
    ensures batches { batches.new.place.object ≡ batches.old.place.object }
    ensures told { TellsCounts (batches_in batches.old.place.object) counts.new result }
{
    let object = batches.take(alloc);
    let number = tell(batches_of(&object), counts);
    batches.put_back(alloc, object);
    number
}

/// Tells a code that rejected records, by its number from 0, and how many.
#[unsafe(no_mangle)]
pub extern "C" fn klog_c_reject(
    alloc: Global,
    batches: &mut Handle,
    at: usize,
    reject: &mut Reject,
) -> u32
    ensures batches { batches.new.place.object ≡ batches.old.place.object }
    ensures told { TellsReject (batches_in batches.old.place.object) at reject.new result }
{
    let object = batches.take(alloc);
    let number = tell(reject_at(batches_of(&object), at), reject);
    batches.put_back(alloc, object);
    number
}

/// Tells of an output partition how many rows it has, and how many batches and bytes they are.
#[unsafe(no_mangle)]
pub extern "C" fn klog_c_output(
    alloc: Global,
    batches: &mut Handle,
    at: usize,
    output: &mut OutputTold,
) -> u32
    ensures batches { batches.new.place.object ≡ batches.old.place.object }
    ensures told { TellsOutput (batches_in batches.old.place.object) at output.new result }
{
    let object = batches.take(alloc);
    let number = tell(output_at(batches_of(&object), at), output);
    batches.put_back(alloc, object);
    number
}

/// Copies the batches of an output partition to the front of a buffer. A fault leaves the buffer as it
/// was.
#[unsafe(no_mangle)]
pub extern "C" fn klog_c_output_batches(
    alloc: Global,
    batches: &mut Handle,
    at: usize,
    buffer: &mut [u8],
) -> u32
    ensures batches { batches.new.place.object ≡ batches.old.place.object }
    ensures copied { CopiesOutput (batches_in batches.old.place.object) at buffer.old buffer.new result }
{
    let object = batches.take(alloc);
    let number = copy_found(output_bytes(batches_of(&object), at), buffer);
    batches.put_back(alloc, object);
    number
}
