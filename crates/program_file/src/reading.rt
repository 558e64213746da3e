//! From the bytes of a program file to the program.

ghost use Rattle.std.specs.Prelude.{◌≡◌, ◌+◌, ◌<◌, ◌≤◌, ◌^◌, length, IsTrue};
ghost use Rattle.wire_spec.specs.Memory.{AnswersAs};
ghost use Rattle.program_file.specs.Reading as definitions;
ghost use Rattle.program_file.specs.declared.fault.FileFault.TheVariants as faults;

use crate::fault::FileFault;
use crate::file::ProgramFile;
use crate::fitting::is_table;
use crate::header::{HEADER, VERSION, number_at};
use crate::lines::places_from;
use bytes::Bytes;
use std::alloc::Global;

/// The program of a table and of an image of this size.
fn read_parts(
    alloc: Global,
    bytes: &Bytes,
    table: u32,
    size: usize,
) -> Result<ProgramFile, FileFault>
    requires within { 16 + size ≤ length bytes.now }
    requires small { size < 2 ^ 32 }
    ensures { AnswersAs faults.Memory (λ f. f) result (definitions.read_parts table size bytes.now) }
{
    let end = HEADER + size;
    let image = bytes.slice(HEADER..end)?;
    let places = places_from(alloc, bytes, end, size / 8)?;
    Ok(ProgramFile {
        table,
        image,
        places,
    })
}

/// The program that a program file has; its image and the texts of its places share the bytes. It fails
/// with the first reason why the bytes are none, in the order that `FileFault` gives, or as `Memory`
/// where memory runs out.
#[tactic(auto, unfolding(crate::specs::Reading::read_file))]
pub fn read(alloc: Global, bytes: &Bytes) -> Result<ProgramFile, FileFault>
    requires { IsTrue (definitions.is_program_file bytes.now) }
    ensures { AnswersAs faults.Memory (λ f. f) result (definitions.read_file bytes.now) }
{
    if bytes.len() < HEADER {
        return Err(FileFault::Short);
    }
    if number_at(bytes, 4) != VERSION {
        return Err(FileFault::Version);
    }
    let table = number_at(bytes, 8);
    if !is_table(table) {
        return Err(FileFault::Table);
    }
    let size = number_at(bytes, 12) as usize;
    if bytes.len() < HEADER + size {
        return Err(FileFault::Short);
    }
    read_parts(alloc, bytes, table, size)
}
