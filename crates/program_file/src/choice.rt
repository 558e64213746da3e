//! The program that a user gives.

ghost use Rattle.std.specs.Prelude.{◌≡◌};
ghost use Rattle.wire_spec.specs.Memory.{AnswersAs};
ghost use Rattle.program_file.specs.Choice as definitions;
ghost use Rattle.program_file.specs.declared.fault.FileFault.TheVariants as faults;

use crate::fault::FileFault;
use crate::file::{Places, ProgramFile};
use crate::header::is_program_file;
use crate::reading::read;
use bytes::Bytes;
use machine_spec::Table;
use std::alloc::Global;

/// A program as a user gives it: by an image, or by a program file.
#[derive(Drop)]
pub struct GivenProgram {
    /// The helper table that it runs by.
    pub table: Table,
    pub image: Bytes,
    /// Where its slots come from, as far as that is known.
    pub places: Places,
}

/// The helper table with a number, if programs run by it.
fn table_numbered(number: u32) -> Option<Table>
    ensures { result ≡ definitions.table_numbered number }
{
    if number == 1 {
        Some(Table::One)
    } else if number == 2 {
        Some(Table::Two)
    } else if number == 3 {
        Some(Table::Three)
    } else {
        None
    }
}

/// The number of a helper table.
fn number_of(table: Table) -> u32
    ensures { result ≡ definitions.number_of table }
{
    match table {
        Table::One => 1,
        Table::Two => 2,
        Table::Three => 3,
    }
}

/// Whether a table is the one that is named, where one is.
fn is_named(named: Option<Table>, table: Table) -> bool
    ensures { result ≡ definitions.is_named named table }
{
    match named {
        Some(named) => number_of(named) == number_of(table),
        None => true,
    }
}

/// The program of a file.
fn file_program(named: Option<Table>, file: ProgramFile) -> Result<GivenProgram, FileFault>
    ensures { result ≡ definitions.run_by named file (definitions.table_numbered file.table) }
{
    match table_numbered(file.table) {
        Some(table) if is_named(named, table) => Ok(GivenProgram {
            table,
            image: file.image,
            places: file.places,
        }),
        Some(_) | None => Err(FileFault::Table),
    }
}

/// The program that bytes are. Those that begin as a program file are read as one, and a table that is
/// named beside it must be its own; others are an image, of the named table or else table 1. It fails
/// as `read` does, and as `Table` also where the file's table is not the named one.
pub fn given_program(
    alloc: Global,
    named: Option<Table>,
    bytes: Bytes,
) -> Result<GivenProgram, FileFault>
    ensures { AnswersAs faults.Memory (λ p. p) result (definitions.given_program named bytes) }
{
    if is_program_file(&bytes) {
        let file = read(alloc, &bytes)?;
        file_program(named, file)
    } else {
        Ok(GivenProgram {
            table: named.unwrap_or(Table::One),
            image: bytes,
            places: Places {
                list: Vec::new(alloc),
            },
        })
    }
}
