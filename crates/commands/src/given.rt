//! Programs that files give, as images or as program files.

ghost use Rattle.program_file.specs.Choice.{given_program};
ghost use Rattle.commands.specs.Files.{KeepsAll};
ghost use Rattle.commands.specs.Given.{IsGiven, IsGivenBy, IsTold};

use crate::files::Files;
use crate::image::read_image;
use crate::reading::{Unread, shared};
use crate::status::Status;
use crate::telling::{tell_text, tell_unread};
use machine_spec::Table;
use program_file::{FileFault, GivenProgram, given_program};
use std::alloc::Global;
use std::io::Write;

/// Why a file gives no program.
#[derive(Clone, Copy)]
pub enum Ungiven {
    /// It can't be read, or memory ran out.
    Unread(Unread),
    /// It is a program file that is refused.
    File(FileFault),
}

/// The program that bytes are, by the helper table that is named, if one is.
pub(crate) fn given_of(
    alloc: Global,
    bytes: Vec<u8>,
    named: Option<Table>,
) -> Result<GivenProgram, Ungiven>
    ensures { IsGivenBy (given_program named bytes.items) result }
{
    let Ok(bytes) = shared(bytes) else {
        return Err(Ungiven::Unread(Unread::Memory));
    };
    match given_program(alloc, named, bytes) {
        Ok(given) => Ok(given),
        Err(FileFault::Memory) => Err(Ungiven::Unread(Unread::Memory)),
        Err(fault) => Err(Ungiven::File(fault)),
    }
}

/// The program in a named file, by the helper table that is named, if one is.
#[tactic(auto, using(crate::proofs::GivenLaws::read_as))]
pub fn read_program<F: Files>(
    alloc: Global,
    files: &mut F,
    name: &str,
    named: Option<Table>,
) -> Result<GivenProgram, Ungiven>
    ensures given { IsGiven (F.bytes files.old) name.now named result }
    ensures kept { KeepsAll (F.bytes files.old) (F.bytes files.new) }
{
    match read_image(alloc, files, name) {
        Ok(bytes) => given_of(alloc, bytes, named),
        Err(cause) => Err(Ungiven::Unread(cause)),
    }
}

/// Says why a file gives no program, and answers the status.
pub fn tell_ungiven<E: Write>(alloc: Global, stderr: &mut E, name: &str, ungiven: Ungiven) -> Status
    ensures { IsTold ungiven result }
{
    match ungiven {
        Ungiven::Unread(unread) => tell_unread(alloc, stderr, name, unread),
        Ungiven::File(fault) => {
            tell_text(stderr, format!(in alloc; "{fault}\n"), Status::Refused)
        }
    }
}
