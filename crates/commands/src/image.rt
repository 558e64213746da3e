//! Images of programs and program files: how much of a file is read as one, and what `check` prints of an image.

ghost use Rattle.std.specs.Prelude.{◌≡◌, List, ℕ, Some, IfOk, string_bytes};
ghost use Rattle.commands.specs.declared.image.Refused.TheVariants as refused;
ghost use Rattle.machine_spec.specs.Image.{Program, program_of};
ghost use Rattle.annotate.specs.Loads.{FaultIs};
ghost use Rattle.commands.specs.Files.{KeepsAll};
ghost use Rattle.commands.specs.Images.{first_bytes, accepted_line, IsRefusal, ChecksAs, RanOut};

use crate::files::Files;
use crate::reading::{Unread, cause_of, read_whole};
use machine_spec::{IsaFault, Table};
use std::alloc::{AllocError, Global};
use std::io::Read;
use verifier_spec::{Check, LoadFault};

/// How much of a file is read as a program. The greatest image has less, and a program file then has room for lines of
/// some five hundred bytes for each slot.
const MOST_READ: u64 = 0x80_0000;

/// Why a call on an image prints nothing.
#[derive(Clone, Copy, Drop)]
pub enum Refused {
    /// The image is no program, or the verifier refuses it.
    Image(LoadFault),
    /// Memory ran out.
    Memory,
}

/// The first bytes of a reader. Whatever follows them, an image of `MOST_READ` bytes is refused by its
/// size; so a file without end is refused too.
fn read_first<R: Read + Drop>(alloc: Global, reader: R) -> Result<Vec<u8>, Unread>
    ensures { (bytes : List ℕ) → R.remaining reader ≡ Some bytes → IfOk result (λ first. first.items ≡ first_bytes bytes) }
{
    let mut first = reader.take(MOST_READ);
    read_whole(alloc, &mut first)
}

/// The first bytes of a named file, as many as are read of a program.
pub fn read_image<F: Files>(alloc: Global, files: &mut F, name: &str) -> Result<Vec<u8>, Unread>
    ensures read { (bytes : List ℕ) → F.bytes files.old name.now ≡ Some bytes → IfOk result (λ image. image.items ≡ first_bytes bytes) }
    ensures kept { KeepsAll (F.bytes files.old) (F.bytes files.new) }
{
    match files.open(name) {
        Ok(reader) => read_first(alloc, reader),
        Err(error) => Err(cause_of(&error)),
    }
}

/// The refusal of a program that is not loaded.
pub fn refusal_of(fault: LoadFault) -> Refused
    ensures refusal { (program : Program) → FaultIs program fault → IsRefusal program result }
    ensures memory { RanOut fault → result ≡ refused.Memory }
    ensures image { ¬ RanOut fault → result ≡ refused.Image fault }
{
    match fault {
        LoadFault::Isa(IsaFault::Memory) => Refused::Memory,
        LoadFault::Isa(_) => Refused::Image(fault),
        LoadFault::Verify(refused) => match refused.kind {
            Check::Memory => Refused::Memory,
            _ => Refused::Image(fault),
        },
    }
}

/// The line that says how many instructions an accepted program has.
fn accepted(alloc: Global, count: usize) -> Result<String, AllocError>
    ensures { IfOk result (λ text. string_bytes text ≡ accepted_line count) }
{
    Ok(format!(in alloc; "accepted {count} instructions\n")?)
}

/// What `check` prints of an image and a helper table: how many instructions the program has that the
/// verifier accepts, or why it is refused.
pub fn check(alloc: Global, image: &[u8], table: Table) -> Result<String, Refused>
    ensures { ChecksAs (program_of image.now table) string_bytes result }
{
    let verified = match annotate::load(alloc, image, table) {
        Err(fault) => return Err(refusal_of(fault)),
        Ok(verified) => verified,
    };
    match accepted(alloc, verified.code().len()) {
        Ok(text) => Ok(text),
        Err(_) => Err(Refused::Memory),
    }
}
