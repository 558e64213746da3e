//! What files hold, and why it can't be read.

ghost use Rattle.std.specs.Prelude.{◌≡◌, ◌≢◌, ℕ, List, Some, IfOk};
ghost use Rattle.std.specs.IoError.{error_kind};
ghost use Rattle.std.specs.declared.io.ErrorKind.TheVariants.{OutOfMemory};
ghost use Rattle.commands.specs.Files.{KeepsAll};
ghost use Rattle.commands.specs.declared.reading.Unread.TheVariants as unread;

use crate::files::Files;
use bytes::Bytes;
use std::alloc::{AllocError, Global};
use std::io;
use std::io::Read;

/// Why a reader's bytes could not all be read.
#[derive(Clone, Copy)]
pub enum Unread {
    /// The reader failed.
    File,
    /// Memory ran out.
    Memory,
}

/// All bytes of a reader.
pub fn read_whole<R: Read>(alloc: Global, reader: &mut R) -> Result<Vec<u8>, Unread>
    ensures { (left : List ℕ) → R.remaining reader.old ≡ Some left → IfOk result (λ bytes. bytes.items ≡ left) }
{
    let mut bytes = Vec::new(alloc);
    match reader.read_to_end(&mut bytes) {
        Ok(_) => Ok(bytes),
        Err(error) => Err(cause_of(&error)),
    }
}

/// The same bytes, for several owners.
pub fn shared(bytes: Vec<u8>) -> Result<Bytes, AllocError>
    ensures { IfOk result (λ shared. shared ≡ bytes.items) }
{
    Ok(Bytes::from_vec(bytes)?)
}

/// Why a file can't be read.
pub fn cause_of(error: &io::Error) -> Unread
    ensures memory { error_kind error.now ≡ OutOfMemory → result ≡ unread.Memory }
    ensures file { error_kind error.now ≢ OutOfMemory → result ≡ unread.File }
{
    match error.kind() {
        io::ErrorKind::OutOfMemory => Unread::Memory,
        _ => Unread::File,
    }
}

/// All bytes of a named file.
pub fn read_file<F: Files>(alloc: Global, files: &mut F, name: &str) -> Result<Vec<u8>, Unread>
    ensures read { (bytes : List ℕ) → F.bytes files.old name.now ≡ Some bytes → IfOk result (λ read. read.items ≡ bytes) }
    ensures kept { KeepsAll (F.bytes files.old) (F.bytes files.new) }
{
    match files.open(name) {
        Ok(mut reader) => read_whole(alloc, &mut reader),
        Err(error) => Err(cause_of(&error)),
    }
}
