//! The batches or the records of a file, listed.

ghost use Rattle.std.specs.Prelude.{◌≡◌, ◌⊎◌};
ghost use Rattle.std.specs.Io.KnownBytes.{Keeps};
ghost use Rattle.commands.specs.declared.status.Status.TheVariants.{Failed};
ghost use Rattle.commands.specs.Files.{KeepsAll};
ghost use Rattle.commands.specs.Hosts.{KeepsInputs};
ghost use Rattle.commands.specs.Listings.{ListsAs, source_of, status_of, status_of_listed};

use crate::files::Files;
use crate::host::Host;
use crate::reading::cause_of;
use crate::status::Status;
use crate::telling::{file_text, tell_memory, tell_text, tell_unread};
use batch_text::{ListFault, Listing, NoBatch, cause_text, list_all};
use std::alloc::{AllocError, Global};
use std::io::{BufReader, Read, Write};
use wire_spec::MAX_PIECE;

/// Which bytes begin with no batch, and why, in a line.
pub(crate) fn refusal_text(alloc: Global, refusal: &NoBatch) -> Result<String, AllocError> {
    let NoBatch {
        batches,
        position,
        fault,
        bytes,
    } = refusal;
    let cause = cause_text(alloc, *fault, bytes)?;
    format!(in alloc; "batch {batches} at byte {position}: {fault}: {cause}\n")
}

/// Says that standard output can't be written, and answers the status.
fn tell_unwritten<E: Write>(alloc: Global, stderr: &mut E) -> Status
    ensures { result ≡ Failed }
{
    tell_text(stderr, file_text(alloc, "stdout"), Status::Failed)
}

/// Says why no further batch of a file is listed, and answers the status.
fn tell_fault<E: Write>(alloc: Global, stderr: &mut E, name: &str, fault: &ListFault) -> Status
    ensures { (result ≡ status_of fault.now) ⊎ (result ≡ Failed) }
{
    match fault {
        ListFault::Batch(refusal) => tell_text(
            stderr,
            refusal_text(alloc, refusal),
            Status::Refused,
        ),
        ListFault::Read => tell_text(stderr, file_text(alloc, name), Status::Failed),
        ListFault::Write => tell_unwritten(alloc, stderr),
        ListFault::Memory => tell_memory(stderr),
    }
}

/// Whether what was printed has left.
fn is_flushed<O: Write>(stdout: &mut O) -> bool
    ensures { Keeps (O.contents stdout.old) (O.contents stdout.new) }
{
    stdout.flush().is_ok()
}

/// Flushes standard output, says why a listing ended early, if it did, and answers the status.
fn finish<O: Write, E: Write>(
    alloc: Global,
    listed: &Result<(), ListFault>,
    stdout: &mut O,
    stderr: &mut E,
    name: &str,
) -> Status
    ensures kept { Keeps (O.contents stdout.old) (O.contents stdout.new) }
    ensures told { (result ≡ status_of_listed listed.now) ⊎ (result ≡ Failed) }
{
    let is_flushed = is_flushed(stdout);
    match listed {
        Err(fault) => tell_fault(alloc, stderr, name, fault),
        Ok(()) if is_flushed => Status::Done,
        Ok(()) => tell_unwritten(alloc, stderr),
    }
}

/// Lists the batches of a reader with a buffer, and answers the status.
fn list_buffered<R: Read, O: Write, E: Write>(
    alloc: Global,
    listing: Listing,
    reader: &mut R,
    stdout: &mut O,
    stderr: &mut E,
    name: &str,
) -> Status
    ensures { ListsAs listing (R.remaining reader.old) result (O.contents stdout.old) (O.contents stdout.new) }
{
    let listed = list_all(alloc, listing, reader, stdout);
    finish(alloc, &listed, stdout, stderr, name)
}

/// Lists the batches of a reader, and answers the status.
fn list_reader<R: Read + Drop, O: Write, E: Write>(
    alloc: Global,
    listing: Listing,
    reader: R,
    stdout: &mut O,
    stderr: &mut E,
    name: &str,
) -> Status
    ensures { ListsAs listing (R.remaining reader) result (O.contents stdout.old) (O.contents stdout.new) }
{
    match BufReader::with_capacity(alloc, MAX_PIECE, reader) {
        Ok(mut reader) => list_buffered(alloc, listing, &mut reader, stdout, stderr, name),
        Err(_) => tell_memory(stderr),
    }
}

/// Lists the batches of a named file, and answers the status.
fn list_file<F: Files, I, O: Write, E: Write>(
    host: &mut Host<F, I, O, E>,
    listing: Listing,
    name: &str,
) -> Status
    ensures listed { ListsAs listing (F.bytes host.old.files name.now) result (O.contents host.old.stdout) (O.contents host.new.stdout) }
    ensures kept { KeepsInputs F.bytes host.old host.new }
{
    let reader = match host.files.open(name) {
        Ok(reader) => reader,
        Err(error) => {
            return tell_unread(host.alloc, &mut host.stderr, name, cause_of(&error));
        }
    };
    list_reader(
        host.alloc,
        listing,
        reader,
        &mut host.stdout,
        &mut host.stderr,
        name,
    )
}

/// Lists the batches, or the records, of a file; the name `stdin` is standard input. Answers the status:
/// `Done`, all are listed; `Refused`, the bytes that follow begin with no batch; `Failed`, a file, standard
/// output or memory failed. No file changes.
pub fn list<F: Files, I: Read, O: Write, E: Write>(
    host: &mut Host<F, I, O, E>,
    listing: Listing,
    name: &str,
) -> Status
    ensures listed { ListsAs listing (source_of name.now (I.remaining host.old.stdin) (F.bytes host.old.files name.now)) result (O.contents host.old.stdout) (O.contents host.new.stdout) }
    ensures kept { KeepsAll (F.bytes host.old.files) (F.bytes host.new.files) }
{
    if name != "stdin" {
        return list_file(host, listing, name);
    }
    list_reader(
        host.alloc,
        listing,
        &mut host.stdin,
        &mut host.stdout,
        &mut host.stderr,
        name,
    )
}
