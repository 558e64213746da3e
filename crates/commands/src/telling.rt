//! What calls report: a status, a text on standard error, or one on standard output.

ghost use Rattle.std.specs.Prelude.{◌≡◌, ◌⊎◌, OnOk, IfErr};
ghost use Rattle.std.specs.Bool.{OnTrue};
ghost use Rattle.std.specs.Io.KnownBytes.{Appends};
ghost use Rattle.commands.specs.declared.status.Status.TheVariants.{Done, Failed};
ghost use Rattle.commands.specs.Stops.{status_of, status_of_refused, IsUnwritten};

use crate::explaining::refused_text;
use crate::image::Refused;
use crate::reading::Unread;
use crate::run::Ended;
use crate::status::Status;
use crate::stop::{Stop, status_of, unwritten};
use program_file::GivenProgram;
use rules::RuleFault;
use rules_compiler::TextFault;
use std::alloc::{AllocError, Global};
use std::fmt::Display;
use std::io::Write;

/// What is reported where memory ran out.
pub(crate) const MEMORY: &str = "memory\n";

/// What is reported where there is no thread for a worker.
const THREAD: &str = "thread\n";

/// Writes a text to standard error, as far as it can be written, and answers whether all of it was.
pub(crate) fn say<E: Write>(stderr: &mut E, text: &str) -> bool
    ensures { OnTrue result (Appends (E.contents stderr.old) (E.contents stderr.new) text.now) }
{
    stderr.write_all(text.as_bytes()).is_ok()
}

/// Says that memory ran out, and answers the status.
pub(crate) fn tell_memory<E: Write>(stderr: &mut E) -> Status
    ensures { result ≡ Failed }
{
    say(stderr, MEMORY);
    Status::Failed
}

/// Says a text and answers the status. Where there is no memory for the text, it says that.
pub(crate) fn tell_text<E: Write>(
    stderr: &mut E,
    text: Result<String, AllocError>,
    status: Status,
) -> Status
    ensures { (result ≡ status) ⊎ (result ≡ Failed) }
{
    match text {
        Ok(text) => {
            say(stderr, text.as_str());
            status
        }
        Err(_) => tell_memory(stderr),
    }
}

/// A line, and why it is refused.
fn line_text<D: Display>(alloc: Global, line: u64, fault: &D) -> Result<String, AllocError> {
    format!(in alloc; "line {line}: {fault}\n")
}

/// At which line and column a text of rules can't go on.
fn rule_text(alloc: Global, fault: RuleFault) -> Result<String, AllocError> {
    match fault.spot() {
        Some(spot) => {
            let line = spot.line;
            let column = spot.column;
            format!(in alloc; "line {line}: {fault} at column {column}\n")
        }
        None => String::from_str(alloc, MEMORY),
    }
}

/// Why a text of rules gives no program.
pub(crate) fn rules_text(alloc: Global, fault: TextFault) -> Result<String, AllocError> {
    match fault {
        TextFault::Line(fault) => rule_text(alloc, fault),
        TextFault::Rules(fault) => format!(in alloc; "{fault}\n"),
        TextFault::Memory => String::from_str(alloc, MEMORY),
    }
}

/// What the end of a script says on standard error.
fn end_text(alloc: Global, ended: &Ended) -> Result<String, AllocError> {
    match &ended.stop {
        Stop::Line(fault) => line_text(alloc, ended.line, fault),
        Stop::Program(fault) => line_text(alloc, ended.line, fault),
        Stop::Broker(fault) => line_text(alloc, ended.line, fault),
        Stop::Batch(fault) => line_text(alloc, ended.line, fault),
        Stop::File(file) => file_text(alloc, file.text.as_str()),
        Stop::Output => file_text(alloc, "stdout"),
        Stop::Thread => String::from_str(alloc, THREAD),
        Stop::Memory => String::from_str(alloc, MEMORY),
    }
}

pub(crate) fn file_text(alloc: Global, name: &str) -> Result<String, AllocError> {
    format!(in alloc; "file {name}\n")
}

/// Reports why a script ended early, and answers the status. Where there is no memory for the text,
/// that is reported.
pub(crate) fn tell<E: Write>(alloc: Global, stderr: &mut E, ended: &Ended) -> Status
    ensures { (result ≡ status_of ended.now.stop) ⊎ (result ≡ Failed) }
{
    tell_text(stderr, end_text(alloc, ended), status_of(&ended.stop))
}

/// Reports that a file can't be read or written, and answers the status.
pub(crate) fn tell_unread<E: Write>(
    alloc: Global,
    stderr: &mut E,
    name: &str,
    unread: Unread,
) -> Status
    ensures { result ≡ Failed }
{
    match unread {
        Unread::File => tell_text(stderr, file_text(alloc, name), Status::Failed),
        Unread::Memory => tell_memory(stderr),
    }
}

/// Writes all of a text to standard output.
#[tactic(auto, using(crate::proofs::Written::appended_and_kept))]
pub(crate) fn write_out<O: Write>(stdout: &mut O, text: &str) -> Result<(), Stop>
    ensures written { OnOk result (Appends (O.contents stdout.old) (O.contents stdout.new) text.now) }
    ensures failed { IfErr result (λ stop. status_of stop ≡ Failed) }
    ensures is { IfErr result IsUnwritten }
{
    match stdout.write_all(text.as_bytes()) {
        Err(error) => Err(unwritten(&error)),
        Ok(()) => match stdout.flush() {
            Err(error) => Err(unwritten(&error)),
            Ok(()) => Ok(()),
        },
    }
}

/// Prints a text, and answers the status: `Done` where all of it was written, and else `Failed`.
pub(crate) fn print_text<O: Write, E: Write>(
    alloc: Global,
    stdout: &mut O,
    stderr: &mut E,
    text: &str,
) -> Status
    ensures status { (result ≡ Done) ⊎ (result ≡ Failed) }
    ensures printed { result ≡ Done → Appends (O.contents stdout.old) (O.contents stdout.new) text.now }
{
    match write_out(stdout, text) {
        Ok(()) => Status::Done,
        Err(stop) => tell(alloc, stderr, &Ended { line: 0, stop }),
    }
}

/// Says why a call on a program prints nothing, and answers the status. Where there is no memory for
/// the text, it says that.
pub(crate) fn tell_refused<E: Write>(
    alloc: Global,
    stderr: &mut E,
    given: &GivenProgram,
    refused: Refused,
) -> Status
    ensures { (result ≡ status_of_refused refused) ⊎ (result ≡ Failed) }
{
    match refused {
        Refused::Image(fault) => {
            tell_text(stderr, refused_text(alloc, given, fault), Status::Refused)
        }
        Refused::Memory => tell_memory(stderr),
    }
}
