//! Why a command stops before its end.

ghost use Rattle.std.specs.Prelude.{◌≡◌, ◌≢◌};
ghost use Rattle.std.specs.IoError.{error_kind};
ghost use Rattle.std.specs.declared.io.ErrorKind.TheVariants.{OutOfMemory};
ghost use Rattle.commands.specs.declared.stop.Stop.TheVariants as stop;
ghost use Rattle.commands.specs.declared.status.Status.TheVariants.{Failed};
ghost use Rattle.commands.specs.Stops.{stop_of_file, stop_of_fault, stop_of_broker, stop_of_report, stop_of_unread, stop_of_stream, end_of_stream, status_of, end_of, end_of_all, IsUnwritten};

use crate::reading::Unread;
use crate::status::Status;
use batch::BatchFault;
use broker::{BrokerFault, Ended, StreamFault};
use catalogue::CatFault;
use out_book::BookFault;
use part_log::LogFault;
use program_file::FileFault;
use report::ReportFault;
use script::{FileName, ScriptFault};
use std::alloc::AllocError;
use std::io;

/// Why a script ends early.
#[derive(Drop)]
pub enum Stop {
    /// The line is refused before anything of it is done.
    Line(ScriptFault),
    /// The program file that the line names is refused.
    Program(FileFault),
    /// The broker refuses what the line asks for.
    Broker(BrokerFault),
    /// The bytes that the line names are no record batches.
    Batch(BatchFault),
    /// A file can't be read.
    File(FileName),
    /// Standard output can't be written.
    Output,
    /// There is no thread for a worker.
    Thread,
    /// Memory ran out.
    Memory,
}

impl From<AllocError> for Stop {
    ghost from_gives = { λ _ e. e ≡ stop.Memory };

    fn from(_e: AllocError) -> Stop {
        Stop::Memory
    }
}

impl From<FileFault> for Stop {
    ghost from_gives = { λ fault e. e ≡ stop_of_file fault };

    fn from(fault: FileFault) -> Stop {
        match fault {
            FileFault::Memory => Stop::Memory,
            _ => Stop::Program(fault),
        }
    }
}

impl From<BatchFault> for Stop {
    ghost from_gives = { λ fault e. e ≡ stop_of_fault fault };

    fn from(fault: BatchFault) -> Stop {
        match fault {
            BatchFault::Memory => Stop::Memory,
            _ => Stop::Batch(fault),
        }
    }
}

impl From<BrokerFault> for Stop {
    ghost from_gives = { λ fault e. e ≡ stop_of_broker fault };

    fn from(fault: BrokerFault) -> Stop {
        match fault {
            BrokerFault::Memory
            | BrokerFault::Catalogue(CatFault::Memory)
            | BrokerFault::Log(LogFault::Memory)
            | BrokerFault::Book(BookFault::Memory) => Stop::Memory,
            _ => Stop::Broker(fault),
        }
    }
}

impl From<ReportFault> for Stop {
    ghost from_gives = { λ fault e. e ≡ stop_of_report fault };

    fn from(fault: ReportFault) -> Stop {
        match fault {
            ReportFault::Write => Stop::Output,
            ReportFault::Memory => Stop::Memory,
        }
    }
}

/// Why a command stops whose file can't be read.
pub fn stop_of_unread(name: FileName, cause: Unread) -> Stop
    ensures { result ≡ stop_of_unread name cause }
{
    match cause {
        Unread::File => Stop::File(name),
        Unread::Memory => Stop::Memory,
    }
}

/// Why a command stops that appends no further batch of a stream; `unread`, where the stream can't be
/// read.
fn stop_of_stream(fault: StreamFault, unread: Stop) -> Stop
    ensures { result ≡ stop_of_stream unread fault }
{
    match fault {
        StreamFault::Read => unread,
        StreamFault::Batch(fault) => Stop::from(fault),
        StreamFault::Broker(fault) => Stop::from(fault),
    }
}

/// How a command ends that appended a stream.
pub fn end_of_stream(appended: Result<u64, StreamFault>, unread: Stop) -> Result<(), Stop>
    ensures { result ≡ end_of_stream unread appended }
{
    match appended {
        Ok(_) => Ok(()),
        Err(fault) => Err(stop_of_stream(fault, unread)),
    }
}

/// Why a script ends where a worker ended so, if it does. The gate of a script's workers stops none.
fn end_of(ended: Ended) -> Result<(), Stop>
    ensures { result ≡ end_of ended }
{
    match ended {
        Ended::Done(_) | Ended::Stopped(..) => Ok(()),
        Ended::Fault(fault) => Err(Stop::from(fault)),
        Ended::NoThread => Err(Stop::Thread),
    }
}

/// Why a script ends where its workers ended so: what the first of them met that did not end its
/// work.
pub fn end_of_all(ended: &[Ended]) -> Result<(), Stop>
    ensures { result ≡ end_of_all ended.now }
{
    for end in ended {
        if let Err(stop) = end_of(*end) {
            return Err(stop);
        }
    }
    Ok(())
}

/// The status that reports why a script ended: its line is refused; or a file, standard output, a thread
/// or memory fails.
pub fn status_of(stop: &Stop) -> Status
    ensures { result ≡ status_of stop.now }
{
    match stop {
        Stop::Line(_) | Stop::Program(_) | Stop::Broker(_) | Stop::Batch(_) => Status::Refused,
        Stop::File(_) | Stop::Output | Stop::Thread | Stop::Memory => Status::Failed,
    }
}

/// A failed write to standard output.
pub fn unwritten(error: &io::Error) -> Stop
    ensures memory { error_kind error.now ≡ OutOfMemory → result ≡ stop.Memory }
    ensures output { error_kind error.now ≢ OutOfMemory → result ≡ stop.Output }
    ensures status { status_of result ≡ Failed }
    ensures is { IsUnwritten result }
{
    match error.kind() {
        io::ErrorKind::OutOfMemory => Stop::Memory,
        _ => Stop::Output,
    }
}
