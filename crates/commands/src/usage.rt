//! Which calls there are, which version this is, and what is said of words that are no call.

ghost use Rattle.std.specs.Prelude.{◌≡◌, ◌≢◌};
ghost use Rattle.std.specs.IoError.{error_kind};
ghost use Rattle.std.specs.declared.io.ErrorKind.TheVariants.{OutOfMemory};
ghost use Rattle.commands.specs.declared.status.Status.TheVariants.{Failed};
ghost use Rattle.commands.specs.Usages.{ListsCalls, PrintsVersion, TellsUsage};

use crate::status::Status;
use crate::telling::{MEMORY, print_text, say};
use std::alloc::Global;
use std::io;
use std::io::Write;

/// What is said of words that are no call.
const USAGE: &str = "usage: klog COMMAND FILE ...\n";

/// All calls.
const CALLS: &str = "klog asm TEXT IMAGE\nklog batches FILE\nklog check IMAGE [1 or 2]\n\
    klog commands\nklog explain IMAGE [1 or 2] [refused]\nklog dis IMAGE\nklog recheck LIST\n\
    klog records FILE\nklog rule TEXT PROGRAM\nklog run SCRIPT\n\
    klog transform [table2] IMAGE IN OUT ..\nklog version\n";

/// The version, as the head of CHANGELOG.md has it.
const VERSION: &str = "klog 1.1.0\n";

/// What was told to standard error.
#[derive(Clone, Copy)]
pub struct Told {
    /// The status that the call ends with.
    pub status: Status,
    /// Whether all of the text was written.
    pub is_written: bool,
}

/// Says how calls are written.
pub(crate) fn tell_usage<E: Write>(stderr: &mut E) -> Told
    ensures { TellsUsage result (E.contents stderr.old) (E.contents stderr.new) }
{
    Told {
        status: Status::Usage,
        is_written: say(stderr, USAGE),
    }
}

/// Reports why the words of a call could not be had: memory ran out, or a word is not UTF-8, which no
/// call has.
pub fn tell_no_words<E: Write>(stderr: &mut E, error: &io::Error) -> Told
    ensures memory { error_kind error.now ≡ OutOfMemory → result.status ≡ Failed }
    ensures no_text { error_kind error.now ≢ OutOfMemory
        → TellsUsage result (E.contents stderr.old) (E.contents stderr.new) }
{
    match error.kind() {
        io::ErrorKind::OutOfMemory => Told {
            status: Status::Failed,
            is_written: say(stderr, MEMORY),
        },
        _ => tell_usage(stderr),
    }
}

/// Prints all calls, and answers the status.
pub(crate) fn list_calls<O: Write, E: Write>(
    alloc: Global,
    stdout: &mut O,
    stderr: &mut E,
) -> Status
    ensures { ListsCalls result (O.contents stdout.old) (O.contents stdout.new) }
{
    print_text(alloc, stdout, stderr, CALLS)
}

/// Prints the version, and answers the status.
pub(crate) fn print_version<O: Write, E: Write>(
    alloc: Global,
    stdout: &mut O,
    stderr: &mut E,
) -> Status
    ensures { PrintsVersion result (O.contents stdout.old) (O.contents stdout.new) }
{
    print_text(alloc, stdout, stderr, VERSION)
}
