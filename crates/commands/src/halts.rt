//! Why a transform ends early.

ghost use Rattle.std.specs.Prelude.{◌≡◌, ◌<◌, ◌⊎◌, true, Err, IfErr};
ghost use Rattle.commands.specs.declared.status.Status.TheVariants.{Refused, Failed};
ghost use Rattle.commands.specs.FileTransforms.{is_after_image, status_of, status_of_batch, status_of_halt};
ghost use Rattle.commands.specs.FileTransforms.{status_of_ended};

use crate::listing::refusal_text;
use crate::reading::{Unread, cause_of};
use crate::status::Status;
use crate::telling::{MEMORY, file_text, rules_text, tell_text};
use batch::BatchFault;
use batch_reader::{BatchReader, Position, ReadFault};
use batch_text::NoBatch;
use bytes::Bytes;
use program_file::FileFault;
use rules_compiler::TextFault;
use std::alloc::{AllocError, Global};
use std::io;
use std::io::{Read, Write};
use transform::{OutletFault, StreamFault, TransformFault};
use verifier_spec::LoadFault;

/// The place of the file of the batches among the words of a call, after the image.
pub(crate) const INPUT: usize = 1;

/// The place of the first output partition's file.
pub(crate) const FIRST_OUTPUT: usize = 2;

/// Where it stands what makes batches of others that klog refuses.
const CURE: &str =
    "docs/guide/formats.md: examples/kafka/plain makes such batches klog's, or says why it can't\n";

/// Why the file of a transform's program gives none.
#[derive(Clone, Copy)]
pub(crate) enum ProgramFault {
    /// It is a program file that is refused, or a text of rules whose program has another helper table than is named.
    File(FileFault),
    /// It is a text of rules that is refused.
    Rules(TextFault),
}

/// Why a transform ends early.
#[derive(Drop)]
pub(crate) enum Halt {
    /// The image is no program, or the verifier refuses it. Fields: the fault, and what is said of it.
    Image(LoadFault, String),
    /// The program file or the text of rules is refused.
    Program(ProgramFault),
    /// The bytes that follow begin with no batch, or end inside one.
    Batch(NoBatch),
    /// The offsets of records or rows are used up.
    Full,
    /// The file of this word can't be read or written.
    File(usize),
    /// Memory ran out.
    Memory,
}

impl From<AllocError> for Halt {
    ghost use Rattle.commands.specs.declared.halts.Halt.TheVariants.{Memory};

    ghost from_gives = { λ _ halt. halt ≡ Memory };

    fn from(_error: AllocError) -> Halt {
        Halt::Memory
    }
}

/// Why a transform ends whose file can't be used.
pub(crate) fn unused(word: usize, error: &io::Error) -> Halt
    ensures failed { status_of_halt result ≡ Failed }
    ensures after { 0 < word → is_after_image result ≡ true }
{
    match cause_of(error) {
        Unread::File => Halt::File(word),
        Unread::Memory => Halt::Memory,
    }
}

/// Why a transform ends at a fault of its stream, after these batches. The bytes that it refused, if it did, begin so.
fn halt_of(fault: StreamFault, position: Position, first: Result<Bytes, ReadFault>) -> Halt
    ensures status { (status_of_halt result ≡ status_of (Err fault)) ⊎ (status_of_halt result ≡ Failed) }
    ensures after { is_after_image result ≡ true }
{
    match fault {
        StreamFault::Read(ReadFault::Read) => Halt::File(INPUT),
        StreamFault::Read(ReadFault::Memory) => Halt::Memory,
        StreamFault::Read(ReadFault::Batch(fault)) => halt_of_batch(fault, position, first),
        StreamFault::Transform(TransformFault::Full) => Halt::Full,
        StreamFault::Transform(TransformFault::Memory) => Halt::Memory,
        StreamFault::Transform(TransformFault::Output { output, fault }) => match fault {
            OutletFault::Full => Halt::Full,
            OutletFault::Memory => Halt::Memory,
            OutletFault::Write => Halt::File(output.saturating_add(FIRST_OUTPUT)),
        },
    }
}

/// Why a transform ends at bytes that begin with no batch, after these batches.
fn halt_of_batch(fault: BatchFault, position: Position, first: Result<Bytes, ReadFault>) -> Halt
    ensures status { (status_of_halt result ≡ status_of_batch fault) ⊎ (status_of_halt result ≡ Failed) }
    ensures after { is_after_image result ≡ true }
{
    match fault {
        BatchFault::Memory => Halt::Memory,
        _ => halt_of_refusal(fault, position, first),
    }
}

/// The same where memory did not run out for the batch.
fn halt_of_refusal(fault: BatchFault, position: Position, first: Result<Bytes, ReadFault>) -> Halt
    ensures status { (status_of_halt result ≡ Refused) ⊎ (status_of_halt result ≡ Failed) }
    ensures after { is_after_image result ≡ true }
{
    match first {
        Ok(bytes) => Halt::Batch(NoBatch {
            batches: position.batches,
            position: position.bytes,
            fault,
            bytes,
        }),
        Err(ReadFault::Read) => Halt::File(INPUT),
        Err(_) => Halt::Memory,
    }
}

/// How a stream ended, after which batches, and how the bytes begin that it refused, if it did.
#[derive(Drop)]
pub(crate) struct Ending {
    pub(crate) ended: Result<(), StreamFault>,
    pub(crate) position: Position,
    pub(crate) first: Result<Bytes, ReadFault>,
}

/// How a reader's stream ended that ended so.
pub(crate) fn ending_of<R: Read>(
    ended: Result<(), StreamFault>,
    batches: &mut BatchReader<R>,
) -> Ending
    ensures { result.ended ≡ ended }
{
    let first = match ended {
        Err(StreamFault::Read(ReadFault::Batch(_))) => batches.refused(),
        _ => Ok(Bytes::new()),
    };
    Ending {
        ended,
        position: batches.position(),
        first,
    }
}

/// How a transform ends whose stream ended so.
pub(crate) fn halted(ending: Ending) -> Result<(), Halt>
    ensures status { (status_of_ended result ≡ status_of ending.ended) ⊎ (status_of_ended result ≡ Failed) }
    ensures after { IfErr result (λ halt. is_after_image halt ≡ true) }
{
    let Ending {
        ended,
        position,
        first,
    } = ending;
    match ended {
        Ok(()) => Ok(()),
        Err(fault) => Err(halt_of(fault, position, first)),
    }
}

/// Why the file of a transform's program gives none.
fn program_text(alloc: Global, fault: ProgramFault) -> Result<String, AllocError> {
    match fault {
        ProgramFault::File(fault) => format!(in alloc; "{fault}\n"),
        ProgramFault::Rules(fault) => rules_text(alloc, fault),
    }
}

/// What is said of a transform that ended early.
fn halt_text(alloc: Global, words: &[String], halt: &Halt) -> Result<String, AllocError> {
    match halt {
        Halt::Image(_, text) => String::from_str(alloc, text.as_str()),
        Halt::Program(fault) => program_text(alloc, *fault),
        Halt::Batch(refusal) => batch_text(alloc, refusal),
        Halt::Full => String::from_str(alloc, "full\n"),
        Halt::File(word) => file_text(alloc, name_or_none(words, *word)),
        Halt::Memory => String::from_str(alloc, MEMORY),
    }
}

/// Which bytes begin with no batch, why, and where the cure is, if they may have one.
fn batch_text(alloc: Global, refusal: &NoBatch) -> Result<String, AllocError> {
    let mut text = refusal_text(alloc, refusal)?;
    text.push_str(cure_of(refusal.fault))?;
    Ok(text)
}

/// What makes batches of bytes that are refused so, in a line; none where nothing does.
fn cure_of(fault: BatchFault) -> &'static str {
    match fault {
        BatchFault::TooLarge
        | BatchFault::Attributes
        | BatchFault::Count
        | BatchFault::Record(_)
        | BatchFault::Timestamp => CURE,
        BatchFault::Short
        | BatchFault::Length
        | BatchFault::Magic
        | BatchFault::Crc
        | BatchFault::Memory => "",
    }
}

/// The name that a word is, if there is such a word.
fn name_or_none(words: &[String], place: usize) -> &str {
    if place < words.len() {
        words[place].as_str()
    } else {
        ""
    }
}

/// The status that reports why a transform ended early: its image or a batch is refused, or offsets are
/// used up; or a file or memory fails.
fn status_of(halt: &Halt) -> Status
    ensures { result ≡ status_of_halt halt.now }
{
    match halt {
        Halt::Image(..) | Halt::Program(_) | Halt::Batch(..) | Halt::Full => Status::Refused,
        Halt::File(_) | Halt::Memory => Status::Failed,
    }
}

/// Says why a transform ended early, and answers the status.
pub(crate) fn tell_halt<E: Write>(
    alloc: Global,
    stderr: &mut E,
    words: &[String],
    halt: Halt,
) -> Status
    ensures { (result ≡ status_of_halt halt) ⊎ (result ≡ Failed) }
{
    let status = status_of(&halt);
    tell_text(stderr, halt_text(alloc, words, &halt), status)
}
