//! Record batches of a file through a program, into files.

ghost use Rattle.std.specs.Prelude.{◌≡◌, ◌≤◌, ◌+◌, ◌⊎◌, ℕ, List, [], Some, true, length, IfErr, OnOk};
ghost use Rattle.batch.specs.Streams.{Open};
ghost use Rattle.batch_reader.specs.Readings.{IsOpen, inlet, none_given};
ghost use Rattle.transform.specs.Streams.{TransformsAll};
ghost use Rattle.script.specs.Words.{word_at};
ghost use Rattle.command_line.specs.Calls.{names_of};
ghost use Rattle.commands.specs.declared.status.Status.TheVariants.{Failed};
ghost use Rattle.commands.specs.FileTransforms.{KeepsOthers, KeepsUnlessAccepted, KeepsOrParts, KeepsSources, is_after_image};
ghost use Rattle.commands.specs.Files.{KeepsAll};
ghost use Rattle.commands.specs.FileTransforms.{Streams, CallWrites, CallLeaves, HaveWritten};
ghost use Rattle.commands.specs.FileTransforms.{AreApart, EndsFiles, keeps_rows, status_of, status_of_ended, status_of_halt};
ghost use Rattle.commands.specs.Listings.{source_of};

use crate::counting::{counts_text, say_counts};
use crate::files::Files;
use crate::halts::{Ending, Halt, INPUT, ending_of, halted, tell_halt, unused};
use crate::host::Host;
use crate::loading::load_file;
use crate::output_files::{begin_all, close_all, name_at};
use crate::progress::Progress;
use crate::status::Status;
use crate::usage::tell_usage;
use batch_reader::BatchReader;
use log_item::Program;
use log_spec::MAX_PARTITIONS;
use machine_spec::Table;
use std::alloc::Global;
use std::io::{Read, Write};
use transform::{
    OutletFault, StreamFault, Transform, TransformFault, rows_of_a_log, transform_watched,
};
use wire_spec::MAX_PIECE;

/// Runs a program on a reader's batches, and says on the way how far that is.
fn run<F: Files, R: Read, E: Write>(
    alloc: Global,
    files: &F,
    stderr: &mut E,
    program: &Program,
    batches: &mut BatchReader<R>,
    stream: &mut Transform<F::Writer>,
) -> Result<(), StreamFault>
    requires { IsOpen batches.old }
    ensures { TransformsAll program.now batches.old stream.old result batches.new stream.new }
{
    let mut progress = Progress::new(alloc, files, stderr);
    transform_watched(program, batches, stream, &mut progress)
}

/// Whether the rows of the batches before a fault are kept: unless the writer of an output partition failed, or memory
/// ran out.
fn keeps_rows(ended: Result<(), StreamFault>) -> bool
    ensures { result ≡ keeps_rows ended }
{
    match ended {
        Err(StreamFault::Transform(TransformFault::Output { fault, .. })) => {
            matches!(fault, OutletFault::Full)
        }
        Err(StreamFault::Transform(TransformFault::Memory)) => false,
        _ => true,
    }
}

/// Ends the files of a stream that ended so; where its rows aren't kept, all files stay.
fn end_files<F: Files>(
    alloc: Global,
    files: &mut F,
    words: &[String],
    stream: Transform<F::Writer>,
    ended: Result<(), StreamFault>,
) -> Result<(), Halt>
    ensures held { AreApart F.leads (names_of words.now) → (status_of ended ≡ Failed)
        ⊎ OnOk result (HaveWritten (names_of words.now) stream.outputs (F.bytes files.new)) }
    ensures each { AreApart F.leads (names_of words.now) → EndsFiles (names_of words.now) ended stream.outputs (F.bytes files.old) (F.bytes files.new) }
    ensures kept { KeepsOthers F.leads (names_of words.now) (F.bytes files.old) (F.bytes files.new) }
    ensures err { IfErr result (λ halt. status_of_halt halt ≡ Failed) }
    ensures after { IfErr result (λ halt. is_after_image halt ≡ true) }
{
    if keeps_rows(ended) {
        close_all(alloc, files, words, stream.into_outlets())
    } else {
        Ok(())
    }
}

/// Ends the files of a stream that ended so, and says how many records and rows there were.
fn finish<F: Files, E: Write>(
    alloc: Global,
    files: &mut F,
    stderr: &mut E,
    words: &[String],
    stream: Transform<F::Writer>,
    ending: Ending,
) -> Result<(), Halt>
    ensures held { AreApart F.leads (names_of words.now) → (status_of_ended result ≡ Failed) ⊎ ((status_of_ended result ≡ status_of ending.ended)
        × HaveWritten (names_of words.now) stream.outputs (F.bytes files.new)) }
    ensures each { AreApart F.leads (names_of words.now) → EndsFiles (names_of words.now) ending.ended stream.outputs (F.bytes files.old) (F.bytes files.new) }
    ensures kept { KeepsOthers F.leads (names_of words.now) (F.bytes files.old) (F.bytes files.new) }
    ensures after { IfErr result (λ halt. is_after_image halt ≡ true) }
{
    let counts = counts_text(alloc, &stream, ending.position.batches);
    match end_files(alloc, files, words, stream, ending.ended) {
        Ok(()) => {
            say_counts(stderr, counts);
            halted(ending)
        }
        Err(halt) => {
            say_counts(stderr, counts);
            Err(halt)
        }
    }
}

/// Runs a program on a reader's batches into files, and says how many there were. The words are those of
/// the call.
#[tactic(auto, using(crate::proofs::Kept::kept))]
fn write_batches<F: Files, R: Read, E: Write>(
    alloc: Global,
    files: &mut F,
    stderr: &mut E,
    program: &Program,
    words: &[String],
    batches: &mut BatchReader<R>,
) -> Result<(), Halt>
    requires some { 3 ≤ length words.now }
    requires few { length words.now ≤ MAX_PARTITIONS + 2 }
    requires open { IsOpen batches.old }
    ensures written { F.tells ≡ true → (bytes : List ℕ) → batches.old ≡ inlet (Open []) (Some bytes) none_given
        → Streams program.now bytes (names_of words.now) (status_of_ended result) (F.bytes files.old) (F.bytes files.new) }
    ensures parts { F.tells ≡ true → KeepsOrParts F.leads (names_of words.now) (F.bytes files.old) (F.bytes files.new) }
    ensures kept { KeepsOthers F.leads (names_of words.now) (F.bytes files.old) (F.bytes files.new) }
    ensures after { IfErr result (λ halt. is_after_image halt ≡ true) }
{
    rows_of_a_log();
    match begin_all(alloc, files, words) {
        Ok(outlets) => {
            let mut stream = Transform::new(alloc, 0, 0, outlets);
            let ended = run(alloc, files, stderr, program, batches, &mut stream);
            let ending = ending_of(ended, batches);
            finish(alloc, files, stderr, words, stream, ending)
        }
        Err(halt) => Err(halt),
    }
}

/// The same of a reader's bytes.
fn write_files<F: Files, R: Read + Drop, E: Write>(
    alloc: Global,
    files: &mut F,
    reader: R,
    stderr: &mut E,
    program: &Program,
    words: &[String],
) -> Result<(), Halt>
    requires some { 3 ≤ length words.now }
    requires few { length words.now ≤ MAX_PARTITIONS + 2 }
    ensures written { F.tells ≡ true → (bytes : List ℕ) → R.remaining reader ≡ Some bytes
        → Streams program.now bytes (names_of words.now) (status_of_ended result) (F.bytes files.old) (F.bytes files.new) }
    ensures parts { F.tells ≡ true → KeepsOrParts F.leads (names_of words.now) (F.bytes files.old) (F.bytes files.new) }
    ensures kept { KeepsOthers F.leads (names_of words.now) (F.bytes files.old) (F.bytes files.new) }
    ensures after { IfErr result (λ halt. is_after_image halt ≡ true) }
{
    match BatchReader::new(alloc, reader, MAX_PIECE) {
        Ok(mut batches) => write_batches(alloc, files, stderr, program, words, &mut batches),
        Err(_) => Err(Halt::Memory),
    }
}

/// The same of the file of the second word; the name `stdin` is standard input.
fn write_source<F: Files, I: Read, O, E: Write>(
    host: &mut Host<F, I, O, E>,
    program: &Program,
    words: &[String],
) -> Result<(), Halt>
    requires some { 3 ≤ length words.now }
    requires few { length words.now ≤ MAX_PARTITIONS + 2 }
    ensures written { F.tells ≡ true → (bytes : List ℕ)
        → source_of (word_at (names_of words.now) 1) (I.remaining host.old.stdin) (F.bytes host.old.files (word_at (names_of words.now) 1)) ≡ Some bytes
        → Streams program.now bytes (names_of words.now) (status_of_ended result) (F.bytes host.old.files) (F.bytes host.new.files) }
    ensures parts { F.tells ≡ true → KeepsOrParts F.leads (names_of words.now) (F.bytes host.old.files) (F.bytes host.new.files) }
    ensures kept { KeepsOthers F.leads (names_of words.now) (F.bytes host.old.files) (F.bytes host.new.files) }
    ensures after { IfErr result (λ halt. is_after_image halt ≡ true) }
    ensures stdout { host.new.stdout ≡ host.old.stdout }
{
    let Host {
        alloc,
        files,
        stdin,
        stderr,
        ..
    } = host;
    let input = name_at(words, INPUT);
    if input == "stdin" {
        return write_files(*alloc, files, stdin, stderr, program, words);
    }
    match files.open(input) {
        Ok(reader) => write_files(*alloc, files, reader, stderr, program, words),
        Err(error) => Err(unused(INPUT, &error)),
    }
}

/// The same by the program of the first word and the helper table that is named, if one is. Where the program is refused
/// or can't be read, all files stay.
#[tactic(auto, using(crate::proofs::Kept::kept))]
fn transform_files<F: Files, I: Read, O, E: Write>(
    host: &mut Host<F, I, O, E>,
    named: Option<Table>,
    words: &[String],
) -> Result<(), Halt>
    requires some { 3 ≤ length words.now }
    requires few { length words.now ≤ MAX_PARTITIONS + 2 }
    ensures written { F.tells ≡ true → CallWrites named (names_of words.now) (I.remaining host.old.stdin) (F.bytes host.old.files) (F.bytes host.new.files) (status_of_ended result) }
    ensures leaves { F.tells ≡ true → CallLeaves named (names_of words.now) (I.remaining host.old.stdin) (F.bytes host.old.files) (F.bytes host.new.files) }
    ensures parts { F.tells ≡ true → KeepsOrParts F.leads (names_of words.now) (F.bytes host.old.files) (F.bytes host.new.files) }
    ensures kept { KeepsOthers F.leads (names_of words.now) (F.bytes host.old.files) (F.bytes host.new.files) }
    ensures refused { KeepsUnlessAccepted named (names_of words.now) (F.bytes host.old.files) (F.bytes host.new.files) }
    ensures unread { IfErr result (λ halt. (is_after_image halt ≡ true)
        ⊎ KeepsAll (F.bytes host.old.files) (F.bytes host.new.files)) }
    ensures stdout { host.new.stdout ≡ host.old.stdout }
{
    match load_file(host.alloc, &mut host.files, name_at(words, 0), named) {
        Ok(program) => write_source(host, &program, words),
        Err(halt) => Err(halt),
    }
}

/// Runs a program on the batches of a file and writes each output partition's rows as batches to a file of its own;
/// answers the status. A helper table may be named. The words are the image, the program file or the text of rules, the
/// file of the batches and one file for each output partition. A name that ends in `.rules` is that of a text, which gives
/// the program that `rule` writes. The input partition is 0, and its offsets begin at 0. Where it ends since offsets are
/// used up, one batch more might reach the offset 2^62, or an output partition would have more than 2^63 rows. All files
/// but those of the output partitions stay, and these too where the program is refused, and where one of them is one file
/// with another file of the call. However it ends, each of them has what it had or whole batches of its rows.
#[tactic(auto, using(crate::proofs::FileLaws::sources_kept))]
pub fn transform<F: Files, I: Read, O, E: Write>(
    host: &mut Host<F, I, O, E>,
    named: Option<Table>,
    words: &[String],
) -> Status
    ensures written { F.tells ≡ true → 3 ≤ length words.now → length words.now ≤ MAX_PARTITIONS + 2
        → CallWrites named (names_of words.now) (I.remaining host.old.stdin) (F.bytes host.old.files) (F.bytes host.new.files) result }
    ensures leaves { F.tells ≡ true → CallLeaves named (names_of words.now) (I.remaining host.old.stdin) (F.bytes host.old.files) (F.bytes host.new.files) }
    ensures parts { F.tells ≡ true → KeepsOrParts F.leads (names_of words.now) (F.bytes host.old.files) (F.bytes host.new.files) }
    ensures sources { F.tells ≡ true → KeepsSources (names_of words.now) (F.bytes host.old.files) (F.bytes host.new.files) }
    ensures kept { KeepsOthers F.leads (names_of words.now) (F.bytes host.old.files) (F.bytes host.new.files) }
    ensures refused { KeepsUnlessAccepted named (names_of words.now) (F.bytes host.old.files) (F.bytes host.new.files) }
    ensures stdout { host.new.stdout ≡ host.old.stdout }
{
    if words.len() < 3 || words.len() > MAX_PARTITIONS + 2 {
        return tell_usage(&mut host.stderr).status;
    }
    match transform_files(host, named, words) {
        Ok(()) => Status::Done,
        Err(halt) => tell_halt(host.alloc, &mut host.stderr, words, halt),
    }
}
