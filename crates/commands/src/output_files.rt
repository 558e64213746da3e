//! The files of output partitions.

ghost use Rattle.std.specs.Prelude.{◌≡◌, ◌≢◌, ◌<◌, ◌≤◌, ◌+◌, ℕ, List, [], Some, true, length, All, IfOk, IfErr, OnOk, OnErr, IfSome};
ghost use Rattle.script.specs.Words.{word_at};
ghost use Rattle.command_line.specs.Calls.{names_of};
ghost use Rattle.commands.specs.declared.status.Status.TheVariants.{Failed};
ghost use Rattle.commands.specs.Files.{KeepsAll};
ghost use Rattle.commands.specs.FileTransforms.{KeepsOthers, IsFresh, HasWritten, HaveWritten, HaveSame, HasSame};
ghost use Rattle.commands.specs.FileTransforms.{AreApart, AreOldOrWritten, is_after_image, status_of_halt};

use crate::files::Files;
use crate::halts::{FIRST_OUTPUT, Halt, unused};
use crate::one_file::refuse_one_file;
use std::alloc::Global;
use std::io::Write;
use transform::Outlet;

/// The name that a word is.
pub(crate) fn name_at(words: &[String], place: usize) -> &str
    requires { place < length words.now }
    ensures { result.now ≡ word_at (names_of words.now) place }
{
    words[place].as_str()
}

/// Begins the file of an output partition.
fn create_one<F: Files>(files: &mut F, words: &[String], output: usize) -> Result<F::Writer, Halt>
    requires { output + 2 < length words.now }
    ensures fresh { F.tells ≡ true → IfOk result (λ writer. F.Writer.contents writer ≡ Some []) }
    ensures kept { KeepsAll (F.bytes files.old) (F.bytes files.new) }
    ensures err { IfErr result (λ halt. status_of_halt halt ≡ Failed) }
    ensures after { IfErr result (λ halt. is_after_image halt ≡ true) }
{
    let place = output + FIRST_OUTPUT;
    match files.create(name_at(words, place)) {
        Ok(writer) => Ok(writer),
        Err(error) => Err(unused(place, &error)),
    }
}

/// An empty output partition for each word from the third on, whose batches a file of that name will have. All files
/// stay.
#[tactic(auto, using(crate::proofs::Kept::kept, crate::proofs::FileLaws::one_fresh))]
fn create_all<F: Files>(
    alloc: Global,
    files: &mut F,
    words: &[String],
) -> Result<Vec<Outlet<F::Writer>>, Halt>
    requires { 2 ≤ length words.now }
    ensures count { IfOk result (λ outlets. length outlets.items + 2 ≡ length words.now) }
    ensures fresh { F.tells ≡ true → IfOk result (λ outlets. All IsFresh outlets.items) }
    ensures kept { KeepsAll (F.bytes files.old) (F.bytes files.new) }
    ensures err { IfErr result (λ halt. status_of_halt halt ≡ Failed) }
    ensures after { IfErr result (λ halt. is_after_image halt ≡ true) }
{
    let count = words.len() - FIRST_OUTPUT;
    let mut outlets = Vec::with_capacity(alloc, count)?;
    for output in 0..count {
        let writer = create_one(files, words, output)?;
        let Ok(()) = outlets.push(Outlet::new(alloc, writer)) else {
            return Err(Halt::Memory);
        };
    }
    Ok(outlets)
}

/// The same, unless the file of one of these words is one with another file of the call.
pub(crate) fn begin_all<F: Files>(
    alloc: Global,
    files: &mut F,
    words: &[String],
) -> Result<Vec<Outlet<F::Writer>>, Halt>
    requires { 2 ≤ length words.now }
    ensures count { IfOk result (λ outlets. length outlets.items + 2 ≡ length words.now) }
    ensures fresh { F.tells ≡ true → IfOk result (λ outlets. All IsFresh outlets.items) }
    ensures apart { F.tells ≡ true → OnOk result (AreApart F.leads (names_of words.now)) }
    ensures kept { KeepsAll (F.bytes files.old) (F.bytes files.new) }
    ensures err { IfErr result (λ halt. status_of_halt halt ≡ Failed) }
    ensures after { IfErr result (λ halt. is_after_image halt ≡ true) }
{
    match refuse_one_file(files, words) {
        Ok(()) => create_all(alloc, files, words),
        Err(halt) => Err(halt),
    }
}

/// An output partition whose writer was flushed, and so outlasts the program; no rows wait.
fn settle_one<W: Write + Drop>(
    alloc: Global,
    output: usize,
    outlet: Outlet<W>,
) -> Result<Outlet<W>, Halt>
    ensures same { IfOk result (HasSame outlet) }
    ensures err { IfErr result (λ halt. status_of_halt halt ≡ Failed) }
    ensures after { IfErr result (λ halt. is_after_image halt ≡ true) }
{
    let mut writer = outlet.into_writer();
    match writer.flush() {
        Ok(()) => Ok(Outlet::new(alloc, writer)),
        Err(error) => Err(unused(output.saturating_add(FIRST_OUTPUT), &error)),
    }
}

/// The same of all output partitions.
fn settle_all<W: Write + Drop>(
    alloc: Global,
    outlets: Vec<Outlet<W>>,
) -> Result<Vec<Outlet<W>>, Halt>
    ensures same { IfOk result (λ settled. HaveSame outlets.items settled.items) }
    ensures err { IfErr result (λ halt. status_of_halt halt ≡ Failed) }
    ensures after { IfErr result (λ halt. is_after_image halt ≡ true) }
{
    let mut settled = Vec::with_capacity(alloc, outlets.len())?;
    for outlet in outlets {
        let outlet = settle_one(alloc, settled.len(), outlet)?;
        let Ok(()) = settled.push(outlet) else {
            return Err(Halt::Memory);
        };
    }
    Ok(settled)
}

/// Ends the file of an output partition, if a word is its name.
fn close_one<F: Files>(
    files: &mut F,
    words: &[String],
    output: usize,
    outlet: Outlet<F::Writer>,
) -> Result<(), Halt>
    ensures held { OnOk result (output + 2 < length (names_of words.now) → HasWritten outlet (F.bytes files.new (word_at (names_of words.now) (output + 2)))) }
    ensures kept { (other : List ℕ) → (output + 2 < length (names_of words.now) → F.leads other ≢ F.leads (word_at (names_of words.now) (output + 2))) → F.bytes files.new other ≡ F.bytes files.old other }
    ensures failed { OnErr result (KeepsAll (F.bytes files.old) (F.bytes files.new)) }
    ensures err { IfErr result (λ halt. status_of_halt halt ≡ Failed) }
    ensures after { IfErr result (λ halt. is_after_image halt ≡ true) }
{
    if words.len() < FIRST_OUTPUT || output >= words.len() - FIRST_OUTPUT {
        return Ok(());
    }
    let place = output + FIRST_OUTPUT;
    match files.close(name_at(words, place), outlet.into_writer()) {
        Ok(()) => Ok(()),
        Err(error) => Err(unused(place, &error)),
    }
}

/// Ends the files of output partitions whose writers were flushed, in their order. Where one can't be ended, those
/// before it have been, and it and those after it are as they were.
fn close_settled<F: Files>(
    files: &mut F,
    words: &[String],
    outlets: Vec<Outlet<F::Writer>>,
) -> Result<(), Halt>
    ensures held { AreApart F.leads (names_of words.now) → OnOk result (HaveWritten (names_of words.now) outlets.items (F.bytes files.new)) }
    ensures each { AreApart F.leads (names_of words.now) → AreOldOrWritten (names_of words.now) outlets.items (F.bytes files.old) (F.bytes files.new) }
    ensures kept { KeepsOthers F.leads (names_of words.now) (F.bytes files.old) (F.bytes files.new) }
    ensures err { IfErr result (λ halt. status_of_halt halt ≡ Failed) }
    ensures after { IfErr result (λ halt. is_after_image halt ≡ true) }
{
    let mut output = 0;
    for outlet in outlets {
        close_one(files, words, output, outlet)?;
        output += 1;
    }
    Ok(())
}

/// Ends the files of output partitions: all are flushed before the first is ended, so that each has what it had where
/// one can't be flushed.
pub(crate) fn close_all<F: Files>(
    alloc: Global,
    files: &mut F,
    words: &[String],
    outlets: Vec<Outlet<F::Writer>>,
) -> Result<(), Halt>
    ensures held { AreApart F.leads (names_of words.now) → OnOk result (HaveWritten (names_of words.now) outlets.items (F.bytes files.new)) }
    ensures each { AreApart F.leads (names_of words.now) → AreOldOrWritten (names_of words.now) outlets.items (F.bytes files.old) (F.bytes files.new) }
    ensures kept { KeepsOthers F.leads (names_of words.now) (F.bytes files.old) (F.bytes files.new) }
    ensures err { IfErr result (λ halt. status_of_halt halt ≡ Failed) }
    ensures after { IfErr result (λ halt. is_after_image halt ≡ true) }
{
    let settled = settle_all(alloc, outlets)?;
    close_settled(files, words, settled)
}
