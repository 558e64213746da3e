//! Files of a call that are one file.

ghost use Rattle.std.specs.Prelude.{◌≡◌, ◌<◌, ◌≤◌, Some, true, false, length, IfOk, OnOk, IfErr};
ghost use Rattle.script.specs.Words.{word_at};
ghost use Rattle.command_line.specs.Calls.{names_of};
ghost use Rattle.commands.specs.declared.status.Status.TheVariants.{Failed};
ghost use Rattle.commands.specs.Files.{word_of};
ghost use Rattle.commands.specs.FileTransforms.{AreApart, IsApart, is_after_image, status_of_halt};

use crate::endpoint::Endpoint;
use crate::files::Files;
use crate::halts::{FIRST_OUTPUT, Halt, INPUT, unused};
use crate::output_files::name_at;
use std::io;

/// What the word of a transform at this place means.
fn endpoint_at(words: &[String], place: usize) -> Endpoint<'_>
    requires { place < length words.now }
    ensures { word_of result ≡ Some (word_at (names_of words.now) place) }
{
    let name = name_at(words, place);
    if place == INPUT && name == "stdin" {
        Endpoint::Stdin
    } else if place >= FIRST_OUTPUT && name == "stdout" {
        Endpoint::Stdout
    } else {
        Endpoint::File(name)
    }
}

/// Whether the file of a word of a transform is one with that of a word before it.
fn is_earlier_one<F: Files>(files: &F, words: &[String], place: usize) -> io::Result<bool>
    requires { place < length words.now }
    ensures { F.tells ≡ true → IfOk result (λ same. same ≡ false → IsApart F.leads (names_of words.now) place) }
{
    let output = endpoint_at(words, place);
    for earlier in 0..place {
        if files.are_one(output, endpoint_at(words, earlier))? {
            return Ok(true);
        }
    }
    Ok(false)
}

/// Whether a file that is written is what standard input comes from or standard output goes to.
pub(crate) fn is_standard<F: Files>(files: &F, output: Endpoint<'_>) -> io::Result<bool> {
    match output {
        Endpoint::File(_) => Ok(
            files.are_one(output, Endpoint::Stdin)?
                || files.are_one(output, Endpoint::UnusedStdout)?,
        ),
        _ => Ok(false),
    }
}

/// Whether the file of an output partition is one with another file of its call.
fn is_shared<F: Files>(files: &F, words: &[String], place: usize) -> io::Result<bool>
    requires { place < length words.now }
    ensures { F.tells ≡ true → IfOk result (λ same. same ≡ false → IsApart F.leads (names_of words.now) place) }
{
    Ok(is_earlier_one(files, words, place)? || is_standard(files, endpoint_at(words, place))?)
}

/// Refuses the file of an output partition if it is one with another file of its call.
fn refuse_shared<F: Files>(files: &F, words: &[String], place: usize) -> Result<(), Halt>
    requires some { 2 ≤ place }
    requires few { place < length words.now }
    ensures apart { F.tells ≡ true → OnOk result (IsApart F.leads (names_of words.now) place) }
    ensures err { IfErr result (λ halt. status_of_halt halt ≡ Failed) }
    ensures after { IfErr result (λ halt. is_after_image halt ≡ true) }
{
    match is_shared(files, words, place) {
        Ok(false) => Ok(()),
        Ok(true) => Err(Halt::File(place)),
        Err(error) => Err(unused(place, &error)),
    }
}

/// Refuses the first file of an output partition that is one with an earlier file of the call, with standard input, or
/// with standard output.
pub(crate) fn refuse_one_file<F: Files>(files: &F, words: &[String]) -> Result<(), Halt>
    ensures apart { F.tells ≡ true → OnOk result (AreApart F.leads (names_of words.now)) }
    ensures err { IfErr result (λ halt. status_of_halt halt ≡ Failed) }
    ensures after { IfErr result (λ halt. is_after_image halt ≡ true) }
{
    for place in FIRST_OUTPUT..words.len() {
        refuse_shared(files, words, place)?;
    }
    Ok(())
}
