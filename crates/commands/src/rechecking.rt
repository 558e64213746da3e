//! Programs of a list, verified anew.

ghost use Rattle.std.specs.Prelude.{◌≡◌, ◌==◌, ◌<◌, ◌≤◌, ◌⊎◌, ◌∷◌, ◌++◌, length, Ok, IfOk, IfSome, OnOk, IfErr};
ghost use Rattle.std.specs.List.{slice_split};
ghost use Rattle.std.specs.Io.KnownBytes.{Appends};
ghost use Rattle.script.specs.Words.{texts, word_at};
ghost use Rattle.commands.specs.declared.stop.Stop.TheVariants as stop;
ghost use Rattle.commands.specs.Hosts.{KeepsInputs, PrintsOfFile};
ghost use Rattle.commands.specs.Rechecks as definitions;
ghost use Rattle.commands.specs.Rechecks.{LineTells, ProgramTells, Rechecks, RechecksAs, RefusesFile};
ghost use Rattle.commands.specs.Stops.{IsUnwritten};

use crate::asm::read_text;
use crate::files::Files;
use crate::given::{Ungiven, read_program};
use crate::host::Host;
use crate::image::{Refused, check};
use crate::reading::Unread;
use crate::run::Ended;
use crate::status::Status;
use crate::stop::{Stop, stop_of_unread};
use crate::telling::{say, tell, tell_unread, write_out};
use machine_spec::Table;
use program_file::GivenProgram;
use script::{FileName, ScriptFault};
use std::alloc::{AllocError, Global};
use std::fmt::Display;
use std::io::Write;

/// The pieces of a text between separators.
fn pieces<'a>(alloc: Global, text: &'a str, separator: char) -> Result<Vec<&'a str>, AllocError>
    requires { separator < 128 }
    ensures { IfOk result (λ pieces. texts pieces.items ≡ slice_split (λ b. b == separator) text.now) }
{
    text.split(separator).collect(alloc)
}

/// The piece with this number, from 0.
fn piece<'a>(pieces: &[&'a str], place: usize) -> &'a str
    requires { place < length pieces.now }
    ensures { result.now ≡ word_at (texts pieces.now) place }
{
    pieces[place]
}

/// Pieces without the last, if that is empty.
fn without_end<'a, 'b>(pieces: &'b [&'a str]) -> &'b [&'a str]
    ensures { texts result.now ≡ definitions.without_end (texts pieces.now) }
{
    let count = pieces.len();
    if count > 0 && pieces[count - 1].is_empty() {
        &pieces[..count - 1]
    } else {
        pieces
    }
}

/// The helper table that the words of a line name, if they name one beside a program. `None` where they
/// name no program.
fn table_of(words: &[&str]) -> Option<Option<Table>>
    ensures table { result ≡ definitions.table_of (texts words.now) }
    ensures long { IfSome result (λ _. 1 ≤ length words.now) }
{
    if words.is_empty() || words[0].is_empty() {
        return None;
    }
    if words.len() == 1 {
        return Some(None);
    }
    if words.len() == 2 && words[1] == "2" {
        return Some(Some(Table::Two));
    }
    None
}

/// Says that a program is refused, and why.
fn tell_refusal<E: Write, D: Display + Drop>(
    alloc: Global,
    stderr: &mut E,
    file: &str,
    fault: D,
) -> Result<(), Stop>
    ensures { IfErr result IsUnwritten }
{
    let text = format!(in alloc; "{file} {fault}\n")?;
    say(stderr, text.as_str());
    Ok(())
}

/// Prints what `check` says of an accepted program, after the name of its file.
fn print_accepted<O: Write>(
    alloc: Global,
    stdout: &mut O,
    file: &str,
    accepted: &str,
) -> Result<(), Stop>
    ensures ok { OnOk result (Appends (O.contents stdout.old) (O.contents stdout.new) (file.now ++ (32 ∷ accepted.now))) }
    ensures err { IfErr result IsUnwritten }
{
    let text = format!(in alloc; "{file} {accepted}")?;
    write_out(stdout, text.as_str())
}

/// Verifies a program, and says that it is accepted or why it is refused; answers whether it is refused.
fn recheck_given<O: Write, E: Write>(
    alloc: Global,
    stdout: &mut O,
    stderr: &mut E,
    file: &str,
    given: &GivenProgram,
) -> Result<bool, Stop>
    ensures { ProgramTells file.now (Ok given.now) (O.contents stdout.old) (O.contents stdout.new) result }
{
    match check(alloc, &given.image, given.table) {
        Ok(text) => {
            print_accepted(alloc, stdout, file, text.as_str())?;
            Ok(false)
        }
        Err(Refused::Image(fault)) => {
            tell_refusal(alloc, stderr, file, fault)?;
            Ok(true)
        }
        Err(Refused::Memory) => Err(Stop::Memory),
    }
}

/// Why a list ends that names a file which can't be read.
fn stop_of_file(alloc: Global, file: &str, cause: Unread) -> Stop
    ensures { (result ≡ stop.Memory) ⊎ (result ≡ stop.File file.now) }
{
    match String::from_str(alloc, file) {
        Ok(text) => stop_of_unread(FileName { text }, cause),
        Err(_) => Stop::Memory,
    }
}

/// Says why a file gives no program, unless it can't be read; answers that it is refused.
fn refuse_file<E: Write>(
    alloc: Global,
    stderr: &mut E,
    file: &str,
    ungiven: Ungiven,
) -> Result<bool, Stop>
    ensures { RefusesFile file.now ungiven result }
{
    match ungiven {
        Ungiven::Unread(cause) => Err(stop_of_file(alloc, file, cause)),
        Ungiven::File(fault) => {
            tell_refusal(alloc, stderr, file, fault)?;
            Ok(true)
        }
    }
}

/// Verifies the program that a line names, and says that it is accepted or why it is refused; answers
/// whether it is refused.
fn recheck_line<F: Files, I, O: Write, E: Write>(
    host: &mut Host<F, I, O, E>,
    line: &str,
) -> Result<bool, Stop>
    ensures kept { KeepsInputs F.bytes host.old host.new }
    ensures told { LineTells (F.bytes host.old.files) line.now (O.contents host.old.stdout) (O.contents host.new.stdout) result }
{
    let alloc = host.alloc;
    let words = pieces(alloc, line, ' ')?;
    let Some(named) = table_of(&words) else {
        return Err(Stop::Line(ScriptFault::Syntax));
    };
    let name = piece(&words, 0);
    match read_program(alloc, &mut host.files, name, named) {
        Ok(given) => recheck_given(alloc, &mut host.stdout, &mut host.stderr, name, &given),
        Err(ungiven) => refuse_file(alloc, &mut host.stderr, name, ungiven),
    }
}

/// Verifies the programs of a list's lines in order, up to one that names none; answers whether one is
/// refused.
fn recheck_lines<F: Files, I, O: Write, E: Write>(
    host: &mut Host<F, I, O, E>,
    lines: &[&str],
) -> Result<bool, Ended>
    ensures kept { KeepsInputs F.bytes host.old host.new }
    ensures told { Rechecks (F.bytes host.old.files) (texts lines.now) (O.contents host.old.stdout) (O.contents host.new.stdout) result }
{
    let mut refused = false;
    for index in 0..lines.len() {
        match recheck_line(host, piece(lines, index)) {
            Ok(is_refused) => refused |= is_refused,
            Err(stop) => {
                let line = (index as u64).saturating_add(1);
                return Err(Ended { line, stop });
            }
        }
    }
    Ok(refused)
}

/// The same of a list's text.
fn recheck_text<F: Files, I, O: Write, E: Write>(
    host: &mut Host<F, I, O, E>,
    list: &str,
) -> Result<bool, Ended>
    ensures kept { KeepsInputs F.bytes host.old host.new }
    ensures told { Rechecks (F.bytes host.old.files) (definitions.lines_of list.now) (O.contents host.old.stdout) (O.contents host.new.stdout) result }
{
    match pieces(host.alloc, list, '\n') {
        Ok(pieces) => recheck_lines(host, without_end(&pieces)),
        Err(_) => Err(Ended {
            line: 0,
            stop: Stop::Memory,
        }),
    }
}

/// Verifies the programs that a list names anew, in order: says of each that it is accepted or why it
/// is refused, and goes on. A line that names no program ends it, and a file that can't be read does.
/// Answers the status: `Done`, all are accepted; `Refused`, one is refused or a line names none; `Failed`, a
/// file, standard output or memory failed. No file changes.
pub fn recheck<F: Files, I, O: Write, E: Write>(host: &mut Host<F, I, O, E>, name: &str) -> Status
    ensures { PrintsOfFile F.bytes O.contents host.old host.new name.now (λ list. RechecksAs (F.bytes host.old.files) list result) }
{
    let list = match read_text(host.alloc, &mut host.files, name) {
        Ok(list) => list,
        Err(cause) => return tell_unread(host.alloc, &mut host.stderr, name, cause),
    };
    match recheck_text(host, list.as_str()) {
        Ok(false) => Status::Done,
        Ok(true) => Status::Refused,
        Err(ended) => tell(host.alloc, &mut host.stderr, &ended),
    }
}
