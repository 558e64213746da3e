//! Program files of texts of rules.

ghost use Rattle.std.specs.Prelude.{◌≡◌, ◌≢◌, ◌⊎◌, ℕ, List, Some, Err, true, IfOk, IfErr};
ghost use Rattle.rules_compiler.specs.Programs.{CompilesText};
ghost use Rattle.commands.specs.declared.status.Status.TheVariants as exit;
ghost use Rattle.commands.specs.Compiled.{IsFileOf, WritesProgram, status_of_text, WritesFile};
ghost use Rattle.commands.specs.Files.{KeepsAll, KeepsBut};

use crate::asm::write_image;
use crate::files::Files;
use crate::reading::read_file;
use crate::status::Status;
use crate::telling::{rules_text, tell_text, tell_unread};
use program_file::write;
use rules_compiler::{TextFault, compile_text};
use std::alloc::Global;
use std::io::Write;

/// The bytes of the program file of a text's rules.
pub(crate) fn file_of_rules(alloc: Global, text: &[u8]) -> Result<Vec<u8>, TextFault>
    ensures file { IfOk result (λ bytes. IsFileOf text.now bytes.items) }
    ensures fault { IfErr result (λ why. CompilesText text.now (Err why)) }
{
    let file = match compile_text(alloc, text) {
        Ok(file) => file,
        Err(fault) => return Err(fault),
    };
    match write(alloc, &file) {
        Ok(bytes) => Ok(bytes),
        Err(_) => Err(TextFault::Memory),
    }
}

/// The status of a text of rules that gives no program.
fn status_of(fault: TextFault) -> Status
    ensures { result ≡ status_of_text fault }
{
    match fault {
        TextFault::Line(_) | TextFault::Rules(_) => Status::Refused,
        TextFault::Memory => Status::Failed,
    }
}

/// Says why a text of rules gives no program, and answers the status.
fn tell_fault<E: Write>(alloc: Global, stderr: &mut E, fault: TextFault) -> Status
    ensures { (result ≡ status_of_text fault) ⊎ (result ≡ exit.Failed) }
{
    tell_text(stderr, rules_text(alloc, fault), status_of(fault))
}

/// Writes the bytes of a program file to a file, and answers the status. `text` is the name of the file that its rules are
/// from.
fn put_file<F: Files, E: Write>(
    alloc: Global,
    files: &mut F,
    stderr: &mut E,
    text: &str,
    name: &str,
    bytes: &[u8],
) -> Status
    ensures written { WritesFile bytes.now result (F.bytes files.new name.now) }
    ensures kept { KeepsBut F.leads name.now (F.bytes files.old) (F.bytes files.new) }
    ensures failed { result ≢ exit.Done → KeepsAll (F.bytes files.old) (F.bytes files.new) }
    ensures apart { F.tells ≡ true → result ≡ exit.Done → F.leads text.now ≢ F.leads name.now }
{
    match write_image(files, text, name, bytes) {
        Ok(()) => Status::Done,
        Err(unread) => tell_unread(alloc, stderr, name, unread),
    }
}

/// Writes the program file of a text's rules to a file, or says why the text is refused, and writes no file; answers
/// the status.
#[tactic(auto, using(crate::proofs::CompiledLaws::compiled))]
fn compile_rules<F: Files, E: Write>(
    alloc: Global,
    files: &mut F,
    stderr: &mut E,
    source: &[u8],
    text: &str,
    name: &str,
) -> Status
    ensures written { WritesProgram source.now result (F.bytes files.old name.now) (F.bytes files.new name.now) }
    ensures kept { KeepsBut F.leads name.now (F.bytes files.old) (F.bytes files.new) }
    ensures failed { result ≢ exit.Done → KeepsAll (F.bytes files.old) (F.bytes files.new) }
    ensures apart { F.tells ≡ true → result ≡ exit.Done → F.leads text.now ≢ F.leads name.now }
{
    match file_of_rules(alloc, source) {
        Ok(bytes) => put_file(alloc, files, stderr, text, name, &bytes),
        Err(fault) => tell_fault(alloc, stderr, fault),
    }
}

/// Writes the program file of the rules in a file to another file, or says why they are refused or can't be read, and
/// writes no file; answers the status. All files stay but the program's, and that too where the status is another than
/// `Done`; both names lead to two files where it is.
#[tactic(auto, using(crate::proofs::Kept::kept))]
pub fn compile_file<F: Files, E: Write>(
    alloc: Global,
    files: &mut F,
    stderr: &mut E,
    text: &str,
    name: &str,
) -> Status
    ensures written { (bytes : List ℕ) → F.bytes files.old text.now ≡ Some bytes
        → WritesProgram bytes result (F.bytes files.old name.now) (F.bytes files.new name.now) }
    ensures kept { KeepsBut F.leads name.now (F.bytes files.old) (F.bytes files.new) }
    ensures failed { result ≢ exit.Done → KeepsAll (F.bytes files.old) (F.bytes files.new) }
    ensures apart { F.tells ≡ true → result ≡ exit.Done → F.leads text.now ≢ F.leads name.now }
{
    match read_file(alloc, files, text) {
        Ok(source) => compile_rules(alloc, files, stderr, &source, text, name),
        Err(unread) => tell_unread(alloc, stderr, text, unread),
    }
}
