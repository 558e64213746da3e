//! The program of a transform: that of an image, a program file or a text of rules.

ghost use Rattle.std.specs.Prelude.{◌≡◌, ℕ, List, Some};
ghost use Rattle.machine_spec.specs.Image.{Program};
ghost use Rattle.program_file.specs.Choice.{program_in};
ghost use Rattle.annotate.specs.Loads.{FaultIs};
ghost use Rattle.commands.specs.Files.{KeepsAll};
ghost use Rattle.commands.specs.FileTransforms.{IsGivenTo, IsLoaded, IsUnloaded, IsUnread, LoadsGiven};
ghost use Rattle.commands.specs.Given as definitions;
ghost use Rattle.commands.specs.Given.{GivesBytes, GivesText, GivesNamed};
ghost use Rattle.commands.specs.Images.{first_bytes};

use crate::explaining::refused_text;
use crate::files::Files;
use crate::given::{Ungiven, given_of};
use crate::halts::{Halt, ProgramFault};
use crate::image::{Refused, read_image, refusal_of};
use crate::reading::{Unread, read_file};
use crate::rule_files::file_of_rules;
use log_item::Program;
use machine_spec::Table;
use program_file::GivenProgram;
use rules_compiler::TextFault;
use std::alloc::Global;
use verifier_spec::LoadFault;

/// Whether a name says that its file has a text of rules.
fn is_rules_name(name: &str) -> bool
    ensures { result ≡ definitions.is_rules_name name.now }
{
    name.ends_with(".rules")
}

/// Why a transform ends whose file of a program can't be read.
fn halt_of_unread(unread: Unread) -> Halt
    ensures { IsUnread result }
{
    match unread {
        Unread::File => Halt::File(0),
        Unread::Memory => Halt::Memory,
    }
}

/// The program that bytes are, by the helper table that is named, if one is.
#[tactic(auto, using(crate::proofs::GivenLaws::unread))]
fn program_given(alloc: Global, bytes: Vec<u8>, named: Option<Table>) -> Result<GivenProgram, Halt>
    ensures { IsGivenTo (GivesBytes named bytes.items) result }
{
    match given_of(alloc, bytes, named) {
        Ok(given) => Ok(given),
        Err(Ungiven::File(fault)) => Err(Halt::Program(ProgramFault::File(fault))),
        Err(Ungiven::Unread(unread)) => Err(halt_of_unread(unread)),
    }
}

/// The program of an image or a program file with this name.
#[tactic(auto, using(crate::proofs::GivenLaws::unread))]
fn read_bytes<F: Files>(
    alloc: Global,
    files: &mut F,
    name: &str,
    named: Option<Table>,
) -> Result<GivenProgram, Halt>
    ensures given { (bytes : List ℕ) → F.bytes files.old name.now ≡ Some bytes → IsGivenTo (GivesBytes named (first_bytes bytes)) result }
    ensures kept { KeepsAll (F.bytes files.old) (F.bytes files.new) }
{
    match read_image(alloc, files, name) {
        Ok(bytes) => program_given(alloc, bytes, named),
        Err(unread) => Err(halt_of_unread(unread)),
    }
}

/// The program of a text's rules.
fn rules_given(alloc: Global, text: &[u8], named: Option<Table>) -> Result<GivenProgram, Halt>
    ensures { IsGivenTo (GivesText named text.now) result }
{
    match file_of_rules(alloc, text) {
        Ok(bytes) => program_given(alloc, bytes, named),
        Err(TextFault::Memory) => Err(Halt::Memory),
        Err(fault) => Err(Halt::Program(ProgramFault::Rules(fault))),
    }
}

/// The program of the rules in a file with this name.
#[tactic(auto, using(crate::proofs::GivenLaws::unread))]
fn read_rules<F: Files>(
    alloc: Global,
    files: &mut F,
    name: &str,
    named: Option<Table>,
) -> Result<GivenProgram, Halt>
    ensures given { (bytes : List ℕ) → F.bytes files.old name.now ≡ Some bytes → IsGivenTo (GivesText named bytes) result }
    ensures kept { KeepsAll (F.bytes files.old) (F.bytes files.new) }
{
    match read_file(alloc, files, name) {
        Ok(text) => rules_given(alloc, &text, named),
        Err(unread) => Err(halt_of_unread(unread)),
    }
}

/// The program that a file gives, by the helper table that is named, if one is.
fn read_given<F: Files>(
    alloc: Global,
    files: &mut F,
    name: &str,
    named: Option<Table>,
) -> Result<GivenProgram, Halt>
    ensures given { (bytes : List ℕ) → F.bytes files.old name.now ≡ Some bytes → IsGivenTo (GivesNamed name.now named bytes) result }
    ensures kept { KeepsAll (F.bytes files.old) (F.bytes files.new) }
{
    if is_rules_name(name) {
        read_rules(alloc, files, name, named)
    } else {
        read_bytes(alloc, files, name, named)
    }
}

/// A program that was given.
fn program_of(alloc: Global, given: &GivenProgram) -> Result<Program, Halt>
    ensures { IsLoaded (program_in given.now) result }
{
    match Program::new(alloc, &given.image, given.table) {
        Ok(program) => Ok(program),
        Err(fault) => Err(unloaded(alloc, given, fault)),
    }
}

/// Why a transform ends whose image has no program.
fn unloaded(alloc: Global, given: &GivenProgram, fault: LoadFault) -> Halt
    ensures { (program : Program) → FaultIs program fault → IsUnloaded program result }
{
    match refusal_of(fault) {
        Refused::Image(fault) => match refused_text(alloc, given, fault) {
            Ok(text) => Halt::Image(fault, text),
            Err(_) => Halt::Memory,
        },
        Refused::Memory => Halt::Memory,
    }
}

/// The program in a file, by the helper table that is named, if one is. A name that ends in `.rules` is that of a text of
/// rules.
#[tactic(auto, using(crate::proofs::GivenLaws::loads))]
pub(crate) fn load_file<F: Files>(
    alloc: Global,
    files: &mut F,
    name: &str,
    named: Option<Table>,
) -> Result<Program, Halt>
    ensures loaded { (bytes : List ℕ) → F.bytes files.old name.now ≡ Some bytes → LoadsGiven (GivesNamed name.now named bytes) result }
    ensures kept { KeepsAll (F.bytes files.old) (F.bytes files.new) }
{
    match read_given(alloc, files, name, named) {
        Ok(given) => program_of(alloc, &given),
        Err(halt) => Err(halt),
    }
}
