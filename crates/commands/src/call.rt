//! Calls of the program.

ghost use Rattle.std.specs.Prelude.{◌≡◌, ◌≢◌, ◌⊎◌, ℕ, List, Some, None, Ok, true, string_bytes};
ghost use Rattle.std.specs.Io.KnownBytes.{Appends};
ghost use Rattle.bpf_asm.specs.Images.{image_of};
ghost use Rattle.commands.specs.declared.status.Status.TheVariants as exit;
ghost use Rattle.commands.specs.Explanations as explanations;
ghost use Rattle.commands.specs.Explanations.{PrintsExplanation};
ghost use Rattle.commands.specs.Files.{KeepsAll, KeepsBut};
ghost use Rattle.commands.specs.Given.{OfGiven};
ghost use Rattle.commands.specs.Hosts.{PrintsOfFile};
ghost use Rattle.machine_spec.specs.declared.instruction.IsaFault.TheVariants as isa;
ghost use Rattle.commands.specs.Images.{first_bytes, PrintsCheck};
ghost use Rattle.commands.specs.Texts as texts;
ghost use Rattle.program_file.specs.Choice.{given_program, program_in};

use crate::asm::{read_text, utf8, write_image};
use crate::dis::disassembly;
use crate::explaining::{no_code_text, refusal_text, status_of_explained};
use crate::files::Files;
use crate::given::{read_program, tell_ungiven};
use crate::host::Host;
use crate::image::{Refused, check};
use crate::listing::list;
use crate::reading::{Unread, read_file, read_whole};
use crate::rechecking::recheck;
use crate::rule_files::compile_file;
use crate::run::run_script;
use crate::status::Status;
use crate::telling::{print_text, tell, tell_memory, tell_refused, tell_text, tell_unread};
use crate::transforming::transform;
use crate::usage::{list_calls, print_version, tell_usage};
use bpf_asm::{AsmFault, assemble};
use command_line::{Call, ImageCall, Misuse, call_of};
use explain::{Coverage, Explanation, explain_image};
use machine_spec::{IsaFault, Table};
use program_file::GivenProgram;
use std::alloc::Global;
use std::io::{Read, Write};
use std::sync::Wait;
use std::thread::Threads;

/// The whole text of a script; the name `stdin` is standard input.
fn script_text<F: Files, I: Read, O, E>(
    host: &mut Host<F, I, O, E>,
    name: &str,
) -> Result<String, Unread> {
    let bytes = if name == "stdin" {
        read_whole(host.alloc, &mut host.stdin)?
    } else {
        read_file(host.alloc, &mut host.files, name)?
    };
    utf8(bytes)
}

/// Does the commands of a script, and answers the status.
fn run<R: Threads + Wait + Sync, F: Files, I: Read, O: Write, E: Write>(
    rt: &R,
    host: &mut Host<F, I, O, E>,
    name: &str,
) -> Status {
    let script = match script_text(host, name) {
        Ok(script) => script,
        Err(unread) => return tell_unread(host.alloc, &mut host.stderr, name, unread),
    };
    match run_script(
        rt,
        host.alloc,
        &mut host.files,
        &mut host.stdout,
        script.as_str(),
    ) {
        Ok(()) => Status::Done,
        Err(ended) => tell(host.alloc, &mut host.stderr, &ended),
    }
}

/// Prints the answer of a call on a program, or says why it has none; answers the status.
fn print_answer<O: Write, E: Write>(
    alloc: Global,
    stdout: &mut O,
    stderr: &mut E,
    given: &GivenProgram,
    answer: Result<String, Refused>,
) -> Status
    ensures { texts.PrintsAs string_bytes answer result (O.contents stdout.old) (O.contents stdout.new) }
{
    match answer {
        Ok(text) => print_text(alloc, stdout, stderr, text.as_str()),
        Err(refused) => tell_refused(alloc, stderr, given, refused),
    }
}

/// Verifies a program and prints how many instructions it has, or says why it is refused; answers the
/// status.
#[tactic(auto, using(crate::proofs::Checked::checked))]
fn check_given<O: Write, E: Write>(
    alloc: Global,
    stdout: &mut O,
    stderr: &mut E,
    given: &GivenProgram,
) -> Status
    ensures { PrintsCheck (program_in given.now) result (O.contents stdout.old) (O.contents stdout.new) }
{
    let answer = check(alloc, &given.image, given.table);
    print_answer(alloc, stdout, stderr, given, answer)
}

/// Verifies the program in a file, by the helper table that is named, if one is; answers the status.
#[tactic(auto, using(crate::proofs::GivenLaws::prints_given, crate::proofs::GivenLaws::prints_none))]
fn check_file<F: Files, I, O: Write, E: Write>(
    host: &mut Host<F, I, O, E>,
    name: &str,
    named: Option<Table>,
) -> Status
    ensures { PrintsOfFile F.bytes O.contents host.old host.new name.now (λ bytes. OfGiven (given_program named (first_bytes bytes)) (λ given. PrintsCheck (program_in given)) result) }
{
    match read_program(host.alloc, &mut host.files, name, named) {
        Ok(given) => check_given(host.alloc, &mut host.stdout, &mut host.stderr, &given),
        Err(ungiven) => tell_ungiven(host.alloc, &mut host.stderr, name, ungiven),
    }
}

/// Prints the text of a program's image, or says why it is refused; answers the status.
#[tactic(auto, using(crate::proofs::Checked::disassembled))]
fn disassemble_given<O: Write, E: Write>(
    alloc: Global,
    stdout: &mut O,
    stderr: &mut E,
    given: &GivenProgram,
) -> Status
    ensures { texts.PrintsAs (λ text. text) (texts.disassembly given.now.image) result (O.contents stdout.old) (O.contents stdout.new) }
{
    let answer = disassembly(alloc, &given.image);
    print_answer(alloc, stdout, stderr, given, answer)
}

/// Prints the text of the image of the program in a file, or says why it is refused; answers the status.
#[tactic(auto, using(crate::proofs::GivenLaws::prints_given, crate::proofs::GivenLaws::prints_none))]
fn disassemble_file<F: Files, I, O: Write, E: Write>(
    host: &mut Host<F, I, O, E>,
    name: &str,
) -> Status
    ensures { PrintsOfFile F.bytes O.contents host.old host.new name.now (λ bytes. OfGiven (given_program None (first_bytes bytes)) (λ given. texts.PrintsAs (λ text. text) (texts.disassembly given.image)) result) }
{
    match read_program(host.alloc, &mut host.files, name, None) {
        Ok(given) => disassemble_given(host.alloc, &mut host.stdout, &mut host.stderr, &given),
        Err(ungiven) => tell_ungiven(host.alloc, &mut host.stderr, name, ungiven),
    }
}

/// Says why a program is refused, if it is, and answers the status.
fn tell_refusal<E: Write>(
    alloc: Global,
    stderr: &mut E,
    given: &GivenProgram,
    explanation: &Explanation,
) -> Status
    ensures { (result ≡ explanations.status_of_explained explanation.now) ⊎ (result ≡ exit.Failed) }
{
    match &explanation.refusal {
        Some(refusal) => {
            let status = status_of_explained(explanation);
            tell_text(stderr, refusal_text(alloc, given, refusal), status)
        }
        None => status_of_explained(explanation),
    }
}

/// Prints what the verifier knows of a program, says why it is refused, if it is, and answers the
/// status.
fn print_explanation<O: Write, E: Write>(
    alloc: Global,
    stdout: &mut O,
    stderr: &mut E,
    given: &GivenProgram,
    explanation: &Explanation,
) -> Status
    ensures status { (result ≡ explanations.status_of_explained explanation.now) ⊎ (result ≡ exit.Failed) }
    ensures printed { result ≢ exit.Failed → Appends (O.contents stdout.old) (O.contents stdout.new) (string_bytes explanation.now.lines) }
{
    let status = print_text(alloc, stdout, stderr, explanation.lines.as_str());
    if status == Status::Done {
        tell_refusal(alloc, stderr, given, explanation)
    } else {
        status
    }
}

/// Says why an image has no code, and answers the status.
fn tell_no_code<E: Write>(alloc: Global, stderr: &mut E, image: &[u8], fault: IsaFault) -> Status
    ensures refused { fault ≢ isa.Memory → (result ≡ exit.Refused) ⊎ (result ≡ exit.Failed) }
    ensures memory { fault ≡ isa.Memory → result ≡ exit.Failed }
{
    match fault {
        IsaFault::Memory => tell_memory(stderr),
        _ => tell_text(stderr, no_code_text(alloc, image, fault), Status::Refused),
    }
}

/// Prints what the verifier knows of a program, or says why its image has no code; answers the status.
fn explain_given<O: Write, E: Write>(
    alloc: Global,
    stdout: &mut O,
    stderr: &mut E,
    given: &GivenProgram,
    extent: Coverage,
) -> Status
    ensures { PrintsExplanation extent (program_in given.now) result (O.contents stdout.old) (O.contents stdout.new) }
{
    match explain_image(alloc, &given.image, given.table, extent) {
        Ok(explanation) => print_explanation(alloc, stdout, stderr, given, &explanation),
        Err(fault) => tell_no_code(alloc, stderr, &given.image, fault),
    }
}

/// Explains the program in a file, by the helper table that is named, if one is; answers the status.
#[tactic(auto, using(crate::proofs::GivenLaws::prints_given, crate::proofs::GivenLaws::prints_none))]
fn explain_file<F: Files, I, O: Write, E: Write>(
    host: &mut Host<F, I, O, E>,
    name: &str,
    named: Option<Table>,
    extent: Coverage,
) -> Status
    ensures { PrintsOfFile F.bytes O.contents host.old host.new name.now (λ bytes. OfGiven (given_program named (first_bytes bytes)) (λ given. PrintsExplanation extent (program_in given)) result) }
{
    match read_program(host.alloc, &mut host.files, name, named) {
        Ok(given) => explain_given(
            host.alloc,
            &mut host.stdout,
            &mut host.stderr,
            &given,
            extent,
        ),
        Err(ungiven) => tell_ungiven(host.alloc, &mut host.stderr, name, ungiven),
    }
}

/// Says at which line a text is refused and why, and answers the status.
fn tell_fault<E: Write>(alloc: Global, stderr: &mut E, fault: AsmFault) -> Status
    ensures { (result ≡ texts.status_of_fault fault) ⊎ (result ≡ exit.Failed) }
{
    match fault.line() {
        Some(line) => tell_text(
            stderr,
            format!(in alloc; "line {line}: {fault}\n"),
            Status::Refused,
        ),
        None => tell_memory(stderr),
    }
}

/// Writes the image of a file's text to another file, and answers the status.
fn put_image<F: Files, E: Write>(
    alloc: Global,
    files: &mut F,
    stderr: &mut E,
    text: &str,
    image: &str,
    bytes: &[u8],
) -> Status
    ensures written { texts.WritesAs (Ok bytes.now) result (F.bytes files.old image.now) (F.bytes files.new image.now) }
    ensures kept { KeepsBut F.leads image.now (F.bytes files.old) (F.bytes files.new) }
    ensures failed { result ≢ exit.Done → KeepsAll (F.bytes files.old) (F.bytes files.new) }
    ensures apart { F.tells ≡ true → result ≡ exit.Done → F.leads text.now ≢ F.leads image.now }
{
    match write_image(files, text, image, bytes) {
        Ok(()) => Status::Done,
        Err(unread) => tell_unread(alloc, stderr, image, unread),
    }
}

/// Writes the image of a file's text to another file, or says why the text is refused, and writes no file; answers
/// the status.
#[tactic(auto, using(crate::proofs::Assembled::told_text))]
fn assemble_text<F: Files, E: Write>(
    alloc: Global,
    files: &mut F,
    stderr: &mut E,
    source: &str,
    text: &str,
    image: &str,
) -> Status
    ensures written { texts.WritesAs (image_of source.now) result (F.bytes files.old image.now) (F.bytes files.new image.now) }
    ensures kept { KeepsBut F.leads image.now (F.bytes files.old) (F.bytes files.new) }
    ensures failed { result ≢ exit.Done → KeepsAll (F.bytes files.old) (F.bytes files.new) }
    ensures apart { F.tells ≡ true → result ≡ exit.Done → F.leads text.now ≢ F.leads image.now }
{
    match assemble(alloc, source) {
        Ok(bytes) => put_image(alloc, files, stderr, text, image, &bytes),
        Err(fault) => tell_fault(alloc, stderr, fault),
    }
}

/// Writes the image of the text in a file to another file, or says why the text is refused or can't be read, and
/// writes no file; answers the status. All files stay but the image's, and that too where the status is another than
/// `Done`; both names lead to two files where it is.
#[tactic(auto, using(crate::proofs::Kept::kept))]
fn assemble_file<F: Files, E: Write>(
    alloc: Global,
    files: &mut F,
    stderr: &mut E,
    text: &str,
    image: &str,
) -> Status
    ensures written { (bytes : List ℕ) → F.bytes files.old text.now ≡ Some bytes
        → texts.WritesAs (image_of bytes) result (F.bytes files.old image.now) (F.bytes files.new image.now) }
    ensures kept { KeepsBut F.leads image.now (F.bytes files.old) (F.bytes files.new) }
    ensures failed { result ≢ exit.Done → KeepsAll (F.bytes files.old) (F.bytes files.new) }
    ensures apart { F.tells ≡ true → result ≡ exit.Done → F.leads text.now ≢ F.leads image.now }
{
    match read_text(alloc, files, text) {
        Ok(source) => assemble_text(alloc, files, stderr, source.as_str(), text, image),
        Err(unread) => tell_unread(alloc, stderr, text, unread),
    }
}

/// Does what is asked of a program, and answers the status.
fn image_command<F: Files, I, O: Write, E: Write>(
    host: &mut Host<F, I, O, E>,
    call: ImageCall<'_>,
) -> Status {
    match call {
        ImageCall::Assemble(text, image) => {
            assemble_file(host.alloc, &mut host.files, &mut host.stderr, text, image)
        }
        ImageCall::Check(program, named) => check_file(host, program, named),
        ImageCall::Compile(text, program) => {
            compile_file(host.alloc, &mut host.files, &mut host.stderr, text, program)
        }
        ImageCall::Disassemble(program) => disassemble_file(host, program),
        ImageCall::Explain(program, named, extent) => explain_file(host, program, named, extent),
    }
}

/// Does what the words after the program's name ask for, and answers the status. All but what was asked
/// for goes to standard error. Only the call that runs a script starts threads and may wait.
pub fn command<R: Threads + Wait + Sync, F: Files, I: Read, O: Write, E: Write>(
    rt: &R,
    host: &mut Host<F, I, O, E>,
    words: &[String],
) -> Status {
    match call_of(host.alloc, words) {
        Ok(Call::Commands) => list_calls(host.alloc, &mut host.stdout, &mut host.stderr),
        Ok(Call::Image(asked)) => image_command(host, asked),
        Ok(Call::List(listing, file)) => list(host, listing, file),
        Ok(Call::Recheck(list)) => recheck(host, list),
        Ok(Call::Run(script)) => run(rt, host, script),
        Ok(Call::Transform(named, words)) => transform(host, named, words),
        Ok(Call::Version) => print_version(host.alloc, &mut host.stdout, &mut host.stderr),
        Err(Misuse::Usage) => tell_usage(&mut host.stderr).status,
        Err(Misuse::Memory) => tell_memory(&mut host.stderr),
    }
}
