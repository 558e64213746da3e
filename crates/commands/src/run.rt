//! Runs of scripts.

ghost use Rattle.std.specs.Prelude.{◌≡◌, Some, true, IfOk};
ghost use Rattle.script.specs.Commands.{command_of};
ghost use Rattle.script.specs.Faults.{is_count, is_in_range};
ghost use Rattle.broker.specs.Layouts.{IsNamed};
ghost use Rattle.commands.specs.Sessions.{IsMade, Begins};

use crate::files::Files;
use crate::session::Session;
use crate::stop::{Stop, unwritten};
use broker::Parts;
use catalogue::Catalogue;
use log_spec::{MAX_CELLS, MAX_PARTITIONS};
use part_log::Names;
use script::{Command, ScriptFault, first_fault, parse};
use std::alloc::{AllocError, Global};
use std::io::Write;
use std::marker::Brand;
use std::sync::Wait;
use std::thread::Threads;

/// A line at which a script ended early, from 1, and why.
#[derive(Drop)]
pub struct Ended {
    pub line: u64,
    pub stop: Stop,
}

/// Whether a line says nothing: it is empty or begins with `#`.
fn is_skipped(line: &str) -> bool {
    line.is_empty() || line.starts_with('#')
}

/// The first line that says something, and its number, from 1.
fn first_said(script: &str) -> Option<(u64, &str)> {
    let mut line = 0u64;
    for text in script.split('\n') {
        line = line.saturating_add(1);
        if !is_skipped(text) {
            return Some((line, text));
        }
    }
    None
}

/// `inputs` input and `outputs` output partitions, whose logs have `cells` cells each.
fn parts_of<R: Wait>(
    rt: &R,
    alloc: Global,
    inputs: u64,
    outputs: u64,
    cells: u64,
) -> Result<Parts<Catalogue<&R>>, AllocError>
    requires inputs { is_count inputs MAX_PARTITIONS ≡ true }
    requires outputs { is_count outputs MAX_PARTITIONS ≡ true }
    requires cells { is_count cells MAX_CELLS ≡ true }
    ensures { IfOk result (λ parts. IsMade inputs outputs cells parts) }
{
    let parts = Parts::new(rt, alloc, inputs as usize, outputs as usize, cells as usize)?;
    Ok(parts)
}

/// The partitions that a command makes which is a script's first.
fn made_by<'a, R: Wait>(
    rt: &'a R,
    alloc: Global,
    command: &Command,
) -> Result<Parts<Catalogue<&'a R>>, Stop>
    requires { is_in_range command.now ≡ true }
    ensures { IfOk result (λ parts. Begins (Some command.now) parts) }
{
    match command {
        Command::Partitions(inputs, outputs, cells) => {
            let parts = parts_of(rt, alloc, *inputs, *outputs, *cells)?;
            Ok(parts)
        }
        _ => Err(Stop::Line(ScriptFault::Order)),
    }
}

/// The same of a command that may be out of its range.
fn begin_by<'a, R: Wait>(
    rt: &'a R,
    alloc: Global,
    command: &Command,
) -> Result<Parts<Catalogue<&'a R>>, Stop>
    ensures { IfOk result (λ parts. Begins (Some command.now) parts) }
{
    match first_fault(command, false, false) {
        Some(fault) => Err(Stop::Line(fault)),
        None => made_by(rt, alloc, command),
    }
}

/// The partitions that the first command of a script makes.
#[tactic(auto, using(crate::proofs::Said::begins))]
fn begin<'a, R: Wait>(rt: &'a R, alloc: Global, line: &str) -> Result<Parts<Catalogue<&'a R>>, Stop>
    ensures { IfOk result (λ parts. Begins (command_of line.now) parts) }
{
    match parse(alloc, line) {
        Ok(Some(command)) => begin_by(rt, alloc, &command),
        Ok(None) => Err(Stop::Line(ScriptFault::Syntax)),
        Err(_) => Err(Stop::Memory),
    }
}

/// A script, and how many of its lines are done.
#[derive(Clone, Copy, Drop)]
struct Begun<'a> {
    script: &'a str,
    done: u64,
}

/// The lines of a script that are not done, up to the first that is refused.
fn run_after<Id: Names + Send + Sync, R: Threads + Wait + Sync, F: Files, O: Write>(
    alloc: Global,
    session: &mut Session<'_, Id, R>,
    files: &mut F,
    stdout: &mut O,
    begun: Begun<'_>,
) -> Result<(), Ended> {
    let mut receipts = Vec::new(alloc);
    let mut line = 0u64;
    for text in begun.script.split('\n') {
        line = line.saturating_add(1);
        if line > begun.done && !is_skipped(text) {
            receipts.clear();
            if let Err(stop) = session.line(files, stdout, text, &mut receipts) {
                return Err(Ended { line, stop });
            }
        }
    }
    Ok(())
}

/// The lines of a script after the one that made the partitions. A call that picks the members of
/// `Id` may have no `&str` among its types, so the text is in a struct.
fn run_rest<Id: Names + Send + Sync, R: Threads + Wait + Sync, F: Files, O: Write>(
    rt: &R,
    alloc: Global,
    files: &mut F,
    stdout: &mut O,
    parts: Parts<Catalogue<&R>>,
    begun: Begun<'_>,
) -> Result<(), Ended>
    requires { IsNamed Id.cells Id.inputs Id.outputs parts }
{
    let made: Result<Session<'_, Id, R>, AllocError> = Session::new(rt, alloc, parts);
    match made {
        Ok(mut session) => run_after(alloc, &mut session, files, stdout, begun),
        Err(_) => Err(Ended {
            line: begun.done,
            stop: Stop::Memory,
        }),
    }
}

/// The lines of a script, up to the first that is refused.
fn run_lines<R: Threads + Wait + Sync, F: Files, O: Write>(
    rt: &R,
    alloc: Global,
    files: &mut F,
    stdout: &mut O,
    script: &str,
) -> Result<(), Ended> {
    let Some((line, first)) = first_said(script) else {
        return Ok(());
    };
    let parts = match begin(rt, alloc, first) {
        Ok(parts) => parts,
        Err(stop) => return Err(Ended { line, stop }),
    };
    let begun = Begun { script, done: line };
    run_rest::<Brand, R, F, O>(rt, alloc, files, stdout, parts, begun)
}

/// The lines of a script; what they printed has left when this answers.
pub fn run_script<R: Threads + Wait + Sync, F: Files, O: Write>(
    rt: &R,
    alloc: Global,
    files: &mut F,
    stdout: &mut O,
    script: &str,
) -> Result<(), Ended> {
    let ended = run_lines(rt, alloc, files, stdout, script);
    match stdout.flush() {
        Ok(()) => ended,
        Err(error) => Err(Ended {
            line: 0,
            stop: unwritten(&error),
        }),
    }
}
