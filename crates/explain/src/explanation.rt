//! What is explained of an image.

ghost use Rattle.std.specs.Prelude.{◌≡◌, ◌<◌, ◌≤◌, length, option_map, IfOk, IfSome, string_bytes};
ghost use Rattle.machine_spec.specs.Image.{Program, program_of};
ghost use Rattle.annotate.specs.Loads.{FaultIs};
ghost use Rattle.explain.specs.Explanations as definitions;
ghost use Rattle.explain.specs.Explanations.{ExplainsAs, HasVerdict};

use crate::causes::reason_at;
use crate::ending::push_end;
use crate::graph::Graph;
use crate::hint::Hint;
use crate::hints::hint_at;
use crate::listing::push_first;
use crate::meeting::slot_of;
use crate::reason::Reason;
use crate::way::{Coverage, selection_of};
use abstract_regs::State;
use annotate::{LoadFault, joined_states, load};
use bpf_isa::{Code, decode};
use machine_spec::{IsaFault, Table};
use std::alloc::{AllocError, Global};
use verifier_spec::{Check, VerifyFault};

/// Why a program is refused.
#[derive(Clone, Copy, Debug, PartialEq, Eq)]
pub struct Diagnosis {
    /// The check that fails, at the lowest instruction that fails one.
    pub fault: VerifyFault,
    /// The slot of that instruction.
    pub slot: usize,
    /// What the check fails on.
    pub reason: Option<Reason>,
    /// What usually leads to it, and what to do.
    pub hint: Option<Hint>,
}

/// What the verifier knows of a program.
#[derive(Debug, Drop)]
pub struct Explanation {
    /// The instructions that were asked for, each with what is known before it; then how many up to
    /// the refused one are never reached, if any, and the verdict.
    pub lines: String,
    /// Why the program is refused, if it is.
    pub refusal: Option<Diagnosis>,
}

/// What a refusal of a load says of a program: its image has no code, or it is refused with a fault.
fn verdict_of(fault: LoadFault) -> Result<Option<VerifyFault>, IsaFault>
    ensures { (program : Program) → FaultIs program fault → HasVerdict program result }
{
    match fault {
        LoadFault::Isa(fault) => Err(fault),
        LoadFault::Verify(fault) => match fault.kind {
            Check::Memory => Err(IsaFault::Memory),
            _ => Ok(Some(fault)),
        },
    }
}

/// Whether a program whose image has code is refused, and with which fault.
fn verdict(alloc: Global, image: &[u8], table: Table) -> Result<Option<VerifyFault>, IsaFault>
    ensures { HasVerdict (program_of image.now table) result }
{
    let _verified = match load(alloc, image, table) {
        Err(fault) => return verdict_of(fault),
        Ok(verified) => verified,
    };
    Ok(None)
}

/// How many instructions may be listed.
fn printed_count(code: &Code, fault: Option<VerifyFault>) -> usize
    ensures count { result ≡ definitions.printed_count code.now fault }
    ensures within { result ≤ length code.now }
{
    match fault {
        Some(fault) if fault.pc < code.len() => fault.pc + 1,
        Some(_) => code.len(),
        None => code.len(),
    }
}

/// The instructions that are listed, each with what is known before it, and the ending.
#[tactic(auto, using(crate::proofs::Selected::same_listed))]
fn listing(
    alloc: Global,
    graph: &Graph<'_>,
    states: &[Option<State>],
    fault: Option<VerifyFault>,
    coverage: Coverage,
) -> Result<String, AllocError>
    requires { IfSome fault (λ f. f.pc < length graph.now) }
    ensures { IfOk result (λ text. string_bytes text ≡ definitions.listing coverage graph.now states.now fault) }
{
    let mut text = String::new(alloc);
    let code = graph.code();
    let count = printed_count(code, fault);
    let selection = selection_of(alloc, graph, coverage, fault)?;
    push_first(&mut text, code, states, &selection, count)?;
    push_end(&mut text, states, count, fault)?;
    Ok(text)
}

/// What is said of a fault.
fn refusal_at(
    alloc: Global,
    graph: &Graph<'_>,
    states: &[Option<State>],
    table: Table,
    fault: VerifyFault,
) -> Result<Diagnosis, AllocError>
    ensures { IfOk result (λ refusal. refusal ≡ definitions.refusal_at table graph.now states.now fault) }
{
    let reason = reason_at(graph.code(), states, fault);
    let hint = hint_at(alloc, graph, states, table, fault, reason)?;
    Ok(Diagnosis {
        fault,
        slot: slot_of(graph.code(), fault.pc),
        reason,
        hint,
    })
}

fn refusal_with(
    alloc: Global,
    graph: &Graph<'_>,
    states: &[Option<State>],
    table: Table,
    fault: Option<VerifyFault>,
) -> Result<Option<Diagnosis>, AllocError>
    ensures { IfOk result (λ refusal. refusal ≡ option_map (definitions.refusal_at table graph.now states.now) fault) }
{
    match fault {
        Some(fault) => Ok(Some(refusal_at(alloc, graph, states, table, fault)?)),
        None => Ok(None),
    }
}

/// What is said of code, its states and its fault.
fn explained(
    alloc: Global,
    code: &Code,
    states: &[Option<State>],
    table: Table,
    fault: Option<VerifyFault>,
    coverage: Coverage,
) -> Result<Explanation, AllocError>
    requires { IfSome fault (λ f. f.pc < length code.now) }
    ensures lines { IfOk result (λ e. string_bytes e.lines ≡ definitions.listing coverage code.now states.now fault) }
    ensures refusal { IfOk result (λ e. e.refusal ≡ option_map (definitions.refusal_at table code.now states.now) fault) }
{
    let graph = Graph::new(alloc, code)?;
    let refusal = refusal_with(alloc, &graph, states, table, fault)?;
    let lines = listing(alloc, &graph, states, fault, coverage)?;
    Ok(Explanation { lines, refusal })
}

/// What the verifier knows of the program of an image and a helper table, or why the image has no
/// code. The states are those that a load finds, and so is the fault.
pub fn explain_image(
    alloc: Global,
    image: &[u8],
    table: Table,
    coverage: Coverage,
) -> Result<Explanation, IsaFault>
    ensures { ExplainsAs coverage (program_of image.now table) result }
{
    let fault = verdict(alloc, image, table)?;
    let code = decode(alloc, image)?;
    let Ok(states) = joined_states(alloc, &code, table) else {
        return Err(IsaFault::Memory);
    };
    match explained(alloc, &code, &states, table, fault, coverage) {
        Ok(explanation) => Ok(explanation),
        Err(_) => Err(IsaFault::Memory),
    }
}
