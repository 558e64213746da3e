//! Whether the code that a jump back leads to comes to the jump again.

ghost use Rattle.std.specs.Prelude.{◌≡◌, ◌+◌, ◌<◌, ℕ, Some, length, slice_get, IfOk, OnOk};
ghost use Rattle.explain.specs.Loops as definitions;
ghost use Rattle.explain.specs.Loops.{is_marked};
ghost use Rattle.explain.specs.Graphs.{sources_of};
ghost use Rattle.explain.specs.Found as found;
ghost use Rattle.explain.specs.Found.{AreFound, AreJumpsFound};

use crate::graph::{Graph, landing_slot, target};
use crate::hint::Hint;
use bpf_isa::Code;
use machine_spec::{MAX_SLOTS, Placed, Summary};
use std::alloc::{AllocError, Global};

/// Whether an instruction is marked.
#[tactic(auto, using(std::proofs::lemmas::List::get_or_past))]
pub fn is_marked(marks: &[bool], k: usize) -> bool
    ensures { result ≡ is_marked marks.now k }
{
    if k < marks.len() { marks[k] } else { false }
}

/// Whether the next instruction may follow on an instruction.
fn follows(code: &Code, k: usize) -> bool
    requires { k < length code.now }
    ensures { result ≡ found.follows (slice_get code.now k) }
{
    let summary = Summary::of(code.get(k).instruction);
    !(summary.exits || (summary.jump.is_some() && summary.condition.is_none()))
}

// ---- what comes to an instruction

/// Marks an instruction and lists it, if it is not marked.
fn mark(marks: &mut [bool], list: &mut Vec<usize>, k: usize) -> Result<(), AllocError>
    requires { k < length marks.old }
    ensures marks { OnOk result (marks.new ≡ found.marked_too marks.old k) }
    ensures list { OnOk result (list.new.items ≡ found.listed_too marks.old list.old.items k) }
{
    if !is_marked(marks, k) {
        marks[k] = true;
        list.push(k)?;
    }
    Ok(())
}

/// Marks and lists the instructions whose jumps lead to number j, which is at a position of the list.
/// That and `to` are for contracts: nothing that runs depends on them.
fn mark_jumps(
    graph: &Graph<'_>,
    marks: &mut [bool],
    list: &mut Vec<usize>,
    to: usize,
    at: usize,
    j: usize,
) -> Result<(), AllocError>
    requires found { AreFound graph.now to at marks.old list.old.items }
    requires is_at { slice_get list.old.items at ≡ Some j }
    ensures { OnOk result (AreJumpsFound graph.now to at j (length (sources_of graph.now j)) marks.new list.new.items) }
{
    for k in graph.sources(j) {
        mark(marks, list, *k)?;
    }
    Ok(())
}

/// Marks and lists the instruction before number j, if that may follow on it.
fn mark_fall(
    graph: &Graph<'_>,
    marks: &mut [bool],
    list: &mut Vec<usize>,
    to: usize,
    at: usize,
    j: usize,
) -> Result<(), AllocError>
    requires { AreJumpsFound graph.now to at j (length (sources_of graph.now j)) marks.old list.old.items }
    ensures { OnOk result (AreFound graph.now to (at + 1) marks.new list.new.items) }
{
    if j == 0 {
        return Ok(());
    }
    if !follows(graph.code(), j - 1) {
        return Ok(());
    }
    mark(marks, list, j - 1)?;
    Ok(())
}

/// Marks what comes to the instruction that is listed.
fn mark_all(
    graph: &Graph<'_>,
    marks: &mut [bool],
    list: &mut Vec<usize>,
    to: usize,
) -> Result<(), AllocError>
    requires { AreFound graph.now to 0 marks.old list.old.items }
    ensures { OnOk result ((k : ℕ) → is_marked marks.new k ≡ definitions.comes_to graph.now to (length graph.now) k) }
{
    let mut at = 0;
    while at < list.len() {
        let j = list[at];
        mark_jumps(graph, marks, list, to, at, j)?;
        mark_fall(graph, marks, list, to, at, j)?;
        at += 1;
    }
    Ok(())
}

/// Marks the instructions from which the code comes to one.
pub fn marks_to(alloc: Global, graph: &Graph<'_>, to: usize) -> Result<Vec<bool>, AllocError>
    requires { to < length graph.now }
    ensures { IfOk result (λ marks. (k : ℕ)
        → is_marked marks.items k ≡ definitions.comes_to graph.now to (length graph.now) k) }
{
    let mut marks = vec![in alloc; false; graph.code().len()]?;
    let mut list = Vec::new(alloc);
    marks[to] = true;
    list.push(to)?;
    mark_all(graph, &mut marks, &mut list, to)?;
    Ok(marks)
}

/// Whether the code from one instruction on comes to another.
fn comes_to(alloc: Global, graph: &Graph<'_>, from: usize, to: usize) -> Result<bool, AllocError>
    requires { to < length graph.now }
    ensures { IfOk result (λ comes. comes ≡ definitions.comes_to graph.now to (length graph.now) from) }
{
    let marks = marks_to(alloc, graph, to)?;
    Ok(is_marked(&marks, from))
}

// ---- the hint

fn loop_or_order(comes: bool, landing: i128, slot: usize) -> Hint
    ensures { result ≡ definitions.loop_or_order comes landing slot }
{
    if comes {
        Hint::Loop(landing, slot)
    } else {
        Hint::Order(landing, slot)
    }
}

/// The hint for a jump, if it leads to an instruction.
fn loop_hint(
    alloc: Global,
    graph: &Graph<'_>,
    number: usize,
    slot: usize,
    offset: i32,
) -> Result<Option<Hint>, AllocError>
    requires number { number < length graph.now }
    requires slot { slot < MAX_SLOTS }
    ensures { IfOk result (λ hint. hint ≡ definitions.loop_hint graph.now number slot offset) }
{
    let Some(from) = target(graph.code(), slot, offset) else {
        return Ok(None);
    };
    let comes = comes_to(alloc, graph, from, number)?;
    Ok(Some(loop_or_order(comes, landing_slot(slot, offset), slot)))
}

/// The hint for an instruction that jumps back, if it does.
pub fn back_hint(
    alloc: Global,
    graph: &Graph<'_>,
    number: usize,
    placed: Placed,
) -> Result<Option<Hint>, AllocError>
    requires number { number < length graph.now }
    requires slot { placed.slot < MAX_SLOTS }
    ensures { IfOk result (λ hint. hint ≡ definitions.back_hint graph.now number (Some placed)) }
{
    match Summary::of(placed.instruction).jump {
        Some(offset) if offset < 0 => loop_hint(alloc, graph, number, placed.slot, offset),
        Some(_) => Ok(None),
        None => Ok(None),
    }
}
