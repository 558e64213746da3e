//! Which instructions' jumps lead to each instruction of a program.

ghost use Rattle.std.specs.Prelude.{◌≡◌, ◌+◌, ◌<◌, ℕ, [], length, slice_get, IfOk, IfSome, OnOk};
ghost use Rattle.explain.specs.Reasons as reasons;
ghost use Rattle.explain.specs.Loops as loops;
ghost use Rattle.explain.specs.Graphs as definitions;
ghost use Rattle.explain.specs.Graphs.{AreSources};

use bpf_isa::Code;
use machine_spec::{MAX_SLOTS, Summary};
use std::alloc::{AllocError, Global};
use std::marker::Model;

/// The instructions of a program, and of each the others whose jumps lead to it. A clause sees the
/// instructions.
#[derive(Drop)]
pub struct Graph<'a> {
    code: &'a Code,
    /// For each instruction the numbers of those whose jumps lead to it, in order.
    sources: Vec<Vec<usize>>,
}

impl<'a> Model for Graph<'a> {
    ghost use Rattle.std.specs.Prelude.{List, length};
    ghost use Rattle.machine_spec.specs.declared.instruction.Placed.{Placed};
    ghost use Rattle.explain.specs.Graphs.{AreSources};

    ghost Value = { List Placed };

    ghost view = { λ g. g.code.now };

    ghost invariant = { λ g. AreSources g.code.now (length g.code.now) g.sources.items };
}

/// The slot to which a jump leads, which may be before the first.
pub fn landing_slot(slot: usize, offset: i32) -> i128
    ensures { result ≡ reasons.landing_slot slot offset }
{
    slot as i128 + 1 + offset as i128
}

/// The number of the instruction to which a jump leads, forward or back, if it leads to one.
pub fn target(code: &Code, slot: usize, offset: i32) -> Option<usize>
    requires { slot < MAX_SLOTS }
    ensures target { result ≡ loops.target code.now slot offset }
    ensures is_within { IfSome result (λ k. k < length code.now) }
{
    let landing = landing_slot(slot, offset);
    if landing < 0 {
        None
    } else {
        code.at(landing.unsigned_abs() as usize)
    }
}

/// The number of the instruction to which an instruction's jump leads, if it leads to one.
fn jump_from(code: &Code, k: usize) -> Option<usize>
    requires { k < length code.now }
    ensures target { result ≡ definitions.jump_from code.now (slice_get code.now k) }
    ensures is_within { IfSome result (λ j. j < length code.now) }
{
    let placed = code.get(k);
    target(code, placed.slot, Summary::of(placed.instruction).jump?)
}

/// So many empty lists.
#[tactic(auto, using(crate::proofs::Sources::empty_more))]
fn no_sources(alloc: Global, count: usize) -> Result<Vec<Vec<usize>>, AllocError>
    ensures count { IfOk result (λ lists. length lists.items ≡ count) }
    ensures empty { IfOk result (λ lists. (j : ℕ) → definitions.list_at lists.items j ≡ []) }
{
    let mut lists = Vec::new(alloc);
    for _number in 0..count {
        lists.push(Vec::new(alloc))?;
    }
    Ok(lists)
}

/// Adds an instruction to the list of the one to which its jump leads.
fn add_source(lists: &mut [Vec<usize>], code: &Code, k: usize) -> Result<(), AllocError>
    requires number { k < length code.now }
    requires sources { AreSources code.now k lists.old }
    ensures { OnOk result (AreSources code.now (k + 1) lists.new) }
{
    if let Some(j) = jump_from(code, k) {
        lists[j].push(k)?;
    }
    Ok(())
}

/// Adds each instruction to the list of the one to which its jump leads.
fn add_sources(lists: &mut [Vec<usize>], code: &Code) -> Result<(), AllocError>
    requires { AreSources code.now 0 lists.old }
    ensures { OnOk result (AreSources code.now (length code.now) lists.new) }
{
    for k in 0..code.len() {
        add_source(lists, code, k)?;
    }
    Ok(())
}

impl<'a> Graph<'a> {
    /// The graph of a program.
    pub fn new(alloc: Global, code: &'a Code) -> Result<Graph<'a>, AllocError>
        ensures { IfOk result (λ graph. graph ≡ code.now) }
    {
        let mut sources = no_sources(alloc, code.len())?;
        add_sources(&mut sources, code)?;
        Ok(Graph { code, sources })
    }

    /// The program.
    pub fn code(&self) -> &Code
        ensures { result.now ≡ self.now }
    {
        self.code
    }

    /// The numbers of the instructions whose jumps lead to one, in order.
    pub fn sources(&self, j: usize) -> &[usize]
        ensures { result.now ≡ definitions.sources_of self.now j }
    {
        if j < self.sources.len() {
            &self.sources[j]
        } else {
            &[]
        }
    }
}
