//! Where a register that may hold nothing was lost.

ghost use Rattle.std.specs.Prelude.{◌≡◌, ◌<◌, ◌-◌, ◌&&◌, nat_lt, if◌then◌else◌, find, length, Some, None};
ghost use Rattle.std.specs.Option.{option_copied};
ghost use Rattle.explain.specs.Meetings as definitions;
ghost use Rattle.explain.specs.Meetings.{arrival};
ghost use Rattle.explain.specs.Reasons.{first_below};
ghost use Rattle.explain.specs.Graphs.{sources_of};

use crate::graph::Graph;
use crate::hint::{Edge, Hint};
use crate::reason::Reason;
use abstract_regs::State;
use bpf_isa::Code;
use lattice::{kinds, same_region};
use machine_spec::{MAX_SLOTS, Placed, Summary, Table};
use notes::claim_at;
use verifier_spec::Abs;

// ---- the kind that an edge propagates

fn is_number_of(number: Option<usize>, j: usize) -> bool
    ensures { result ≡ definitions.is_number_of number j }
{
    number == Some(j)
}

/// The kind of a register along an edge, if the edge is there.
fn kind_along(leads: bool, register: u8, edge: Option<State>) -> Option<Abs>
    ensures { result ≡ definitions.kind_along leads register edge }
{
    match edge {
        Some(state) if leads => Some(state.kind(register as usize)),
        Some(_) => None,
        None => None,
    }
}

// ---- two kinds that nothing is known of together

fn same_address(a: Abs, b: Abs) -> bool
    ensures { result ≡ definitions.same_address a b }
{
    match (a, b) {
        (Abs::Addr(a, _, _), Abs::Addr(b, _, _)) => same_region(a, b),
        (Abs::Addr(_, _, _), _) => false,
        (_, _) => false,
    }
}

fn same_sort(a: Abs, b: Abs) -> bool
    ensures { result ≡ definitions.same_sort a b }
{
    kinds::is_unknown(a) && kinds::is_unknown(b)
        || kinds::is_number(a) && kinds::is_number(b)
        || same_address(a, b)
}

fn is_other(kind: Abs, other: Option<Abs>) -> bool
    ensures { result ≡ definitions.is_other kind other }
{
    match other {
        Some(other) => !same_sort(kind, other),
        None => false,
    }
}

// ---- the edges to an instruction

/// A register of a program, whose values are traced back along the edges that propagate them.
#[derive(Drop)]
struct Trace<'a> {
    graph: &'a Graph<'a>,
    states: &'a [Option<State>],
    table: Table,
    register: u8,
}

impl<'a> Trace<'a> {
    /// What an instruction propagates of the register to another, from the state before it.
    fn kind_from(&self, j: usize, k: usize, placed: Placed, state: &State) -> Option<Abs>
        requires number { k < MAX_SLOTS }
        requires slot { placed.slot < MAX_SLOTS }
        ensures { result ≡ definitions.kind_passed self.now.table self.now.graph.now self.now.register j k (Some placed) (Some state.now) }
    {
        let jump = Summary::of(placed.instruction).jump;
        let is_next = k + 1 == j;
        let is_jump = is_number_of(self.graph.code().target(placed.slot, jump), j);
        if !is_next && !is_jump || state.check(placed.instruction, self.table).is_some() {
            return None;
        }
        let edges = state.transfer(placed.instruction);
        kind_along(is_next, self.register, edges.next).or(kind_along(
            is_jump,
            self.register,
            edges.jump,
        ))
    }

    /// What an instruction propagates of the register to another.
    #[tactic(auto, unfolding(crate::specs::Meetings::arrival))]
    fn arrival(&self, j: usize, k: usize) -> Option<Abs>
        ensures { result ≡ arrival self.now.table self.now.graph.now self.now.states.now self.now.register j k }
    {
        if k >= self.graph.code().len() {
            return None;
        }
        self.kind_from(j, k, self.graph.code().get(k), claim_at(self.states, k)?)
    }

    /// Whether it propagates a kind of another sort than the given one, or anything where none is given.
    fn passes(&self, other: Option<Abs>, j: usize, k: usize) -> bool
        ensures { result ≡ definitions.passes self.now.table self.now.graph.now self.now.states.now self.now.register other j k }
    {
        let arrival = self.arrival(j, k);
        match other {
            Some(kind) => is_other(kind, arrival),
            None => arrival.is_some(),
        }
    }

    /// The first of those before an instruction whose jumps lead to it that does so.
    fn first_jump(&self, other: Option<Abs>, j: usize) -> Option<usize>
        ensures { result ≡ find (λ k. nat_lt k j && definitions.passes self.now.table self.now.graph.now self.now.states.now self.now.register other j k)
            (sources_of self.now.graph.now j) }
    {
        for k in self.graph.sources(j) {
            if *k < j && self.passes(other, j, *k) {
                return Some(*k);
            }
        }
        None
    }

    /// The one before an instruction, if it does so.
    fn fall(&self, other: Option<Abs>, j: usize) -> Option<usize>
        ensures { result ≡ (if nat_lt 0 j && definitions.passes self.now.table self.now.graph.now self.now.states.now self.now.register other j (j - 1)
            then Some (j - 1) else None) }
    {
        if j > 0 && self.passes(other, j, j - 1) {
            Some(j - 1)
        } else {
            None
        }
    }

    /// The first that does so.
    #[tactic(auto, using(crate::proofs::Arrivals::among_jumps, crate::proofs::Arrivals::after_jumps))]
    fn first(&self, other: Option<Abs>, j: usize) -> Option<usize>
        ensures { result ≡ first_below j (definitions.passes self.now.table self.now.graph.now self.now.states.now self.now.register other j) }
    {
        match self.first_jump(other, j) {
            Some(k) => Some(k),
            None => self.fall(other, j),
        }
    }
}

// ---- one instruction

/// What is said of an instruction before which nothing is known of a register.
#[derive(Clone, Copy)]
pub enum Loss {
    /// It was lost here.
    Here(Hint),
    /// Nothing is known of it before this instruction either.
    Before(usize),
}

pub(crate) fn slot_of(code: &Code, k: usize) -> usize
    ensures { result ≡ definitions.slot_of code.now k }
{
    if k < code.len() { code.get(k).slot } else { 0 }
}

fn edge_from(code: &Code, k: usize, kind: Abs) -> Edge
    ensures { result ≡ definitions.edge_from code.now k kind }
{
    Edge {
        kind,
        slot: slot_of(code, k),
    }
}

/// Whether nothing is known of a register before an instruction.
fn is_lost_before(register: u8, claim: Option<&State>) -> bool
    ensures { result ≡ definitions.is_lost_before register (option_copied claim.entry) }
{
    match claim {
        Some(state) => kinds::is_unknown(state.kind(register as usize)),
        None => true,
    }
}

impl<'a> Trace<'a> {
    fn lost_in(&self, k: usize) -> Loss
        ensures { result ≡ definitions.lost_in self.now.graph.now self.now.states.now self.now.register k }
    {
        if is_lost_before(self.register, claim_at(self.states, k)) {
            Loss::Before(k)
        } else {
            Loss::Here(Hint::Called(slot_of(self.graph.code(), k)))
        }
    }

    fn met_with(&self, j: usize, k: usize, kind: Abs, other: Option<usize>) -> Loss
        ensures { result ≡ definitions.met_with self.now.table self.now.graph.now self.now.states.now self.now.register j k kind other }
    {
        let code = self.graph.code();
        match other {
            Some(other) => Loss::Here(Hint::Met(
                edge_from(code, k, kind),
                edge_from(code, other, self.arrival(j, other).unwrap_or(Abs::None)),
                slot_of(code, j),
            )),
            None => self.lost_in(k),
        }
    }

    fn met_from(&self, j: usize, k: usize) -> Loss
        ensures { result ≡ definitions.met_from self.now.table self.now.graph.now self.now.states.now self.now.register j k
            (arrival self.now.table self.now.graph.now self.now.states.now self.now.register j k) }
    {
        match self.arrival(j, k) {
            Some(kind) => self.met_with(j, k, kind, self.first(Some(kind), j)),
            None => Loss::Here(Hint::NeverSet),
        }
    }

    /// What is said of an instruction before which nothing is known of the register.
    #[tactic(auto, unfolding(crate::specs::Meetings::step))]
    fn step(&self, j: usize) -> Loss
        ensures { result ≡ definitions.step self.now.table self.now.graph.now self.now.states.now self.now.register j }
    {
        match self.first(None, j) {
            Some(k) => self.met_from(j, k),
            None => Loss::Here(Hint::NeverSet),
        }
    }

    /// Where the register that may hold nothing before an instruction was lost.
    #[tactic(auto, using(crate::proofs::Back::one_back, crate::proofs::Back::all_left))]
    fn lost_at(&self, pc: usize) -> Option<Hint>
        ensures { result ≡ definitions.lost_within self.now.table self.now.graph.now self.now.states.now self.now.register (length self.now.graph.now) pc }
    {
        let mut at = pc;
        for _step in 0..self.graph.code().len() {
            match self.step(at) {
                Loss::Here(hint) => return Some(hint),
                Loss::Before(k) => at = k,
            }
        }
        None
    }
}

/// The register that a refusal finds nothing in.
fn lost_register(reason: Option<Reason>) -> Option<u8>
    ensures { result ≡ definitions.lost_register reason }
{
    match reason {
        Some(Reason::Unknown(register)) => Some(register),
        Some(_) => None,
        None => None,
    }
}

/// The hint for a refusal at an instruction, if it finds nothing in a register.
pub fn lost_hint(
    graph: &Graph<'_>,
    states: &[Option<State>],
    table: Table,
    pc: usize,
    reason: Option<Reason>,
) -> Option<Hint>
    ensures { result ≡ definitions.lost_hint table graph.now states.now pc reason }
{
    let register = lost_register(reason)?;
    let trace = Trace {
        graph,
        states,
        table,
        register,
    };
    trace.lost_at(pc)
}
