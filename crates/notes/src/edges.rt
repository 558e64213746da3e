ghost use Rattle.std.specs.Prelude.{◌≡◌, ◌<◌, None};
ghost use Rattle.std.specs.Option.{option_copied};
ghost use Rattle.verifier_spec.specs.Checks.{failed_check};
ghost use Rattle.verifier_spec.specs.Annotation.{is_covered, is_edge_covered, claim_of, are_edges_covered};
ghost use Rattle.machine_spec.specs.declared.helper.TheConstants.{HELPERS};

use crate::lookup::claim_at;
use abstract_regs::State;
use bpf_isa::Code;
use machine_spec::{MAX_SLOTS, Placed, Summary};

/// Whether a state is within the one that an instruction has, if it has one.
pub fn is_covered(state: &State, outer: Option<&State>) -> bool
    ensures { result ≡ is_covered state.now (option_copied outer.entry) }
{
    match outer {
        Some(outer) => state.within(outer),
        None => false,
    }
}

/// Whether what an edge propagates, if it is taken at all, is covered where it leads.
fn is_edge_covered(brought: &Option<State>, outer: Option<&State>) -> bool
    ensures { result ≡ is_edge_covered brought.now (option_copied outer.entry) }
{
    match brought {
        Some(state) => is_covered(state, outer),
        None => true,
    }
}

/// The state of an instruction, by its number if it has one.
fn claim_of(claims: &[Option<State>], number: Option<usize>) -> Option<&State>
    ensures { option_copied result ≡ claim_of claims.now number }
{
    match number {
        Some(k) => claim_at(claims, k),
        None => None,
    }
}

/// Whether both edges of the instruction with this number are covered from a state in which its
/// checks pass.
pub fn are_edges_covered(
    code: &Code,
    claims: &[Option<State>],
    k: usize,
    placed: Placed,
    state: &State,
) -> bool
    requires number { k < MAX_SLOTS }
    requires slot { placed.slot < MAX_SLOTS }
    requires passed { failed_check HELPERS placed.instruction state.now ≡ None }
    ensures { result ≡ are_edges_covered code.now claims.now k placed state.now }
{
    let edges = state.transfer(placed.instruction);
    let next = claim_at(claims, k + 1);
    let jump = Summary::of(placed.instruction).jump;
    let target = claim_of(claims, code.target(placed.slot, jump));
    is_edge_covered(&edges.next, next) && is_edge_covered(&edges.jump, target)
}
