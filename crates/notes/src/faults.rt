ghost use Rattle.std.specs.Prelude.{◌≡◌, ◌<◌, true, ◌==◌, ◌&&◌, length, Some, IfNone};
ghost use Rattle.machine_spec.specs.Traps.{first_of};
ghost use Rattle.verifier_spec.specs.States.{is_proper, entry_state};
ghost use Rattle.verifier_spec.specs.Annotation.{claim_at, is_covered, reached_checks, failed_at, fault_from, fault_of};
ghost use Rattle.notes.specs.Proper.{IsProperAt, AreProper, AreProperBelow};
ghost use Rattle.machine_spec.specs.Image.{helpers_of};

use crate::edges::{are_edges_covered, is_covered};
use crate::lookup::claim_at;
use crate::shape::failed_shape;
use abstract_regs::State;
use bpf_isa::Code;
use machine_spec::{MAX_SLOTS, Placed, Table};
use verifier_spec::{Check, VerifyFault};

/// The first check that an instruction fails in a state: its own, and then that its edges are
/// covered.
#[tactic(auto, unfolding(verifier_spec::specs::Checks::failed_check))]
fn failed_reached(
    code: &Code,
    table: Table,
    claims: &[Option<State>],
    k: usize,
    placed: Placed,
    state: &State,
) -> Option<Check>
    requires number { k < MAX_SLOTS }
    requires slot { placed.slot < MAX_SLOTS }
    ensures failed { result ≡ first_of (reached_checks (helpers_of table) code.now claims.now k placed (Some state.now)) }
    ensures proper { is_proper state.now ≡ true }
{
    if let Some(check) = state.check(placed.instruction, table) {
        return Some(check);
    }
    if are_edges_covered(code, claims, k, placed, state) {
        None
    } else {
        Some(Check::Notes)
    }
}

/// The first check that the instruction with this number fails: of its shape, and then, where it
/// is reached, in its state.
fn failed_at(
    code: &Code,
    table: Table,
    claims: &[Option<State>],
    k: usize,
    placed: Placed,
) -> Option<Check>
    requires number { k < MAX_SLOTS }
    requires slot { placed.slot < MAX_SLOTS }
    ensures failed { result ≡ failed_at (helpers_of table) code.now claims.now k placed }
    ensures proper { IfNone result (IsProperAt claims.now k) }
{
    if let Some(check) = failed_shape(code, k, placed) {
        return Some(check);
    }
    match claim_at(claims, k) {
        Some(state) => failed_reached(code, table, claims, k, placed, state),
        None => None,
    }
}

/// The first failed check of the lowest instruction that fails one.
fn first_fault(code: &Code, table: Table, claims: &[Option<State>]) -> Option<VerifyFault>
    ensures fault { result ≡ fault_from (helpers_of table) code.now claims.now 0 code.now }
    ensures proper { IfNone result (AreProperBelow claims.now (length code.now)) }
{
    for k in 0..code.len() {
        if let Some(kind) = failed_at(code, table, claims, k, code.get(k)) {
            return Some(VerifyFault { pc: k, kind });
        }
    }
    None
}

/// Whether a list has a state or none for each instruction, and its first covers the entry.
fn has_start(code: &Code, claims: &[Option<State>]) -> bool
    ensures { result ≡ ((length claims.now == length code.now) && is_covered entry_state (claim_at claims.now 0)) }
{
    claims.len() == code.len() && is_covered(&State::entry(), claim_at(claims, 0))
}

/// Why a list of states is no annotation of code under a helper table, if it is none.
#[tactic(auto, unfolding(verifier_spec::specs::Annotation::fault_of))]
pub fn fault_of(code: &Code, table: Table, claims: &[Option<State>]) -> Option<VerifyFault>
    ensures fault { result ≡ fault_of (helpers_of table) code.now claims.now }
    ensures proper { IfNone result (AreProper claims.now) }
{
    if !has_start(code, claims) {
        return Some(VerifyFault {
            pc: 0,
            kind: Check::Notes,
        });
    }
    first_fault(code, table, claims)
}
