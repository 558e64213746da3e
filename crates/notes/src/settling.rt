ghost use Rattle.std.specs.Prelude.{◌≡◌, ℕ, ◌<◌, ◌++◌, true, false, if◌then◌else◌, length, Some, None, IfSome, IfOk, OnOk};
ghost use Rattle.std.specs.Prelude.{slice_index_or, slice_set, replicate, ◌==◌};
ghost use Rattle.verifier_spec.specs.States.{is_proper};
ghost use Rattle.verifier_spec.specs.Annotation.{claim_at};
ghost use Rattle.verifier_spec.specs.Checks.{failed_check};
ghost use Rattle.verifier_spec.specs.Transfer.{falls_to};
ghost use Rattle.verifier_spec.specs.JoinedStates.{if_passed};
ghost use Rattle.notes.specs.Derived.{state_fallen_to, given_or, derived_claims, at_targets, settled_claims, pair_at, are_rising, kept_claim, kept_states, HasEachClaim, AreDerivedProper, AreTargets};
ghost use Rattle.machine_spec.specs.Image.{helpers_of};

use crate::shape::failed_shape;
use abstract_regs::State;
use bpf_isa::Code;
use machine_spec::{MAX_SLOTS, Placed, Table};
use std::alloc::{AllocError, Global};

/// What falls through from the instruction with this number in its state: nothing where it is not
/// reached or fails a check.
fn state_fallen_to(
    code: &Code,
    table: Table,
    k: usize,
    placed: Placed,
    state: Option<State>,
) -> Option<State>
    requires number { k < MAX_SLOTS }
    requires slot { placed.slot < MAX_SLOTS }
    ensures fallen { result ≡ state_fallen_to (helpers_of table) code.now k (Some placed) state }
    ensures proper { IfSome state (λ s. is_proper s ≡ true) }
{
    match state {
        Some(state) => fallen_from(code, table, k, placed, &state),
        None => None,
    }
}

fn fallen_from(code: &Code, table: Table, k: usize, placed: Placed, state: &State) -> Option<State>
    requires number { k < MAX_SLOTS }
    requires slot { placed.slot < MAX_SLOTS }
    ensures fallen { result ≡ state_fallen_to (helpers_of table) code.now k (Some placed) (Some state.now) }
    ensures proper { is_proper state.now ≡ true }
{
    let passed = passed_on(table, placed, state);
    match failed_shape(code, k, placed) {
        Some(_) => None,
        None => passed,
    }
}

fn passed_on(table: Table, placed: Placed, state: &State) -> Option<State>
    ensures passed { result ≡ if_passed (failed_check (helpers_of table) placed.instruction state.now) None (falls_to placed.instruction state.now) }
    ensures proper { is_proper state.now ≡ true }
{
    match state.check(placed.instruction, table) {
        Some(_) => None,
        None => state.transfer(placed.instruction).next,
    }
}

/// The state of an instruction, if it is there.
fn state_of(states: &[Option<State>], k: usize) -> Option<State>
    requires { k < length states.now }
    ensures { result ≡ claim_at states.now k }
{
    states[k]
}

fn given_or(given: Option<State>, follows: Option<State>) -> Option<State>
    ensures { result ≡ given_or given follows }
{
    match given {
        Some(state) => Some(state),
        None => follows,
    }
}

fn if_marked(mark: bool, claim: Option<State>) -> Option<State>
    ensures { result ≡ (if mark then claim else None) }
{
    if mark { claim } else { None }
}

/// Leaves the states of the marked instructions.
fn keep_marked(marks: &[bool], states: &mut [Option<State>])
    requires { length marks.now ≡ length states.old }
    ensures length { length states.new ≡ length states.old }
    ensures each { HasEachClaim states.new (λ k. if slice_index_or marks.now k false then claim_at states.old k else None) }
{
    for k in 0..states.len() {
        states[k] = if_marked(marks[k], state_of(states, k));
    }
}

/// Gives an instruction without a state the one that follows, and returns what falls through from it.
fn follow(
    code: &Code,
    table: Table,
    states: &mut [Option<State>],
    k: usize,
    placed: Placed,
    follows: Option<State>,
) -> Option<State>
    requires within { k < length states.old }
    requires number { k < MAX_SLOTS }
    requires slot { placed.slot < MAX_SLOTS }
    ensures states { states.new ≡ slice_set states.old k (given_or (claim_at states.old k) follows) }
    ensures fallen { result ≡ state_fallen_to (helpers_of table) code.now k (Some placed) (given_or (claim_at states.old k) follows) }
    ensures proper { IfSome (given_or (claim_at states.old k) follows) (λ s. is_proper s ≡ true) }
{
    states[k] = given_or(state_of(states, k), follows);
    state_fallen_to(code, table, k, placed, state_of(states, k))
}

/// Gives each instruction without a state the one that follows from those before it.
fn derive(code: &Code, table: Table, states: &mut [Option<State>])
    requires { length states.old ≡ length code.now }
    ensures states { states.new ≡ derived_claims (helpers_of table) code.now (claim_at states.old) }
    ensures proper { AreDerivedProper (helpers_of table) code.now (claim_at states.old) (length code.now) }
{
    let mut follows = Some(State::entry());
    for k in 0..code.len() {
        follows = follow(code, table, states, k, code.get(k), follows);
    }
}

/// Leaves the states at jump targets, and gives each other instruction the state that follows.
fn settle(code: &Code, table: Table, targets: &[bool], states: &mut [Option<State>])
    requires targets { AreTargets code.now targets.now }
    requires long { length states.old ≡ length code.now }
    ensures states { states.new ≡ settled_claims (helpers_of table) code.now states.old }
    ensures proper { AreDerivedProper (helpers_of table) code.now (at_targets code.now states.old) (length code.now) }
{
    keep_marked(targets, states);
    derive(code, table, states);
}

/// The states at jump targets of a list, and those that follow from them.
pub fn settled_states(
    code: &Code,
    table: Table,
    targets: &[bool],
    states: Vec<Option<State>>,
) -> Vec<Option<State>>
    requires targets { AreTargets code.now targets.now }
    requires long { length states.items ≡ length code.now }
    ensures states { result.items ≡ settled_claims (helpers_of table) code.now states.items }
    ensures proper { AreDerivedProper (helpers_of table) code.now (at_targets code.now states.items) (length code.now) }
{
    let mut states = states;
    settle(code, table, targets, &mut states);
    states
}

// ---- states with the numbers of their instructions

/// Gives the instruction with a number a state, if there is one that has none.
fn put(states: &mut [Option<State>], pair: (usize, State))
    ensures length { length states.new ≡ length states.old }
    ensures each { HasEachClaim states.new (λ k. given_or (claim_at states.old k) (if pair.0 == k then Some pair.1 else None)) }
{
    if pair.0 < states.len() {
        states[pair.0] = given_or(state_of(states, pair.0), Some(pair.1));
    }
}

/// Gives each instruction with a number the first state that is given of it.
fn put_all(states: &mut [Option<State>], pairs: &[(usize, State)])
    requires { states.old ≡ replicate (length states.old) None }
    ensures length { length states.new ≡ length states.old }
    ensures each { HasEachClaim states.new (pair_at pairs.now) }
{
    for pair in pairs {
        put(states, *pair);
    }
}

/// Gives each instruction the state that is given of it or follows from those before it.
fn fill(code: &Code, table: Table, states: &mut [Option<State>], pairs: &[(usize, State)])
    requires { states.old ≡ replicate (length code.now) None }
    ensures { states.new ≡ derived_claims (helpers_of table) code.now (pair_at pairs.now) }
{
    put_all(states, pairs);
    derive(code, table, states);
}

/// The states that follow from some with the numbers of their instructions.
pub fn derived_states(
    alloc: Global,
    code: &Code,
    table: Table,
    pairs: &[(usize, State)],
) -> Result<Vec<Option<State>>, AllocError>
    ensures { IfOk result (λ states. states.items ≡ derived_claims (helpers_of table) code.now (pair_at pairs.now)) }
{
    let mut states = vec![in alloc; None; code.len()]?;
    fill(code, table, &mut states, pairs);
    Ok(states)
}

/// Whether the numbers rise from a least one and are below a limit.
pub fn are_rising(limit: usize, pairs: &[(usize, State)]) -> bool
    ensures { result ≡ are_rising 0 limit pairs.now }
{
    let mut least = 0;
    for pair in pairs {
        if pair.0 < least || pair.0 >= limit {
            return false;
        }
        least = pair.0 + 1;
    }
    true
}

/// Appends the state of an instruction with its number, where it is reached and marked.
fn push_kept(
    kept: &mut Vec<(usize, State)>,
    mark: bool,
    k: usize,
    claim: Option<State>,
) -> Result<(), AllocError>
    ensures { OnOk result (kept.new.items ≡ kept.old.items ++ kept_claim mark k claim) }
{
    if let Some(state) = claim {
        if mark {
            kept.push((k, state))?;
        }
    }
    Ok(())
}

/// The states of the jump targets that are reached, with their numbers.
pub fn kept_states(
    alloc: Global,
    code: &Code,
    targets: &[bool],
    states: &[Option<State>],
) -> Result<Vec<(usize, State)>, AllocError>
    requires targets { AreTargets code.now targets.now }
    requires long { length states.now ≡ length code.now }
    ensures { IfOk result (λ kept. kept.items ≡ kept_states code.now states.now) }
{
    let mut kept = Vec::new(alloc);
    for k in 0..code.len() {
        push_kept(&mut kept, targets[k], k, state_of(states, k))?;
    }
    kept.shrink_to_fit();
    Ok(kept)
}
