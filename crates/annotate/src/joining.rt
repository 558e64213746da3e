ghost use Rattle.std.specs.Prelude.{◌≡◌, ◌+◌, ◌<◌, true, length, IfOk, IfSome, slice_set, replicate, Some, None};
ghost use Rattle.verifier_spec.specs.States.{is_proper, entry_state};
ghost use Rattle.std.specs.Option.{option_or};
ghost use Rattle.verifier_spec.specs.Annotation.{claim_at, fault_or, fault_of};
ghost use Rattle.verifier_spec.specs.JoinedStates.{joined_claims, with_edge, with_edges, with_instruction, known_after, joined_states};
ghost use Rattle.verifier_spec.specs.Checks.{failed_check};
ghost use Rattle.verifier_spec.specs.Transfer.{falls_to, jumps_to};
ghost use Rattle.verifier_spec.proofs.BestAnnotation.{AreJoinedProper};
ghost use Rattle.notes.specs.Derived.{HasEachClaim};
ghost use Rattle.annotate.specs.Passing.{own_failed};
ghost use Rattle.machine_spec.specs.Image.{helpers_of};
ghost use Rattle.machine_spec.specs.declared.helper.TheConstants.{HELPERS};

use abstract_regs::State;
use bpf_isa::Code;
use machine_spec::{Instruction, MAX_SLOTS, Placed, Summary, Table};
use notes::failed_shape;
use std::alloc::{AllocError, Global};
use verifier_spec::{Check, VerifyFault};

/// The state of an instruction, if it is reached.
fn claim_of(states: &[Option<State>], k: usize) -> Option<State>
    requires { k < length states.now }
    ensures { result ≡ claim_at states.now k }
{
    states[k]
}

/// The least state above what is known of an instruction, if anything, and one more state.
fn joined_claim(known: &Option<State>, state: &State) -> Option<State>
    ensures { result ≡ joined_claims known.now (Some state.now) }
{
    match known {
        Some(known) => Some(known.join(state)),
        None => Some(*state),
    }
}

/// Joins a state to what is known of an instruction, if there is an instruction with this number.
fn propagate(states: &mut [Option<State>], target: usize, state: &State)
    ensures length { length states.new ≡ length states.old }
    ensures each { HasEachClaim states.new (λ j. with_edge j (Some target) (Some state.now) (claim_at states.old j)) }
{
    if target < states.len() {
        states[target] = joined_claim(&states[target], state);
    }
}

/// Joins what an instruction propagates to the next one.
fn propagate_next(states: &mut [Option<State>], k: usize, instruction: Instruction, state: State)
    requires number { k < MAX_SLOTS }
    requires passes { failed_check HELPERS instruction state ≡ None }
    ensures length { length states.new ≡ length states.old }
    ensures each { HasEachClaim states.new (λ j. with_edge j (Some (k + 1)) (falls_to instruction state) (claim_at states.old j)) }
{
    let mut state = state;
    if state.fall(instruction) {
        propagate(states, k + 1, &state);
    }
}

/// Joins what an instruction's jump propagates to its target, if it leads to one.
fn propagate_jump(
    states: &mut [Option<State>],
    target: Option<usize>,
    instruction: Instruction,
    state: State,
)
    ensures length { length states.new ≡ length states.old }
    ensures each { HasEachClaim states.new (λ j. with_edge j target (jumps_to instruction state) (claim_at states.old j)) }
{
    if let Some(target) = target {
        let mut state = state;
        if state.jump(instruction) {
            propagate(states, target, &state);
        }
    }
}

/// Joins what both edges of an instruction propagate, the one to the next instruction first.
fn propagate_both(code: &Code, states: &mut [Option<State>], k: usize, placed: Placed, state: State)
    requires slot { placed.slot < MAX_SLOTS }
    requires number { k < MAX_SLOTS }
    requires passes { failed_check HELPERS placed.instruction state ≡ None }
    ensures length { length states.new ≡ length states.old }
    ensures each { HasEachClaim states.new (λ j. with_edges code.now j k placed state (claim_at states.old j)) }
{
    let jump = Summary::of(placed.instruction).jump;
    propagate_next(states, k, placed.instruction, state);
    let target = code.target(placed.slot, jump);
    propagate_jump(states, target, placed.instruction, state);
}

/// Passes an instruction with its own claim, and returns the first check that it fails: it propagates nothing where it
/// is not reached or fails a check of its state.
fn pass_one(
    code: &Code,
    table: Table,
    states: &mut [Option<State>],
    k: usize,
    placed: Placed,
    claim: Option<State>,
) -> Option<Check>
    requires slot { placed.slot < MAX_SLOTS }
    requires number { k < MAX_SLOTS }
    ensures length { length states.new ≡ length states.old }
    ensures each { HasEachClaim states.new (λ j. with_instruction (helpers_of table) code.now j k (Some placed) claim (claim_at states.old j)) }
    ensures proper { IfSome claim (λ s. is_proper s ≡ true) }
    ensures failed { result ≡ own_failed (helpers_of table) placed claim }
{
    let Some(state) = claim else {
        return None;
    };
    let failed = state.check(placed.instruction, table);
    if failed.is_none() {
        propagate_both(code, states, k, placed, state);
    }
    failed
}

/// The entry state alone.
fn first_states(alloc: Global, len: usize) -> Result<Vec<Option<State>>, AllocError>
    requires { 0 < len }
    ensures { IfOk result (λ v. v.items ≡ slice_set (replicate len None) 0 (Some entry_state)) }
{
    let mut states = vec![in alloc; None; len]?;
    states[0] = Some(State::entry());
    Ok(states)
}

/// The fault of an instruction that fails two checks, or one of them: the first.
fn fault_at(pc: usize, shape: Option<Check>, own: Option<Check>) -> Option<VerifyFault>
    ensures { result ≡ fault_or pc (option_or shape own) None }
{
    match shape.or(own) {
        Some(kind) => Some(VerifyFault { pc, kind }),
        None => None,
    }
}

/// One pass in code order, which begins with the entry state alone. Returns the fault of the joined states, if they
/// have one.
fn pass(code: &Code, table: Table, states: &mut [Option<State>]) -> Option<VerifyFault>
    requires { states.old ≡ slice_set (replicate (length code.now) None) 0 (Some entry_state) }
    ensures states { states.new ≡ joined_states (helpers_of table) code.now }
    ensures proper { AreJoinedProper (helpers_of table) code.now }
    ensures fault { result ≡ fault_of (helpers_of table) code.now (joined_states (helpers_of table) code.now) }
{
    let mut first: Option<VerifyFault> = None;
    for k in 0..code.len() {
        let claim = claim_of(states, k);
        let placed = code.get(k);
        let own = pass_one(code, table, states, k, placed, claim);
        first = first.or(fault_at(k, failed_shape(code, k, placed), own));
    }
    first
}

/// The joined states of code, and their fault, if they have one.
#[derive(Drop)]
pub struct Joined {
    pub states: Vec<Option<State>>,
    pub fault: Option<VerifyFault>,
}

/// The joined states of code that may call the helpers of a table, and their first fault.
pub fn join_all(alloc: Global, code: &Code, table: Table) -> Result<Joined, AllocError>
    ensures states { IfOk result (λ joined. joined.states.items ≡ joined_states (helpers_of table) code.now) }
    ensures proper { IfOk result (λ _. AreJoinedProper (helpers_of table) code.now) }
    ensures fault { IfOk result (λ joined. joined.fault ≡ fault_of (helpers_of table) code.now (joined_states (helpers_of table) code.now)) }
{
    let mut states = first_states(alloc, code.len())?;
    let fault = pass(code, table, &mut states);
    Ok(Joined { states, fault })
}

/// The joined states of code that may call the helpers of a table: at each instruction the least
/// state above all that the edges of reached instructions before it propagate.
pub fn joined_states(
    alloc: Global,
    code: &Code,
    table: Table,
) -> Result<Vec<Option<State>>, AllocError>
    ensures states { IfOk result (λ states. states.items ≡ joined_states (helpers_of table) code.now) }
    ensures proper { IfOk result (λ _. AreJoinedProper (helpers_of table) code.now) }
{
    Ok(join_all(alloc, code, table)?.states)
}
