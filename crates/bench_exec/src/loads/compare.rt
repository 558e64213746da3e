//! What `load` accepts, `check` accepts with `load`'s states. What it refuses, no list of wider states
//! makes acceptable: `check` refuses each, at the same instruction or before it.

ghost use Rattle.std.specs.Prelude.{◌≡◌, ◌<◌, ◌≤◌, length, None};
ghost use Rattle.machine_spec.specs.declared.limits.TheConstants.{MAX_SLOTS};
ghost use Rattle.verifier_spec.specs.Checks.{failed_check};

use crate::loads::programs::random_image;
use crate::loads::random::Random;
use abstract_regs::State;
use annotate::{LoadFault, joined_states, load};
use bpf_isa::{Code, Placed, decode};
use machine_spec::{Region, Summary, Table};
use notes::{Check, Verified, VerifyFault, check};
use std::alloc::Global;
use verifier_spec::{Abs, StackSet};

/// How many lists of wider states are tried for a program that is refused.
const WIDENINGS: u32 = 4;

/// How many programs were accepted and refused, how many lists of wider states were checked, how
/// often memory ran out, and how often the two differed.
#[derive(Drop)]
pub(crate) struct Tally {
    pub(crate) accepted: u64,
    pub(crate) refused: u64,
    pub(crate) widened: u64,
    pub(crate) out_of_memory: u64,
    pub(crate) differ: u64,
}

impl Tally {
    pub(crate) fn new() -> Tally {
        Tally {
            accepted: 0,
            refused: 0,
            widened: 0,
            out_of_memory: 0,
            differ: 0,
        }
    }
}

/// One more.
fn count(number: &mut u64) {
    *number = number.saturating_add(1);
}

/// A state to join another with: what is known of some registers, lengths and no stack byte.
fn any_state(random: &mut Random) -> State {
    let mut registers = [Abs::None; 11];
    registers[0] = Abs::Num(0, random.below(300));
    registers[1] = Abs::Addr(Region::Value, 0, random.below(3) as i64);
    registers[2] = Abs::Len(Region::Value);
    registers[3] = Abs::Addr(Region::Key, 0, 0);
    registers[4] = Abs::Len(Region::Key);
    registers[6] = Abs::Num(0, random.below(70_000));
    registers[10] = Abs::Addr(Region::Stack, 512, 512);
    let set = StackSet { words: [0; 8] };
    let value_min = random.below(20) as u32;
    match State::new(registers, 0, 4096, value_min, 1_048_576, set) {
        Some(state) => state,
        None => State::entry(),
    }
}

/// A state above one, or the state itself.
fn wider(random: &mut Random, state: State) -> State {
    if random.below(3) == 0 {
        state.join(&any_state(random))
    } else {
        state
    }
}

/// Joins a state to that of an instruction, if there is one with this number.
fn join_at(states: &mut [Option<State>], target: Option<usize>, state: Option<State>)
    ensures { length states.new ≡ length states.old }
{
    if let Some(target) = target
        && let Some(state) = state
    {
        if target < states.len() {
            states[target] = match states[target] {
                Some(known) => Some(known.join(&state)),
                None => Some(state),
            };
        }
    }
}

/// Joins what an instruction's edges propagate, where its checks pass.
fn pass_one(code: &Code, states: &mut [Option<State>], k: usize, placed: Placed, state: State)
    requires number { k < MAX_SLOTS }
    requires slot { placed.slot < MAX_SLOTS }
    ensures { length states.new ≡ length states.old }
{
    if state.check(placed.instruction, Table::One).is_none() {
        let edges = state.transfer(placed.instruction);
        join_at(states, Some(k + 1), edges.next);
        let jump = Summary::of(placed.instruction).jump;
        join_at(states, code.target(placed.slot, jump), edges.jump);
    }
}

/// The joined states of code, each made wider at random where that is wanted.
fn pass(code: &Code, states: &mut [Option<State>], random: &mut Random, widens: bool)
    requires { length states.old ≡ length code.now }
{
    for k in 0..code.len() {
        if let Some(state) = states[k] {
            let state = if widens { wider(random, state) } else { state };
            states[k] = Some(state);
            pass_one(code, states, k, code.get(k), state);
        }
    }
}

fn list_of(
    alloc: Global,
    code: &Code,
    random: &mut Random,
    widens: bool,
) -> Option<Vec<Option<State>>> {
    let mut states = vec![in alloc; None; code.len()].ok()?;
    states[0] = Some(State::entry());
    pass(code, &mut states, random, widens);
    Some(states)
}

/// What `check` answers of such a list: the fault, or none where it accepts the list.
fn fault_of(
    alloc: Global,
    image: &[u8],
    random: &mut Random,
    widens: bool,
) -> Option<Option<VerifyFault>> {
    let code = decode(alloc, image).ok()?;
    let states = list_of(alloc, &code, random, widens)?;
    match check(alloc, code, Table::One, states) {
        Ok(_) => Some(None),
        Err(fault) => Some(Some(fault)),
    }
}

/// Whether `check` accepts the joined states and keeps as many as `load`, and accepts a list of
/// joined states made anew.
fn agrees_accepted(
    alloc: Global,
    image: &[u8],
    random: &mut Random,
    verified: &Verified,
) -> Option<bool> {
    let code = decode(alloc, image).ok()?;
    let states = joined_states(alloc, &code, Table::One).ok()?;
    let kept = verified.kept();
    let again = fault_of(alloc, image, random, false)?;
    match check(alloc, code, Table::One, states) {
        Ok(same) => Some(same.kept() == kept && again.is_none()),
        Err(_) => Some(false),
    }
}

/// Whether `check` refuses the joined states with the same fault.
fn agrees_refused(
    alloc: Global,
    image: &[u8],
    random: &mut Random,
    fault: VerifyFault,
) -> Option<bool> {
    let again = fault_of(alloc, image, random, false)?;
    Some(again == Some(fault))
}

/// Whether `check` refuses a list of wider states, at the same instruction or before it.
fn refuses_wider(
    alloc: Global,
    image: &[u8],
    random: &mut Random,
    fault: VerifyFault,
) -> Option<bool> {
    match fault_of(alloc, image, random, true)? {
        Some(other) => Some(other.pc <= fault.pc && other.kind != Check::Memory),
        None => Some(false),
    }
}

fn claim(tally: &mut Tally, agrees: Option<bool>) {
    match agrees {
        None => count(&mut tally.out_of_memory),
        Some(true) => {}
        Some(false) => count(&mut tally.differ),
    }
}

fn compare_refused(
    alloc: Global,
    image: &[u8],
    random: &mut Random,
    tally: &mut Tally,
    fault: VerifyFault,
) {
    count(&mut tally.refused);
    let agrees = agrees_refused(alloc, image, random, fault);
    claim(tally, agrees);
    for _ in 0..WIDENINGS {
        count(&mut tally.widened);
        let agrees = refuses_wider(alloc, image, random, fault);
        claim(tally, agrees);
    }
}

/// Makes a program and compares what the two answer.
pub(crate) fn compare_one(alloc: Global, random: &mut Random, tally: &mut Tally) {
    let Some(image) = random_image(alloc, random) else {
        count(&mut tally.out_of_memory);
        return;
    };
    match load(alloc, &image, Table::One) {
        Ok(verified) => {
            count(&mut tally.accepted);
            let agrees = agrees_accepted(alloc, &image, random, &verified);
            claim(tally, agrees);
        }
        Err(LoadFault::Verify(fault)) => compare_refused(alloc, &image, random, tally, fault),
        Err(LoadFault::Isa(_)) => count(&mut tally.differ),
    }
}
