//! Programs of the tests, and what loads answer of them.

use abstract_regs::State;
use annotate::{joined_states, load};
use bpf_isa::{Code, decode};
use machine_spec::{Region, Table};
use notes::{Verified, claim_at};
use std::alloc::{AllocError, Global};
use verifier_spec::LoadFault;

fn state_at(states: &[Option<State>], k: usize) -> Option<State> {
    match claim_at(states, k) {
        Some(state) => Some(*state),
        None => None,
    }
}

fn joined_in(alloc: Global, table: Table, code: &Code, k: usize) -> Option<State> {
    match joined_states(alloc, code, table) {
        Ok(states) => state_at(&states, k),
        Err(_) => None,
    }
}

/// The joined state of an instruction. None where it is not reached or memory ran out.
pub(crate) fn joined(alloc: Global, table: Table, image: &[u8], k: usize) -> Option<State> {
    match decode(alloc, image) {
        Ok(code) => joined_in(alloc, table, &code, k),
        Err(_) => None,
    }
}

fn count_text(alloc: Global, word: &str, count: usize) -> Result<String, AllocError> {
    format!(in alloc; "{word} {count}")
}

fn fault_text(alloc: Global, fault: LoadFault) -> Result<String, AllocError> {
    format!(in alloc; "{fault}")
}

/// A number after a word, or the fault.
fn text_of(
    alloc: Global,
    word: &str,
    answer: Result<usize, LoadFault>,
) -> Result<String, AllocError> {
    match answer {
        Ok(count) => count_text(alloc, word, count),
        Err(fault) => fault_text(alloc, fault),
    }
}

/// Whether this is that text.
pub(crate) fn is_text(
    alloc: Global,
    word: &str,
    answer: Result<usize, LoadFault>,
    want: &str,
) -> bool {
    match text_of(alloc, word, answer) {
        Ok(got) => got.as_str() == want,
        Err(_) => false,
    }
}

/// How many instructions a load under a helper table accepts.
pub(crate) fn accepted(alloc: Global, table: Table, image: &[u8]) -> Result<usize, LoadFault> {
    match load(alloc, image, table) {
        Ok(verified) => Ok(verified.code().len()),
        Err(fault) => Err(fault),
    }
}

/// How many instructions a program has, and the regions of one of them.
pub(crate) type Regions = (usize, Option<Region>, Option<Region>);

/// None where there is no such instruction.
pub(crate) fn regions_in(verified: &Verified, k: usize) -> Option<Regions> {
    let count = verified.code().len();
    if k >= count {
        return None;
    }
    let (first, second) = verified.regions(k);
    Some((count, first, second))
}
