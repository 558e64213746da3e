//! Programs by the states of some instructions: what is kept, what follows, and what is refused.

use crate::programs::{image_of, program_of};
use crate::tables::{all_hold, three};
use crate::verifier::images::{is_text, joined, regions_in};
use abstract_regs::State;
use bpf_isa::{Code, decode};
use machine_spec::{Region, Table};
use notes::check_sparse;
use std::alloc::Global;
use std::test::*;
use verifier_spec::LoadFault;

static FIRST_BYTE: &str = "mov64 r0, 0; jlt64 r2, 1, +1; ld8 r0, [r1+0]; exit";

static UNREACHED: &str = "mov64 r0, 0; ja +1; ld8 r0, [r1+0]; exit";

/// Whether a load keeps so many states, and the third instruction has this region.
fn keeps(alloc: Global, program: &str, kept: usize, region: Option<Region>) -> bool {
    match program_of(alloc, program, Table::One) {
        Some(verified) => verified.kept() == kept
            && regions_in(&verified, 2) == Some((4, region, None)),
        None => false,
    }
}

fn keeps_none(alloc: Global, program: &str) -> bool {
    match program_of(alloc, program, Table::One) {
        Some(verified) => verified.kept() == 0,
        None => false,
    }
}

/// An instruction that no jump and no other instruction leads to has no region.
#[test]
fn loads_keep_the_states_of_jump_targets(rt: HostRuntime) {
    let alloc = rt.alloc();
    assert!(rt; keeps_none(alloc, "mov64 r0, 0; exit"));
    assert!(rt; keeps(alloc, FIRST_BYTE, 1, Some(Region::Value)));
    assert!(rt; keeps(alloc, UNREACHED, 1, None));
}

/// How many states the check under a helper table keeps of code and states with numbers.
fn kept_of(
    alloc: Global,
    code: Code,
    table: Table,
    pairs: Vec<(usize, State)>,
) -> Result<usize, LoadFault> {
    match check_sparse(alloc, code, table, pairs) {
        Ok(verified) => Ok(verified.kept()),
        Err(fault) => Err(LoadFault::Verify(fault)),
    }
}

/// A number with a state: that of the start, or the joined one of an instruction.
fn pair_of(alloc: Global, image: &[u8], word: &str) -> Option<(usize, State)> {
    let (number, which) = word.split_once(':')?;
    let number = number.parse().ok()?;
    match which {
        "entry" => Some((number, State::entry())),
        _ => Some((
            number,
            joined(alloc, Table::One, image, which.parse().ok()?)?,
        )),
    }
}

fn pairs_of(alloc: Global, image: &[u8], words: &str) -> Option<Vec<(usize, State)>> {
    let mut pairs = Vec::new(alloc);
    for word in words.split_whitespace() {
        pairs.push(pair_of(alloc, image, word)?).ok()?;
    }
    Some(pairs)
}

/// What the check answers of a program and states with numbers. None where it has no code or memory ran out.
fn kept_by(
    alloc: Global,
    table: Table,
    image: &[u8],
    words: &str,
) -> Option<Result<usize, LoadFault>> {
    match (decode(alloc, image), pairs_of(alloc, image, words)) {
        (Ok(code), Some(pairs)) => Some(kept_of(alloc, code, table, pairs)),
        _ => None,
    }
}

/// Whether a row's answer is the check's.
fn is_answered(alloc: Global, table: Table, row: &str) -> Option<bool> {
    let (program, words, want) = three(row)?;
    let image = image_of(alloc, program)?;
    let answer = kept_by(alloc, table, &image, words)?;
    Some(is_text(alloc, "kept", answer, want))
}

/// Programs, numbers with their states, and the answer under table one.
static ONE: &str = "\
mov64 r0, 0; exit |  | kept 0
# the states follow from those of jump targets
mov64 r0, 0; jlt64 r2, 1, +1; ld8 r0, [r1+0]; exit | 3:3 | kept 1
mov64 r0, 0; jlt64 r2, 1, +1; ld8 r0, [r1+0]; exit |  | V15 Notes at 1
# nothing follows on an instruction that fails a check: no state covers the first jump's edge; the second jumps out
mov64 r0, 0; jlt64 r2, r4, +1; jlt64 r2, r4, +100; exit |  | V15 Notes at 1
mov64 r0, 0; jlt64 r2, r4, +1; jlt64 r2, r4, +100; exit | 3:1 | V1 JumpTarget at 2
# states elsewhere are taken where they are given, and not kept
mov64 r0, 0; exit | 0:entry 1:1 | kept 0
mov64 r0, 0; exit | 0:1 | V15 Notes at 0
mov64 r0, 0; exit | 1:entry | V4 Unset at 1
# the numbers rise and are those of instructions
mov64 r0, 0; exit | 2:1 | V15 Notes at 0
mov64 r0, 0; exit | 1:1 0:entry | V15 Notes at 0
mov64 r0, 0; exit | 1:1 1:1 | V15 Notes at 0
# the states follow under the table that the check is given
call 10; exit |  | V11 Helper at 0
";

static TWO: &str = "\
call 10; exit |  | kept 0
";

#[test]
fn states_with_numbers(rt: HostRuntime) {
    let alloc = rt.alloc();
    all_hold(&rt, ONE, |row| is_answered(alloc, Table::One, row));
    all_hold(&rt, TWO, |row| is_answered(alloc, Table::Two, row));
}
