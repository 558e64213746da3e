//! Programs by a state of each instruction.

use crate::programs::image_of;
use crate::tables::{all_hold, three};
use crate::verifier::images::regions_in;
use crate::verifier::states::{first_kinds, no_bytes};
use abstract_regs::State;
use bpf_isa::decode;
use machine_spec::{Region, Table};
use notes::{Verified, check};
use std::alloc::{AllocError, Global};
use std::test::*;
use verifier_spec::{Abs, VerifyFault};

/// The state of the start with the greatest number in r0 and the value's least length.
fn with(most: u64, value_min: u32) -> Option<State> {
    let mut kinds = first_kinds();
    kinds[0] = Abs::Num(0, most);
    State::new(kinds, 0, 4096, value_min, 1_048_576, no_bytes())
}

/// The state after a call at the start, with the greatest number in r0.
fn called(most: u64) -> Option<State> {
    let mut kinds = [Abs::None; 11];
    kinds[0] = Abs::Num(0, most);
    kinds[10] = Abs::Addr(Region::Stack, 512, 512);
    State::new(kinds, 0, 4096, 0, 1_048_576, no_bytes())
}

/// What a word claims of an instruction: `-` that it is not reached, `entry` the state of the start, `call:16` that
/// after a call, and `255:1` the state of the start with these numbers. None where it can't be read.
fn claim_of(word: &str) -> Option<Option<State>> {
    match word.split_once(':') {
        None if word == "-" => Some(None),
        None if word == "entry" => Some(Some(State::entry())),
        None => None,
        Some(("call", most)) => Some(called(most.parse().ok()?)),
        Some((most, least)) => Some(with(most.parse().ok()?, least.parse().ok()?)),
    }
}

fn claims_of(alloc: Global, words: &str) -> Option<Vec<Option<State>>> {
    let mut states = Vec::new(alloc);
    for word in words.split_whitespace() {
        states.push(claim_of(word)?).ok()?;
    }
    Some(states)
}

/// What the check answers of a program and claims. None where it has no code or memory ran out.
fn checked(
    alloc: Global,
    table: Table,
    program: &str,
    claims: &str,
) -> Option<Result<Verified, VerifyFault>> {
    let image = image_of(alloc, program)?;
    match (decode(alloc, &image), claims_of(alloc, claims)) {
        (Ok(code), Some(states)) => Some(check(alloc, code, table, states)),
        _ => None,
    }
}

/// The region of an instruction that has one alone.
fn region_of(verified: &Verified, k: usize) -> Option<Region> {
    match regions_in(verified, k) {
        Some((_, first, None)) => first,
        _ => None,
    }
}

fn program_text(alloc: Global, verified: &Verified) -> Result<String, AllocError> {
    let (count, kept) = (verified.code().len(), verified.kept());
    let (first, second, third) = (
        region_of(verified, 0),
        region_of(verified, 1),
        region_of(verified, 2),
    );
    format!(in alloc; "accepted {count} kept {kept} {first:?} {second:?} {third:?}")
}

/// How many instructions a program has, how many states it keeps, and the regions of the first three; or the fault.
fn answer_text(
    alloc: Global,
    answer: &Result<Verified, VerifyFault>,
) -> Result<String, AllocError> {
    match answer {
        Ok(verified) => program_text(alloc, verified),
        Err(fault) => format!(in alloc; "{fault}"),
    }
}

/// Whether a row's answer is the check's.
fn is_answered(alloc: Global, table: Table, row: &str) -> Option<bool> {
    let (program, claims, want) = three(row)?;
    let answer = checked(alloc, table, program, claims)?;
    let text = answer_text(alloc, &answer).ok()?;
    Some(text.as_str() == want)
}

/// Programs, a claim for each instruction, and the answer under table one.
static ONE: &str = "\
mov64 r0, 0; exit | entry 0:0 | accepted 2 kept 0 None None None
mov64 r0, 0; jlt64 r2, 1, +1; ld8 r0, [r1+0]; exit | entry 0:0 0:1 255:0 | accepted 4 kept 1 None None Some(Value)
# another length than the code's, reported before the missing exit
mov64 r0, 0; exit | entry | V15 Notes at 0
mov64 r0, 0 |  | V15 Notes at 0
# a first state that doesn't cover the entry
mov64 r0, 0; exit | - 0:0 | V15 Notes at 0
mov64 r0, 0; exit | 0:1 0:1 | V15 Notes at 0
# an edge that is not covered
mov64 r0, 0; exit | entry - | V15 Notes at 0
mov64 r0, 0; jlt64 r2, 1, +1; ld8 r0, [r1+0]; exit | entry 0:0 0:2 255:0 | V15 Notes at 1
mov64 r0, 0; jlt64 r2, 1, +1; ld8 r0, [r1+0]; exit | entry 0:0 0:1 255:1 | V15 Notes at 1
mov64 r0, 0; jlt64 r2, 1, +1; ld8 r0, [r1+0]; exit | entry 0:0 0:1 0:0 | V15 Notes at 2
# where jumps lead and how the code ends, reported before an instruction's other checks
jlt64 r2, 1, +5; exit | entry 0:0 | V1 JumpTarget at 0
jlt64 r2, 1, -1 | entry | V2 BackJump at 0
ld8 r0, [r1+0] | entry | V3 RunsOff at 0
mov64 r0, 0; exit; jlt64 r2, 1, +5; exit | entry 0:0 - - | V1 JumpTarget at 2
# the lowest instruction that fails a check, with its own checks before its edges
ld8 r0, [r1+0]; exit | entry 255:0 | V7 RecordBounds at 0
ld8 r0, [r1+0]; exit | entry - | V7 RecordBounds at 0
mov64 r0, 0; ld8 r0, [r1+0]; ld8 r0, [r1+0] | entry 0:0 0:0 | V7 RecordBounds at 1
exit | entry | V4 Unset at 0
# an instruction that is not reached has no others
mov64 r0, 0; exit; ld8 r0, [r1+0]; exit | entry 0:0 - - | accepted 4 kept 0 None None None
# the same list is an annotation under one helper table and none under the other
call 10; exit | entry call:16 | V11 Helper at 0
";

static TWO: &str = "\
call 10; exit | entry call:16 | accepted 2 kept 0 None None None
call 10; exit | entry call:15 | V15 Notes at 0
";

#[test]
fn states_of_instructions(rt: HostRuntime) {
    let alloc = rt.alloc();
    all_hold(&rt, ONE, |row| is_answered(alloc, Table::One, row));
    all_hold(&rt, TWO, |row| is_answered(alloc, Table::Two, row));
}
