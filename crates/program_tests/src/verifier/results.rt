//! What is known at the next instruction and at the target of a jump.

use crate::programs::instruction_of;
use crate::tables::{all_hold, three};
use crate::verifier::kinds::{is_kind, kind_of_text};
use crate::verifier::states::{
    Lengths, are_same, edges, has_kinds, is_entry, of_lengths, with_two,
};
use abstract_regs::{Abs, State};
use machine_spec::{Distance, Instruction, Region, Source, Test, Width};
use std::alloc::Global;
use std::test::*;

/// Kinds of r1 and r2, an instruction, and the kind of r1 afterwards.
static RESULTS: &str = "\
# sums
5 to 9 | 2 to 3 | add64 r1, r2 | 7 to 12
1 to 18446744073709551614 | 1 to 1 | add64 r1, r2 | 2 to 18446744073709551615
1 to 18446744073709551614 | 1 to 2 | add64 r1, r2 | 0 to 18446744073709551615
0 to 18446744073709551615 | 1 to 1 | add64 r1, r2 | 0 to 18446744073709551615
length of Key | 1 to 2 | add64 r1, r2 | 1 to 4098
0 to 0 | length of Value | add64 r1, r2 | 0 to 1048576
Value 0 to 4 | 1 to 3 | add64 r1, r2 | Value 1 to 7
Key 9 to 9 | 18446744073709551607 to 18446744073709551615 | add64 r1, r2 | Key 0 to 8
Stack 512 to 512 | none | add64 r1, -8 | Stack 504 to 504
# other operations
5 to 9 | 3 to 3 | and64 r1, r2 | 0 to 3
0 to 5 | 0 to 8 | or64 r1, r2 | 0 to 15
5 to 9 | 2 to 3 | sub64 r1, r2 | 2 to 7
2 to 3 | 4 to 5 | mul64 r1, r2 | 8 to 15
2 to 3 | 65 to 65 | lsh64 r1, r2 | 4 to 6
";

/// Whether a row's instruction leaves this kind in r1.
fn has_result(alloc: Global, row: &str) -> Option<bool> {
    let (first, second, rest) = three(row)?;
    let (line, want) = rest.split_once(" | ")?;
    let state = with_two(kind_of_text(first)?, kind_of_text(second)?)?;
    Some(is_kind(&edges(&state, instruction_of(alloc, line)?).0, 1, want))
}

#[test]
fn computes_intervals(rt: HostRuntime) {
    all_hold(&rt, RESULTS, |row| has_result(rt.alloc(), row));
}

/// Instructions at the start, a register, and its kind afterwards.
static MOVES: &str = "\
mov64 r6, r2 | 6 | length of Value
mov64 r6, 7 | 6 | 7 to 7
mov64 r6, -1 | 6 | 18446744073709551615 to 18446744073709551615
add64 r10, -8 | 10 | refused
";

/// The same where key and value have eight bytes.
static LOADS: &str = "\
ld8 r0, [r1+0] | 0 | 0 to 255
ld16 r0, [r1+0] | 0 | 0 to 65535
ld32 r0, [r1+0] | 0 | 0 to 4294967295
ld64 r0, [r1+0] | 0 | 0 to 18446744073709551615
lds8 r0, [r1+0] | 0 | 0 to 18446744073709551615
lds16 r0, [r1+0] | 0 | 0 to 18446744073709551615
lds32 r0, [r1+0] | 0 | 0 to 18446744073709551615
imm64 r0, 8589934591 | 0 | 8589934591 to 8589934591
";

/// Whether a row's instruction leaves this kind.
fn leaves(alloc: Global, state: &Option<State>, row: &str) -> Option<bool> {
    let (line, register, want) = three(row)?;
    let next = edges(state.as_ref()?, instruction_of(alloc, line)?).0;
    Some(is_kind(&next, register.parse().ok()?, want))
}

#[test]
fn sets_registers(rt: HostRuntime) {
    let (start, eight) = (Some(State::entry()), of_lengths(&(8, 8, 8, 8)));
    all_hold(&rt, MOVES, |row| leaves(rt.alloc(), &start, row));
    all_hold(&rt, LOADS, |row| leaves(rt.alloc(), &eight, row));
}

/// A kind of r1, a jump, and its kinds where it is taken and where it isn't.
static NARROWED: &str = "\
5 to 9 | jeq64 r1, 5, +1 | 5 to 5 | 6 to 9
5 to 9 | jeq64 r1, 9, +1 | 9 to 9 | 5 to 8
5 to 9 | jeq64 r1, 7, +1 | 7 to 7 | 5 to 9
5 to 9 | jeq64 r1, 4, +1 | refused | 5 to 9
5 to 9 | jeq64 r1, -1, +1 | refused | 5 to 9
5 to 9 | jne64 r1, 5, +1 | 6 to 9 | 5 to 5
5 to 9 | jne64 r1, 9, +1 | 5 to 8 | 9 to 9
5 to 9 | jne64 r1, 10, +1 | 5 to 9 | refused
5 to 9 | jgt64 r1, 4, +1 | 5 to 9 | refused
5 to 9 | jgt64 r1, 5, +1 | 6 to 9 | 5 to 5
5 to 9 | jgt64 r1, 9, +1 | refused | 5 to 9
5 to 9 | jgt64 r1, -1, +1 | refused | 5 to 9
5 to 9 | jge64 r1, 5, +1 | 5 to 9 | refused
5 to 9 | jge64 r1, 9, +1 | 9 to 9 | 5 to 8
5 to 9 | jge64 r1, 10, +1 | refused | 5 to 9
5 to 9 | jge64 r1, 0, +1 | 5 to 9 | refused
5 to 9 | jlt64 r1, 5, +1 | refused | 5 to 9
5 to 9 | jlt64 r1, 9, +1 | 5 to 8 | 9 to 9
5 to 9 | jlt64 r1, 0, +1 | refused | 5 to 9
5 to 9 | jle64 r1, 4, +1 | refused | 5 to 9
5 to 9 | jle64 r1, 5, +1 | 5 to 5 | 6 to 9
5 to 9 | jle64 r1, 9, +1 | 5 to 9 | refused
5 to 5 | jeq64 r1, 5, +1 | 5 to 5 | refused
";

fn is_narrowed(alloc: Global, row: &str) -> Option<bool> {
    let (kind, line, rest) = three(row)?;
    let (taken, other) = rest.split_once(" | ")?;
    let state = with_two(kind_of_text(kind)?, Abs::None)?;
    let (next, target) = edges(&state, instruction_of(alloc, line)?);
    Some(is_kind(&target, 1, taken) && is_kind(&next, 1, other))
}

#[test]
fn narrows_both_ways(rt: HostRuntime) {
    all_hold(&rt, NARROWED, |row| is_narrowed(rt.alloc(), row));
}

/// A register with a length, a constant, and the lengths where it is less and where it is not.
type Bounded = (u8, i32, Lengths, Lengths);

static BOUNDED: [Bounded; 2] = [
    (2, 16, (0, 4096, 0, 15), (0, 4096, 16, 1_048_576)),
    (4, 4, (0, 3, 0, 1_048_576), (4, 4096, 0, 1_048_576)),
];

/// Whether this is the state of the start with these lengths.
fn has_lengths(state: &Option<State>, lengths: &Lengths) -> bool {
    match (state, of_lengths(lengths)) {
        (Some(state), Some(want)) => are_same(state, &want),
        _ => false,
    }
}

fn is_bounded(row: &Bounded) -> bool {
    let jump = Instruction::JumpIf(
        Width::Bits64,
        Test::Less,
        row.0,
        Source::Immediate(row.1),
        1,
    );
    let (next, target) = edges(&State::entry(), jump);
    has_lengths(&target, &row.2) && has_lengths(&next, &row.3)
}

#[test]
fn bounds_lengths(rt: HostRuntime) {
    assert!(rt; is_bounded(&BOUNDED[0]));
    assert!(rt; is_bounded(&BOUNDED[1]));
}

/// Whether a jump leads from the start to its target alone, and changes nothing.
fn leads_on(distance: Distance) -> bool {
    let (next, target) = edges(&State::entry(), Instruction::Jump(distance));
    next.is_none() && is_entry(target)
}

#[test]
fn jumps_without_a_condition(rt: HostRuntime) {
    assert!(rt; leads_on(Distance::Short(1)));
    assert!(rt; leads_on(Distance::Long(1)));
}

/// The kinds after a call.
static SPENT: [Abs; 11] = [
    Abs::Num(0, 3),
    Abs::None,
    Abs::None,
    Abs::None,
    Abs::None,
    Abs::None,
    Abs::None,
    Abs::None,
    Abs::None,
    Abs::None,
    Abs::Addr(Region::Stack, 512, 512),
];

/// The state after r1 = 0 at the start and a call of helper 3.
fn after_call() -> Option<State> {
    let zero = Instruction::Move(Width::Bits64, 1, Source::Immediate(0));
    let ready = edges(&State::entry(), zero).0?;
    edges(&ready, Instruction::Call(3)).0
}

/// Whether a call spends the registers, and nothing follows on the exit after it.
fn is_spent() -> bool {
    match after_call() {
        Some(state) => has_kinds(&state, &SPENT) && is_end(&state),
        None => false,
    }
}

/// Whether nothing follows on an exit.
fn is_end(state: &State) -> bool {
    let (next, target) = edges(state, Instruction::Exit);
    next.is_none() && target.is_none()
}

#[test]
fn spends_registers_in_calls(rt: HostRuntime) {
    assert!(rt; is_spent());
}
