//! Abstract states: their ranges and their order.

use crate::tables::{all_hold, three};
use crate::verifier::kinds::kind_of_text;
use abstract_regs::{Abs, StackSet, State};
use machine_spec::{Instruction, Region, Table};
use std::test::*;

/// The kinds at the start of a run.
pub(crate) fn first_kinds() -> [Abs; 11] {
    [
        Abs::None,
        Abs::Addr(Region::Value, 0, 0),
        Abs::Len(Region::Value),
        Abs::Addr(Region::Key, 0, 0),
        Abs::Len(Region::Key),
        Abs::Num(0, 3),
        Abs::None,
        Abs::None,
        Abs::None,
        Abs::None,
        Abs::Addr(Region::Stack, 512, 512),
    ]
}

pub(crate) fn no_bytes() -> StackSet {
    StackSet { words: [0; 8] }
}

/// A state with the lengths of the start, two kinds in r1 and r2, and no others but r10's.
pub(crate) fn with_two(first: Abs, second: Abs) -> Option<State> {
    let mut kinds = [Abs::None; 11];
    kinds[1] = first;
    kinds[2] = second;
    kinds[10] = Abs::Addr(Region::Stack, 512, 512);
    State::new(kinds, 0, 4096, 0, 1_048_576, no_bytes())
}

/// The state of the start with other lengths.
pub(crate) fn with_lengths(
    key_min: u32,
    key_max: u32,
    value_min: u32,
    value_max: u32,
) -> Option<State> {
    State::new(
        first_kinds(),
        key_min,
        key_max,
        value_min,
        value_max,
        no_bytes(),
    )
}

pub(crate) fn are_same(a: &State, b: &State) -> bool {
    a.within(b) && b.within(a)
}

/// The states at the next instruction and at the jump's target, none where a check fails.
pub(crate) fn edges(state: &State, instruction: Instruction) -> (Option<State>, Option<State>) {
    match state.check(instruction, Table::Two) {
        None => {
            let edges = state.transfer(instruction);
            (edges.next, edges.jump)
        }
        Some(_) => (None, None),
    }
}

/// The state of the start with these last 64 bytes of the stack set.
pub(crate) fn with_bytes(last: u64) -> Option<State> {
    let set = StackSet {
        words: [0, 0, 0, 0, 0, 0, 0, last],
    };
    State::new(first_kinds(), 0, 4096, 0, 1_048_576, set)
}

pub(crate) fn has_kinds(state: &State, kinds: &[Abs]) -> bool {
    for (register, kind) in kinds.iter().enumerate() {
        if state.kind(register) != *kind {
            return false;
        }
    }
    true
}

pub(crate) fn is_entry(state: Option<State>) -> bool {
    match state {
        Some(state) => are_same(&State::entry(), &state),
        None => false,
    }
}

#[test]
fn begins_with_the_arguments(rt: HostRuntime) {
    assert!(rt; has_kinds(&State::entry(), &first_kinds()));
    assert!(rt; State::entry().kind(11) == Abs::None);
    assert!(rt; is_entry(with_lengths(0, 4096, 0, 1_048_576)));
}

/// Kinds, and whether a state has them.
static KINDS: &str = "\
3 to 2 | false
length of Stack | false
Value 5 to 4 | false
Value 0 to 4294967297 | false
Key -4294967297 to 0 | false
3 to 3 | true
0 to 18446744073709551615 | true
length of Key | true
Key -4294967296 to 4294967296 | true
";

/// Whether an answer is the one that a text says.
fn is_answer(answer: bool, want: &str) -> bool {
    match want {
        "true" => answer,
        "false" => !answer,
        _ => false,
    }
}

/// Whether a row says if a state has its kind.
fn is_kind_of_states(row: &str) -> Option<bool> {
    let (kind, want) = row.split_once(" | ")?;
    Some(is_answer(with_two(kind_of_text(kind)?, Abs::None).is_some(), want))
}

/// Least and greatest length of the key and of the value.
pub(crate) type Lengths = (u32, u32, u32, u32);

/// Lengths, and whether a state has them.
static LENGTHS: [(Lengths, bool); 5] = [
    ((5, 4, 0, 0), false),
    ((0, 4097, 0, 0), false),
    ((0, 0, 5, 4), false),
    ((0, 0, 0, 1_048_577), false),
    ((4096, 4096, 1_048_576, 1_048_576), true),
];

pub(crate) fn of_lengths(lengths: &Lengths) -> Option<State> {
    with_lengths(lengths.0, lengths.1, lengths.2, lengths.3)
}

fn first_other_lengths(rows: &[(Lengths, bool)]) -> Option<usize> {
    for (k, row) in rows.iter().enumerate() {
        if of_lengths(&row.0).is_some() != row.1 {
            return Some(k);
        }
    }
    None
}

#[test]
fn refuses_what_is_out_of_range(rt: HostRuntime) {
    all_hold(&rt, KINDS, |row| is_kind_of_states(row));
    let other = first_other_lengths(&LENGTHS);
    assert!(rt; other.is_none(), "{other:?}");
}

/// Two kinds, and whether a state with the first in r1 is within one with the second.
static ORDERED: &str = "\
3 to 7 | none | true
none | 0 to 18446744073709551615 | false
3 to 7 | 3 to 7 | true
3 to 7 | 4 to 7 | false
3 to 7 | 3 to 6 | false
length of Key | 0 to 4096 | true
length of Key | 0 to 4095 | false
length of Value | 0 to 1048576 | true
length of Key | length of Value | false
0 to 0 | length of Value | false
Value 1 to 2 | Value 0 to 2 | true
Value 1 to 2 | Value 2 to 2 | false
Value 1 to 2 | Value 1 to 1 | false
Value 1 to 2 | Key 1 to 2 | false
Value 1 to 2 | 0 to 18446744073709551615 | false
";

/// Whether the first state is within the second. None where one of them is not.
fn is_within(inner: Option<State>, outer: Option<State>) -> Option<bool> {
    Some(inner?.within(&outer?))
}

/// Whether a row's order is that of the states.
fn is_ordered(row: &str) -> Option<bool> {
    let (inner, outer, want) = three(row)?;
    let (inner, outer) = (kind_of_text(inner)?, kind_of_text(outer)?);
    let answer = is_within(with_two(inner, Abs::None), with_two(outer, Abs::None))?;
    Some(is_answer(answer, want))
}

#[test]
fn orders_states(rt: HostRuntime) {
    all_hold(&rt, ORDERED, |row| is_ordered(row));
}

/// Lengths, and whether they are within 2 to 9 for both.
static WITHIN: [(Lengths, bool); 6] = [
    ((2, 9, 2, 9), true),
    ((3, 8, 3, 8), true),
    ((1, 9, 2, 9), false),
    ((2, 10, 2, 9), false),
    ((2, 9, 1, 9), false),
    ((2, 9, 2, 10), false),
];

fn first_other_within(rows: &[(Lengths, bool)]) -> Option<usize> {
    for (k, row) in rows.iter().enumerate() {
        if is_within(of_lengths(&row.0), of_lengths(&(2, 9, 2, 9))) != Some(row.1) {
            return Some(k);
        }
    }
    None
}

/// Sets of the last bytes, and whether the first is within the second: it has all its bytes.
static SETS: [(u64, u64, bool); 4] = [(0, 0, true), (3, 1, true), (1, 3, false), (2, 1, false)];

fn first_other_set(rows: &[(u64, u64, bool)]) -> Option<usize> {
    for (k, row) in rows.iter().enumerate() {
        if is_within(with_bytes(row.0), with_bytes(row.1)) != Some(row.2) {
            return Some(k);
        }
    }
    None
}

#[test]
fn orders_lengths_and_bytes(rt: HostRuntime) {
    let (lengths, set) = (first_other_within(&WITHIN), first_other_set(&SETS));
    assert!(rt; lengths.is_none() && set.is_none(), "{lengths:?} {set:?}");
}
