//! Which check of an instruction fails first.

use crate::programs::instruction_of;
use crate::tables::{all_hold, three};
use crate::verifier::kinds::kind_of_text;
use crate::verifier::states::{edges, with_bytes, with_lengths, with_two};
use abstract_regs::{Abs, Check, State};
use machine_spec::{Instruction, Source, Table, Width};
use std::alloc::{AllocError, Global};
use std::test::*;

fn check_text(alloc: Global, check: Option<Check>) -> Result<String, AllocError> {
    match check {
        Some(check) => format!(in alloc; "{check}"),
        None => String::from_str(alloc, "none"),
    }
}

fn is_check(alloc: Global, check: Option<Check>, want: &str) -> bool {
    match check_text(alloc, check) {
        Ok(text) => text.as_str() == want,
        Err(_) => false,
    }
}

/// Whether a row's instruction fails its check first in a state under table one.
fn fails(alloc: Global, state: &State, row: &str) -> Option<bool> {
    let (line, want) = row.split_once(" | ")?;
    let instruction = instruction_of(alloc, line)?;
    Some(is_check(alloc, state.check(instruction, Table::One), want))
}

/// The same of a state that there may not be.
fn fails_in(alloc: Global, state: &Option<State>, row: &str) -> Option<bool> {
    match state {
        Some(state) => fails(alloc, state, row),
        None => None,
    }
}

/// Checks at the start.
static CHECKED: &str = "\
mov64 r10, r0 | V6 Frame
call 99 | V11 Helper
call -3 | V11 Helper
mov64 r6, r0 | V4 Unset
exit | V4 Unset
add64 r1, r3 | V5 Type
add64 r2, r1 | V5 Type
ld8 r0, [r2+0] | V5 Type
jeq64 r1, 0, +1 | V5 Type
ld8 r0, [r1+0] | V7 RecordBounds
ld8 r0, [r3-1] | V7 RecordBounds
ld8 r0, [r10+0] | V8 StackBounds
ld8 r0, [r10-513] | V8 StackBounds
ld8 r0, [r10-1] | V9 StackUnset
call 3 | V12 HelperArg
mov64 r6, r5 | none
add64 r1, r2 | none
# a comparison of a number is allowed
jeq64 r5, 0, +1 | none
";

/// No text names r11.
const NO_REGISTER: Instruction = Instruction::Move(Width::Bits64, 6, Source::Register(11));

/// The state after r0 = r1 at the start.
fn with_address() -> Option<State> {
    let copy = Instruction::Move(Width::Bits64, 0, Source::Register(1));
    edges(&State::entry(), copy).0
}

#[test]
fn checks_in_order(rt: HostRuntime) {
    let start = State::entry();
    all_hold(&rt, CHECKED, |row| fails(rt.alloc(), &start, row));
    assert!(rt; start.check(NO_REGISTER, Table::One) == Some(Check::Unset));
    assert!(rt; fails_in(rt.alloc(), &with_address(), "exit | V13 Exit") == Some(true));
}

/// Instructions that fail two checks at the start.
static TWO_FAULTS: &str = "\
# V6 and V4, V5, V7, V8, V9
mov64 r10, r0 | V6 Frame
add64 r10, r1 | V6 Frame
ld8 r10, [r1+0] | V6 Frame
ld8 r10, [r10+0] | V6 Frame
ld8 r10, [r10-1] | V6 Frame
# V4 and V5, V10, V7
add64 r1, r0 | V4 Unset
st8 [r0+0], 0 | V4 Unset
stx8 [r1+0], r0 | V4 Unset
# V5 and V10, V7, V8
stx8 [r1+0], r3 | V5 Type
stx8 [r10+0], r3 | V5 Type
# V10 and V7
st8 [r1+0], 0 | V10 ReadOnly
stx8 [r3+0], r2 | V10 ReadOnly
# V8 and V9
ld8 r0, [r10+0] | V8 StackBounds
# V4 and V13
exit | V4 Unset
";

/// V4 and V13, and V4 and V12, where no register but r10 is set.
static UNSET: &str = "\
exit | V4 Unset
call 3 | V4 Unset
";

/// Of two checks that an instruction fails the one before the other is reported.
#[test]
fn reports_the_first_of_two_faults(rt: HostRuntime) {
    let start = State::entry();
    all_hold(&rt, TWO_FAULTS, |row| fails(rt.alloc(), &start, row));
    let bare = with_two(Abs::None, Abs::None);
    all_hold(&rt, UNSET, |row| fails_in(rt.alloc(), &bare, row));
}

/// An address in r1, a number in r2, and the check that their sum fails.
static NEAR: &str = "\
Value 0 to 0 | 0 to 4294967296 | none
Value 0 to 0 | 0 to 4294967297 | V5 Type
Value -4294967296 to 0 | 18446744073709551615 to 18446744073709551615 | V5 Type
Value 0 to 0 | 9223372036854775807 to 9223372036854775808 | V5 Type
Value 0 to 0 | 0 to 18446744073709551615 | V5 Type
";

/// Whether the sum of a row's kinds fails its check.
fn sum_fails(alloc: Global, row: &str) -> Option<bool> {
    let (first, second, want) = three(row)?;
    let state = with_two(kind_of_text(first)?, kind_of_text(second)?)?;
    let sum = instruction_of(alloc, "add64 r1, r2")?;
    Some(is_check(alloc, state.check(sum, Table::One), want))
}

#[test]
fn keeps_addresses_near(rt: HostRuntime) {
    all_hold(&rt, NEAR, |row| sum_fails(rt.alloc(), row));
}

/// Eight bytes of the value at its byte 8, with at least sixteen bytes, and four of the key with at least four.
static SIXTEEN: &str = "\
ld64 r0, [r1+8] | none
ld32 r0, [r3+0] | none
ld32 r0, [r3+1] | V7 RecordBounds
";

/// Where the last eight bytes of the stack are set.
static LAST: &str = "\
ld64 r0, [r10-8] | none
ld64 r0, [r10-9] | V9 StackUnset
ld64 r0, [r10-7] | V8 StackBounds
";

#[test]
fn reads_what_is_known_to_be_there(rt: HostRuntime) {
    let sixteen = with_lengths(4, 4096, 16, 1_048_576);
    all_hold(&rt, SIXTEEN, |row| fails_in(rt.alloc(), &sixteen, row));
    let fifteen = with_lengths(4, 4096, 15, 1_048_576);
    assert!(rt; fails_in(rt.alloc(), &fifteen, "ld64 r0, [r1+8] | V7 RecordBounds") == Some(true));
    let bytes = with_bytes(0xff00_0000_0000_0000);
    all_hold(&rt, LAST, |row| fails_in(rt.alloc(), &bytes, row));
}

/// Calls at the start, and the checks that they fail under table one and under table two.
static CALLS: &str = "\
call 9 | none | none
call 10 | V11 Helper | none
call 11 | V11 Helper | V12 HelperArg
call 12 | V11 Helper | V12 HelperArg
call 13 | V11 Helper | V11 Helper
";

/// Whether a row's call fails these checks.
fn call_fails(alloc: Global, row: &str) -> Option<bool> {
    let (line, first, second) = three(row)?;
    let call = instruction_of(alloc, line)?;
    let start = State::entry();
    Some(
        is_check(alloc, start.check(call, Table::One), first)
            && is_check(alloc, start.check(call, Table::Two), second),
    )
}

/// Which helper a number names is the table's.
#[test]
fn checks_calls_under_a_table(rt: HostRuntime) {
    all_hold(&rt, CALLS, |row| call_fails(rt.alloc(), row));
}
