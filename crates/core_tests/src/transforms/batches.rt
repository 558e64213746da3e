use crate::interrupted::Interrupted;
use crate::transforms::making::{first_wrong, has, is_pushed, stream_of};
use crate::verdicts::all_hold;
use fixtures::FORWARD;
use log_item::Program;
use std::alloc::Global;
use std::test::*;
use transform::Transform;
use wire_spec::TIMESTAMP_END;

/// mov64 r1, 1; call 3; exit: each record goes to output 1 as it is.
static SECOND: [u8; 24] = [
    0xb7, 1, 0, 0, 1, 0, 0, 0, 0x85, 0, 0, 0, 3, 0, 0, 0, 0x95, 0, 0, 0, 0, 0, 0, 0,
];

/// Pushes batches with these counts of records and bytes of a value; whether it could.
fn are_pushed(
    alloc: Global,
    program: &Program,
    stream: &mut Transform<Interrupted>,
    given: &[(usize, usize)],
) -> bool {
    for (count, bytes) in given {
        if !is_pushed(alloc, program, stream, *count, *bytes) {
            return false;
        }
    }
    true
}

/// Batches that are pushed, as the numbers of their records and of the bytes of a value; the batches of
/// rows before the end, and all of them, as base offsets and numbers of records.
type Filling<'a> = (&'a [(usize, usize)], &'a [(i64, usize)], &'a [(i64, usize)]);

static FILLINGS: [Filling<'static>; 7] = [
    (&[], &[], &[]),
    (&[(1, 0)], &[], &[(0, 1)]),
    (&[(4000, 0), (4000, 0)], &[], &[(0, 8000)]),
    (&[(10_000, 0)], &[], &[(0, 10_000)]),
    (
        &[(4000, 0), (4000, 0), (4000, 0)],
        &[(0, 10_000)],
        &[(0, 10_000), (10_000, 2000)],
    ),
    (
        &[(10_000, 0), (10_000, 0), (5000, 0)],
        &[(0, 10_000), (10_000, 10_000)],
        &[(0, 10_000), (10_000, 10_000), (20_000, 5000)],
    ),
    (
        &[(40, 65_536), (40, 65_536), (1, 0)],
        &[(0, 63)],
        &[(0, 63), (63, 18)],
    ),
];

/// Whether a stream of two outputs gives the batches of rows to the second one, and none to the first.
fn is_filled(
    alloc: Global,
    program: &Program,
    stream: &mut Transform<Interrupted>,
    filling: &Filling<'_>,
) -> bool {
    let (given, early, all) = *filling;
    are_pushed(alloc, program, stream, given)
        && has(alloc, stream, 1, early)
        && ends(stream)
        && has(alloc, stream, 0, &[])
        && has(alloc, stream, 1, all)
}

fn ends(stream: &mut Transform<Interrupted>) -> bool {
    stream.end().is_ok()
}

/// Whether the batches of rows are these.
fn fills(alloc: Global, program: &Program, filling: &Filling<'_>) -> bool {
    match stream_of(alloc, 0, 0, 2) {
        Some(mut stream) => is_filled(alloc, program, &mut stream, filling),
        None => false,
    }
}

#[test]
fn batches_fill_up_to_their_limits(rt: HostRuntime) {
    let alloc = rt.alloc();
    let is_right = |program: &Program, row: &Filling<'_>| fills(alloc, program, row);
    all_hold(&rt, first_wrong(alloc, &SECOND, &FILLINGS, is_right));
}

/// Whether a batch of two records is taken, and the offset after it.
fn take_two(alloc: Global, program: &Program, stream: &mut Transform<Interrupted>) -> (bool, u64) {
    let is_taken = is_pushed(alloc, program, stream, 2, 0);
    (is_taken, stream.offset())
}

/// The same at an offset. None where there is no such stream or memory ran out.
fn taken_at(alloc: Global, program: &Program, offset: u64) -> Option<(bool, u64)> {
    match stream_of(alloc, 63, offset, 2) {
        Some(mut stream) => Some(take_two(alloc, program, &mut stream)),
        None => None,
    }
}

/// An offset, and whether a batch is taken there, with the offset after it.
type Taken = (u64, (bool, u64));

static LAST: [Taken; 2] = [
    (TIMESTAMP_END - 10_000, (true, TIMESTAMP_END - 9_998)),
    (TIMESTAMP_END - 9_999, (false, TIMESTAMP_END - 9_999)),
];

#[test]
fn offsets_end_below_two_to_the_62(rt: HostRuntime) {
    let alloc = rt.alloc();
    let is_right = |program: &Program, row: &Taken| taken_at(alloc, program, row.0) == Some(row.1);
    all_hold(&rt, first_wrong(alloc, &FORWARD, &LAST, is_right));
}
