//! What is known after calls of helpers, and the regions that the interpreter takes.

use crate::programs::image_of;
use crate::tables::{all_hold, three};
use crate::verifier::images::{joined, regions_in};
use abstract_regs::State;
use annotate::load;
use machine_spec::Table;
use std::alloc::{AllocError, Global};
use std::test::*;

/// What is known of r0, r1 and r5.
fn kinds_text(alloc: Global, state: &State) -> Result<String, AllocError> {
    format!(in alloc;
        "{:?} {:?} {:?}",
        state.kind(0),
        state.kind(1),
        state.kind(5)
    )
}

fn has_kinds(alloc: Global, state: &State, want: &str) -> bool {
    match kinds_text(alloc, state) {
        Ok(text) => text.as_str() == want,
        Err(_) => false,
    }
}

/// The columns of a row: a program's image, the number of one of its instructions, and what is wanted.
fn columns(alloc: Global, row: &str) -> Option<(Vec<u8>, usize, &str)> {
    let (program, number, want) = three(row)?;
    match (image_of(alloc, program), number.parse()) {
        (Some(image), Ok(number)) => Some((image, number, want)),
        _ => None,
    }
}

/// Whether so much is known before a row's instruction.
fn is_known(alloc: Global, table: Table, row: &str) -> Option<bool> {
    let (image, number, want) = columns(alloc, row)?;
    let state = joined(alloc, table, &image, number)?;
    Some(has_kinds(alloc, &state, want))
}

/// Offset, timestamp and partition; eight bytes of the value, to the last ones of the stack; key and value that change
/// places, where r5 is the new value's length and r3 the new key's.
static KNOWN: &str = "\
call 7; exit | 1 | Num(0, 4611686018427387903) None None
call 8; exit | 1 | Num(0, 4611686018427387903) None None
call 9; exit | 1 | Num(0, 63) None None
mov64 r1, r10; add64 r1, -8; mov64 r2, 0; mov64 r3, 8; call 1; exit | 5 | Num(0, 1) None None
mov64 r6, r3; mov64 r5, r4; mov64 r4, r6; mov64 r3, r2; mov64 r2, r1; mov64 r1, 0; call 5; \
    exit | 7 | Num(0, 3) None None
";

/// The number of headers; the first header's key and its value, to the same place.
static KNOWN_OF_HEADERS: &str = "\
call 10; exit | 1 | Num(0, 16) None None
mov64 r1, r10; add64 r1, -8; mov64 r2, 0; mov64 r3, 8; call 11; exit | 5 | Num(0, 256) None None
mov64 r1, r10; add64 r1, -8; mov64 r2, 0; mov64 r3, 8; call 12; exit | 5 | Num(0, 4098) None None
";

#[test]
fn answers_of_calls(rt: HostRuntime) {
    let alloc = rt.alloc();
    all_hold(&rt, KNOWN, |row| is_known(alloc, Table::One, row));
    all_hold(
        &rt,
        KNOWN_OF_HEADERS,
        |row| is_known(alloc, Table::Two, row),
    );
}

/// How many instructions there are, and the regions of one.
fn regions_text(alloc: Global, table: Table, image: &[u8], number: usize) -> Option<String> {
    let verified = load(alloc, image, table).ok()?;
    let (count, first, second) = regions_in(&verified, number)?;
    if verified.table() != table {
        return None;
    }
    format!(in alloc; "{count} {first:?} {second:?}").ok()
}

/// Whether a row's instruction has these regions.
fn has_regions(alloc: Global, table: Table, row: &str) -> Option<bool> {
    let (image, number, want) = columns(alloc, row)?;
    match regions_text(alloc, table, &image, number) {
        Some(text) => Some(text.as_str() == want),
        None => None,
    }
}

/// The only bytes that a call takes by address are the stack's. An emission takes bytes of the value and of the key,
/// and the exit none.
static REGIONS: &str = "\
mov64 r1, r10; add64 r1, -8; mov64 r2, 0; mov64 r3, 8; call 1; exit | 4 | 6 Some(Stack) None
mov64 r6, r3; mov64 r5, r4; mov64 r4, r6; mov64 r3, r2; mov64 r2, r1; mov64 r1, 0; call 5; \
    exit | 6 | 8 Some(Value) Some(Key)
mov64 r6, r3; mov64 r5, r4; mov64 r4, r6; mov64 r3, r2; mov64 r2, r1; mov64 r1, 0; call 5; exit | 7 | 8 None None
";

/// The same under table two.
static REGIONS_OF_HEADERS: &str = "\
mov64 r1, r10; add64 r1, -8; mov64 r2, 0; mov64 r3, 8; call 12; exit | 4 | 6 Some(Stack) None
";

#[test]
fn regions_of_calls(rt: HostRuntime) {
    let alloc = rt.alloc();
    all_hold(&rt, REGIONS, |row| has_regions(alloc, Table::One, row));
    all_hold(
        &rt,
        REGIONS_OF_HEADERS,
        |row| has_regions(alloc, Table::Two, row),
    );
}
