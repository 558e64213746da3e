//! Runs of one program, one after the other.

use crate::programs::{program_of, record_of, run_on};
use crate::tables::{all_hold, first_wrong};
use exec::Outcome;
use machine_spec::Table;
use notes::Verified;
use std::alloc::Global;
use std::test::*;

/// The value's first byte, where it has one.
static FIRST_BYTE: &str = "mov64 r0, 0; jlt64 r2, 1, +2; ld8 r0, [r1+0]; exit; exit";

/// Records, and the reject code of each, or 0 where it is kept.
static VALUES: &str = "\
6b 07 | 7
6b . | 0
6b - | 0
6b ff*16 | ff
";

/// The reject code of a run on a record with one output, or 0.
fn code_on(alloc: Global, program: &Verified, record: &str) -> Option<u64> {
    let record = record_of(alloc, record)?;
    match run_on(alloc, program, &record, 1)? {
        Outcome::Kept(emissions) if emissions.list.is_empty() => Some(0),
        Outcome::Kept(_) => None,
        Outcome::Rejected(code) => Some(code),
    }
}

/// Whether the program has the row's code on its record.
fn has_code(alloc: Global, program: &Verified, row: &str) -> Option<bool> {
    let (record, code) = row.split_once(" | ")?;
    Some(code_on(alloc, program, record)? == u64::from_str_radix(code, 16).ok()?)
}

/// Whether the program has a row's code when it has run on another row's record.
fn has_code_after(alloc: Global, program: &Verified, before: &str, row: &str) -> Option<bool> {
    Some(has_code(alloc, program, before)? && has_code(alloc, program, row)?)
}

/// Whether it has the code of each row when it has run on this one's record.
fn are_right_after(alloc: Global, program: &Verified, before: &str) -> bool {
    first_wrong(VALUES, |row| has_code_after(alloc, program, before, row)).is_none()
}

/// A branch on the value's length makes the load of its first byte safe, whatever record ran before.
#[test]
fn reads_the_first_byte(rt: HostRuntime) {
    let program = program_of(rt.alloc(), FIRST_BYTE, Table::One);
    all_hold(&rt, VALUES, |before| match &program {
        Some(program) => Some(are_right_after(rt.alloc(), program, before)),
        None => None,
    });
}
