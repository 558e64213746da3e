//! Programs on the interpreter and on the plain machine. A row has a record, a program, and how it ends: as
//! `kept` with the number of emissions, as `rejected` with the code, or in a trap, `after` so many instructions.

use crate::programs::{are_same_headers, image_of, is_same_part, place_of, record_of, run_on};
use crate::tables::three;
use annotate::load;
use bpf_machine::{End, trace};
use exec::{Outcome, Record};
use machine_spec::Table;
use std::alloc::{AllocError, Global};

mod calls;
mod emissions;
mod headers;
mod numbers;
mod part_helpers;
mod parts;
mod traps;

/// The helper table, and how many outputs there are.
type Under = (Table, usize);

/// What a row says: a program's image, the record that it runs on, and what is wanted.
#[derive(Drop)]
struct Case<'a> {
    record: Record,
    image: Vec<u8>,
    want: &'a str,
}

fn case_of(alloc: Global, row: &str) -> Option<Case<'_>> {
    let (record, program, want) = three(row)?;
    match (record_of(alloc, record), image_of(alloc, program)) {
        (Some(record), Some(image)) => Some(Case {
            record,
            image,
            want,
        }),
        _ => None,
    }
}

/// The number of emissions, or the reject code.
fn outcome_text(alloc: Global, outcome: &Outcome) -> Result<String, AllocError> {
    match outcome {
        Outcome::Kept(emissions) => format!(in alloc; "kept {}", emissions.list.len()),
        Outcome::Rejected(code) => format!(in alloc; "rejected {code}"),
    }
}

fn end_text(alloc: Global, end: &End) -> Result<String, AllocError> {
    match end {
        End::Out(outcome) => outcome_text(alloc, outcome),
        End::Trap(trap) => format!(in alloc; "{trap:?}"),
    }
}

/// How the plain machine ends, and after how many instructions.
fn traced(alloc: Global, under: Under, case: &Case) -> Result<(End, u64), AllocError> {
    trace(
        alloc,
        &case.image,
        &case.record,
        &place_of(under.1),
        under.0,
    )
}

/// The end as a text.
fn traced_text(alloc: Global, under: Under, case: &Case) -> Result<String, AllocError> {
    let (end, count) = traced(alloc, under, case)?;
    let end = end_text(alloc, &end)?;
    format!(in alloc; "{end} after {count}")
}

/// What the interpreter makes of the record. None where the program is refused or memory ran out.
fn run_of(alloc: Global, under: Under, case: &Case) -> Option<Outcome> {
    let program = load(alloc, &case.image, under.0).ok()?;
    run_on(alloc, &program, &case.record, under.1)
}

fn is_text(text: Result<String, AllocError>, want: &str) -> bool {
    match text {
        Ok(text) => text.as_str() == want,
        Err(_) => false,
    }
}

/// Whether the interpreter ends as the wanted text says before the number of instructions.
fn is_run(alloc: Global, under: Under, case: &Case) -> bool {
    match (run_of(alloc, under, case), case.want.split_once(" after ")) {
        (Some(outcome), Some((want, _))) => is_text(outcome_text(alloc, &outcome), want),
        _ => false,
    }
}

/// Whether the plain machine ends as a row says.
fn plain(alloc: Global, under: Under, row: &str) -> Option<bool> {
    let case = case_of(alloc, row)?;
    Some(is_text(traced_text(alloc, under, &case), case.want))
}

/// Whether both machines end as a row says.
fn both(alloc: Global, under: Under, row: &str) -> Option<bool> {
    let case = case_of(alloc, row)?;
    let is_traced = is_text(traced_text(alloc, under, &case), case.want);
    Some(is_traced && is_run(alloc, under, &case))
}

/// Whether there is one emission: to output 0, with the key, the value and the headers of this record.
fn is_emitted(outcome: &Outcome, want: &Record) -> bool {
    match outcome {
        Outcome::Kept(emissions) => match emissions.list.as_slice() {
            [emission] => emission.out == 0
                && is_same_part(&emission.key, &want.key)
                && is_same_part(&emission.value, &want.value)
                && are_same_headers(&emission.headers.list, &want.headers.list),
            _ => false,
        },
        Outcome::Rejected(_) => false,
    }
}

fn both_emit(alloc: Global, under: Under, case: &Case, want: &Record) -> bool {
    match (run_of(alloc, under, case), traced(alloc, under, case)) {
        (Some(outcome), Ok((End::Out(end), _))) => is_emitted(&outcome, want)
            && is_emitted(&end, want),
        _ => false,
    }
}

/// Whether both machines make of a row's record the one emission that it says, to output 0.
fn emits(alloc: Global, under: Under, row: &str) -> Option<bool> {
    let case = case_of(alloc, row)?;
    match record_of(alloc, case.want) {
        Some(want) => Some(both_emit(alloc, under, &case, &want)),
        None => None,
    }
}

/// The fault of a load. None where there is none or memory ran out.
fn fault_of(alloc: Global, under: Under, case: &Case) -> Option<String> {
    let fault = load(alloc, &case.image, under.0).err()?;
    format!(in alloc; "{fault}").ok()
}

/// Whether the plain machine ends in the trap that a row says, and a load is refused for the fault behind it.
fn is_refused(alloc: Global, under: Under, row: &str) -> Option<bool> {
    let case = case_of(alloc, row)?;
    let (trap, want) = case.want.split_once("; ")?;
    let is_trapped = is_text(traced_text(alloc, under, &case), trap);
    match fault_of(alloc, under, &case) {
        Some(fault) => Some(is_trapped && fault.as_str() == want),
        None => None,
    }
}
