//! Images that are cut short anywhere, or have one byte changed, each place and each value.

use crate::programs::{are_same_headers, image_of, is_same_part, place_of, record_of, run_on};
use annotate::load;
use bpf_machine::{End, trace};
use exec::{Emission, Outcome, Record};
use machine_spec::Table;
use notes::Verified;
use std::alloc::{AllocError, Global};
use std::process::Abort;
use std::test::*;

/// mov64 r0, 0; jlt64 r2, 1, +1; ld8 r0, [r1+0]; exit.
pub(crate) const FIRST_BYTE: &[u8] = &[
    0xb7, 0, 0, 0, 0, 0, 0, 0, 0xa5, 2, 1, 0, 1, 0, 0, 0, 0x71, 0x10, 0, 0, 0, 0, 0, 0, 0x95, 0, 0,
    0, 0, 0, 0, 0,
];

/// Instructions of all eight classes, and calls.
pub(crate) static CLASSES: &str = "\
    mov64 r6, r2; imm64 r7, 4294967299; mov32 r8, 9; jlt64 r6, 2, +3; ld16 r8, [r1+0]; jgt32 r8, 255, +1; \
    add64 r7, r8; st64 [r10-16], 7; stx64 [r10-8], r7; mov64 r1, 0; mov64 r2, r10; add64 r2, -16; mov64 r3, 16; \
    call 4; or32 r0, r8; and64 r0, 8; exit";

/// The records that programs run on, with a key and a header.
static RECORDS: [&str; 4] = [
    "6b6579 - 68:-",
    "6b6579 . 68:-",
    "6b6579 07 68:-",
    "6b6579 ff*16 68:-",
];

fn records(alloc: Global) -> Option<Vec<Record>> {
    let mut records = Vec::new(alloc);
    for text in &RECORDS {
        records.push(record_of(alloc, text)?).ok()?;
    }
    Some(records)
}

fn is_same_emission(left: &Emission, right: &Emission) -> bool {
    left.out == right.out
        && is_same_part(&left.key, &right.key)
        && is_same_part(&left.value, &right.value)
        && are_same_headers(&left.headers.list, &right.headers.list)
}

fn are_same_emissions(left: &[Emission], right: &[Emission]) -> bool {
    let mut rest = right;
    for emission in left {
        match rest.split_first() {
            Some((first, others)) if is_same_emission(emission, first) => rest = others,
            _ => return false,
        }
    }
    rest.is_empty()
}

/// Whether the plain machine's end is the interpreter's outcome.
fn is_same(end: &End, outcome: &Outcome) -> bool {
    match (end, outcome) {
        (End::Out(Outcome::Kept(left)), Outcome::Kept(right)) => {
            are_same_emissions(&left.list, &right.list)
        }
        (End::Out(Outcome::Rejected(left)), Outcome::Rejected(right)) => left == right,
        (_, _) => false,
    }
}

/// Whether the plain machine ends with this outcome.
fn ends_so(alloc: Global, image: &[u8], record: &Record, outcome: &Outcome) -> bool {
    match trace(alloc, image, record, &place_of(2), Table::One) {
        Ok((end, _count)) => is_same(&end, outcome),
        Err(_) => false,
    }
}

/// Whether a program does on a record what the plain machine does with its image.
fn runs_the_same(alloc: Global, image: &[u8], program: &Verified, record: &Record) -> bool {
    match run_on(alloc, program, record, 2) {
        Some(outcome) => ends_so(alloc, image, record, &outcome),
        None => false,
    }
}

/// The same on each record.
fn run_the_same(alloc: Global, image: &[u8], program: &Verified, records: &[Record]) -> bool {
    for record in records {
        if !runs_the_same(alloc, image, program, record) {
            return false;
        }
    }
    true
}

/// Whether the image is accepted. None where it then does something else than the plain machine.
fn is_accepted(alloc: Global, image: &[u8], records: &[Record]) -> Option<bool> {
    match load(alloc, image, Table::One) {
        Ok(program) if run_the_same(alloc, image, &program, records) => Some(true),
        Ok(_) => None,
        Err(_) => Some(false),
    }
}

/// How many images are accepted; else the place and the change of the first one that does something
/// else than the plain machine.
type Accepted = Result<u32, (usize, u8)>;

/// Changes the byte at a place; a second time it is as it was.
pub(crate) fn flip(image: &mut [u8], place: usize, change: u8) {
    if let Some(byte) = image.get_mut(place) {
        *byte ^= change;
    }
}

/// Gives the byte at a place each other value in turn.
fn change_one(alloc: Global, image: &mut [u8], place: usize, records: &[Record]) -> Accepted {
    let mut accepted = 0u32;
    for change in 1..=255u8 {
        flip(image, place, change);
        match is_accepted(alloc, image, records) {
            Some(true) => accepted = accepted.saturating_add(1),
            Some(false) => (),
            None => return Err((place, change)),
        }
        flip(image, place, change);
    }
    Ok(accepted)
}

/// The images with one changed byte, from a place up to another, of one that is accepted itself.
fn change_each(
    alloc: Global,
    image: &mut [u8],
    first: usize,
    end: usize,
    records: &[Record],
) -> Accepted {
    if is_accepted(alloc, image, records) != Some(true) {
        return Err((first, 0));
    }
    let mut accepted = 0u32;
    for place in first..end {
        accepted = accepted.saturating_add(change_one(alloc, image, place, records)?);
    }
    Ok(accepted)
}

fn change_whole(alloc: Global, whole: &[u8], first: usize, end: usize) -> Accepted {
    match (Vec::from_slice(alloc, whole), records(alloc)) {
        (Ok(mut image), Some(records)) => {
            change_each(alloc, image.as_mut_slice(), first, end, &records)
        }
        _ => Err((first, 0)),
    }
}

/// So many are accepted. `tools/dev/second_machine.py` accepts as many.
fn are_accepted(rt: &impl Abort, accepted: Accepted, want: u32) {
    assert!(rt; accepted == Ok(want), "{accepted:?}");
}

#[test]
fn a_changed_image_runs_as_the_plain_machine(rt: HostRuntime) {
    are_accepted(&rt, change_whole(rt.alloc(), FIRST_BYTE, 0, 32), 2053);
}

/// The same of the image that has an instruction of each class.
fn change_classes(alloc: Global, first: usize, end: usize) -> Accepted {
    match image_of(alloc, CLASSES) {
        Some(image) => change_whole(alloc, &image, first, end),
        None => Err((first, 0)),
    }
}

#[test]
fn the_first_third_of_all_classes_runs_as_the_plain_machine(rt: HostRuntime) {
    are_accepted(&rt, change_classes(rt.alloc(), 0, 48), 4096);
}

#[test]
fn the_second_third_of_all_classes_runs_as_the_plain_machine(rt: HostRuntime) {
    are_accepted(&rt, change_classes(rt.alloc(), 48, 96), 3187);
}

#[test]
fn the_last_third_of_all_classes_runs_as_the_plain_machine(rt: HostRuntime) {
    are_accepted(&rt, change_classes(rt.alloc(), 96, 144), 1153);
}

/// What a load answers to an image that was cut to this length.
fn answer_of_cut(length: usize) -> &'static str {
    match length {
        8 => "V3 RunsOff at 0",
        16 | 24 => "V1 JumpTarget at 1",
        32 => "accepted",
        _ => "I1 Size",
    }
}

/// What `load` answers to an image.
fn answer_of(alloc: Global, image: &[u8]) -> Result<String, AllocError> {
    match load(alloc, image, Table::One) {
        Ok(_) => String::from_str(alloc, "accepted"),
        Err(fault) => format!(in alloc; "{fault}"),
    }
}

fn is_cut(alloc: Global, whole: &[u8], length: usize) -> bool {
    match answer_of(alloc, whole.get(..length).unwrap_or(whole)) {
        Ok(answer) => answer.as_str() == answer_of_cut(length),
        Err(_) => false,
    }
}

/// The first length to which the image is cut and not refused so.
fn first_other_cut(alloc: Global, whole: &[u8]) -> Option<usize> {
    for length in 0..=whole.len() {
        if !is_cut(alloc, whole, length) {
            return Some(length);
        }
    }
    None
}

#[test]
fn a_cut_image_is_refused(rt: HostRuntime) {
    let other = first_other_cut(rt.alloc(), FIRST_BYTE);
    assert!(rt; other.is_none(), "{other:?}");
}
