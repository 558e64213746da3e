//! Calls that memory is refused to. The test passes as it is, and in a run in which one request for
//! memory is refused: `tools/dev/refuse_each.py program_tests refused::` runs it once for each of its requests.
//! A call that was refused answers in its own form for that, and right when it is made again.

use crate::damage::images::{CLASSES, FIRST_BYTE};
use crate::programs::{image_of, place_of, program_of, record_of};
use annotate::{LoadFault, load};
use bpf_asm::{AsmFault, assemble, disassemble};
use bpf_machine::{End, trace};
use exec::{Emissions, Outcome, is_place, is_within_limits, run};
use explain::{Coverage, explain_image, image_fault_text};
use machine_spec::{IsaFault, Table};
use notes::Verified;
use std::alloc::{AllocError, Global};
use std::test::*;
use verifier_spec::{Check, VerifyFault};

/// What a call answers.
#[derive(Clone, Copy)]
enum Answer {
    Right,
    Wrong,
    /// Its own answer where memory ran out.
    Memory,
}

enum Call {
    Load,
    LoadRefused,
    Run,
    Trace,
    Assemble,
    Disassemble,
    Explain,
    ExplainRefused,
    ImageFault,
}

/// The calls, with their names.
static CALLS: [(&str, Call); 9] = [
    ("Load", Call::Load),
    ("LoadRefused", Call::LoadRefused),
    ("Run", Call::Run),
    ("Trace", Call::Trace),
    ("Assemble", Call::Assemble),
    ("Disassemble", Call::Disassemble),
    ("Explain", Call::Explain),
    ("ExplainRefused", Call::ExplainRefused),
    ("ImageFault", Call::ImageFault),
];

fn of(is_right: bool) -> Answer {
    if is_right {
        Answer::Right
    } else {
        Answer::Wrong
    }
}

/// The answer of what has no other fault than want of memory.
fn of_result(is_right: Result<bool, AllocError>) -> Answer {
    match is_right {
        Ok(is_right) => of(is_right),
        Err(_) => Answer::Memory,
    }
}

const JUMPS_OUT: LoadFault = LoadFault::Verify(VerifyFault {
    pc: 1,
    kind: Check::JumpTarget,
});

/// The answer of a load that is refused with this fault, or with none.
fn of_load(loaded: &Result<Verified, LoadFault>, want: Option<LoadFault>) -> Answer {
    match loaded {
        Ok(_) => of(want.is_none()),
        Err(LoadFault::Isa(IsaFault::Memory)) => Answer::Memory,
        Err(LoadFault::Verify(fault)) if fault.kind == Check::Memory => Answer::Memory,
        Err(fault) => of(want == Some(*fault)),
    }
}

fn loaded(alloc: Global) -> Answer {
    match image_of(alloc, CLASSES) {
        Some(image) => of_load(&load(alloc, &image, Table::One), None),
        None => Answer::Memory,
    }
}

/// The record that `CLASSES` runs on.
const RECORD: &str = "6b6579 0200";

/// What `CLASSES` emits as the value then.
const EMITTED: &[u8] = &[7, 0, 0, 0, 0, 0, 0, 0, 5, 0, 0, 0, 1, 0, 0, 0];

fn are_right(emissions: &Emissions) -> bool {
    match emissions.list.as_slice() {
        [only] => match &only.value {
            Some(value) => only.out == 0 && value.as_slice() == EMITTED,
            None => false,
        },
        _ => false,
    }
}

fn is_right(outcome: &Outcome) -> bool {
    match outcome {
        Outcome::Kept(emissions) => are_right(emissions),
        Outcome::Rejected(_) => false,
    }
}

/// What a program makes of the record.
fn outcome_of(alloc: Global, program: &Verified) -> Result<bool, AllocError> {
    let record = record_of(alloc, RECORD).ok_or(AllocError)?;
    let place = place_of(2);
    if !is_within_limits(&record) || !is_place(&place) {
        return Ok(false);
    }
    Ok(is_right(&run(alloc, program, &record, &place)?))
}

/// What `CLASSES` makes of it, where memory is not refused before.
fn outcome_of_classes(alloc: Global) -> Result<bool, AllocError> {
    match program_of(alloc, CLASSES, Table::One) {
        Some(program) => outcome_of(alloc, &program),
        None => Err(AllocError),
    }
}

fn end_of(alloc: Global) -> Result<bool, AllocError> {
    let record = record_of(alloc, RECORD).ok_or(AllocError)?;
    let image = image_of(alloc, CLASSES).ok_or(AllocError)?;
    let (end, count) = trace(alloc, &image, &record, &place_of(2), Table::One)?;
    match end {
        End::Out(outcome) => Ok(count == 17 && is_right(&outcome)),
        End::Trap(_) => Ok(false),
    }
}

/// The text of `FIRST_BYTE`.
const TEXT: &str = "mov64 r0, 0\njlt64 r2, 1, +1\nld8 r0, [r1+0]\nexit\n";

fn assembled(alloc: Global) -> Answer {
    match assemble(alloc, TEXT) {
        Ok(image) => of(image.as_slice() == FIRST_BYTE),
        Err(AsmFault::Memory) => Answer::Memory,
        Err(_) => Answer::Wrong,
    }
}

fn disassembled(alloc: Global) -> Answer {
    match bpf_isa::decode(alloc, FIRST_BYTE) {
        Err(IsaFault::Memory) => Answer::Memory,
        Err(_) => Answer::Wrong,
        Ok(code) => match disassemble(alloc, &code) {
            Ok(text) => of(text.as_str() == TEXT),
            Err(_) => Answer::Memory,
        },
    }
}

/// mov64 r0, 0; exit.
const KEEP: &[u8] = &[0xb7, 0, 0, 0, 0, 0, 0, 0, 0x95, 0, 0, 0, 0, 0, 0, 0];

const EXPLAINED: &str = "0 slot 0: mov64 r0, 0\n\x20 r1: value+0  r2: length of value  r3: key+0  \
    r4: length of key  r5: 0 to 3  r10: stack+512\n1 slot 1: exit\n\x20 r0: 0  r1: value+0  \
    r2: length of value  r3: key+0  r4: length of key  r5: 0 to 3  r10: stack+512\nok\n";

/// What is said of the last two instructions of `FIRST_BYTE`.
const REFUSED: &str = "0 slot 0: ld8 r0, [r1+0]\n\x20 r1: value+0  r2: length of value  r3: key+0  \
    r4: length of key  r5: 0 to 3  r10: stack+512\nrefused: V7 RecordBounds at 0\n";

fn explained(alloc: Global, image: &[u8], want: &str) -> Answer {
    match explain_image(alloc, image, Table::One, Coverage::All) {
        Ok(explanation) => of(explanation.lines.as_str() == want),
        Err(IsaFault::Memory) => Answer::Memory,
        Err(_) => Answer::Wrong,
    }
}

/// No register has the number 11.
const BAD_REGISTER: &[u8] = &[0xb7, 0x0b, 0, 0, 5, 0, 0, 0];

const BAD_TEXT: &str = "slot 0: b7 0b 00 00 05 00 00 00\nwith dst=0 this is: mov64 r0, 5\n\
    registers are r0 to r10\n";

fn fault_text(alloc: Global) -> Result<bool, AllocError> {
    let text = image_fault_text(alloc, BAD_REGISTER, IsaFault::Register(0))?;
    Ok(text.as_str() == BAD_TEXT)
}

fn answer_of(alloc: Global, call: &Call) -> Answer {
    match call {
        Call::Load => loaded(alloc),
        Call::LoadRefused => of_load(&load(alloc, &FIRST_BYTE[..16], Table::One), Some(JUMPS_OUT)),
        Call::Run => of_result(outcome_of_classes(alloc)),
        Call::Trace => of_result(end_of(alloc)),
        Call::Assemble => assembled(alloc),
        Call::Disassemble => disassembled(alloc),
        Call::Explain => explained(alloc, KEEP, EXPLAINED),
        Call::ExplainRefused => explained(alloc, &FIRST_BYTE[16..], REFUSED),
        Call::ImageFault => of_result(fault_text(alloc)),
    }
}

/// Makes a call, again where memory was refused. Whether the answer is right.
fn is_made<R: Print>(rt: &R, alloc: Global, name: &str, call: &Call) -> bool {
    let first = answer_of(alloc, call);
    if !matches!(first, Answer::Memory) {
        return matches!(first, Answer::Right);
    }
    let _ = println!(rt; "refused {name}: no memory");
    matches!(answer_of(alloc, call), Answer::Right)
}

/// The number of the first call with a wrong answer.
fn first_wrong<R: Print>(rt: &R, alloc: Global, calls: &[(&str, Call)]) -> Option<usize> {
    for (k, row) in calls.iter().enumerate() {
        if !is_made(rt, alloc, row.0, &row.1) {
            return Some(k);
        }
    }
    None
}

#[test]
fn a_refused_call_can_be_made_again(rt: HostRuntime) {
    let wrong = first_wrong(&rt, rt.alloc(), &CALLS);
    assert!(rt; wrong.is_none(), "call {wrong:?}");
}
