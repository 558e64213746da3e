//! What is explained of programs. All lines, reasons and causes are in `transcripts`.

use explain::{Coverage, Diagnosis, explain_image, image_fault_text, refusal_text};
use machine_spec::{IsaFault, Table};
use std::alloc::{AllocError, Global};
use std::test::*;

/// ld8 r0, [r1+0]; exit
const UNSAFE: [u8; 16] = [0x71, 0x10, 0, 0, 0, 0, 0, 0, 0x95, 0, 0, 0, 0, 0, 0, 0];

/// Half a slot.
const CUT: [u8; 4] = [0x95, 0, 0, 0];

/// jeq r5, 0, +1; mov64 r0, 0
const BRANCH: [u8; 16] = [0x15, 5, 1, 0, 0, 0, 0, 0, 0xb7, 0, 0, 0, 0, 0, 0, 0];

/// mov64 r0, r9; exit
const UNSET: [u8; 16] = [0xbf, 0x90, 0, 0, 0, 0, 0, 0, 0x95, 0, 0, 0, 0, 0, 0, 0];

/// The lines of the instruction that is refused.
const LINES: &str = "0 slot 0: ld8 r0, [r1+0]
  r1: value+0  r2: length of value  r3: key+0  r4: length of key  r5: 0 to 3  r10: stack+512
refused: V7 RecordBounds at 0
";

/// The refusal, what it is about, and what usually leads to it.
const REFUSAL: &str = "V7 RecordBounds at 0
r1 (value+0) reaches byte 0 of the value, whose length may be as low as 0
byte 0 of the value may be missing: check first that its length is at least 1; \
a test of 32 bits, of two registers or of signed numbers says nothing of it
";

/// The same where it is known from which line the instruction comes.
const PLACED: &str = "V7 RecordBounds at 0
route.c:7: r1 (value+0) reaches byte 0 of the value, whose length may be as low as 0
byte 0 of the value may be missing: check first that its length is at least 1; \
a test of 32 bits, of two registers or of signed numbers says nothing of it
";

/// The refusal of a program of as many slots as there may be.
const GREAT: &str = "V4 Unset at 16382
r9 is read and may hold nothing
no path to here sets it: a variable is read before it is set
";

/// Whether a refusal at this slot is shown so, where this place is known or none is.
fn is_shown_at(
    alloc: Global,
    refusal: Option<Diagnosis>,
    slot: usize,
    place: Option<&str>,
    shown: &str,
) -> bool {
    let Some(refusal) = refusal else {
        return false;
    };
    match refusal_text(alloc, &refusal, place) {
        Ok(text) => refusal.slot == slot && text.as_str() == shown,
        Err(_) => false,
    }
}

fn is_explained(alloc: Global) -> bool {
    match explain_image(alloc, &UNSAFE, Table::One, Coverage::Refused) {
        Ok(explanation) => explanation.lines.as_str() == LINES
            && is_shown_at(alloc, explanation.refusal, 0, None, REFUSAL)
            && is_shown_at(alloc, explanation.refusal, 0, Some("route.c:7"), PLACED),
        Err(_) => false,
    }
}

#[test]
fn says_why_a_program_is_refused(rt: HostRuntime) {
    assert!(rt; is_explained(rt.alloc()));
}

/// A program of 16,384 slots, half of them branches, that reads what no path sets.
fn great_image(alloc: Global) -> Result<Vec<u8>, AllocError> {
    let mut image = Vec::new(alloc);
    for _pair in 0..8191 {
        image.extend_from_slice(&BRANCH)?;
    }
    image.extend_from_slice(&UNSET)?;
    Ok(image)
}

/// Whether its refusal is shown. The time grows with the square of the slots where each instruction is
/// compared with all others.
fn is_great_explained(alloc: Global) -> bool {
    let Ok(image) = great_image(alloc) else {
        return false;
    };
    match explain_image(alloc, &image, Table::One, Coverage::Refused) {
        Ok(explanation) => is_shown_at(alloc, explanation.refusal, 16382, None, GREAT),
        Err(_) => false,
    }
}

#[test]
fn says_why_a_great_program_is_refused(rt: HostRuntime) {
    assert!(rt; is_great_explained(rt.alloc()));
}

fn has_no_code(alloc: Global) -> bool {
    let fault = explain_image(alloc, &CUT, Table::Two, Coverage::All).err();
    match image_fault_text(alloc, &CUT, IsaFault::Size) {
        Ok(text) => fault == Some(IsaFault::Size)
            && text.as_str() == "the image ends 4 bytes into a slot of 8 bytes\n",
        Err(_) => false,
    }
}

#[test]
fn says_why_an_image_has_no_code(rt: HostRuntime) {
    assert!(rt; has_no_code(rt.alloc()));
}
