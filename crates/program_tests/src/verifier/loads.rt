//! Loads of images. More programs, each with what is said of it, are in `transcripts`.

use crate::programs::image_of;
use crate::tables::all_hold;
use crate::verifier::images::{accepted, is_text};
use machine_spec::Table;
use std::alloc::Global;
use std::test::*;

/// Programs, and what a load under table one answers.
static STRAIGHT: &str = "\
# no whole number of slots, or none
 | I1 Size
000000000000000000000000 | I1 Size
mov64 r0, 0; exit | accepted 2
db00000000000000 | I6 NotInProfile slot 0
ff00000000000000 | I2 Opcode slot 0
mov64 r0, 0; b70b000000000000 | I3 Register slot 1
9500000001000000 | I4 Unused slot 0
mov64 r0, 0 | V3 RunsOff at 0
exit | V4 Unset at 0
add64 r1, r3; exit | V5 Type at 0
mov64 r10, 0; exit | V6 Frame at 0
ld64 r0, [r10-520]; exit | V8 StackBounds at 0
ld64 r0, [r10-8]; exit | V9 StackUnset at 0
call 99; exit | V11 Helper at 0
call 3; exit | V12 HelperArg at 0
mov64 r0, r1; exit | V13 Exit at 1
";

/// Whether the load of a row's program answers what the row says.
fn is_answered(alloc: Global, row: &str) -> Option<bool> {
    let (program, want) = row.split_once(" | ")?;
    let image = image_of(alloc, program)?;
    Some(is_text(alloc, "accepted", accepted(alloc, Table::One, &image), want))
}

#[test]
fn straight_programs(rt: HostRuntime) {
    all_hold(&rt, STRAIGHT, |row| is_answered(rt.alloc(), row));
}
