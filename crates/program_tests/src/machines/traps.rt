//! Each trap, after the instructions before it; and instructions with two faults at once.
//!
//! Of two the first in this order is reported: Frame, Helper, Unset, WrongType, ReadOnly, RecordBounds, StackBounds,
//! StackUnset, HelperArgument, Exit, Jump. Pairs that no instruction can have both are left out: a call has none of
//! Frame, WrongType and RecordBounds to ReadOnly, and an access is of one region.

use crate::machines::plain;
use crate::tables::all_hold;
use machine_spec::Table;
use std::test::*;

/// Bytes after the last whole slot are no slot: running on to them is RanOff, a jump to them Jump.
static TRAPS: &str = "\
6b6579 - |  | RanOff after 0
6b6579 - | mov64 r0, 0 | RanOff after 1
6b6579 - | exit | Unset after 0
6b6579 - | ja -1; exit | Jump after 0
6b6579 - | mov64 r10, 0; exit | Frame after 0
6b6579 31323334 | st32 [r1+0], 0; exit | ReadOnly after 0
6b6579 - | ld8 r0, [r1+0]; exit | RecordBounds after 0
6b6579 - | ff00000000000000 | Form after 0
# the last byte, and one past it
6b6579 00000000 | ld8 r0, [r1+3]; exit | kept 0 after 2
6b6579 00000000 | ld8 r0, [r1+4]; exit | RecordBounds after 0
6b6579 00000000 | ld32 r0, [r1+1]; exit | RecordBounds after 0
6b6579 00000000 | ld8 r0, [r1-1]; exit | RecordBounds after 0
6b6579 - | ld8 r0, [r3+3]; exit | RecordBounds after 0
# the stack: unset, half set, past its ends
6b6579 - | ld64 r0, [r10-8]; exit | StackUnset after 0
6b6579 - | st32 [r10-8], 0; ld64 r0, [r10-8]; exit | StackUnset after 1
6b6579 - | ld64 r0, [r10-520]; exit | StackBounds after 0
6b6579 - | st8 [r10+0], 0; exit | StackBounds after 0
# into a second slot, outside the image, of a call with src 1, of an atomic operation
6b6579 - | ja +1; imm64 r0, 0; exit | Jump after 0
6b6579 - | ja +1; exit | Jump after 0
6b6579 - | 8510000001000000; exit | Form after 0
6b6579 - | mov64 r0, 0; db0af8ff00000000; exit | Form after 1
6b6579 - | call 3; exit | HelperArgument after 0
6b6579 - | mov64 r0, r1; exit | Exit after 1
# r1 moved by 2^63 - 1 four times, which is -4 where sums wrap, and then its byte 4
6b6579 31323334 | imm64 r6, 9223372036854775807; add64 r1, r6; add64 r1, r6; add64 r1, r6; add64 r1, r6; \
    ld8 r0, [r1+4]; exit | RecordBounds after 5
# bytes after the last whole slot
6b6579 - | b7000000000000 | RanOff after 0
6b6579 - | mov64 r0, 0; 95 | RanOff after 1
6b6579 - | ja +0; 950000 | Jump after 0
";

#[test]
fn traps(rt: HostRuntime) {
    let alloc = rt.alloc();
    all_hold(&rt, TRAPS, |row| plain(alloc, (Table::One, 1), row));
}

/// On an empty value.
static TRAP_ORDER: &str = "\
# Frame, then Unset: mov64 r10, r0 of nothing
6b6579 . | mov64 r10, r0; exit | Frame after 0
# Frame, then WrongType: neg64 r10
6b6579 . | neg64 r10; exit | Frame after 0
# Frame, then RecordBounds: ld64 r10, [r1+0] of an empty value
6b6579 . | ld64 r10, [r1+0]; exit | Frame after 0
# Frame, then StackUnset: ld64 r10, [r10-8]
6b6579 . | ld64 r10, [r10-8]; exit | Frame after 0
# Unset, then WrongType: add64 r0, r1 of nothing and an address
6b6579 . | add64 r0, r1; exit | Unset after 0
# Unset, then ReadOnly and RecordBounds: stx64 [r1+0], r0 of nothing
6b6579 . | stx64 [r1+0], r0; exit | Unset after 0
# Unset, then StackBounds: stx64 [r10+0], r0 of nothing
6b6579 . | stx64 [r10+0], r0; exit | Unset after 0
# Unset, then HelperArgument: a second call, whose r1 is clobbered
6b6579 . | mov64 r1, 0; call 3; call 3 | Unset after 2
# WrongType, then ReadOnly and RecordBounds: stx64 [r1+0], r1
6b6579 . | stx64 [r1+0], r1; exit | WrongType after 0
# WrongType, then StackBounds: stx64 [r10+0], r1
6b6579 . | stx64 [r10+0], r1; exit | WrongType after 0
# WrongType, then Jump: jeq64 r1, 0, -1
6b6579 . | jeq64 r1, 0, -1; exit | WrongType after 0
# ReadOnly, then RecordBounds: st8 [r1+0] of an empty value
6b6579 . | st8 [r1+0], 0; exit | ReadOnly after 0
# ReadOnly, then RecordBounds: st8 [r3-1] of the key
6b6579 . | st8 [r3-1], 0; exit | ReadOnly after 0
# StackBounds, then StackUnset: ld64 r0, [r10-516], and [r10-4]
6b6579 . | ld64 r0, [r10-516]; exit | StackBounds after 0
6b6579 . | ld64 r0, [r10-4]; exit | StackBounds after 0
";

#[test]
fn trap_order(rt: HostRuntime) {
    let alloc = rt.alloc();
    all_hold(&rt, TRAP_ORDER, |row| plain(alloc, (Table::One, 1), row));
}
