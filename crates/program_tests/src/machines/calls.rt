//! Calls of helpers, on a record at offset 5 of partition 7 with timestamp 1000.

use crate::machines::{both, plain};
use crate::tables::all_hold;
use machine_spec::Table;
use std::test::*;

/// Where the record is; registers that a call keeps.
static PLACES: &str = "\
6b6579 - | call 7; exit | rejected 5 after 2
6b6579 - | call 8; exit | rejected 1000 after 2
6b6579 - | call 9; exit | rejected 7 after 2
# mov64 r6, 4 before the call, mov64 r0, r6 after it
6b6579 - | mov64 r6, 4; call 7; mov64 r0, r6; exit | rejected 4 after 4
";

/// A register that a call has clobbered, no helper, and one of table two alone.
static NO_VALUES: &str = "\
# mov64 r0, r1: the call has clobbered r1
6b6579 - | call 7; mov64 r0, r1; exit | Unset after 1
6b6579 - | call 99; exit | Helper after 0
6b6579 - | call 7; call 10; exit | Helper after 1
";

#[test]
fn places(rt: HostRuntime) {
    let alloc = rt.alloc();
    all_hold(&rt, PLACES, |row| both(alloc, (Table::One, 1), row));
    all_hold(&rt, NO_VALUES, |row| plain(alloc, (Table::One, 1), row));
}

/// What lies in its region may be emitted; so may set bytes of the stack, and two pieces.
static BYTES: &str = "\
6b6579 - | mov64 r1, 0; call 6; exit | kept 1 after 3
6b6579 - | mov64 r1, 9; call 6; exit | rejected 1 after 3
6b6579 76 | mov64 r3, r2; mov64 r2, r1; mov64 r1, 0; call 4; exit | kept 1 after 5
6b6579 76 | mov64 r3, r2; mov64 r2, r1; mov64 r1, 9; call 4; exit | rejected 1 after 5
6b6579 - | st32 [r10-8], 0; mov64 r2, r10; add64 r2, -8; mov64 r3, 4; mov64 r1, 0; call 4; exit | kept 1 after 7
6b6579 76616c7565 | mov64 r6, r3; mov64 r5, r4; mov64 r4, r6; mov64 r3, r2; mov64 r2, r1; mov64 r1, 0; call 5; \
    exit | kept 1 after 8
";

/// Arguments of which one is not of its kind, or bytes that are not all there; and a program that the verifier refuses
/// though its run is right.
static NO_BYTES: &str = "\
# no number as the output
6b6579 - | call 6; exit | HelperArgument after 0
6b6579 - | call 7; call 6; exit | Unset after 1
# bytes of the value
# from the second byte on
6b6579 76 | mov64 r3, r2; mov64 r2, r1; add64 r2, 1; mov64 r1, 0; call 4; exit | HelperArgument after 4
# no bytes at the value's end, and behind it: mov64 r3, 0
6b6579 76 | mov64 r3, 0; mov64 r2, r1; add64 r2, 1; mov64 r1, 0; call 4; exit | kept 1 after 6
6b6579 76 | mov64 r3, 0; mov64 r2, r1; add64 r2, 1; add64 r2, 1; mov64 r1, 0; call 4; exit | HelperArgument after 5
# the length is not wrapped: mov64 r3, -1
6b6579 76 | mov64 r3, -1; mov64 r2, r1; add64 r2, 1; mov64 r1, 0; call 4; exit | HelperArgument after 4
# nor is the address: add64 r2, -1
6b6579 76 | mov64 r3, 1; mov64 r2, r1; add64 r2, -1; mov64 r1, 0; call 4; exit | HelperArgument after 4
# an address where the length is: mov64 r3, r1
6b6579 76 | mov64 r3, r1; mov64 r2, r1; mov64 r1, 0; call 4; exit | HelperArgument after 3
6b6579 76 | mov64 r1, 0; call 4; exit | HelperArgument after 1
# the first call has clobbered r2
6b6579 76 | call 7; mov64 r1, 0; call 4; exit | Unset after 2
# four of the eight bytes of the stack are set
6b6579 - | st32 [r10-8], 0; mov64 r2, r10; add64 r2, -8; mov64 r3, 8; mov64 r1, 0; call 4; exit | HelperArgument after 5
# the first of two pieces is right
# mov64 r5, 4: a byte more than the key has
6b6579 76616c7565 | mov64 r6, r3; mov64 r5, 4; mov64 r4, r6; mov64 r3, r2; mov64 r2, r1; mov64 r1, 0; call 5; exit | \
    HelperArgument after 6
# mov64 r3, 6: a byte more than the value has
6b6579 76616c7565 | mov64 r6, r3; mov64 r5, r4; mov64 r4, r6; mov64 r3, 6; mov64 r2, r1; mov64 r1, 0; call 5; exit | \
    HelperArgument after 6
";

#[test]
fn bytes_by_address(rt: HostRuntime) {
    let alloc = rt.alloc();
    all_hold(&rt, BYTES, |row| both(alloc, (Table::One, 1), row));
    all_hold(&rt, NO_BYTES, |row| plain(alloc, (Table::One, 1), row));
}

/// Room for a part: what the key `key` gives.
static ROOM: &str = "\
6b6579 76616c7565 | mov64 r1, r10; add64 r1, -8; mov64 r2, 0; mov64 r3, 3; call 2; ld8 r0, [r10-8]; exit | \
    rejected 107 after 7
6b6579 76616c7565 | mov64 r1, r10; add64 r1, -8; mov64 r2, 0; mov64 r3, 8; call 2; exit | rejected 1 after 6
";

/// Room that is none.
static NO_ROOM: &str = "\
# ld64 r0, [r10-8]: five of its bytes are not set
6b6579 76616c7565 | mov64 r1, r10; add64 r1, -8; mov64 r2, 0; mov64 r3, 3; call 2; ld64 r0, [r10-8]; exit | \
    StackUnset after 5
# mov64 r3, 9 passes the end; mov64 r3, 0 is no byte; mov64 r3, -1 is more than there are
6b6579 76616c7565 | mov64 r1, r10; add64 r1, -8; mov64 r2, 0; mov64 r3, 9; call 2; exit | HelperArgument after 4
6b6579 76616c7565 | mov64 r1, r10; add64 r1, -8; mov64 r2, 0; mov64 r3, 0; call 2; exit | HelperArgument after 4
6b6579 76616c7565 | mov64 r1, r10; add64 r1, -8; mov64 r2, 0; mov64 r3, -1; call 2; exit | HelperArgument after 4
# add64 r1, -520: before the stack
6b6579 76616c7565 | mov64 r1, r10; add64 r1, -520; mov64 r2, 0; mov64 r3, 8; call 2; exit | HelperArgument after 4
# the value is no room
6b6579 76616c7565 | mov64 r2, 0; mov64 r3, 8; call 2; exit | HelperArgument after 2
# nor is a number: mov64 r1, 0
6b6579 76616c7565 | mov64 r1, 0; mov64 r2, 0; mov64 r3, 8; call 2; exit | HelperArgument after 3
# an address as the place; as the length: mov64 r3, r10
6b6579 76616c7565 | mov64 r1, r10; add64 r1, -8; mov64 r2, r10; mov64 r3, 8; call 2; exit | HelperArgument after 4
6b6579 76616c7565 | mov64 r1, r10; add64 r1, -8; mov64 r2, 0; mov64 r3, r10; call 2; exit | HelperArgument after 4
# nothing as the length, where r1 is no address either
6b6579 76616c7565 | call 7; mov64 r1, 0; mov64 r2, 0; call 2; exit | Unset after 3
";

#[test]
fn room_for_a_part(rt: HostRuntime) {
    let alloc = rt.alloc();
    all_hold(&rt, ROOM, |row| both(alloc, (Table::One, 1), row));
    all_hold(&rt, NO_ROOM, |row| plain(alloc, (Table::One, 1), row));
}
