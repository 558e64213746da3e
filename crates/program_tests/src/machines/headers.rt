//! Programs that read a record's headers.

use crate::machines::{both, is_refused};
use crate::tables::all_hold;
use machine_spec::Table;
use std::test::*;

/// Under table two.
static HEADERS: &str = "\
6b - | mov64 r1, r10; add64 r1, -8; mov64 r2, 0; mov64 r3, 8; call 12; exit | kept 0 after 6
6b - 68:- | mov64 r1, r10; add64 r1, -8; mov64 r2, 0; mov64 r3, 8; call 12; exit | rejected 1 after 6
6b - 68:. | mov64 r1, r10; add64 r1, -8; mov64 r2, 0; mov64 r3, 8; call 12; exit | rejected 2 after 6
6b - 68:4142 | mov64 r1, r10; add64 r1, -8; mov64 r2, 0; mov64 r3, 8; call 12; exit | rejected 4 after 6
6b - 68:07*4096 | mov64 r1, r10; add64 r1, -8; mov64 r2, 0; mov64 r3, 8; call 12; exit | rejected 4098 after 6
6b - 68:4142 | mov64 r1, r10; add64 r1, -8; mov64 r2, -1; mov64 r3, 8; call 12; exit | kept 0 after 6
6b - 68:- | mov64 r1, r10; add64 r1, -8; mov64 r2, 0; mov64 r3, 8; call 11; exit | rejected 2 after 6
6b - 6b*255:- | mov64 r1, r10; add64 r1, -8; mov64 r2, 0; mov64 r3, 8; call 11; exit | rejected 256 after 6
6b - | mov64 r1, r10; add64 r1, -8; mov64 r2, 0; mov64 r3, 8; call 11; exit | kept 0 after 6
6b - 68:- | mov64 r1, r10; add64 r1, -8; mov64 r2, 0; mov64 r3, 8; call 11; ld8 r0, [r10-8]; exit | rejected 104 after 7
# the position is the count, and the last one's
6b - 68:- | mov64 r1, r10; add64 r1, -8; mov64 r2, 1; mov64 r3, 8; call 11; exit | kept 0 after 6
6b - 68:- 7365636f6e64:- | mov64 r1, r10; add64 r1, -8; mov64 r2, 1; mov64 r3, 8; call 11; exit | rejected 7 after 6
# zeros are written after the value's end, and as many bytes as are asked for
6b - 68:6162 | st64 [r10-8], -1; mov64 r1, r10; add64 r1, -8; mov64 r2, 0; mov64 r3, 8; call 12; ld64 r0, [r10-8]; \
    exit | rejected 25185 after 8
6b - 68:- | st64 [r10-8], -1; mov64 r1, r10; add64 r1, -8; mov64 r2, 0; mov64 r3, 8; call 12; ld64 r0, [r10-8]; \
    exit | kept 0 after 8
6b - 68:61626364 | st64 [r10-8], -1; mov64 r1, r10; add64 r1, -8; mov64 r2, 0; mov64 r3, 2; call 12; \
    ld64 r0, [r10-8]; exit | rejected 18446744073709511265 after 8
6b - 68:- 68:- 68:- 68:- 68:- 68:- 68:- 68:- 68:- 68:- 68:- 68:- 68:- 68:- 68:- 68:- | call 10; exit | \
    rejected 16 after 2
6b - | call 10; exit | kept 0 after 2
";

#[test]
fn programs_read_headers(rt: HostRuntime) {
    let alloc = rt.alloc();
    all_hold(&rt, HEADERS, |row| both(alloc, (Table::Two, 1), row));
}

/// The trap and the fault of a load under table one.
static NO_HELPER: &str = "\
6b - 68:- | mov64 r1, r10; add64 r1, -8; mov64 r2, 0; mov64 r3, 8; call 12; exit | Helper after 4; V11 Helper at 4
6b - 68:- | call 10; exit | Helper after 0; V11 Helper at 0
";

/// The same under table two.
static NO_ROOM: &str = "\
# room on the value, no room, and room that passes the stack's end: mov64 r3, 0; mov64 r3, 9
6b - 68:- | mov64 r2, 0; mov64 r3, 8; call 11; exit | HelperArgument after 2; V12 HelperArg at 2
6b - 68:- | mov64 r1, r10; add64 r1, -8; mov64 r2, 0; mov64 r3, 0; call 11; exit | HelperArgument after 4; \
    V12 HelperArg at 4
6b - 68:- | mov64 r1, r10; add64 r1, -8; mov64 r2, 0; mov64 r3, 9; call 12; exit | HelperArgument after 4; \
    V12 HelperArg at 4
";

#[test]
fn wrong_calls_are_refused_and_trapped(rt: HostRuntime) {
    let alloc = rt.alloc();
    all_hold(
        &rt,
        NO_HELPER,
        |row| is_refused(alloc, (Table::One, 1), row),
    );
    all_hold(&rt, NO_ROOM, |row| is_refused(alloc, (Table::Two, 1), row));
}
