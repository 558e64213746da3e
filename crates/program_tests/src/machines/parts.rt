//! Parts of a record that are copied to the last eight bytes of the stack.

use crate::machines::{both, emits};
use crate::tables::all_hold;
use machine_spec::Table;
use std::test::*;

/// The value's first eight bytes as a number, or zeros.
static FIRST_BYTES: &str = "\
6b 0100000000000000 | mov64 r1, r10; add64 r1, -8; mov64 r2, 0; mov64 r3, 8; call 1; ld64 r0, [r10-8]; exit | \
    rejected 1 after 7
6b 01000000000000 | mov64 r1, r10; add64 r1, -8; mov64 r2, 0; mov64 r3, 8; call 1; ld64 r0, [r10-8]; exit | \
    kept 0 after 7
6b 020100000000000009 | mov64 r1, r10; add64 r1, -8; mov64 r2, 0; mov64 r3, 8; call 1; ld64 r0, [r10-8]; exit | \
    rejected 258 after 7
6b . | mov64 r1, r10; add64 r1, -8; mov64 r2, 0; mov64 r3, 8; call 1; ld64 r0, [r10-8]; exit | kept 0 after 7
6b - | mov64 r1, r10; add64 r1, -8; mov64 r2, 0; mov64 r3, 8; call 1; ld64 r0, [r10-8]; exit | kept 0 after 7
";

/// The same from past the end of every value: 2^64 - 1 and 8 are not wrapped.
static PAST_ALL: &str = "\
6b - | mov64 r1, r10; add64 r1, -8; mov64 r2, -1; mov64 r3, 8; call 1; ld64 r0, [r10-8]; exit | kept 0 after 7
6b . | mov64 r1, r10; add64 r1, -8; mov64 r2, -1; mov64 r3, 8; call 1; ld64 r0, [r10-8]; exit | kept 0 after 7
6b 37206279746573 | mov64 r1, r10; add64 r1, -8; mov64 r2, -1; mov64 r3, 8; call 1; ld64 r0, [r10-8]; exit | \
    kept 0 after 7
6b ffffffffffffffffffffffffffffffff | mov64 r1, r10; add64 r1, -8; mov64 r2, -1; mov64 r3, 8; call 1; \
    ld64 r0, [r10-8]; exit | kept 0 after 7
6b 0100000000000000 | mov64 r1, r10; add64 r1, -8; mov64 r2, -1; mov64 r3, 8; call 1; ld64 r0, [r10-8]; exit | \
    kept 0 after 7
";

#[test]
fn copies_the_first_bytes(rt: HostRuntime) {
    let alloc = rt.alloc();
    all_hold(&rt, FIRST_BYTES, |row| both(alloc, (Table::One, 1), row));
    all_hold(&rt, PAST_ALL, |row| both(alloc, (Table::One, 1), row));
}

/// Parts of the value and of the key.
static PARTS: &str = "\
# Two bytes from the second on.
6b 61626364 | mov64 r0, 0; mov64 r1, r10; add64 r1, -8; mov64 r2, 1; mov64 r3, 2; call 1; ld16 r0, [r10-8]; exit | \
    rejected 25442 after 8
6b 61626364 | mov64 r0, 0; mov64 r1, r10; add64 r1, -8; mov64 r2, 1; mov64 r3, 2; call 1; exit; exit | kept 0 after 7
# Four from the second on are not there: zeros, and 1.
6b 61626364 | st64 [r10-8], -1; mov64 r1, r10; add64 r1, -8; mov64 r2, 1; mov64 r3, 4; call 1; exit; exit | \
    rejected 1 after 7
6b 61626364 | st64 [r10-8], -1; mov64 r1, r10; add64 r1, -8; mov64 r2, 1; mov64 r3, 4; call 1; ld64 r0, [r10-8]; \
    exit | rejected 18446744069414584320 after 8
# Bytes behind the part stay.
6b 61626364 | st64 [r10-8], -1; mov64 r1, r10; add64 r1, -8; mov64 r2, 0; mov64 r3, 4; call 1; ld64 r0, [r10-8]; \
    exit | rejected 18446744071098819169 after 8
6b 61626364 | st64 [r10-8], -1; mov64 r1, r10; add64 r1, -8; mov64 r2, 0; mov64 r3, 8; call 1; ld64 r0, [r10-8]; \
    exit | kept 0 after 8
# The key.
6b 61626364 | mov64 r0, 0; mov64 r1, r10; add64 r1, -8; mov64 r2, 0; mov64 r3, 1; call 2; ld8 r0, [r10-8]; exit | \
    rejected 107 after 8
6b 61626364 | mov64 r0, 0; mov64 r1, r10; add64 r1, -8; mov64 r2, 1; mov64 r3, 1; call 2; exit; exit | \
    rejected 1 after 7
6b 61626364 | st64 [r10-8], -1; mov64 r1, r10; add64 r1, -8; mov64 r2, 1; mov64 r3, 1; call 2; ld8 r0, [r10-8]; \
    exit | kept 0 after 8
";

/// A value of up to 512 bytes is copied whole, by its own length.
static WHOLE: &str = "\
6b . | mov64 r0, 0; jlt64 r2, 1, +6; jgt64 r2, 512, +5; mov64 r3, r2; mov64 r2, 0; mov64 r1, r10; add64 r1, -512; \
    call 1; exit | kept 0 after 3
6b 07 | mov64 r0, 0; jlt64 r2, 1, +6; jgt64 r2, 512, +5; mov64 r3, r2; mov64 r2, 0; mov64 r1, r10; add64 r1, -512; \
    call 1; exit | kept 0 after 9
6b 07*511 | mov64 r0, 0; jlt64 r2, 1, +6; jgt64 r2, 512, +5; mov64 r3, r2; mov64 r2, 0; mov64 r1, r10; \
    add64 r1, -512; call 1; exit | kept 0 after 9
6b 07*512 | mov64 r0, 0; jlt64 r2, 1, +6; jgt64 r2, 512, +5; mov64 r3, r2; mov64 r2, 0; mov64 r1, r10; \
    add64 r1, -512; call 1; exit | kept 0 after 9
6b 07*513 | mov64 r0, 0; jlt64 r2, 1, +6; jgt64 r2, 512, +5; mov64 r3, r2; mov64 r2, 0; mov64 r1, r10; \
    add64 r1, -512; call 1; exit | kept 0 after 4
6b - | mov64 r0, 0; jlt64 r2, 1, +6; jgt64 r2, 512, +5; mov64 r3, r2; mov64 r2, 0; mov64 r1, r10; add64 r1, -512; \
    call 1; exit | kept 0 after 3
";

#[test]
fn parts(rt: HostRuntime) {
    let alloc = rt.alloc();
    all_hold(&rt, PARTS, |row| both(alloc, (Table::One, 1), row));
    all_hold(&rt, WHOLE, |row| both(alloc, (Table::One, 1), row));
}

/// A part that was copied is emitted as a value.
static COPIES: &str = "\
6b 61626364 | mov64 r1, r10; add64 r1, -8; mov64 r2, 1; mov64 r3, 2; call 1; mov64 r2, r10; add64 r2, -8; \
    mov64 r3, 2; mov64 r1, 0; call 4; exit | 6b 6263
6b 6162 | mov64 r1, r10; add64 r1, -8; mov64 r2, 1; mov64 r3, 2; call 1; mov64 r2, r10; add64 r2, -8; mov64 r3, 2; \
    mov64 r1, 0; call 4; exit | 6b 0000
";

#[test]
fn emits_what_was_copied(rt: HostRuntime) {
    let alloc = rt.alloc();
    all_hold(&rt, COPIES, |row| emits(alloc, (Table::One, 1), row));
}
