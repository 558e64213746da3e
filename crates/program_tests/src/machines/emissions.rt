//! Emissions of a record as it is, of bytes by address and without a value.

use crate::machines::{both, emits};
use crate::tables::all_hold;
use machine_spec::Table;
use std::test::*;

/// Key, value and headers of the one emission.
static EMITTED: &str = "\
# the record as it is, with its header, and without a value
6b 76616c7565 68:- | mov64 r1, 0; call 3; exit | 6b 76616c7565 68:-
6b 76616c7565 68:- | mov64 r1, 0; call 6; exit | 6b -
# the value, without headers; a null one is emitted as an empty one
6b 76616c7565 68:- | mov64 r3, r2; mov64 r2, r1; mov64 r1, 0; call 4; exit | 6b 76616c7565
6b . 68:- | mov64 r3, r2; mov64 r2, r1; mov64 r1, 0; call 4; exit | 6b .
6b - 68:- | mov64 r3, r2; mov64 r2, r1; mov64 r1, 0; call 4; exit | 6b .
# two bytes of the value from its second on, where it has three
6b 61626364 | mov64 r0, 0; jlt64 r2, 3, +5; mov64 r2, r1; add64 r2, 1; mov64 r3, 2; mov64 r1, 0; call 4; exit | 6b 6263
# bytes of the stack are copied: a later store does not change them
6b 76616c7565 | st32 [r10-8], 67305985; mov64 r2, r10; add64 r2, -8; mov64 r3, 4; mov64 r1, 0; call 4; \
    st32 [r10-8], 0; exit | 6b 01020304
# key and value change places; a null key is emitted as an empty value
6b 76616c7565 68:- | mov64 r6, r3; mov64 r5, r4; mov64 r4, r6; mov64 r3, r2; mov64 r2, r1; mov64 r1, 0; call 5; \
    exit | 76616c7565 6b
6b - 68:- | mov64 r6, r3; mov64 r5, r4; mov64 r4, r6; mov64 r3, r2; mov64 r2, r1; mov64 r1, 0; call 5; exit | . 6b
- 76616c7565 | mov64 r6, r3; mov64 r5, r4; mov64 r4, r6; mov64 r3, r2; mov64 r2, r1; mov64 r1, 0; call 5; exit | \
    76616c7565 .
";

#[test]
fn emissions(rt: HostRuntime) {
    let alloc = rt.alloc();
    all_hold(&rt, EMITTED, |row| emits(alloc, (Table::One, 1), row));
}

/// The tenth output of two. It goes before a long key.
static NO_OUTPUT: &str = "\
6b 76 | mov64 r1, 9; call 3; exit | rejected 1 after 3
6b 76616c7565 68:- | mov64 r1, 9; call 6; exit | rejected 1 after 3
6b 07*4096 | mov64 r6, r3; mov64 r5, r4; mov64 r4, r6; mov64 r3, r2; mov64 r2, r1; mov64 r1, 0; call 5; exit | \
    kept 1 after 8
6b 07*4097 | mov64 r6, r3; mov64 r5, r4; mov64 r4, r6; mov64 r3, r2; mov64 r2, r1; mov64 r1, 0; call 5; exit | \
    rejected 2 after 8
6b 07*4097 | mov64 r6, r3; mov64 r5, r4; mov64 r4, r6; mov64 r3, r2; mov64 r2, r1; mov64 r1, 9; call 5; exit | \
    rejected 1 after 8
6b 07*4096 | mov64 r6, r3; mov64 r5, r4; mov64 r4, r6; mov64 r3, r2; mov64 r2, r1; mov64 r1, 9; call 5; exit | \
    rejected 1 after 8
";

/// Of ten.
static TENTH: &str = "\
6b 76 | mov64 r1, 9; call 3; exit | kept 1 after 3
";

#[test]
fn outputs_and_long_keys(rt: HostRuntime) {
    let alloc = rt.alloc();
    all_hold(&rt, NO_OUTPUT, |row| both(alloc, (Table::One, 2), row));
    all_hold(&rt, TENTH, |row| both(alloc, (Table::One, 10), row));
}

/// Up to sixteen emissions.
static COUNTS: &str = "\
6b 76 | mov64 r1, 0; call 3; mov64 r1, 0; call 3; mov64 r1, 0; call 3; mov64 r1, 0; call 3; mov64 r1, 0; call 3; \
    mov64 r1, 0; call 3; mov64 r1, 0; call 3; mov64 r1, 0; call 3; mov64 r1, 0; call 3; mov64 r1, 0; call 3; \
    mov64 r1, 0; call 3; mov64 r1, 0; call 3; mov64 r1, 0; call 3; mov64 r1, 0; call 3; mov64 r1, 0; call 3; \
    mov64 r1, 0; call 3; exit | kept 16 after 33
6b 76 | mov64 r1, 0; call 3; mov64 r1, 0; call 3; mov64 r1, 0; call 3; mov64 r1, 0; call 3; mov64 r1, 0; call 3; \
    mov64 r1, 0; call 3; mov64 r1, 0; call 3; mov64 r1, 0; call 3; mov64 r1, 0; call 3; mov64 r1, 0; call 3; \
    mov64 r1, 0; call 3; mov64 r1, 0; call 3; mov64 r1, 0; call 3; mov64 r1, 0; call 3; mov64 r1, 0; call 3; \
    mov64 r1, 0; call 3; mov64 r1, 0; call 3; exit | rejected 3 after 35
# the seventeenth of the value as a key, where a long key goes before a full list
6b 07*4096 | mov64 r6, r1; mov64 r7, r2; mov64 r8, r3; mov64 r9, r4; mov64 r1, 0; call 6; mov64 r1, 0; call 6; \
    mov64 r1, 0; call 6; mov64 r1, 0; call 6; mov64 r1, 0; call 6; mov64 r1, 0; call 6; mov64 r1, 0; call 6; \
    mov64 r1, 0; call 6; mov64 r1, 0; call 6; mov64 r1, 0; call 6; mov64 r1, 0; call 6; mov64 r1, 0; call 6; \
    mov64 r1, 0; call 6; mov64 r1, 0; call 6; mov64 r1, 0; call 6; mov64 r1, 0; call 6; mov64 r2, r6; mov64 r3, r7; \
    mov64 r4, r8; mov64 r5, r9; mov64 r1, 0; call 5; exit | rejected 3 after 43
6b 07*4097 | mov64 r6, r1; mov64 r7, r2; mov64 r8, r3; mov64 r9, r4; mov64 r1, 0; call 6; mov64 r1, 0; call 6; \
    mov64 r1, 0; call 6; mov64 r1, 0; call 6; mov64 r1, 0; call 6; mov64 r1, 0; call 6; mov64 r1, 0; call 6; \
    mov64 r1, 0; call 6; mov64 r1, 0; call 6; mov64 r1, 0; call 6; mov64 r1, 0; call 6; mov64 r1, 0; call 6; \
    mov64 r1, 0; call 6; mov64 r1, 0; call 6; mov64 r1, 0; call 6; mov64 r1, 0; call 6; mov64 r2, r6; mov64 r3, r7; \
    mov64 r4, r8; mov64 r5, r9; mov64 r1, 0; call 5; exit | rejected 2 after 43
# no bytes from the end of the stack on are a value, also in a program that stores none
6b 76 | mov64 r2, r10; mov64 r1, 0; mov64 r3, 0; call 4; exit | kept 1 after 5
# no part, where the value has two bytes
6b 6162 | mov64 r0, 0; jlt64 r2, 3, +5; mov64 r2, r1; add64 r2, 1; mov64 r3, 2; mov64 r1, 0; call 4; exit | \
    kept 0 after 3
";

#[test]
fn at_most_sixteen_emissions(rt: HostRuntime) {
    let alloc = rt.alloc();
    all_hold(&rt, COUNTS, |row| both(alloc, (Table::One, 1), row));
}
