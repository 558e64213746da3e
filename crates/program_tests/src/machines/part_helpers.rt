//! Programs that call the helpers over parts of a record.

use crate::machines::{both, emits, is_refused};
use crate::tables::all_hold;
use machine_spec::Table;
use std::test::*;

/// Numbers of a part, under table three.
static ASKED: &str = "\
# the length of the value plus 2; 1 of a null one; of the key, a header's key and its value; a part that isn't there
6b 76616c | mov64 r1, 0; call 13; exit | rejected 5 after 3
6b . | mov64 r1, 0; call 13; exit | rejected 2 after 3
6b - | mov64 r1, 0; call 13; exit | rejected 1 after 3
6b76 - | mov64 r1, 1; call 13; exit | rejected 4 after 3
- - | mov64 r1, 1; call 13; exit | rejected 1 after 3
6b - 686561:- | mov64 r1, 2; call 13; exit | rejected 5 after 3
6b - 68:78 69:- | mov64 r1, 3; call 13; exit | rejected 3 after 3
6b - 68:78 69:- | mov64 r1, 5; call 13; exit | rejected 1 after 3
6b - 68:78 69:- | mov64 r1, 6; call 13; exit | kept 0 after 3
6b - 68:78 | mov64 r1, -1; call 13; exit | kept 0 after 3
# digits: two of them, none, three bytes of which one is none, one past the end, and eighteen
6b 343278 | mov64 r1, 0; mov64 r2, 0; mov64 r3, 2; call 17; exit | rejected 43 after 5
6b 343278 | mov64 r1, 0; mov64 r2, 0; mov64 r3, 0; call 17; exit | kept 0 after 5
6b 343278 | mov64 r1, 0; mov64 r2, 0; mov64 r3, 3; call 17; exit | kept 0 after 5
6b 3432 | mov64 r1, 0; mov64 r2, 1; mov64 r3, 2; call 17; exit | kept 0 after 5
6b 3432 | mov64 r1, 0; mov64 r2, -1; mov64 r3, 2; call 17; exit | kept 0 after 5
6b 303030 | mov64 r1, 0; mov64 r2, 0; mov64 r3, 3; call 17; exit | rejected 1 after 5
6b 39*18 | mov64 r1, 0; mov64 r2, 0; mov64 r3, 18; call 17; exit | rejected 1000000000000000000 after 5
6b 39*19 | mov64 r1, 0; mov64 r2, 0; mov64 r3, 19; call 17; exit | kept 0 after 5
# murmur2 as Kafka's clients have it, without the sign: of `21`, of `foobar`, of no bytes, and 0 of a null part
6b 3231 | mov64 r1, 0; call 18; exit | rejected 1173551340 after 3
6b 666f6f626172 | mov64 r1, 0; call 18; exit | rejected 1357151166 after 3
6b . | mov64 r1, 0; call 18; exit | rejected 275646681 after 3
6b - | mov64 r1, 0; call 18; exit | kept 0 after 3
3231 - | mov64 r1, 1; call 18; exit | rejected 1173551340 after 3
";

#[test]
fn parts_have_lengths_digits_and_hashes(rt: HostRuntime) {
    let alloc = rt.alloc();
    all_hold(&rt, ASKED, |row| both(alloc, (Table::Three, 1), row));
}

/// Bytes that are looked for: those that a store puts at r10-8.
static FOUND: &str = "\
# `b` in `abab`: from the first place, from the third, from the end, and from beyond it
6b 61626162 | st8 [r10-8], 98; mov64 r3, r10; add64 r3, -8; mov64 r4, 1; mov64 r1, 0; mov64 r2, 0; call 15; exit | \
    rejected 2 after 8
6b 61626162 | st8 [r10-8], 98; mov64 r3, r10; add64 r3, -8; mov64 r4, 1; mov64 r1, 0; mov64 r2, 2; call 15; exit | \
    rejected 4 after 8
6b 61626162 | st8 [r10-8], 98; mov64 r3, r10; add64 r3, -8; mov64 r4, 1; mov64 r1, 0; mov64 r2, 4; call 15; exit | \
    kept 0 after 8
6b 61626162 | st8 [r10-8], 98; mov64 r3, r10; add64 r3, -8; mov64 r4, 1; mov64 r1, 0; mov64 r2, -1; call 15; exit | \
    kept 0 after 8
# no bytes stand everywhere up to the end
6b 61626162 | mov64 r3, r10; mov64 r4, 0; mov64 r1, 0; mov64 r2, 4; call 15; exit | rejected 5 after 6
6b 61626162 | mov64 r3, r10; mov64 r4, 0; mov64 r1, 0; mov64 r2, 5; call 15; exit | kept 0 after 6
6b - | mov64 r3, r10; mov64 r4, 0; mov64 r1, 0; mov64 r2, 0; call 15; exit | rejected 1 after 6
# 4,095 places past the first one are looked at, and no more
6b 00*4095 | st8 [r10-8], 0; mov64 r3, r10; add64 r3, -8; mov64 r4, 1; mov64 r1, 0; mov64 r2, 0; call 15; exit | \
    rejected 1 after 8
6b 00*4096 | st8 [r10-8], 1; mov64 r3, r10; add64 r3, -8; mov64 r4, 1; mov64 r1, 0; mov64 r2, 0; call 15; exit | \
    kept 0 after 8
# they are looked for in the key and in a header
6b - | st8 [r10-8], 107; mov64 r3, r10; add64 r3, -8; mov64 r4, 1; mov64 r1, 1; mov64 r2, 0; call 15; exit | \
    rejected 1 after 8
6b - 68:6162 | st8 [r10-8], 98; mov64 r3, r10; add64 r3, -8; mov64 r4, 1; mov64 r1, 3; mov64 r2, 0; call 15; exit | \
    rejected 2 after 8
# bytes that stand at a place, that do not, that would pass the end
6b 61626162 | st16 [r10-8], 25185; mov64 r3, r10; add64 r3, -8; mov64 r4, 2; mov64 r1, 0; mov64 r2, 2; call 16; exit | \
    rejected 1 after 8
6b 61626162 | st16 [r10-8], 25185; mov64 r3, r10; add64 r3, -8; mov64 r4, 2; mov64 r1, 0; mov64 r2, 1; call 16; exit | \
    kept 0 after 8
6b 61 | st16 [r10-8], 25185; mov64 r3, r10; add64 r3, -8; mov64 r4, 2; mov64 r1, 0; mov64 r2, 0; call 16; exit | \
    kept 0 after 8
6b 61 | mov64 r3, r10; mov64 r4, 0; mov64 r1, 0; mov64 r2, 1; call 16; exit | rejected 1 after 6
6b 61 | mov64 r3, r10; mov64 r4, 0; mov64 r1, 0; mov64 r2, 2; call 16; exit | kept 0 after 6
# the first header with a key
6b - 68:78 69:- 69:79 | st8 [r10-8], 105; mov64 r1, r10; add64 r1, -8; mov64 r2, 1; call 19; exit | \
    rejected 2 after 6
6b - 68:78 69:- | st8 [r10-8], 106; mov64 r1, r10; add64 r1, -8; mov64 r2, 1; call 19; exit | kept 0 after 6
6b - 6869:78 68:- | st8 [r10-8], 104; mov64 r1, r10; add64 r1, -8; mov64 r2, 1; call 19; exit | rejected 2 after 6
";

#[test]
fn bytes_are_found_in_parts(rt: HostRuntime) {
    let alloc = rt.alloc();
    all_hold(&rt, FOUND, |row| both(alloc, (Table::Three, 1), row));
}

/// Copies of a piece of a part.
static LOADED: &str = "\
6b 6162 | mov64 r1, r10; add64 r1, -8; mov64 r2, 1; mov64 r3, 1; mov64 r4, 0; call 14; ld8 r0, [r10-8]; exit | \
    rejected 98 after 8
6b 6162 | mov64 r1, r10; add64 r1, -8; mov64 r2, 1; mov64 r3, 2; mov64 r4, 0; call 14; exit | rejected 1 after 7
6b - 68:7879 | mov64 r1, r10; add64 r1, -8; mov64 r2, 1; mov64 r3, 1; mov64 r4, 3; call 14; ld8 r0, [r10-8]; exit | \
    rejected 121 after 8
6b - 68:7879 | mov64 r1, r10; add64 r1, -8; mov64 r2, 0; mov64 r3, 1; mov64 r4, 9; call 14; ld8 r0, [r10-8]; exit | \
    kept 0 after 8
";

#[test]
fn pieces_of_parts_are_copied(rt: HostRuntime) {
    let alloc = rt.alloc();
    all_hold(&rt, LOADED, |row| both(alloc, (Table::Three, 1), row));
}

/// A piece of a part as the value, and a value with a change: the key and the headers stay.
static EMITTED: &str = "\
# a header of five bytes is cut off; the key as the value; a header's value as the value
6b 0001020304616263 68:- | mov64 r1, 0; mov64 r2, 0; mov64 r3, 5; mov64 r4, 3; call 20; exit | 6b 616263 68:-
6b76 - 68:78 | mov64 r1, 0; mov64 r2, 1; mov64 r3, 1; mov64 r4, 1; call 20; exit | 6b76 76 68:78
6b - 68:7879 | mov64 r1, 0; mov64 r2, 3; mov64 r3, 0; mov64 r4, 2; call 20; exit | 6b 7879 68:7879
# no bytes of a null value are an empty value
6b - 68:- | mov64 r1, 0; mov64 r2, 0; mov64 r3, 0; mov64 r4, 0; call 20; exit | 6b . 68:-
# so are those of a header that isn't there, whatever its number
6b 61 68:- | mov64 r1, 0; mov64 r2, 1000; mov64 r3, 0; mov64 r4, 0; call 20; exit | 6b . 68:-
6b 61 68:- | mov64 r1, 0; mov64 r2, -1; mov64 r3, 0; mov64 r4, 0; call 20; exit | 6b . 68:-
# a byte is replaced, left out, put before the first and behind the last
6b 616263 68:- | st8 [r10-8], 42; mov64 r4, r10; add64 r4, -8; mov64 r5, 1; mov64 r1, 0; mov64 r2, 1; mov64 r3, 1; \
    call 21; exit | 6b 612a63 68:-
6b 616263 | mov64 r4, r10; mov64 r5, 0; mov64 r1, 0; mov64 r2, 1; mov64 r3, 1; call 21; exit | 6b 6163
6b 616263 | st8 [r10-8], 42; mov64 r4, r10; add64 r4, -8; mov64 r5, 1; mov64 r1, 0; mov64 r2, 0; mov64 r3, 0; \
    call 21; exit | 6b 2a616263
6b 616263 | st8 [r10-8], 42; mov64 r4, r10; add64 r4, -8; mov64 r5, 1; mov64 r1, 0; mov64 r2, 3; mov64 r3, 0; \
    call 21; exit | 6b 6162632a
# a null value has no bytes, and gets some
6b - 68:- | st8 [r10-8], 42; mov64 r4, r10; add64 r4, -8; mov64 r5, 1; mov64 r1, 0; mov64 r2, 0; mov64 r3, 0; \
    call 21; exit | 6b 2a 68:-
# the key's bytes take the place of the value's
6b76 616263 | mov64 r5, r4; mov64 r4, r3; mov64 r1, 0; mov64 r2, 0; mov64 r3, 2; call 21; exit | 6b76 6b7663
";

#[test]
fn changed_records_are_emitted(rt: HostRuntime) {
    let alloc = rt.alloc();
    all_hold(&rt, EMITTED, |row| emits(alloc, (Table::Three, 1), row));
}

/// Emissions that are refused, by their codes.
static REFUSED: &str = "\
# 1, there is no such output, comes before 4, the part lacks the bytes
6b 6162 | mov64 r1, 9; mov64 r2, 0; mov64 r3, 1; mov64 r4, 2; call 20; exit | rejected 1 after 6
6b 6162 | mov64 r1, 0; mov64 r2, 0; mov64 r3, 1; mov64 r4, 2; call 20; exit | rejected 4 after 6
6b 6162 | mov64 r1, 0; mov64 r2, 0; mov64 r3, -1; mov64 r4, 2; call 20; exit | rejected 4 after 6
6b - | mov64 r1, 0; mov64 r2, 7; mov64 r3, 0; mov64 r4, 1; call 20; exit | rejected 4 after 6
6b 6162 | mov64 r4, r10; mov64 r5, 0; mov64 r1, 9; mov64 r2, 1; mov64 r3, 2; call 21; exit | rejected 1 after 7
6b 6162 | mov64 r4, r10; mov64 r5, 0; mov64 r1, 0; mov64 r2, 1; mov64 r3, 2; call 21; exit | rejected 4 after 7
6b - | mov64 r4, r10; mov64 r5, 0; mov64 r1, 0; mov64 r2, 0; mov64 r3, 1; call 21; exit | rejected 4 after 7
# 5, the value gets one byte longer than it may be
6b 07*1048576 | st8 [r10-8], 42; mov64 r4, r10; add64 r4, -8; mov64 r5, 1; mov64 r1, 0; mov64 r2, 0; mov64 r3, 0; \
    call 21; exit | rejected 5 after 9
6b 07*1048576 | st8 [r10-8], 42; mov64 r4, r10; add64 r4, -8; mov64 r5, 1; mov64 r1, 0; mov64 r2, 0; mov64 r3, 1; \
    call 21; mov64 r0, 0; exit | kept 1 after 10
";

#[test]
fn emissions_of_parts_are_refused(rt: HostRuntime) {
    let alloc = rt.alloc();
    all_hold(&rt, REFUSED, |row| both(alloc, (Table::Three, 1), row));
}

/// Headers that are added to emissions. At the entry r1 and r2 name the value, r3 and r4 the key.
static ADDED: &str = "\
# the header stands after the record's own, and alone where an emission has none of these
6b 61 68:- | call 22; mov64 r1, 0; call 3; exit | 6b 61 68:- 61:6b
6b 61 | call 22; mov64 r1, 0; call 3; exit | 6b 61 61:6b
. 61 68:- | call 22; mov64 r1, 0; call 6; exit | . - 61:.
6b 61 68:- | call 22; mov64 r1, 0; mov64 r2, 1; mov64 r3, 0; mov64 r4, 1; call 20; exit | 6b 6b 68:- 61:6b
6b 61 68:- | call 22; mov64 r4, r10; mov64 r5, 0; mov64 r1, 0; mov64 r2, 0; mov64 r3, 1; call 21; exit | 6b . 68:- 61:6b
# a second one stands after the first
6b 61 | mov64 r6, r1; mov64 r7, r2; mov64 r8, r3; mov64 r9, r4; call 22; mov64 r1, r8; mov64 r2, r9; mov64 r3, r6; \
    mov64 r4, r7; call 22; mov64 r1, 0; call 3; exit | 6b 61 61:6b 6b:61
# the sixteenth, and the longest key
. 61*255 31:- 31:- 31:- 31:- 31:- 31:- 31:- 31:- 31:- 31:- 31:- 31:- 31:- 31:- 31:- | call 22; mov64 r1, 0; call 6; exit | . - 61*255:.
# what is not added
6b ff 68:- | call 22; mov64 r1, 0; call 3; exit | 6b ff 68:-
";

/// What the helper answers.
static NOT_ADDED: &str = "\
6b 61*255 | call 22; exit | kept 0 after 2
6b*4096 61 | call 22; exit | kept 0 after 2
. . | call 22; exit | kept 0 after 2
# there are sixteen, with the record's own; the key is too long, or no text; the value is too long
6b ff 31:- 31:- 31:- 31:- 31:- 31:- 31:- 31:- 31:- 31:- 31:- 31:- 31:- 31:- 31:- 31:- | call 22; exit | rejected 1 after 2
6b 61 31:- 31:- 31:- 31:- 31:- 31:- 31:- 31:- 31:- 31:- 31:- 31:- 31:- 31:- 31:- | mov64 r6, r1; mov64 r7, r2; \
    mov64 r8, r3; mov64 r9, r4; call 22; mov64 r1, r6; mov64 r2, r7; mov64 r3, r8; mov64 r4, r9; call 22; exit | \
    rejected 1 after 11
6b 61*256 | call 22; exit | rejected 2 after 2
6b ff | call 22; exit | rejected 2 after 2
6b c3a4 | call 22; exit | kept 0 after 2
6b 61*4097 | mov64 r6, r1; mov64 r7, r2; mov64 r1, r3; mov64 r2, r4; mov64 r3, r6; mov64 r4, r7; call 22; exit | \
    rejected 3 after 8
";

#[test]
fn headers_are_added(rt: HostRuntime) {
    let alloc = rt.alloc();
    all_hold(&rt, ADDED, |row| emits(alloc, (Table::Three, 1), row));
    all_hold(&rt, NOT_ADDED, |row| both(alloc, (Table::Three, 1), row));
}

/// The trap and the fault of a load under table two, and under table three.
static NO_HELPER: &str = "\
6b - | mov64 r1, 0; call 13; exit | Helper after 1; V11 Helper at 1
";

static WRONG: &str = "\
6b - | mov64 r1, 0; call 23; exit | Helper after 1; V11 Helper at 1
# the part's number is an address; bytes that are not set; room that is none; nothing in r4
6b - | call 13; exit | HelperArgument after 0; V12 HelperArg at 0
6b - | mov64 r3, r10; add64 r3, -8; mov64 r4, 1; mov64 r1, 0; mov64 r2, 0; call 15; exit | HelperArgument after 5; \
    V12 HelperArg at 5
6b - | mov64 r1, r10; mov64 r2, 0; mov64 r3, 1; mov64 r4, 0; call 14; exit | HelperArgument after 4; \
    V12 HelperArg at 4
";

#[test]
fn wrong_calls_over_parts_are_refused(rt: HostRuntime) {
    let alloc = rt.alloc();
    all_hold(
        &rt,
        NO_HELPER,
        |row| is_refused(alloc, (Table::Two, 1), row),
    );
    all_hold(&rt, WRONG, |row| is_refused(alloc, (Table::Three, 1), row));
}
