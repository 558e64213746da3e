//! Numbers that programs end with, whose expected values are worked out from RFC 9669, and after how many instructions.

use crate::machines::{both, plain};
use crate::tables::all_hold;
use machine_spec::Table;
use std::test::*;

/// A constant, the first byte, the null flags, the lengths of value and key.
static ENDS: &str = "\
6b6579 76 | mov64 r0, 0; exit | kept 0 after 2
6b6579 07 | mov64 r0, 0; jlt64 r2, 1, +1; ld8 r0, [r1+0]; exit | rejected 7 after 4
6b6579 . | mov64 r0, 0; jlt64 r2, 1, +1; ld8 r0, [r1+0]; exit | kept 0 after 3
6b6579 - | mov64 r0, 0; jlt64 r2, 1, +1; ld8 r0, [r1+0]; exit | kept 0 after 3
6b6579 - | mov64 r1, 9; call 3; exit | rejected 1 after 3
# the null flags, and the lengths of value and key
6b6579 - | mov64 r0, r5; exit | rejected 2 after 2
6b6579 3132333435 | mov64 r0, r2; exit | rejected 5 after 2
6b6579 - | mov64 r0, r4; exit | rejected 3 after 2
";

/// After a jump of 32 bits over an unknown opcode.
static UNKNOWN: &str = "\
6b6579 - | mov64 r1, 0; jal +1; ffffffffffffffff; call 3; exit | kept 1 after 4
";

#[test]
fn ends(rt: HostRuntime) {
    let alloc = rt.alloc();
    all_hold(&rt, ENDS, |row| both(alloc, (Table::One, 1), row));
    all_hold(&rt, UNKNOWN, |row| plain(alloc, (Table::One, 1), row));
}

/// Arithmetic: 7 by 0, the least number by -1, signed division, sign extension, shifts, byte orders; stores and jumps.
static NUMBERS: &str = "\
6b6579 - | mov64 r0, 7; div64 r0, 0; exit | kept 0 after 3
6b6579 - | mov64 r0, 7; mod64 r0, 0; exit | rejected 7 after 3
6b6579 - | imm64 r0, 4294967303; mod64 r0, 0; exit | rejected 4294967303 after 3
6b6579 - | imm64 r0, 4294967303; mod32 r0, 0; exit | rejected 7 after 3
6b6579 - | imm64 r0, 9223372036854775808; sdiv64 r0, -1; exit | rejected 9223372036854775808 after 3
6b6579 - | imm64 r0, 9223372036854775808; smod64 r0, -1; exit | kept 0 after 3
6b6579 - | mov64 r0, -7; sdiv64 r0, 2; exit | rejected 18446744073709551613 after 3
6b6579 - | mov64 r0, -7; smod64 r0, 2; exit | rejected 18446744073709551615 after 3
6b6579 - | mov64 r0, 5; div64 r0, -1; exit | kept 0 after 3
6b6579 - | mov64 r0, 5; div32 r0, -1; exit | kept 0 after 3
6b6579 - | mov64 r1, 128; movsx64.8 r0, r1; exit | rejected 18446744073709551488 after 3
6b6579 - | mov64 r1, 128; movsx32.8 r0, r1; exit | rejected 4294967168 after 3
6b6579 - | mov32 r0, -2147483648; arsh32 r0, 33; exit | rejected 3221225472 after 3
6b6579 - | imm64 r1, 1234605616436508552; mov64 r0, r1; le16 r0; exit | rejected 30600 after 4
6b6579 - | imm64 r1, 1234605616436508552; mov64 r0, r1; be16 r0; exit | rejected 34935 after 4
6b6579 - | imm64 r1, 1234605616436508552; mov64 r0, r1; swap32 r0; exit | rejected 2289526357 after 4
6b6579 - | imm64 r1, 1234605616436508552; mov64 r0, r1; exit | rejected 1234605616436508552 after 3
6b6579 - | imm64 r1, 1234605616436508552; mov64 r0, r1; neg32 r0; exit | rejected 2862188664 after 4
# 7 by 0: the quotient is 0, the remainder 7
6b 76 | mov64 r0, 7; div64 r0, 0; exit | kept 0 after 3
6b 76 | mov64 r0, 7; mod64 r0, 0; exit | rejected 7 after 3
# -7 by 2, signed: -3
6b 76 | mov64 r0, -7; sdiv64 r0, 2; exit | rejected 18446744073709551613 after 3
# 5 by 2^64 - 1 and by 2^32 - 1, which are the immediate -1
6b 76 | mov64 r0, 5; div64 r0, -1; exit | kept 0 after 3
6b 76 | mov64 r0, 5; div32 r0, -1; exit | kept 0 after 3
# be16 of 0x1234
6b 76 | mov64 r0, 4660; be16 r0; exit | rejected 13330 after 3
# mov32 of -1
6b 76 | mov64 r0, -1; mov32 r0, r0; exit | rejected 4294967295 after 3
# movsx64.8 and movsx32.8 of 0x80
6b 76 | mov64 r0, 128; movsx64.8 r0, r0; exit | rejected 18446744073709551488 after 3
6b 76 | mov64 r0, 128; movsx32.8 r0, r0; exit | rejected 4294967168 after 3
# arsh32 of 0x80000000 by 33
6b 76 | mov64 r0, -2147483648; arsh32 r0, 33; exit | rejected 3221225472 after 3
# imm64; le16, be16, swap32 of it
6b 76 | imm64 r0, 1234605616436508552; exit | rejected 1234605616436508552 after 2
6b 76 | imm64 r0, 1234605616436508552; le16 r0; exit | rejected 30600 after 3
6b 76 | imm64 r0, 1234605616436508552; be16 r0; exit | rejected 34935 after 3
6b 76 | imm64 r0, 1234605616436508552; swap32 r0; exit | rejected 2289526357 after 3
# stored whole and read back; its low half, its third byte
6b 76 | imm64 r0, 1234605616436508552; stx64 [r10-8], r0; ld64 r0, [r10-8]; exit | rejected 1234605616436508552 after 4
6b 76 | imm64 r0, 1234605616436508552; stx64 [r10-8], r0; ld32 r0, [r10-8]; exit | rejected 1432778632 after 4
6b 76 | imm64 r0, 1234605616436508552; stx64 [r10-8], r0; ld8 r0, [r10-6]; exit | rejected 102 after 4
# its lowest byte read as signed
6b 76 | imm64 r0, 1234605616436508552; stx64 [r10-8], r0; lds8 r0, [r10-8]; exit | rejected 18446744073709551496 after 4
# st64 [r10-8], -2; st8 [r10-8], 1: the other bytes stay
6b 76 | st64 [r10-8], -2; st8 [r10-8], 1; ld64 r0, [r10-8]; exit | rejected 18446744073709551361 after 4
# st32 [r10-8], -2; st32 [r10-4], 0
6b 76 | st32 [r10-8], -2; st32 [r10-4], 0; ld64 r0, [r10-8]; exit | rejected 4294967294 after 4
# st16 [r10-2], -2; lds16 and ld16 of it
6b 76 | st16 [r10-2], -2; lds16 r0, [r10-2]; exit | rejected 18446744073709551614 after 3
6b 76 | st16 [r10-2], -2; ld16 r0, [r10-2]; exit | rejected 65534 after 3
# ja and jal over a wide instruction
6b 76 | mov64 r0, 7; ja +2; imm64 r0, 1234605616436508552; exit | rejected 7 after 3
6b 76 | mov64 r0, 7; jal +2; imm64 r0, 1234605616436508552; exit | rejected 7 after 3
";

#[test]
fn numbers(rt: HostRuntime) {
    let alloc = rt.alloc();
    all_hold(&rt, NUMBERS, |row| both(alloc, (Table::One, 1), row));
}

/// Stores of each size.
static STORES: &str = "\
# st8, st16, st32 of -1 over zeros, st64 of -2
6b6579 fffefdfcfbfaf9f8 | st64 [r10-8], 0; st8 [r10-8], -1; ld64 r0, [r10-8]; exit | rejected 255 after 4
6b6579 fffefdfcfbfaf9f8 | st64 [r10-8], 0; st16 [r10-7], -1; ld64 r0, [r10-8]; exit | rejected 16776960 after 4
6b6579 fffefdfcfbfaf9f8 | st64 [r10-8], 0; st32 [r10-8], -1; ld64 r0, [r10-8]; exit | rejected 4294967295 after 4
6b6579 fffefdfcfbfaf9f8 | st64 [r10-8], -2; ld64 r0, [r10-8]; exit | rejected 18446744073709551614 after 3
# stx8, stx32 and stx64 of 0x1122334455667788
6b6579 fffefdfcfbfaf9f8 | imm64 r1, 1234605616436508552; st64 [r10-8], 0; stx8 [r10-8], r1; ld64 r0, [r10-8]; exit | \
    rejected 136 after 5
6b6579 fffefdfcfbfaf9f8 | imm64 r1, 1234605616436508552; st64 [r10-8], 0; stx32 [r10-8], r1; ld64 r0, [r10-8]; \
    exit | rejected 1432778632 after 5
6b6579 fffefdfcfbfaf9f8 | imm64 r1, 1234605616436508552; stx64 [r10-8], r1; ld64 r0, [r10-8]; exit | \
    rejected 1234605616436508552 after 4
";

/// Loads of each size, by the value `ff fe fd fc fb fa f9 f8`, whose length is not tested.
static LOADS: &str = "\
6b6579 fffefdfcfbfaf9f8 | ld8 r0, [r1+1]; exit | rejected 254 after 2
6b6579 fffefdfcfbfaf9f8 | ld16 r0, [r1+0]; exit | rejected 65279 after 2
6b6579 fffefdfcfbfaf9f8 | ld32 r0, [r1+0]; exit | rejected 4244504319 after 2
6b6579 fffefdfcfbfaf9f8 | ld64 r0, [r1+0]; exit | rejected 17940646550795321087 after 2
6b6579 fffefdfcfbfaf9f8 | lds8 r0, [r1+0]; exit | rejected 18446744073709551615 after 2
6b6579 fffefdfcfbfaf9f8 | lds16 r0, [r1+0]; exit | rejected 18446744073709551359 after 2
6b6579 fffefdfcfbfaf9f8 | lds32 r0, [r1+0]; exit | rejected 18446744073659088639 after 2
# the key's bytes
6b6579 fffefdfcfbfaf9f8 | ld8 r0, [r3+2]; exit | rejected 121 after 2
";

#[test]
fn bytes(rt: HostRuntime) {
    let alloc = rt.alloc();
    all_hold(&rt, STORES, |row| both(alloc, (Table::One, 1), row));
    all_hold(&rt, LOADS, |row| plain(alloc, (Table::One, 1), row));
}
