//! What C makes of each change of a number and each test of a jump: `tools/dev/arithmetic_vectors.c` prints these rows.

use crate::programs::instruction_of;
use crate::tables::{Words, all_hold};
use arithmetic::{change, test};
use machine_spec::{Change, Instruction, Test, Width};
use std::alloc::Global;
use std::test::*;

/// A change, a number, and what C makes of it.
static CHANGES: &str = "\
neg64 0 0
neg32 0 0
le16 0 0
le32 0 0
le64 0 0
be16 0 0
be32 0 0
be64 0 0
swap16 0 0
swap32 0 0
swap64 0 0
movsx64.8 0 0
movsx64.16 0 0
movsx64.32 0 0
movsx32.8 0 0
movsx32.16 0 0
neg64 80 ffffffffffffff80
neg32 80 ffffff80
le16 80 80
le32 80 80
le64 80 80
be16 80 8000
be32 80 80000000
be64 80 8000000000000000
swap16 80 8000
swap32 80 80000000
swap64 80 8000000000000000
movsx64.8 80 ffffffffffffff80
movsx64.16 80 80
movsx64.32 80 80
movsx32.8 80 ffffff80
movsx32.16 80 80
neg64 7f ffffffffffffff81
neg32 7f ffffff81
le16 7f 7f
le32 7f 7f
le64 7f 7f
be16 7f 7f00
be32 7f 7f000000
be64 7f 7f00000000000000
swap16 7f 7f00
swap32 7f 7f000000
swap64 7f 7f00000000000000
movsx64.8 7f 7f
movsx64.16 7f 7f
movsx64.32 7f 7f
movsx32.8 7f 7f
movsx32.16 7f 7f
neg64 8000 ffffffffffff8000
neg32 8000 ffff8000
le16 8000 8000
le32 8000 8000
le64 8000 8000
be16 8000 80
be32 8000 800000
be64 8000 80000000000000
swap16 8000 80
swap32 8000 800000
swap64 8000 80000000000000
movsx64.8 8000 0
movsx64.16 8000 ffffffffffff8000
movsx64.32 8000 8000
movsx32.8 8000 0
movsx32.16 8000 ffff8000
neg64 80000000 ffffffff80000000
neg32 80000000 80000000
le16 80000000 0
le32 80000000 80000000
le64 80000000 80000000
be16 80000000 0
be32 80000000 80
be64 80000000 8000000000
swap16 80000000 0
swap32 80000000 80
swap64 80000000 8000000000
movsx64.8 80000000 0
movsx64.16 80000000 0
movsx64.32 80000000 ffffffff80000000
movsx32.8 80000000 0
movsx32.16 80000000 0
neg64 1122334455667788 eeddccbbaa998878
neg32 1122334455667788 aa998878
le16 1122334455667788 7788
le32 1122334455667788 55667788
le64 1122334455667788 1122334455667788
be16 1122334455667788 8877
be32 1122334455667788 88776655
be64 1122334455667788 8877665544332211
swap16 1122334455667788 8877
swap32 1122334455667788 88776655
swap64 1122334455667788 8877665544332211
movsx64.8 1122334455667788 ffffffffffffff88
movsx64.16 1122334455667788 7788
movsx64.32 1122334455667788 55667788
movsx32.8 1122334455667788 ffffff88
movsx32.16 1122334455667788 7788
neg64 ffffffffffffffff 1
neg32 ffffffffffffffff 1
le16 ffffffffffffffff ffff
le32 ffffffffffffffff ffffffff
le64 ffffffffffffffff ffffffffffffffff
be16 ffffffffffffffff ffff
be32 ffffffffffffffff ffffffff
be64 ffffffffffffffff ffffffffffffffff
swap16 ffffffffffffffff ffff
swap32 ffffffffffffffff ffffffff
swap64 ffffffffffffffff ffffffffffffffff
movsx64.8 ffffffffffffffff ffffffffffffffff
movsx64.16 ffffffffffffffff ffffffffffffffff
movsx64.32 ffffffffffffffff ffffffffffffffff
movsx32.8 ffffffffffffffff ffffffff
movsx32.16 ffffffffffffffff ffffffff
";

/// The change that an instruction of this name makes.
fn change_of(alloc: Global, name: &str) -> Option<Change> {
    let operands = if name.starts_with("movsx") {
        "r0, r0"
    } else {
        "r0"
    };
    let line = format!(in alloc; "{name} {operands}").ok()?;
    match instruction_of(alloc, line.as_str())? {
        Instruction::Unary(change, _, _) => Some(change),
        _ => None,
    }
}

fn change_is_as_in_c(alloc: Global, row: &str) -> Option<bool> {
    let mut words = Words::of(row);
    let made = change(change_of(alloc, words.word()?)?, words.number()?);
    Some(made == words.number()? && words.is_read())
}

#[test]
fn changes_as_in_c(rt: HostRuntime) {
    all_hold(&rt, CHANGES, |row| change_is_as_in_c(rt.alloc(), row));
}

/// A test, two numbers, and whether it holds at 64 and at 32 bits in C: 1 where it does, else 0.
static TESTS: &str = "\
jeq 5 5 1 1
jeq 4 5 0 0
jeq 5 4 0 0
jeq ffffffffffffffff 0 0 0
jeq 0 ffffffff80000000 0 0
jeq 100000005 5 0 1
jeq 80000000 1 0 0
jne 5 5 0 0
jne 4 5 1 1
jne 5 4 1 1
jne ffffffffffffffff 0 1 1
jne 0 ffffffff80000000 1 1
jne 100000005 5 1 0
jne 80000000 1 1 1
jgt 5 5 0 0
jgt 4 5 0 0
jgt 5 4 1 1
jgt ffffffffffffffff 0 1 1
jgt 0 ffffffff80000000 0 0
jgt 100000005 5 1 0
jgt 80000000 1 1 1
jge 5 5 1 1
jge 4 5 0 0
jge 5 4 1 1
jge ffffffffffffffff 0 1 1
jge 0 ffffffff80000000 0 0
jge 100000005 5 1 1
jge 80000000 1 1 1
jlt 5 5 0 0
jlt 4 5 1 1
jlt 5 4 0 0
jlt ffffffffffffffff 0 0 0
jlt 0 ffffffff80000000 1 1
jlt 100000005 5 0 0
jlt 80000000 1 0 0
jle 5 5 1 1
jle 4 5 1 1
jle 5 4 0 0
jle ffffffffffffffff 0 0 0
jle 0 ffffffff80000000 1 1
jle 100000005 5 0 1
jle 80000000 1 0 0
jset 5 5 1 1
jset 4 5 1 1
jset 5 4 1 1
jset ffffffffffffffff 0 0 0
jset 0 ffffffff80000000 0 0
jset 100000005 5 1 1
jset 80000000 1 0 0
jsgt 5 5 0 0
jsgt 4 5 0 0
jsgt 5 4 1 1
jsgt ffffffffffffffff 0 0 0
jsgt 0 ffffffff80000000 1 1
jsgt 100000005 5 1 0
jsgt 80000000 1 1 0
jsge 5 5 1 1
jsge 4 5 0 0
jsge 5 4 1 1
jsge ffffffffffffffff 0 0 0
jsge 0 ffffffff80000000 1 1
jsge 100000005 5 1 1
jsge 80000000 1 1 0
jslt 5 5 0 0
jslt 4 5 1 1
jslt 5 4 0 0
jslt ffffffffffffffff 0 1 1
jslt 0 ffffffff80000000 0 0
jslt 100000005 5 0 0
jslt 80000000 1 0 1
jsle 5 5 1 1
jsle 4 5 1 1
jsle 5 4 0 0
jsle ffffffffffffffff 0 1 1
jsle 0 ffffffff80000000 0 0
jsle 100000005 5 0 1
jsle 80000000 1 0 1
";

/// The test of a jump of this name.
fn test_of(alloc: Global, name: &str) -> Option<Test> {
    let line = format!(in alloc; "{name}64 r0, 0, +0").ok()?;
    match instruction_of(alloc, line.as_str())? {
        Instruction::JumpIf(_, test, _, _, _) => Some(test),
        _ => None,
    }
}

fn holds_as_in_c(alloc: Global, row: &str) -> Option<bool> {
    let mut words = Words::of(row);
    let of = test_of(alloc, words.word()?)?;
    let (a, b) = (words.number()?, words.number()?);
    let is_same = u64::from(test(Width::Bits64, of, a, b)) == words.number()?
        && u64::from(test(Width::Bits32, of, a, b)) == words.number()?;
    Some(is_same && words.is_read())
}

#[test]
fn tests_as_in_c(rt: HostRuntime) {
    all_hold(&rt, TESTS, |row| holds_as_in_c(rt.alloc(), row));
}
