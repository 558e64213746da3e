//! What C makes of each operation: `tools/dev/arithmetic_vectors.c` prints these rows.

use crate::programs::instruction_of;
use crate::tables::{Words, all_hold};
use arithmetic::compute;
use machine_spec::{Instruction, Operation, Width};
use std::alloc::Global;
use std::test::*;

/// An operation, two numbers, and what C makes of them at 64 and at 32 bits.
static OPERATIONS: &str = "\
add 7 0 7 7
add 100000007 0 100000007 7
add ffffffffffffffff 1 0 0
add 8000000000000000 ffffffffffffffff 7fffffffffffffff ffffffff
add 80000000 ffffffff 17fffffff 7fffffff
add fffffffffffffff9 2 fffffffffffffffb fffffffb
add 123456789abcdef0 25 123456789abcdf15 9abcdf15
add deadbeefcafebabe 1122334455667788 efcff23420653246 20653246
sub 7 0 7 7
sub 100000007 0 100000007 7
sub ffffffffffffffff 1 fffffffffffffffe fffffffe
sub 8000000000000000 ffffffffffffffff 8000000000000001 1
sub 80000000 ffffffff ffffffff80000001 80000001
sub fffffffffffffff9 2 fffffffffffffff7 fffffff7
sub 123456789abcdef0 25 123456789abcdecb 9abcdecb
sub deadbeefcafebabe 1122334455667788 cd8b8bab75984336 75984336
mul 7 0 0 0
mul 100000007 0 0 0
mul ffffffffffffffff 1 ffffffffffffffff ffffffff
mul 8000000000000000 ffffffffffffffff 8000000000000000 0
mul 80000000 ffffffff 7fffffff80000000 80000000
mul fffffffffffffff9 2 fffffffffffffff2 fffffff2
mul 123456789abcdef0 25 a1907f6e5d4c38b0 5d4c38b0
mul deadbeefcafebabe 1122334455667788 d819d0b7bdd586f0 bdd586f0
div 7 0 0 0
div 100000007 0 0 0
div ffffffffffffffff 1 ffffffffffffffff ffffffff
div 8000000000000000 ffffffffffffffff 0 0
div 80000000 ffffffff 0 0
div fffffffffffffff9 2 7ffffffffffffffc 7ffffffc
div 123456789abcdef0 25 7df47fccd4ac14 42e9e3d
div deadbeefcafebabe 1122334455667788 c 2
sdiv 7 0 0 0
sdiv 100000007 0 0 0
sdiv ffffffffffffffff 1 ffffffffffffffff ffffffff
sdiv 8000000000000000 ffffffffffffffff 8000000000000000 0
sdiv 80000000 ffffffff 0 80000000
sdiv fffffffffffffff9 2 fffffffffffffffd fffffffd
sdiv 123456789abcdef0 25 7df47fccd4ac14 fd435ff9
sdiv deadbeefcafebabe 1122334455667788 ffffffffffffffff 0
or 7 0 7 7
or 100000007 0 100000007 7
or ffffffffffffffff 1 ffffffffffffffff ffffffff
or 8000000000000000 ffffffffffffffff ffffffffffffffff ffffffff
or 80000000 ffffffff ffffffff ffffffff
or fffffffffffffff9 2 fffffffffffffffb fffffffb
or 123456789abcdef0 25 123456789abcdef5 9abcdef5
or deadbeefcafebabe 1122334455667788 dfafbfefdffeffbe dffeffbe
and 7 0 0 0
and 100000007 0 0 0
and ffffffffffffffff 1 1 1
and 8000000000000000 ffffffffffffffff 8000000000000000 0
and 80000000 ffffffff 80000000 80000000
and fffffffffffffff9 2 0 0
and 123456789abcdef0 25 20 20
and deadbeefcafebabe 1122334455667788 1020324440663288 40663288
lsh 7 0 7 7
lsh 100000007 0 100000007 7
lsh ffffffffffffffff 1 fffffffffffffffe fffffffe
lsh 8000000000000000 ffffffffffffffff 0 0
lsh 80000000 ffffffff 0 0
lsh fffffffffffffff9 2 ffffffffffffffe4 ffffffe4
lsh 123456789abcdef0 25 579bde0000000000 579bde00
lsh deadbeefcafebabe 1122334455667788 adbeefcafebabe00 febabe00
rsh 7 0 7 7
rsh 100000007 0 100000007 7
rsh ffffffffffffffff 1 7fffffffffffffff 7fffffff
rsh 8000000000000000 ffffffffffffffff 1 0
rsh 80000000 ffffffff 0 1
rsh fffffffffffffff9 2 3ffffffffffffffe 3ffffffe
rsh 123456789abcdef0 25 91a2b3 4d5e6f7
rsh deadbeefcafebabe 1122334455667788 deadbeefcafeba cafeba
mod 7 0 7 7
mod 100000007 0 100000007 7
mod ffffffffffffffff 1 0 0
mod 8000000000000000 ffffffffffffffff 8000000000000000 0
mod 80000000 ffffffff 80000000 80000000
mod fffffffffffffff9 2 1 1
mod 123456789abcdef0 25 c 1f
mod deadbeefcafebabe 1122334455667788 111357bbca31205e 2031cbae
smod 7 0 7 7
smod 100000007 0 100000007 7
smod ffffffffffffffff 1 0 0
smod 8000000000000000 ffffffffffffffff 0 0
smod 80000000 ffffffff 80000000 0
smod fffffffffffffff9 2 ffffffffffffffff ffffffff
smod 123456789abcdef0 25 c fffffff3
smod deadbeefcafebabe 1122334455667788 efcff23420653246 cafebabe
xor 7 0 7 7
xor 100000007 0 100000007 7
xor ffffffffffffffff 1 fffffffffffffffe fffffffe
xor 8000000000000000 ffffffffffffffff 7fffffffffffffff ffffffff
xor 80000000 ffffffff 7fffffff 7fffffff
xor fffffffffffffff9 2 fffffffffffffffb fffffffb
xor 123456789abcdef0 25 123456789abcded5 9abcded5
xor deadbeefcafebabe 1122334455667788 cf8f8dab9f98cd36 9f98cd36
arsh 7 0 7 7
arsh 100000007 0 100000007 7
arsh ffffffffffffffff 1 ffffffffffffffff ffffffff
arsh 8000000000000000 ffffffffffffffff ffffffffffffffff 0
arsh 80000000 ffffffff 0 ffffffff
arsh fffffffffffffff9 2 fffffffffffffffe fffffffe
arsh 123456789abcdef0 25 91a2b3 fcd5e6f7
arsh deadbeefcafebabe 1122334455667788 ffdeadbeefcafeba ffcafeba
";

/// The operation that an instruction of this name computes.
fn operation_of(alloc: Global, name: &str) -> Option<Operation> {
    let line = format!(in alloc; "{name}64 r0, 0").ok()?;
    match instruction_of(alloc, line.as_str())? {
        Instruction::Compute(_, operation, _, _) => Some(operation),
        _ => None,
    }
}

fn row_is_as_in_c(alloc: Global, row: &str) -> Option<bool> {
    let mut words = Words::of(row);
    let operation = operation_of(alloc, words.word()?)?;
    let (a, b) = (words.number()?, words.number()?);
    let is_same = compute(Width::Bits64, operation, a, b) == words.number()?
        && compute(Width::Bits32, operation, a, b) == words.number()?;
    Some(is_same && words.is_read())
}

#[test]
fn operations_as_in_c(rt: HostRuntime) {
    all_hold(&rt, OPERATIONS, |row| row_is_as_in_c(rt.alloc(), row));
}
