//! Compiled rules: what their programs make of records. In a row of rules a semicolon stands for the end of a line.

use crate::programs::{are_same_headers, is_same_part, record_of, run_on};
use crate::tables::{all_hold, three};
use annotate::load;
use exec::{Outcome, Record};
use machine_spec::{Emission, Table};
use notes::Verified;
use rules_compiler::compile_text;
use std::alloc::Global;
use std::test::*;

/// The text of a row.
fn text_of(alloc: Global, row: &str) -> Option<Vec<u8>> {
    let mut text = Vec::new(alloc);
    for byte in row.bytes() {
        text.push(if byte == b';' { b'\n' } else { byte }).ok()?;
    }
    Some(text)
}

/// The program of rules. None where it is refused or memory ran out.
fn program_of(alloc: Global, row: &str) -> Option<Verified> {
    let file = compile_text(alloc, &text_of(alloc, row)?).ok()?;
    if program_file::fits(&file) {
        load(alloc, &file.image, Table::Three).ok()
    } else {
        None
    }
}

/// Whether an emission goes to an output, and is a record.
fn is_emission(emission: &Emission, out: usize, want: &Record) -> bool {
    emission.out == out
        && is_same_part(&emission.key, &want.key)
        && is_same_part(&emission.value, &want.value)
        && are_same_headers(&emission.headers.list, &want.headers.list)
}

/// Whether the one emission is what a text says: an output, and a record.
fn is_one(alloc: Global, emissions: &[Emission], want: &str) -> Option<bool> {
    let (out, record) = want.split_once(' ')?;
    let want = record_of(alloc, record)?;
    match emissions {
        [emission] => Some(is_emission(emission, out.parse().ok()?, &want)),
        _ => Some(false),
    }
}

/// Whether an outcome is what a text says.
fn is_outcome(alloc: Global, outcome: &Outcome, want: &str) -> Option<bool> {
    match outcome {
        Outcome::Rejected(code) => {
            let text = format!(in alloc; "reject {code}").ok()?;
            Some(text.as_str() == want)
        }
        Outcome::Kept(emissions) if want == "none" => Some(emissions.list.is_empty()),
        Outcome::Kept(emissions) => is_one(alloc, &emissions.list, want),
    }
}

/// Whether rules make of a record what a row says, where there are three outputs.
fn is_made(alloc: Global, row: &str) -> Option<bool> {
    let (record, rules, want) = three(row)?;
    let program = program_of(alloc, rules)?;
    let outcome = run_on(alloc, &program, &record_of(alloc, record)?, 3)?;
    is_outcome(alloc, &outcome, want)
}

/// A record, rules, and what they make of it: a reject code, nothing, or an output and what it gets.
static ACTIONS: &str = "\
# no rule takes the record
6b 76 | drop when offset = 6 | none
6b 76 |  | none
6b 76 | drop | reject 10
6b 76 | drop 7 | reject 7
6b 76 | drop 2147483647 | reject 2147483647
6b 76 | drop 2147483648 | reject 2147483648
6b 76 | drop 18446744073709551615 | reject 18446744073709551615
6b 76 68:31 | tombstone 0 | 0 6b -
6b 76 | tombstone 3 | reject 1
6b 76 68:31 | output 2 | 2 6b 76 68:31
6b 76 | output 3 | reject 1
- 76 | output hash(key) % 3 | 0 - 76
# the hash of `abc` is 479470107, of `foobar` 1357151166
616263 76 | output hash(key) % 2 | 1 616263 76
6b 666f6f626172 | output hash(value) % 4 | 2 6b 666f6f626172
6b 76 68:616263 | output hash(header \"h\") % 2 | 1 6b 76 68:616263
6b 76 | output hash(header \"h\") % 3 | 0 6b 76
6b 6162636465 68:31 | output 1 value[1..3] | 1 6b 6263 68:31
6b 6162636465 | output 1 value[1..] | 1 6b 62636465
6b 6162636465 | output 1 value[5..] | 1 6b .
6b 6162636465 | output 1 value[6..] | reject 4
6b 6162636465 | output 1 value[1..6] | reject 4
6b 76 68:6162 | output 1 header \"h\"[1..2] | 1 6b 62 68:6162
6b 76 | output 1 header \"h\"[0..] | 1 6b .
6b 76 | output 1 header \"h\"[1..] | reject 4
6b 76 | output 1 key[0..] | 1 6b 6b
6b - | output 1 value[0..] | 1 6b .
6b 6162636465 | output 1 with value[1..3] = \"*\" | 1 6b 612a6465
6b 6162636465 | output 1 with value[5..5] = \"more\" | 1 6b 61626364656d6f7265
6b 6162636465 | output 1 with value[4..6] = \"*\" | reject 4
6b - | output 1 with value[0..0] = \"\" | 1 6b .
6b 61*1048576 | output 1 with value[0..0] = \"*\" | reject 5
6b 76 | output 3 value[9..] | reject 1
# headers that are added
6b 76 | output 1 and header \"by\" = \"klog\" | 1 6b 76 6279:6b6c6f67
6b 76 68:31 | output 1 and header \"h\" = \"\" | 1 6b 76 68:31 68:.
6b 76 68:- | output 1 and header \"\" = \"\\xff\\x00\" | 1 6b 76 68:- .:ff00
616263 76 68:31 | output hash(key) % 2 and header \"a\" = \"b\" | 1 616263 76 68:31 61:62
6b 6162636465 68:6162 | output 1 header \"h\"[1..2] and header \"a\" = \"b\" | 1 6b 62 68:6162 61:62
6b 6162636465 | output 1 value[1..] and header \"a\" = \"b\" | 1 6b 62636465 61:62
6b 6162636465 | output 1 with value[1..3] = \"*\" and header \"ab\" = \"c\" | 1 6b 612a6465 6162:63
6b 76 61:. 61:. 61:. 61:. 61:. 61:. 61:. 61:. 61:. 61:. 61:. 61:. 61:. 61:. 61:. | output 1 value[0..0] and header \"a\" = \"\" | 1 6b . 61:. 61:. 61:. 61:. 61:. 61:. 61:. 61:. 61:. 61:. 61:. 61:. 61:. 61:. 61:. 61:.
6b 76 61:. 61:. 61:. 61:. 61:. 61:. 61:. 61:. 61:. 61:. 61:. 61:. 61:. 61:. 61:. 61:. | output 3 and header \"\\xff\" = \"b\" | reject 1
6b 76 | output 3 and header \"\\xff\" = \"b\" | reject 2
6b 76 | output 3 and header \"\\xc3\\xa4\" = \"b\" | reject 1
6b 76 | output 1 value[2..] and header \"a\" = \"b\" | reject 4
6b 61*1048576 | output 1 with value[0..0] = \"*\" and header \"a\" = \"b\" | reject 5
6b 76 | tombstone 0 when offset = 6;output 1 and header \"a\" = \"b\" when offset = 5 | 1 6b 76 61:62
6b 76 | output 1 and header \"a\" = \"b\" when offset = 6;output 2 | 2 6b 76
# the first rule that holds
6b 76 | output 0 when key = \"a\";output 1 when key = \"k\";output 2 | 1 6b 76
6b 76 | output 0 when key = \"a\";output 1 when key = \"b\";output 2 | 2 6b 76
# what the first rule asks of the key is read in the key itself
6162 76 | output 0 when key begins \"a\";output 1 | 0 6162 76
6162 76 | output 0 when key = \"a\";output 1 | 1 6162 76
6162 76 | output 0 when key = \"ab\";output 1 | 0 6162 76
61 76 | output 0 when key begins \"ab\";output 1 | 1 61 76
6261 76 | output 0 when not key begins \"a\";output 1 | 0 6261 76
6162 76 | output 0 when not key begins \"a\";output 1 | 1 6162 76
- 76 | output 0 when key begins \"a\";output 1 | 1 - 76
- 76 | output 0 when not key = \"a\";output 1 | 0 - 76
- 76 | output 0 when key = \"\";output 1 | 1 - 76
61*17 76 | output 0 when key begins \"aaaaaaaaaaaaaaaa\";output 1 | 0 61*17 76
61*17 76 | output 0 when key begins \"aaaaaaaaaaaaaaaaa\";output 1 | 0 61*17 76
61*17 76 | output 0 when key = \"aaaaaaaaaaaaaaaa\";output 1 | 1 61*17 76
6162 7677 | drop when not key begins \"a\";output 1 value[1..] when value = \"vw\" and key = \"ab\" | 1 6162 77
6162 7677 | tombstone 2 when key begins \"ab\";drop when value = \"vw\" | 2 6162 -
6162 7677 | tombstone 2 when key begins \"abc\";drop 3 when value = \"vw\" | reject 3
";

#[test]
fn actions(rt: HostRuntime) {
    all_hold(&rt, ACTIONS, |row| is_made(rt.alloc(), row));
}

/// Whether a header with a key and a value of 255 bytes each is added, in front of a change by as long a text.
fn are_long_added(alloc: Global) -> Option<bool> {
    let key = "k".repeat(alloc, 255).ok()?;
    let value = "v".repeat(alloc, 255).ok()?;
    let text = "*".repeat(alloc, 255).ok()?;
    let action = format!(in alloc; "output 0 with value[0..1] = \"{text}\"").ok()?;
    let rules = format!(in alloc; "{action} and header \"{key}\" = \"{value}\"").ok()?;
    is_made(
        alloc,
        &format!(in alloc; "6b 76 | {rules} | 0 6b 2a*255 6b*255:76*255").ok()?,
    )
}

#[test]
fn long_headers(rt: HostRuntime) {
    assert!(rt; are_long_added(rt.alloc()) == Some(true));
}

/// Whether a condition holds of a record, as a row says.
fn is_true(alloc: Global, row: &str) -> Option<bool> {
    let (record, condition, want) = three(row)?;
    let rules = format!(in alloc; "drop 1 when {condition}").ok()?;
    let program = program_of(alloc, &rules)?;
    match run_on(alloc, &program, &record_of(alloc, record)?, 3)? {
        Outcome::Rejected(code) => Some(code == 1 && want == "yes"),
        Outcome::Kept(emissions) => Some(emissions.list.is_empty() && want == "no"),
    }
}

/// A record, a condition, and whether it holds.
static CONDITIONS: &str = "\
- - | value is null | yes
- . | value is null | no
- . | value is absent | no
- . | key is null | yes
- . 68:- | header \"h\" is null | yes
- . 68:- | header \"h\" is absent | no
- . 68:- | header \"i\" is absent | yes
- . 68:- | header \"i\" is null | no
- 6162 | value = \"ab\" | yes
- 6162 | value = \"a\" | no
- 6162 | value = \"abc\" | no
- . | value = \"\" | yes
- - | value = \"\" | no
- - 68:31 68:32 | header \"h\" = \"1\" | yes
- - 68:31 68:32 | header \"h\" = \"2\" | no
- - 68:- | header \"h\" = \"\" | no
- 6162 | value begins \"a\" | yes
- 6162 | value begins \"\" | yes
- - | value begins \"\" | no
- 6162 | value begins \"b\" | no
- 61*5 | value begins \"aaaaa\" | yes
- 61*5 | value begins \"aaaaaa\" | no
- 616263 | value has \"bc\" | yes
- 616263 | value has \"bd\" | no
- . | value has \"\" | yes
- - | value has \"\" | no
- - 68:. | header \"h\" has \"\" | yes
# across the borders of two searches, and at the end of what is looked at
- 2e*4095+6162 | value has \"ab\" | yes
- 2e*4096+6162 | value has \"ab\" | yes
- 2e*8191+6162 | value has \"ab\" | yes
- 2e*61439+6162 | value has \"ab\" | yes
- 2e*65534+6162 | value has \"ab\" | yes
- 2e*65535+6162 | value has \"ab\" | no
- 2e*65534+61622e | value has \"ab\" | yes
- 2e*65535+61622e | value has \"ab\" | no
- 2e*65536+6162 | value has \"ab\" | no
- 2e*65536 | value has \"\" | yes
- 616263 | length(value) = 3 | yes
- . | length(value) = 0 | yes
- - | length(value) = 0 | no
- - | not length(value) = 0 | yes
- - 68:3132 | length(header \"h\") = 2 | yes
- - | length(header \"h\") >= 0 | no
- 01ff | byte(value, 1) = 255 | yes
- 01ff | byte(value, 2) >= 0 | no
- 0102 | u16be(value, 0) = 0x0102 | yes
- 0102 | u16le(value, 0) = 0x0201 | yes
- 0102 | u16be(value, 1) >= 0 | no
- 0001020304 | u32be(value, 1) = 0x01020304 | yes
- 0001020304 | u32le(value, 1) = 0x04030201 | yes
- 000102030405060708 | u64be(value, 1) = 0x0102030405060708 | yes
- 000102030405060708 | u64le(value, 1) = 0x0807060504030201 | yes
- ff*8 | u64be(value, 0) = 18446744073709551615 | yes
- ff*8 | u64be(value, 0) > 9223372036854775808 | yes
- ff*8 | u64be(value, 0) < 2147483648 | no
- ff*7 | u64be(value, 0) >= 0 | no
- ff*7 | u64be(value, 0) != 1 | no
- 000003e7 | u32be(value, 0) < 1000 | yes
- 000003e8 | u32be(value, 0) < 1000 | no
- 000003e8 | u32be(value, 0) <= 1000 | yes
- 000003e8 | u32be(value, 0) != 1000 | no
- 01000000 | u32be(value, 0) != 1 | yes
- 7fffffff | u32be(value, 0) >= 2147483647 | yes
- 80000000 | u32be(value, 0) > 2147483647 | yes
- 80000000 | u32be(value, 0) = 2147483648 | yes
# a load names each of these bytes, and not each of those in the next row
- 00*32760+0102030405060708 | u64be(value, 32760) = 72623859790382856 | yes
- 00*32761+0102030405060708 | u64be(value, 32761) = 72623859790382856 | yes
- 00*32766+0102 | u16be(value, 32766) = 258 | yes
- 00*32767+0102 | u16be(value, 32767) = 258 | yes
- 00*1048575+07 | byte(value, 1048575) = 7 | yes
- 00*1048575+07 | byte(value, 1048576) >= 0 | no
31303030 - | decimal(key, 0, 4) >= 1000 | yes
30303132 - | decimal(key, 0, 4) = 12 | yes
30303132 - | decimal(key, 0, 5) >= 0 | no
30 - | decimal(key, 0, 1) = 0 | yes
312d32 - | decimal(key, 0, 3) >= 0 | no
39*18 - | decimal(key, 0, 18) = 999999999999999999 | yes
- - 68:- | offset = 5 and timestamp = 1000 and partition = 7 and headers = 1 | yes
- - | offset != 5 or timestamp < 1000 or timestamp > 1000 or partition <= 6 | no
- - | timestamp < 1764547200000 | yes
- - | offset = 5 or offset = 6 | yes
- - | offset = 6 or offset = 5 | yes
- - | offset = 6 or offset = 7 | no
- - | offset = 5 and offset = 6 | no
- - | offset = 5 or offset = 6 and offset = 7 | yes
- - | (offset = 5 or offset = 6) and offset = 7 | no
- - | not (offset = 6 or offset = 7) and not offset = 8 | yes
";

#[test]
fn conditions(rt: HostRuntime) {
    all_hold(&rt, CONDITIONS, |row| is_true(rt.alloc(), row));
}

/// A line, repeated.
fn repeated(alloc: Global, line: &str, count: u32) -> Option<Vec<u8>> {
    let mut text = Vec::new(alloc);
    for _ in 0..count {
        text.extend_from_slice(line.as_bytes()).ok()?;
        text.push(b'\n').ok()?;
    }
    Some(text)
}

/// Whether so many lines are compiled to so many slots, or refused with a fault.
fn is_compiled(alloc: Global, row: &str) -> Option<bool> {
    let (count, line, want) = three(row)?;
    let said = match compile_text(alloc, &repeated(alloc, line, count.parse().ok()?)?) {
        Ok(file) => format!(in alloc; "{}", file.image.len() / 8).ok()?,
        Err(fault) => format!(in alloc; "{fault}").ok()?,
    };
    Some(said.as_str() == want)
}

/// How many lines, each of them, and how many slots their image has, or the fault.
static SLOTS: &str = "\
0 | drop | 4
1 | drop | 6
1024 | drop | 2052
# 19 slots a rule, and 4 around all of them
862 | drop when byte(key, 0) = 1 | 16382
863 | drop when byte(key, 0) = 1 | rule 863: E9 Slots
# 198 slots a rule
82 | drop when value has \"a\" | 16240
83 | drop when value has \"a\" | rule 83: E9 Slots
# a text of the key in the first rule, and in another one
1 | drop when key begins \"ab\" | 14
2 | drop when key begins \"ab\" | 31
# bytes of the value one by one, where the highest comes first
1 | drop when u32le(value, 4) < 1000 | 13
1 | drop when u32be(value, 4) < 1000 | 22
1 | drop when u32be(value, 4) < 2147483648 | 28
# a word of each text, and 9 slots more
1 | output 1 and header \"a\" = \"b\" | 18
";

#[test]
fn sizes(rt: HostRuntime) {
    all_hold(&rt, SLOTS, |row| is_compiled(rt.alloc(), row));
}
