//! Rules: how they are printed, which texts are refused and where, and what conditions are of a record. In a row a
//! semicolon stands for the end of a line.

use crate::tables::{all_hold, three};
use bytes::Bytes;
use kafka_record::RecordRef;
use machine_spec::Place;
use rules::{Rule, RuleFault, chosen, parse, write};
use std::alloc::Global;
use std::test::*;
use wire_spec::{Header, Headers, Record};

/// The text of a row.
fn text_of(alloc: Global, row: &str) -> Option<Vec<u8>> {
    let mut text = Vec::new(alloc);
    for byte in row.bytes() {
        text.push(if byte == b';' { b'\n' } else { byte }).ok()?;
    }
    Some(text)
}

/// Texts, and the one form in which they are printed.
static PRINTED: &str = "\
# the actions
drop | drop 10;
drop 3 | drop 3;
drop 0x10 | drop 16;
tombstone 63 | tombstone 63;
output 0 | output 0;
output hash(key) % 4 | output hash(key) % 4;
output hash ( header \"a\" )%64 | output hash(header \"a\") % 64;
output 3 value[5..] | output 3 value[5..];
output 3 key [ 0 .. 0x100000 ] | output 3 key[0..1048576];
output 4 with value[4..12] = \"********\" | output 4 with value[4..12] = \"********\";
output 1 and header \"a\" = \"\" when offset=0 | output 1 and header \"a\" = \"\" when offset = 0;
# the tests
drop when value is null | drop 10 when value is null;
drop when header \"region\" is absent | drop 10 when header \"region\" is absent;
drop when key=\"a\" | drop 10 when key = \"a\";
drop when value begins \"{\" | drop 10 when value begins \"{\";
drop when value has \"x\" | drop 10 when value has \"x\";
drop when length(value)>65536 | drop 10 when length(value) > 65536;
drop when byte(value, 0) != 0xff | drop 10 when byte(value, 0) != 255;
drop when u16be(key,1)<=7 | drop 10 when u16be(key, 1) <= 7;
drop when u32be(key, 1) < 7 or u64be(key, 1) >= 7 | drop 10 when u32be(key, 1) < 7 or u64be(key, 1) >= 7;
drop when u16le(key, 1) = 7 and u32le(key, 1) = 7 | drop 10 when u16le(key, 1) = 7 and u32le(key, 1) = 7;
drop when u64le(key, 1) = 18446744073709551615 | drop 10 when u64le(key, 1) = 18446744073709551615;
drop when decimal(key, 0, 18) >= 1000 | drop 10 when decimal(key, 0, 18) >= 1000;
drop when timestamp < 1764547200000 | drop 10 when timestamp < 1764547200000;
drop when partition = 1 or headers = 2 | drop 10 when partition = 1 or headers = 2;
# `and` binds closer than `or`, and `not` closest
drop when (offset = 1) | drop 10 when offset = 1;
drop when (offset = 1 and offset = 2) or offset = 3 | drop 10 when offset = 1 and offset = 2 or offset = 3;
drop when offset = 1 and (offset = 2 or offset = 3) | drop 10 when offset = 1 and (offset = 2 or offset = 3);
drop when (offset = 1 or offset = 2) or offset = 3 | drop 10 when (offset = 1 or offset = 2) or offset = 3;
drop when offset = 1 or (offset = 2 or offset = 3) | drop 10 when offset = 1 or offset = 2 or offset = 3;
drop when not (offset = 1) and offset = 2 | drop 10 when not offset = 1 and offset = 2;
drop when not (offset = 1 and offset = 2) | drop 10 when not (offset = 1 and offset = 2);
drop when not not value is null | drop 10 when not not value is null;
# bytes of texts
drop when key = \"\\\"\\\\\\n\\t\\x00\\x7f\\xFF \" | drop 10 when key = \"\\\"\\\\\\n\\t\\x00\\x7f\\xff \";
drop when key = \"\\x41#\" # a comment | drop 10 when key = \"A#\";
drop when key = \"ä\" | drop 10 when key = \"\\xc3\\xa4\";
# lines
# nothing |
 |
; ;drop 1;;\tdrop 2 | drop 1;drop 2;
";

/// Whether a text is printed so, and this is read and printed again.
fn is_printed(alloc: Global, text: &[u8], want: &[u8]) -> Option<bool> {
    let rules = parse(alloc, text).ok()?;
    let printed = write(alloc, &rules).ok()?;
    let again = write(alloc, &parse(alloc, &printed).ok()?).ok()?;
    Some(printed.as_slice() == want && again.as_slice() == want)
}

fn row_is_printed(alloc: Global, row: &str) -> Option<bool> {
    let (text, want) = row.split_once(" |")?;
    let want = want.strip_prefix(' ').unwrap_or(want);
    is_printed(alloc, &text_of(alloc, text)?, &text_of(alloc, want)?)
}

#[test]
fn rules_have_one_printed_form(rt: HostRuntime) {
    all_hold(&rt, PRINTED, |row| row_is_printed(rt.alloc(), row));
}

/// Texts, and their fault with its line and its column.
static REFUSED: &str = "\
keep | E1 Word 1 1
Drop | E1 Word 1 1
drops | E1 Word 1 1
drop;  output | E7 End 2 9
drop # ;output # | E7 End 2 8
drop when | E7 End 1 10
drop if | E1 Word 1 6
drop 1 2 | E1 Word 1 8
drop 0 | E2 Number 1 6
drop 18446744073709551616 | E2 Number 1 6
drop 1x | E2 Number 1 6
drop 0x | E2 Number 1 6
drop 0xfg | E2 Number 1 6
output 64 | E2 Number 1 8
tombstone 64 | E2 Number 1 11
tombstone value | E1 Word 1 11
output hash(key) % 0 | E2 Number 1 20
output hash(key) % 65 | E2 Number 1 20
output hash(key) 4 | E1 Word 1 18
output hash key | E1 Word 1 13
output 1 value | E7 End 1 15
output 1 value[2..1] | E2 Number 1 19
output 1 value[1048577..] | E2 Number 1 16
output 1 value[1. .2] | E1 Word 1 17
output 1 with key[0..1] = \"a\" | E1 Word 1 15
output 1 with value[0..] = \"a\" | E1 Word 1 24
output 1 and key = \"a\" | E1 Word 1 14
drop when value | E7 End 1 16
drop when value is | E7 End 1 19
drop when value is no | E1 Word 1 20
drop when value = 7 | E1 Word 1 19
drop when value == \"a\" | E1 Word 1 18
drop when value != \"a\" | E1 Word 1 17
drop when header = \"a\" | E1 Word 1 18
drop when length value > 1 | E1 Word 1 18
drop when byte(value) = 1 | E1 Word 1 21
drop when byte(value, 1048577) = 1 | E2 Number 1 23
drop when decimal(key, 0, 0) = 1 | E2 Number 1 27
drop when decimal(key, 0, 19) = 1 | E2 Number 1 27
drop when offset | E7 End 1 17
drop when offset = \"a\" | E1 Word 1 20
drop when offset => 1 | E1 Word 1 19
drop when (offset = 1 | E7 End 1 22
drop when offset = 1) | E1 Word 1 21
drop when offset = 1 and | E7 End 1 25
drop when not | E7 End 1 14
drop when offset = 1 offset = 2 | E1 Word 1 22
drop when key = \"a | E3 Text 1 17
drop when key = \"\\a\" | E3 Text 1 17
drop when key = \"\\x4\" | E3 Text 1 17
drop when key = \"a;\" | E3 Text 1 17
";

/// The name of a fault, and its line and column.
fn shown(alloc: Global, fault: RuleFault) -> Option<String> {
    match fault.spot() {
        Some(spot) => {
            let (line, column) = (spot.line, spot.column);
            format!(in alloc; "{fault} {line} {column}").ok()
        }
        None => format!(in alloc; "{fault}").ok(),
    }
}

fn has_fault(alloc: Global, text: &[u8], want: &str) -> Option<bool> {
    match parse(alloc, text) {
        Ok(_) => Some(false),
        Err(fault) => Some(shown(alloc, fault)?.as_str() == want),
    }
}

fn row_has_fault(alloc: Global, row: &str) -> Option<bool> {
    let (text, want) = row.split_once(" | ")?;
    has_fault(alloc, &text_of(alloc, text)?, want)
}

#[test]
fn refused_rules(rt: HostRuntime) {
    all_hold(&rt, REFUSED, |row| row_has_fault(rt.alloc(), row));
}

/// A text of so many pieces between two others.
fn repeated(alloc: Global, first: &str, piece: &str, count: u32, last: &str) -> Option<Vec<u8>> {
    let mut text = Vec::new(alloc);
    text.extend_from_slice(first.as_bytes()).ok()?;
    for _ in 0..count {
        text.extend_from_slice(piece.as_bytes()).ok()?;
    }
    text.extend_from_slice(last.as_bytes()).ok()?;
    Some(text)
}

/// A text in pieces (the first, one that is repeated, how often, and the last), and its fault, or nothing where it has
/// none.
static LIMITS: &str = "\
drop when key = \"/a/255/\" |
drop when key = \"/a/256/\" | E4 Long 1 17
/drop;/1024/ |
/drop;/1025/ | E6 Many 1025 1
;/drop;/1025/drop when | E6 Many 1026 1
drop when /not /97/offset = 1 |
drop when /not /98/offset = 1 | E5 Deep 1 403
drop when offset = 1/ and offset = 1/97/ |
drop when offset = 1/ or offset = 1/97/ |
drop when offset = 1/ or offset = 1/98/ | E5 Deep 1 1383
drop when /(/32/offset = 1 | E7 End 1 53
drop when /(/33/offset = 1 | E5 Deep 1 44
";

fn row_is_limited(alloc: Global, row: &str) -> Option<bool> {
    let (text, want) = row.split_once(" |")?;
    let (first, rest) = text.split_once('/')?;
    let (piece, rest) = rest.split_once('/')?;
    let (count, last) = rest.split_once('/')?;
    let text = repeated(alloc, first, piece, count.parse().ok()?, last)?;
    let mut lines = Vec::new(alloc);
    for byte in &text {
        lines.push(if *byte == b';' { b'\n' } else { *byte }).ok()?;
    }
    if want.is_empty() {
        Some(parse(alloc, &lines).is_ok())
    } else {
        has_fault(alloc, &lines, want.strip_prefix(' ').unwrap_or(want))
    }
}

#[test]
fn limits_of_rules(rt: HostRuntime) {
    all_hold(&rt, LIMITS, |row| row_is_limited(rt.alloc(), row));
}

/// Bytes that are null (`-`), none (`.`) or hex pairs.
fn bytes_of(alloc: Global, word: &str) -> Option<Option<Bytes>> {
    if word == "-" {
        return Some(None);
    }
    if word == "." {
        return Some(Some(Bytes::new()));
    }
    let bytes = hex::decode(alloc, word).ok()?;
    Some(Some(Bytes::from_vec(bytes).ok()?))
}

fn header(alloc: Global, key: &str, value: &str) -> Option<Header> {
    Some(Header {
        key: Bytes::copy_from_slice(alloc, key.as_bytes()).ok()?,
        value: bytes_of(alloc, value)?,
    })
}

/// A record with a key, a value and three headers: `region` is `eu`, `none` is null, and a second `region` is `us`.
fn record_of(alloc: Global, key: Option<Bytes>, value: Option<Bytes>) -> Option<Record> {
    let mut list = Vec::new(alloc);
    list.push(header(alloc, "region", "6575")?).ok()?;
    list.push(header(alloc, "none", "-")?).ok()?;
    list.push(header(alloc, "region", "7573")?).ok()?;
    Some(Record {
        timestamp_delta: 0,
        key,
        value,
        headers: Headers { list },
    })
}

/// Where each record is.
const PLACE: Place = Place {
    partition: 3,
    offset: 5,
    timestamp: 7,
    outputs: 64,
};

/// The rule that takes a record, as it is printed.
fn taken(alloc: Global, rules: &[Rule], given: &Record) -> Option<Vec<u8>> {
    match chosen(rules, &RecordRef::of(given), &PLACE) {
        Some(rule) => write(alloc, std::slice::from_ref(rule)).ok(),
        None => Some(Vec::new(alloc)),
    }
}

/// Whether a condition holds of a record.
fn is_true(alloc: Global, condition: &str, given: &Record) -> Option<bool> {
    let text = format!(in alloc; "drop when {condition}").ok()?;
    let rules = parse(alloc, text.as_bytes()).ok()?;
    Some(chosen(&rules, &RecordRef::of(given), &PLACE).is_some())
}

/// A key and a value, a condition, and whether it holds.
static CONDITIONS: &str = "\
# null and absent
- - | value is null | yes
- . | value is null | no
- . | value is absent | no
- . | key is null and not key is absent | yes
- - | header \"none\" is null | yes
- - | header \"none\" is absent | no
- - | header \"other\" is absent | yes
- - | header \"other\" is null | no
- - | header \"region\" is null or header \"region\" is absent | no
# texts; the first header of a name counts
- 6162 | value = \"ab\" | yes
- 6162 | value = \"a\" | no
- 6162 | value = \"abc\" | no
- . | value = \"\" | yes
- - | value = \"\" | no
- - | not value = \"\" | yes
- - | header \"region\" = \"eu\" | yes
- - | header \"region\" = \"us\" | no
- - | header \"none\" = \"\" | no
- 6162 | value begins \"a\" | yes
- 6162 | value begins \"\" | yes
- 6162 | value begins \"b\" | no
- 6162 | value begins \"abc\" | no
6162 - | value begins \"\" | no
- 616263 | value has \"bc\" | yes
- 616263 | value has \"abc\" | yes
- 616263 | value has \"\" | yes
- . | value has \"\" | yes
- . | value has \"a\" | no
- 616162 | value has \"ab\" | yes
- 616263 | value has \"ac\" | no
- - | value has \"\" | no
# numbers of bytes
- 616263 | length(value) = 3 | yes
- . | length(value) = 0 | yes
- - | length(value) = 0 | no
- - | length(value) < 1 or length(value) >= 0 | no
- - | not length(value) = 0 | yes
- - | length(header \"region\") = 2 | yes
- - | length(header \"other\") = 0 | no
- 01ff | byte(value, 1) = 255 | yes
- 01ff | byte(value, 2) = 0 | no
- 01ff | not byte(value, 2) = 0 | yes
- 0102 | u16be(value, 0) = 0x0102 | yes
- 0102 | u16le(value, 0) = 0x0201 | yes
- 0102 | u16be(value, 1) >= 0 | no
- 0001020304 | u32be(value, 1) = 0x01020304 | yes
- 0001020304 | u32le(value, 1) = 0x04030201 | yes
- 00010203 | u32be(value, 1) >= 0 | no
- 000102030405060708 | u64be(value, 1) = 0x0102030405060708 | yes
- 000102030405060708 | u64le(value, 1) = 0x0807060504030201 | yes
- ffffffffffffffff | u64be(value, 0) = 18446744073709551615 | yes
- 01020304050607 | u64be(value, 0) >= 0 | no
# digits
31303030 - | decimal(key, 0, 4) >= 1000 | yes
30303132 - | decimal(key, 0, 4) = 12 | yes
30303132 - | decimal(key, 0, 5) >= 0 | no
3132 - | decimal(key, 1, 1) = 2 | yes
312d32 - | decimal(key, 0, 3) >= 0 | no
2b31 - | decimal(key, 0, 2) = 1 | no
393939393939393939393939393939393939 - | decimal(key, 0, 18) = 999999999999999999 | yes
# the record's place
- - | offset = 5 and timestamp = 7 and partition = 3 and headers = 3 | yes
- - | offset != 5 or timestamp < 7 or timestamp > 7 or not partition <= 3 | no
- - | timestamp >= 7 and timestamp <= 7 | yes
# conditions
- - | offset = 5 or offset = 6 | yes
- - | offset = 6 or offset = 5 | yes
- - | offset = 6 or offset = 7 | no
- - | offset = 5 and offset = 6 | no
- - | offset = 5 or offset = 6 and offset = 7 | yes
- - | (offset = 5 or offset = 6) and offset = 7 | no
- - | not offset = 6 and offset = 5 | yes
- - | not (offset = 6 or offset = 5) | no
";

fn row_is_true(alloc: Global, row: &str) -> Option<bool> {
    let (given, condition, want) = three(row)?;
    let (key, value) = given.split_once(' ')?;
    let record = record_of(alloc, bytes_of(alloc, key)?, bytes_of(alloc, value)?)?;
    Some(is_true(alloc, condition, &record)? == (want == "yes"))
}

#[test]
fn conditions_of_records(rt: HostRuntime) {
    all_hold(&rt, CONDITIONS, |row| row_is_true(rt.alloc(), row));
}

/// A key and a value, rules, and the first that takes the record.
static CHOSEN: &str = "\
- - | drop 1;drop 2 | drop 1;
- - | drop 1 when offset = 6;drop 2 | drop 2;
- - | drop 1 when offset = 6 |
- - | |
- 61 | drop 1 when value is null;output 2 when value begins \"a\";output 3 | output 2 when value begins \"a\";
- 62 | drop 1 when value is null;output 2 when value begins \"a\";output 3 | output 3;
";

fn row_is_chosen(alloc: Global, row: &str) -> Option<bool> {
    let (given, rest) = row.split_once(" | ")?;
    let (text, want) = rest.split_once('|')?;
    let (key, value) = given.split_once(' ')?;
    let record = record_of(alloc, bytes_of(alloc, key)?, bytes_of(alloc, value)?)?;
    let rules = parse(alloc, &text_of(alloc, text)?).ok()?;
    let want = text_of(alloc, want.strip_prefix(' ').unwrap_or(want))?;
    Some(taken(alloc, &rules, &record)?.as_slice() == want.as_slice())
}

#[test]
fn the_first_rule_takes_a_record(rt: HostRuntime) {
    all_hold(&rt, CHOSEN, |row| row_is_chosen(rt.alloc(), row));
}

/// Whether `has` finds a text that ends at this place of a longer value.
fn is_found(alloc: Global, end: usize) -> Option<bool> {
    let mut value = Vec::new(alloc);
    for place in 0..66_000usize {
        let is_text = place < end && place.saturating_add(2) >= end;
        value.push(if is_text { b'a' } else { b'.' }).ok()?;
    }
    let record = record_of(alloc, None, Some(Bytes::from_vec(value).ok()?))?;
    is_true(alloc, "value has \"aa\"", &record)
}

#[test]
fn a_text_is_looked_for_in_65536_bytes(rt: HostRuntime) {
    assert!(rt; is_found(rt.alloc(), 65_536) == Some(true));
    assert!(rt; is_found(rt.alloc(), 65_537) == Some(false));
}
