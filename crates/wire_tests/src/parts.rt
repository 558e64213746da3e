//! Parts of records, which programs name by numbers.

use crate::verdicts::all_hold;
use bytes::Bytes;
use kafka_record::{Header, Headers, Record, RecordRef};
use record_parts::{Part, bytes_at, decimal, equals, find, hash, header, part_length};
use std::alloc::{AllocError, Global};
use std::test::*;

fn header_with(key: &'static [u8], value: Option<&'static [u8]>) -> Header {
    Header {
        key: Bytes::from_static(key),
        value: value.map(Bytes::from_static),
    }
}

/// The record of the rows below.
fn record(alloc: Global) -> Result<Record, AllocError> {
    let mut list = Vec::new(alloc);
    list.push(header_with(b"trace", Some(b"abc")))?;
    list.push(header_with(b"trace", None))?;
    list.push(header_with(b"9:/0", Some(b"99999999999999999999")))?;
    list.push(header_with(b"", Some(b"")))?;
    Ok(Record {
        timestamp_delta: 0,
        key: Some(Bytes::from_static(b"k42")),
        value: Some(Bytes::from_static(b"level=warn;level=info;code=00404")),
        headers: Headers { list },
    })
}

/// A record with this value, and nothing else.
fn valued(alloc: Global, value: Bytes) -> Record {
    Record {
        timestamp_delta: 0,
        key: None,
        value: Some(value),
        headers: Headers {
            list: Vec::new(alloc),
        },
    }
}

/// A row is what a call answers, its function, and its part, place and bytes, of which `-` are none.
static CALLS: &str = "\
34 length 0
5 length 1
7 length 2
5 length 3
7 length 4
1 length 5
6 length 6
22 length 7
2 length 8
2 length 9
0 length 10
0 length 11
0 length 18446744073709551615
1 find 0 0 level=
12 find 0 1 level=
12 find 0 11 level=
0 find 0 12 level=
28 find 0 0 00404
0 find 0 0 004040
30 find 0 27 4
0 find 0 32 4
1 find 0 0 -
33 find 0 32 -
0 find 0 33 -
0 find 0 18446744073709551615 -
0 find 0 18446744073709551615 l
2 find 1 0 42
3 find 2 0 ac
3 find 3 1 c
0 find 5 0 c
1 find 5 0 -
0 find 5 1 -
0 find 10 0 c
1 equals 0 0 level
1 equals 0 11 level
0 equals 0 10 level
1 equals 0 29 404
0 equals 0 29 4040
1 equals 0 32 -
0 equals 0 33 -
0 equals 0 18446744073709551615 l
1 equals 1 0 k42
0 equals 5 0 c
0 equals 11 0 c
405 decimal 0 27 5
0 decimal 0 27 6
0 decimal 0 26 5
0 decimal 0 27 0
43 decimal 1 1 2
0 decimal 1 18446744073709551615 1
0 decimal 1 1 18446744073709551615
10 decimal 6 0 1
0 decimal 6 1 1
0 decimal 6 2 1
1 decimal 6 3 1
1000000000000000000 decimal 7 0 18
1000000000000000000 decimal 7 2 18
0 decimal 7 0 19
0 decimal 5 0 1
479470107 hash 3
0 hash 5
275646681 hash 8
0 hash 10
1 header trace
3 header 9:/0
4 header -
0 header trac
0 header traces
";

/// The bytes of a word.
fn bytes_of(word: &str) -> &[u8] {
    if word == "-" { &[] } else { word.as_bytes() }
}

fn part(word: &str) -> Option<Part> {
    Some(Part::numbered(word.parse().ok()?))
}

/// What a function answers of a part.
fn of_part(given: &RecordRef, name: &str, part: Part) -> Option<u64> {
    match name {
        "length" => Some(part_length(given, part)),
        "hash" => Some(hash(given, part)),
        _ => None,
    }
}

/// What a function answers of a place of a part.
fn of_place(given: &RecordRef, name: &str, part: Part, place: u64, word: &str) -> Option<u64> {
    match name {
        "find" => Some(find(given, part, place, bytes_of(word))),
        "equals" => Some(u64::from(equals(given, part, place, bytes_of(word)))),
        "decimal" => Some(decimal(given, part, place, word.parse().ok()?)),
        _ => None,
    }
}

/// What a call answers.
fn answer(given: &RecordRef, name: &str, words: &str) -> Option<u64> {
    if name == "header" {
        return Some(header(given, bytes_of(words)));
    }
    let Some((first, rest)) = words.split_once(' ') else {
        return of_part(given, name, part(words)?);
    };
    let (place, word) = rest.split_once(' ')?;
    of_place(given, name, part(first)?, place.parse().ok()?, word)
}

/// Whether a row's call answers what the row says.
fn is_right(given: &RecordRef, row: &str) -> Option<bool> {
    let (want, call) = row.split_once(' ')?;
    let (name, words) = call.split_once(' ')?;
    Some(answer(given, name, words)? == want.parse().ok()?)
}

/// The number of the first row that is wrong.
fn first_wrong(alloc: Global, rows: &str) -> Option<usize> {
    let Ok(record) = record(alloc) else {
        return Some(usize::MAX);
    };
    let given = RecordRef::of(&record);
    for (k, row) in rows.lines().enumerate() {
        if is_right(&given, row) != Some(true) {
            return Some(k);
        }
    }
    None
}

#[test]
fn parts_are_read(rt: HostRuntime) {
    all_hold(&rt, first_wrong(rt.alloc(), CALLS));
}

/// A part, a place, how many bytes are asked for, and the bytes that are there.
static BYTES: [(u64, u64, u64, Option<&[u8]>); 8] = [
    (0, 6, 4, Some(b"warn")),
    (0, 32, 0, Some(b"")),
    (0, 33, 0, None),
    (0, 31, 2, None),
    (0, 1, u64::MAX, None),
    (0, u64::MAX, 1, None),
    (3, 0, 3, Some(b"abc")),
    (5, 0, 1, None),
];

fn first_other_bytes(alloc: Global, rows: &[(u64, u64, u64, Option<&[u8]>)]) -> Option<usize> {
    let Ok(record) = record(alloc) else {
        return Some(rows.len());
    };
    let given = RecordRef::of(&record);
    for (k, row) in rows.iter().enumerate() {
        if bytes_at(&given, Part::numbered(row.0), row.1, row.2) != row.3 {
            return Some(k);
        }
    }
    None
}

#[test]
fn bytes_are_all_there_or_none(rt: HostRuntime) {
    all_hold(&rt, first_other_bytes(rt.alloc(), &BYTES));
}

/// A text and its hash. The first six are of the tests of Kafka's own client (`UtilsTest.testMurmur2`), all are those of
/// `kafka.partitioner.default.murmur2` of python3-kafka 2.0.2, and the sign bit is cleared.
static HASHES: [(&str, u64); 13] = [
    ("21", 1_173_551_340),
    ("foobar", 1_357_151_166),
    ("a-little-bit-long-string", 1_161_502_112),
    ("a-little-bit-longer-string", 661_178_819),
    (
        "lkjh234lh9fiuh90y23oiuhsafujhadof229phr9h19h89h8",
        2_088_585_677,
    ),
    ("abc", 479_470_107),
    ("", 275_646_681),
    ("a", 584_102_524),
    ("ab", 316_155_434),
    ("abcd", 823_834_100),
    ("abcde", 461_995_741),
    ("schlüssel", 331_429_656),
    ("ключ", 2_122_343_024),
];

/// The hash of a value.
fn hash_of(alloc: Global, text: &'static str) -> u64 {
    let record = valued(alloc, Bytes::from_static(text.as_bytes()));
    hash(&RecordRef::of(&record), Part::Value)
}

fn first_other_hash(alloc: Global, rows: &[(&'static str, u64)]) -> Option<usize> {
    for (k, row) in rows.iter().enumerate() {
        if hash_of(alloc, row.0) != row.1 {
            return Some(k);
        }
    }
    None
}

#[test]
fn hashes_are_those_of_clients(rt: HostRuntime) {
    all_hold(&rt, first_other_hash(rt.alloc(), &HASHES));
}

/// How long a value of bytes `a` is, where a `b` is in it, from where and for what is searched, and what is found: a place
/// is at most 4,095 past the one that a search begins at.
static FAR: [(usize, usize, u64, &[u8], u64); 8] = [
    (5_000, 4_095, 0, b"ba", 4_096),
    (5_000, 4_096, 0, b"ba", 0),
    (5_000, 4_096, 1, b"ba", 4_097),
    (5_000, 4_096, 0, b"ab", 4_096),
    (1_048_576, 1_048_575, 1_044_480, b"b", 1_048_576),
    (1_048_576, 1_048_575, 1_044_479, b"b", 0),
    (1_048_576, 1_048_575, 1_048_575, b"b", 1_048_576),
    (1_048_576, 1_048_575, 1_048_575, b"ba", 0),
];

/// What is found in such a value.
fn found(alloc: Global, size: usize, place: usize, from: u64, bytes: &[u8]) -> Option<u64> {
    let mut value = vec![in alloc; b'a'; size].ok()?;
    *value.get_mut(place)? = b'b';
    let record = valued(alloc, Bytes::from_vec(value).ok()?);
    Some(find(&RecordRef::of(&record), Part::Value, from, bytes))
}

fn first_other_found(alloc: Global, rows: &[(usize, usize, u64, &[u8], u64)]) -> Option<usize> {
    for (k, row) in rows.iter().enumerate() {
        if found(alloc, row.0, row.1, row.2, row.3) != Some(row.4) {
            return Some(k);
        }
    }
    None
}

#[test]
fn a_search_looks_at_4096_places(rt: HostRuntime) {
    all_hold(&rt, first_other_found(rt.alloc(), &FAR));
}
