//! Programs, and the records that they run on, as texts.

use annotate::load;
use bpf_asm::assemble;
use bpf_isa::{Code, decode};
use bytes::Bytes;
use exec::{Header, Headers, Outcome, Place, Record, is_place, is_within_limits, run};
use machine_spec::{Instruction, Table};
use notes::Verified;
use std::alloc::Global;

/// The bytes of a line: of an instruction, or those that it has as hexadecimal digits.
fn bytes_of_line(alloc: Global, line: &str) -> Option<Vec<u8>> {
    match hex::decode(alloc, line) {
        Ok(bytes) => Some(bytes),
        Err(_) => assemble(alloc, line).ok(),
    }
}

fn add_line(alloc: Global, image: &mut Vec<u8>, line: &str) -> Option<()> {
    let bytes = bytes_of_line(alloc, line)?;
    image.extend_from_slice(&bytes).ok()
}

/// The image of a program: its lines stand one after the other, with a semicolon and a space between two.
pub(crate) fn image_of(alloc: Global, program: &str) -> Option<Vec<u8>> {
    let mut image = Vec::new(alloc);
    for line in program.split("; ") {
        add_line(alloc, &mut image, line)?;
    }
    Some(image)
}

/// The program of a text and a table. None where it is refused or memory ran out.
pub(crate) fn program_of(alloc: Global, program: &str, table: Table) -> Option<Verified> {
    let image = image_of(alloc, program)?;
    load(alloc, &image, table).ok()
}

/// The first instruction of code, which has one at least.
fn first_of(code: &Code) -> Instruction {
    let _count = code.len();
    code.instr(0)
}

/// The instruction that a line says.
pub(crate) fn instruction_of(alloc: Global, line: &str) -> Option<Instruction> {
    let image = assemble(alloc, line).ok()?;
    let code = decode(alloc, &image).ok()?;
    Some(first_of(&code))
}

/// Bytes as hexadecimal digits, `.` for no bytes, or as `07*4096` where a byte is repeated, here 4,096 times.
fn piece_of(alloc: Global, word: &str) -> Option<Vec<u8>> {
    match word.split_once('*') {
        Some((byte, count)) => {
            let (byte, count) = (u8::from_str_radix(byte, 16).ok()?, count.parse().ok()?);
            vec![in alloc; byte; count].ok()
        }
        None if word == "." => Some(Vec::new(alloc)),
        None => hex::decode(alloc, word).ok(),
    }
}

/// Pieces of bytes, one after another, with `+` between two.
fn bytes_of(alloc: Global, word: &str) -> Option<Vec<u8>> {
    let mut bytes = Vec::new(alloc);
    for piece in word.split('+') {
        bytes.extend_from_slice(&piece_of(alloc, piece)?).ok()?;
    }
    Some(bytes)
}

fn some_bytes(alloc: Global, word: &str) -> Option<Bytes> {
    Bytes::from_vec(bytes_of(alloc, word)?).ok()
}

/// A key or a value, where `-` is none. None where it can't be read.
fn part_of(alloc: Global, word: &str) -> Option<Option<Bytes>> {
    if word == "-" {
        Some(None)
    } else {
        Some(Some(some_bytes(alloc, word)?))
    }
}

fn header_of(alloc: Global, word: &str) -> Option<Header> {
    let (key, value) = word.split_once(':')?;
    match (some_bytes(alloc, key), part_of(alloc, value)) {
        (Some(key), Some(value)) => Some(Header { key, value }),
        _ => None,
    }
}

fn headers_of(alloc: Global, words: &str) -> Option<Headers> {
    let mut list = Vec::new(alloc);
    for word in words.split_whitespace() {
        list.push(header_of(alloc, word)?).ok()?;
    }
    Some(Headers { list })
}

/// A record: its key, its value, and then its headers, each as `KEY:VALUE`.
pub(crate) fn record_of(alloc: Global, text: &str) -> Option<Record> {
    let (key, rest) = text.split_once(' ')?;
    let (value, headers) = rest.split_once(' ').unwrap_or((rest, ""));
    match (
        part_of(alloc, key),
        part_of(alloc, value),
        headers_of(alloc, headers),
    ) {
        (Some(key), Some(value), Some(headers)) => Some(Record {
            timestamp_delta: 0,
            key,
            value,
            headers,
        }),
        _ => None,
    }
}

/// The place that records are read from, where there are `outputs` output partitions.
pub(crate) fn place_of(outputs: usize) -> Place {
    Place {
        partition: 7,
        offset: 5,
        timestamp: 1000,
        outputs,
    }
}

/// What the run of a program makes of a record, where there are `outputs` output partitions. None where the
/// record or the place is out of its limits, or memory ran out.
pub(crate) fn run_on(
    alloc: Global,
    program: &Verified,
    record: &Record,
    outputs: usize,
) -> Option<Outcome> {
    let place = place_of(outputs);
    if is_within_limits(record) && is_place(&place) {
        run(alloc, program, record, &place).ok()
    } else {
        None
    }
}

pub(crate) fn is_same_part(left: &Option<Bytes>, right: &Option<Bytes>) -> bool {
    match (left, right) {
        (Some(left), Some(right)) => left.as_slice() == right.as_slice(),
        (None, None) => true,
        _ => false,
    }
}

fn is_same_header(left: &Header, right: &Header) -> bool {
    left.key.as_slice() == right.key.as_slice() && is_same_part(&left.value, &right.value)
}

pub(crate) fn are_same_headers(left: &[Header], right: &[Header]) -> bool {
    let mut rest = right;
    for header in left {
        match rest.split_first() {
            Some((first, others)) if is_same_header(header, first) => rest = others,
            _ => return false,
        }
    }
    rest.is_empty()
}
