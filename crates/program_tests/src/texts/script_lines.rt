use crate::tables::all_hold;
use bytes::Bytes;
use log_spec::Row;
use machine_spec::Table;
use script::{
    Command, FileWord, ScriptFault, append_text, close_text, deploy_text, fetch_text, first_fault,
    load_text, parse, push_row,
};
use std::alloc::{AllocError, Global};
use std::test::*;
use wire_spec::Headers;

/// A source as one text: its bytes, or the name of its file.
fn source_shown(alloc: Global, source: &FileWord) -> Result<String, AllocError> {
    match source {
        FileWord::Line(bytes) => format!(in alloc; "hex {:?}", bytes.as_slice()),
        FileWord::File(file) => String::from_str(alloc, file.text.as_str()),
    }
}

/// A `load` as one text.
fn load_shown(
    alloc: Global,
    name: &str,
    source: &FileWord,
    named: Option<Table>,
) -> Result<String, AllocError> {
    let source = source_shown(alloc, source)?;
    match named {
        Some(table) => format!(in alloc; "load {name} {source} {table:?}"),
        None => format!(in alloc; "load {name} {source}"),
    }
}

/// An `append` as one text.
fn append_shown(alloc: Global, input: u64, source: &FileWord) -> Result<String, AllocError> {
    let source = source_shown(alloc, source)?;
    format!(in alloc; "append {input} {source}")
}

/// A `put` as one text: whether it has a key, and how many bytes its value has.
fn put_shown(
    alloc: Global,
    input: u64,
    timestamp: u64,
    key: &Option<Bytes>,
    value: &Option<Bytes>,
) -> Result<String, AllocError> {
    let key = key.is_some();
    let value = value.as_ref().map_or(0, |bytes| bytes.len());
    format!(in alloc; "put {input} {timestamp} {key} {value}")
}

/// A command as one text.
fn command_shown(alloc: Global, command: &Command) -> Result<String, AllocError> {
    match command {
        Command::Partitions(inputs, outputs, cells) => {
            format!(in alloc; "partitions {inputs} {outputs} {cells}")
        }
        Command::Load(name, source, named) => {
            load_shown(alloc, name.text.as_str(), source, *named)
        }
        Command::Deploy(input, name) => format!(in alloc; "deploy {input} {}", name.text.as_str()),
        Command::Put(input, timestamp, key, value) => {
            put_shown(alloc, *input, *timestamp, key, value)
        }
        Command::Append(input, source) => append_shown(alloc, *input, source),
        Command::Close(input) => format!(in alloc; "close {input}"),
        Command::Fetch(output, place, max) => format!(in alloc; "fetch {output} {place} {max}"),
        Command::Go => String::from_str(alloc, "go"),
    }
}

/// The command of a line as one text, or `none`.
fn shown(alloc: Global, line: &str) -> Result<String, AllocError> {
    match parse(alloc, line)? {
        Some(command) => command_shown(alloc, &command),
        None => String::from_str(alloc, "none"),
    }
}

/// Lines, and what they are read as.
static LINES: &str = "\
partitions 1 1 8 => partitions 1 1 8
partitions 1 1 08 => none
partitions 1 1 +8 => none
partitions 1 1 0 => partitions 1 1 0
partitions 1 1 => none
load fwd f.bin => load fwd f.bin
load fwd hex: => load fwd hex []
load fwd hex:00ff => load fwd hex [0, 255]
load fwd hex:00f => load fwd hex:00f
load fwd hex:00FF => load fwd hex:00FF
load fwd f.bin 2 => load fwd f.bin Two
load fwd hex:00ff 2 => load fwd hex [0, 255] Two
load fwd f 1 => none
load fwd f 3 => none
load fwd f 02 => none
load fwd f 2 2 => none
load fwd f 2  => none
load  f => none
load fwd  => none
 go => none
go => go
go\r => none
go now => none
deploy 0 fwd => deploy 0 fwd
deploy 1180591620717411303424 fwd => deploy 18446744073709551615 fwd
put 0 1000 6b 76 => put 0 1000 true 1
put 0 1000 - . => put 0 1000 false 0
put 0 1000 6b 7 => none
put 0 1000 6b 7G => none
put 0 1000 6b .76 => none
append 0 batches.bin => append 0 batches.bin
append 3 hex:00ff => append 3 hex [0, 255]
append 0 hex: => append 0 hex []
append 0 hex:FF => append 0 hex:FF
append 00 batches.bin => none
append batches.bin => none
append 0 batches.bin 2 => none
close 3 => close 3
close => none
close 0 0 => none
fetch 0 1 2 => fetch 0 1 2
fetch 3 18446744073709551616 0 => fetch 3 18446744073709551615 0
fetch 0 1 => none
fetch 0 01 2 => none
Go => none
  => none
";

fn is_text(text: Result<String, AllocError>, want: &str) -> bool {
    match text {
        Ok(text) => text.as_str() == want,
        Err(_) => false,
    }
}

/// Whether a row's line is read as the row says.
fn is_shown(alloc: Global, row: &str) -> Option<bool> {
    let (line, want) = row.split_once(" => ")?;
    Some(is_text(shown(alloc, line), want))
}

#[test]
fn reads_lines(rt: HostRuntime) {
    all_hold(&rt, LINES, |row| is_shown(rt.alloc(), row));
}

/// Lines, whether the script has begun and whether its program is loaded, and the first fault.
static FAULTS: &str = "\
go => false true Some(Order)
go => true true None
append 0 f => false true Some(Order)
append 9 f => true true None
partitions 1 1 8 => true true Some(Order)
partitions 1 1 65536 => false true None
partitions 1 1 65537 => false true Some(Range)
partitions 1 1 0 => false true Some(Range)
partitions 64 64 8 => false true None
partitions 65 1 8 => false true Some(Range)
partitions 1 65 8 => false true Some(Range)
partitions 0 1 8 => false true Some(Range)
partitions 1 0 8 => true true Some(Order)
close 9 => true true None
fetch 99 1180591620717411303424 0 => true true None
fetch 0 0 1 => false true Some(Order)
close 0 => false true Some(Order)
deploy 0 fwd => true false Some(Order)
put 9 4611686018427387903 - - => true true None
put 0 4611686018427387904 - - => true true Some(Range)
";

fn flag_of(word: &str) -> Option<bool> {
    match word {
        "true" => Some(true),
        "false" => Some(false),
        _ => None,
    }
}

/// Whether the command of a row's line has the fault that the row says.
fn has_fault(alloc: Global, row: &str) -> Option<bool> {
    let (line, rest) = row.split_once(" => ")?;
    let (begun, rest) = rest.split_once(' ')?;
    let (loaded, want) = rest.split_once(' ')?;
    let command = parse(alloc, line).ok()??;
    let fault = first_fault(&command, flag_of(begun)?, flag_of(loaded)?);
    let text = format!(in alloc; "{fault:?}").ok()?;
    Some(text.as_str() == want)
}

#[test]
fn reports_faults(rt: HostRuntime) {
    all_hold(&rt, FAULTS, |row| has_fault(rt.alloc(), row));
}

/// Whether this is the text of a fetch of these bytes.
fn is_fetched(alloc: Global, bytes: &[u8], want: &str) -> bool {
    match Vec::from_slice(alloc, bytes) {
        Ok(bytes) => is_text(fetch_text(alloc, &Some(bytes)), want),
        Err(_) => false,
    }
}

#[test]
fn writes_lines(rt: HostRuntime) {
    let alloc = rt.alloc();
    assert!(rt; is_text(load_text(alloc, "fwd", 1), "load fwd version 1\n"));
    let deploy = deploy_text(alloc, 0, 3, "fwd", 2);
    assert!(rt; is_text(deploy, "deploy 0 index 3 fwd version 2\n"));
    assert!(rt; is_text(append_text(alloc, 0, 1, 10), "append 0 index 1 base 10\n"));
    assert!(rt; is_text(close_text(alloc, 63, 65_535), "close 63 index 65535\n"));
    assert!(rt; is_text(fetch_text(alloc, &None), "none\n"));
    assert!(rt; is_fetched(alloc, &[0, 0x0f, 0xa0], "000fa0\n"));
}

/// The row of a null value and the key `k` with a byte ff.
fn row_of(alloc: Global) -> Row {
    Row {
        input: 0,
        offset: 7,
        number: 1,
        timestamp: 1000,
        key: Some(Bytes::from_static(b"k\xff")),
        value: None,
        headers: Headers {
            list: Vec::new(alloc),
        },
    }
}

/// The text of a row, behind a text.
fn row_text(alloc: Global, before: &str, row: &Row) -> Result<String, AllocError> {
    let mut text = String::from_str(alloc, before)?;
    push_row(&mut text, 3, &row.by_ref())?;
    Ok(text)
}

#[test]
fn writes_rows(rt: HostRuntime) {
    let text = row_text(rt.alloc(), "x", &row_of(rt.alloc()));
    assert!(rt; is_text(text, "xrow 3 0 7 1 1000 6bff - 0\n"));
}
