//! Scratch: compiles rules and runs them on records.
#![tactic(auto)]

use annotate::load;
use bytes::Bytes;
use exec::{Header, Headers, Outcome, Place, Record, is_place, is_within_limits, run};
use machine_spec::{Emission, Table};
use notes::Verified;
use rules_compiler::compile_text;
use std::alloc::Global;
use std::io;
use std::io::{BufRead, BufReader, BufWriter, Write};

fn piece_of(alloc: Global, word: &str) -> Option<Vec<u8>> {
    match word.split_once('*') {
        Some((byte, count)) => {
            let (byte, count) = (u8::from_str_radix(byte, 16).ok()?, count.parse().ok()?);
            vec![in alloc; byte; count].ok()
        }
        None if word == "." => Some(Vec::new(alloc)),
        None => hex::decode(alloc, word).ok(),
    }
}

fn bytes_of(alloc: Global, word: &str) -> Option<Vec<u8>> {
    let mut bytes = Vec::new(alloc);
    for piece in word.split('+') {
        bytes.extend_from_slice(&piece_of(alloc, piece)?).ok()?;
    }
    Some(bytes)
}

fn some_bytes(alloc: Global, word: &str) -> Option<Bytes> {
    Bytes::from_vec(bytes_of(alloc, word)?).ok()
}

fn part_of(alloc: Global, word: &str) -> Option<Option<Bytes>> {
    if word == "-" {
        Some(None)
    } else {
        Some(Some(some_bytes(alloc, word)?))
    }
}

fn header_of(alloc: Global, word: &str) -> Option<Header> {
    let (key, value) = word.split_once(':')?;
    match (some_bytes(alloc, key), part_of(alloc, value)) {
        (Some(key), Some(value)) => Some(Header { key, value }),
        _ => None,
    }
}

fn headers_of(alloc: Global, words: &str) -> Option<Headers> {
    let mut list = Vec::new(alloc);
    for word in words.split_whitespace() {
        list.push(header_of(alloc, word)?).ok()?;
    }
    Some(Headers { list })
}

fn record_of(alloc: Global, text: &str) -> Option<Record> {
    let (key, rest) = text.split_once(' ')?;
    let (value, headers) = rest.split_once(' ').unwrap_or((rest, ""));
    Some(Record {
        timestamp_delta: 0,
        key: part_of(alloc, key)?,
        value: part_of(alloc, value)?,
        headers: headers_of(alloc, headers)?,
    })
}

fn part_text(alloc: Global, part: &Option<Bytes>) -> Option<String> {
    match part {
        None => format!(in alloc; "-").ok(),
        Some(bytes) if bytes.is_empty() => format!(in alloc; ".").ok(),
        Some(bytes) => hex::encode(alloc, bytes).ok(),
    }
}

fn emission_text(alloc: Global, emission: &Emission) -> Option<String> {
    let key = part_text(alloc, &emission.key)?;
    let value = part_text(alloc, &emission.value)?;
    let out = emission.out;
    let mut text = format!(in alloc; "{out} {key} {value}").ok()?;
    for header in &emission.headers.list {
        let key = hex::encode(alloc, &header.key).ok()?;
        let value = part_text(alloc, &header.value)?;
        let more = format!(in alloc; " {key}:{value}").ok()?;
        text.push_str(&more).ok()?;
    }
    Some(text)
}

fn outcome_text(alloc: Global, outcome: &Outcome) -> Option<String> {
    match outcome {
        Outcome::Rejected(code) => format!(in alloc; "reject {code}").ok(),
        Outcome::Kept(emissions) => {
            let mut text = format!(in alloc; "kept").ok()?;
            for emission in &emissions.list {
                let more = emission_text(alloc, emission)?;
                let more = format!(in alloc; " | {more}").ok()?;
                text.push_str(&more).ok()?;
            }
            Some(text)
        }
    }
}

fn place_of(words: &str) -> Option<Place> {
    let (offset, rest) = words.split_once(',')?;
    let (timestamp, rest) = rest.split_once(',')?;
    let (partition, outputs) = rest.split_once(',')?;
    Some(Place {
        offset: offset.parse().ok()?,
        timestamp: timestamp.parse().ok()?,
        partition: partition.parse().ok()?,
        outputs: outputs.parse().ok()?,
    })
}

fn ran(alloc: Global, program: &Verified, line: &str) -> Option<String> {
    let (place, record) = line.split_once(' ')?;
    let place = place_of(place)?;
    let record = record_of(alloc, record)?;
    if is_within_limits(&record) && is_place(&place) {
        let outcome = run(alloc, program, &record, &place).ok()?;
        outcome_text(alloc, &outcome)
    } else {
        None
    }
}

#[derive(Drop)]
struct Session {
    program: Option<Verified>,
}

fn compiled(alloc: Global, text: &str) -> Result<(Verified, usize), String> {
    let Some(text) = bytes_of(alloc, text) else {
        return Err(String::new(alloc));
    };
    let file = match compile_text(alloc, &text) {
        Ok(file) => file,
        Err(fault) => return Err(format!(in alloc; "compile {fault}").unwrap_or(String::new(
            alloc,
        ))),
    };
    match load(alloc, &file.image, Table::Three) {
        Ok(program) => Ok((program, file.image.len() / 8)),
        Err(fault) => Err(format!(in alloc; "load {fault:?}").unwrap_or(String::new(alloc))),
    }
}

impl Session {
    fn line(&mut self, alloc: Global, line: &str) -> Option<String> {
        match line.split_once(' ') {
            Some(("R", text)) => match compiled(alloc, text) {
                Ok((program, slots)) => {
                    self.program = Some(program);
                    format!(in alloc; "ok {slots}").ok()
                }
                Err(fault) => {
                    self.program = None;
                    format!(in alloc; "refused {fault}").ok()
                }
            },
            Some(("T", rest)) => match &self.program {
                Some(program) => ran(alloc, program, rest),
                None => format!(in alloc; "no program").ok(),
            },
            _ => None,
        }
    }
}

fn main(rt: HostRuntime) -> io::Result<()> {
    let alloc = rt.alloc();
    let mut session = Session { program: None };
    let mut out = BufWriter::new(alloc, io::writer(&rt))?;
    for line in BufReader::new(alloc, rt.reader())?.lines(alloc) {
        let line = line?;
        match session.line(alloc, &line) {
            Some(text) => writeln!(out, "{text}")?,
            None => writeln!(out, "what")?,
        }
    }
    out.flush()
}
