//! Times the interpreter. The first argument is how many rounds of records are run; with none the
//! program does nothing. The others are names of images' files: it times each of these programs on one
//! record and on 1,024. With none it times programs of one kind of instruction each.
//!
//! `load random COUNT SEED` makes programs and prints in how many `load` and `notes::check` differ.
//! `load time BRANCHES ROUNDS` loads a program of BRANCHES branches ROUNDS times. `load keep BRANCHES
//! COUNT` does the same, for 0 branches in a straight line, and keeps all that is loaded until the end:
//! the process's memory then says what a program takes.
#![tactic(auto)]

mod abreast;
mod images;
mod kinds;
mod loads;

use crate::images::time_image;
use crate::kinds::{ARITHMETIC, Kind, OTHERS, PLAIN};
use bytes::Bytes;
use exec::{Headers, Outcome, Place, Record, is_place, is_within_limits, run};
use machine_spec::Table;
use notes::Verified;
use std::alloc::{AllocError, Global};
use std::marker::Model;
use std::rt::Clock;
use std::time::Instant;
use std::{env, fs, io};

const VALUE: &[u8] = b"0123456789012345678901234567890123456789012345678901234567890123";

const PLACE: Place = Place {
    partition: 0,
    offset: 0,
    timestamp: 0,
    outputs: 1,
};

/// The text of a program: its head, its body `kind.times` times, EXIT.
fn text_of(alloc: Global, kind: &Kind) -> Option<String> {
    let mut text = String::from_str(alloc, kind.head).ok()?;
    for _ in 0..kind.times {
        text.push_str(kind.body).ok()?;
    }
    text.push_str("exit\n").ok()?;
    Some(text)
}

fn program_of(alloc: Global, kind: &Kind) -> Option<Verified> {
    let text = text_of(alloc, kind)?;
    let image = bpf_asm::assemble(alloc, text.as_str()).ok()?;
    annotate::load(alloc, &image, Table::One).ok()
}

/// A record that a run takes: it is tested once, when it is made.
#[derive(Drop)]
struct Fitting {
    record: Record,
}

impl Model for Fitting {
    ghost use Rattle.wire_spec.specs.declared.record.Record.{Record};
    ghost use Rattle.exec.specs.Records.{IsShortRecord};

    ghost Value = { Record };

    ghost view = { λ f. f.record };

    ghost invariant = { λ f. IsShortRecord f.record };
}

/// A record with no key.
fn keyless(alloc: Global, value: Bytes) -> Record {
    Record {
        timestamp_delta: 0,
        key: None,
        value: Some(value),
        headers: Headers {
            list: Vec::new(alloc),
        },
    }
}

fn record_of(alloc: Global, value: Bytes) -> Option<Fitting> {
    let record = keyless(alloc, value);
    if is_within_limits(&record) {
        Some(Fitting { record })
    } else {
        None
    }
}

/// A record of each value, with no key.
fn records_of(alloc: Global, values: Vec<Bytes>) -> Option<Vec<Fitting>> {
    let mut records = Vec::new(alloc);
    for value in values {
        records.push(record_of(alloc, value)?).ok()?;
    }
    Some(records)
}

/// 256 times the same value.
fn values(alloc: Global) -> Option<Vec<Bytes>> {
    let mut values = Vec::new(alloc);
    for _ in 0..256 {
        let value = Bytes::copy_from_slice(alloc, VALUE).ok()?;
        values.push(value).ok()?;
    }
    Some(values)
}

/// The outcome of a program on a record.
fn outcome_of(alloc: Global, program: &Verified, fitting: &Fitting) -> Result<Outcome, AllocError> {
    if !is_place(&PLACE) {
        return Err(AllocError);
    }
    run(alloc, program, &fitting.record, &PLACE)
}

/// The reject code of a program on a record, 0 where it is kept.
fn code_of(alloc: Global, program: &Verified, fitting: &Fitting) -> Option<u64> {
    match outcome_of(alloc, program, fitting) {
        Ok(Outcome::Rejected(code)) => Some(code),
        Ok(Outcome::Kept(_)) => Some(0),
        Err(_) => None,
    }
}

/// The sum of the reject codes on all the records, `rounds` times.
fn sum_of(alloc: Global, program: &Verified, records: &[Fitting], rounds: u32) -> Option<u64> {
    let mut sum: u64 = 0;
    for _ in 0..rounds {
        for record in records {
            sum = sum.wrapping_add(code_of(alloc, program, record)?);
        }
    }
    Some(sum)
}

/// How many nanoseconds the rounds take.
fn nanos_of<R: Clock>(
    rt: &R,
    alloc: Global,
    program: &Verified,
    records: &[Fitting],
    rounds: u32,
) -> io::Result<(u128, Option<u64>)> {
    let start = Instant::now(rt)?;
    let sum = sum_of(alloc, program, records, rounds);
    Ok((start.elapsed(rt)?.as_nanos(), sum))
}

/// Prints how long a program takes for `rounds` rounds of the records.
fn time<R: Print + Clock>(
    rt: &R,
    alloc: Global,
    name: &str,
    program: &Verified,
    records: &[Fitting],
    rounds: u32,
) -> io::Result<()> {
    let (nanos, sum) = nanos_of(rt, alloc, program, records, rounds)?;
    let count = u128::from(rounds).saturating_mul(records.len() as u128);
    let tenths = nanos.saturating_mul(10) / count.max(1);
    let instruction = tenths.saturating_mul(10) / program.code().len() as u128;
    let (record, part) = (tenths / 10, tenths % 10);
    println!(rt;
        "{name}: {count} records, {record}.{part} ns a record, {instruction} / 100 ns an instruction, sum {sum:?}"
    )
}

/// Times a program on one, two, three and four times as many records.
fn time_program<R: Print + Clock>(
    rt: &R,
    alloc: Global,
    name: &str,
    program: &Verified,
    records: &[Fitting],
    rounds: u32,
) -> io::Result<()> {
    for turn in 1..=4 {
        let rounds = rounds.saturating_mul(turn);
        time(rt, alloc, name, program, records, rounds)?;
    }
    Ok(())
}

/// Makes a program and times it.
fn time_kind<R: Print + Clock>(rt: &R, alloc: Global, kind: &Kind, rounds: u32) -> io::Result<()> {
    let Some(program) = program_of(alloc, kind) else {
        return println!(rt; "{}: not a program", kind.name);
    };
    match values(alloc).and_then(|values| records_of(alloc, values)) {
        Some(records) => time_program(rt, alloc, kind.name, &program, &records, rounds),
        None => Ok(()),
    }
}

fn time_kinds<R: Print + Clock>(
    rt: &R,
    alloc: Global,
    kinds: &[Kind],
    rounds: u32,
) -> io::Result<()> {
    for kind in kinds {
        time_kind(rt, alloc, kind, rounds.saturating_mul(kind.runs))?;
    }
    Ok(())
}

fn time_all<R: Print + Clock>(rt: &R, alloc: Global, rounds: u32) -> io::Result<()> {
    time_kinds(rt, alloc, &PLAIN, rounds)?;
    time_kinds(rt, alloc, &ARITHMETIC, rounds)?;
    time_kinds(rt, alloc, &OTHERS, rounds)
}

/// Times the program of an image's file.
fn time_file(rt: &HostRuntime, name: &str, rounds: u32) -> io::Result<()> {
    println!(rt; "{name}")?;
    time_image(rt, rt.alloc(), &fs::read(rt, name)?, rounds)
}

fn time_words(rt: &HostRuntime, word: &str, others: &[String]) -> io::Result<()> {
    if word == "load" {
        return loads::measure(rt, others);
    }
    let rounds: u32 = word.parse().unwrap_or(1);
    if others.is_empty() {
        return time_all(rt, rt.alloc(), rounds);
    }
    for name in others {
        time_file(rt, name.as_str(), rounds)?;
    }
    Ok(())
}

fn main(rt: HostRuntime) -> io::Result<()> {
    let mut words = env::args(&rt)?.skip(1);
    let Some(word) = words.next() else {
        return Ok(());
    };
    let mut others = Vec::new(rt.alloc());
    for other in words {
        others.push(other)?;
    }
    time_words(&rt, word.as_str(), &others)
}
