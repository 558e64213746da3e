//! Runs random programs on random records by the plain machine and, where the verifier accepts them,
//! by the interpreter, and compares. The arguments are how many programs and the seed; with none the
//! program does nothing. `abreast PROGRAMS SEED` runs each program on up to 1,000 records at once.
//! `jumps COUNT` times the plain machine on a program of COUNT jumps.
#![tactic(auto)]

mod abreast;
mod jumps;
mod random;
mod random_parts;

use annotate::load;
use bpf_machine::{End, Table, trace};
use exec::{Emissions, Headers, Outcome, Place, Record, is_place, is_within_limits, run};
use random::Random;
use std::alloc::{AllocError, Global};
use std::rt::Clock;
use std::{env, io};

const PLACE: Place = Place {
    partition: 3,
    offset: 5,
    timestamp: 1000,
    outputs: 2,
};

/// How many runs of accepted programs there were, how many instructions these did, and how many differ.
#[derive(Drop)]
struct Counts {
    accepted: u64,
    instructions: u64,
    different: u64,
}

fn are_same_headers(left: &Headers, right: &Headers) -> bool {
    left.list.len() == right.list.len()
        && left
            .list
            .iter()
            .zip(&right.list)
            .all(|(a, b)| a.key == b.key && a.value == b.value)
}

fn are_same_emissions(left: &Emissions, right: &Emissions) -> bool {
    left.list.len() == right.list.len()
        && left.list.iter().zip(&right.list).all(|(a, b)| a.out == b.out
            && a.key == b.key
            && a.value == b.value
            && are_same_headers(&a.headers, &b.headers))
}

/// Whether the plain machine's end is the interpreter's outcome.
fn is_same(end: &End, outcome: &Outcome) -> bool {
    match (end, outcome) {
        (End::Out(Outcome::Kept(left)), Outcome::Kept(right)) => are_same_emissions(left, right),
        (End::Out(Outcome::Rejected(left)), Outcome::Rejected(right)) => left == right,
        (_, _) => false,
    }
}

/// The interpreter's outcome, if the verifier accepts the program.
fn outcome_of(
    alloc: Global,
    image: &[u8],
    record: &Record,
    table: Table,
) -> Result<Option<Outcome>, AllocError> {
    if !is_within_limits(record) || !is_place(&PLACE) {
        return Ok(None);
    }
    let Ok(verified) = load(alloc, image, table) else {
        return Ok(None);
    };
    match run(alloc, &verified, record, &PLACE) {
        Ok(outcome) => Ok(Some(outcome)),
        Err(refused) => Err(refused),
    }
}

impl Counts {
    fn new() -> Counts {
        Counts {
            accepted: 0,
            instructions: 0,
            different: 0,
        }
    }

    /// Runs the program of an image and a table on a record both ways.
    fn compare(
        &mut self,
        alloc: Global,
        image: &[u8],
        record: &Record,
        table: Table,
    ) -> Result<(), AllocError> {
        let (end, count) = trace(alloc, image, record, &PLACE, table)?;
        if let Some(outcome) = outcome_of(alloc, image, record, table)? {
            self.add(count, is_same(&end, &outcome));
        }
        Ok(())
    }

    /// Counts a run.
    fn add(&mut self, instructions: u64, is_same: bool) {
        self.accepted = self.accepted.saturating_add(1);
        self.instructions = self.instructions.saturating_add(instructions);
        if !is_same {
            self.different = self.different.saturating_add(1);
        }
    }

    /// Runs a random program on a random record both ways.
    fn compare_any(&mut self, alloc: Global, random: &mut Random) -> Result<(), AllocError> {
        let table = random.table();
        let image = random.program(alloc, table)?;
        let record = random.record(alloc)?;
        self.compare(alloc, &image, &record, table)
    }
}

/// Compares random programs and records, `programs` of each.
fn compared(alloc: Global, programs: u64, seed: u64) -> Result<Counts, AllocError> {
    let mut random = Random::new(seed);
    let mut counts = Counts::new();
    for _ in 0..programs {
        counts.compare_any(alloc, &mut random)?;
    }
    Ok(counts)
}

fn print_counts<R: Print>(rt: &R, programs: u64, counts: &Counts) -> io::Result<()> {
    println!(rt;
        "{programs} programs, {} accepted, {} instructions, {} different",
        counts.accepted, counts.instructions, counts.different
    )
}

fn print_time<R: Print + Clock>(rt: &R, alloc: Global, jumps: u32) -> io::Result<()> {
    let (count, nanos) = jumps::time(rt, alloc, jumps)?;
    println!(rt; "{count} instructions in {nanos} ns")
}

/// The number that an argument is, 0 where there is none.
fn number_of(argument: &Option<String>) -> u64 {
    match argument {
        Some(number) => number.as_str().parse().unwrap_or(0),
        None => 0,
    }
}

fn main(rt: HostRuntime) -> io::Result<()> {
    let mut arguments = env::args(&rt)?;
    let _ = arguments.next();
    let Some(mode) = arguments.next() else {
        return Ok(());
    };
    let number = number_of(&arguments.next());
    match mode.as_str() {
        "jumps" => print_time(&rt, rt.alloc(), number.min(16_384) as u32),
        "abreast" => {
            let seed = number_of(&arguments.next());
            print_counts(&rt, number, &abreast::compared(rt.alloc(), number, seed)?)
        }
        programs => {
            let programs = programs.parse().unwrap_or(0);
            print_counts(&rt, programs, &compared(rt.alloc(), programs, number)?)
        }
    }
}
