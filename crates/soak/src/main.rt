//! Runs a broker by many threads at once: producers append, deployers load programs and mark them in
//! the logs, workers are started and stopped, auditors wait for what they appended. In the end every
//! book is compared with the plain core's over the same logs, and every record is looked for in them.
//! The arguments are how many records the producers append, a seed, and how many brokers are soaked so,
//! one after the other, each with the next seed. With none it is the short form: one broker, 1,000 records
//! with the seed 1, of which it prints what is the same in every run.
#![tactic(auto)]

mod auditing;
mod comparing;
mod deploying;
mod gates;
mod making;
mod numbers;
mod producing;
mod threads;

use crate::threads::{CELLS, INPUTS, NOTHING, OUTPUTS, Soaked, soak};
use broker::Parts;
use part_log::Names;
use std::alloc::Global;
use std::marker::Brand;
use std::sync::Wait;
use std::thread::Threads;
use std::{env, io};

/// A soak of a new broker. None where a thread ended badly or memory ran out.
fn soaked<R: Threads + Wait + Sync>(
    rt: &R,
    alloc: Global,
    records: usize,
    seed: u64,
) -> Option<Soaked> {
    let parts = Parts::new(rt, alloc, INPUTS, OUTPUTS, CELLS).ok()?;
    soak::<Brand, R>(rt, alloc, parts, records, seed)
}

/// Soaks of as many new brokers, one after the other, each with the next seed. None where one of them
/// ended badly.
fn soaked_all<R: Threads + Wait + Sync>(
    rt: &R,
    alloc: Global,
    records: usize,
    seed: u64,
    brokers: u64,
) -> Option<Soaked> {
    let mut all = NOTHING;
    for turn in 0..brokers {
        all = all.and(soaked(rt, alloc, records, seed.wrapping_add(turn))?);
    }
    Some(all)
}

/// A number that an argument gives, or the one without it.
fn number_of(argument: Option<String>, without: u64) -> u64 {
    match argument {
        Some(number) => number.as_str().parse().unwrap_or(0),
        None => without,
    }
}

fn main(rt: HostRuntime) -> io::Result<()> {
    let mut arguments = env::args(&rt)?.skip(1);
    let Some(records) = arguments.next() else {
        return match soaked(&rt, rt.alloc(), 1_000, 1) {
            Some(sums) => println!(rt;
                "{} records once, {} again, {} lists differ",
                sums.once, sums.again, sums.different
            ),
            None => println!(rt; "a thread ended badly"),
        };
    };
    let records: usize = records.as_str().parse().unwrap_or(0);
    let seed = number_of(arguments.next(), 0);
    let brokers = number_of(arguments.next(), 1);
    match soaked_all(&rt, rt.alloc(), records, seed, brokers) {
        Some(sums) => println!(rt;
            "{brokers} brokers from seed {seed}: {} starts, {} stops, {} deployments, {} audits, \
            {} records once, {} again, {} rows, {} lists differ",
            sums.starts,
            sums.stops,
            sums.deployments,
            sums.audits,
            sums.once,
            sums.again,
            sums.rows,
            sums.different
        ),
        None => println!(rt; "seed {seed}: a thread ended badly"),
    }
}
