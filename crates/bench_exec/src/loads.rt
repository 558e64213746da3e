//! Holds `load` against `notes::check` on random programs with branches, and times it on long ones.

mod compare;
mod keeping;
mod programs;
mod random;
mod timing;

use crate::loads::compare::Tally;
use crate::loads::random::Random;
use std::alloc::Global;
use std::io;
use std::rt::Clock;

fn print_tally<R: Print>(rt: &R, count: u32, tally: &Tally) -> io::Result<()> {
    let (accepted, refused, widened) = (tally.accepted, tally.refused, tally.widened);
    let (out_of_memory, differ) = (tally.out_of_memory, tally.differ);
    println!(rt;
        "{count} programs: {accepted} accepted, {refused} refused, {widened} wider lists, {out_of_memory} without memory, {differ} differ"
    )
}

fn compare_all<R: Print>(rt: &R, alloc: Global, count: u32, seed: u64) -> io::Result<()> {
    let mut random = Random::new(seed);
    let mut tally = Tally::new();
    for _ in 0..count {
        compare::compare_one(alloc, &mut random, &mut tally);
    }
    print_tally(rt, count, &tally)
}

fn time_all<R: Print + Clock>(rt: &R, alloc: Global, branches: u32, rounds: u32) -> io::Result<()> {
    let Some(image) = programs::branching(alloc, branches) else {
        return Ok(());
    };
    let (nanos, instructions) = timing::nanos_of(rt, alloc, &image, rounds)?;
    let each = nanos / u128::from(rounds.max(1));
    println!(rt; "{instructions} instructions, {branches} branches: {each} ns a load")
}

fn print_kept<R: Print>(rt: &R, alloc: Global, branches: u32, count: u32) -> io::Result<()> {
    let Some(kept) = keeping::keep_all(alloc, branches, count) else {
        return Ok(());
    };
    let (programs, instructions, states) = (kept.programs, kept.instructions, kept.states);
    println!(rt; "{programs} programs of {instructions} instructions, {states} states kept of each")
}

/// Does what the words say; nothing where there are fewer than three.
pub(crate) fn measure(rt: &HostRuntime, words: &[String]) -> io::Result<()> {
    let (Some(mode), Some(first), Some(second)) = (words.get(0), words.get(1), words.get(2)) else {
        return Ok(());
    };
    let first: u32 = first.as_str().parse().unwrap_or(1);
    let second: u32 = second.as_str().parse().unwrap_or(1);
    match mode.as_str() {
        "time" => time_all(rt, rt.alloc(), first, second),
        "keep" => print_kept(rt, rt.alloc(), first, second),
        _ => compare_all(rt, rt.alloc(), first, u64::from(second)),
    }
}
