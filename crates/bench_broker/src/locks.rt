//! How long a book is locked for the rows of an item while four threads deliver to it.

ghost use Rattle.std.specs.Prelude.{◌≡◌};

use crate::deliveries::{fill, held};
use out_book::Book;
use part_log::{Cells, Names, PartLog};
use std::alloc::Global;
use std::marker::Brand;
use std::num::nearest_u64_to_f64;
use std::rt::Clock;
use std::sync::{Mutex, Wait};
use std::thread::Threads;
use std::{io, thread};

/// How many items each thread delivers.
const ITEMS: usize = 2_000;

/// The cells of four logs.
#[derive(Drop)]
struct Four {
    first: Cells,
    second: Cells,
    third: Cells,
    fourth: Cells,
}

fn two_cells(alloc: Global) -> Option<(Cells, Cells)> {
    match (Cells::new(alloc, 65_536), Cells::new(alloc, 65_536)) {
        (Ok(first), Ok(second)) => Some((first, second)),
        _ => None,
    }
}

fn four_cells(alloc: Global) -> Option<Four> {
    match (two_cells(alloc), two_cells(alloc)) {
        (Some((first, second)), Some((third, fourth))) => Some(Four {
            first,
            second,
            third,
            fourth,
        }),
        _ => None,
    }
}

/// The mean of what each thread found; infinite where one found nothing.
fn mean(all: &[Option<f64>]) -> f64 {
    let mut sum = 0.0;
    for one in all {
        sum += one.unwrap_or(f64::INFINITY);
    }
    sum / nearest_u64_to_f64(all.len() as u64)
}

/// How long a book was locked for a delivery, in nanoseconds, while four threads delivered to it. None
/// where there was no memory.
fn turn<Id: Names + Send + Sync, R: Threads + Wait + Clock + Sync>(
    rt: &R,
    alloc: Global,
    cells: Four,
) -> Option<f64>
    requires first { cells.first ≡ Id.cells 0 }
    requires second { cells.second ≡ Id.cells 1 }
    requires third { cells.third ≡ Id.cells 2 }
    requires fourth { cells.fourth ≡ Id.cells 3 }
    requires inputs { Id.inputs ≡ 4 }
    requires outputs { Id.outputs ≡ 1 }
{
    let Ok(book) = Book::new(alloc, 4, 0) else {
        return None;
    };
    let logs: [PartLog<Id>; 4] = [
        PartLog::new(0, cells.first),
        PartLog::new(1, cells.second),
        PartLog::new(2, cells.third),
        PartLog::new(3, cells.fourth),
    ];
    turn_of(rt, alloc, &logs, &Mutex::new(book))
}

fn turn_of<Id: Names + Send + Sync, R: Threads + Wait + Clock + Sync>(
    rt: &R,
    alloc: Global,
    logs: &[PartLog<Id>],
    book: &Mutex<Book<Id>>,
) -> Option<f64>
    requires { Id.outputs ≡ 1 }
{
    for log in logs {
        fill(rt, alloc, log, ITEMS)?;
    }
    let one = move |input: usize| -> Option<f64>
        requires { Id.outputs ≡ 1 }
    {
        let all = logs;
        held(rt, alloc, all.get(input)?, book, 0, ITEMS)
    };
    match thread::map_indices(rt, alloc, 4, &one) {
        Ok(all) => Some(mean(&all)),
        Err(_) => None,
    }
}

/// Prints the least of some turns.
pub(crate) fn measure<R: Threads + Wait + Clock + Print + Sync>(
    rt: &R,
    alloc: Global,
    turns: u32,
) -> io::Result<()> {
    let mut least = f64::INFINITY;
    for _ in 0..turns {
        if let Some(cells) = four_cells(alloc) {
            let took = turn::<Brand, R>(rt, alloc, cells);
            least = least.min(took.unwrap_or(f64::INFINITY));
        }
    }
    println!(rt; "a delivery of 100 rows beside three others holds the lock for {least:6.1} ns")
}
