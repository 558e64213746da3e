//! New brokers, and what is measured of each.

ghost use Rattle.std.specs.Prelude.{◌≤◌};
ghost use Rattle.broker.specs.Layouts.{IsCount, IsNamed};

use crate::{appends, fetches, finds, idle, reads, steps, turns};
use broker::{Broker, Parts};
use catalogue::Catalogue;
use part_log::Names;
use std::alloc::{AllocError, Global};
use std::marker::Brand;
use std::num::nearest_u64_to_f64;
use std::rt::Clock;
use std::sync::Wait;
use std::thread::Threads;
use std::time::{CpuClock, Instant};

/// What was measured; infinite where a call was refused.
pub(crate) type Figures = (f64, f64, f64, f64, f64);

const MOST: f64 = f64::INFINITY;

const REFUSED: Figures = (MOST, MOST, MOST, MOST, MOST);

/// What is measured.
#[derive(Clone, Copy, Drop)]
pub(crate) enum Subject {
    /// An append, while this number of producers fill the logs.
    Appends(usize),
    /// An append among the first thousand of a log, and among its last thousand.
    Ends,
    /// Programs that this number of readers find while a writer loads.
    Finds(usize),
    /// Appends of this number of batches, and workers over them, which forward records to the output of
    /// their input's number if that is so.
    Workers(usize, bool),
    /// A step of a book, after this number of items.
    Steps(usize),
    /// Reads of a book's last rows, after this number of items.
    Reads(usize),
    /// Workers that wait for this number of items.
    Idle(usize),
    /// Fetches, this number of times in a turn, of this number of rows with values of this length.
    Fetches(u32, usize, usize),
}

/// The nanoseconds of each of some calls, since they began.
pub(crate) fn each<R: Clock>(rt: &R, start: &Instant, count: u64) -> Option<f64> {
    let Ok(took) = start.elapsed(rt) else {
        return None;
    };
    Some(took.as_secs_f64() * 1_000_000_000.0 / nearest_u64_to_f64(count))
}

/// Of two turns the less of each figure, or the turn whose first figure is less.
fn best_of(subject: Subject, one: Figures, other: Figures) -> Figures {
    match subject {
        Subject::Finds(_) | Subject::Workers(_, _) => if other.0 < one.0 { other } else { one },
        _ => (
            one.0.min(other.0),
            one.1.min(other.1),
            one.2.min(other.2),
            one.3.min(other.3),
            one.4.min(other.4),
        ),
    }
}

/// The best of some turns, each with a new broker.
pub(crate) fn best<R: Threads + Wait + Clock + CpuClock + Sync>(
    rt: &R,
    alloc: Global,
    inputs: usize,
    outputs: usize,
    cells: usize,
    subject: Subject,
    turns: u32,
) -> Figures
    requires inputs { IsCount inputs }
    requires outputs { IsCount outputs }
    requires cells { (1 ≤ cells) × (cells ≤ 65536) }
{
    let mut best = REFUSED;
    for _ in 0..turns {
        if let Some(figures) = turn(rt, alloc, inputs, outputs, cells, subject) {
            best = best_of(subject, best, figures);
        }
    }
    best
}

/// A turn with a new broker. None where a call is refused.
fn turn<R: Threads + Wait + Clock + CpuClock + Sync>(
    rt: &R,
    alloc: Global,
    inputs: usize,
    outputs: usize,
    cells: usize,
    subject: Subject,
) -> Option<Figures>
    requires inputs { IsCount inputs }
    requires outputs { IsCount outputs }
    requires cells { (1 ≤ cells) × (cells ≤ 65536) }
{
    let parts = Parts::new(rt, alloc, inputs, outputs, cells).ok()?;
    make::<Brand, R>(rt, alloc, parts, subject)
}

fn make<Id: Names + Send + Sync, R: Threads + Wait + Clock + CpuClock + Sync>(
    rt: &R,
    alloc: Global,
    parts: Parts<Catalogue<&R>>,
    subject: Subject,
) -> Option<Figures>
    requires { IsNamed Id.cells Id.inputs Id.outputs parts }
{
    let made: Result<Broker<Id, Catalogue<&R>>, AllocError> = Broker::new(alloc, parts);
    match made {
        Ok(broker) => figures(rt, alloc, &broker, subject),
        Err(_) => None,
    }
}

/// What is measured of a new broker. None where a call is refused.
fn figures<Id: Names + Send + Sync, R: Threads + Wait + Clock + CpuClock + Sync>(
    rt: &R,
    alloc: Global,
    broker: &Broker<Id, Catalogue<&R>>,
    subject: Subject,
) -> Option<Figures> {
    match subject {
        Subject::Appends(producers) => appends::fill_all(rt, alloc, broker, producers),
        Subject::Ends => appends::ends(rt, alloc, broker),
        Subject::Finds(readers) => finds::run(rt, alloc, broker, readers),
        Subject::Workers(batches, to_own) => turns::time_all(rt, alloc, broker, batches, to_own),
        Subject::Steps(items) => steps::step_after(rt, alloc, broker, items),
        Subject::Reads(items) => reads::read_all(rt, alloc, broker, items),
        Subject::Idle(items) => idle::watch_beside(rt, alloc, broker, items),
        Subject::Fetches(times, rows, value) => fetches::fill_and_time(
            rt, alloc, broker, times, rows, value,
        ),
    }
}
