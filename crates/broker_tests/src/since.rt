//! Rows of a book in segments, and those from an offset on.

use crate::fetched::stamped;
use crate::play::{Scene, play};
use crate::stage::Stage;
use fixtures::FORWARD;
use out_book::{Book, Probes};
use part_log::Names;
use std::rt::Clock;
use std::sync::Wait;
use std::test::*;
use std::thread::Threads;

/// An input, an offset, the offset after the last row of that input from there on, and the least and most
/// places that are looked at.
type Since = (usize, u64, u64, u64, u64);

/// Of an empty book.
static NO_RUN: [Since; 1] = [(0, 7, 7, 0, 0)];

static ONE_RUN: [Since; 7] = [
    (0, 0, 600, 0, 10),
    (0, 1, 600, 1, 10),
    (0, 300, 600, 1, 10),
    (0, 599, 600, 1, 10),
    (0, 600, 600, 1, 10),
    (0, u64::MAX, u64::MAX, 1, 10),
    (1, 7, 7, 0, 0),
];

/// Once 300 rows of input 1 and 300 more of input 0 were added.
static RUNS: [Since; 9] = [
    (0, 0, 900, 0, 10),
    (0, 599, 900, 1, 10),
    (0, 600, 900, 1, 10),
    (0, 601, 900, 1, 10),
    (0, 899, 900, 1, 10),
    (0, 900, 900, 1, 10),
    (1, 0, 300, 0, 9),
    (1, 299, 300, 1, 9),
    (2, 7, 7, 0, 0),
];

/// Once 100 rows of input 1 were added one by one: a run of 64 and one of 36.
static SHORT_RUNS: [Since; 7] = [
    (1, 0, 400, 0, 9),
    (1, 299, 400, 1, 9),
    (1, 301, 400, 6, 7),
    (1, 363, 400, 6, 7),
    (1, 364, 400, 6, 7),
    (1, 365, 400, 5, 6),
    (1, 400, 400, 5, 6),
];

/// Once one row of input 0 was added, and then 5 of input 1 one by one: a run of 5.
static PARTED_RUNS: [Since; 4] = [
    (0, 900, 901, 1, 10),
    (1, 365, 405, 5, 6),
    (1, 402, 405, 2, 3),
    (1, 405, 405, 2, 3),
];

#[test]
fn rows_are_found_from_an_offset_on(rt: HostRuntime) {
    play(&rt, rt.alloc(), 2, 1, 128, Scene::LookUp);
}

impl<Id: Names + Send + Sync, R: Threads + Wait + Clock + Print + Sync> Stage<'_, Id, R> {
    pub(crate) fn look_up(&self) -> bool {
        self.deploy(0, &FORWARD) == Some(0)
            && self.deploy(1, &FORWARD) == Some(0)
            && self.has_segments(0, 0)
            && self.are_found(&NO_RUN)
            && self.is_one_run()
            && self.are_runs()
    }

    /// Six hundred rows are in three segments.
    fn is_one_run(&self) -> bool {
        self.add(0, 1, 600)
            && self.has_segments(600, 3)
            && self.stamps(250, 10) == Some((10, 1250, 9))
            && self.are_found(&ONE_RUN)
    }

    /// Twice as many are in five.
    fn are_runs(&self) -> bool {
        self.add(1, 1, 300)
            && self.add(0, 1, 300)
            && self.has_segments(1200, 5)
            && self.are_found(&RUNS)
            && self.add(1, 100, 1)
            && self.are_found(&SHORT_RUNS)
            && self.add(0, 1, 1)
            && self.add(1, 5, 1)
            && self.are_found(&PARTED_RUNS)
    }

    /// Appends batches of `count` records to an input, whose rows are then added to output 0.
    fn add(&self, input: usize, batches: usize, count: usize) -> bool {
        for _ in 0..batches {
            if self.append(input, stamped(self.alloc, count)).is_err() {
                return false;
            }
        }
        self.drain()
    }

    /// Whether each search finds what it should.
    fn are_found(&self, rows: &[Since]) -> bool {
        for (input, offset, end, least, most) in rows {
            match self.since(*input, *offset) {
                Some((found, looks)) if found == *end && *least <= looks && looks <= *most => {}
                _ => return false,
            }
        }
        true
    }

    /// Whether output 0 has so many rows, in so many segments.
    fn has_segments(&self, rows: usize, segments: usize) -> bool {
        match self.book(0) {
            Some(book) => book.len() == rows && book.segments() == segments,
            None => false,
        }
    }

    /// The offset after the last row of output 0 from an input that has this offset or a greater one,
    /// and how many places were looked at. None where the rows are not one for each offset from there
    /// on.
    fn since(&self, input: usize, offset: u64) -> Option<(u64, u64)> {
        let book = self.book(0)?;
        since_in(&book, input, offset)
    }
}

fn since_in<Id: Names>(book: &Book<Id>, input: usize, offset: u64) -> Option<(u64, u64)> {
    let mut probes = Probes::new();
    let mut next = offset;
    for row in book.rows_since(input, offset, &mut probes) {
        if row.offset() != next {
            return None;
        }
        next = next.checked_add(1)?;
    }
    Some((next, probes.count()))
}
