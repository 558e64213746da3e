//! Batches of a stream, appended as soon as each is whole.

use crate::play::{Scene, play};
use crate::stage::Stage;
use broker::{BrokerFault, StreamFault};
use fixtures::ONE;
use part_log::{LogFault, Names, Receipt};
use std::io;
use std::io::Read;
use std::rt::Clock;
use std::sync::Wait;
use std::test::*;
use std::thread::Threads;
use wire_spec::BatchFault;

/// How a reader gives its bytes: this many at a time, an interruption before each read, a failure in
/// place of the read with this number.
#[derive(Clone, Copy, Drop)]
pub(crate) struct Habit {
    size: usize,
    interrupted: bool,
    fails_at: usize,
}

/// What a call returns, and how many receipts it adds.
type Answer = (Result<u64, StreamFault>, usize);

/// Reads that never fail.
const NEVER: usize = 1_000_000;

/// A reader of some bytes.
#[derive(Drop)]
pub(crate) struct Pieces<'a> {
    bytes: &'a [u8],
    habit: Habit,
    reads: usize,
}

impl<'a> Read for Pieces<'a> {
    fn read(&mut self, buf: &mut [u8]) -> io::Result<usize> {
        self.reads = self.reads.saturating_add(1);
        if self.reads == self.habit.fails_at {
            return Err(io::ErrorKind::Other.into());
        }
        if self.habit.interrupted && self.reads % 2 == 1 {
            return Err(io::ErrorKind::Interrupted.into());
        }
        let count = self.habit.size.min(self.bytes.len()).min(buf.len());
        let (now, later) = self.bytes.split_at(count);
        buf[..count].copy_from_slice(now);
        self.bytes = later;
        Ok(count)
    }
}

/// Without a fault.
pub(crate) const STEADY: Habit = Habit {
    size: 65_536,
    interrupted: false,
    fails_at: NEVER,
};

pub(crate) fn reader_of(bytes: &[u8], habit: Habit) -> Pieces<'_> {
    Pieces {
        bytes,
        habit,
        reads: 0,
    }
}

fn are_from<Id: Names>(first: usize, receipts: &[Receipt<Id>]) -> bool {
    let mut index = first;
    for receipt in receipts {
        if receipt.index() != index || receipt.base() != index as u64 {
            return false;
        }
        index = index.wrapping_add(1);
    }
    true
}

/// Two batches, whose second has another byte at some place.
fn two_with(place: usize, byte: u8) -> [u8; 140] {
    let mut bytes = [0; 140];
    bytes[..70].copy_from_slice(&ONE);
    bytes[70..].copy_from_slice(&ONE);
    if place < 70 {
        bytes[70 + place] = byte;
    }
    bytes
}

#[test]
fn batches_of_any_pieces_are_appended(rt: HostRuntime) {
    play(&rt, rt.alloc(), 1, 1, 280, Scene::Pieces);
}

#[test]
fn batches_before_a_fault_stay(rt: HostRuntime) {
    play(&rt, rt.alloc(), 1, 1, 8, Scene::Faults);
}

/// Two batches, whose byte at a place is another one, cut to a length; how they are read, and what is
/// answered.
type Case = (usize, u8, usize, Habit, Answer);

const FAILING: Habit = Habit {
    size: 70,
    interrupted: false,
    fails_at: 3,
};

const INTERRUPTED: Habit = Habit {
    size: 65_536,
    interrupted: true,
    fails_at: NEVER,
};

const SHORT: StreamFault = StreamFault::Batch(BatchFault::Short);

const LENGTH: StreamFault = StreamFault::Batch(BatchFault::Length);

const CRC: StreamFault = StreamFault::Batch(BatchFault::Crc);

const FULL: StreamFault = StreamFault::Broker(BrokerFault::Log(LogFault::Full));

/// One after the other on a log of eight cells.
static CASES: [Case; 8] = [
    (70, 0, 0, STEADY, (Ok(0), 0)),
    (70, 0, 139, STEADY, (Err(SHORT), 1)),
    (70, 0, 71, STEADY, (Err(SHORT), 1)),
    (11, 48, 140, STEADY, (Err(LENGTH), 1)),
    (69, 1, 140, STEADY, (Err(CRC), 1)),
    (70, 0, 140, FAILING, (Err(StreamFault::Read), 1)),
    (70, 0, 140, INTERRUPTED, (Ok(2), 2)),
    (70, 0, 140, STEADY, (Err(FULL), 1)),
];

impl<Id: Names + Send + Sync, R: Threads + Wait + Clock + Print + Sync> Stage<'_, Id, R> {
    /// What a call returns, and how many receipts it adds. None where these are not of the cells from
    /// `first` on, with one record each.
    fn stream(&self, first: usize, reader: &mut Pieces<'_>) -> Option<Answer> {
        let mut receipts = Vec::new(self.alloc);
        let answer = self
            .broker
            .append_from(self.rt, self.alloc, 0, reader, 64, &mut receipts);
        if are_from(first, &receipts) {
            Some((answer, receipts.len()))
        } else {
            None
        }
    }

    /// Two batches are appended by pieces of each size, after as many such pairs.
    pub(crate) fn append_in_pieces(&self) -> bool {
        let bytes = two_with(70, 0);
        for before in 0..140usize {
            let size = before.wrapping_add(1);
            let mut reader = reader_of(&bytes, Habit { size, ..STEADY });
            if self.stream(before.wrapping_mul(2), &mut reader) != Some((Ok(2), 2)) {
                return false;
            }
        }
        true
    }

    pub(crate) fn meet_faults(&self) -> bool {
        self.answers(&CASES) && self.reads_nothing()
    }

    /// Whether these are the answers, one after the other.
    fn answers(&self, cases: &[Case]) -> bool {
        let mut first = 0usize;
        for case in cases {
            if self.answer_to(first, case) != Some(case.4) {
                return false;
            }
            first = first.wrapping_add(case.4.1);
        }
        true
    }

    fn answer_to(&self, first: usize, case: &Case) -> Option<Answer> {
        let bytes = two_with(case.0, case.1);
        let mut reader = reader_of(bytes.get(..case.2)?, case.3);
        self.stream(first, &mut reader)
    }

    /// Whether a call that names no input partition is refused before it reads.
    fn reads_nothing(&self) -> bool {
        let mut reader = reader_of(&ONE, STEADY);
        let mut receipts = Vec::new(self.alloc);
        let answer = self
            .broker
            .append_from(self.rt, self.alloc, 1, &mut reader, 64, &mut receipts);
        let is_refused = answer == Err(StreamFault::Broker(BrokerFault::Partition));
        is_refused && reader.reads == 0 && receipts.is_empty()
    }
}
