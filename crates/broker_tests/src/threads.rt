use crate::play::{Scene, play};
use crate::stage::Stage;
use broker::BrokerFault;
use fixtures::batch_of;
use part_log::{Item, LogFault, Names, Receipt, Trail};
use std::alloc::AllocError;
use std::rt::Clock;
use std::sync::Wait;
use std::test::*;
use std::thread;
use std::thread::Threads;

const INPUTS: usize = 4;

const PRODUCERS: usize = 8;

const CELLS: usize = 8_192;

const READS: usize = 1_000_000;

/// What a receipt said of a batch.
#[derive(Clone, Copy, Drop)]
struct Taken {
    index: usize,
    base: u64,
    timestamp: i64,
}

/// What a thread did: what its receipts said, or how many items it read and their records.
#[derive(Drop)]
struct Report {
    input: usize,
    taken: Vec<Taken>,
    items: usize,
    records: u64,
}

#[test]
fn producers_and_readers_share_logs(rt: HostRuntime) {
    play(&rt, rt.alloc(), INPUTS, 1, CELLS, Scene::Share);
}

impl<Id: Names + Send + Sync, R: Threads + Wait + Clock + Print + Sync> Stage<'_, Id, R> {
    /// Each log is full, and has what the threads reported of it.
    pub(crate) fn share(&self) -> bool {
        match self.run_all() {
            Ok(reports) => self.taken_in_all(&reports) == Some(INPUTS * CELLS),
            Err(_) => false,
        }
    }

    /// How many receipts the threads got. None where one ended badly, a log is not full, or has
    /// something else than it reported.
    fn taken_in_all(&self, reports: &[Option<Report>]) -> Option<usize> {
        let mut taken = 0usize;
        for input in 0..INPUTS {
            let items = self.items_of(input)?;
            if items.len() != CELLS {
                return None;
            }
            taken = taken.wrapping_add(taken_from(reports, input, &items)?);
        }
        Some(taken)
    }

    fn run_all(&self) -> Result<Vec<Option<Report>>, AllocError> {
        let one = move |number: usize| -> Option<Report> {
            if number < PRODUCERS {
                self.produce(number)
            } else {
                self.consume(number % INPUTS)
            }
        };
        thread::map_indices(self.rt, self.alloc, PRODUCERS + INPUTS, &one)
    }

    /// Appends until the log is full.
    fn produce(&self, number: usize) -> Option<Report> {
        let input = number % INPUTS;
        let first = ((number % PRODUCERS) as i64).wrapping_mul(1_000_000);
        let mut taken = Vec::new(self.alloc);
        for turn in 0..CELLS {
            let timestamp = first.wrapping_add(turn as i64);
            match self.append_and_read(input, turn % 3 + 1, timestamp) {
                Ok(one) => {
                    let Ok(()) = taken.push(one) else {
                        return None;
                    };
                }
                Err(BrokerFault::Log(LogFault::Full)) => break,
                Err(_) => return None,
            }
        }
        Some(Report {
            input,
            taken,
            items: 0,
            records: 0,
        })
    }

    /// Appends a batch, and reads back what its receipt is of. `NoProgram` where that is something
    /// else.
    fn append_and_read(
        &self,
        input: usize,
        records: usize,
        timestamp: i64,
    ) -> Result<Taken, BrokerFault> {
        match batch_of(self.alloc, records, timestamp) {
            Some(batch) => match self.broker.append(self.rt, self.alloc, input, batch) {
                Ok(receipt) => self.taken_of(&receipt, timestamp),
                Err(fault) => Err(fault),
            },
            None => Err(BrokerFault::Memory),
        }
    }

    fn taken_of(&self, receipt: &Receipt<Id>, timestamp: i64) -> Result<Taken, BrokerFault> {
        match self.read(&receipt.with_item(), receipt.index()) {
            Some((stamp, _records)) if stamp == timestamp => Ok(Taken {
                index: receipt.index(),
                base: receipt.base(),
                timestamp,
            }),
            _ => Err(BrokerFault::NoProgram),
        }
    }

    /// The timestamp of a batch that a trail knows, and how many records it has.
    fn read(&self, trail: &Trail<Id>, index: usize) -> Option<(i64, u64)> {
        let input = trail.partition();
        if input >= self.broker.inputs() || index >= trail.len() {
            return None;
        }
        let mut note = trail.note(index);
        match self.broker.read(input, index, &mut note) {
            Some(item) => stamp_of(item),
            None => unreachable!(),
        }
    }

    /// Reads the items in order as they come, at most a million times.
    fn consume(&self, input: usize) -> Option<Report> {
        if input >= self.broker.inputs() {
            return None;
        }
        let mut items = 0;
        let mut records = 0u64;
        for _ in 0..READS {
            if items >= self.broker.cells(input) {
                break;
            }
            let mut note = self.broker.note(input, items);
            match self.broker.read(input, items, &mut note) {
                Some(item) => {
                    records = records.wrapping_add(item.records());
                    items += 1;
                }
                None => thread::yield_now(),
            }
        }
        Some(Report {
            input,
            taken: Vec::new(self.alloc),
            items,
            records,
        })
    }

    /// The batches of a log in order: the records before each, and its timestamp.
    fn items_of(&self, input: usize) -> Option<Vec<Taken>> {
        let trail = self.broker.trail(self.rt, input).ok()?;
        let mut base = 0u64;
        let mut items = Vec::new(self.alloc);
        for index in 0..trail.len() {
            let Some((timestamp, records)) = self.read(&trail, index) else {
                return None;
            };
            let one = Taken {
                index,
                base,
                timestamp,
            };
            let Ok(()) = items.push(one) else {
                return None;
            };
            base = base.wrapping_add(records);
        }
        Some(items)
    }
}

fn taken_from(reports: &[Option<Report>], input: usize, items: &[Taken]) -> Option<usize> {
    let mut taken = 0usize;
    for report in reports {
        let report = report.as_ref()?;
        if report.input == input {
            if !is_in(report, items) {
                return None;
            }
            taken = taken.wrapping_add(report.taken.len());
        }
    }
    Some(taken)
}

fn stamp_of(item: &Item) -> Option<(i64, u64)> {
    match item {
        Item::Batch(logged) => Some((logged.base_timestamp(), item.records())),
        Item::Mark { .. } => None,
        Item::End => None,
    }
}

/// Whether the log has what a thread reported: each batch where its receipt says and with its base,
/// and, where an item follows those that were read, `report.records` records in them.
fn is_in(report: &Report, items: &[Taken]) -> bool {
    let read = match items.get(report.items) {
        Some(next) => next.base == report.records,
        None => true,
    };
    read && has_all(items, &report.taken)
}

fn has_all(items: &[Taken], all: &[Taken]) -> bool {
    for taken in all {
        if !has(items, taken) {
            return false;
        }
    }
    true
}

fn has(items: &[Taken], taken: &Taken) -> bool {
    match items.get(taken.index) {
        Some(item) => item.base == taken.base && item.timestamp == taken.timestamp,
        None => false,
    }
}
