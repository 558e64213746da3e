//! The threads of a soak, and what it comes to.

ghost use Rattle.broker.specs.Layouts.{IsNamed};

use crate::auditing::{audit_all, audited_beside};
use crate::comparing::{Compared, compare};
use crate::deploying::{deploy_all, versions};
use crate::gates::Chance;
use crate::making::mixed;
use crate::producing::Share;
use broker::{Broker, Ended, Parts, Until};
use catalogue::Catalogue;
use part_log::{Names, Receipt};
use std::alloc::{AllocError, Global};
use std::sync::Wait;
use std::sync::atomic::{AtomicU64, Ordering};
use std::thread;
use std::thread::Threads;
use worker::{Gate, Open};

/// How many input partitions the broker has.
pub const INPUTS: usize = 4;

/// How many output partitions the broker has.
pub const OUTPUTS: usize = 64;

/// How many cells each log has.
pub const CELLS: usize = 65_536;

/// How many threads append records.
pub const PRODUCERS: usize = 8;

/// How many threads load and deploy programs.
pub const DEPLOYERS: usize = 2;

/// How many threads append records and wait for their rows.
pub const AUDITORS: usize = 2;

/// All threads but those of workers and the one that starts them.
const PLAYERS: usize = PRODUCERS + DEPLOYERS + AUDITORS;

/// What a soak comes to.
#[derive(Clone, Copy, Drop)]
pub struct Soaked {
    /// How often workers were started, and how many of them a gate stopped.
    pub starts: u64,
    pub stops: u64,
    /// How many versions were deployed, and how often a receipt was audited in a book with its item done.
    pub deployments: u64,
    pub audits: u64,
    /// How many records are in the logs once, and how many more there are.
    pub once: u64,
    pub again: u64,
    /// How many rows the books have, and how many lists of rows are others than the core's.
    pub rows: u64,
    pub different: u64,
}

/// What no soak comes to.
pub const NOTHING: Soaked = Soaked {
    starts: 0,
    stops: 0,
    deployments: 0,
    audits: 0,
    once: 0,
    again: 0,
    rows: 0,
    different: 0,
};

impl Soaked {
    /// What these soaks and another come to together.
    pub(crate) fn and(self, other: Soaked) -> Soaked {
        Soaked {
            starts: self.starts.wrapping_add(other.starts),
            stops: self.stops.wrapping_add(other.stops),
            deployments: self.deployments.wrapping_add(other.deployments),
            audits: self.audits.wrapping_add(other.audits),
            once: self.once.wrapping_add(other.once),
            again: self.again.wrapping_add(other.again),
            rows: self.rows.wrapping_add(other.rows),
            different: self.different.wrapping_add(other.different),
        }
    }
}

/// What threads share.
#[derive(Drop)]
struct Players<'a, 'r, Id: Names, R: Wait> {
    rt: &'r R,
    alloc: Global,
    broker: &'a Broker<Id, Catalogue<&'r R>>,
    records: usize,
    seed: u64,
    /// How many players have ended.
    ended: AtomicU64,
}

/// A soak of a broker that is made of these parts. None where a thread ends badly or memory runs out.
pub(crate) fn soak<Id: Names + Send + Sync, R: Threads + Wait + Sync>(
    rt: &R,
    alloc: Global,
    parts: Parts<Catalogue<&R>>,
    records: usize,
    seed: u64,
) -> Option<Soaked>
    requires { IsNamed Id.cells Id.inputs Id.outputs parts }
{
    let made: Result<Broker<Id, Catalogue<&R>>, AllocError> = Broker::new(alloc, parts);
    let Ok(broker) = made else {
        return None;
    };
    let players = Players {
        rt,
        alloc,
        broker: &broker,
        records,
        seed,
        ended: AtomicU64::new(0),
    };
    let (runs, found) = players.soak()?;
    Some(Soaked {
        deployments: DEPLOYERS.wrapping_mul(versions(records)) as u64,
        audits: (AUDITORS * OUTPUTS).wrapping_mul(audited_beside(records)) as u64,
        once: found.once,
        again: found.again,
        rows: found.rows,
        different: found.different,
        ..runs
    })
}

impl<'a, 'r, Id: Names + Send + Sync, R: Threads + Wait + Sync> Players<'a, 'r, Id, R> {
    fn soak(&self) -> Option<(Soaked, Compared)> {
        let runs = self.run_all()?;
        let receipts = self.close_all()?;
        Some((runs, self.compare_all(&receipts)?))
    }

    /// Deploys a program to each log, and then runs all threads side by side.
    fn run_all(&self) -> Option<Soaked> {
        self.deploy(0, 0, INPUTS)?;
        let one = move |number: usize| -> Option<Soaked> {
            if number < PLAYERS {
                self.play(number)
            } else {
                self.run_workers()
            }
        };
        match thread::map_indices(self.rt, self.alloc, PLAYERS + 1, &one) {
            Ok(all) => sum(&all),
            Err(_) => None,
        }
    }

    /// What a player does; that it has ended is counted in any case.
    fn play(&self, number: usize) -> Option<Soaked> {
        let played = self.act(number);
        self.ended.fetch_add(1, Ordering::SeqCst);
        played?;
        Some(NOTHING)
    }

    fn deploy(&self, deployer: usize, first: usize, end: usize) -> Option<()> {
        deploy_all(self.rt, self.alloc, self.broker, deployer, first, end)
    }

    fn act(&self, number: usize) -> Option<()> {
        if number < PRODUCERS {
            let share = Share::of(number, self.records, self.seed);
            return share.append_all(self.rt, self.alloc, self.broker);
        }
        let number = number.wrapping_sub(PRODUCERS);
        if number < DEPLOYERS {
            let first = if number == 0 { INPUTS } else { 0 };
            return self.deploy(number, first, versions(self.records));
        }
        let number = number.wrapping_sub(DEPLOYERS);
        let each = audited_beside(self.records);
        let first = self.records.wrapping_add(number.wrapping_mul(each));
        audit_all(
            self.rt,
            self.alloc,
            self.broker,
            first,
            first.wrapping_add(each),
        )
    }

    /// Starts workers again and again until all players have ended.
    fn run_workers(&self) -> Option<Soaked> {
        let mut runs = NOTHING;
        for turn in 0..u64::MAX {
            if self.ended.load(Ordering::SeqCst) >= PLAYERS as u64 {
                break;
            }
            runs = runs.and(self.start(turn)?);
        }
        Some(runs)
    }

    /// Starts workers that a gate stops at random offers.
    fn start(&self, turn: u64) -> Option<Soaked> {
        let gate = Chance::new(mixed(self.seed ^ turn));
        let stops = self.stops(Until::Drained, &gate)?;
        Some(Soaked {
            starts: 1,
            stops,
            ..NOTHING
        })
    }

    /// Runs workers; how many of them were stopped. None where one ended badly.
    fn stops<G: Gate + Sync>(&self, until: Until, gate: &G) -> Option<u64> {
        match self.broker.start(self.rt, self.alloc, until, gate) {
            Ok(ended) => stops(&ended),
            Err(_) => None,
        }
    }

    /// Lets workers take the rest of closed logs, and compares the books.
    fn compare_all(&self, receipts: &[Receipt<Id>]) -> Option<Compared> {
        if self.stops(Until::Closed, &Open)? > 0 {
            return None;
        }
        let audited = AUDITORS.wrapping_mul(audited_beside(self.records));
        let count = self.records.wrapping_add(audited);
        let versions = versions(self.records);
        compare(self.rt, self.alloc, self.broker, receipts, count, versions)
    }

    /// Closes the logs. The receipts know all items.
    fn close_all(&self) -> Option<Vec<Receipt<Id>>> {
        let mut receipts = Vec::new(self.alloc);
        for input in 0..INPUTS {
            if !self.close(input, &mut receipts) {
                return None;
            }
        }
        Some(receipts)
    }

    fn close(&self, input: usize, receipts: &mut Vec<Receipt<Id>>) -> bool {
        match self.broker.close(self.rt, self.alloc, input) {
            Ok(receipt) => receipts.push(receipt).is_ok(),
            Err(_) => false,
        }
    }
}

/// What all threads did; none where one ended badly.
fn sum(all: &[Option<Soaked>]) -> Option<Soaked> {
    let mut sum = NOTHING;
    for runs in all {
        sum = sum.and((*runs)?);
    }
    Some(sum)
}

/// How many workers were stopped; none where one ended badly.
fn stops(ended: &[Ended]) -> Option<u64> {
    let mut stops = 0u64;
    for end in ended {
        match end {
            Ended::Done(_) => {}
            Ended::Stopped(_, _) => stops = stops.wrapping_add(1),
            Ended::Fault(_) => return None,
            Ended::NoThread => return None,
        }
    }
    Some(stops)
}
