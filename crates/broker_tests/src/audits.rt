//! Audits of receipts.

use crate::books::{Seen, is_seen};
use crate::play::{Scene, play};
use crate::stage::Stage;
use broker::{Audit, AuditedRows, Ended, Until};
use fixtures::BOTH;
use part_log::{Names, Receipt};
use std::rt::Clock;
use std::sync::Wait;
use std::test::*;
use std::thread;
use std::thread::Threads;
use worker::Open;

#[test]
fn receipts_are_audited_in_order(rt: HostRuntime) {
    play(&rt, rt.alloc(), 2, 2, 8, Scene::AuditFive);
}

#[test]
fn receipts_are_audited_by_another_thread(rt: HostRuntime) {
    play(&rt, rt.alloc(), 1, 2, 8, Scene::AuditBeside);
}

/// How the workers end, over five records and over six.
static FIVE_ENDS: [Ended; 2] = [Ended::Done(3), Ended::Done(3)];

static SIX_ENDS: [Ended; 1] = [Ended::Done(8)];

/// What audits of the five find in each output partition.
static FIRST: [Option<Seen>; 5] = [
    Some((0, 0, Some(b'A'))),
    Some((1, 0, Some(b'B'))),
    Some((0, 0, Some(b'A'))),
    Some((1, 0, Some(b'B'))),
    None,
];

static SECOND: [Option<Seen>; 5] = [
    Some((0, 1, Some(b'A'))),
    Some((1, 1, Some(b'B'))),
    Some((0, 1, Some(b'A'))),
    Some((1, 1, Some(b'B'))),
    None,
];

/// The values of the records whose receipts another thread audits, in order.
static VALUES: [u8; 6] = [b'A', b'B', b'C', b'D', b'E', b'F'];

/// How often the auditor looks before the test fails.
const TURNS: usize = 1_000_000;

/// What a thread does.
#[derive(Drop)]
enum Job<Id: Names> {
    /// Audits receipts until each is processed.
    Audit(Vec<Receipt<Id>>),
    /// Runs a worker.
    Work,
}

impl<Id: Names + Send + Sync, R: Threads + Wait + Clock + Print + Sync> Stage<'_, Id, R> {
    /// Each audit of receipts finds the rows of its own item, in each book.
    pub(crate) fn audit_five(&self) -> bool {
        self.deploy(0, &BOTH) == Some(0)
            && self.deploy(1, &BOTH) == Some(0)
            && self.five_are_audited()
    }

    fn five_are_audited(&self) -> bool {
        let mut receipts = Vec::new(self.alloc);
        self.keep_five(&mut receipts)
            && self.are_audited(0, &receipts, &FIRST)
            && self.are_audited(1, &receipts, &SECOND)
    }

    /// Two records of each input, which are processed, and one that isn't.
    fn keep_five(&self, receipts: &mut Vec<Receipt<Id>>) -> bool {
        self.keep(receipts, 0, b"AB")
            && self.keep(receipts, 1, b"AB")
            && self.ends(Until::Drained, &Open, &FIVE_ENDS)
            && self.keep(receipts, 1, b"C")
    }

    /// Appends records with these values, and keeps their receipts; whether it could.
    fn keep(&self, receipts: &mut Vec<Receipt<Id>>, input: usize, values: &[u8]) -> bool {
        for value in values {
            if !self.keep_one(receipts, input, *value) {
                return false;
            }
        }
        true
    }

    fn keep_one(&self, receipts: &mut Vec<Receipt<Id>>, input: usize, value: u8) -> bool {
        match self.put(input, value) {
            Some(receipt) => receipts.push(receipt).is_ok(),
            None => false,
        }
    }

    /// Whether audits of these receipts in an output partition find one row each, or that the item is
    /// not done.
    fn are_audited(&self, output: usize, receipts: &[Receipt<Id>], want: &[Option<Seen>]) -> bool {
        let Some(book) = self.book(output) else {
            return false;
        };
        match self.broker.audit_all(self.alloc, receipts, &book) {
            Ok(audits) => are_audits(audits, want),
            Err(_) => false,
        }
    }

    /// A thread that gets the receipts audits them in each book in turn, beside a worker.
    pub(crate) fn audit_beside(&self) -> bool {
        self.deploy(0, &BOTH) == Some(0) && self.six_are_audited()
    }

    fn six_are_audited(&self) -> bool {
        let mut receipts = Vec::new(self.alloc);
        if !self.keep(&mut receipts, 0, &VALUES) || self.close(0).is_err() {
            return false;
        }
        self.jobs_are_done(receipts)
    }

    fn jobs_are_done(&self, receipts: Vec<Receipt<Id>>) -> bool {
        let mut jobs = Vec::new(self.alloc);
        let has_jobs = jobs.push(Job::Audit(receipts)).is_ok() && jobs.push(Job::Work).is_ok();
        has_jobs && are_done(self, jobs)
    }

    fn does(&self, job: &Job<Id>) -> bool {
        match job {
            Job::Audit(receipts) => self.audit_until_done(receipts),
            Job::Work => self.ends(Until::Closed, &Open, &SIX_ENDS),
        }
    }

    /// Audits receipts in each book in turn, until all are processed in both.
    fn audit_until_done(&self, receipts: &[Receipt<Id>]) -> bool {
        for _ in 0..TURNS {
            match (self.processed(0, receipts), self.processed(1, receipts)) {
                (Some(6), Some(6)) => return true,
                (Some(_), Some(_)) => thread::yield_now(),
                _ => return false,
            }
        }
        false
    }

    /// How many of the first receipts are processed in an output partition. None where one has other
    /// rows than its own record's.
    fn processed(&self, output: usize, receipts: &[Receipt<Id>]) -> Option<usize> {
        let book = self.book(output)?;
        match self.broker.audit_all(self.alloc, receipts, &book) {
            Ok(audits) => processed_among(audits, output),
            Err(_) => None,
        }
    }
}

/// Whether two threads do their jobs well.
fn are_done<Id: Names + Send + Sync, R: Threads + Wait + Clock + Print + Sync>(
    stage: &Stage<'_, Id, R>,
    jobs: Vec<Job<Id>>,
) -> bool {
    let one = move |job: Job<Id>| -> bool { stage.does(&job) };
    match thread::map_vec(stage.rt, jobs, &one) {
        Ok(right) => right.as_slice() == [true, true].as_slice(),
        Err(_) => false,
    }
}

fn are_audits(audits: Vec<Audit<'_>>, want: &[Option<Seen>]) -> bool {
    let mut rest = want;
    for audit in audits {
        match rest.split_first() {
            Some((first, others)) if is_audit(audit, first) => rest = others,
            _ => return false,
        }
    }
    rest.is_empty()
}

fn is_audit(audit: Audit<'_>, want: &Option<Seen>) -> bool {
    match (audit, want) {
        (Audit::Pending, None) => true,
        (Audit::Processed(rows), Some(seen)) => is_one(rows, seen),
        _ => false,
    }
}

/// Whether there is one row, and this one.
fn is_one(rows: AuditedRows<'_>, want: &Seen) -> bool {
    let mut count = 0usize;
    for row in rows {
        if count > 0 || !is_seen(row, want) {
            return false;
        }
        count = 1;
    }
    count == 1
}

/// How many of the first audits in an output partition have the row of their own record.
fn processed_among(audits: Vec<Audit<'_>>, output: usize) -> Option<usize> {
    let mut count = 0usize;
    let mut values = VALUES.as_slice();
    for audit in audits {
        match (audit, values.split_first()) {
            (Audit::Processed(rows), Some((value, later))) => {
                if !is_one(rows, &(count as u64, output, Some(*value))) {
                    return None;
                }
                count = count.wrapping_add(1);
                values = later;
            }
            _ => return Some(count),
        }
    }
    Some(count)
}
