//! Reports of a broker.

use crate::play::{Scene, play};
use crate::stage::Stage;
use fixtures::{FORWARD, batch_of_copies};
use part_log::Names;
use report::{Snapshot, gather, write};
use std::alloc::Global;
use std::rt::Clock;
use std::sync::Wait;
use std::test::*;
use std::thread::Threads;

#[test]
fn a_kept_record_has_a_row(rt: HostRuntime) {
    play(&rt, rt.alloc(), 1, 2, 8, Scene::KeepOne);
}

#[test]
fn items_that_are_done_everywhere_are_counted(rt: HostRuntime) {
    play(&rt, rt.alloc(), 1, 2, 8, Scene::StepApart);
}

const KEPT: &str = "row 0 0 0 0 1000 6b 76 0\n\
    out 0 in 0 done 2 rows 1\n\
    out 1 in 0 done 2 rows 0\n\
    in 0 items 2 records 1 unprogrammed 0 kept 1\n";

const EMPTY: &str = "out 0 in 0 done 0 rows 0\n\
    out 1 in 0 done 0 rows 0\n\
    in 0 items 0 records 0 unprogrammed 0 kept 0\n";

const APART: &str = "row 0 0 0 0 1000 6b 41 0\n\
    row 0 0 1 0 1000 6b 42 0\n\
    out 0 in 0 done 3 rows 2\n\
    out 1 in 0 done 2 rows 0\n\
    in 0 items 2 records 1 unprogrammed 0 kept 1\n";

/// The output partitions whose books are stepped, one after the other.
static STEPPED: [usize; 5] = [0, 1, 0, 1, 0];

impl<Id: Names + Send + Sync, R: Threads + Wait + Clock + Print + Sync> Stage<'_, Id, R> {
    /// A second run and a second report change nothing.
    pub(crate) fn keep_one_record(&self) -> bool {
        self.deploy(0, &FORWARD) == Some(0)
            && self.puts(0, b'v')
            && self.drain()
            && self.reports(KEPT)
            && self.drain()
            && self.reports(KEPT)
    }

    /// One book is ahead of the other, and the log of both.
    pub(crate) fn step_apart(&self) -> bool {
        self.reports(EMPTY)
            && self.deploy(0, &FORWARD) == Some(0)
            && self.puts_each(0, b"ABC")
            && self.step_each(&STEPPED)
            && self.reports(APART)
            && self.parts() == Some((3, 2, 2, 1))
    }

    /// Steps books; whether it could.
    fn step_each(&self, outputs: &[usize]) -> bool {
        for output in outputs {
            if self.step(*output).is_none() {
                return false;
            }
        }
        true
    }

    /// Whether this is the broker's report.
    fn reports(&self, want: &str) -> bool {
        match gather(self.rt, self.alloc, &self.broker) {
            Ok(snapshot) => is_written(self.alloc, &snapshot, want),
            Err(_) => false,
        }
    }

    /// Of input partition 0: how many items and rows output partition 0 has, and how many items and
    /// records are counted.
    fn parts(&self) -> Option<(usize, usize, usize, u64)> {
        match gather(self.rt, self.alloc, &self.broker) {
            Ok(snapshot) => parts_in(&snapshot),
            Err(_) => None,
        }
    }
}

fn is_written<Id: Names>(alloc: Global, snapshot: &Snapshot<Id>, want: &str) -> bool {
    let mut text: Vec<u8> = Vec::new(alloc);
    write(alloc, snapshot, &mut text).is_ok() && text.as_slice() == want.as_bytes()
}

fn parts_in<Id: Names>(snapshot: &Snapshot<Id>) -> Option<(usize, usize, usize, u64)> {
    if snapshot.outputs() == 0 || snapshot.inputs() == 0 {
        return None;
    }
    let held = snapshot.holding(0, 0);
    let tally = snapshot.tally(0);
    Some((
        held.done().len(),
        held.rows().len(),
        tally.first().len(),
        tally.counts().records(),
    ))
}
