//! Threads that wait for items, long enough to fall asleep before each.

use crate::beside::both;
use crate::books::Held;
use crate::log_stage::{LogScene, LogStage, play_log};
use crate::play::{Scene, play};
use crate::stage::Stage;
use broker::{Ended, Until};
use fixtures::{FORWARD, batch_of_value};
use part_log::Names;
use std::rt::Clock;
use std::sync::Wait;
use std::test::*;
use std::thread;
use std::thread::Threads;
use std::time::Duration;
use worker::Open;

/// How often a thread looks before a test fails, once a millisecond.
const LOOKS: usize = 10_000;

/// Appends nothing, so that a thread that waits falls asleep.
fn rest<R: Clock>(rt: &R) {
    thread::sleep(rt, Duration::from_millis(20));
}

#[test]
fn a_worker_that_sleeps_takes_what_is_appended(rt: HostRuntime) {
    play(&rt, rt.alloc(), 2, 1, 8, Scene::Wake);
}

/// What the books of both input partitions hold in the end.
static WOKEN: [Held<'static>; 2] = [
    (0, 0, 4, &[(0, 0, Some(b'A')), (1, 0, Some(b'B'))]),
    (1, 0, 1, &[]),
];

/// How the workers end.
static WOKEN_ENDS: [Ended; 2] = [Ended::Done(4), Ended::Done(1)];

impl<Id: Names + Send + Sync, R: Threads + Wait + Clock + Print + Sync> Stage<'_, Id, R> {
    /// One worker gets a mark, two records and the end, each after a rest; the other gets the end alone.
    pub(crate) fn wake(&self) -> bool {
        self.follow_rests() && self.hold(&WOKEN)
    }

    /// Whether the workers end well, and beside them what appends.
    fn follow_rests(&self) -> bool {
        let one = move |number: usize| -> bool {
            if number == 0 {
                self.ends(Until::Closed, &Open, &WOKEN_ENDS)
            } else {
                self.append_after_rests()
            }
        };
        both(self.rt, self.alloc, &one)
    }

    /// Appends a mark, two records and the ends; whether each item but the ends was done before the
    /// next came.
    fn append_after_rests(&self) -> bool {
        rest(self.rt);
        let mut comes_next = self.deploy(0, &FORWARD) == Some(0) && self.comes(1);
        for (value, done) in [(b'A', 2), (b'B', 3)] {
            rest(self.rt);
            comes_next &= self.puts(0, value) && self.comes(done);
        }
        rest(self.rt);
        let is_closed = self.close(0).is_ok();
        self.close(1).is_ok() && is_closed && comes_next
    }

    /// Waits until that number of items of input partition 0 is done, but not for ever; whether it is.
    fn comes(&self, done: usize) -> bool {
        for _ in 0..LOOKS {
            if self.is_done(done) {
                return true;
            }
            thread::sleep(self.rt, Duration::from_millis(1));
        }
        false
    }

    /// Whether that number of items of input partition 0 is done in output partition 0.
    fn is_done(&self, done: usize) -> bool {
        match self.book(0) {
            Some(book) => book.inputs() > 0 && book.done(0) == done,
            None => false,
        }
    }
}

#[test]
fn a_note_comes_with_its_item(rt: HostRuntime) {
    play_log(&rt, rt.alloc(), 2, LogScene::WaitFor);
}

impl<Id: Names + Send + Sync, R: Threads + Wait + Clock + Print + Sync> LogStage<'_, Id, R> {
    /// A batch and the end are each waited for, and then there at once.
    pub(crate) fn wait_for_both(&self) -> bool {
        self.are_found_late() && self.are_found()
    }

    /// Whether both items are found, in order.
    fn are_found(&self) -> bool {
        self.records_at(0) == Some(1) && self.records_at(1) == Some(0)
    }

    /// Whether a thread finds both items that another one appends.
    fn are_found_late(&self) -> bool {
        let one = move |number: usize| -> bool {
            if number == 0 {
                self.are_found()
            } else {
                self.append_both()
            }
        };
        both(self.rt, self.alloc, &one)
    }

    /// Appends a batch of one record and the end, each after a rest; whether it could.
    fn append_both(&self) -> bool {
        rest(self.rt);
        let is_appended = self.enter(batch_of_value(self.alloc, 1, b'A')).is_ok();
        rest(self.rt);
        self.end().is_ok() && is_appended
    }

    /// Waits for the item of a cell; how many records it has. None where there is no such cell.
    fn records_at(&self, index: usize) -> Option<u64> {
        if index >= self.log.cells() {
            return None;
        }
        let mut note = self.log.wait_for(self.rt, index);
        let item = self.log.read(index, &mut note)?;
        Some(item.records())
    }
}
