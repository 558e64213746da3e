//! Schedules that are forced: workers that a gate stops at each offer, and threads that meet, over the log of two
//! programs with a record after each. Those of lists of the core's events and of interleavings are in `core_tests`.

use crate::beside::both;
use crate::books::Seen;
use crate::gates::{Meet, StopAt};
use crate::play::{Scene, act_once};
use crate::stage::Stage;
use broker::{Ended, Stepped, Until};
use broker_fixtures::sees;
use fixtures::{BOTH, NULLS};
use part_log::Names;
use std::alloc::Global;
use std::process::Abort;
use std::rt::Clock;
use std::sync::Wait;
use std::sync::atomic::{AtomicBool, Ordering};
use std::test::*;
use std::thread;
use std::thread::Threads;

/// What is done to a new broker.
#[derive(Clone, Copy)]
pub(crate) enum Case {
    /// A worker is stopped at the offer with this number, from 1, and another one goes on.
    StopAt(usize),
    /// Two starts at once, whose workers meet before an offer to this output partition.
    StartTwice(usize),
    /// A worker and steps at once; the worker waits before an offer to this output partition.
    StartAndStep(usize),
}

/// How a worker ends that does the rest.
static ALL_ENDS: [Ended; 1] = [Ended::Done(4)];

/// The rows of both records in an output partition.
static ROWS: [[Seen; 2]; 2] = [
    [(0, 0, Some(b'A')), (1, 0, None)],
    [(0, 1, Some(b'A')), (1, 1, None)],
];

impl<Id: Names + Send + Sync, R: Threads + Wait + Clock + Print + Sync> Stage<'_, Id, R> {
    /// Whether a case ends as it must, and in the end each row is there once.
    pub(crate) fn scheduled(&self, case: Case) -> bool {
        self.fill_two() && self.ends_well(case) && self.has_first(0, 4) && self.has_first(1, 4)
    }

    /// Deploys a program, appends a record, and the same again.
    fn fill_two(&self) -> bool {
        self.deploy(0, &BOTH) == Some(0)
            && self.puts(0, b'A')
            && self.deploy(0, &NULLS) == Some(2)
            && self.puts(0, b'B')
    }

    fn ends_well(&self, case: Case) -> bool {
        match case {
            Case::StopAt(call) => self.goes_on(call),
            Case::StartTwice(output) => self.meet(output, false),
            Case::StartAndStep(output) => self.meet(output, true),
        }
    }

    /// Whether so many of the four items are done in an output partition, and the rows are theirs.
    fn has_first(&self, output: usize, done: usize) -> bool {
        if output >= 2 || done > 4 {
            return false;
        }
        self.hold(&[(0, output, done, &ROWS[output][..done / 2])])
    }

    /// Whether a worker that is stopped leaves what is before its offer, and the next one begins with
    /// that item and does the rest.
    fn goes_on(&self, call: usize) -> bool {
        let before = call.wrapping_sub(1);
        let stopped = [Ended::Stopped(before / 2, before % 2)];
        let (first, second) = (StopAt::new(call), StopAt::new(0));
        self.ends(Until::Drained, &first, &stopped)
            && self.has_first(0, call / 2)
            && self.has_first(1, before / 2)
            && self.ends(Until::Drained, &second, &ALL_ENDS)
            && second.offers() == 8usize.wrapping_sub(before / 2 * 2)
    }

    /// Two threads at once, of which the second starts a worker too, or takes steps; whether both end
    /// well. A worker waits for the other thread before an offer to one output partition.
    fn meet(&self, output: usize, steps: bool) -> bool {
        let flags = [AtomicBool::new(false), AtomicBool::new(false)];
        let (first, second) = (&flags[0], &flags[1]);
        let one = move |number: usize| -> bool {
            if number == 1 && steps {
                return self.step_beside(second, first);
            }
            let gate = Meet::new(number, first, second, output);
            self.ends(Until::Drained, &gate, &ALL_ENDS)
        };
        both(self.rt, self.alloc, &one)
    }

    /// One step, and when a worker has come to its first offer, steps of both books.
    fn step_beside(&self, own: &AtomicBool, other: &AtomicBool) -> bool {
        let is_added = self.steps(1, &[Stepped::Added(0)]);
        let is_there = sees(other);
        own.store(true, Ordering::SeqCst);
        is_added && is_there && self.step_all(0) && self.step_all(1)
    }

    /// Steps a book until nothing is left; whether no step was refused.
    fn step_all(&self, output: usize) -> bool {
        for _ in 0..5 {
            match self.step(output) {
                Some(Stepped::Added(_)) => thread::yield_now(),
                other => return other == Some(Stepped::Nothing),
            }
        }
        false
    }
}

/// Each case of a broker of its own comes out as it must, so many times.
fn all_hold<R: Threads + Wait + Abort + Clock + Print + Sync>(
    rt: &R,
    alloc: Global,
    times: usize,
    cases: &[Case],
) {
    for _ in 0..times {
        let wrong = first_wrong(rt, alloc, cases);
        assert!(rt; wrong.is_none(), "case {wrong:?}");
    }
}

/// The number of the first case that does not end as it must.
fn first_wrong<R: Threads + Wait + Clock + Print + Sync>(
    rt: &R,
    alloc: Global,
    cases: &[Case],
) -> Option<usize> {
    for (k, case) in cases.iter().enumerate() {
        if act_once(rt, alloc, 1, 2, 5, Scene::Schedule(*case)) != Ok(()) {
            return Some(k);
        }
    }
    None
}

static STOPS: [Case; 8] = [
    Case::StopAt(1),
    Case::StopAt(2),
    Case::StopAt(3),
    Case::StopAt(4),
    Case::StopAt(5),
    Case::StopAt(6),
    Case::StopAt(7),
    Case::StopAt(8),
];

#[test]
fn a_worker_goes_on_where_one_was_stopped(rt: HostRuntime) {
    all_hold(&rt, rt.alloc(), 1, &STOPS);
}

static TWICE: [Case; 2] = [Case::StartTwice(0), Case::StartTwice(1)];

#[test]
fn two_starts_at_once_take_each_item_once(rt: HostRuntime) {
    all_hold(&rt, rt.alloc(), 10, &TWICE);
}

static BESIDE: [Case; 2] = [Case::StartAndStep(0), Case::StartAndStep(1)];

#[test]
fn a_worker_and_steps_take_each_item_once(rt: HostRuntime) {
    all_hold(&rt, rt.alloc(), 10, &BESIDE);
}
