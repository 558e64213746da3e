use crate::beside::both;
use crate::books::Held;
use crate::gates::{Hold, Pair, Shut};
use crate::play::{Scene, play};
use crate::stage::Stage;
use broker::{Ended, Until};
use broker_fixtures::sees;
use fixtures::{BOTH, FORWARD};
use part_log::Names;
use std::rt::Clock;
use std::sync::Wait;
use std::sync::atomic::Ordering;
use std::test::*;
use std::thread;
use std::thread::Threads;
use worker::Open;

/// Each record goes to output 1 and then to output 0.
static TURNED: [u8; 40] = [
    0xb7, 1, 0, 0, 1, 0, 0, 0, 0x85, 0, 0, 0, 3, 0, 0, 0, 0xb7, 1, 0, 0, 0, 0, 0, 0, 0x85, 0, 0, 0,
    3, 0, 0, 0, 0x95, 0, 0, 0, 0, 0, 0, 0,
];

#[test]
fn workers_run_side_by_side(rt: HostRuntime) {
    play(&rt, rt.alloc(), 2, 1, 2, Scene::Pair);
}

static PAIRED_ENDS: [Ended; 2] = [Ended::Done(2), Ended::Done(2)];

static PAIRED: [Held<'static>; 2] = [
    (0, 0, 2, &[(0, 0, Some(b'A'))]),
    (1, 0, 2, &[(0, 0, Some(b'A'))]),
];

#[test]
fn a_record_runs_by_the_mark_before_it(rt: HostRuntime) {
    play(&rt, rt.alloc(), 1, 2, 8, Scene::Late);
}

/// What the books hold after the first worker, of its output, and after the second.
static EARLY: [Held<'static>; 1] = [(0, 0, 2, &[(0, 0, Some(b'A'))])];

static LATE: [Held<'static>; 2] = [
    (0, 0, 4, &[(0, 0, Some(b'A')), (1, 1, Some(b'B'))]),
    (0, 1, 4, &[(0, 1, Some(b'A')), (1, 0, Some(b'B'))]),
];

/// How the first worker ends, and the second.
static EARLY_ENDS: [Ended; 1] = [Ended::Done(2)];

static LATE_ENDS: [Ended; 1] = [Ended::Done(4)];

#[test]
fn a_stopped_worker_goes_on(rt: HostRuntime) {
    play(&rt, rt.alloc(), 1, 2, 2, Scene::Stopped);
}

/// What the books hold after a worker that is stopped, and after the next one.
static STOPPED: [Held<'static>; 2] = [(0, 0, 2, &[(0, 0, Some(b'A'))]), (0, 1, 1, &[])];

static WENT_ON: [Held<'static>; 2] = [
    (0, 0, 2, &[(0, 0, Some(b'A'))]),
    (0, 1, 2, &[(0, 1, Some(b'A'))]),
];

/// How the first worker ends, and the second.
static STOPPED_ENDS: [Ended; 1] = [Ended::Stopped(1, 1)];

static WENT_ON_ENDS: [Ended; 1] = [Ended::Done(2)];

#[test]
fn workers_follow_logs_to_their_end(rt: HostRuntime) {
    play(&rt, rt.alloc(), 2, 1, 3, Scene::Follow);
}

static FOLLOWED: [Held<'static>; 2] = [
    (0, 0, 2, &[]),
    (1, 0, 3, &[(0, 0, Some(b'A')), (1, 0, Some(b'B'))]),
];

/// How the workers end, also those that begin then.
static BOTH_DONE: [Ended; 2] = [Ended::Done(2), Ended::Done(3)];

impl<Id: Names + Send + Sync, R: Threads + Wait + Clock + Print + Sync> Stage<'_, Id, R> {
    /// Deploys a program and appends a record after its mark; whether it could.
    fn begin(&self, input: usize, image: &[u8]) -> bool {
        self.deploy(input, image) == Some(0) && self.puts(input, b'A')
    }

    pub(crate) fn pair(&self) -> bool {
        self.begin(0, &FORWARD)
            && self.begin(1, &FORWARD)
            && self.ends(Until::Drained, &Pair::new(), &PAIRED_ENDS)
            && self.hold(&PAIRED)
    }

    /// A program is deployed and a record appended while the worker is held before the record before
    /// them. The worker ends after what was there when it began; the next one takes the rest.
    pub(crate) fn late(&self) -> bool {
        let gate = Hold::new();
        self.begin(0, &BOTH)
            && self.is_late(&gate)
            && self.hold(&EARLY)
            && self.ends(Until::Drained, &gate, &LATE_ENDS)
            && self.hold(&LATE)
    }

    /// Whether a worker ends well beside a late deployment.
    fn is_late(&self, gate: &Hold) -> bool {
        let one = move |number: usize| -> bool {
            if number == 0 {
                self.ends(Until::Drained, gate, &EARLY_ENDS)
            } else {
                self.append_late(gate)
            }
        };
        both(self.rt, self.alloc, &one)
    }

    /// Deploys another program and appends a record while the worker is held; whether it could.
    fn append_late(&self, gate: &Hold) -> bool {
        let is_held = sees(&gate.held);
        let mark = self.deploy(0, &TURNED);
        let is_put = self.puts(0, b'B');
        gate.let_go.store(true, Ordering::SeqCst);
        is_held && mark == Some(2) && is_put
    }

    pub(crate) fn stopped(&self) -> bool {
        let gate = Shut {
            input: 0,
            index: 1,
            output: 1,
        };
        self.begin(0, &BOTH)
            && self.ends(Until::Drained, &gate, &STOPPED_ENDS)
            && self.hold(&STOPPED)
            && self.ends(Until::Drained, &Open, &WENT_ON_ENDS)
            && self.hold(&WENT_ON)
    }

    /// One log is closed and the other filled while the workers wait for items. Workers that begin
    /// then end at once.
    pub(crate) fn follow(&self) -> bool {
        self.is_followed() && self.hold(&FOLLOWED) && self.ends(Until::Closed, &Open, &BOTH_DONE)
    }

    /// Whether the workers end well beside what they follow.
    fn is_followed(&self) -> bool {
        let one = move |number: usize| -> bool {
            if number == 0 {
                self.ends(Until::Closed, &Open, &BOTH_DONE)
            } else {
                self.finish()
            }
        };
        both(self.rt, self.alloc, &one)
    }

    /// Closes one log after a record and fills the other, with rests in which another thread may run;
    /// whether it could.
    fn finish(&self) -> bool {
        let mark = self.deploy(1, &FORWARD);
        thread::yield_now();
        let is_begun = mark == Some(0) && self.puts(1, b'A');
        let is_closed = self.puts(0, b'A') && self.close(0).is_ok();
        thread::yield_now();
        is_begun && is_closed && self.puts(1, b'B')
    }
}
