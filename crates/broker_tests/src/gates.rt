//! Gates that hold and stop workers, and make threads meet.

use broker_fixtures::sees;
use std::sync::atomic::{AtomicBool, AtomicUsize, Ordering};
use worker::Gate;

/// Stops before one offer.
#[derive(Drop)]
pub struct Shut {
    pub input: usize,
    pub index: usize,
    pub output: usize,
}

impl Gate for Shut {
    fn pass(&self, input: usize, index: usize, output: usize) -> bool {
        input != self.input || index != self.index || output != self.output
    }
}

/// Each of two workers waits at its first item until the other has come to its own.
#[derive(Drop)]
pub struct Pair {
    first: AtomicBool,
    second: AtomicBool,
}

impl Pair {
    pub(crate) fn new() -> Pair {
        Pair {
            first: AtomicBool::new(false),
            second: AtomicBool::new(false),
        }
    }
}

impl Gate for Pair {
    fn pass(&self, input: usize, _index: usize, _output: usize) -> bool {
        let (own, other) = if input == 0 {
            (&self.first, &self.second)
        } else {
            (&self.second, &self.first)
        };
        own.store(true, Ordering::SeqCst);
        sees(other)
    }
}

/// Holds a worker before the first offer of item 1 until it is let go.
#[derive(Drop)]
pub struct Hold {
    pub held: AtomicBool,
    pub let_go: AtomicBool,
}

impl Hold {
    pub(crate) fn new() -> Hold {
        Hold {
            held: AtomicBool::new(false),
            let_go: AtomicBool::new(false),
        }
    }
}

impl Gate for Hold {
    fn pass(&self, _input: usize, index: usize, output: usize) -> bool {
        if index != 1 || output != 0 {
            return true;
        }
        self.held.store(true, Ordering::SeqCst);
        sees(&self.let_go)
    }
}

/// Counts the offers, and answers false at one of them, which is counted from 1.
#[derive(Drop)]
pub(crate) struct StopAt {
    calls: AtomicUsize,
    call: usize,
}

impl StopAt {
    pub(crate) fn new(call: usize) -> StopAt {
        StopAt {
            calls: AtomicUsize::new(0),
            call,
        }
    }

    /// How many offers there were.
    pub(crate) fn offers(&self) -> usize {
        self.calls.load(Ordering::SeqCst)
    }
}

impl Gate for StopAt {
    fn pass(&self, _input: usize, _index: usize, _output: usize) -> bool {
        let before = self.calls.fetch_add(1, Ordering::SeqCst);
        before.wrapping_add(1) != self.call
    }
}

/// At its first offers to one output partition a worker raises a flag and waits for the other one.
#[derive(Drop)]
pub(crate) struct Meet<'a> {
    own: &'a AtomicBool,
    other: &'a AtomicBool,
    output: usize,
}

impl<'a> Meet<'a> {
    /// The gate of the first or the second thread, whose flags these are.
    pub(crate) fn new(
        number: usize,
        first: &'a AtomicBool,
        second: &'a AtomicBool,
        output: usize,
    ) -> Meet<'a> {
        let (own, other) = if number == 0 {
            (first, second)
        } else {
            (second, first)
        };
        Meet { own, other, output }
    }
}

impl Gate for Meet<'_> {
    fn pass(&self, _input: usize, _index: usize, output: usize) -> bool {
        if output != self.output {
            return true;
        }
        self.own.store(true, Ordering::SeqCst);
        sees(self.other)
    }
}
