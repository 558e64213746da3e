//! Workers in threads.

use crate::memory::making::say;
use crate::stage::Stage;
use broker::{BrokerFault, Ended, Until};
use broker_fixtures::Ending;
use out_book::BookFault;
use part_log::Names;
use std::rt::Clock;
use std::sync::Wait;
use std::thread::Threads;
use worker::Open;

/// How the one worker ended, where there is just one.
fn only(ended: &[Ended]) -> Option<Ended> {
    match ended {
        [end] => Some(*end),
        _ => None,
    }
}

/// What a start that was refused may leave in the books. None where it was not refused memory.
#[derive(Clone, Copy, PartialEq, Eq)]
enum Left {
    Nothing,
    DoneItems,
}

/// What a start or its worker that was refused may leave. None where it was not refused memory.
fn left_by<R: Print>(rt: &R, call: &str, fault: BrokerFault, left: Left) -> Option<Left> {
    say(rt, call, fault);
    let is_book = fault == BrokerFault::Book(BookFault::Memory) && left == Left::DoneItems;
    if fault == BrokerFault::Memory || is_book {
        Some(left)
    } else {
        None
    }
}

/// The same of a start that did not end well.
fn refusal<R: Print>(rt: &R, started: Result<Option<Ended>, BrokerFault>) -> Option<Left> {
    match started {
        Err(fault) => left_by(rt, "start", fault, Left::Nothing),
        Ok(Some(Ended::Fault(fault))) => left_by(rt, "start, its worker", fault, Left::DoneItems),
        Ok(Some(Ended::NoThread)) => {
            let _ = println!(rt; "refused start: NoThread");
            Some(Left::Nothing)
        }
        Ok(_) => None,
    }
}

impl<Id: Names + Send + Sync, R: Threads + Wait + Clock + Print + Sync> Stage<'_, Id, R> {
    /// One worker, which takes a mark and two batches into two books.
    pub(crate) fn start_all(&self) -> Result<(), Ending> {
        if !self.fill_twice() {
            return Err(Ending::Wrong("fill"));
        }
        if self.start_twice() != Some(Ended::Done(3)) {
            return Err(Ending::Wrong("start"));
        }
        if self.done_of(0) == Some(3) && self.done_of(1) == Some(3) {
            Ok(())
        } else {
            Err(Ending::Wrong("rows"))
        }
    }

    /// How the one worker ended, of a second start where memory was refused in the first.
    fn start_twice(&self) -> Option<Ended> {
        let first = self.start_once();
        if let Ok(Some(Ended::Done(items))) = first {
            return Some(Ended::Done(items));
        }
        match refusal(self.rt, first) {
            Some(left) if self.have(left) => self.start_once().unwrap_or(None),
            _ => None,
        }
    }

    /// Begins a start; how its one worker ended, where there is just one.
    fn start_once(&self) -> Result<Option<Ended>, BrokerFault> {
        match self
            .broker
            .start(self.rt, self.alloc, Until::Drained, &Open)
        {
            Ok(ended) => Ok(only(&ended)),
            Err(fault) => Err(fault),
        }
    }

    /// Whether each book has the rows of its done items, or has none.
    fn have(&self, left: Left) -> bool {
        match (self.done_of(0), self.done_of(1)) {
            (Some(first), Some(second)) => left == Left::DoneItems || first == 0 && second == 0,
            _ => false,
        }
    }
}
