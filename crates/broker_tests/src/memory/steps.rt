//! Steps of a broker's book.

use crate::memory::making::say;
use crate::memory::rows::done_in;
use crate::stage::Stage;
use broker::{BrokerFault, Stepped};
use broker_fixtures::{Ending, step_book};
use out_book::{Book, BookFault};
use part_log::Names;
use std::rt::Clock;
use std::sync::Wait;
use std::thread::Threads;

const O3: BrokerFault = BrokerFault::Book(BookFault::Memory);

/// What the steps of output 1 do to a mark and two batches of two records, one after the other.
static STEPS: [Stepped; 4] = [
    Stepped::Added(0),
    Stepped::Added(2),
    Stepped::Added(2),
    Stepped::Nothing,
];

impl<Id: Names + Send + Sync, R: Threads + Wait + Clock + Print + Sync> Stage<'_, Id, R> {
    pub(crate) fn step_all_twice(&self) -> Result<(), Ending> {
        if !self.fill_twice() {
            return Err(Ending::Wrong("fill"));
        }
        for want in &STEPS {
            if self.step_twice(1) != Some(*want) {
                return Err(Ending::Wrong("step"));
            }
        }
        if self.done_of(1) == Some(3) && self.done_of(0) == Some(0) {
            Ok(())
        } else {
            Err(Ending::Wrong("rows"))
        }
    }

    /// A step of an output partition's book over input partition 0, or the one after a refused one.
    fn step_twice(&self, output: usize) -> Option<Stepped> {
        let mut guard = self.book(output)?;
        self.step_book_twice(&mut *guard)
    }

    fn step_book_twice(&self, book: &mut Book<Id>) -> Option<Stepped> {
        let before = done_in(book)?;
        for _ in 0..2 {
            match step_book(self.alloc, &self.broker, book, 0)? {
                Ok(stepped) => return Some(stepped),
                Err(fault) => {
                    say(self.rt, "step", fault);
                    let is_memory = fault == BrokerFault::Memory || fault == O3;
                    if !is_memory || done_in(book) != Some(before) {
                        return None;
                    }
                }
            }
        }
        None
    }
}
