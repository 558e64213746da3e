//! A log, a walk and a book by hand: what a step is made of.

ghost use Rattle.std.specs.Prelude.{◌≡◌};

use crate::log_stage::{LogScene, LogStage, OUTPUTS, play_log};
use crate::memory::making::{batch, say};
use crate::memory::rows::done_in;
use crate::stage::{Place, placed};
use broker::BrokerFault;
use broker_fixtures::{Ending, NAME, advance, program_of, results_of};
use fixtures::BOTH;
use log_spec::Name;
use out_book::{Book, BookFault, Delivered};
use part_log::{LogFault, Names, Program};
use std::alloc::Global;
use std::rt::Clock;
use std::sync::{Arc, Wait};
use std::test::*;
use std::thread::Threads;
use worker::{Results, Walk};

#[test]
fn a_refused_delivery_can_be_made_again(rt: HostRuntime) {
    play_log(&rt, rt.alloc(), 3, LogScene::Deliver);
}

/// How many bytes the batch of all rows of a book has.
fn fetch_once<Id: Names>(book: &Book<Id>) -> Result<Option<usize>, BookFault> {
    match book.fetch(0, 10) {
        Ok(Some(bytes)) => Ok(Some(bytes.len())),
        Ok(None) => Ok(None),
        Err(fault) => Err(fault),
    }
}

/// The bytes of a second fetch where the first was refused. Three items are done in the book.
fn fetch_twice<Id: Names, R: Print>(rt: &R, book: &Book<Id>) -> Option<usize> {
    for _ in 0..2 {
        match fetch_once(book) {
            Ok(found) => return found,
            Err(fault) => {
                say(rt, "fetch", BrokerFault::Book(fault));
                if fault != BookFault::Memory || done_in(book) != Some(3) {
                    return None;
                }
            }
        }
    }
    None
}

fn deliver_twice<Id: Names, R: Print>(
    rt: &R,
    book: &mut Book<Id>,
    walk: &Walk<Id>,
    results: &Results<Id>,
) -> Option<Delivered> {
    let before = done_in(book)?;
    for _ in 0..2 {
        match book.deliver(walk, results) {
            Ok(delivered) => return Some(delivered),
            Err(fault) => {
                say(rt, "deliver", BrokerFault::Book(fault));
                if fault != BookFault::Memory || done_in(book) != Some(before) {
                    return None;
                }
            }
        }
    }
    None
}

fn program(alloc: Global, image: &[u8]) -> Option<Arc<Program>> {
    for _ in 0..2 {
        if let Some(program) = program_of(alloc, image) {
            return Some(program);
        }
    }
    None
}

impl<Id: Names + Send + Sync, R: Threads + Wait + Clock + Print + Sync> LogStage<'_, Id, R> {
    /// A log of a mark and two batches, whose items are processed and delivered to a book one by one.
    pub(crate) fn deliver_all(&self) -> Result<(), Ending>
        requires inputs { Id.inputs ≡ 1 }
        requires outputs { Id.outputs ≡ 2 }
    {
        let Ok(mut book) = Book::new(self.alloc, 1, 0) else {
            return Err(Ending::NotMade);
        };
        if self.fill_log() {
            self.deliver_each(&mut book)
        } else {
            Err(Ending::Wrong("log"))
        }
    }

    fn deliver_each(&self, book: &mut Book<Id>) -> Result<(), Ending>
        requires { Id.outputs ≡ 2 }
    {
        let mut walk = Walk::new(0);
        for want in [0, 2, 2] {
            if !advance(&self.log, &mut walk) {
                return Err(Ending::Wrong("next"));
            }
            if self.deliver_next(&walk, book) != Some(Delivered::Added(want)) {
                return Err(Ending::Wrong("deliver"));
            }
        }
        if done_in(book) != Some(3) {
            return Err(Ending::Wrong("rows"));
        }
        if fetch_twice(self.rt, book) == Some(97) {
            Ok(())
        } else {
            Err(Ending::Wrong("fetch"))
        }
    }

    /// Processes the item at a walk's position and delivers its rows. None where one of the two is wrong.
    fn deliver_next(&self, walk: &Walk<Id>, book: &mut Book<Id>) -> Option<Delivered>
        requires { Id.outputs ≡ 2 }
    {
        match self.process_twice(walk) {
            Some(results) => deliver_twice(self.rt, book, walk, &results),
            None => None,
        }
    }

    /// A mark and the batches `A` and `B`, each in its place.
    fn fill_log(&self) -> bool {
        self.mark_twice() == Some((0, 0, 0))
            && self.enter_twice(b'A') == Some((0, 1, 0))
            && self.enter_twice(b'B') == Some((0, 2, 2))
    }

    /// How many items the log has.
    fn items(&self) -> Option<usize> {
        match self.log.trail(self.rt) {
            Ok(trail) => Some(trail.len()),
            Err(_) => None,
        }
    }

    /// Whether the log has this many items, after a fault for want of memory.
    fn is_refused(&self, call: &str, fault: LogFault, before: usize) -> bool {
        say(self.rt, call, BrokerFault::Log(fault));
        fault == LogFault::Memory && self.items() == Some(before)
    }

    fn mark_once(&self) -> Option<Result<Place, LogFault>> {
        match (program(self.alloc, &BOTH), Name::new(NAME)) {
            (Some(program), Some(name)) => {
                Some(placed(self.log.mark(self.rt, self.alloc, name, 1, program)))
            }
            _ => None,
        }
    }

    fn mark_twice(&self) -> Option<Place> {
        for _ in 0..2 {
            match self.mark_once()? {
                Ok(place) => return Some(place),
                Err(fault) if self.is_refused("mark", fault, 0) => {}
                Err(_) => return None,
            }
        }
        None
    }

    fn enter_twice(&self, value: u8) -> Option<Place> {
        let before = self.items()?;
        for _ in 0..2 {
            match self.enter(batch(self.alloc, value)) {
                Ok(place) => return Some(place),
                Err(fault) if self.is_refused("append", fault, before) => {}
                Err(_) => return None,
            }
        }
        None
    }

    /// The rows of the item at a walk's position.
    fn process_twice(&self, walk: &Walk<Id>) -> Option<Results<Id>>
        requires { Id.outputs ≡ 2 }
    {
        match results_of(self.alloc, walk, &self.log, OUTPUTS) {
            Some(results) => Some(results),
            None => {
                let _ = println!(self.rt; "refused process: no memory");
                results_of(self.alloc, walk, &self.log, OUTPUTS)
            }
        }
    }
}
