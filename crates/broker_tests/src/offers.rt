ghost use Rattle.std.specs.Prelude.{◌≡◌};

use crate::log_stage::{LogScene, LogStage, OUTPUTS, play_log};
use broker_fixtures::{advance, results_of};
use fixtures::batch_of_value;
use out_book::{Book, BookFault, Delivered, Room};
use part_log::Names;
use std::rt::Clock;
use std::sync::Wait;
use std::test::*;
use std::thread::Threads;
use worker::{Delivery, Walk};

#[test]
fn a_book_takes_items_in_order(rt: HostRuntime) {
    play_log(&rt, rt.alloc(), 3, LogScene::Offer);
}

/// How the rows of an item come to a book.
#[derive(Clone, Copy)]
enum How {
    Offered,
    ByValue,
}

/// An item, counted from 1, how a book gets it, and what it answers.
type Offer = (usize, How, Result<Delivered, BookFault>);

/// One after the other.
static OFFERS: [Offer; 6] = [
    (1, How::Offered, Ok(Delivered::Added(0))),
    (3, How::Offered, Err(BookFault::Gap(1))),
    (1, How::Offered, Ok(Delivered::Already)),
    (2, How::ByValue, Ok(Delivered::Added(0))),
    (1, How::ByValue, Ok(Delivered::Already)),
    (3, How::Offered, Ok(Delivered::Added(0))),
];

impl<Id: Names + Send + Sync, R: Threads + Wait + Clock + Print + Sync> LogStage<'_, Id, R> {
    pub(crate) fn offer_three(&self) -> bool
        requires inputs { Id.inputs ≡ 1 }
        requires outputs { Id.outputs ≡ 2 }
    {
        match Book::new(self.alloc, 1, 0) {
            Ok(mut book) => self.append_three() && self.are_taken(&mut book),
            Err(_) => false,
        }
    }

    /// Appends three batches of one record; whether it could.
    fn append_three(&self) -> bool {
        for value in 0..3 {
            if self.enter(batch_of_value(self.alloc, 1, value)).is_err() {
                return false;
            }
        }
        true
    }

    /// Whether a book answers the offers as it must.
    fn are_taken(&self, book: &mut Book<Id>) -> bool
        requires { Id.outputs ≡ 2 }
    {
        for (item, how, want) in &OFFERS {
            if self.offer(*item, *how, book) != Some(*want) {
                return false;
            }
        }
        true
    }

    /// What a book answers to the item with this number.
    fn offer(
        &self,
        item: usize,
        how: How,
        book: &mut Book<Id>,
    ) -> Option<Result<Delivered, BookFault>>
        requires { Id.outputs ≡ 2 }
    {
        let walk = self.walk_to(item)?;
        let results = results_of(self.alloc, &walk, &self.log, OUTPUTS)?;
        match how {
            How::Offered => Some(book.deliver(&walk, &results)),
            How::ByValue => match results.into_deliveries(self.alloc) {
                Ok(deliveries) => self.receive(&walk, deliveries, book),
                Err(_) => None,
            },
        }
    }

    /// A walk to the item with this number from 1, by copies of the walks before it.
    fn walk_to(&self, item: usize) -> Option<Walk<Id>> {
        let mut walk = Walk::new(0);
        for _ in 0..item {
            let mut next = walk.again();
            if !advance(&self.log, &mut next) {
                return None;
            }
            walk = next;
        }
        Some(walk)
    }

    /// Gives a book its own of these deliveries.
    fn receive(
        &self,
        walk: &Walk<Id>,
        deliveries: Vec<Delivery<Id>>,
        book: &mut Book<Id>,
    ) -> Option<Result<Delivered, BookFault>> {
        for delivery in deliveries {
            if delivery.output() == book.output() {
                return Some(book.receive(walk, delivery, &mut Room::new(self.alloc)));
            }
        }
        None
    }
}
