//! What the worker of an input partition does.

ghost use Rattle.std.specs.Prelude.{◌≡◌, ◌<◌, ◌+◌, List, length, IfOk};
ghost use Rattle.log_spec.specs.declared.row.Row.{Row};
ghost use Rattle.worker.specs.Processed.{AreInTurn};
ghost use Rattle.worker.specs.Walks.{AreRowsOfLast};

use crate::broker::Broker;
use crate::ended::{Ended, Until};
use crate::fault::BrokerFault;
use item_rows::Blocks;
use out_book::{BookFault, Room};
use part_log::{Names, PartLog, Trail};
use std::alloc::{AllocError, Global};
use std::sync::Wait;
use worker::{Delivery, Gate, Walk, process_in};

/// What a worker keeps from item to item: blocks to run records in, and room for rows in books.
#[derive(Drop)]
struct Kept {
    blocks: Blocks,
    room: Room,
}

impl Kept {
    fn new(alloc: Global) -> Kept {
        Kept {
            blocks: Blocks::new(alloc),
            room: Room::new(alloc),
        }
    }
}

/// The worker of an input partition, and what it works with.
#[derive(Drop)]
pub(crate) struct Worker<'a, Id: Names, C, R, G> {
    broker: &'a Broker<Id, C>,
    rt: &'a R,
    alloc: Global,
    input: usize,
    gate: &'a G,
}

impl<'a, Id: Names, C, R: Wait, G: Gate> Worker<'a, Id, C, R, G> {
    pub(crate) fn of(
        broker: &'a Broker<Id, C>,
        rt: &'a R,
        alloc: Global,
        input: usize,
        gate: &'a G,
    ) -> Worker<'a, Id, C, R, G> {
        Worker {
            broker,
            rt,
            alloc,
            input,
            gate,
        }
    }

    /// Takes items until the worker is to end.
    pub(crate) fn run(&self, until: Until) -> Ended {
        match self.take_all(until) {
            Ok(items) => Ended::Done(items),
            Err(ended) => ended,
        }
    }

    /// Takes items until the worker is to end, or ends early. Returns how many are done then.
    fn take_all(&self, until: Until) -> Result<usize, Ended> {
        let log = self.broker.log(self.input).map_err(Ended::Fault)?;
        let _all = self.broker.inputs();
        let mut walk = self.done_everywhere().map_err(Ended::Fault)?;
        let trail = self
            .broker
            .trail(self.rt, self.input)
            .map_err(Ended::Fault)?;
        let mut kept = Kept::new(self.alloc);
        self.drain(log, &trail, &mut walk, &mut kept)?;
        match until {
            Until::Drained => {}
            Until::Closed => self.follow(log, &mut walk, &mut kept)?,
        }
        Ok(walk.len())
    }

    /// Takes the items of a trail.
    fn drain(
        &self,
        log: &PartLog<Id>,
        trail: &Trail<Id>,
        walk: &mut Walk<Id>,
        kept: &mut Kept,
    ) -> Result<(), Ended>
        requires trail { trail.now.partition ≡ log.now }
        requires walk { walk.old.partition ≡ log.now }
        requires few { log.now < 64 }
        ensures { walk.new.partition ≡ walk.old.partition }
    {
        for index in walk.len()..trail.len() {
            let mut note = trail.note(index);
            if !walk.next(log, &mut note) {
                unreachable!();
            }
            self.offer(log, walk, kept)?;
        }
        Ok(())
    }

    /// Takes the items of a log as they come, up to its end or its last cell.
    fn follow(&self, log: &PartLog<Id>, walk: &mut Walk<Id>, kept: &mut Kept) -> Result<(), Ended>
        requires walk { walk.old.partition ≡ log.now }
        requires few { log.now < 64 }
    {
        for _ in walk.len()..log.cells() {
            if has_end(log, walk) {
                break;
            }
            self.wait_for_next(log, walk);
            self.offer(log, walk, kept)?;
        }
        Ok(())
    }

    /// Waits for the item after the walk's last one, and makes it the last one.
    fn wait_for_next(&self, log: &PartLog<Id>, walk: &mut Walk<Id>)
        requires walk { walk.old.partition ≡ log.now }
        requires within { length walk.old.items < length (Id.cells log.now) }
        ensures partition { walk.new.partition ≡ walk.old.partition }
        ensures next { length walk.new.items ≡ length walk.old.items + 1 }
    {
        let mut note = log.wait_for(self.rt, walk.len());
        if !walk.next(log, &mut note) {
            unreachable!();
        }
    }

    /// Processes the walk's last item, and offers its rows to every output partition.
    fn offer(&self, log: &PartLog<Id>, walk: &Walk<Id>, kept: &mut Kept) -> Result<(), Ended>
        requires walk { walk.now.partition ≡ log.now }
        requires few { log.now < 64 }
        requires item { 0 < length walk.now.items }
    {
        let Ok(deliveries) = self.deliveries(log, walk, &mut kept.blocks) else {
            return Err(Ended::Fault(BrokerFault::Memory));
        };
        let index = walk.len() - 1;
        for delivery in deliveries {
            let output = delivery.output();
            if !self.gate.pass(walk.partition(), index, output) {
                return Err(Ended::Stopped(index, output));
            }
            self.deliver(walk, delivery, &mut kept.room)
                .map_err(Ended::Fault)?;
        }
        Ok(())
    }

    /// The rows of the walk's last item, for each output partition in turn. No lock is held.
    fn deliveries(
        &self,
        log: &PartLog<Id>,
        walk: &Walk<Id>,
        blocks: &mut Blocks,
    ) -> Result<Vec<Delivery<Id>>, AllocError>
        requires walk { walk.now.partition ≡ log.now }
        requires few { log.now < 64 }
        requires item { 0 < length walk.now.items }
        ensures { IfOk result (λ deliveries. (all : List (List Row)) × AreRowsOfLast Id.outputs walk.now all × AreInTurn walk.now all deliveries.items) }
    {
        let results = process_in(blocks, walk, log, self.broker.outputs())?;
        results.into_deliveries(self.alloc)
    }

    /// Offers an item's rows to their output partition. Room for them is made before the book is locked;
    /// what the book doesn't take of it is there for the next offer.
    fn deliver(
        &self,
        walk: &Walk<Id>,
        delivery: Delivery<Id>,
        room: &mut Room,
    ) -> Result<(), BrokerFault> {
        if room.prepare(delivery.len()).is_err() {
            return Err(BrokerFault::Memory);
        }
        let output = delivery.output();
        let mut book = self.broker.book(output).lock(self.rt);
        if book.output() != output {
            return Err(BrokerFault::Book(BookFault::Partition));
        }
        match book.receive(walk, delivery, room) {
            Ok(_) => Ok(()),
            Err(fault) => Err(BrokerFault::Book(fault)),
        }
    }

    /// A walk over the items that are done in every output partition.
    fn done_everywhere(&self) -> Result<Walk<Id>, BrokerFault>
        requires { self.now.input < Id.inputs }
        ensures { IfOk result (λ walk. walk.partition ≡ self.now.input) }
    {
        let outputs = self.broker.outputs();
        let mut least = self.done_in(0)?;
        for output in 1..outputs {
            let walk = self.done_in(output)?;
            if walk.len() < least.len() {
                least = walk;
            }
        }
        Ok(least)
    }

    /// A walk over the items that are done in an output partition.
    fn done_in(&self, output: usize) -> Result<Walk<Id>, BrokerFault>
        requires output { output < Id.outputs }
        requires input { self.now.input < Id.inputs }
        ensures { IfOk result (λ walk. walk.partition ≡ self.now.input) }
    {
        let book = self.broker.book(output).lock(self.rt);
        if book.output() != output {
            return Err(BrokerFault::Book(BookFault::Partition));
        }
        Ok(book.walk(self.input).again())
    }
}

/// Whether a walk's last item is the end of its log.
fn has_end<Id: Names>(log: &PartLog<Id>, walk: &Walk<Id>) -> bool
    requires { walk.now.partition ≡ log.now }
{
    if walk.is_empty() {
        return false;
    }
    log.item(walk.trail(), walk.len() - 1).is_end()
}
