//! A broker, and the calls that tests make on it.

ghost use Rattle.std.specs.Prelude.{IfSome};
ghost use Rattle.log_spec.specs.Logs.{FitsLog};

use broker::{Broker, BrokerFault, Ended, Stepped, Until};
use broker_fixtures::{deploy, drain, ends, place_of, put, step};
use catalogue::{Catalogue, Finder, Known};
use log_spec::Name;
use out_book::Book;
use part_log::{Names, Receipt};
use std::alloc::Global;
use std::rt::Clock;
use std::sync::{MutexGuard, Wait};
use std::thread::Threads;
use wire_spec::Batch;
use worker::Gate;

/// Where an item is: its partition, its index and the records before it.
pub(crate) type Place = (usize, usize, u64);

/// Where the item of a receipt is, or why it was refused.
pub(crate) fn placed<Id: Names, E>(answer: Result<Receipt<Id>, E>) -> Result<Place, E> {
    match answer {
        Ok(receipt) => Ok(place_of(&receipt)),
        Err(fault) => Err(fault),
    }
}

/// A broker, and what calls on it take.
#[derive(Drop)]
pub(crate) struct Stage<'a, Id: Names, R: Wait> {
    pub(crate) rt: &'a R,
    pub(crate) alloc: Global,
    pub(crate) broker: Broker<Id, Catalogue<&'a R>>,
}

impl<Id: Names + Send + Sync, R: Threads + Wait + Clock + Print + Sync> Stage<'_, Id, R> {
    /// Deploys an image to an input partition. Returns the index of its mark.
    pub(crate) fn deploy(&self, input: usize, image: &[u8]) -> Option<usize> {
        deploy(self.rt, self.alloc, &self.broker, input, image)
    }

    /// Where the mark of a deployment is, and which version it is of.
    pub(crate) fn deploy_known(
        &self,
        input: usize,
        name: &Name,
        finder: &mut Finder,
        known: &Known,
    ) -> Result<(usize, u32), BrokerFault> {
        let (rt, alloc) = (self.rt, self.alloc);
        match self.broker.deploy(rt, alloc, input, name, finder, known) {
            Ok((receipt, version)) => Ok((receipt.index(), version)),
            Err(fault) => Err(fault),
        }
    }

    pub(crate) fn finder(&self) -> Result<Finder, BrokerFault> {
        self.broker.finder(self.rt, self.alloc)
    }

    /// Where a batch is that a log takes. `Memory` where there is no batch.
    pub(crate) fn append(&self, input: usize, batch: Option<Batch>) -> Result<Place, BrokerFault>
        requires { IfSome batch (λ batch. FitsLog batch) }
    {
        match batch {
            Some(batch) => placed(self.broker.append(self.rt, self.alloc, input, batch)),
            None => Err(BrokerFault::Memory),
        }
    }

    /// Appends a record with this value, as `broker_fixtures` has it.
    pub(crate) fn put(&self, input: usize, value: u8) -> Option<Receipt<Id>> {
        put(self.rt, self.alloc, &self.broker, input, value)
    }

    /// The same; whether it could.
    pub(crate) fn puts(&self, input: usize, value: u8) -> bool {
        self.put(input, value).is_some()
    }

    /// Appends records with these values; whether it could.
    pub(crate) fn puts_each(&self, input: usize, values: &[u8]) -> bool {
        for value in values {
            if !self.puts(input, *value) {
                return false;
            }
        }
        true
    }

    /// Where the end of a log is.
    pub(crate) fn close(&self, input: usize) -> Result<Place, BrokerFault> {
        placed(self.broker.close(self.rt, self.alloc, input))
    }

    /// How many items the log of input partition 0 has.
    pub(crate) fn items(&self) -> Option<usize> {
        match self.broker.trail(self.rt, 0) {
            Ok(trail) => Some(trail.len()),
            Err(_) => None,
        }
    }

    /// Runs workers; whether they end so.
    pub(crate) fn ends<G: Gate + Sync>(&self, until: Until, gate: &G, want: &[Ended]) -> bool {
        ends(self.rt, self.alloc, &self.broker, until, gate, want)
    }

    /// Runs workers over what the logs have now; whether each came to its end.
    pub(crate) fn drain(&self) -> bool {
        drain(self.rt, self.alloc, &self.broker)
    }

    /// A step of an output partition's book over input partition 0.
    pub(crate) fn step(&self, output: usize) -> Option<Stepped> {
        step(self.rt, self.alloc, &self.broker, output)
    }

    /// Whether such steps answer this.
    pub(crate) fn steps(&self, output: usize, want: &[Stepped]) -> bool {
        for stepped in want {
            if self.step(output) != Some(*stepped) {
                return false;
            }
        }
        true
    }

    /// The book of an output partition.
    pub(crate) fn book(&self, output: usize) -> Option<MutexGuard<'_, Book<Id>>> {
        if output >= self.broker.outputs() {
            return None;
        }
        Some(self.broker.book(output).lock(self.rt))
    }
}
