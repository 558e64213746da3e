//! Producers, which append batches of their own records to the logs.

use crate::making::{batch_of, mixed};
use crate::threads::{INPUTS, PRODUCERS};
use broker::Broker;
use part_log::Names;
use std::alloc::Global;
use std::sync::Wait;
use std::thread;

/// What a producer appends: its share of the records, to random logs by batches of random sizes.
#[derive(Clone, Copy, Drop)]
pub struct Share {
    first: usize,
    end: usize,
    seed: u64,
}

impl Share {
    /// The share of a producer with this number.
    pub(crate) fn of(number: usize, records: usize, seed: u64) -> Share {
        let each = records / PRODUCERS + 1;
        Share {
            first: each.wrapping_mul(number).min(records),
            end: each.wrapping_mul(number.wrapping_add(1)).min(records),
            seed,
        }
    }

    /// Appends the share. None where an append is refused.
    pub(crate) fn append_all<Id: Names, C, R: Wait>(
        &self,
        rt: &R,
        alloc: Global,
        broker: &Broker<Id, C>,
    ) -> Option<()> {
        let mut next = self.first;
        for _ in self.first..self.end {
            if next >= self.end {
                break;
            }
            let count = self.append(rt, alloc, broker, next)?;
            next = next.wrapping_add(count);
            thread::yield_now();
        }
        Some(())
    }

    /// Appends a batch; how many records it has.
    fn append<Id: Names, C, R: Wait>(
        &self,
        rt: &R,
        alloc: Global,
        broker: &Broker<Id, C>,
        next: usize,
    ) -> Option<usize> {
        let chance = mixed(self.seed ^ next as u64);
        let count = self.end.wrapping_sub(next).min((chance % 8 + 1) as usize);
        let input = (chance >> 8) as usize % INPUTS;
        let batch = batch_of(alloc, next, count)?;
        if broker.append(rt, alloc, input, batch).is_ok() {
            Some(count)
        } else {
            None
        }
    }
}
