//! A stream of batches. What was read before memory was refused stays appended, and a reader that begins
//! at the batch that was refused brings the rest.

use crate::stage::Stage;
use crate::streams::{STEADY, reader_of};
use broker::{BrokerFault, StreamFault};
use broker_fixtures::Ending;
use fixtures::ONE;
use part_log::{LogFault, Names};
use std::alloc::{AllocError, Global};
use std::rt::Clock;
use std::sync::Wait;
use std::thread::Threads;
use wire_spec::BatchFault;

/// How many batches a stream has.
const BATCHES: usize = 3;

fn is_memory(fault: StreamFault) -> bool {
    matches!(
        fault,
        StreamFault::Batch(BatchFault::Memory)
            | StreamFault::Broker(BrokerFault::Memory | BrokerFault::Log(LogFault::Memory))
    )
}

/// The same batch so often.
fn stream_of(alloc: Global, batches: usize) -> Result<Vec<u8>, AllocError> {
    let mut bytes = Vec::new(alloc);
    for _ in 0..batches {
        bytes.extend_from_slice(&ONE)?;
    }
    Ok(bytes)
}

impl<Id: Names + Send + Sync, R: Threads + Wait + Clock + Print + Sync> Stage<'_, Id, R> {
    pub(crate) fn stream_all(&self) -> Result<(), Ending> {
        let Ok(bytes) = stream_of(self.alloc, BATCHES) else {
            return Err(Ending::NotMade);
        };
        match self.stream_rest(&bytes) {
            Err(Ending::NotMade) => self.stream_rest(&bytes),
            ended => ended,
        }
    }

    /// Appends all bytes, by pieces of 50, from the first batch that is not appended on.
    fn stream_rest(&self, bytes: &[u8]) -> Result<(), Ending> {
        let first = self.items().ok_or(Ending::Wrong("trail"))?;
        let Some(rest) = bytes.get(first.wrapping_mul(ONE.len())..) else {
            return Err(Ending::Wrong("items"));
        };
        let (answer, count) = self.stream_pieces(rest);
        let last = self.items().ok_or(Ending::Wrong("trail"))?;
        if last != first.wrapping_add(count) {
            return Err(Ending::Wrong("receipts"));
        }
        match answer {
            Ok(appended) if appended == count as u64 && last == BATCHES => Ok(()),
            Ok(_) => Err(Ending::Wrong("append_from")),
            Err(fault) if is_memory(fault) => {
                let _ = println!(self.rt; "refused append_from: {fault}");
                Err(Ending::NotMade)
            }
            Err(_) => Err(Ending::Wrong("fault")),
        }
    }

    /// What a call answers that appends bytes by pieces of 50, and how many receipts it adds.
    fn stream_pieces(&self, bytes: &[u8]) -> (Result<u64, StreamFault>, usize) {
        let mut reader = reader_of(bytes, STEADY);
        let mut receipts = Vec::new(self.alloc);
        let answer = self
            .broker
            .append_from(self.rt, self.alloc, 0, &mut reader, 50, &mut receipts);
        (answer, receipts.len())
    }
}
