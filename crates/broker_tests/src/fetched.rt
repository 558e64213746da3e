//! Batches that the tests append, and what they see of fetched ones.

ghost use Rattle.std.specs.Prelude.{IfSome};
ghost use Rattle.log_spec.specs.Logs.{FitsLog};

use crate::stage::Stage;
use batch::decode;
use bytes::Bytes;
use fixtures::{batch_at, record_of};
use part_log::Names;
use std::alloc::{AllocError, Global};
use std::rt::Clock;
use std::sync::Wait;
use std::thread::Threads;
use wire_spec::{Batch, Records};

fn stamped_records(alloc: Global, count: usize) -> Result<Records, AllocError> {
    let mut list = Vec::new(alloc);
    for place in 0..count {
        let delta = i64::try_from(place).unwrap_or(0);
        list.push(record_of(alloc, delta, None, None))?;
    }
    Ok(Records { list })
}

/// `count` records with the timestamps 1000, 1001 and so on. None where memory ran out.
pub(crate) fn stamped(alloc: Global, count: usize) -> Option<Batch>
    ensures { IfSome result (λ batch. FitsLog batch) }
{
    match stamped_records(alloc, count) {
        Ok(records) => batch_at(1000, records),
        Err(_) => None,
    }
}

/// The batch that all of these bytes are.
fn read(alloc: Global, bytes: Vec<u8>) -> Option<Batch> {
    let size = bytes.len();
    match Bytes::from_vec(bytes) {
        Ok(bytes) => match decode(alloc, bytes) {
            Ok((batch, used)) if used == size => Some(batch),
            _ => None,
        },
        Err(_) => None,
    }
}

/// How many records a batch has, its base timestamp, and the last record's delta.
fn stamps_in(batch: &Batch) -> Option<(usize, i64, i64)> {
    let records = &batch.records.list;
    match records.last() {
        Some(last) => Some((records.len(), batch.base_timestamp, last.timestamp_delta)),
        None => None,
    }
}

impl<Id: Names + Send + Sync, R: Threads + Wait + Clock + Print + Sync> Stage<'_, Id, R> {
    /// The bytes that a fetch from output 0 returns. None where it returns none.
    fn fetched(&self, place: usize, max: usize) -> Option<Vec<u8>> {
        match self.broker.fetch(self.rt, 0, place, max) {
            Ok(bytes) => bytes,
            Err(_) => None,
        }
    }

    /// How many bytes a fetch from output 0 returns, and how many records a reader finds in them. None
    /// where it returns no batch, or one that is not read or has another base offset.
    pub(crate) fn sizes(&self, place: usize, max: usize) -> Option<(usize, usize)> {
        let bytes = self.fetched(place, max)?;
        let size = bytes.len();
        match read(self.alloc, bytes) {
            Some(batch) if batch.base_offset.cast_unsigned() == place as u64 => {
                Some((size, batch.records.list.len()))
            }
            _ => None,
        }
    }

    /// Of a fetch from output 0: how many records, the batch's base timestamp, and the last record's
    /// delta. None where it returns no batch, or one that is not read.
    pub(crate) fn stamps(&self, place: usize, max: usize) -> Option<(usize, i64, i64)> {
        let bytes = self.fetched(place, max)?;
        match read(self.alloc, bytes) {
            Some(batch) => stamps_in(&batch),
            None => None,
        }
    }
}
