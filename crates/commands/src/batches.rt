//! The batches that `put` appends.

ghost use Rattle.std.specs.Prelude.{◌≡◌, ◌<◌, ◌≤◌, IfOk};
ghost use Rattle.script.specs.Faults.{text_size};
ghost use Rattle.log_spec.specs.Logs.{FitsLog};
ghost use Rattle.commands.specs.Puts.{put_batch};

use bytes::Bytes;
use std::alloc::{AllocError, Global};
use wire_spec::{Batch, Headers, MAX_KEY, MAX_VALUE, Record, Records, TIMESTAMP_END};

/// A record that `put` appends, with its time in milliseconds.
#[derive(Drop)]
pub struct Put {
    pub timestamp: u64,
    pub key: Option<Bytes>,
    pub value: Option<Bytes>,
}

/// A batch of one record.
#[tactic(auto, using(crate::proofs::BatchLaws::put_fits))]
pub fn batch_of(alloc: Global, put: Put) -> Result<Batch, AllocError>
    requires timestamp { put.timestamp < TIMESTAMP_END }
    requires key { text_size put.key ≤ MAX_KEY }
    requires value { text_size put.value ≤ MAX_VALUE }
    ensures batch { IfOk result (λ batch. batch ≡ put_batch put.timestamp put.key put.value) }
    ensures fits { IfOk result FitsLog }
{
    let headers = Headers {
        list: Vec::new(alloc),
    };
    let mut list = Vec::new(alloc);
    list.push(Record {
        timestamp_delta: 0,
        key: put.key,
        value: put.value,
        headers,
    })?;
    Ok(Batch {
        base_offset: 0,
        leader_epoch: 0,
        base_timestamp: put.timestamp as i64,
        producer_id: -1,
        producer_epoch: -1,
        base_sequence: -1,
        records: Records { list },
    })
}
