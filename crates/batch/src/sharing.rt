//! Other owners of the bytes of batches. No byte of a key, a value or a header part is copied.

ghost use Rattle.std.specs.Prelude.{◌≡◌, IfOk};

use std::alloc::{AllocError, Global};
use wire_spec::{Batch, Records};

/// Another list of the same records.
fn share_records(alloc: Global, records: &Records) -> Result<Records, AllocError>
    ensures { IfOk result (λ shared. shared ≡ records.now) }
{
    let mut list = Vec::with_capacity(alloc, records.list.len())?;
    for given in &records.list {
        list.push(kafka_record::share(alloc, given)?)?;
    }
    Ok(Records { list })
}

/// Another batch with the same fields and records, whose keys, values and header parts share their
/// bytes with those of the given one. It fails only where memory runs out.
pub fn share(alloc: Global, batch: &Batch) -> Result<Batch, AllocError>
    ensures { IfOk result (λ shared. shared ≡ batch.now) }
{
    Ok(Batch {
        base_offset: batch.base_offset,
        leader_epoch: batch.leader_epoch,
        base_timestamp: batch.base_timestamp,
        producer_id: batch.producer_id,
        producer_epoch: batch.producer_epoch,
        base_sequence: batch.base_sequence,
        records: share_records(alloc, &batch.records)?,
    })
}
