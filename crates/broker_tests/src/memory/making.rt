//! What the calls are made with. Memory for it is asked for again where it was refused.

ghost use Rattle.std.specs.Prelude.{IfSome};
ghost use Rattle.log_spec.specs.Logs.{FitsLog};

use broker::BrokerFault;
use bytes::Bytes;
use fixtures::{BOTH, batch_of_value};
use std::alloc::Global;
use wire_spec::Batch;

/// Prints which call was refused, and how.
pub(crate) fn say<R: Print>(rt: &R, call: &str, fault: BrokerFault) {
    let _ = println!(rt; "refused {call}: {fault}");
}

pub(crate) fn image(alloc: Global) -> Option<Bytes> {
    copied(alloc, &BOTH)
}

fn copied(alloc: Global, bytes: &[u8]) -> Option<Bytes> {
    for _ in 0..2 {
        if let Ok(copy) = Bytes::copy_from_slice(alloc, bytes) {
            return Some(copy);
        }
    }
    None
}

/// A batch of two records with the key `k` and this byte as their value.
pub(crate) fn batch(alloc: Global, value: u8) -> Option<Batch>
    ensures { IfSome result (λ batch. FitsLog batch) }
{
    match batch_of_value(alloc, 2, value) {
        Some(batch) => Some(batch),
        None => batch_of_value(alloc, 2, value),
    }
}
