//! Programs, batches and random numbers.

ghost use Rattle.std.specs.Prelude.{IfSome};
ghost use Rattle.log_spec.specs.Logs.{FitsLog};

use bytes::Bytes;
use fixtures::{batch_at, record_of};
use std::alloc::{AllocError, Global};
use wire_spec::{Batch, Record, Records};

/// Emits a record to the output that its value's first byte gives, modulo 64.
const ONE: [u8; 56] = [
    0xb7, 6, 0, 0, 0, 0, 0, 0, 0xa5, 2, 1, 0, 1, 0, 0, 0, 0x71, 0x16, 0, 0, 0, 0, 0, 0, 0x57, 6, 0,
    0, 63, 0, 0, 0, 0xbf, 0x61, 0, 0, 0, 0, 0, 0, 0x85, 0, 0, 0, 3, 0, 0, 0, 0x95, 0, 0, 0, 0, 0,
    0, 0,
];

/// Emits a record to that output, and then to the one that is as far from the last output.
const TWO: [u8; 80] = [
    0xb7, 6, 0, 0, 0, 0, 0, 0, 0xa5, 2, 1, 0, 1, 0, 0, 0, 0x71, 0x16, 0, 0, 0, 0, 0, 0, 0x57, 6, 0,
    0, 63, 0, 0, 0, 0xbf, 0x61, 0, 0, 0, 0, 0, 0, 0x85, 0, 0, 0, 3, 0, 0, 0, 0xa7, 6, 0, 0, 63, 0,
    0, 0, 0xbf, 0x61, 0, 0, 0, 0, 0, 0, 0x85, 0, 0, 0, 3, 0, 0, 0, 0x95, 0, 0, 0, 0, 0, 0, 0,
];

/// A random number, the same for the same number.
pub(crate) fn mixed(number: u64) -> u64 {
    let once = number.wrapping_mul(0x9e37_79b9_7f4a_7c15);
    let twice = (once ^ (once >> 32)).wrapping_mul(0xd6e8_feb8_6659_fd93);
    twice ^ (twice >> 32)
}

/// The name that a deployer loads its programs under.
pub(crate) fn program_name(deployer: usize) -> &'static str {
    if deployer == 0 { "first" } else { "second" }
}

/// The image that a deployer loads as its version after this number of versions.
pub(crate) fn image(alloc: Global, versions: usize) -> Option<Bytes> {
    let image: &[u8] = if versions % 2 == 0 { &ONE } else { &TWO };
    Bytes::copy_from_slice(alloc, image).ok()
}

/// A record whose key is its number and whose value is random.
fn record(alloc: Global, number: u64) -> Result<Record, AllocError> {
    let key = Bytes::copy_from_slice(alloc, &number.to_be_bytes())?;
    let value = Bytes::copy_from_slice(alloc, &mixed(number).to_be_bytes())?;
    Ok(record_of(alloc, 0, Some(key), Some(value)))
}

fn records(alloc: Global, first: usize, count: usize) -> Result<Records, AllocError> {
    let mut list = Vec::new(alloc);
    for turn in 0..count {
        list.push(record(alloc, first.wrapping_add(turn) as u64)?)?;
    }
    Ok(Records { list })
}

/// A batch of records with these numbers.
pub(crate) fn batch_of(alloc: Global, first: usize, count: usize) -> Option<Batch>
    ensures { IfSome result (λ batch. FitsLog batch) }
{
    batch_at(1000, records(alloc, first, count).ok()?)
}
