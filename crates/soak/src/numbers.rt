//! Which records are in the logs.

use kafka_record::RecordRef;
use std::alloc::{AllocError, Global};

/// Which of the records with the numbers 0, 1 and so on were found, and how often one was found again
/// or has no such number.
#[derive(Drop)]
pub struct Numbers {
    found: Vec<bool>,
    pub once: u64,
    pub again: u64,
}

impl Numbers {
    /// None of the records is found yet.
    pub(crate) fn new(alloc: Global, count: usize) -> Result<Numbers, AllocError> {
        let mut found = Vec::with_capacity(alloc, count)?;
        for _ in 0..count {
            found.push(false)?;
        }
        Ok(Numbers {
            found,
            once: 0,
            again: 0,
        })
    }

    /// Finds a record.
    pub(crate) fn find(&mut self, record: &RecordRef) {
        if is_new(&mut self.found, record_number(record.key().as_slice())) {
            self.once = self.once.wrapping_add(1);
        } else {
            self.again = self.again.wrapping_add(1);
        }
    }
}

/// Whether a number is found for the first time; it is found then.
fn is_new(found: &mut [bool], number: usize) -> bool {
    if number >= found.len() || found[number] {
        return false;
    }
    found[number] = true;
    true
}

/// The number of the record with this key.
fn record_number(key: Option<&[u8]>) -> usize {
    match key {
        Some(key) => read(key),
        None => usize::MAX,
    }
}

/// The number that is spelled by these bytes.
fn read(bytes: &[u8]) -> usize {
    let mut number = 0u64;
    for byte in bytes {
        number = number.wrapping_mul(256).wrapping_add(u64::from(*byte));
    }
    number as usize
}
