//! Gates of workers.

use crate::making::mixed;
use std::sync::atomic::{AtomicU64, Ordering};
use worker::Gate;

/// Stops a worker at a random offer.
#[derive(Drop)]
pub struct Chance {
    offers: AtomicU64,
    seed: u64,
}

/// One offer among this number stops its worker.
const ODDS: u64 = 4_096;

impl Chance {
    pub(crate) fn new(seed: u64) -> Chance {
        Chance {
            offers: AtomicU64::new(0),
            seed,
        }
    }
}

impl Gate for Chance {
    fn pass(&self, _input: usize, _index: usize, _output: usize) -> bool {
        let offer = self.offers.fetch_add(1, Ordering::SeqCst);
        mixed(self.seed ^ offer) % ODDS != 0
    }
}
