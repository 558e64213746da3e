//! Some records of a batch.

ghost use Rattle.std.specs.Prelude.{◌≡◌, ◌<◌, ◌≤◌};
ghost use Rattle.item_rows.specs.Blocks.{IsPartOf};

use log_item::BLOCK;

/// Some records of a batch, one after the other.
#[derive(Clone, Copy, Debug, PartialEq, Eq)]
pub struct Part {
    /// The number of the first one in the batch, from 0.
    pub first: usize,
    /// How many there are.
    pub count: usize,
}

impl Part {
    /// The records that are run after the first `done` of so many: as many as a block has, or those that
    /// are left.
    pub fn next(done: usize, records: usize) -> Part
        requires { done < records }
        ensures first { result.first ≡ done }
        ensures some { 1 ≤ result.count }
        ensures part { IsPartOf records result }
    {
        Part {
            first: done,
            count: (records - done).min(BLOCK),
        }
    }
}
