ghost use Rattle.std.specs.Prelude.{◌≡◌, ◌<◌, ◌≤◌, All, IfOk, length};
ghost use Rattle.item_rows.specs.ItemRows.{rows_in};
ghost use Rattle.log_spec.specs.Logs.{IsRowsAt, RowFits};
ghost use Rattle.fates.specs.Totals.{AreCountsAt};
ghost use Rattle.worker.specs.Walks.{last, AreRowsOfLast, AreCountsOfLast};
ghost use Rattle.worker.specs.Processed.{processed_log, AreInTurn};

use crate::delivery::Delivery;
use fates::Counts;
use item_rows::{BookRow, ItemRows};
use part_log::{Names, Trail};
use std::alloc::{AllocError, Global};
use std::marker::Model;
use std::sync::Arc;

/// The rows of a walk's last item, for each output partition, and the counts of its records, with the
/// items up to that one. Contracts see the walk, the rows and the counts.
#[derive(Drop)]
pub struct Results<Id: Names> {
    trail: Trail<Id>,
    rows: ItemRows,
}

impl<Id: Names> Model for Results<Id> {
    ghost use Rattle.worker.specs.Walks.{AreRowsOfLast, AreCountsOfLast};
    ghost use Rattle.worker.specs.Processed.{Processed, processed_log};

    ghost Value = { Processed };

    ghost view = { λ r. processed_log r.trail r.rows.rows r.rows.counts };

    ghost invariant = { λ r. AreRowsOfLast Id.outputs r.trail r.rows.rows × AreCountsOfLast Id.outputs r.trail r.rows.counts };
}

impl<Id: Names> Results<Id> {
    /// The rows of the last item of a trail, and the counts of its records.
    pub(crate) fn new(trail: Trail<Id>, rows: ItemRows) -> Results<Id>
        requires rows { AreRowsOfLast Id.outputs trail rows.rows }
        requires counts { AreCountsOfLast Id.outputs trail rows.counts }
        ensures { result ≡ processed_log trail rows.rows rows.counts }
    {
        Results { trail, rows }
    }

    /// Which input partition the item is of.
    pub fn partition(&self) -> usize
        ensures { result ≡ self.now.walk.partition }
    {
        self.trail.partition()
    }

    /// How many items there are up to that one.
    pub fn len(&self) -> usize
        ensures count { result ≡ length self.now.walk.items }
        ensures few { result ≤ length (Id.cells self.now.walk.partition) }
    {
        self.trail.len()
    }

    /// The items up to that one.
    pub fn trail(&self) -> &Trail<Id>
        ensures { result.now ≡ self.now.walk }
    {
        &self.trail
    }

    /// The item's rows in an output partition.
    pub fn rows(&self, output: usize) -> &[BookRow]
        requires { output < Id.outputs }
        ensures rows { result.now ≡ rows_in self.now.rows output }
        ensures are { IsRowsAt self.now.walk.partition output Id.outputs self.now.walk.items (last self.now.walk.items) result.now }
        ensures fit { All RowFits result.now }
    {
        self.rows.rows(output)
    }

    /// What became of the item's records, each by the program in force for it.
    pub fn counts(&self) -> &Counts
        ensures counts { result.now ≡ self.now.counts }
        ensures are { AreCountsAt self.now.walk.partition Id.outputs self.now.walk.items (last self.now.walk.items) result.now }
    {
        self.rows.counts()
    }

    /// The item's rows by value, with its counts, for each output partition in turn. The counts are
    /// shared. It fails only where memory runs out.
    pub fn into_deliveries(self, alloc: Global) -> Result<Vec<Delivery<Id>>, AllocError>
        ensures { IfOk result (λ deliveries. AreInTurn self.walk self.rows deliveries.items) }
    {
        let Results { trail, rows } = self;
        let mut left = rows;
        let outputs = left.outputs();
        let mut deliveries = Vec::with_capacity(alloc, outputs)?;
        for output in 0..outputs {
            let counts = Arc::try_clone(left.counts())?;
            let rows = left.take(alloc, output);
            deliveries.push(Delivery::new(trail.again(), output, rows, counts))?;
        }
        Ok(deliveries)
    }
}
