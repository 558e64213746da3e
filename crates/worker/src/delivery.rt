ghost use Rattle.std.specs.Prelude.{◌≡◌, ◌<◌, All, length};
ghost use Rattle.std.specs.Arc.{arc_value};
ghost use Rattle.fates.specs.Totals.{AreCountsAt};
ghost use Rattle.log_spec.specs.Logs.{IsRowsAt, RowFits};
ghost use Rattle.worker.specs.Walks.{last};
ghost use Rattle.worker.specs.Processed.{IsOfLast, output_share};

use fates::Counts;
use item_rows::BookRow;
use part_log::{Names, Trail};
use std::marker::Model;
use std::sync::Arc;

/// The rows of a walk's last item for one output partition, by value, and the counts of its records,
/// with the items up to that one. Contracts see the walk, the output partition, the rows and the counts.
#[derive(Drop)]
pub struct Delivery<Id: Names> {
    trail: Trail<Id>,
    output: usize,
    rows: Vec<BookRow>,
    counts: Arc<Counts>,
}

impl<Id: Names> Model for Delivery<Id> {
    ghost use Rattle.std.specs.Arc.{arc_value};
    ghost use Rattle.worker.specs.Processed.{OutputShare, output_share, IsOfLast};

    ghost Value = { OutputShare };

    ghost view = { λ d. output_share d.trail d.output d.rows.items (arc_value d.counts) };

    ghost invariant = { λ d. IsOfLast Id.outputs (output_share d.trail d.output d.rows.items (arc_value d.counts)) };
}

impl<Id: Names> Delivery<Id> {
    /// The rows of the last item of a trail in an output partition, and the counts of its records.
    pub(crate) fn new(
        trail: Trail<Id>,
        output: usize,
        rows: Vec<BookRow>,
        counts: Arc<Counts>,
    ) -> Delivery<Id>
        requires { IsOfLast Id.outputs (output_share trail output rows.items (arc_value counts)) }
        ensures { result ≡ output_share trail output rows.items (arc_value counts) }
    {
        Delivery {
            trail,
            output,
            rows,
            counts,
        }
    }

    /// Which output partition the rows are for.
    pub fn output(&self) -> usize
        ensures output { result ≡ self.now.output }
        ensures within { result < Id.outputs }
    {
        self.output
    }

    /// How many rows there are.
    pub fn len(&self) -> usize
        ensures { result ≡ length self.now.rows }
    {
        self.rows.len()
    }

    /// The items up to the one that the rows are of.
    pub fn trail(&self) -> &Trail<Id>
        ensures { result.now ≡ self.now.walk }
    {
        &self.trail
    }

    /// What became of the item's records, each by the program in force for it.
    pub fn counts(&self) -> &Counts
        ensures counts { result.now ≡ self.now.counts }
        ensures are { AreCountsAt self.now.walk.partition Id.outputs self.now.walk.items (last self.now.walk.items) result.now }
    {
        &self.counts
    }

    /// The rows, by value, and what became of the item's records.
    pub fn into_parts(self) -> (Vec<BookRow>, Arc<Counts>)
        ensures rows { result.0.items ≡ self.rows }
        ensures are { IsRowsAt self.walk.partition self.output Id.outputs self.walk.items (last self.walk.items) result.0.items }
        ensures fit { All RowFits result.0.items }
        ensures counts { AreCountsAt self.walk.partition Id.outputs self.walk.items (last self.walk.items) (arc_value result.1) }
    {
        let Delivery { rows, counts, .. } = self;
        (rows, counts)
    }
}
