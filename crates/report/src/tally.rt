ghost use Rattle.std.specs.Prelude.{◌≡◌, length, IfOk};
ghost use Rattle.fates.specs.Totals.{AreCountsOf};
ghost use Rattle.report.specs.Totals.{IsTallied};

use crate::holding::Holding;
use fates::Counts;
use part_log::{Names, Trail};
use std::alloc::AllocError;
use std::marker::Model;
use std::sync::Arc;

/// The first items of an input partition, and what became of their records. Its type keeps that the
/// counts are those of what the program in force means on each record.
#[derive(Drop)]
pub struct Tally<Id: Names> {
    first: Trail<Id>,
    counts: Arc<Counts>,
}

impl<Id: Names> Model for Tally<Id> {
    ghost use Rattle.std.specs.Arc.{arc_value};
    ghost use Rattle.report.specs.Totals.{Tallied, tally_of_log, IsTallied};

    ghost Value = { Tallied };

    ghost view = { λ t. tally_of_log t.first (arc_value t.counts) };

    ghost invariant = { λ t. IsTallied Id.outputs (tally_of_log t.first (arc_value t.counts)) };
}

impl<Id: Names> Tally<Id> {
    /// Of the items that are done in an output partition. It fails only where memory runs out.
    pub(crate) fn of(holding: &Holding<Id>) -> Result<Tally<Id>, AllocError>
        ensures { IfOk result (λ tally. (tally.first ≡ holding.now.done) × IsTallied Id.outputs tally) }
    {
        Ok(Tally {
            first: holding.done().again(),
            counts: Arc::try_clone(holding.counts())?,
        })
    }

    /// The items whose records are counted.
    pub fn first(&self) -> &Trail<Id>
        ensures { result.now ≡ self.now.first }
    {
        &self.first
    }

    /// What became of their records.
    pub fn counts(&self) -> &Counts
        ensures counts { result.now ≡ self.now.totals }
        ensures are { AreCountsOf self.now.first.partition Id.outputs self.now.first.items (length self.now.first.items) result.now }
    {
        &self.counts
    }
}
