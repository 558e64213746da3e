ghost use Rattle.std.specs.Prelude.{◌≡◌, ◌<◌, Some, length, slice_get};
ghost use Rattle.log_spec.specs.Logs.{IsRowsOf};
ghost use Rattle.report.specs.Snapshots.{gathered_snapshot, held_at, IsGathered, IsLeast};
ghost use Rattle.fates.specs.Totals.{AreCountsOf};

use crate::holding::{Holding, Holdings};
use crate::tally::Tally;
use part_log::Names;
use std::marker::Model;

/// What each output partition holds of each input partition, and what became of the records of an
/// input's first items: those that are done in every output partition. It keeps notes of all items
/// that it speaks of. The output partitions were looked at one after the other, so one may be ahead
/// of another.
#[derive(Drop)]
pub struct Snapshot<Id: Names> {
    outputs: Vec<Holdings<Id>>,
    inputs: Vec<Tally<Id>>,
}

impl<Id: Names> Model for Snapshot<Id> {
    ghost use Rattle.report.specs.Snapshots.{Gathered, gathered_snapshot, IsGathered};

    ghost Value = { Gathered };

    ghost view = { λ s. gathered_snapshot s.outputs.items s.inputs.items };

    ghost invariant = { λ s. IsGathered Id.inputs Id.outputs (gathered_snapshot s.outputs.items s.inputs.items) };
}

impl<Id: Names> Snapshot<Id> {
    pub(crate) fn new(outputs: Vec<Holdings<Id>>, inputs: Vec<Tally<Id>>) -> Snapshot<Id>
        requires { IsGathered Id.inputs Id.outputs (gathered_snapshot outputs.items inputs.items) }
        ensures { result ≡ gathered_snapshot outputs.items inputs.items }
    {
        Snapshot { outputs, inputs }
    }

    /// How many output partitions there are.
    pub fn outputs(&self) -> usize
        ensures count { result ≡ length self.now.outputs }
        ensures all { result ≡ Id.outputs }
    {
        self.outputs.len()
    }

    /// How many input partitions there are.
    pub fn inputs(&self) -> usize
        ensures count { result ≡ length self.now.inputs }
        ensures all { result ≡ Id.inputs }
    {
        self.inputs.len()
    }

    /// What an output partition holds of an input partition.
    pub fn holding(&self, output: usize, input: usize) -> &Holding<Id>
        requires output { output < length self.now.outputs }
        requires input { input < length self.now.inputs }
        ensures at { held_at self.now.outputs output input ≡ Some result.now }
        ensures output { result.now.output ≡ output }
        ensures input { result.now.done.partition ≡ input }
    {
        self.outputs[output].at(input)
    }

    /// The first items of an input partition, those that are done in every output partition, and what
    /// became of their records.
    pub fn tally(&self, input: usize) -> &Tally<Id>
        requires { input < length self.now.inputs }
        ensures at { slice_get self.now.inputs input ≡ Some result.now }
        ensures least { IsLeast self.now.outputs input result.now.first }
    {
        &self.inputs[input]
    }

    /// What is held, by output partition.
    pub(crate) fn holdings(&self) -> &[Holdings<Id>]
        ensures { result.now ≡ self.now.outputs }
    {
        self.outputs.as_slice()
    }

    /// What became of the records, by input partition.
    pub(crate) fn tallies(&self) -> &[Tally<Id>]
        ensures { result.now ≡ self.now.inputs }
    {
        self.inputs.as_slice()
    }
}
