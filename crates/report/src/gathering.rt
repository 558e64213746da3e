//! Takes a snapshot of a broker.

ghost use Rattle.std.specs.Prelude.{◌≡◌, ◌<◌, length, IfOk, IfErr};
ghost use Rattle.report.specs.Holdings.{IsOutput};
ghost use Rattle.report.specs.Snapshots.{AreOutputs, AreTallies, IsGathered, IsShorter, IsLeast, IsGatherFault};

use crate::holding::{Holding, Holdings};
use crate::snapshot::Snapshot;
use crate::tally::Tally;
use broker::{Broker, BrokerFault};
use out_book::BookFault;
use part_log::Names;
use std::alloc::{AllocError, Global};
use std::sync::Wait;

/// What the books of a broker hold, and what became of the records of the items that are done in
/// all of them. The books are locked one after the other, and none is changed. It fails as
/// `Memory`, or as `Book` where a book that is found under a lock is of another output partition.
pub fn gather<Id: Names, C, R: Wait>(
    rt: &R,
    alloc: Global,
    broker: &Broker<Id, C>,
) -> Result<Snapshot<Id>, BrokerFault>
    ensures ok { IfOk result (IsGathered Id.inputs Id.outputs) }
    ensures err { IfErr result IsGatherFault }
{
    let outputs = holdings(rt, alloc, broker)?;
    match tallies(alloc, broker.inputs(), &outputs) {
        Ok(inputs) => Ok(Snapshot::new(outputs, inputs)),
        Err(_) => Err(BrokerFault::Memory),
    }
}

/// What the book of each output partition holds.
fn holdings<Id: Names, C, R: Wait>(
    rt: &R,
    alloc: Global,
    broker: &Broker<Id, C>,
) -> Result<Vec<Holdings<Id>>, BrokerFault>
    ensures ok { IfOk result (λ all. (length all.items ≡ Id.outputs) × AreOutputs Id.inputs Id.outputs all.items) }
    ensures some { IfOk result (λ all. 0 < length all.items) }
    ensures err { IfErr result IsGatherFault }
{
    let mut all = Vec::new(alloc);
    for output in 0..broker.outputs() {
        let holdings = holdings_in(rt, alloc, broker, output)?;
        let Ok(()) = all.push(holdings) else {
            return Err(BrokerFault::Memory);
        };
    }
    Ok(all)
}

/// What the book of an output partition holds.
fn holdings_in<Id: Names, C, R: Wait>(
    rt: &R,
    alloc: Global,
    broker: &Broker<Id, C>,
    output: usize,
) -> Result<Holdings<Id>, BrokerFault>
    requires { output < Id.outputs }
    ensures ok { IfOk result (IsOutput output Id.inputs Id.outputs) }
    ensures err { IfErr result IsGatherFault }
{
    let book = broker.book(output).lock(rt);
    if book.output() != output {
        return Err(BrokerFault::Book(BookFault::Partition));
    }
    match Holdings::of(alloc, &book) {
        Ok(holdings) => Ok(holdings),
        Err(_) => Err(BrokerFault::Memory),
    }
}

/// What became of the records of each input partition's first items, those that are done in every
/// output partition.
fn tallies<Id: Names>(
    alloc: Global,
    inputs: usize,
    outputs: &[Holdings<Id>],
) -> Result<Vec<Tally<Id>>, AllocError>
    requires inputs { inputs ≡ Id.inputs }
    requires some { 0 < length outputs.now }
    requires outputs { AreOutputs Id.inputs Id.outputs outputs.now }
    ensures { IfOk result (λ all. (length all.items ≡ Id.inputs) × AreTallies Id.outputs outputs.now all.items) }
{
    let mut all = Vec::with_capacity(alloc, inputs)?;
    for input in 0..inputs {
        all.push(Tally::of(least(outputs, input))?)?;
    }
    Ok(all)
}

/// What is held of an input partition by the output partition that has the fewest of its items done.
fn least<Id: Names>(outputs: &[Holdings<Id>], input: usize) -> &Holding<Id>
    requires some { 0 < length outputs.now }
    requires outputs { AreOutputs Id.inputs Id.outputs outputs.now }
    requires input { input < Id.inputs }
    ensures { IsLeast outputs.now input result.now.done }
{
    let mut first = outputs[0].at(input);
    for holdings in outputs {
        first = shorter(first, holdings.at(input));
    }
    first
}

/// That of two output partitions which has fewer items done of an input partition: both have these.
fn shorter<'a, Id: Names>(one: &'a Holding<Id>, other: &'a Holding<Id>) -> &'a Holding<Id>
    requires { other.now.done.partition ≡ one.now.done.partition }
    ensures { IsShorter one.now.done other.now.done result.now.done }
{
    one.done().agrees(other.done());
    if one.done().len() <= other.done().len() {
        one
    } else {
        other
    }
}
