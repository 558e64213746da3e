//! Loads, deployments, appends and runs.

ghost use Rattle.std.specs.Prelude.{◌≡◌, ◌<◌, IfSome, Ok};
ghost use Rattle.fixtures.specs.Plain.{value_batch};
ghost use Rattle.log_spec.specs.Logs.{Records};
ghost use Rattle.machine_spec.specs.Image.{program_of};
ghost use Rattle.machine_spec.specs.declared.helper.Table.TheVariants as table;
ghost use Rattle.broker.specs.Deployments.{LoadIs};

use broker::{Broker, Ended, Until};
use bytes::Bytes;
use catalogue::{Catalogue, Known};
use fixtures::batch_of_value;
use log_spec::MAX_CELLS;
use machine_spec::Table;
use part_log::{Names, Receipt};
use std::alloc::Global;
use std::sync::Wait;
use std::thread::Threads;
use worker::{Gate, Open};

/// The name that programs are loaded under.
pub const NAME: &str = "program";

/// Loads an image as a program of helper table one. Returns the version, from 1, and what is then known of the name; none where the load
/// is refused or memory ran out.
pub fn load<Id: Names, H: Wait + Drop, R: Wait>(
    rt: &R,
    alloc: Global,
    broker: &Broker<Id, Catalogue<H>>,
    image: &[u8],
) -> Option<(u32, Known)>
    ensures { IfSome result (λ loaded. LoadIs NAME.now (program_of image.now table.One) (Ok loaded)) }
{
    let image = Bytes::copy_from_slice(alloc, image).ok()?;
    broker.load(rt, alloc, NAME, &image, Table::One).ok()
}

/// Loads an image as `load` does and deploys it to an input partition. Returns the index of its mark; none where a
/// call is refused.
pub fn deploy<Id: Names, H: Wait + Drop, R: Wait>(
    rt: &R,
    alloc: Global,
    broker: &Broker<Id, Catalogue<H>>,
    input: usize,
    image: &[u8],
) -> Option<usize>
    ensures { IfSome result (λ index. (input < broker.now) × (index < MAX_CELLS)) }
{
    let (_version, known) = load(rt, alloc, broker, image)?;
    let mut finder = broker.finder(rt, alloc).ok()?;
    let deployed = broker.deploy(rt, alloc, input, known.name(), &mut finder, &known);
    let (receipt, _marked) = deployed.ok()?;
    Some(receipt.index())
}

/// Appends a batch of one record, with the key `k` and one byte as its value, at the timestamp 1000.
/// None where the append is refused or memory ran out.
pub fn put<Id: Names, C, R: Wait>(
    rt: &R,
    alloc: Global,
    broker: &Broker<Id, C>,
    input: usize,
    value: u8,
) -> Option<Receipt<Id>>
    ensures partition { IfSome result (λ receipt. receipt.before.partition ≡ input) }
    ensures item { IfSome result (λ receipt. receipt.item ≡ Records (value_batch 1 value)) }
{
    let batch = batch_of_value(alloc, 1, value)?;
    broker.append(rt, alloc, input, batch).ok()
}

/// Runs workers; whether they end so, in the order of their input partitions.
pub fn ends<Id: Names + Send + Sync, C: Send, R: Threads + Wait + Sync, G: Gate + Sync>(
    rt: &R,
    alloc: Global,
    broker: &Broker<Id, C>,
    until: Until,
    gate: &G,
    want: &[Ended],
) -> bool {
    match broker.start(rt, alloc, until, gate) {
        Ok(ended) => ended.as_slice() == want,
        Err(_) => false,
    }
}

/// Whether each worker came to its end.
fn are_done(ended: &[Ended]) -> bool {
    for end in ended {
        if !matches!(end, Ended::Done(_)) {
            return false;
        }
    }
    true
}

/// Runs workers over what the logs have now; whether each came to its end.
pub fn drain<Id: Names + Send + Sync, C: Send, R: Threads + Wait + Sync>(
    rt: &R,
    alloc: Global,
    broker: &Broker<Id, C>,
) -> bool {
    match broker.start(rt, alloc, Until::Drained, &Open) {
        Ok(ended) => are_done(&ended),
        Err(_) => false,
    }
}
