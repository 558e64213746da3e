//! Auditors, which append records and wait until every book has processed them.

use crate::making::batch_of;
use crate::threads::INPUTS;
use broker::Broker;
use broker_fixtures::audited;
use part_log::{Names, Receipt};
use std::alloc::Global;
use std::sync::Wait;
use std::thread;

/// How often an auditor looks before it gives up: workers that are stopped again and again leave it behind for seconds.
const TURNS: usize = 1_000_000_000;

/// How many records an auditor appends beside that number of records, each as a batch of its own.
pub(crate) fn audited_beside(records: usize) -> usize {
    (records / 1_000).max(20)
}

/// The most rows that a record gives in all outputs.
const MOST_ROWS: usize = 2;

/// Appends the records with these numbers and audits each in every book. None where one is not processed in time, or has
/// more rows than a program emits.
pub(crate) fn audit_all<Id: Names, C, R: Wait>(
    rt: &R,
    alloc: Global,
    broker: &Broker<Id, C>,
    first: usize,
    end: usize,
) -> Option<()> {
    for number in first..end {
        if audit_one(rt, alloc, broker, number)? > MOST_ROWS {
            return None;
        }
    }
    Some(())
}

/// Appends the record with this number; how many rows it has.
fn audit_one<Id: Names, C, R: Wait>(
    rt: &R,
    alloc: Global,
    broker: &Broker<Id, C>,
    number: usize,
) -> Option<usize> {
    let batch = batch_of(alloc, number, 1)?;
    match broker.append(rt, alloc, number % INPUTS, batch) {
        Ok(receipt) => rows_of(rt, broker, &receipt),
        Err(_) => None,
    }
}

/// How many rows all output partitions have of a receipt's item, once each has processed it.
fn rows_of<Id: Names, C, R: Wait>(
    rt: &R,
    broker: &Broker<Id, C>,
    receipt: &Receipt<Id>,
) -> Option<usize> {
    let mut rows = 0usize;
    for output in 0..broker.outputs() {
        rows = rows.wrapping_add(wait_for(rt, broker, output, receipt)?);
    }
    Some(rows)
}

/// How many rows an output partition has of a receipt's item, once it has processed it.
fn wait_for<Id: Names, C, R: Wait>(
    rt: &R,
    broker: &Broker<Id, C>,
    output: usize,
    receipt: &Receipt<Id>,
) -> Option<usize> {
    for _ in 0..TURNS {
        if let Some(rows) = audited(rt, broker, output, receipt) {
            return Some(rows);
        }
        thread::yield_now();
    }
    None
}
