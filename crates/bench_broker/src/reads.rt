//! What it takes to read the last rows of a book, after few rows and after many.

use crate::brokers::{self, Figures};
use crate::turns::{RECORDS, append, fill};
use broker::{Audit, Broker};
use broker_fixtures::{deploy, drain};
use catalogue::Catalogue;
use fixtures::FORWARD;
use out_book::{Book, Probes};
use part_log::{Names, Receipt};
use std::alloc::Global;
use std::num::nearest_u64_to_f64;
use std::rt::Clock;
use std::sync::Wait;
use std::thread::Threads;
use std::time::Instant;

/// How many items at the end are read, one after the other.
const LAST: usize = 10;

/// How often they are read.
const ROUNDS: usize = 100;

/// The nanoseconds of a read, since all reads began.
fn each<R: Clock>(rt: &R, start: &Instant) -> Option<f64> {
    brokers::each(rt, start, (LAST * ROUNDS) as u64)
}

/// Whether an audit finds the 100 rows of an item.
fn has_rows(audit: Audit<'_>) -> bool {
    let Audit::Processed(rows) = audit else {
        return false;
    };
    let mut count = 0usize;
    for _ in rows {
        count = count.wrapping_add(1);
    }
    count == RECORDS
}

/// What an audit took. None where one found other rows.
fn audits<Id: Names, C, R: Wait + Clock>(
    rt: &R,
    broker: &Broker<Id, C>,
    book: &Book<Id>,
    receipts: &[Receipt<Id>],
) -> Option<f64> {
    let start = Instant::now(rt).ok()?;
    for _ in 0..ROUNDS {
        for receipt in receipts {
            if !has_rows(broker.audit(receipt, book)) {
                return None;
            }
        }
    }
    each(rt, &start)
}

/// Whether a fetch finds rows from that place on.
fn has_batch<Id: Names>(book: &Book<Id>, place: u64) -> bool {
    let Ok(place) = usize::try_from(place) else {
        return false;
    };
    match book.fetch(place, RECORDS) {
        Ok(found) => found.is_some(),
        Err(_) => false,
    }
}

/// What a fetch took. None where one found no rows.
fn fetches<Id: Names, R: Clock>(rt: &R, book: &Book<Id>, receipts: &[Receipt<Id>]) -> Option<f64> {
    let start = Instant::now(rt).ok()?;
    for _ in 0..ROUNDS {
        for receipt in receipts {
            if !has_batch(book, receipt.base()) {
                return None;
            }
        }
    }
    each(rt, &start)
}

/// How many places a search for an offset looks at. None where no row has it.
fn looks_for<Id: Names>(book: &Book<Id>, offset: u64) -> Option<u64> {
    let mut probes = Probes::new();
    let first = book.rows_since(0, offset, &mut probes).next()?;
    if first.offset() == offset {
        Some(probes.count())
    } else {
        None
    }
}

/// What a search for the first row of an item took, and the most places that one looked at. None where
/// one found another row.
fn searches<Id: Names, R: Clock>(
    rt: &R,
    book: &Book<Id>,
    receipts: &[Receipt<Id>],
) -> Option<(f64, u64)> {
    let mut looks = 0;
    let start = Instant::now(rt).ok()?;
    for _ in 0..ROUNDS {
        for receipt in receipts {
            looks = looks_for(book, receipt.base())?.max(looks);
        }
    }
    Some((each(rt, &start)?, looks))
}

/// Appends items of 100 records, and returns the receipts of the last ten.
fn append_all<Id: Names, C, R: Wait>(
    rt: &R,
    alloc: Global,
    broker: &Broker<Id, C>,
    items: usize,
) -> Option<Vec<Receipt<Id>>> {
    fill(rt, alloc, broker, 0, items.wrapping_sub(LAST), RECORDS)?;
    let mut receipts = Vec::new(alloc);
    for _ in 0..LAST {
        if !append_one(rt, alloc, broker, &mut receipts) {
            return None;
        }
    }
    Some(receipts)
}

/// Whether one more item is appended, and its receipt is put into the list.
fn append_one<Id: Names, C, R: Wait>(
    rt: &R,
    alloc: Global,
    broker: &Broker<Id, C>,
    receipts: &mut Vec<Receipt<Id>>,
) -> bool {
    match append(rt, alloc, broker, 0, RECORDS) {
        Some(receipt) => receipts.push(receipt).is_ok(),
        None => false,
    }
}

/// What reads of a new broker took once the workers are done. None where they came to no end.
pub(crate) fn read_all<Id: Names + Send + Sync, R: Threads + Wait + Clock + Sync>(
    rt: &R,
    alloc: Global,
    broker: &Broker<Id, Catalogue<&R>>,
    items: usize,
) -> Option<Figures> {
    deploy(rt, alloc, broker, 0, &FORWARD)?;
    let receipts = append_all(rt, alloc, broker, items)?;
    if !drain(rt, alloc, broker) {
        return None;
    }
    let _some = broker.outputs();
    let book = broker.book(0).lock(rt);
    read_book(rt, broker, &book, &receipts)
}

/// What an audit of a book took, a fetch and a search, and at how many places a search looked at most. None
/// where one found other rows.
fn read_book<Id: Names, C, R: Wait + Clock>(
    rt: &R,
    broker: &Broker<Id, C>,
    book: &Book<Id>,
    receipts: &[Receipt<Id>],
) -> Option<Figures> {
    let (since, looks) = searches(rt, book, receipts)?;
    let audit = audits(rt, broker, book, receipts)?;
    let fetch = fetches(rt, book, receipts)?;
    Some((audit, fetch, since, nearest_u64_to_f64(looks), 0.0))
}
