//! Steps of books, and rows in them.

ghost use Rattle.std.specs.Prelude.{◌≡◌, IfNone, IfSome, length, true};
ghost use Rattle.part_log.specs.Parts.{CellNote};
ghost use Rattle.broker.specs.Steps.{StepIs};

use broker::{Audit, Broker, BrokerFault, Stepped};
use log_spec::RowRef;
use out_book::{Book, BookRow};
use part_log::{Names, Receipt};
use std::alloc::Global;
use std::sync::Wait;

/// A step of a book over an input partition. None where there is no such partition, or its log has no
/// further cell; the book then is as it was.
pub fn step_book<Id: Names, C>(
    alloc: Global,
    broker: &Broker<Id, C>,
    book: &mut Book<Id>,
    input: usize,
) -> Option<Result<Stepped, BrokerFault>>
    ensures none { IfNone result (book.new ≡ book.old) }
    ensures some { IfSome result (λ stepped. (note : CellNote) × (after : CellNote) × StepIs
        (record { input = input; cells = length (Id.cells input); inputs = broker.now; outputs = Id.outputs })
        book.old note stepped book.new after) }
{
    if input >= broker.inputs() {
        return None;
    }
    let done = book.done(input);
    if done >= broker.cells(input) {
        return None;
    }
    let mut note = broker.note(input, done);
    Some(broker.step(alloc, book, input, &mut note))
}

/// A step of an output partition's book over input partition 0. None where there is no such output
/// partition, the log has no further cell, or memory ran out.
pub fn step<Id: Names, C, R: Wait>(
    rt: &R,
    alloc: Global,
    broker: &Broker<Id, C>,
    output: usize,
) -> Option<Stepped> {
    if output >= broker.outputs() {
        return None;
    }
    let mut guard = broker.book(output).lock(rt);
    step_book(alloc, broker, &mut *guard, 0)?.ok()
}

/// How many rows an audit finds of a receipt's item in an output partition. None where there is no such
/// partition, or the item is not done there.
pub fn audited<Id: Names, C, R: Wait>(
    rt: &R,
    broker: &Broker<Id, C>,
    output: usize,
    receipt: &Receipt<Id>,
) -> Option<usize> {
    if output >= broker.outputs() {
        return None;
    }
    let book = broker.book(output).lock(rt);
    match broker.audit(receipt, &book) {
        Audit::Pending => None,
        Audit::Processed(rows) => {
            let mut count = 0usize;
            for _ in rows {
                count = count.wrapping_add(1);
            }
            Some(count)
        }
    }
}

/// Whether this is the row of a record that `put` appended, at this offset, by the emission with this
/// number.
pub fn is_row(row: &BookRow, offset: u64, number: usize, value: u8) -> bool
    ensures offset { result ≡ true → row.now.offset ≡ offset }
    ensures number { result ≡ true → row.now.number ≡ number }
{
    let row = row.by_ref();
    row.offset == offset
        && row.number as usize == number
        && row.timestamp == 1000
        && holds(&row, value)
}

/// Whether the row's key is `k` and its value one byte.
fn holds(row: &RowRef, value: u8) -> bool {
    match (row.key(), row.value()) {
        (Some(key), Some(bytes)) => key == b"k".as_slice() && bytes == [value].as_slice(),
        _ => false,
    }
}
