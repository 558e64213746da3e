//! Whether a book has the rows that it must have. The log of input partition 0 has a mark of `BOTH`
//! and then two batches, of the values `A` and `B`.

use crate::stage::Stage;
use broker_fixtures::is_row;
use out_book::Book;
use part_log::Names;
use std::rt::Clock;
use std::sync::Wait;
use std::thread::Threads;

/// How many rows the first items of the log have in each output partition.
fn rows_of_first(items: usize) -> u64 {
    match items {
        0 | 1 => 0,
        2 => 2,
        _ => 4,
    }
}

/// The value of the record at an offset.
fn value_at(offset: u64) -> u8 {
    if offset < 2 { b'A' } else { b'B' }
}

/// How many items of input partition 0 are done in a book; none where its rows are not theirs.
pub(crate) fn done_in<Id: Names>(book: &Book<Id>) -> Option<usize> {
    if book.inputs() == 0 {
        return None;
    }
    let mut offset = 0u64;
    for row in book.rows_from(0) {
        if !is_row(row, offset, book.output(), value_at(offset)) {
            return None;
        }
        offset = offset.wrapping_add(1);
    }
    let done = book.done(0);
    if offset == rows_of_first(done) && offset == book.len() as u64 {
        Some(done)
    } else {
        None
    }
}

impl<Id: Names + Send + Sync, R: Threads + Wait + Clock + Print + Sync> Stage<'_, Id, R> {
    /// The same of the book of an output partition.
    pub(crate) fn done_of(&self, output: usize) -> Option<usize> {
        let book = self.book(output)?;
        done_in(&book)
    }
}
