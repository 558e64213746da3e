//! What tests see of books.

use crate::stage::Stage;
use broker_fixtures::is_row;
use out_book::{Book, BookRow};
use part_log::Names;
use std::rt::Clock;
use std::sync::Wait;
use std::thread::Threads;

/// An offset, the number of an emission and the byte that is the value, if it is not null.
pub(crate) type Seen = (u64, usize, Option<u8>);

/// An input partition, an output partition, how many items are done there, and the rows from them.
pub(crate) type Held<'a> = (usize, usize, usize, &'a [Seen]);

/// Whether this is a row of such a value.
pub(crate) fn is_seen(row: &BookRow, want: &Seen) -> bool {
    let (offset, number, value) = *want;
    match value {
        Some(value) => is_row(row, offset, number, value),
        None => {
            let row = row.by_ref();
            row.offset == offset && row.number as usize == number && row.value().is_none()
        }
    }
}

/// Whether `done` items of an input partition are done, and these are the rows from there.
fn has_rows<Id: Names>(book: &Book<Id>, input: usize, done: usize, want: &[Seen]) -> bool {
    if input >= book.inputs() || book.done(input) != done {
        return false;
    }
    let mut rest = want;
    for row in book.rows_from(input) {
        match rest.split_first() {
            Some((first, others)) if is_seen(row, first) => rest = others,
            _ => return false,
        }
    }
    rest.is_empty()
}

impl<Id: Names + Send + Sync, R: Threads + Wait + Clock + Print + Sync> Stage<'_, Id, R> {
    /// Whether the books hold this.
    pub(crate) fn hold(&self, want: &[Held<'_>]) -> bool {
        for (input, output, done, rows) in want {
            match self.book(*output) {
                Some(book) if has_rows(&book, *input, *done, rows) => {}
                _ => return false,
            }
        }
        true
    }
}
