//! What rows are.

use log_spec::{Row, RowRef};
use out_book::Book;
use part_log::Names;

/// An offset, the number of an emission and the byte that is the value, if it is not null.
pub(crate) type Seen = (u64, usize, Option<u8>);

/// Whether the row's key is `k` and its value that byte, or null.
fn holds(row: &Row, value: Option<u8>) -> bool {
    let has_key = match &row.key {
        Some(key) => key.as_slice() == b"k".as_slice(),
        None => false,
    };
    let has_value = match (&row.value, value) {
        (Some(bytes), Some(value)) => bytes.as_slice() == [value].as_slice(),
        (None, None) => true,
        _ => false,
    };
    has_key && has_value && row.headers.list.is_empty()
}

/// Whether this is the row of a record with the key `k`, at the timestamp 1000.
pub(crate) fn is_row(row: &Row, want: &Seen) -> bool {
    let (offset, number, value) = *want;
    row.offset == offset
        && row.number as usize == number
        && row.timestamp == 1000
        && holds(row, value)
}

fn is_same(row: &RowRef, other: &RowRef) -> bool {
    row.input == other.input
        && row.offset == other.offset
        && row.number == other.number
        && row.timestamp == other.timestamp
        && row.key() == other.key()
        && row.value() == other.value()
        && row.headers().is_empty()
        && other.headers().is_empty()
}

/// Whether a book has exactly these rows from an input partition.
pub(crate) fn has<Id: Names>(book: &Book<Id>, input: usize, rows: &[Row]) -> bool {
    let mut rest = rows;
    for row in book.rows_from(input) {
        match rest.split_first() {
            Some((first, others)) if is_same(&row.by_ref(), &first.by_ref()) => rest = others,
            _ => return false,
        }
    }
    rest.is_empty()
}
