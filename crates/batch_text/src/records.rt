//! The records of a batch as lines of a script.

ghost use Rattle.std.specs.Prelude.{◌≡◌, ◌<◌, ◌++◌, pos, ◌≤ℤ◌, ◌<ℤ◌, unsigned_abs, IfOk, OnOk, string_bytes};
ghost use Rattle.log_spec.specs.Logs.{timestamp_of, FitsRecord, FitsLog, RowFits};
ghost use Rattle.batch_text.specs.Lines as definitions;
ghost use Rattle.batch_text.specs.Lines.{put_line, append_line, record_line, record_lines};

use kafka_record::{share_bytes, share_headers};
use log_spec::Row;
use row_batch::OpenBatch;
use script::{push_bytes, push_hex};
use std::alloc::{AllocError, Global};
use wire_spec::{Batch, Record, TIMESTAMP_END};

/// The timestamp of a record of a batch, in milliseconds.
fn timestamp(batch: &Batch, given: &Record) -> u64
    requires from { pos 0 ≤ℤ timestamp_of batch.now given.now }
    requires to { timestamp_of batch.now given.now <ℤ pos TIMESTAMP_END }
    ensures value { result ≡ unsigned_abs (timestamp_of batch.now given.now) }
    ensures small { result < TIMESTAMP_END }
{
    (batch.base_timestamp + given.timestamp_delta) as u64
}

/// A record of a batch as a row, which shares its bytes.
fn row_of(alloc: Global, batch: &Batch, given: &Record) -> Result<Row, AllocError>
    requires { FitsRecord batch.now given.now }
    ensures is { IfOk result (λ row. row ≡ definitions.row_of batch.now given.now) }
    ensures fits { IfOk result RowFits }
{
    Ok(Row {
        input: 0,
        offset: 0,
        number: 0,
        timestamp: timestamp(batch, given),
        key: share_bytes(&given.key)?,
        value: share_bytes(&given.value)?,
        headers: share_headers(alloc, &given.headers)?,
    })
}

/// Appends the `put` of a record to a text.
fn push_put(text: &mut String, row: &Row) -> Result<(), AllocError>
    ensures { OnOk result (string_bytes text.new ≡ string_bytes text.old ++ put_line row.now) }
{
    let timestamp = row.timestamp;
    write!(text, "put 0 {timestamp} ")?;
    push_bytes(text, &row.key)?;
    text.push_str(" ")?;
    push_bytes(text, &row.value)?;
    text.push_str("\n")
}

/// The bytes of a batch of one record, that of a row.
fn one_row_batch(alloc: Global, row: &Row) -> Result<Vec<u8>, AllocError>
    requires { RowFits row.now }
    ensures { IfOk result (λ bytes. bytes.items ≡ definitions.one_row row.now) }
{
    let mut batch = OpenBatch::new(alloc);
    batch.push(&row.by_ref())?;
    batch.take(0)
}

/// Appends the `append` of a record to a text.
fn push_append(alloc: Global, text: &mut String, row: &Row) -> Result<(), AllocError>
    requires { RowFits row.now }
    ensures { OnOk result (string_bytes text.new ≡ string_bytes text.old ++ append_line row.now) }
{
    let bytes = one_row_batch(alloc, row)?;
    text.push_str("append 0 hex:")?;
    push_hex(text, bytes.as_slice())?;
    text.push_str("\n")
}

/// Appends the line of a record to a text.
fn push_record(
    alloc: Global,
    text: &mut String,
    batch: &Batch,
    given: &Record,
) -> Result<(), AllocError>
    requires { FitsRecord batch.now given.now }
    ensures { OnOk result (string_bytes text.new ≡ string_bytes text.old ++ record_line batch.now given.now) }
{
    let row = row_of(alloc, batch, given)?;
    if given.headers.list.is_empty() {
        push_put(text, &row)
    } else {
        push_append(alloc, text, &row)
    }
}

/// The lines of a script that append a batch's records one by one to input partition 0: `put`, or, of a
/// record with headers, `append` with a batch of that record alone. It fails only where memory runs out.
pub fn record_text(alloc: Global, batch: &Batch) -> Result<String, AllocError>
    requires { FitsLog batch.now }
    ensures { IfOk result (λ text. string_bytes text ≡ record_lines batch.now) }
{
    let mut text = String::new(alloc);
    for given in &batch.records.list {
        push_record(alloc, &mut text, batch, given)?;
    }
    Ok(text)
}
