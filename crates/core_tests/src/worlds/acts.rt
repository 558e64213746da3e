//! Events of the core in short.

ghost use Rattle.std.specs.Prelude.{IfSome};
ghost use Rattle.log_spec.specs.Worlds.{FitsEvent};
ghost use Rattle.log_spec.specs.Logs.{FitsLog};

use crate::schedules::making::load_of;
use bytes::Bytes;
use fixtures::batch_at;
use machine_spec::Table;
use std::alloc::{AllocError, Global};
use wire_spec::{Batch, Header, Headers, Record, Records};
use world::{Event, Name};

/// An event in short. A `Put` is of as many records as its text has bytes, each with the key `k`
/// and one of the bytes as its value. In a `PutWith` each has a header `h` too, with this value.
#[derive(Clone, Copy)]
pub(crate) enum Act {
    Load(&'static str, &'static [u8], Table),
    Mark(usize, &'static str, u32),
    Put(usize, &'static str),
    PutWith(usize, &'static str, Option<&'static [u8]>),
    Close(usize),
    Deliver(usize, usize),
    Restart(usize),
}

/// A header with the key `h` and this value, which may be null.
fn header_of(value: Option<&'static [u8]>) -> Header {
    let value = match value {
        Some(bytes) => Some(Bytes::from_static(bytes)),
        None => None,
    };
    Header {
        key: Bytes::from_static(b"h"),
        value,
    }
}

/// No header, or that one.
fn headers_of(alloc: Global, header: Option<Option<&'static [u8]>>) -> Result<Headers, AllocError> {
    let mut list = Vec::new(alloc);
    if let Some(value) = header {
        list.push(header_of(value))?;
    }
    Ok(Headers { list })
}

/// A record with the key `k`, one byte as its value, and these headers.
fn record_of(alloc: Global, value: u8, headers: Headers) -> Result<Record, AllocError> {
    let value = Bytes::copy_from_slice(alloc, &[value])?;
    Ok(Record {
        timestamp_delta: 0,
        key: Some(Bytes::from_static(b"k")),
        value: Some(value),
        headers,
    })
}

fn push_record(
    alloc: Global,
    list: &mut Vec<Record>,
    value: u8,
    header: Option<Option<&'static [u8]>>,
) -> Result<(), AllocError> {
    let headers = headers_of(alloc, header)?;
    list.push(record_of(alloc, value, headers)?)?;
    Ok(())
}

fn records_of(
    alloc: Global,
    values: &str,
    header: Option<Option<&'static [u8]>>,
) -> Option<Records> {
    let mut list = Vec::new(alloc);
    for value in values.as_bytes() {
        push_record(alloc, &mut list, *value, header).ok()?;
    }
    Some(Records { list })
}

/// A batch at 1000 milliseconds; none where it doesn't fit or memory ran out.
fn batch_of(alloc: Global, values: &str, header: Option<Option<&'static [u8]>>) -> Option<Batch>
    ensures { IfSome result (λ batch. FitsLog batch) }
{
    match records_of(alloc, values, header) {
        Some(records) => batch_at(1000, records),
        None => None,
    }
}

pub(crate) fn put_of(
    alloc: Global,
    input: usize,
    values: &str,
    header: Option<Option<&'static [u8]>>,
) -> Option<Event>
    ensures { IfSome result (λ event. FitsEvent event) }
{
    match batch_of(alloc, values, header) {
        Some(batch) => Some(Event::Batch(input, batch)),
        None => None,
    }
}

pub(crate) fn event_of(alloc: Global, act: Act) -> Option<Event>
    ensures { IfSome result (λ event. FitsEvent event) }
{
    match act {
        Act::Load(name, image, table) => load_of(alloc, name, image, table),
        Act::Mark(input, name, version) => Some(Event::Mark(input, Name::new(name)?, version)),
        Act::Put(input, values) => Some(Event::Batch(input, batch_of(alloc, values, None)?)),
        Act::PutWith(input, values, header) => {
            Some(Event::Batch(input, batch_of(alloc, values, Some(header))?))
        }
        Act::Close(input) => Some(Event::Close(input)),
        Act::Deliver(input, output) => Some(Event::Deliver(input, output)),
        Act::Restart(input) => Some(Event::Restart(input)),
    }
}
