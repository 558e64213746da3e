//! What the tests give to logs and to the core.

ghost use Rattle.std.specs.Prelude.{IfSome};
ghost use Rattle.log_spec.specs.Worlds.{FitsEvent};

use bytes::Bytes;
use fixtures::{batch_of_value, raw_name_of};
use log_spec::{Event, Name};
use machine_spec::Table;
use std::alloc::Global;

/// The core's event that appends a batch of one record with this value.
pub(crate) fn put_of(alloc: Global, input: usize, value: u8) -> Option<Event>
    ensures { IfSome result (λ event. FitsEvent event) }
{
    match batch_of_value(alloc, 1, value) {
        Some(batch) => Some(Event::Batch(input, batch)),
        None => None,
    }
}

/// The core's event that loads an image under a helper table.
pub(crate) fn load_of(alloc: Global, name: &str, image: &[u8], table: Table) -> Option<Event>
    ensures { IfSome result (λ event. FitsEvent event) }
{
    match (
        raw_name_of(alloc, name),
        Bytes::copy_from_slice(alloc, image),
    ) {
        (Ok(name), Ok(image)) => Some(Event::Load(name, image, table)),
        _ => None,
    }
}

/// The core's event that marks a version.
pub(crate) fn mark_of(input: usize, name: &str, version: u32) -> Option<Event>
    ensures { IfSome result (λ event. FitsEvent event) }
{
    match Name::new(name) {
        Some(name) => Some(Event::Mark(input, name, version)),
        None => None,
    }
}
