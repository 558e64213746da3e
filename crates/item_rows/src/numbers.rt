//! What a row has beside its parts.

ghost use Rattle.std.specs.Prelude.{◌≡◌, ◌<◌};
ghost use Rattle.machine_spec.specs.declared.limits.TheConstants.{MAX_EMISSIONS};
ghost use Rattle.machine_spec.specs.declared.outcome.Emission.{Emission};
ghost use Rattle.machine_spec.specs.Meaning.{IsPlace};
ghost use Rattle.log_spec.specs.Logs.{row_of};
ghost use Rattle.helpers.specs.Emitted.{excerpt_in};
ghost use Rattle.item_rows.specs.RowParts.{row_by, whole};

use bytes::Bytes;
use kafka_record::{HeadersRef, NullableBytes, RecordRef};
use log_item::Excerpt;
use log_spec::{Row, RowParts, RowRef};
use machine_spec::Place;
use wire_spec::Headers;

/// What a row has beside its parts.
#[derive(Clone, Copy)]
pub(crate) struct RowNumbers {
    pub(crate) input: u32,
    pub(crate) number: u32,
    pub(crate) offset: u64,
    pub(crate) timestamp: u64,
}

impl RowNumbers {
    /// Those of the row of an emission of the record at a place.
    #[inline(always)]
    pub(crate) fn of(place: &Place, number: usize) -> RowNumbers
        requires place { IsPlace place.now }
        requires few { number < MAX_EMISSIONS }
        ensures { (e : Emission) → row_by result e ≡ row_of place.now number e }
    {
        RowNumbers {
            input: place.partition as u32,
            number: number as u32,
            offset: place.offset,
            timestamp: place.timestamp,
        }
    }

    /// The row of these numbers with the parts of a record.
    #[inline(always)]
    fn with_record<'r>(&self, given: &RecordRef<'r>) -> RowRef<'r>
        ensures { result ≡ row_by self.now (whole given.now) }
    {
        RowRef {
            input: self.input,
            number: self.number,
            offset: self.offset,
            timestamp: self.timestamp,
            parts: RowParts::Record(given.again()),
        }
    }

    /// The row of these numbers with the parts of an excerpt of a record.
    #[inline(always)]
    pub(crate) fn with_excerpt<'r>(&self, given: &RecordRef<'r>, excerpt: &Excerpt) -> RowRef<'r>
        ensures { result ≡ row_by self.now (excerpt_in given.now excerpt.now) }
    {
        match excerpt.slice() {
            None => self.with_record(given),
            Some(slice) => {
                let value = NullableBytes::new(Some(slice.bytes(given)));
                self.with_parts(given.key(), value, given.headers())
            }
        }
    }

    /// The row of these numbers with these parts.
    #[inline(always)]
    pub(crate) fn with_parts<'r>(
        &self,
        key: NullableBytes<'r>,
        value: NullableBytes<'r>,
        headers: HeadersRef<'r>,
    ) -> RowRef<'r>
        ensures { result ≡ row_by self.now (record { out = 0; key = key.entry; value = value.entry; headers = headers.entry }) }
    {
        RowRef {
            input: self.input,
            number: self.number,
            offset: self.offset,
            timestamp: self.timestamp,
            parts: RowParts::Apart {
                key,
                value,
                headers,
            },
        }
    }

    /// The row of these numbers that owns these parts.
    pub(crate) fn row(&self, key: Option<Bytes>, value: Option<Bytes>, headers: Headers) -> Row
        ensures { result ≡ row_by self.now (record { out = 0; key = key; value = value; headers = headers }) }
    {
        Row {
            input: self.input,
            number: self.number,
            offset: self.offset,
            timestamp: self.timestamp,
            key,
            value,
            headers,
        }
    }
}
