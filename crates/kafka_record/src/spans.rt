//! Where a record's parts are in the bytes of its batch.

ghost use Rattle.std.specs.Prelude.{◌≡◌, length, IfOk, option_map};
ghost use Rattle.kafka_record.specs.Extents.{extent_bytes, IsExtentWithin, IsPartWithin};

use crate::nullable::NullableBytes;
use bytes::Bytes;
use std::alloc::AllocError;

/// Bytes of a buffer from a place on and before another.
#[derive(Clone, Copy, Debug, PartialEq, Eq)]
pub struct Extent {
    pub start: u32,
    pub end: u32,
}

/// A record's timestamp delta, and where its parts are in a buffer.
#[derive(Clone, Copy)]
pub struct Span {
    pub timestamp_delta: i64,
    pub key: Option<Extent>,
    pub value: Option<Extent>,
    /// Where key, value and headers are, as the record spells them after its offset delta.
    pub parts: Extent,
    /// Where the headers begin, after their number. They end where the parts do.
    pub headers: u32,
    /// How many headers there are.
    pub count: u32,
}

/// Where a header's key and value are in a buffer.
#[derive(Clone, Copy)]
pub(crate) struct HeaderSpan {
    pub(crate) key: Extent,
    pub(crate) value: Option<Extent>,
}

/// The bytes of an extent.
#[inline(always)]
pub(crate) fn extent_of(bytes: &[u8], extent: Extent) -> &[u8]
    requires { IsExtentWithin (length bytes.now) extent }
    ensures { result.now ≡ extent_bytes bytes.now extent }
{
    &bytes[extent.start as usize..extent.end as usize]
}

/// The bytes of an extent that may be null.
#[inline(always)]
pub(crate) fn part_of(bytes: &[u8], extent: Option<Extent>) -> NullableBytes
    requires { IsPartWithin (length bytes.now) extent }
    ensures { result ≡ option_map (extent_bytes bytes.now) extent }
{
    match extent {
        Some(extent) => NullableBytes::new(Some(extent_of(bytes, extent))),
        None => NullableBytes::new(None),
    }
}

/// Another owner of the bytes of an extent.
pub(crate) fn share_extent(
    bytes: &Bytes,
    extent: Option<Extent>,
) -> Result<Option<Bytes>, AllocError>
    requires { IsPartWithin (length bytes.now) extent }
    ensures { IfOk result (λ shared. shared ≡ option_map (extent_bytes bytes.now) extent) }
{
    match extent {
        Some(extent) => Ok(Some(bytes.slice(extent.start as usize..extent.end as usize)?)),
        None => Ok(None),
    }
}
