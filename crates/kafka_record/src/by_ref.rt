//! Records whose parts stay where they are.

ghost use Rattle.std.specs.Prelude.{◌≡◌, ◌≤◌, length, slice_range, unwrap_or, [], IfOk, IfSome, option_map};
ghost use Rattle.wire_spec.specs.RecordSpelling.{record_parts};
ghost use Rattle.kafka_record.specs.Extents.{extent_bytes, IsPartWithin};
ghost use Rattle.kafka_record.specs.Spans.{spanned, IsSpanOf};

use crate::headers::HeadersRef;
use crate::nullable::NullableBytes;
use crate::sharing::share_bytes;
use crate::spans::{Extent, Span, extent_of, part_of, share_extent};
use bytes::Bytes;
use std::alloc::{AllocError, Global};
use std::marker::Model;
use wire_spec::Record;

/// What has a record's parts.
#[derive(Drop)]
enum Source<'a> {
    /// The record.
    Whole(&'a Record),
    /// A buffer, and the places of the parts in it.
    Packed { bytes: &'a Bytes, span: &'a Span },
}

/// A record whose parts stay where they are. A clause sees the record.
#[derive(Drop)]
pub struct RecordRef<'a> {
    source: Source<'a>,
}

impl<'a> Model for RecordRef<'a> {
    ghost use Rattle.wire_spec.specs.declared.record.Record.{Record};
    ghost use Rattle.kafka_record.specs.Spans.{record_in, IsThere};

    ghost Value = { Record };

    ghost view = { λ r. record_in r.source };

    ghost invariant = { λ r. IsThere r.source };
}

impl<'a> RecordRef<'a> {
    /// A record, by reference.
    #[inline(always)]
    pub fn of(given: &'a Record) -> RecordRef<'a>
        ensures { result ≡ given.now }
    {
        RecordRef {
            source: Source::Whole(given),
        }
    }

    /// The record of a span of a buffer.
    #[inline(always)]
    pub fn packed(bytes: &'a Bytes, span: &'a Span) -> RecordRef<'a>
        requires { IsSpanOf bytes.now span.now }
        ensures { result ≡ spanned bytes.now span.now }
    {
        RecordRef {
            source: Source::Packed { bytes, span },
        }
    }

    /// The same record.
    #[inline(always)]
    pub fn again(&self) -> RecordRef<'a>
        ensures { result ≡ self.now }
    {
        match self.source {
            Source::Whole(given) => RecordRef::of(given),
            Source::Packed { bytes, span } => RecordRef::packed(bytes, span),
        }
    }

    /// The timestamp's distance from the batch's base timestamp, in milliseconds.
    #[inline(always)]
    pub fn timestamp_delta(&self) -> i64
        ensures { result ≡ self.now.timestamp_delta }
    {
        match self.source {
            Source::Whole(given) => given.timestamp_delta,
            Source::Packed { span, .. } => span.timestamp_delta,
        }
    }

    /// The key.
    #[inline(always)]
    pub fn key(&self) -> NullableBytes<'a>
        ensures { result ≡ self.now.key }
    {
        match self.source {
            Source::Whole(given) => NullableBytes::of(&given.key),
            Source::Packed { bytes, span, .. } => part_of(bytes.as_slice(), span.key),
        }
    }

    /// The value.
    #[inline(always)]
    pub fn value(&self) -> NullableBytes<'a>
        ensures { result ≡ self.now.value }
    {
        match self.source {
            Source::Whole(given) => NullableBytes::of(&given.value),
            Source::Packed { bytes, span, .. } => part_of(bytes.as_slice(), span.value),
        }
    }

    /// The headers.
    #[inline(always)]
    pub fn headers(&self) -> HeadersRef<'a>
        ensures { result ≡ self.now.headers }
    {
        match self.source {
            Source::Whole(given) => HeadersRef::of(&given.headers),
            Source::Packed { bytes, span } => {
                HeadersRef::spelled(bytes, span.headers, span.parts.end, span.count)
            }
        }
    }

    /// Key, value and headers as a record spells them after its offset delta, where they are in one piece.
    #[inline(always)]
    pub fn parts(&self) -> Option<&'a [u8]>
        ensures { IfSome result (λ parts. parts.now ≡ record_parts self.now.key self.now.value self.now.headers) }
    {
        match self.source {
            Source::Whole(_) => None,
            Source::Packed { bytes, span, .. } => Some(extent_of(bytes.as_slice(), span.parts)),
        }
    }

    /// Another owner of the key. It fails only where there are too many.
    #[inline(always)]
    pub fn share_key(&self) -> Result<Option<Bytes>, AllocError>
        ensures { IfOk result (λ shared. shared ≡ self.now.key) }
    {
        match self.source {
            Source::Whole(given) => share_bytes(&given.key),
            Source::Packed { bytes, span, .. } => share_extent(bytes, span.key),
        }
    }

    /// Another owner of the value. It fails only where there are too many.
    #[inline(always)]
    pub fn share_value(&self) -> Result<Option<Bytes>, AllocError>
        ensures { IfOk result (λ shared. shared ≡ self.now.value) }
    {
        match self.source {
            Source::Whole(given) => share_bytes(&given.value),
            Source::Packed { bytes, span, .. } => share_extent(bytes, span.value),
        }
    }

    /// Another owner of the key's bytes between two places; a null key has none. It fails only where
    /// there are too many.
    #[inline(always)]
    pub fn cut_key(&self, start: usize, end: usize) -> Result<Bytes, AllocError>
        requires order { start ≤ end }
        requires within { end ≤ length (unwrap_or self.now.key []) }
        ensures { IfOk result (λ bytes. bytes ≡ slice_range (unwrap_or self.now.key []) start end) }
    {
        match self.source {
            Source::Whole(given) => cut_whole(&given.key, start, end),
            Source::Packed { bytes, span, .. } => cut_packed(bytes, span.key, start, end),
        }
    }

    /// Another owner of the value's bytes between two places; a null value has none. It fails only where
    /// there are too many.
    #[inline(always)]
    pub fn cut_value(&self, start: usize, end: usize) -> Result<Bytes, AllocError>
        requires order { start ≤ end }
        requires within { end ≤ length (unwrap_or self.now.value []) }
        ensures { IfOk result (λ bytes. bytes ≡ slice_range (unwrap_or self.now.value []) start end) }
    {
        match self.source {
            Source::Whole(given) => cut_whole(&given.value, start, end),
            Source::Packed { bytes, span, .. } => cut_packed(bytes, span.value, start, end),
        }
    }

    /// A record with other owners of the same parts. It fails only where memory runs out.
    pub fn to_record(&self, alloc: Global) -> Result<Record, AllocError>
        ensures { IfOk result (λ made. made ≡ self.now) }
    {
        Ok(Record {
            timestamp_delta: self.timestamp_delta(),
            key: self.share_key()?,
            value: self.share_value()?,
            headers: self.headers().to_headers(alloc)?,
        })
    }
}

/// The bytes between two places of a key or a value. They share its buffer.
fn cut_whole(text: &Option<Bytes>, start: usize, end: usize) -> Result<Bytes, AllocError>
    requires order { start ≤ end }
    requires within { end ≤ length (unwrap_or text.now []) }
    ensures { IfOk result (λ bytes. bytes ≡ slice_range (unwrap_or text.now []) start end) }
{
    match text {
        Some(bytes) => bytes.slice(start..end),
        None => Ok(Bytes::new()),
    }
}

/// The same of one that is an extent of a buffer.
fn cut_packed(
    bytes: &Bytes,
    extent: Option<Extent>,
    start: usize,
    end: usize,
) -> Result<Bytes, AllocError>
    requires within { IsPartWithin (length bytes.now) extent }
    requires order { start ≤ end }
    requires end { end ≤ length (unwrap_or (option_map (extent_bytes bytes.now) extent) []) }
    ensures { IfOk result (λ cut. cut ≡ slice_range (unwrap_or (option_map (extent_bytes bytes.now) extent) []) start end) }
{
    match extent {
        Some(extent) => {
            let first = extent.start as usize;
            bytes.slice(first + start..first + end)
        }
        None => Ok(Bytes::new()),
    }
}
