//! Headers that stay where they are.

ghost use Rattle.std.specs.Prelude.{◌≡◌, ℕ, ◌<◌, ◌+◌, ◌-◌, ◌^◌, ◌==◌, All, length, drop, position, slice_get, slice_index, Some, IfOk, IfSome};
ghost use Rattle.std.specs.List.{flat_map};
ghost use Rattle.std.specs.Str.{bytes_eq};
ghost use Rattle.wire_spec.specs.RecordSpelling.{header};
ghost use Rattle.kafka_record.specs.Extents.{IsExtentWithin, IsPartWithin};
ghost use Rattle.kafka_record.specs.SpelledHeaders.{spanned_header, headers_in, AreSpelled};
ghost use Rattle.kafka_record.specs.HeaderBytes.{HasBytes};

use crate::header_spans::any_header_from;
use crate::nullable::NullableBytes;
use crate::reading::headers_from;
use crate::sharing::share_list;
use crate::spans::{HeaderSpan, extent_of, part_of};
use bytes::Bytes;
use std::alloc::{AllocError, Global};
use std::marker::Model;
use wire_spec::{Header, Headers};

/// A header whose key and value stay where they are. A clause sees the header.
#[derive(Drop)]
pub struct HeaderRef<'a> {
    pub key: &'a [u8],
    /// `None` for null.
    pub value: Option<&'a [u8]>,
}

impl<'a> Model for HeaderRef<'a> {
    ghost use Rattle.std.specs.Prelude.{option_map};
    ghost use Rattle.wire_spec.specs.declared.record.Header.{Header};

    ghost Value = { Header };

    ghost view = { λ h. record { key = h.key.now; value = option_map (λ v. v.now) h.value } };
}

impl<'a> HeaderRef<'a> {
    /// A header, by reference.
    #[inline(always)]
    pub fn of(given: &'a Header) -> HeaderRef<'a>
        ensures { result ≡ given.now }
    {
        HeaderRef {
            key: given.key.as_slice(),
            value: NullableBytes::of(&given.value).as_slice(),
        }
    }
}

/// What has headers.
#[derive(Drop)]
pub(crate) enum HeadersIn<'a> {
    /// A list of them.
    List(&'a [Header]),
    /// A buffer, in which so many are spelled one after the other between two places.
    Spelled {
        bytes: &'a Bytes,
        start: u32,
        end: u32,
        count: u32,
    },
}

/// The headers of a record, which stay where they are, from one of them on. A clause sees the list of them.
#[derive(Drop)]
pub struct HeadersRef<'a> {
    pub(crate) source: HeadersIn<'a>,
}

impl<'a> Model for HeadersRef<'a> {
    ghost use Rattle.std.specs.Prelude.{List};
    ghost use Rattle.wire_spec.specs.declared.record.Header.{Header};
    ghost use Rattle.kafka_record.specs.HeaderSources.{headers_of, AreThere};

    ghost Value = { List Header };

    ghost view = { λ h. headers_of h.source };

    ghost invariant = { λ h. AreThere h.source };
}

/// The first of headers that are spelled from a place on, and the place after it.
#[inline(always)]
fn first_spelled(bytes: &[u8], start: u32, end: u32, count: u32) -> (HeaderSpan, u32)
    requires some { 0 < count }
    requires spelled { AreSpelled bytes.now start end count }
    ensures first { slice_get (headers_in count (drop start bytes.now)) 0 ≡ Some (spanned_header bytes.now result.0) }
    ensures rest { headers_in (count - 1) (drop result.1 bytes.now) ≡ drop 1 (headers_in count (drop start bytes.now)) }
    ensures spelled { AreSpelled bytes.now result.1 end (count - 1) }
    ensures key { IsExtentWithin (length bytes.now) result.0.key }
    ensures value { IsPartWithin (length bytes.now) result.0.value }
{
    match any_header_from(bytes, start as usize) {
        Ok((header, after)) => (header, after as u32),
        Err(_) => unreachable!(),
    }
}

/// A header of a span of a buffer.
#[inline(always)]
fn header_of(bytes: &[u8], span: HeaderSpan) -> HeaderRef
    requires key { IsExtentWithin (length bytes.now) span.key }
    requires value { IsPartWithin (length bytes.now) span.value }
    ensures { result ≡ spanned_header bytes.now span }
{
    HeaderRef {
        key: extent_of(bytes, span.key),
        value: part_of(bytes, span.value).as_slice(),
    }
}

/// Headers that are spelled in a buffer, other owners of their parts.
fn headers_of_spelled(
    alloc: Global,
    bytes: &Bytes,
    start: u32,
    end: u32,
    count: u32,
) -> Result<Headers, AllocError>
    requires { AreSpelled bytes.now start end count }
    ensures { IfOk result (λ made. made ≡ headers_in count (drop start bytes.now)) }
{
    let _end = end;
    match headers_from(alloc, bytes, start as usize, count as usize) {
        Ok((headers, _)) => Ok(headers),
        Err(_) => Err(AllocError),
    }
}

/// Bytes are bytes.
#[inline(always)]
fn are_bytes(bytes: &[u8])
    ensures { (at : ℕ) → slice_index bytes.now at < 256 }
{}

/// The key and the value of a header are bytes.
#[inline(always)]
fn has_bytes(one: &Header)
    ensures { HasBytes one.now }
{
    are_bytes(&one.key);
    if let Some(value) = &one.value {
        are_bytes(value);
    }
}

/// The key and the value of each header of a list are bytes. A compiler leaves the walk out.
#[inline(always)]
fn are_listed_bytes(list: &[Header])
    ensures { All HasBytes list.now }
{
    for one in list {
        has_bytes(one);
    }
}

/// The key and the value of each header that is spelled between two places are bytes.
#[inline(always)]
fn are_spelled_bytes(bytes: &[u8], start: u32, end: u32, count: u32)
    requires { AreSpelled bytes.now start end count }
    ensures { All HasBytes (headers_in count (drop start bytes.now)) }
{
    let _bytes = bytes;
    let _places = start..end;
    let _count = count;
}

/// How many headers are spelled between two places.
#[inline(always)]
fn spelled_count(bytes: &[u8], start: u32, end: u32, count: u32) -> usize
    requires { AreSpelled bytes.now start end count }
    ensures { result ≡ length (headers_in count (drop start bytes.now)) }
{
    let _bytes = bytes;
    let _places = start..end;
    count as usize
}

/// The bytes of headers that are spelled between two places.
#[inline(always)]
pub(crate) fn spelled_bytes(bytes: &[u8], start: u32, end: u32, count: u32) -> &[u8]
    requires { AreSpelled bytes.now start end count }
    ensures { result.now ≡ flat_map header (headers_in count (drop start bytes.now)) }
{
    let _count = count;
    &bytes[start as usize..end as usize]
}

impl<'a> HeadersRef<'a> {
    /// Headers, by reference.
    #[inline(always)]
    pub fn of(given: &'a Headers) -> HeadersRef<'a>
        ensures { result ≡ given.now }
    {
        HeadersRef {
            source: HeadersIn::List(given.list.as_slice()),
        }
    }

    /// The headers that are spelled between two places of a buffer, so many of them.
    #[inline(always)]
    pub(crate) fn spelled(bytes: &'a Bytes, start: u32, end: u32, count: u32) -> HeadersRef<'a>
        requires { AreSpelled bytes.now start end count }
        ensures { result ≡ headers_in count (drop start bytes.now) }
    {
        HeadersRef {
            source: HeadersIn::Spelled {
                bytes,
                start,
                end,
                count,
            },
        }
    }

    /// The same headers.
    #[inline(always)]
    pub fn again(&self) -> HeadersRef<'a>
        ensures { result ≡ self.now }
    {
        match self.source {
            HeadersIn::List(list) => HeadersRef {
                source: HeadersIn::List(list),
            },
            HeadersIn::Spelled {
                bytes,
                start,
                end,
                count,
            } => HeadersRef::spelled(bytes, start, end, count),
        }
    }

    /// How many there are.
    #[inline(always)]
    pub fn len(&self) -> usize
        ensures { result ≡ length self.now }
    {
        match self.source {
            HeadersIn::List(list) => list.len(),
            HeadersIn::Spelled {
                bytes,
                start,
                end,
                count,
            } => spelled_count(bytes.as_slice(), start, end, count),
        }
    }

    /// Whether there are none.
    #[inline(always)]
    pub fn is_empty(&self) -> bool
        ensures { result ≡ (length self.now == 0) }
    {
        self.len() == 0
    }

    /// The first header, which is no longer among them then.
    #[inline(always)]
    pub fn take_first(&mut self) -> Option<HeaderRef<'a>>
        ensures first { result ≡ slice_get self.old 0 }
        ensures rest { self.new ≡ drop 1 self.old }
    {
        match self.source {
            HeadersIn::List(list) => match list.split_first() {
                Some((first, rest)) => {
                    self.source = HeadersIn::List(rest);
                    Some(HeaderRef::of(first))
                }
                None => None,
            },
            HeadersIn::Spelled {
                bytes,
                start,
                end,
                count,
            } => {
                if count == 0 {
                    return None;
                }
                let slice = bytes.as_slice();
                let (header, after) = first_spelled(slice, start, end, count);
                self.source = HeadersIn::Spelled {
                    bytes,
                    start: after,
                    end,
                    count: count - 1,
                };
                Some(header_of(slice, header))
            }
        }
    }

    /// The key and the value of each are bytes. A type says so of the bytes that are at hand, and nothing is
    /// done with them.
    #[inline(always)]
    pub fn are_bytes(&self)
        ensures { All HasBytes self.now }
    {
        match self.source {
            HeadersIn::List(list) => are_listed_bytes(list),
            HeadersIn::Spelled {
                bytes,
                start,
                end,
                count,
            } => are_spelled_bytes(bytes.as_slice(), start, end, count),
        }
    }

    /// The header at a position, from 0, if there is one.
    pub fn get(&self, position: u64) -> Option<HeaderRef<'a>>
        ensures { result ≡ slice_get self.now position }
    {
        if position >= self.len() as u64 {
            return None;
        }
        let mut rest = self.again();
        for _ in 0..position {
            let _passed = rest.take_first();
        }
        rest.take_first()
    }

    /// The position of the first header with a key, from 0.
    pub fn position(&self, key: &[u8]) -> Option<usize>
        ensures first { result ≡ position (λ one. bytes_eq one.key key.now) self.now }
        ensures small { IfSome result (λ place. place + 1 < 2 ^ 64) }
    {
        let mut rest = self.again();
        for place in 0..self.len() {
            let one = rest.take_first()?;
            if one.key == key {
                return Some(place);
            }
        }
        None
    }

    /// Headers that own their parts: other owners of the same bytes, in a list. It fails only where memory
    /// runs out. Where there are none, it takes no memory.
    pub fn to_headers(&self, alloc: Global) -> Result<Headers, AllocError>
        ensures { IfOk result (λ made. made ≡ self.now) }
    {
        match self.source {
            HeadersIn::List(list) => share_list(alloc, list),
            HeadersIn::Spelled {
                bytes,
                start,
                end,
                count,
            } => headers_of_spelled(alloc, bytes, start, end, count),
        }
    }
}
