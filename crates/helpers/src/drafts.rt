//! Emissions that a program made, of which parts may still be the record's.
ghost use Rattle.std.specs.Prelude.{◌≡◌, ◌≤◌, ℕ, List, length, take, drop, IfOk, OnOk};
ghost use Rattle.wire_spec.specs.declared.record.Record.{Record};
ghost use Rattle.helpers.specs.Emitted.{sliced, draft_key, draft_value, draft_headers, emission_of, edited};

use crate::parts::text;
use crate::slices::{PartSlice, share_value};
use bytes::Bytes;
use kafka_record::{HeadersRef, NullableBytes, RecordRef};
use machine_spec::Emission;
use std::alloc::{AllocError, Global};
use wire_spec::Headers;

/// The record's value, of which so many bytes from a place on become these.
#[derive(Drop)]
pub struct Edit {
    pub place: u64,
    pub count: u64,
    pub bytes: Bytes,
}

/// The value of an emission that a program made.
#[derive(Drop)]
pub enum DraftValue {
    /// These bytes, or null.
    Whole(Option<Bytes>),
    /// The record's value, or a slice of one of its parts, if there is one here.
    Cut(Option<PartSlice>),
    /// The record's value with a change.
    Edited(Edit),
}

/// The key of an emission that a program made.
#[derive(Drop)]
pub enum DraftKey {
    /// The record's.
    Own,
    /// These bytes.
    Whole(Bytes),
}

/// The headers of an emission that a program made.
#[derive(Drop)]
pub enum DraftHeaders {
    /// The record's.
    Own,
    /// These.
    Listed(Headers),
}

/// An emission that a program made. What it has of the record stays there, and its value is spelled where it is asked
/// for.
#[derive(Drop)]
pub struct Draft {
    /// The output partition.
    pub out: usize,
    pub key: DraftKey,
    pub value: DraftValue,
    pub headers: DraftHeaders,
}

/// A place in so many bytes, or their end.
#[inline(always)]
fn within(place: u128, size: usize) -> usize
    ensures small { result ≤ size }
    ensures is { (bytes : List ℕ) → length bytes ≡ size → (take result bytes ≡ take place bytes) × (drop result bytes ≡ drop place bytes) }
{
    place.min(size as u128) as usize
}

impl Edit {
    /// Writes the value that this is of a record in place of what is in a list. It fails only where memory runs out.
    fn write(&self, given: &RecordRef, list: &mut Vec<u8>) -> Result<(), AllocError>
        ensures { OnOk result (list.new.items ≡ edited given.now self.now) }
    {
        let whole = given.value();
        let value = text(&whole);
        let start = within(self.place as u128, value.len());
        let end = within(self.place as u128 + self.count as u128, value.len());
        list.clear();
        list.reserve_exact(value.len().saturating_add(self.bytes.len()))?;
        list.extend_from_slice(&value[..start])?;
        list.extend_from_slice(&self.bytes)?;
        list.extend_from_slice(&value[end..])
    }
}

impl DraftValue {
    /// An owner of the value for this record. It fails only where memory runs out.
    fn into_bytes(self, alloc: Global, given: &RecordRef) -> Result<Option<Bytes>, AllocError>
        ensures { IfOk result (λ bytes. bytes ≡ draft_value given.now self) }
    {
        match self {
            DraftValue::Whole(bytes) => Ok(bytes),
            DraftValue::Cut(slice) => share_value(alloc, given, &slice),
            DraftValue::Edited(edit) => {
                let mut list = Vec::new(alloc);
                edit.write(given, &mut list)?;
                Ok(Some(Bytes::from_vec(list)?))
            }
        }
    }

    /// The value for this record, where it is, or in the room where it is nowhere in one piece. It fails only where
    /// memory runs out.
    pub fn spelled<'r>(
        &'r self,
        given: &RecordRef<'r>,
        room: &'r mut Vec<u8>,
    ) -> Result<NullableBytes<'r>, AllocError>
        ensures { IfOk result (λ value. value ≡ draft_value given.now self.now) }
    {
        match self {
            DraftValue::Whole(bytes) => Ok(NullableBytes::of(bytes)),
            DraftValue::Cut(None) => Ok(given.value()),
            DraftValue::Cut(Some(slice)) => Ok(NullableBytes::new(Some(slice.bytes(given)))),
            DraftValue::Edited(edit) => {
                edit.write(given, room)?;
                Ok(NullableBytes::new(Some(room.as_slice())))
            }
        }
    }
}

/// Other owners of the headers' parts, in a list of their own. Most records have no headers.
#[inline(always)]
fn share_some(alloc: Global, headers: &HeadersRef) -> Result<Headers, AllocError>
    ensures { IfOk result (λ shared. shared ≡ headers.now) }
{
    if headers.is_empty() {
        return Ok(Headers {
            list: Vec::new(alloc),
        });
    }
    headers.to_headers(alloc)
}

impl DraftKey {
    /// An owner of the key for this record. It fails only where memory runs out.
    #[inline(always)]
    fn into_bytes(self, given: &RecordRef) -> Result<Option<Bytes>, AllocError>
        ensures { IfOk result (λ bytes. bytes ≡ draft_key given.now self) }
    {
        match self {
            DraftKey::Own => given.share_key(),
            DraftKey::Whole(bytes) => Ok(Some(bytes)),
        }
    }

    /// The key for this record, where it is.
    #[inline(always)]
    pub fn spelled<'r>(&'r self, given: &RecordRef<'r>) -> NullableBytes<'r>
        ensures { result ≡ draft_key given.now self.now }
    {
        match self {
            DraftKey::Own => given.key(),
            DraftKey::Whole(bytes) => NullableBytes::new(Some(bytes.as_slice())),
        }
    }
}

impl DraftHeaders {
    /// Owners of the headers for this record. It fails only where memory runs out.
    #[inline(always)]
    pub(crate) fn into_headers(
        self,
        alloc: Global,
        given: &RecordRef,
    ) -> Result<Headers, AllocError>
        ensures { IfOk result (λ headers. headers ≡ draft_headers given.now self) }
    {
        match self {
            DraftHeaders::Own => share_some(alloc, &given.headers()),
            DraftHeaders::Listed(headers) => Ok(headers),
        }
    }

    /// The headers for this record, where they are.
    #[inline(always)]
    pub fn spelled<'r>(&'r self, given: &RecordRef<'r>) -> HeadersRef<'r>
        ensures { result ≡ draft_headers given.now self.now }
    {
        match self {
            DraftHeaders::Own => given.headers(),
            DraftHeaders::Listed(headers) => HeadersRef::of(headers),
        }
    }
}

impl Draft {
    /// The record as it is, or with a slice of one of its parts as its value.
    #[inline(always)]
    pub(crate) fn cut(out: usize, slice: Option<PartSlice>) -> Draft
        ensures { (given : Record) → emission_of given result ≡ sliced given out slice }
    {
        Draft {
            out,
            key: DraftKey::Own,
            value: DraftValue::Cut(slice),
            headers: DraftHeaders::Own,
        }
    }

    /// The emission of it for this record, an owner of its parts. It fails only where memory runs out.
    pub fn into_emission(self, alloc: Global, given: &RecordRef) -> Result<Emission, AllocError>
        ensures { IfOk result (λ emission. emission ≡ emission_of given.now self) }
    {
        let Draft {
            out,
            key,
            value,
            headers,
        } = self;
        Ok(Emission {
            out,
            key: key.into_bytes(given)?,
            value: value.into_bytes(alloc, given)?,
            headers: headers.into_headers(alloc, given)?,
        })
    }
}
