//! Slices of the parts of a record.
ghost use Rattle.std.specs.Prelude.{◌≡◌, ◌≤◌, ℕ, List, IfOk, length, slice_range, take, drop};
ghost use Rattle.machine_spec.specs.Machine.{has_part};
ghost use Rattle.machine_spec.specs.Parts.{part_bytes};
ghost use Rattle.helpers.specs.Emitted.{bytes_in, value_in};

use crate::parts::text;
use crate::room::has_part;
use bytes::Bytes;
use kafka_record::RecordRef;
use machine_spec::Part;
use record_parts::part_bytes;
use std::alloc::{AllocError, Global};

/// So many bytes of a part of the record, from a place on.
#[derive(Clone, Copy, Debug)]
pub struct PartSlice {
    pub part: Part,
    pub place: u64,
    pub count: u64,
}

/// The bytes of a part. Most slices are of the value, so that this finds it without a call.
#[inline(always)]
fn bytes_of_part<'a>(given: &RecordRef<'a>, part: Part) -> &'a [u8]
    ensures { result.now ≡ part_bytes given.now part }
{
    match part {
        Part::Value => text(&given.value()),
        other => part_bytes(given, other),
    }
}

/// Another owner of the bytes between two places of a part. Those of the key and the value share the record's
/// buffer, those of a header are copied. It fails only where memory runs out.
fn share_range(
    alloc: Global,
    given: &RecordRef,
    part: Part,
    start: usize,
    end: usize,
) -> Result<Bytes, AllocError>
    requires order { start ≤ end }
    requires within { end ≤ length (part_bytes given.now part) }
    ensures { IfOk result (λ shared. shared ≡ slice_range (part_bytes given.now part) start end) }
{
    match part {
        Part::Value => given.cut_value(start, end),
        Part::Key => given.cut_key(start, end),
        Part::HeaderKey(_) | Part::HeaderValue(_) => {
            Bytes::copy_from_slice(alloc, &part_bytes(given, part)[start..end])
        }
    }
}

impl PartSlice {
    /// Whether the part has all of these bytes.
    #[inline(always)]
    pub fn is_in(&self, given: &RecordRef) -> bool
        ensures { result ≡ has_part (part_bytes given.now self.now.part) self.now.place self.now.count }
    {
        has_part(bytes_of_part(given, self.part), self.place, self.count)
    }

    /// The places in a part of some length between which the bytes are that it has of these.
    #[inline(always)]
    fn range(&self, size: usize) -> (usize, usize)
        ensures order { result.0 ≤ result.1 }
        ensures within { result.1 ≤ size }
        ensures is { (bytes : List ℕ) → length bytes ≡ size → slice_range bytes result.0 result.1
            ≡ take self.now.count (drop self.now.place bytes) }
    {
        let start = self.place.min(size as u64) as usize;
        let left = size - start;
        (start, start + self.count.min(left as u64) as usize)
    }

    /// The bytes that the part has of these, where they are.
    #[inline(always)]
    pub fn bytes<'a>(&self, given: &RecordRef<'a>) -> &'a [u8]
        ensures { result.now ≡ bytes_in given.now self.now }
    {
        let whole = bytes_of_part(given, self.part);
        let (start, end) = self.range(whole.len());
        &whole[start..end]
    }

    /// Another owner of the same bytes: those of the key and the value share the record's buffer, those of a
    /// header are copied. It fails only where memory runs out.
    pub fn share(&self, alloc: Global, given: &RecordRef) -> Result<Bytes, AllocError>
        ensures { IfOk result (λ shared. shared ≡ bytes_in given.now self.now) }
    {
        let (start, end) = self.range(part_bytes(given, self.part).len());
        share_range(alloc, given, self.part, start, end)
    }
}

/// Another owner of a record's value, or of a slice of one of its parts, if there is one here. It fails only where
/// memory runs out.
#[inline(always)]
pub fn share_value(
    alloc: Global,
    given: &RecordRef,
    slice: &Option<PartSlice>,
) -> Result<Option<Bytes>, AllocError>
    ensures { IfOk result (λ shared. shared ≡ value_in given.now slice.now) }
{
    match slice {
        None => given.share_value(),
        Some(slice) => Ok(Some(slice.share(alloc, given)?)),
    }
}
