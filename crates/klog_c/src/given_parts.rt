//! A part of a record or of a header: bytes, or null.

ghost use Rattle.std.specs.Prelude.{◌≡◌, IfOk};
ghost use Rattle.klog_c.specs.RecordParts as definitions;

use bytes::Bytes;
use std::alloc::{AllocError, Global};

/// Whether a part has at most this number of bytes.
pub(crate) fn is_part_fitting(is_null: bool, bytes: &[u8], most: usize) -> bool
    ensures { result ≡ definitions.is_part_fitting is_null bytes.now most }
{
    is_null || bytes.len() <= most
}

/// The part of these bytes, which are copied, or null. It fails only where memory runs out.
pub(crate) fn part_of(
    alloc: Global,
    is_null: bool,
    bytes: &[u8],
) -> Result<Option<Bytes>, AllocError>
    ensures { IfOk result (λ part. part ≡ definitions.part_of is_null bytes.now) }
{
    if is_null {
        return Ok(None);
    }
    Ok(Some(Bytes::copy_from_slice(alloc, bytes)?))
}
