//! Bytes that are copied to the front of a buffer.

ghost use Rattle.std.specs.Prelude.{◌≡◌};
ghost use Rattle.machine_spec.specs.Machine.{bytes_of};
ghost use Rattle.c_outcomes.specs.Outcomes as definitions;

use crate::numbers::{OK, ROOM};
use bytes::Bytes;

/// The bytes of a part, none where it is null.
pub(crate) fn part_bytes(part: &Option<Bytes>) -> &[u8]
    ensures { result.now ≡ bytes_of part.now }
{
    match part {
        None => &[],
        Some(bytes) => bytes.as_slice(),
    }
}

/// Writes bytes at the front of a buffer that has room for them.
pub fn copy(bytes: &[u8], buffer: &mut [u8]) -> u32
    ensures { definitions.Copies bytes.now buffer.old buffer.new result }
{
    if bytes.len() > buffer.len() {
        return ROOM;
    }
    buffer[..bytes.len()].copy_from_slice(bytes);
    OK
}

/// The same of bytes that were found; else it returns why none were.
pub fn copy_found(found: Result<&[u8], u32>, buffer: &mut [u8]) -> u32
    ensures { definitions.CopiesFound (definitions.found found.entry) buffer.old buffer.new result }
{
    match found {
        Err(fault) => fault,
        Ok(bytes) => copy(bytes, buffer),
    }
}
