//! Where bytes stand in a part.

ghost use Rattle.std.specs.Prelude.{◌≡◌, ◌+◌, ◌-◌, ◌^◌, ◌<◌, ◌≤◌, length, take, drop};
ghost use Rattle.machine_spec.specs.Parts.{part_bytes};
ghost use Rattle.machine_spec.specs.Places.{find_answer};

use crate::part::part_bytes;
use kafka_record::RecordRef;
use machine_spec::Part;
use memchr::memmem;

/// How many places a search looks at.
pub const FIND_PLACES: usize = 4096;

/// The bytes from a place on that a search for so many bytes looks at.
fn window(part: &[u8], start: usize, size: usize) -> &[u8]
    requires start { start ≤ length part.now }
    requires size { size < 2 ^ 63 }
    ensures { result.now ≡ take (size + (FIND_PLACES - 1)) (drop start part.now) }
{
    let rest = &part[start..];
    &rest[..rest.len().min(size + (FIND_PLACES - 1))]
}

/// What a search in some bytes answers.
fn find_in(part: &[u8], place: u64, bytes: &[u8]) -> u64
    ensures { result ≡ find_answer part.now bytes.now place }
{
    if place > part.len() as u64 {
        return 0;
    }
    match memmem::find(window(part, place as usize, bytes.len()), bytes) {
        Some(distance) => place + distance as u64 + 1,
        None => 0,
    }
}

/// The least place from the given one on, and at most 4,095 past it, at which these bytes stand in a part,
/// plus 1; else 0. No bytes stand at each place up to the part's length. The cost is that of 4,096 places
/// and of the bytes.
pub fn find(given: &RecordRef, part: Part, place: u64, bytes: &[u8]) -> u64
    ensures { result ≡ find_answer (part_bytes given.now part) bytes.now place }
{
    find_in(part_bytes(given, part), place, bytes)
}
