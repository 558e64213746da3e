//! The bytes at a place of a part.

ghost use Rattle.std.specs.Prelude.{◌≡◌, option_map};
ghost use Rattle.machine_spec.specs.Parts.{part_bytes};
ghost use Rattle.machine_spec.specs.Places as definitions;

use crate::part::part_bytes;
use kafka_record::RecordRef;
use machine_spec::Part;

/// The bytes from a place of a part on, as many as are asked for. There are none where the part lacks one of
/// them.
pub fn bytes_at<'a>(given: &RecordRef<'a>, part: Part, place: u64, count: u64) -> Option<&'a [u8]>
    ensures { option_map (λ bytes. bytes.now) result
        ≡ definitions.cut_of (part_bytes given.now part) place count }
{
    let part = part_bytes(given, part);
    if place as u128 + count as u128 <= part.len() as u128 {
        let start = place as usize;
        Some(&part[start..start + count as usize])
    } else {
        None
    }
}

/// Whether these bytes stand at a place of some bytes.
fn stand_at(part: &[u8], place: u64, bytes: &[u8]) -> bool
    ensures { result ≡ definitions.stand_at part.now bytes.now place }
{
    place <= part.len() as u64 && part[place as usize..].starts_with(bytes)
}

/// Whether these bytes stand at a place of a part.
pub fn equals(given: &RecordRef, part: Part, place: u64, bytes: &[u8]) -> bool
    ensures { result ≡ definitions.stand_at (part_bytes given.now part) bytes.now place }
{
    stand_at(part_bytes(given, part), place, bytes)
}
