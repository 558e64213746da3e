//! What a run sees of a record's place.
ghost use Rattle.std.specs.Prelude.{◌≡◌};

use machine_spec::Place;

/// The record's offset in its input partition.
pub fn offset(place: &Place) -> u64
    ensures { result ≡ place.now.offset }
{
    place.offset
}

/// The record's timestamp, in milliseconds.
pub fn timestamp(place: &Place) -> u64
    ensures { result ≡ place.now.timestamp }
{
    place.timestamp
}

/// The number of the record's input partition.
pub fn partition(place: &Place) -> u64
    ensures { result ≡ place.now.partition }
{
    place.partition as u64
}
