//! Batches that are cut short anywhere, or have one byte changed, each place and each value.

use crate::batches::{ONE, is_written_as};
use batch::{Batch, BatchFault, decode, decode_packed};
use bytes::Bytes;
use std::alloc::{AllocError, Global};
use std::process::Abort;
use std::test::*;

/// Three records with headers, empty and null parts, and timestamps that rise and fall.
pub(crate) const THREE: &[u8] = &[
    0x00, 0x00, 0x00, 0x00, 0x00, 0x00, 0x00, 0x00, 0x00, 0x00, 0x00, 0x5c, 0x00, 0x00, 0x00, 0x00,
    0x02, 0x81, 0x70, 0x9a, 0xea, 0x00, 0x00, 0x00, 0x00, 0x00, 0x02, 0x00, 0x00, 0x00, 0x00, 0x00,
    0x00, 0x03, 0xe8, 0x00, 0x00, 0x00, 0x00, 0x00, 0x00, 0x03, 0xed, 0xff, 0xff, 0xff, 0xff, 0xff,
    0xff, 0xff, 0xff, 0xff, 0xff, 0xff, 0xff, 0xff, 0xff, 0x00, 0x00, 0x00, 0x03, 0x20, 0x00, 0x00,
    0x00, 0x02, 0x6b, 0x02, 0x76, 0x04, 0x02, 0x68, 0x01, 0x04, 0xc3, 0xa4, 0x02, 0x78, 0x12, 0x00,
    0x0a, 0x02, 0x01, 0x00, 0x02, 0x02, 0x68, 0x00, 0x1e, 0x00, 0x01, 0x04, 0x00, 0x01, 0x06, 0x00,
    0x04, 0x61, 0x62, 0x00, 0x01, 0x02, 0x69, 0x00,
];

/// What some bytes are read as.
#[derive(Clone, Copy, PartialEq, Eq)]
enum Reading {
    /// A batch of exactly these bytes, which has that spelling alone.
    Whole,
    /// A batch with other bytes.
    Other,
    Refused(BatchFault),
}

/// Whether the batch is written as these bytes, and has their offset and epoch.
fn is_of(alloc: Global, batch: &Batch, bytes: &[u8]) -> bool {
    is_written_as(alloc, batch, bytes)
        && bytes.starts_with(&batch.base_offset.to_be_bytes())
        && bytes.get(12..16) == Some(batch.leader_epoch.to_be_bytes().as_slice())
}

/// What the bytes of a buffer are read as.
fn reading_of_buffer(alloc: Global, given: Bytes, bytes: &[u8]) -> Reading {
    match decode(alloc, given) {
        Ok((batch, used)) if used == bytes.len() && is_of(alloc, &batch, bytes) => Reading::Whole,
        Ok(_) => Reading::Other,
        Err(fault) => Reading::Refused(fault),
    }
}

/// The same, of a batch that is read packed.
fn packed_reading(alloc: Global, given: Bytes, bytes: &[u8]) -> Result<Reading, AllocError> {
    match decode_packed(alloc, given) {
        Ok((packed, used)) => {
            let batch = packed.to_batch(alloc)?;
            let whole = used == bytes.len() && is_of(alloc, &batch, bytes);
            Ok(if whole {
                Reading::Whole
            } else {
                Reading::Other
            })
        }
        Err(fault) => Ok(Reading::Refused(fault)),
    }
}

/// What bytes are read as, in both ways; as another batch where these differ.
fn reading_of(alloc: Global, bytes: &[u8]) -> Result<Reading, AllocError> {
    let given = Bytes::copy_from_slice(alloc, bytes)?;
    let packed = packed_reading(alloc, given.clone()?, bytes)?;
    let reading = reading_of_buffer(alloc, given, bytes);
    Ok(if reading == packed {
        reading
    } else {
        Reading::Other
    })
}

/// The number that stands in bytes 8 to 11, read as 32 bits with a sign.
fn stated_length(bytes: &[u8]) -> i64 {
    match bytes.get(8..12) {
        Some([a, b, c, d]) => i64::from(i32::from_be_bytes([*a, *b, *c, *d])),
        _ => 0,
    }
}

/// What a changed length makes of a batch: it is too small, too large, more than there is, or the
/// checksum is of other bytes.
fn fault_of_length(length: i64, there: i64) -> BatchFault {
    if length < 49 {
        BatchFault::Length
    } else if length > 4_194_292 {
        BatchFault::TooLarge
    } else if length.wrapping_add(12) > there {
        BatchFault::Short
    } else {
        BatchFault::Crc
    }
}

/// What a batch is read as, one byte of which was changed.
fn expected(bytes: &[u8], place: usize) -> Reading {
    match place {
        0..=7 | 12..=15 => Reading::Whole,
        8..=11 => {
            let there = i64::try_from(bytes.len()).unwrap_or(0);
            Reading::Refused(fault_of_length(stated_length(bytes), there))
        }
        16 => Reading::Refused(BatchFault::Magic),
        _ => Reading::Refused(BatchFault::Crc),
    }
}

/// How often Ok, B1, B2, B3, B4 and B5 were right.
type Counts = [u32; 6];

/// Adds one to the number of such readings.
fn count(counts: &mut Counts, reading: Reading) {
    let which = match reading {
        Reading::Whole | Reading::Other => 0,
        Reading::Refused(BatchFault::Short) => 1,
        Reading::Refused(BatchFault::Length) => 2,
        Reading::Refused(BatchFault::TooLarge) => 3,
        Reading::Refused(BatchFault::Magic) => 4,
        Reading::Refused(_) => 5,
    };
    counts[which] = counts[which].saturating_add(1);
}

/// Changes the byte at a place; a second time it is as it was.
fn flip(bytes: &mut [u8], place: usize, change: u8) {
    if let Some(byte) = bytes.get_mut(place) {
        *byte ^= change;
    }
}

/// Whether the bytes are read so.
fn is_read(alloc: Global, bytes: &[u8], want: Reading) -> bool {
    match reading_of(alloc, bytes) {
        Ok(reading) => reading == want,
        Err(_) => false,
    }
}

/// Gives the byte at a place each other value in turn; the first change with another reading.
fn first_other_change(
    alloc: Global,
    bytes: &mut [u8],
    place: usize,
    counts: &mut Counts,
) -> Option<u8> {
    for change in 1..=255u8 {
        flip(bytes, place, change);
        let want = expected(bytes, place);
        count(counts, want);
        if !is_read(alloc, bytes, want) {
            return Some(change);
        }
        flip(bytes, place, change);
    }
    None
}

/// How many of the batches with one changed byte are read, and how many are refused as B1 to B5; else the
/// place and the change of the first one that is read in another way.
fn change_each(alloc: Global, bytes: &mut [u8]) -> Result<Counts, (usize, u8)> {
    let mut counts = [0; 6];
    for place in 0..bytes.len() {
        if let Some(change) = first_other_change(alloc, bytes, place, &mut counts) {
            return Err((place, change));
        }
    }
    Ok(counts)
}

/// The same of a copy of the batch.
fn change_copy(alloc: Global, whole: &[u8]) -> Result<Counts, (usize, u8)> {
    match Vec::from_slice(alloc, whole) {
        Ok(mut bytes) => change_each(alloc, bytes.as_mut_slice()),
        Err(_) => Err((0, 0)),
    }
}

/// The first length to which the batch is cut and not B1, but for its own, at which it is read.
fn first_other_cut(alloc: Global, whole: &[u8]) -> Option<usize> {
    let short = Reading::Refused(BatchFault::Short);
    for length in 0..whole.len() {
        if !is_read(alloc, whole.get(..length).unwrap_or(whole), short) {
            return Some(length);
        }
    }
    if is_read(alloc, whole, Reading::Whole) {
        None
    } else {
        Some(whole.len())
    }
}

/// A batch, and how many of those with one changed byte are read or refused as B1 to B5.
static DAMAGED: [(&[u8], Counts); 2] = [
    (ONE, [3060, 515, 177, 319, 255, 13524]),
    (THREE, [3060, 481, 177, 319, 255, 22228]),
];

fn damage_each(rt: &impl Abort, alloc: Global, rows: &[(&[u8], Counts)]) {
    for (whole, want) in rows {
        let cut = first_other_cut(alloc, whole);
        assert!(rt; cut.is_none(), "cut to {cut:?}");
        let counts = change_copy(alloc, whole);
        assert!(rt; counts == Ok(*want), "{counts:?}");
    }
}

#[test]
fn a_damaged_batch_is_refused_for_its_first_fault(rt: HostRuntime) {
    damage_each(&rt, rt.alloc(), &DAMAGED);
}
