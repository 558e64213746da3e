ghost use Rattle.batch_reader.specs.Readings.{IsOpen};

use crate::interrupted::Interrupted;
use crate::transforms::making::{damaged, first_wrong, has, stream_of};
use crate::verdicts::all_hold;
use batch_reader::{BatchReader, Position, ReadFault};
use fixtures::FORWARD;
use log_item::Program;
use std::alloc::Global;
use std::test::*;
use transform::{StreamFault, Transform, transform_all};
use wire_spec::BatchFault;

/// Damage: how many bytes are left, and which is changed; the refusal, if there is one; how many batches
/// and bytes were read before, and the batches of rows that were written.
type Damage = (
    usize,
    usize,
    Option<BatchFault>,
    u64,
    u64,
    &'static [(i64, usize)],
);

static DAMAGES: [Damage; 7] = [
    (0, 999, None, 0, 0, &[]),
    (157, 999, None, 2, 157, &[(0, 5)]),
    (82, 999, None, 1, 82, &[(0, 3)]),
    (81, 999, Some(BatchFault::Short), 0, 0, &[]),
    (156, 999, Some(BatchFault::Short), 1, 82, &[(0, 3)]),
    (157, 70, Some(BatchFault::Crc), 0, 0, &[]),
    (157, 150, Some(BatchFault::Crc), 1, 82, &[(0, 3)]),
];

/// How a stream is to end.
fn end_of(damage: &Damage) -> Result<(), StreamFault> {
    match damage.2 {
        Some(fault) => Err(StreamFault::Read(ReadFault::Batch(fault))),
        None => Ok(()),
    }
}

/// How a stream of a reader ends.
fn ended(
    program: &Program,
    reader: &mut BatchReader<&[u8]>,
    stream: &mut Transform<Interrupted>,
) -> Result<(), StreamFault>
    requires { IsOpen reader.old }
{
    transform_all(program, reader, stream)
}

/// Whether so much of a reader was given.
fn is_at(reader: &BatchReader<&[u8]>, damage: &Damage) -> bool {
    let (batches, bytes) = (damage.3, damage.4);
    reader.position() == Position { batches, bytes }
}

/// Whether a stream of a reader ends as it should, and so much of the reader was given.
fn is_end(
    program: &Program,
    reader: &mut BatchReader<&[u8]>,
    stream: &mut Transform<Interrupted>,
    damage: &Damage,
) -> bool
    requires { IsOpen reader.old }
{
    ended(program, reader, stream) == end_of(damage) && is_at(reader, damage)
}

/// The same of bytes that are read in pieces of this size.
fn is_end_of(
    alloc: Global,
    program: &Program,
    bytes: &[u8],
    piece: usize,
    stream: &mut Transform<Interrupted>,
    damage: &Damage,
) -> bool {
    if piece == 0 || piece > 65_536 {
        return false;
    }
    match BatchReader::new(alloc, bytes, piece) {
        Ok(mut reader) => is_end(program, &mut reader, stream, damage),
        Err(_) => false,
    }
}

/// Whether a stream that is read in pieces of this size ends so, and has written the rows.
fn ends_so(alloc: Global, program: &Program, bytes: &[u8], piece: usize, damage: &Damage) -> bool {
    match stream_of(alloc, 0, 0, 1) {
        Some(mut stream) => is_end_of(alloc, program, bytes, piece, &mut stream, damage)
            && has(alloc, &stream, 0, damage.5),
        None => false,
    }
}

/// How many bytes are read at once.
static PIECES: [usize; 3] = [1, 7, 65_536];

/// Whether a stream ends as it should, in pieces of each size.
fn ends_in_pieces(alloc: Global, program: &Program, damage: &Damage) -> bool {
    let Some(bytes) = damaged(alloc, damage.0, damage.1) else {
        return false;
    };
    for piece in &PIECES {
        if !ends_so(alloc, program, &bytes, *piece, damage) {
            return false;
        }
    }
    true
}

#[test]
fn rows_before_a_fault_are_written(rt: HostRuntime) {
    let alloc = rt.alloc();
    let wrong = first_wrong(
        alloc,
        &FORWARD,
        &DAMAGES,
        |program, row| ends_in_pieces(alloc, program, row),
    );
    all_hold(&rt, wrong);
}
