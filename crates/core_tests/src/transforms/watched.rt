//! What a watcher of a stream is told.

ghost use Rattle.std.specs.Prelude.{◌≡◌, ◌++◌, ◌∷◌, [], Some, None, map, true, if◌then◌else◌};
ghost use Rattle.std.specs.Bool.{OnTrue};
ghost use Rattle.batch_reader.specs.Readings.{IsOpen};
ghost use Rattle.transform.specs.Tellings.{telling};

use crate::interrupted::Interrupted;
use crate::transforms::making::{TWO, damaged, first_wrong, stream_of};
use crate::verdicts::all_hold;
use batch_reader::{BatchReader, Position};
use fixtures::FORWARD;
use log_item::Program;
use std::alloc::Global;
use std::test::*;
use transform::{Transform, Watch, transform_watched};

/// How many batches and bytes were given, and how many records were counted.
type Telling = (Position, u64);

/// Keeps what it is told, as long as there is memory.
#[derive(Drop)]
struct Listener {
    kept: Vec<Telling>,
    is_whole: bool,
}

impl Watch for Listener {
    ghost told = { λ l. if l.is_whole then Some (map (λ t. telling t.0 t.1) l.kept.items) else None };

    fn batch_done(&mut self, position: Position, records: u64) {
        self.is_whole = keep(&mut self.kept, (position, records), self.is_whole);
    }
}

/// Keeps a telling more, where all before it were kept; whether all are.
fn keep(kept: &mut Vec<Telling>, told: Telling, is_whole: bool) -> bool
    ensures { OnTrue result ((is_whole ≡ true) × (kept.new.items ≡ kept.old.items ++ told ∷ [])) }
{
    is_whole && kept.push(told).is_ok()
}

/// The offset of the first record.
const FIRST: u64 = 5;

/// How many batches, bytes and records there are.
type Told = (u64, u64, u64);

/// Damage: how many bytes of two batches are left, and which is changed; what the watcher is told.
type Damage = (usize, usize, &'static [Told]);

static DAMAGES: [Damage; 4] = [
    (157, 999, &[(1, 82, 3), (2, 157, 5)]),
    (157, 150, &[(1, 82, 3)]),
    (156, 999, &[(1, 82, 3)]),
    (81, 999, &[]),
];

fn told_of(telling: &Telling) -> Told {
    let (position, records) = *telling;
    (position.batches, position.bytes, records)
}

/// Whether these were kept.
fn are_kept(kept: &[Telling], want: &[Told]) -> bool {
    let mut rest = want;
    for telling in kept {
        match rest.split_first() {
            Some((first, others)) if told_of(telling) == *first => rest = others,
            _ => return false,
        }
    }
    rest.is_empty()
}

/// What is told of a stream of a reader, which ends well or not.
fn heard(
    alloc: Global,
    program: &Program,
    reader: &mut BatchReader<&[u8]>,
    stream: &mut Transform<Interrupted>,
) -> (bool, Listener)
    requires { IsOpen reader.old }
{
    let mut listener = Listener {
        kept: Vec::new(alloc),
        is_whole: true,
    };
    let ended = transform_watched(program, reader, stream, &mut listener);
    (ended.is_ok(), listener)
}

/// Whether a watcher is told this of a reader, and the stream ends well only where all is told.
fn is_told(
    alloc: Global,
    program: &Program,
    reader: &mut BatchReader<&[u8]>,
    stream: &mut Transform<Interrupted>,
    want: &[Told],
) -> bool
    requires { IsOpen reader.old }
{
    let (is_done, listener) = heard(alloc, program, reader, stream);
    listener.is_whole && are_kept(&listener.kept, want) && is_done == (want.len() == TWO.len())
}

/// The same of bytes.
fn is_told_of(alloc: Global, program: &Program, bytes: &[u8], want: &[Told]) -> bool {
    match (
        BatchReader::new(alloc, bytes, 7),
        stream_of(alloc, 0, FIRST, 1),
    ) {
        (Ok(mut reader), Some(mut stream)) => is_told(
            alloc,
            program,
            &mut reader,
            &mut stream,
            want,
        ),
        _ => false,
    }
}

fn tells_so(alloc: Global, program: &Program, damage: &Damage) -> bool {
    match damaged(alloc, damage.0, damage.1) {
        Some(bytes) => is_told_of(alloc, program, &bytes, damage.2),
        None => false,
    }
}

#[test]
fn a_watcher_is_told_of_each_batch(rt: HostRuntime) {
    let alloc = rt.alloc();
    let wrong = first_wrong(
        alloc,
        &FORWARD,
        &DAMAGES,
        |program, row| tells_so(alloc, program, row),
    );
    all_hold(&rt, wrong);
}
