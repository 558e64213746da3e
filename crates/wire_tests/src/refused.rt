//! Calls that memory is refused to. The test passes as it is, and in a run in which one request for
//! memory is refused: `tools/dev/refuse_each.py wire_tests refused::` runs it once for each of its requests.
//! A call that was refused answers in its own form for that, and right when it is made again.

use crate::damage::THREE;
use crate::verdicts::all_hold;
use batch::{Batch, BatchFault, Feed, decode, encode, fits};
use bytes::Bytes;
use std::alloc::Global;
use std::test::*;

/// What a call answers.
#[derive(Clone, Copy)]
enum Answer {
    Right,
    Wrong,
    /// Its own answer where memory ran out.
    Memory,
}

enum Call {
    Decode,
    Encode,
    Feed,
}

/// The calls, with their names.
static CALLS: [(&str, Call); 3] = [
    ("Decode", Call::Decode),
    ("Encode", Call::Encode),
    ("Feed", Call::Feed),
];

fn of(is_right: bool) -> Answer {
    if is_right {
        Answer::Right
    } else {
        Answer::Wrong
    }
}

/// The answer of a call that is refused with this fault.
fn of_fault(fault: BatchFault) -> Answer {
    match fault {
        BatchFault::Memory => Answer::Memory,
        _ => Answer::Wrong,
    }
}

fn decoded(alloc: Global) -> Answer {
    match decode(alloc, Bytes::from_static(THREE)) {
        Ok((batch, used)) => of(used == 104 && batch.records.list.len() == 3),
        Err(fault) => of_fault(fault),
    }
}

/// Whether the batch is written as `THREE`.
fn is_written(alloc: Global, batch: &Batch) -> Answer {
    if !fits(batch) {
        return Answer::Wrong;
    }
    match encode(alloc, batch) {
        Ok(bytes) => of(bytes.as_slice() == THREE),
        Err(_) => Answer::Memory,
    }
}

fn encoded(alloc: Global) -> Answer {
    match decode(alloc, Bytes::from_static(THREE)) {
        Ok((batch, used)) => {
            if used == 104 {
                is_written(alloc, &batch)
            } else {
                Answer::Wrong
            }
        }
        Err(fault) => of_fault(fault),
    }
}

/// Feeds a piece, again where it was refused.
fn feed_piece(feed: &mut Feed, piece: &[u8]) -> bool {
    let before = feed.len();
    match feed.feed(piece) {
        Ok(()) => true,
        Err(_) => feed.len() == before && feed.feed(piece).is_ok(),
    }
}

/// The next batch of a stream, which is asked again where memory ran out.
fn next_of(feed: &mut Feed) -> Result<Option<Batch>, BatchFault> {
    let before = feed.len();
    match feed.next() {
        Err(BatchFault::Memory) => {
            if feed.len() != before {
                return Err(BatchFault::Crc);
            }
            feed.next()
        }
        other => other,
    }
}

/// `THREE` in pieces.
fn fed(alloc: Global) -> Answer {
    let mut feed = Feed::new(alloc);
    for piece in [&THREE[..30], &THREE[30..70], &THREE[70..]] {
        if !matches!(next_of(&mut feed), Ok(None)) || !feed_piece(&mut feed, piece) {
            return Answer::Wrong;
        }
    }
    match next_of(&mut feed) {
        Ok(Some(batch)) => is_written(alloc, &batch),
        _ => Answer::Wrong,
    }
}

fn answer_of(alloc: Global, call: &Call) -> Answer {
    match call {
        Call::Decode => decoded(alloc),
        Call::Encode => encoded(alloc),
        Call::Feed => fed(alloc),
    }
}

/// Makes a call, again where memory was refused. Whether the answer is right.
fn is_made<R: Print>(rt: &R, alloc: Global, name: &str, call: &Call) -> bool {
    let first = answer_of(alloc, call);
    if !matches!(first, Answer::Memory) {
        return matches!(first, Answer::Right);
    }
    let _ = println!(rt; "refused {name}: no memory");
    matches!(answer_of(alloc, call), Answer::Right)
}

/// The number of the first call with a wrong answer.
fn first_wrong<R: Print>(rt: &R, alloc: Global, calls: &[(&str, Call)]) -> Option<usize> {
    for (k, row) in calls.iter().enumerate() {
        if !is_made(rt, alloc, row.0, &row.1) {
            return Some(k);
        }
    }
    None
}

#[test]
fn a_refused_call_can_be_made_again(rt: HostRuntime) {
    all_hold(&rt, first_wrong(&rt, rt.alloc(), &CALLS));
}
