//! What the lines of a session append.

ghost use Rattle.broker.specs.Layouts.{IsNamed};

use crate::shelf::empty_shelf;
use broker::Parts;
use catalogue::Catalogue;
use commands::{Session, Stop};
use part_log::{Names, Receipt};
use std::alloc::Global;
use std::marker::Brand;
use std::sync::Wait;
use std::test::*;
use std::thread::Threads;
use wire_spec::BatchFault;

/// A batch of one record: key `k`, value `v`, timestamp 0.
const ONE: &str =
    "00000000000000000000003a0000000002fe917cab00000000000000000000000000000000000000000000ffffffffffffffffffffffffffff0000000110000000026b027600";

/// The pieces, one after the other. None where memory ran out.
fn joined(alloc: Global, pieces: &[&str]) -> Option<String> {
    let mut text = String::new(alloc);
    for piece in pieces {
        let Ok(()) = text.push_str(piece) else {
            return None;
        };
    }
    Some(text)
}

/// A line that appends two batches and is then refused, since the third is cut.
fn cut_line(alloc: Global) -> Option<String> {
    joined(alloc, &["append 0 hex:", ONE, ONE, ONE.get(..138)?])
}

/// Where the item of each receipt is in its log, and how many records are before it.
static PLACES: [(usize, u64); 3] = [(0, 0), (1, 1), (2, 2)];

const PRINTED: &str = "append 0 index 0 base 0\nappend 0 index 1 base 1\nappend 0 index 2 base 2\n";

fn are_at<Id: Names>(receipts: &[Receipt<Id>], places: &[(usize, u64)]) -> bool {
    let mut rest = places;
    for receipt in receipts {
        match rest.split_first() {
            Some(((index, base), others)) if receipt.index() == *index && receipt.base() == *base =>
                {
                    rest = others;
                }
            _ => return false,
        }
    }
    rest.is_empty()
}

/// Whether a line is refused inside a batch, and the next one appends after the batches before that.
fn goes_on<Id: Names + Send + Sync, R: Threads + Wait + Sync>(
    alloc: Global,
    session: &mut Session<'_, Id, R>,
    refused: &String,
) -> bool {
    let mut files = empty_shelf(alloc);
    let mut receipts = Vec::new(alloc);
    let mut stdout = Vec::new(alloc);
    let is_short = matches!(
        session.line(&mut files, &mut stdout, refused.as_str(), &mut receipts),
        Err(Stop::Batch(BatchFault::Short))
    );
    let is_put = session
        .line(&mut files, &mut stdout, "put 0 0 - -", &mut receipts)
        .is_ok();
    is_short && is_put && are_at(&receipts, &PLACES) && stdout.as_slice() == PRINTED.as_bytes()
}

fn goes_on_anew<Id: Names + Send + Sync, R: Threads + Wait + Sync>(
    rt: &R,
    alloc: Global,
    parts: Parts<Catalogue<&R>>,
    refused: &String,
) -> bool
    requires { IsNamed Id.cells Id.inputs Id.outputs parts }
{
    let made: Result<Session<'_, Id, R>, _> = Session::new(rt, alloc, parts);
    match made {
        Ok(mut session) => goes_on(alloc, &mut session, refused),
        Err(_) => false,
    }
}

fn keeps<R: Threads + Wait + Sync>(rt: &R, alloc: Global) -> bool {
    match (cut_line(alloc), Parts::new(rt, alloc, 1, 1, 8)) {
        (Some(refused), Ok(parts)) => { goes_on_anew::<Brand, R>(rt, alloc, parts, &refused) }
        _ => false,
    }
}

/// The batches before a cut one are in the log.
#[test]
fn keeps_the_receipts_before_a_fault(rt: HostRuntime) {
    assert!(rt; keeps(&rt, rt.alloc()));
}
