//! What calls answer where a reader or a writer fails.

use crate::torn::{ALL, Torn, answers, whole};
use crate::verdicts::all_hold;
use std::alloc::Global;
use std::sync::Wait;
use std::test::*;
use std::thread::Threads;

/// The lines of the first batch, and of both.
const LISTED_ONE: &str = "position: 0 baseOffset: 0 count: 1 size: 70 baseTimestamp: 1700000000000 \
    maxTimestamp: 1700000000000 partitionLeaderEpoch: 0 producerId: -1 producerEpoch: -1 \
    baseSequence: -1\n";

const LISTED: &str = "position: 0 baseOffset: 0 count: 1 size: 70 baseTimestamp: 1700000000000 \
    maxTimestamp: 1700000000000 partitionLeaderEpoch: 0 producerId: -1 producerEpoch: -1 \
    baseSequence: -1\n\
    position: 70 baseOffset: 0 count: 4 size: 193 baseTimestamp: 1700000000000 \
    maxTimestamp: 1700000000005 partitionLeaderEpoch: 0 producerId: 4711 producerEpoch: 3 \
    baseSequence: 12\n";

/// What calls with files that don't fail write to standard output; standard input has the batches.
static TEXTS: [(&[&str], &str); 8] = [
    (
        &["run", "script"],
        "load f version 1\ndeploy 0 index 0 f version 1\nappend 0 index 1 base 0\n\
        row 0 0 0 0 1000 6b 76 0\nout 0 in 0 done 2 rows 1\nout 1 in 0 done 2 rows 0\n\
        in 0 items 2 records 1 unprogrammed 0 kept 1\n\
        00000000000000000000003a0000000002716a618900000000000000000000000003e8\
        00000000000003e8ffffffffffffffffffffffffffff0000000110000000026b027600\n\
        none\n",
    ),
    (&["check", "image"], "accepted 3 instructions\n"),
    (
        &["commands"],
        "klog asm TEXT IMAGE\nklog batches FILE\nklog check IMAGE [1 or 2]\nklog commands\n\
        klog explain IMAGE [1 or 2] [refused]\nklog dis IMAGE\nklog recheck LIST\n\
        klog records FILE\nklog rule TEXT PROGRAM\nklog run SCRIPT\n\
        klog transform [table2] IMAGE IN OUT ..\nklog version\n",
    ),
    (&["version"], "klog 1.1.0\n"),
    (&["dis", "image"], "mov64 r1, 0\ncall 3\nexit\n"),
    (
        &["recheck", "list"],
        "image accepted 3 instructions\nimage accepted 3 instructions\n",
    ),
    (
        &["explain", "image"],
        "0 slot 0: mov64 r1, 0\n\x20 r1: value+0  r2: length of value  r3: key+0  r4: length of key  \
        r5: 0 to 3  r10: stack+512\n1 slot 1: call 3\n\x20 r1: 0  r2: length of value  r3: key+0  \
        r4: length of key  r5: 0 to 3  r10: stack+512\n2 slot 2: exit\n\x20 r0: 0 to 3  r10: stack+512\n\
        ok\n",
    ),
    (&["batches", "stdin"], LISTED),
];

/// Whether a call whose standard output takes so many bytes writes those of the text, and fails where
/// they are not all.
fn has_beginning<R: Threads + Wait + Sync>(
    rt: &R,
    alloc: Global,
    words: &[&str],
    text: &[u8],
    room: usize,
) -> bool {
    match text.get(..room) {
        Some(begin) if room < text.len() => {
            answers(rt, whole(alloc), words, room, (3, begin, "file stdout\n"))
        }
        _ => answers(rt, whole(alloc), words, room, (0, text, "")),
    }
}

/// Whether a call whose standard output takes each number of bytes has written a beginning of the text.
fn has_beginnings<R: Threads + Wait + Sync>(
    rt: &R,
    alloc: Global,
    words: &[&str],
    text: &[u8],
) -> bool {
    for room in 0..=text.len() {
        if !has_beginning(rt, alloc, words, text, room) {
            return false;
        }
    }
    true
}

/// The number of the first call that has written something else.
fn first_other<R: Threads + Wait + Sync>(
    rt: &R,
    alloc: Global,
    rows: &[(&[&str], &str)],
) -> Option<usize> {
    for (k, row) in rows.iter().enumerate() {
        if !has_beginnings(rt, alloc, row.0, row.1.as_bytes()) {
            return Some(k);
        }
    }
    None
}

#[test]
fn a_failed_output_has_a_beginning(rt: HostRuntime) {
    all_hold(&rt, first_other(&rt, rt.alloc(), &TEXTS));
}

/// What is said of the batches that go through a program.
const REPORT: &str = "out 0 in 0 done 3 rows 5\nin 0 items 3 records 5 unprogrammed 0 kept 5\n";

/// The same where their file takes too little.
const CUT_REPORT: &str =
    "out 0 in 0 done 3 rows 5\nin 0 items 3 records 5 unprogrammed 0 kept 5\nfile out\n";

/// How many bytes the batch of these rows has.
const SIZE: usize = 202;

/// Whether batches go through a program into a file that takes so many bytes, or this is said where
/// these are too few.
fn is_transformed<R: Threads + Wait + Sync>(rt: &R, alloc: Global, room: usize) -> bool {
    let words = ["transform", "image", "batches", "out"];
    let (status, said) = if room < SIZE {
        (3, CUT_REPORT)
    } else {
        (0, REPORT)
    };
    let files = Torn {
        alloc,
        fails: 0,
        room,
    };
    answers(rt, files, &words, ALL, (status, &[], said))
}

/// The first room of a file of rows with another answer.
fn first_wrong_room<R: Threads + Wait + Sync>(rt: &R, alloc: Global) -> Option<usize> {
    for room in 0..=SIZE {
        if !is_transformed(rt, alloc, room) {
            return Some(room);
        }
    }
    None
}

#[test]
fn a_failed_file_of_rows_is_reported(rt: HostRuntime) {
    all_hold(&rt, first_wrong_room(&rt, rt.alloc()));
}

/// Words of a call, the first and the last call of a reader of which each ends it, and what it has written to standard
/// output and error then.
type Cut = (
    &'static [&'static str],
    usize,
    usize,
    &'static str,
    &'static str,
);

static CUTS: [Cut; 14] = [
    (&["run", "appending"], 1, 70, "", "file batches\n"),
    (
        &["run", "appending"],
        71,
        263,
        "append 0 index 0 base 0\n",
        "file batches\n",
    ),
    (
        &["run", "appending"],
        264,
        264,
        "append 0 index 0 base 0\nappend 0 index 1 base 1\n",
        "file batches\n",
    ),
    (&["check", "image"], 1, 25, "", "file image\n"),
    (&["dis", "image"], 1, 25, "", "file image\n"),
    (&["explain", "image"], 1, 25, "", "file image\n"),
    (&["recheck", "list"], 1, 15, "", "file list\n"),
    (&["batches", "batches"], 1, 70, "", "file batches\n"),
    (
        &["batches", "batches"],
        71,
        263,
        LISTED_ONE,
        "file batches\n",
    ),
    (&["batches", "batches"], 264, 264, LISTED, "file batches\n"),
    (
        &["transform", "image", "batches", "out"],
        1,
        25,
        "",
        "file image\n",
    ),
    (
        &["transform", "some.rules", "batches", "out"],
        1,
        10,
        "",
        "file some.rules\n",
    ),
    (
        &["transform", "image", "batches", "out"],
        26,
        70,
        "",
        "out 0 in 0 done 1 rows 0\nin 0 items 1 records 0 unprogrammed 0 kept 0\nfile batches\n",
    ),
    (
        &["transform", "image", "batches", "out"],
        71,
        263,
        "",
        "out 0 in 0 done 2 rows 1\nin 0 items 2 records 1 unprogrammed 0 kept 1\nfile batches\n",
    ),
];

/// Whether a call answers so where readers fail at that call.
fn is_cut<R: Threads + Wait + Sync>(rt: &R, alloc: Global, row: &Cut, fails: usize) -> bool {
    let files = Torn {
        alloc,
        fails,
        room: ALL,
    };
    answers(rt, files, row.0, ALL, (3, row.3.as_bytes(), row.4))
}

/// The first call of a reader after whose failure a call answers something else.
fn first_wrong_read<R: Threads + Wait + Sync>(rt: &R, alloc: Global, row: &Cut) -> Option<usize> {
    for fails in row.1..=row.2 {
        if !is_cut(rt, alloc, row, fails) {
            return Some(fails);
        }
    }
    None
}

/// The number of the first row with such a call, and the call.
fn first_wrong_row<R: Threads + Wait + Sync>(
    rt: &R,
    alloc: Global,
    rows: &[Cut],
) -> Option<(usize, usize)> {
    for (k, row) in rows.iter().enumerate() {
        if let Some(fails) = first_wrong_read(rt, alloc, row) {
            return Some((k, fails));
        }
    }
    None
}

#[test]
fn a_failed_input_leaves_what_was_read_before(rt: HostRuntime) {
    let wrong = first_wrong_row(&rt, rt.alloc(), &CUTS);
    assert!(rt; wrong.is_none(), "row and call {wrong:?}");
}
