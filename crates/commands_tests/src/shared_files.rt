//! Files of a call that are one file, and files that can't be stored or put in their place.

use crate::odd_shelf::{Answer, NONE_REFUSED, Refusals, leaves};
use crate::shelf::{BATCHES, FORWARD};
use crate::verdicts::all_hold;
use std::alloc::Global;
use std::sync::Wait;
use std::test::*;
use std::thread::Threads;

/// The text of the image that forwards records.
const TEXT: &[u8] = b"mov64 r1, 0\ncall 3\nexit\n";

/// Files before a call.
const BEFORE: [(&str, &[u8]); 4] = [
    ("image", &FORWARD),
    ("in", &BATCHES),
    ("text", TEXT),
    ("old", b"old"),
];

/// Calls that are refused since a file that they write is another one of theirs.
static SHARED: [Answer<'static>; 12] = [
    (&["transform", "image", "in", "to_in"], 3, "file to_in\n"),
    (
        &["transform", "image", "in", "to_image"],
        3,
        "file to_image\n",
    ),
    (
        &["transform", "image", "in", "old", "to_old"],
        3,
        "file to_old\n",
    ),
    (
        &["transform", "image", "in", "new", "to_new"],
        3,
        "file to_new\n",
    ),
    (
        &["transform", "image", "in", "new", "old", "to_new"],
        3,
        "file to_new\n",
    ),
    (&["transform", "image", "stdin", "typed"], 3, "file typed\n"),
    (&["transform", "image", "in", "typed"], 3, "file typed\n"),
    (
        &["transform", "image", "in", "stdout", "printed"],
        3,
        "file printed\n",
    ),
    (
        &["transform", "image", "in", "printed"],
        3,
        "file printed\n",
    ),
    (&["asm", "text", "to_text"], 3, "file to_text\n"),
    (&["asm", "text", "typed"], 3, "file typed\n"),
    (&["asm", "text", "printed"], 3, "file printed\n"),
];

/// The number of the first of these calls that answers otherwise, or changes a file.
fn first_other<R: Threads + Wait + Sync>(
    rt: &R,
    alloc: Global,
    rows: &[Answer<'static>],
) -> Option<usize> {
    for (k, row) in rows.iter().enumerate() {
        if !leaves(rt, alloc, &BEFORE, NONE_REFUSED, row, &BEFORE) {
            return Some(k);
        }
    }
    None
}

#[test]
fn files_that_are_one_file_are_refused(rt: HostRuntime) {
    all_hold(&rt, first_other(&rt, rt.alloc(), &SHARED));
}

/// mov64 r0, 0; exit
const NO_ROWS: [u8; 16] = [0xb7, 0, 0, 0, 0, 0, 0, 0, 0x95, 0, 0, 0, 0, 0, 0, 0];

/// The files of three output partitions, by what they have.
fn files_with<'a>(contents: [&'a [u8]; 3]) -> [(&'a str, &'a [u8]); 7] {
    [
        ("none", &NO_ROWS),
        ("forward", &FORWARD),
        ("in", &BATCHES),
        ("cut", &BATCHES[..262]),
        ("a", contents[0]),
        ("b", contents[1]),
        ("c", contents[2]),
    ]
}

/// A call that writes three files, what is refused, what it answers, and whether each of its files is a new one then,
/// which has no rows.
type Ending = (Refusals, Answer<'static>, [bool; 3]);

static ENDINGS: [Ending; 5] = [
    (
        NONE_REFUSED,
        (
            &["transform", "none", "in", "a", "b", "c"],
            0,
            "out 0 in 0 done 3 rows 0\nout 1 in 0 done 3 rows 0\nout 2 in 0 done 3 rows 0\n\
            in 0 items 3 records 5 unprogrammed 0 kept 5\n",
        ),
        [true, true, true],
    ),
    (
        NONE_REFUSED,
        (
            &["transform", "none", "cut", "a", "b", "c"],
            1,
            "out 0 in 0 done 2 rows 0\nout 1 in 0 done 2 rows 0\nout 2 in 0 done 2 rows 0\n\
            in 0 items 2 records 1 unprogrammed 0 kept 1\n\
            batch 1 at byte 70: B1 Short: the file ends after 192 bytes, and batchLength is 181\n",
        ),
        [true, true, true],
    ),
    (
        Refusals {
            unwritten: "a",
            unstored: "",
            unplaced: "",
        },
        (
            &["transform", "forward", "in", "a", "b", "c"],
            3,
            "out 0 in 0 done 3 rows 5\nout 1 in 0 done 3 rows 0\nout 2 in 0 done 3 rows 0\n\
            in 0 items 3 records 5 unprogrammed 0 kept 5\nfile a\n",
        ),
        [false, false, false],
    ),
    (
        Refusals {
            unwritten: "",
            unstored: "b",
            unplaced: "",
        },
        (
            &["transform", "none", "in", "a", "b", "c"],
            3,
            "out 0 in 0 done 3 rows 0\nout 1 in 0 done 3 rows 0\nout 2 in 0 done 3 rows 0\n\
            in 0 items 3 records 5 unprogrammed 0 kept 5\nfile b\n",
        ),
        [false, false, false],
    ),
    (
        Refusals {
            unwritten: "",
            unstored: "",
            unplaced: "b",
        },
        (
            &["transform", "none", "in", "a", "b", "c"],
            3,
            "out 0 in 0 done 3 rows 0\nout 1 in 0 done 3 rows 0\nout 2 in 0 done 3 rows 0\n\
            in 0 items 3 records 5 unprogrammed 0 kept 5\nfile b\n",
        ),
        [true, false, false],
    ),
];

/// What a file has that had `old`, or is a new one without rows.
fn content(is_new: bool) -> &'static [u8] {
    if is_new { b"" } else { b"old" }
}

/// The number of the first of these calls that answers otherwise, or leaves other files.
fn first_wrong<R: Threads + Wait + Sync>(rt: &R, alloc: Global, rows: &[Ending]) -> Option<usize> {
    let before = files_with([b"old", b"old", b"old"]);
    for (k, (refusals, answer, new)) in rows.iter().enumerate() {
        let left = files_with([content(new[0]), content(new[1]), content(new[2])]);
        if !leaves(rt, alloc, &before, *refusals, answer, &left) {
            return Some(k);
        }
    }
    None
}

#[test]
fn each_file_is_old_or_new(rt: HostRuntime) {
    all_hold(&rt, first_wrong(&rt, rt.alloc(), &ENDINGS));
}
