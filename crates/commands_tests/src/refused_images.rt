//! What the files of a transform have whose image, program file or text of rules is refused, or can't be read.

use crate::shelf::{BATCHES, FORWARD, Shelf, TestHost, host_of, input_of, shelf_of, words_of};
use crate::verdicts::all_hold;
use commands::{Files, command};
use std::alloc::Global;
use std::sync::Wait;
use std::test::*;
use std::thread::Threads;

/// exit, with no number in r0.
const REFUSED: [u8; 8] = [0x95, 0, 0, 0, 0, 0, 0, 0];

/// What is before the image in the file of a program of table 1 whose image has 24 bytes.
const HEADER: &[u8; 16] = b"KLOG\x01\0\0\0\x01\0\0\0\x18\0\0\0";

/// What the files of the output partitions have before.
const BEFORE: &[u8] = b"before";

/// Images, program files and texts of rules, each with the status of its transform, and whether the files have then what
/// they had before.
static IMAGES: [(&str, u8, bool); 10] = [
    ("forward", 0, false),
    ("file", 0, false),
    ("short", 1, true),
    ("refused", 1, true),
    ("cut", 1, true),
    ("none", 3, true),
    ("all.rules", 0, false),
    ("faulty.rules", 1, true),
    ("binary.rules", 0, false),
    ("none.rules", 3, true),
];

/// The file of a program, of which the image is cut to this length, if there is memory for it.
fn file_of(alloc: Global, length: usize) -> Option<Vec<u8>> {
    let mut bytes = Vec::from_slice(alloc, HEADER).ok()?;
    bytes.extend_from_slice(FORWARD.get(..length)?).ok()?;
    Some(bytes)
}

/// A shelf with images, texts of rules and the files of two output partitions, if there is memory for it.
fn full_shelf(alloc: Global) -> Option<Shelf> {
    let mut shelf = shelf_of(alloc, "forward", &FORWARD)?;
    shelf.write("refused", &REFUSED).ok()?;
    shelf.write("cut", &FORWARD[..7]).ok()?;
    shelf.write("file", &file_of(alloc, 24)?).ok()?;
    shelf.write("short", &file_of(alloc, 23)?).ok()?;
    shelf.write("all.rules", b"output 0\noutput 1\n").ok()?;
    shelf.write("faulty.rules", b"output 0\noutput 64\n").ok()?;
    shelf
        .write("binary.rules", b"drop when key = \"\xff\"\n")
        .ok()?;
    shelf.write("one", BEFORE).ok()?;
    shelf.write("other", BEFORE).ok()?;
    Some(shelf)
}

/// Whether a file has what it had before.
fn is_kept(files: &Shelf, name: &str) -> bool {
    match files.files.get(name) {
        Some(bytes) => bytes.as_slice() == BEFORE,
        None => false,
    }
}

/// Whether a transform ends with this status, and both files are kept, or both are not.
fn ends_so<R: Threads + Wait + Sync>(
    rt: &R,
    host: &mut TestHost,
    words: &[String],
    want: (u8, bool),
) -> bool {
    let status = command(rt, host, words);
    let files = &host.files;
    status.code() == want.0 && is_kept(files, "one") == want.1 && is_kept(files, "other") == want.1
}

/// The same of the transform with this image.
fn leaves<R: Threads + Wait + Sync>(rt: &R, alloc: Global, image: &str, want: (u8, bool)) -> bool {
    match (
        words_of(alloc, &["transform", image, "stdin", "one", "other"]),
        full_shelf(alloc),
        input_of(alloc, &BATCHES),
    ) {
        (Some(words), Some(files), Some(stdin)) => {
            ends_so(rt, &mut host_of(alloc, files, stdin), &words, want)
        }
        _ => false,
    }
}

/// The number of the first image that leaves other files.
fn first_wrong<R: Threads + Wait + Sync>(
    rt: &R,
    alloc: Global,
    rows: &[(&str, u8, bool)],
) -> Option<usize> {
    for (k, row) in rows.iter().enumerate() {
        if !leaves(rt, alloc, row.0, (row.1, row.2)) {
            return Some(k);
        }
    }
    None
}

#[test]
fn a_refused_image_leaves_the_files(rt: HostRuntime) {
    all_hold(&rt, first_wrong(&rt, rt.alloc(), &IMAGES));
}
