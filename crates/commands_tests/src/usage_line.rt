//! What is said of words that are no call.

use crate::torn::{ALL, answers, whole};
use crate::verdicts::all_hold;
use commands::tell_no_words;
use std::alloc::Global;
use std::io;
use std::sync::Wait;
use std::test::*;
use std::thread::Threads;

/// What is said of them.
const USAGE: &str = "usage: klog COMMAND FILE ...\n";

/// Words that are no call: too few or too many, no command, a help, a word that begins with `-`, a transform of which
/// two files have one name.
static MISUSES: [&[&str]; 15] = [
    &[],
    &["foo"],
    &["--help"],
    &["-h"],
    &["help"],
    &["help", "commands"],
    &["commands", "x"],
    &["commands", "--help"],
    &["version", "x"],
    &["asm", "t"],
    &["dis", "-x"],
    &["explain", "image", "3"],
    &["transform", "i", "b"],
    &["transform", "i", "b", "o", "o"],
    &["transform", "table2", "i", "b", "o", "i"],
];

/// The number of the first words of which something else is said.
fn first_other<R: Threads + Wait + Sync>(rt: &R, alloc: Global, rows: &[&[&str]]) -> Option<usize> {
    for (k, words) in rows.iter().enumerate() {
        if !answers(rt, whole(alloc), words, ALL, (2, &[], USAGE)) {
            return Some(k);
        }
    }
    None
}

#[test]
fn words_that_are_no_call(rt: HostRuntime) {
    all_hold(&rt, first_other(&rt, rt.alloc(), &MISUSES));
}

/// Whether this is said where there are no words for this reason, with this status.
fn is_told(alloc: Global, reason: io::ErrorKind, text: &str, status: u8) -> bool {
    let mut stderr = Vec::new(alloc);
    let told = tell_no_words(&mut stderr, &io::Error::from(reason));
    told.status.code() == status && told.is_written && stderr.as_slice() == text.as_bytes()
}

#[test]
fn words_that_can_not_be_had(rt: HostRuntime) {
    assert!(rt; is_told(rt.alloc(), io::ErrorKind::InvalidData, USAGE, 2));
    assert!(rt; is_told(rt.alloc(), io::ErrorKind::OutOfMemory, "memory\n", 3));
}
