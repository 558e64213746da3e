//! How far a transform is, for somebody who watches it.

use crate::files::Files;
use crate::telling::say;
use batch_reader::Position;
use std::alloc::{AllocError, Global};
use std::io::Write;
use transform::Watch;

/// How many milliseconds pass between two lines.
const PAUSE: u64 = 1000;

/// Says once a second on standard error how far a transform is, where somebody watches that.
#[derive(Drop)]
pub struct Progress<'a, F, E> {
    alloc: Global,
    files: &'a F,
    stderr: &'a mut E,
    /// When the last line was written, and how many records had been read.
    last: u64,
    records: u64,
}

impl<'a, F: Files, E: Write> Progress<'a, F, E> {
    /// At the start.
    pub fn new(alloc: Global, files: &'a F, stderr: &'a mut E) -> Progress<'a, F, E> {
        let last = files.watched().unwrap_or(0);
        Progress {
            alloc,
            files,
            stderr,
            last,
            records: 0,
        }
    }
}

impl<F: Files, E: Write> Watch for Progress<'_, F, E> {
    fn batch_done(&mut self, position: Position, records: u64) {
        let Some(now) = self.files.watched() else {
            return;
        };
        let passed = now.saturating_sub(self.last);
        if passed < PAUSE {
            return;
        }
        let speed = records.saturating_sub(self.records).saturating_mul(1000) / passed;
        if let Ok(line) = line_of(self.alloc, position.bytes, records, speed) {
            say(self.stderr, line.as_str());
        }
        self.last = now;
        self.records = records;
    }
}

/// `bytes B records N records/s S`
fn line_of(alloc: Global, bytes: u64, records: u64, speed: u64) -> Result<String, AllocError> {
    format!(in alloc; "bytes {bytes} records {records} records/s {speed}\n")
}
