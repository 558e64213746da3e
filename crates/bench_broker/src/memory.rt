//! How much memory the process has had.

use std::alloc::Alloc;
use std::fs::{self, Files};
use std::io;

/// The most memory that the process had so far, in kB; 0 where the system does not say.
pub(crate) fn peak_memory<R: Files + Alloc>(rt: &R) -> io::Result<u64> {
    let status = fs::read_to_string(rt, "/proc/self/status")?;
    for line in status.lines() {
        if let Some(amount) = line.strip_prefix("VmHWM:") {
            return Ok(number_of(amount));
        }
    }
    Ok(0)
}

/// The first number of a line.
fn number_of(line: &str) -> u64 {
    match line.split_whitespace().next() {
        Some(word) => word.parse::<u64>().unwrap_or(0),
        None => 0,
    }
}
