//! A writer that keeps no byte.

use std::io;
use std::io::Write;

/// Takes all bytes and keeps none.
#[derive(Drop)]
pub struct Sink;

impl Write for Sink {
    fn write(&mut self, bytes: &[u8]) -> io::Result<usize> {
        Ok(bytes.len())
    }

    fn flush(&mut self) -> io::Result<()> {
        Ok(())
    }
}
