//! A writer that is interrupted before each piece that it takes.

use std::io;
use std::io::Write;

/// Takes all bytes, and none in every other call.
#[derive(Drop)]
pub(crate) struct Interrupted {
    pub(crate) taken: Vec<u8>,
    pub(crate) is_interrupted: bool,
}

impl Write for Interrupted {
    fn write(&mut self, bytes: &[u8]) -> io::Result<usize> {
        self.is_interrupted = !self.is_interrupted;
        if self.is_interrupted {
            return Err(io::Error::from(io::ErrorKind::Interrupted));
        }
        self.taken.extend_from_slice(bytes)?;
        Ok(bytes.len())
    }

    fn flush(&mut self) -> io::Result<()> {
        Ok(())
    }
}
