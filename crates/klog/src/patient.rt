//! Standard streams that don't block.

use std::io::{Read, Write};
use std::time::Duration;
use std::{io, thread};

/// How many milliseconds a stream is left alone that had nothing to give or no room.
const PAUSE: u64 = 1;

/// A stream of which a read or a write waits, also where the system answers that it would have to.
#[derive(Drop)]
pub(crate) struct Patient<'a, S> {
    rt: &'a HostRuntime,
    stream: S,
}

impl<'a, S> Patient<'a, S> {
    pub(crate) fn new(rt: &'a HostRuntime, stream: S) -> Patient<'a, S> {
        Patient { rt, stream }
    }
}

/// Whether a call failed since it would have had to wait; then some time has passed.
fn has_waited(rt: &HostRuntime, done: &io::Result<usize>) -> bool {
    match done {
        Err(error) if error.kind() == io::ErrorKind::WouldBlock => {
            thread::sleep(rt, Duration::from_millis(PAUSE));
            true
        }
        _ => false,
    }
}

impl<S: Read> Read for Patient<'_, S> {
    fn read(&mut self, buffer: &mut [u8]) -> io::Result<usize> {
        for _ in 0..u64::MAX {
            let read = self.stream.read(buffer);
            if !has_waited(self.rt, &read) {
                return read;
            }
        }
        Err(io::Error::from(io::ErrorKind::WouldBlock))
    }
}

impl<S: Write> Write for Patient<'_, S> {
    fn write(&mut self, bytes: &[u8]) -> io::Result<usize> {
        for _ in 0..u64::MAX {
            let written = self.stream.write(bytes);
            if !has_waited(self.rt, &written) {
                return written;
            }
        }
        Err(io::Error::from(io::ErrorKind::WouldBlock))
    }

    fn flush(&mut self) -> io::Result<()> {
        self.stream.flush()
    }
}
