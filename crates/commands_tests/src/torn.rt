//! Files whose readers give a byte at each call and fail at one of them, and writers that fail after a number of bytes.

use crate::shelf::{BATCHES, FORWARD, input_of, words_of};
use commands::{Endpoint, Files, Host, command};
use std::alloc::Global;
use std::io;
use std::io::{Cursor, Read, Write};
use std::sync::Wait;
use std::thread::Threads;

/// Gives one byte at each call, and fails at one call, which is counted from 1.
#[derive(Drop)]
pub(crate) struct Breaking {
    bytes: Cursor<Vec<u8>>,
    calls: usize,
    fails: usize,
}

impl Read for Breaking {
    fn read(&mut self, buffer: &mut [u8]) -> io::Result<usize> {
        self.calls = self.calls.saturating_add(1);
        if self.calls == self.fails {
            return Err(io::Error::from(io::ErrorKind::Other));
        }
        let most = buffer.len().min(1);
        self.bytes.read(&mut buffer[..most])
    }
}

fn reader_of(alloc: Global, bytes: &[u8], fails: usize) -> io::Result<Breaking> {
    match input_of(alloc, bytes) {
        Some(bytes) => Ok(Breaking {
            bytes,
            calls: 0,
            fails,
        }),
        None => Err(io::Error::from(io::ErrorKind::OutOfMemory)),
    }
}

/// Files of scripts, of two batches, of an image, of rules and of a list of images. Each of their readers but those of scripts
/// fails at that call, if that is not 0. A file that is created takes `room` bytes.
#[derive(Drop)]
pub(crate) struct Torn {
    pub(crate) alloc: Global,
    pub(crate) fails: usize,
    pub(crate) room: usize,
}

/// Files of which no reader fails.
pub(crate) fn whole(alloc: Global) -> Torn {
    Torn {
        alloc,
        fails: 0,
        room: ALL,
    }
}

impl Files for Torn {
    type Reader = Breaking;

    type Writer = Narrow;

    fn open(&mut self, name: &str) -> io::Result<Breaking> {
        match name {
            "script" => reader_of(self.alloc, SCRIPT.as_bytes(), 0),
            "appending" => reader_of(self.alloc, APPENDING.as_bytes(), 0),
            "batches" => reader_of(self.alloc, &BATCHES, self.fails),
            "image" => reader_of(self.alloc, &FORWARD, self.fails),
            "some.rules" => reader_of(self.alloc, b"output 0\n", self.fails),
            "list" => reader_of(self.alloc, b"image\nimage 2\n", self.fails),
            _ => Err(io::Error::from(io::ErrorKind::NotFound)),
        }
    }

    fn are_one(&self, _one: Endpoint<'_>, _other: Endpoint<'_>) -> io::Result<bool> {
        Ok(false)
    }

    fn write(&mut self, _name: &str, _content: &[u8]) -> io::Result<()> {
        Err(io::Error::from(io::ErrorKind::PermissionDenied))
    }

    fn create(&mut self, _name: &str) -> io::Result<Narrow> {
        Ok(Narrow {
            taken: Vec::new(self.alloc),
            room: self.room,
        })
    }

    fn close(&mut self, _name: &str, _writer: Narrow) -> io::Result<()> {
        Ok(())
    }
}

/// Takes `room` bytes and then fails.
#[derive(Drop)]
pub(crate) struct Narrow {
    taken: Vec<u8>,
    room: usize,
}

impl Write for Narrow {
    fn write(&mut self, bytes: &[u8]) -> io::Result<usize> {
        if self.room == 0 {
            return Err(io::Error::from(io::ErrorKind::BrokenPipe));
        }
        let count = bytes.len().min(self.room);
        self.taken.extend_from_slice(&bytes[..count])?;
        self.room -= count;
        Ok(count)
    }

    fn flush(&mut self) -> io::Result<()> {
        Ok(())
    }
}

/// What a call answers: its status, and what it writes to standard output and error.
type Called = (u8, Vec<u8>, Vec<u8>);

/// A call with a standard output that takes so many bytes.
fn bytes_of<R: Threads + Wait + Sync>(
    rt: &R,
    files: Torn,
    words: &[String],
    stdin: Cursor<Vec<u8>>,
    room: usize,
) -> Called {
    let alloc = files.alloc;
    let mut host = Host {
        alloc,
        files,
        stdin,
        stdout: Narrow {
            taken: Vec::new(alloc),
            room,
        },
        stderr: Vec::new(alloc),
    };
    let status = command(rt, &mut host, words);
    (status.code(), host.stdout.taken, host.stderr)
}

/// Whether a call with these files and a standard output that takes so many bytes answers this.
pub(crate) fn answers<R: Threads + Wait + Sync>(
    rt: &R,
    files: Torn,
    words: &[&str],
    room: usize,
    want: (u8, &[u8], &str),
) -> bool {
    match (
        words_of(files.alloc, words),
        input_of(files.alloc, &BATCHES),
    ) {
        (Some(words), Some(stdin)) => {
            let got = bytes_of(rt, files, &words, stdin, room);
            got.0 == want.0 && got.1.as_slice() == want.1 && got.2.as_slice() == want.2.as_bytes()
        }
        _ => false,
    }
}

/// Room for all that a call writes.
pub(crate) const ALL: usize = 10_000;

/// Prints a row, a report and a fetched batch.
const SCRIPT: &str =
    "partitions 1 2 8\nload f image\ndeploy 0 f\nput 0 1000 6b 76\ngo\nfetch 0 0 9\n\
    fetch 1 0 9\n";

/// Appends two batches.
const APPENDING: &str = "partitions 1 1 8\nappend 0 batches\n";
