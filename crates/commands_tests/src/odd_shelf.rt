//! A shelf with several names for a file, and with files that can't be written, stored or put in their place.

use crate::shelf::{Shelf, input_of, shelf_of, words_of};
use commands::{Endpoint, Files, Host, command};
use std::alloc::Global;
use std::io;
use std::io::{Cursor, Write};
use std::sync::Wait;
use std::thread::Threads;

/// A shelf on which the name of a file after `to_` leads to that file, too. Standard input is the file `typed`, and
/// standard output the file `printed`.
#[derive(Drop)]
pub(crate) struct OddShelf {
    shelf: Shelf,
    refusals: Refusals,
}

/// What an odd shelf refuses, each by a file's name.
#[derive(Clone, Copy)]
pub(crate) struct Refusals {
    /// The file that takes no byte.
    pub(crate) unwritten: &'static str,
    /// The file whose writer can't be flushed.
    pub(crate) unstored: &'static str,
    /// The file that can't be closed.
    pub(crate) unplaced: &'static str,
}

/// Refuses nothing.
pub(crate) const NONE_REFUSED: Refusals = Refusals {
    unwritten: "",
    unstored: "",
    unplaced: "",
};

/// The name of the file that a name leads to.
fn led_to(name: &str) -> &str {
    name.strip_prefix("to_").unwrap_or(name)
}

/// The name of the file that an endpoint is.
fn file_of<'a>(endpoint: Endpoint<'a>) -> &'a str {
    match endpoint {
        Endpoint::File(name) => led_to(name),
        Endpoint::Stdin => "typed",
        Endpoint::Stdout | Endpoint::UnusedStdout => "printed",
    }
}

impl Files for OddShelf {
    type Reader = Cursor<Vec<u8>>;

    type Writer = OddWriter;

    fn open(&mut self, name: &str) -> io::Result<Cursor<Vec<u8>>> {
        self.shelf.open(led_to(name))
    }

    fn are_one(&self, one: Endpoint<'_>, other: Endpoint<'_>) -> io::Result<bool> {
        Ok(file_of(one) == file_of(other))
    }

    fn write(&mut self, name: &str, content: &[u8]) -> io::Result<()> {
        self.shelf.write(led_to(name), content)
    }

    fn create(&mut self, name: &str) -> io::Result<OddWriter> {
        Ok(OddWriter {
            bytes: self.shelf.create(name)?,
            is_written: name != self.refusals.unwritten,
            is_stored: name != self.refusals.unstored,
        })
    }

    fn close(&mut self, name: &str, writer: OddWriter) -> io::Result<()> {
        if name == self.refusals.unplaced {
            return Err(io::Error::from(io::ErrorKind::ResourceBusy));
        }
        self.shelf.close(led_to(name), writer.bytes)
    }
}

/// What a file of an odd shelf is written by.
#[derive(Drop)]
pub(crate) struct OddWriter {
    bytes: Vec<u8>,
    is_written: bool,
    is_stored: bool,
}

/// Success where it is so, and else a failure for want of room.
fn if_room(is_so: bool) -> io::Result<()> {
    if is_so {
        Ok(())
    } else {
        Err(io::Error::from(io::ErrorKind::StorageFull))
    }
}

impl Write for OddWriter {
    fn write(&mut self, bytes: &[u8]) -> io::Result<usize> {
        if_room(self.is_written)?;
        self.bytes.write(bytes)
    }

    fn flush(&mut self) -> io::Result<()> {
        if_room(self.is_stored)
    }
}

/// An odd shelf with these files, if there is memory for it.
fn odd_shelf(alloc: Global, files: &[(&str, &[u8])], refusals: Refusals) -> Option<OddShelf> {
    let mut shelf = shelf_of(alloc, "empty", &[])?;
    for (name, content) in files {
        shelf.write(name, content).ok()?;
    }
    Some(OddShelf { shelf, refusals })
}

/// Whether the files on a shelf have these bytes.
fn has_files(shelf: &Shelf, files: &[(&str, &[u8])]) -> bool {
    for (name, content) in files {
        match shelf.files.get(*name) {
            Some(bytes) if bytes.as_slice() == *content => {}
            _ => return false,
        }
    }
    true
}

/// A call, and what it answers: its status, and what it says on standard error.
pub(crate) type Answer<'a> = (&'a [&'a str], u8, &'a str);

/// Whether a call with files on an odd shelf answers so, and leaves these files and no other.
pub(crate) fn leaves<R: Threads + Wait + Sync>(
    rt: &R,
    alloc: Global,
    files: &[(&str, &[u8])],
    refusals: Refusals,
    answer: &Answer<'_>,
    left: &[(&str, &[u8])],
) -> bool {
    let shelf = odd_shelf(alloc, files, refusals);
    let (Some(files), Some(words)) = (shelf, words_of(alloc, answer.0)) else {
        return false;
    };
    let Some(stdin) = input_of(alloc, &[]) else {
        return false;
    };
    let mut host = Host {
        alloc,
        files,
        stdin,
        stdout: Vec::new(alloc),
        stderr: Vec::new(alloc),
    };
    let status = command(rt, &mut host, &words).code();
    status == answer.1
        && host.stderr.as_slice() == answer.2.as_bytes()
        && host.files.shelf.files.len() == left.len() + 1
        && has_files(&host.files.shelf, left)
}
