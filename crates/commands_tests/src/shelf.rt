//! Files in memory, words and input of calls.

ghost use Rattle.std.specs.Prelude.{◌≡◌, ◌≢◌, ℕ, List, true, false, Some, IfOk, OnOk, OnErr, IfSome};
ghost use Rattle.std.specs.Bool.{OnTrue};
ghost use Rattle.std.specs.Option.{option_copied};
ghost use Rattle.commands.specs.Files.{KeepsAll, word_of};
ghost use Rattle.commands_tests.specs.Shelves.{bytes_in, left_of};

use commands::{Endpoint, Files, Host};
use std::alloc::Global;
use std::collections::BTreeMap;
use std::io;
use std::io::Cursor;

/// Files in memory, whose bytes are known, and so is what is written to one piece by piece.
#[derive(Drop)]
pub(crate) struct Shelf {
    alloc: Global,
    pub(crate) files: BTreeMap<String, Vec<u8>>,
}

impl Files for Shelf {
    ghost bytes = { λ shelf. bytes_in shelf.files };

    ghost tells = { true };

    type Reader = Cursor<Vec<u8>>;

    type Writer = Vec<u8>;

    fn open(&mut self, name: &str) -> io::Result<Cursor<Vec<u8>>> {
        match self.files.get(name) {
            None => Err(io::Error::from(io::ErrorKind::NotFound)),
            Some(bytes) => reader_of(self.alloc, bytes.as_slice()),
        }
    }

    fn are_one(&self, one: Endpoint<'_>, other: Endpoint<'_>) -> io::Result<bool> {
        match (word_of(one), word_of(other)) {
            (Some(one), Some(other)) => Ok(one == other),
            _ => Ok(false),
        }
    }

    fn create(&mut self, _name: &str) -> io::Result<Vec<u8>> {
        Ok(Vec::new(self.alloc))
    }

    fn close(&mut self, name: &str, writer: Vec<u8>) -> io::Result<()> {
        self.write(name, writer.as_slice())
    }

    fn write(&mut self, name: &str, content: &[u8]) -> io::Result<()>
        ensures held { OnOk result (bytes_in self.new.files name.now ≡ Some content.now) }
        ensures kept { (other : List ℕ) → other ≢ name.now → bytes_in self.new.files other ≡ bytes_in self.old.files other }
        ensures failed { OnErr result (KeepsAll (bytes_in self.old.files) (bytes_in self.new.files)) }
    {
        if is_put(self.alloc, &mut self.files, name, content) {
            Ok(())
        } else {
            Err(io::Error::from(io::ErrorKind::OutOfMemory))
        }
    }
}

/// The word of a call by which an endpoint is meant, if one is.
fn word_of<'a>(endpoint: Endpoint<'a>) -> Option<&'a str>
    ensures { option_copied result ≡ word_of endpoint.entry }
{
    match endpoint {
        Endpoint::File(name) => Some(name),
        Endpoint::Stdin => Some("stdin"),
        Endpoint::Stdout => Some("stdout"),
        Endpoint::UnusedStdout => None,
    }
}

/// Puts a file in place; whether there was memory for it, else all files stay.
#[tactic(auto, using(std::proofs::lemmas::Map::Text::text_keys))]
fn is_put(alloc: Global, files: &mut BTreeMap<String, Vec<u8>>, name: &str, content: &[u8]) -> bool
    ensures held { OnTrue result (bytes_in files.new name.now ≡ Some content.now) }
    ensures kept { (other : List ℕ) → other ≢ name.now → bytes_in files.new other ≡ bytes_in files.old other }
    ensures failed { result ≡ false → KeepsAll (bytes_in files.old) (bytes_in files.new) }
{
    match (
        String::from_str(alloc, name),
        Vec::from_slice(alloc, content),
    ) {
        (Ok(name), Ok(bytes)) => files.insert(name, bytes).is_ok(),
        _ => false,
    }
}

/// A file to read.
fn reader_of(alloc: Global, bytes: &[u8]) -> io::Result<Cursor<Vec<u8>>>
    ensures { IfOk result (λ reader. left_of reader ≡ Some bytes.now) }
{
    let bytes = Vec::from_slice(alloc, bytes)?;
    Ok(Cursor::new(bytes))
}

/// No files.
pub(crate) fn empty_shelf(alloc: Global) -> Shelf {
    Shelf {
        alloc,
        files: BTreeMap::new(alloc),
    }
}

/// A shelf with one file, if there is memory for it.
pub(crate) fn shelf_of(alloc: Global, name: &str, content: &[u8]) -> Option<Shelf> {
    let mut shelf = empty_shelf(alloc);
    shelf.write(name, content).ok()?;
    Some(shelf)
}

/// What a test gives a call: memory, files on a shelf, and a standard input, output and error of bytes.
pub(crate) type TestHost = Host<Shelf, Cursor<Vec<u8>>, Vec<u8>, Vec<u8>>;

/// A shelf and bytes for a call, which has printed nothing yet.
pub(crate) fn host_of(alloc: Global, files: Shelf, stdin: Cursor<Vec<u8>>) -> TestHost {
    Host {
        alloc,
        files,
        stdin,
        stdout: Vec::new(alloc),
        stderr: Vec::new(alloc),
    }
}

/// The words of a call.
pub(crate) fn words_of(alloc: Global, words: &[&str]) -> Option<Vec<String>> {
    let mut all = Vec::new(alloc);
    for word in words {
        all.push(String::from_str(alloc, word).ok()?).ok()?;
    }
    Some(all)
}

/// Bytes to read.
pub(crate) fn input_of(alloc: Global, bytes: &[u8]) -> Option<Cursor<Vec<u8>>>
    ensures { IfSome result (λ input. left_of input ≡ Some bytes.now) }
{
    reader_of(alloc, bytes).ok()
}

/// mov64 r1, 0; call 3; exit
pub(crate) const FORWARD: [u8; 24] = [
    0xb7, 1, 0, 0, 0, 0, 0, 0, 0x85, 0, 0, 0, 3, 0, 0, 0, 0x95, 0, 0, 0, 0, 0, 0, 0,
];

/// Batches that a Kafka client made, of one record and of four.
pub(crate) const BATCHES: [u8; 263] = [
    0x00, 0x00, 0x00, 0x00, 0x00, 0x00, 0x00, 0x00, 0x00, 0x00, 0x00, 0x3a, 0x00, 0x00, 0x00, 0x00,
    0x02, 0xe9, 0x9b, 0x8d, 0xd8, 0x00, 0x00, 0x00, 0x00, 0x00, 0x00, 0x00, 0x00, 0x01, 0x8b, 0xcf,
    0xe5, 0x68, 0x00, 0x00, 0x00, 0x01, 0x8b, 0xcf, 0xe5, 0x68, 0x00, 0xff, 0xff, 0xff, 0xff, 0xff,
    0xff, 0xff, 0xff, 0xff, 0xff, 0xff, 0xff, 0xff, 0xff, 0x00, 0x00, 0x00, 0x01, 0x10, 0x00, 0x00,
    0x00, 0x02, 0x6b, 0x02, 0x76, 0x00, 0x00, 0x00, 0x00, 0x00, 0x00, 0x00, 0x00, 0x00, 0x00, 0x00,
    0x00, 0xb5, 0x00, 0x00, 0x00, 0x00, 0x02, 0x42, 0x8e, 0xa1, 0x4d, 0x00, 0x00, 0x00, 0x00, 0x00,
    0x03, 0x00, 0x00, 0x01, 0x8b, 0xcf, 0xe5, 0x68, 0x00, 0x00, 0x00, 0x01, 0x8b, 0xcf, 0xe5, 0x68,
    0x05, 0x00, 0x00, 0x00, 0x00, 0x00, 0x00, 0x12, 0x67, 0x00, 0x03, 0x00, 0x00, 0x00, 0x0c, 0x00,
    0x00, 0x00, 0x04, 0x10, 0x00, 0x00, 0x00, 0x02, 0x6b, 0x02, 0x76, 0x00, 0x1e, 0x00, 0x0a, 0x02,
    0x01, 0x00, 0x04, 0x02, 0x68, 0x01, 0x04, 0xc3, 0xa4, 0x04, 0x78, 0x00, 0x0c, 0x00, 0x01, 0x04,
    0x00, 0x01, 0x00, 0xc4, 0x01, 0x00, 0x0a, 0x06, 0x14, 0x6c, 0x6f, 0x6e, 0x67, 0x65, 0x72, 0x20,
    0x6b, 0x65, 0x79, 0x94, 0x01, 0x61, 0x20, 0x76, 0x61, 0x6c, 0x75, 0x65, 0x20, 0x6f, 0x66, 0x20,
    0x6d, 0x6f, 0x72, 0x65, 0x20, 0x74, 0x68, 0x61, 0x6e, 0x20, 0x73, 0x69, 0x78, 0x74, 0x79, 0x2d,
    0x74, 0x68, 0x72, 0x65, 0x65, 0x20, 0x62, 0x79, 0x74, 0x65, 0x73, 0x2c, 0x20, 0x73, 0x6f, 0x20,
    0x74, 0x68, 0x61, 0x74, 0x20, 0x69, 0x74, 0x73, 0x20, 0x6c, 0x65, 0x6e, 0x67, 0x74, 0x68, 0x20,
    0x74, 0x61, 0x6b, 0x65, 0x73, 0x20, 0x74, 0x77, 0x6f, 0x20, 0x62, 0x79, 0x74, 0x65, 0x73, 0x02,
    0x0a, 0x65, 0x6d, 0x70, 0x74, 0x79, 0x00,
];
