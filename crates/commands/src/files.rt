//! The files that a command reads and writes.

ghost use Rattle.std.specs.Prelude.{◌≡◌, ℕ, Bool, true, false, List, [], Option, Some, None, IfOk, OnOk, OnErr, IfSome};
ghost use Rattle.commands.specs.Files.{KeepsAll, KeepsBut, TellsOne};

use crate::endpoint::Endpoint;
use std::io;
use std::io::{Read, Write};

/// Where named files are: the system's, or a test's own. Several names may lead to one file.
pub trait Files {
    /// The bytes that a named file has, where they are known.
    ghost bytes: { Self → List ℕ → Option (List ℕ) } = { λ _ _. None };

    /// Which file a name leads to: names of one file lead to the same.
    ghost leads: { List ℕ → List ℕ } = { λ name. name };

    /// Whether it is known what is written to a file piece by piece, and which names lead to one file.
    ghost tells: { Bool } = { false };

    /// What an opened file is read by.
    type Reader: Read + Drop;

    /// Opens a file to be read, and changes none. An `OutOfMemory` is reported as want of memory, every other error
    /// as that the file can't be read.
    fn open(&mut self, name: &str) -> io::Result<Self::Reader>
        ensures read { (known : List ℕ) → bytes self.old name.now ≡ Some known → IfOk result (λ reader. Self.Reader.remaining reader ≡ Some known) }
        ensures kept { KeepsAll (bytes self.old) (bytes self.new) };

    /// Whether two endpoints are one file, so that what is written to one is lost to the other. It fails as `open`
    /// does.
    fn are_one(&self, one: Endpoint<'_>, other: Endpoint<'_>) -> io::Result<bool>
        ensures { tells ≡ true → IfOk result (TellsOne leads one.entry other.entry) };

    /// Makes a file hold these bytes and no others, or fails as `open` does and changes no file. Other files stay.
    fn write(&mut self, name: &str, content: &[u8]) -> io::Result<()>
        ensures held { OnOk result (IfSome (bytes self.new name.now) (λ known. known ≡ content.now)) }
        ensures kept { KeepsBut leads name.now (bytes self.old) (bytes self.new) }
        ensures failed { OnErr result (KeepsAll (bytes self.old) (bytes self.new)) };

    /// What a file is written by, piece by piece. `flush` puts the pieces where they outlast the program. One that is
    /// dropped, and not closed, leaves its file as it was.
    type Writer: Write + Drop;

    /// Begins a file anew, to be written piece by piece; the name `stdout` is standard output. Until `close` each file
    /// has the bytes that it had. It fails as `open` does.
    fn create(&mut self, name: &str) -> io::Result<Self::Writer>
        ensures empty { tells ≡ true → IfOk result (λ writer. Self.Writer.contents writer ≡ Some []) }
        ensures kept { KeepsAll (bytes self.old) (bytes self.new) };

    /// Ends a file that was begun under this name: it holds what its writer has, or the call fails as `open` does and
    /// changes no file. Other files stay.
    fn close(&mut self, name: &str, writer: Self::Writer) -> io::Result<()>
        ensures held { (held : List ℕ) → Self.Writer.contents writer ≡ Some held → OnOk result (IfSome (bytes self.new name.now) (λ known. known ≡ held)) }
        ensures kept { KeepsBut leads name.now (bytes self.old) (bytes self.new) }
        ensures failed { OnErr result (KeepsAll (bytes self.old) (bytes self.new)) };

    /// Milliseconds since some time, where somebody watches standard error. It changes no file.
    fn watched(&self) -> Option<u64> {
        None
    }
}
