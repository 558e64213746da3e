//! The files of the system.

use crate::file_id;
use crate::new_file::NewFile;
use crate::patient::Patient;
use crate::target::{Target, target_of};
use commands::{Endpoint, Files};
use std::fs::File;
use std::io::{Stdout, Write};
use std::time::Instant;
use std::{fs, io};

/// What is written: a file beside the one that it replaces, one in place, or standard output.
#[derive(Drop)]
pub(crate) enum HostWriter<'a> {
    Beside(NewFile<'a>),
    InPlace(File),
    Stdout(Patient<'a, Stdout>),
}

impl Write for HostWriter<'_> {
    fn write(&mut self, bytes: &[u8]) -> io::Result<usize> {
        match self {
            HostWriter::Beside(file) => file.write(bytes),
            HostWriter::InPlace(file) => file.write(bytes),
            HostWriter::Stdout(stdout) => stdout.write(bytes),
        }
    }

    fn flush(&mut self) -> io::Result<()> {
        match self {
            HostWriter::Beside(file) => file.flush(),
            HostWriter::InPlace(file) => file.flush(),
            HostWriter::Stdout(stdout) => stdout.flush(),
        }
    }
}

/// The files of the system.
#[derive(Drop)]
pub(crate) struct HostFiles<'a> {
    rt: &'a HostRuntime,
    /// When the program began, if somebody watches standard error.
    start: Option<Instant>,
}

impl<'a> HostFiles<'a> {
    pub(crate) fn new(rt: &'a HostRuntime, start: Option<Instant>) -> HostFiles<'a> {
        HostFiles { rt, start }
    }

    /// Begins the file of a name anew.
    fn begin(&self, name: &str) -> io::Result<HostWriter<'a>> {
        match target_of(self.rt, name)? {
            Target::InPlace => Ok(HostWriter::InPlace(fs::create(self.rt, name)?)),
            Target::Beside(path) => Ok(HostWriter::Beside(NewFile::begin(self.rt, path)?)),
        }
    }
}

/// Ends a file. Standard output stays open.
fn end(writer: HostWriter<'_>) -> io::Result<()> {
    match writer {
        HostWriter::Beside(file) => file.put_in_place(),
        HostWriter::InPlace(_) | HostWriter::Stdout(_) => Ok(()),
    }
}

impl<'a> Files for HostFiles<'a> {
    type Reader = File;

    type Writer = HostWriter<'a>;

    fn open(&mut self, name: &str) -> io::Result<File> {
        fs::open(self.rt, name)
    }

    fn are_one(&self, one: Endpoint<'_>, other: Endpoint<'_>) -> io::Result<bool> {
        file_id::are_one(self.rt, one, other)
    }

    fn write(&mut self, name: &str, content: &[u8]) -> io::Result<()> {
        let mut writer = self.begin(name)?;
        writer.write_all(content)?;
        writer.flush()?;
        end(writer)
    }

    fn create(&mut self, name: &str) -> io::Result<HostWriter<'a>> {
        if name == "stdout" {
            return Ok(HostWriter::Stdout(Patient::new(self.rt, self.rt.stdout())));
        }
        self.begin(name)
    }

    fn close(&mut self, _name: &str, writer: HostWriter<'a>) -> io::Result<()> {
        end(writer)
    }

    fn watched(&self) -> Option<u64> {
        let start = self.start?;
        let passed = start.elapsed(self.rt).ok()?;
        Some(passed.as_secs().saturating_mul(1000))
    }
}
