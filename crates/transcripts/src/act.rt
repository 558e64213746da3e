//! What a call does, and what it answers.

use crate::call::Call;
use commands::{Endpoint, Files, Host, command};
use std::alloc::Global;
use std::io::{Cursor, Write};
use std::os::unix::fs::MetadataExt;
use std::sync::Wait;
use std::thread::Threads;
use std::{fs, io};

/// The files of the folder that the program is run in.
#[derive(Drop)]
struct Folder<'a> {
    rt: &'a HostRuntime,
}

impl Files for Folder<'_> {
    type Reader = <HostRuntime as fs::Files>::File;

    type Writer = <HostRuntime as fs::Files>::File;

    fn open(&mut self, name: &str) -> io::Result<Self::Reader> {
        fs::open(self.rt, name)
    }

    fn are_one(&self, one: Endpoint<'_>, other: Endpoint<'_>) -> io::Result<bool> {
        match (one, other) {
            (Endpoint::File(one), Endpoint::File(other)) => Ok(lead_to_one(self.rt, one, other)),
            _ => Ok(false),
        }
    }

    fn write(&mut self, name: &str, content: &[u8]) -> io::Result<()> {
        fs::write(self.rt, name, content)
    }

    fn create(&mut self, name: &str) -> io::Result<Self::Writer> {
        fs::create(self.rt, name)
    }

    fn close(&mut self, _name: &str, mut writer: Self::Writer) -> io::Result<()> {
        writer.flush()
    }
}

/// Whether two names lead to one file that is there, or are the same.
fn lead_to_one(rt: &HostRuntime, one: &str, other: &str) -> bool {
    match (fs::metadata(rt, one), fs::metadata(rt, other)) {
        (Ok(found), Ok(second)) => found.dev() == second.dev() && found.ino() == second.ino(),
        _ => one == other,
    }
}

/// What klog answers to words.
fn answer_of_klog<T: Threads + Wait + Sync>(
    threads: &T,
    rt: &HostRuntime,
    call: &Call,
    words: &[String],
) -> io::Result<Vec<u8>> {
    let alloc = rt.alloc();
    fs::write(rt, "input", call.input.as_bytes())?;
    let mut host = Host {
        alloc,
        files: Folder { rt },
        stdin: Cursor::new(Vec::from_slice(alloc, call.input.as_bytes())?),
        stdout: Vec::new(alloc),
        stderr: Vec::new(alloc),
    };
    let status = command(threads, &mut host, words);
    let mut answer = Vec::new(alloc);
    if call.has_output {
        answer.extend_from_slice(&host.stdout)?;
    }
    if call.has_error {
        answer.extend_from_slice(&host.stderr)?;
    }
    let code = status.code();
    if code != 0 {
        writeln!(answer, "[{code}]")?;
    }
    Ok(answer)
}

/// The bytes of a text in hexadecimal.
fn bytes_of(alloc: Global, digits: &str) -> io::Result<Vec<u8>> {
    hex::decode(alloc, digits).map_err(|_| io::Error::from(io::ErrorKind::InvalidData))
}

/// Adds a piece of a file: bytes in hexadecimal, with `*` and a number where they come more than once.
fn push_piece(alloc: Global, content: &mut Vec<u8>, piece: &str) -> io::Result<()> {
    let (digits, count) = match piece.split_once('*') {
        Some((digits, count)) => (digits, count.parse::<u32>().unwrap_or(0)),
        None => (piece, 1),
    };
    let bytes = bytes_of(alloc, digits)?;
    for _ in 0..count {
        content.extend_from_slice(&bytes)?;
    }
    Ok(())
}

/// Makes a file of pieces, which answers nothing.
fn make(rt: &HostRuntime, name: &str, pieces: &[String]) -> io::Result<Vec<u8>> {
    let mut content = Vec::new(rt.alloc());
    for piece in pieces {
        push_piece(rt.alloc(), &mut content, piece.as_str())?;
    }
    fs::write(rt, name, &content)?;
    Ok(Vec::new(rt.alloc()))
}

/// The bytes of a file in hexadecimal, eight on a line.
fn listing_of(rt: &HostRuntime, name: &str) -> io::Result<Vec<u8>> {
    let content = fs::read(rt, name)?;
    let mut listing = Vec::new(rt.alloc());
    for (at, byte) in content.iter().enumerate() {
        write!(listing, "{byte:02x}")?;
        if at % 8 == 7 {
            writeln!(listing)?;
        }
    }
    Ok(listing)
}

/// What a call answers.
pub(crate) fn answer_of<T: Threads + Wait + Sync>(
    threads: &T,
    rt: &HostRuntime,
    call: &Call,
) -> io::Result<Vec<u8>> {
    let Some((program, words)) = call.words.split_first() else {
        return Ok(Vec::new(rt.alloc()));
    };
    match (program.as_str(), words.split_first()) {
        ("make", Some((name, pieces))) => make(rt, name.as_str(), pieces),
        ("bytes", Some((name, _))) => listing_of(rt, name.as_str()),
        _ => answer_of_klog(threads, rt, call, words),
    }
}
