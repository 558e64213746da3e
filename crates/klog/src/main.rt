//! klog: a partitioned commit-log broker whose records pass through verified BPF programs. `klog
//! run SCRIPT` does the commands of a script, `klog check IMAGE` verifies a program, `klog explain
//! IMAGE` prints what the verifier knows of it, `klog asm TEXT IMAGE` makes the image of a program's
//! text, `klog dis IMAGE` prints that text, `klog recheck LIST` verifies the programs of a list anew,
//! `klog transform IMAGE IN OUT ..` runs a program on record batches, `klog batches FILE` and `klog
//! records FILE` list those of a file, and `klog commands` lists the calls.
#![tactic(auto)]

mod file_id;
mod host_files;
mod new_file;
mod patient;
mod target;

use crate::host_files::HostFiles;
use crate::patient::Patient;
use commands::{Host, Status, command, tell_no_words};
use std::alloc::Global;
use std::io::{BufWriter, IsTerminal};
use std::os::fd::AsRawFd;
use std::process::ExitCode;
use std::sync::Wait;
use std::thread::Threads;
use std::time::Instant;
use std::{env, fs, io};

/// When the program began, if standard error is a terminal.
fn watched_since(rt: &HostRuntime) -> Option<Instant> {
    if rt.stderr().is_terminal() {
        Instant::now(rt).ok()
    } else {
        None
    }
}

/// As many bytes as two batches have at most.
const KEPT_MEMORY: usize = 8_388_608;

/// Takes a block of memory and frees it. From then on the C library keeps about so much freed memory for
/// later, where it would return it to the system and take it again for the next batch, page by page: that
/// was a fifth of the time of `transform`.
fn keep_freed_memory(alloc: Global) {
    let block: Result<Vec<u8>, _> = Vec::with_capacity(alloc, KEPT_MEMORY);
    drop(block);
}

/// The call that the system's words ask for, with leave to start threads. It fails before it begins
/// where memory runs out or a word is not UTF-8.
fn called<T: Threads + Wait + Sync>(threads: &T, rt: &HostRuntime) -> io::Result<Status> {
    let alloc = rt.alloc();
    keep_freed_memory(alloc);
    let mut words = Vec::new(alloc);
    for word in env::args(rt)?.skip(1) {
        words.push(word)?;
    }
    let mut host = Host {
        alloc,
        files: HostFiles::new(rt, watched_since(rt)),
        stdin: Patient::new(rt, rt.stdin()),
        stdout: BufWriter::new(alloc, Patient::new(rt, rt.stdout()))?,
        stderr: Patient::new(rt, rt.stderr()),
    };
    Ok(command(threads, &mut host, &words))
}

/// Opens a file that can't be used in the place of each standard stream that the program was started without, so that
/// no file of a call gets a stream's number, and with it what is written to that stream.
fn fill_streams(rt: &HostRuntime) -> io::Result<Vec<fs::File>> {
    let mut fillers = Vec::new(rt.alloc());
    let unread = fs::OpenOptions::new().write(true).open(rt, "/dev/null")?;
    if unread.as_raw_fd() == 0 {
        fillers.push(unread)?;
    }
    for _ in 0..2 {
        let unwritten = fs::open(rt, "/dev/null")?;
        if unwritten.as_raw_fd() <= 2 {
            fillers.push(unwritten)?;
        }
    }
    Ok(fillers)
}

fn main(rt: HostRuntime) -> ExitCode {
    let _fillers = fill_streams(&rt);
    let status = match called(&rt, &rt) {
        Ok(status) => status,
        Err(error) => tell_no_words(&mut rt.stderr(), &error).status,
    };
    ExitCode::from(status.code())
}
