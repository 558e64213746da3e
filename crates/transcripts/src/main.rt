//! Does the calls of transcripts, and compares what each answers with what the transcript says. `transcripts FILE
//! ..` prints how many calls there are and how many answer otherwise, and before that each of those.
//!
//! A line `$ klog WORDS` is a call. Of the lines after it, those that begin with `|` are its standard input and
//! the file `input`. The others are what it answers: standard output, then standard error, then the status in
//! brackets unless that is 0. A call whose line ends with ` > /dev/null` answers without standard output, one with
//! ` 2> /dev/null` without standard error. `$ make FILE PIECE ..` makes a file of bytes in hexadecimal, of which
//! `*COUNT` repeats those of a piece, and `$ bytes FILE` answers them, eight on a line. Lines that are empty or begin
//! with `#` are remarks. Files lie beside the transcripts.
#![tactic(auto)]

mod act;
mod call;

use crate::act::answer_of;
use crate::call::{Call, calls_of};
use std::io::Write;
use std::process::ExitCode;
use std::sync::Wait;
use std::thread::Threads;
use std::{env, fs, io};

/// How many calls were done, and how many of them answered otherwise.
#[derive(Clone, Copy)]
struct Counts {
    calls: u64,
    others: u64,
}

/// Does the calls of a transcript, and prints those that answer otherwise.
fn compare<T: Threads + Wait + Sync>(
    threads: &T,
    rt: &HostRuntime,
    name: &str,
    calls: &[Call],
    counts: &mut Counts,
) -> io::Result<()> {
    for call in calls {
        counts.calls = counts.calls.wrapping_add(1);
        let answer = answer_of(threads, rt, call)?;
        if answer.as_slice() != call.answer.as_bytes() {
            counts.others = counts.others.wrapping_add(1);
            println!(rt; "{name}, line {}: another answer:", call.line)?;
            rt.stdout().write_all(&answer)?;
        }
    }
    Ok(())
}

/// The same of each file that the program's words name.
fn compare_all<T: Threads + Wait + Sync>(threads: &T, rt: &HostRuntime) -> io::Result<Counts> {
    let mut counts = Counts {
        calls: 0,
        others: 0,
    };
    for name in env::args(rt)?.skip(1) {
        let text = fs::read_to_string(rt, name.as_str())?;
        let calls = calls_of(rt.alloc(), text.as_str())?;
        compare(threads, rt, name.as_str(), &calls, &mut counts)?;
    }
    Ok(counts)
}

fn main(rt: HostRuntime) -> io::Result<ExitCode> {
    let counts = compare_all(&rt, &rt)?;
    if counts.calls > 0 {
        println!(rt;
            "{} calls, {} answer otherwise",
            counts.calls, counts.others
        )?;
    }
    Ok(if counts.others == 0 {
        ExitCode::SUCCESS
    } else {
        ExitCode::FAILURE
    })
}
