//! klog as a library, in one file to begin with: `embedding IMAGE BATCHES` makes a broker, loads and
//! deploys a transform, appends the record batches of a file, runs the workers, and fetches what came
//! out. `docs/guide/embedding.md` explains it line by line.
#![tactic(auto)]

ghost use Rattle.broker.specs.Layouts.{IsNamed};

use broker::{Broker, BrokerFault, Ended, Parts, StreamFault, Until};
use bytes::Bytes;
use catalogue::Catalogue;
use machine_spec::Table;
use part_log::Names;
use std::alloc::{AllocError, Global};
use std::io::Read;
use std::marker::Brand;
use std::process::ExitCode;
use std::sync::Wait;
use std::thread::Threads;
use std::{env, fs, io};
use worker::Open;

/// Makes a broker of its parts, which `Id` names, and runs a transform over the record batches that a
/// reader gives. Returns how many were appended, how the worker ended, and how many bytes the first rows of
/// the output are as a record batch.
fn transform<Id: Names + Send + Sync, R: Threads + Wait + Sync, B: Read>(
    rt: &R,
    alloc: Global,
    parts: Parts<Catalogue<&R>>,
    image: &Bytes,
    reader: &mut B,
) -> Result<(u64, Ended, usize), StreamFault>
    requires { IsNamed Id.cells Id.inputs Id.outputs parts }
{
    let made: Result<Broker<Id, Catalogue<&R>>, AllocError> = Broker::new(alloc, parts);
    let Ok(broker) = made else {
        return Err(StreamFault::Broker(BrokerFault::Memory));
    };
    process(rt, alloc, &broker, image, reader)
}

/// Gives a new broker the transform and the batches, runs its worker to the end of the log, and fetches.
fn process<Id: Names + Send + Sync, R: Threads + Wait + Sync, B: Read>(
    rt: &R,
    alloc: Global,
    broker: &Broker<Id, Catalogue<&R>>,
    image: &Bytes,
    reader: &mut B,
) -> Result<(u64, Ended, usize), StreamFault> {
    deploy(rt, alloc, broker, image)?;
    let mut receipts = Vec::new(alloc);
    let batches = broker.append_from(rt, alloc, 0, reader, 65_536, &mut receipts)?;
    broker.close(rt, alloc, 0)?;
    let ended = match broker.start(rt, alloc, Until::Closed, &Open)?.first() {
        Some(ended) => *ended,
        None => Ended::NoThread,
    };
    let bytes = broker.fetch(rt, 0, 0, 10_000)?.map_or(0, |rows| rows.len());
    Ok((batches, ended, bytes))
}

/// Loads a transform and marks it in the log of input 0.
fn deploy<Id: Names, H: Wait + Drop, R: Wait>(
    rt: &R,
    alloc: Global,
    broker: &Broker<Id, Catalogue<H>>,
    image: &Bytes,
) -> Result<(), BrokerFault> {
    let (_version, known) = broker.load(rt, alloc, "transform", image, Table::One)?;
    let mut finder = broker.finder(rt, alloc)?;
    broker.deploy(rt, alloc, 0, known.name(), &mut finder, &known)?;
    Ok(())
}

/// Runs a transform over the batches of a reader, and prints what came of it. The status is 1 where a call is
/// refused or the worker ends early.
fn run<R: Threads + Wait + Print + Eprint + Sync, B: Read>(
    rt: &R,
    alloc: Global,
    image: &Bytes,
    reader: &mut B,
) -> io::Result<ExitCode> {
    let parts = Parts::new(rt, alloc, 1, 1, 1_024)?;
    match transform::<Brand, R, B>(rt, alloc, parts, image, reader) {
        Ok((batches, Ended::Done(items), bytes)) => {
            println!(rt; "{batches} batches, {items} items, {bytes} bytes fetched")?;
            Ok(ExitCode::SUCCESS)
        }
        Ok((_, ended, _)) => {
            eprintln!(rt; "the worker ended early: {ended:?}")?;
            Ok(ExitCode::FAILURE)
        }
        Err(fault) => {
            eprintln!(rt; "{fault}")?;
            Ok(ExitCode::FAILURE)
        }
    }
}

fn main(rt: HostRuntime) -> io::Result<ExitCode> {
    let mut words = env::args(&rt)?.skip(1);
    let (Some(image), Some(batches)) = (words.next(), words.next()) else {
        return Ok(ExitCode::SUCCESS);
    };
    let image = Bytes::from_vec(fs::read(&rt, image.as_str())?)?;
    let mut reader = fs::open(&rt, batches.as_str())?;
    run(&rt, rt.alloc(), &image, &mut reader)
}
