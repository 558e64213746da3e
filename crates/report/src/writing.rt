//! Writes the lines of a snapshot.

ghost use Rattle.std.specs.Prelude.{◌≡◌, ◌≢◌};
ghost use Rattle.std.specs.IoError.{error_kind};
ghost use Rattle.std.specs.declared.io.ErrorKind.TheVariants.{OutOfMemory};
ghost use Rattle.std.specs.List.{flat_map};
ghost use Rattle.report.specs.Texts.{held_rows, output_rows, held_line, output_lines, rejects_text, tally_text, report_text};
ghost use Rattle.report.specs.Writes.{Writes, WritesSome};
ghost use Rattle.report.specs.declared.fault.ReportFault.TheVariants.{Write as Unwritten, Memory};

use crate::fault::ReportFault;
use crate::holding::{Holding, Holdings};
use crate::lines::{items_text, out_text, reject_text};
use crate::snapshot::Snapshot;
use crate::tally::Tally;
use part_log::Names;
use script::push_row;
use std::alloc::{AllocError, Global};
use std::collections::BTreeMap;
use std::io;
use std::io::Write;

impl From<AllocError> for ReportFault {
    ghost from_gives = { λ _ fault. fault ≡ Memory };

    fn from(_error: AllocError) -> ReportFault {
        ReportFault::Memory
    }
}

/// Writes the lines of a snapshot: the rows, by output and by input partition; then, in the same
/// order, how many items are done and how many rows there are; then, by input partition, what became
/// of the records of its first items. Where it fails, a beginning of the text is written.
pub fn write<Id: Names, W: Write>(
    alloc: Global,
    snapshot: &Snapshot<Id>,
    out: &mut W,
) -> Result<(), ReportFault>
    ensures { Writes (W.contents out.old) (W.contents out.new) (report_text snapshot.now) result }
{
    put_all_rows(alloc, snapshot.holdings(), out)?;
    put_all_held(alloc, snapshot.holdings(), out)?;
    put_all_tallies(alloc, snapshot.tallies(), out)
}

/// Why a text was not written.
fn unwritten(error: &io::Error) -> ReportFault
    ensures memory { error_kind error.now ≡ OutOfMemory → result ≡ Memory }
    ensures other { error_kind error.now ≢ OutOfMemory → result ≡ Unwritten }
{
    match error.kind() {
        io::ErrorKind::OutOfMemory => ReportFault::Memory,
        _ => ReportFault::Write,
    }
}

/// Writes the first of some bytes, and returns how many; none where the writer was interrupted.
#[tactic(auto, using(wire_spec::proofs::Beginnings::begun_kept, wire_spec::proofs::Beginnings::kept_none, wire_spec::proofs::Beginnings::begun_some))]
fn put_some<W: Write>(bytes: &[u8], out: &mut W) -> Result<usize, ReportFault>
    ensures { WritesSome (W.contents out.old) (W.contents out.new) bytes.now result }
{
    match out.write(bytes) {
        Ok(0) => Err(ReportFault::Write),
        Ok(count) => Ok(count),
        Err(error) => match error.kind() {
            io::ErrorKind::Interrupted => Ok(0),
            _ => Err(unwritten(&error)),
        },
    }
}

/// Writes a text.
fn put<W: Write>(text: &str, out: &mut W) -> Result<(), ReportFault>
    ensures { Writes (W.contents out.old) (W.contents out.new) text.now result }
{
    let bytes = text.as_bytes();
    let mut done = 0;
    for _ in 0..u64::MAX {
        if done == bytes.len() {
            return Ok(());
        }
        done += put_some(&bytes[done..], out)?;
    }
    Err(ReportFault::Write)
}

/// Writes the rows of each output partition.
fn put_all_rows<Id: Names, W: Write>(
    alloc: Global,
    outputs: &[Holdings<Id>],
    out: &mut W,
) -> Result<(), ReportFault>
    ensures { Writes (W.contents out.old) (W.contents out.new) (flat_map output_rows outputs.now) result }
{
    for holdings in outputs {
        put_output_rows(alloc, holdings.as_slice(), out)?;
    }
    Ok(())
}

/// Writes the rows of an output partition from each input partition.
fn put_output_rows<Id: Names, W: Write>(
    alloc: Global,
    holdings: &[Holding<Id>],
    out: &mut W,
) -> Result<(), ReportFault>
    ensures { Writes (W.contents out.old) (W.contents out.new) (output_rows holdings.now) result }
{
    for holding in holdings {
        put_rows(alloc, holding, out)?;
    }
    Ok(())
}

/// Writes the rows of an output partition from an input partition.
fn put_rows<Id: Names, W: Write>(
    alloc: Global,
    holding: &Holding<Id>,
    out: &mut W,
) -> Result<(), ReportFault>
    ensures { Writes (W.contents out.old) (W.contents out.new) (held_rows holding.now) result }
{
    let mut text = String::new(alloc);
    for row in holding.rows() {
        text.clear();
        push_row(&mut text, holding.output(), &row.by_ref())?;
        put(text.as_str(), out)?;
    }
    Ok(())
}

/// Writes how much each output partition holds.
fn put_all_held<Id: Names, W: Write>(
    alloc: Global,
    outputs: &[Holdings<Id>],
    out: &mut W,
) -> Result<(), ReportFault>
    ensures { Writes (W.contents out.old) (W.contents out.new) (flat_map output_lines outputs.now) result }
{
    for holdings in outputs {
        put_output_held(alloc, holdings.as_slice(), out)?;
    }
    Ok(())
}

/// Writes how much an output partition holds of each input partition.
fn put_output_held<Id: Names, W: Write>(
    alloc: Global,
    holdings: &[Holding<Id>],
    out: &mut W,
) -> Result<(), ReportFault>
    ensures { Writes (W.contents out.old) (W.contents out.new) (output_lines holdings.now) result }
{
    for holding in holdings {
        put_held(alloc, holding, out)?;
    }
    Ok(())
}

/// Writes how much an output partition holds of an input partition.
fn put_held<Id: Names, W: Write>(
    alloc: Global,
    holding: &Holding<Id>,
    out: &mut W,
) -> Result<(), ReportFault>
    ensures { Writes (W.contents out.old) (W.contents out.new) (held_line holding.now) result }
{
    let done = holding.done();
    let rows = holding.rows().len();
    let line = out_text(alloc, holding.output(), done.partition(), done.len(), rows)?;
    put(line.as_str(), out)
}

/// Writes what became of the records of each input partition.
fn put_all_tallies<Id: Names, W: Write>(
    alloc: Global,
    tallies: &[Tally<Id>],
    out: &mut W,
) -> Result<(), ReportFault>
    ensures { Writes (W.contents out.old) (W.contents out.new) (flat_map tally_text tallies.now) result }
{
    for tally in tallies {
        put_tally(alloc, tally, out)?;
    }
    Ok(())
}

/// Writes what became of the records of an input partition.
fn put_tally<Id: Names, W: Write>(
    alloc: Global,
    tally: &Tally<Id>,
    out: &mut W,
) -> Result<(), ReportFault>
    ensures { Writes (W.contents out.old) (W.contents out.new) (tally_text tally.now) result }
{
    let input = tally.first().partition();
    let items = tally.first().len();
    let counts = tally.counts();
    let line = items_text(
        alloc,
        input,
        items,
        counts.records(),
        counts.unprogrammed(),
        counts.kept(),
    )?;
    put(line.as_str(), out)?;
    put_rejects(alloc, input, counts.rejects(), out)
}

/// Writes how many records each code rejected.
fn put_rejects<W: Write>(
    alloc: Global,
    input: usize,
    rejects: &BTreeMap<u64, u64>,
    out: &mut W,
) -> Result<(), ReportFault>
    ensures { Writes (W.contents out.old) (W.contents out.new) (rejects_text input rejects.now.entries) result }
{
    for (code, count) in rejects {
        let line = reject_text(alloc, input, *code, *count)?;
        put(line.as_str(), out)?;
    }
    Ok(())
}
