//! What a transform says of records and rows.

use crate::telling::say;
use fates::Counts;
use std::alloc::{AllocError, Global};
use std::io::Write;
use transform::Transform;

/// The lines of how many items and rows each output partition has.
fn push_outputs<W: Write>(
    text: &mut String,
    stream: &Transform<W>,
    items: u64,
) -> Result<(), AllocError> {
    for output in 0..stream.outputs() {
        let rows = stream.outlet(output).rows();
        write!(text, "out {output} in 0 done {items} rows {rows}\n")?;
    }
    Ok(())
}

/// The lines of what became of the records of the input partition.
fn push_records(text: &mut String, counts: &Counts, items: u64) -> Result<(), AllocError> {
    let records = counts.records();
    let unprogrammed = counts.unprogrammed();
    let kept = counts.kept();
    write!(text, "in 0 items {items} records {records} ")?;
    write!(text, "unprogrammed {unprogrammed} kept {kept}\n")?;
    for (code, count) in counts.rejects().iter() {
        write!(text, "in 0 reject {code} count {count}\n")?;
    }
    Ok(())
}

/// The lines of a report, without the rows, after these batches.
pub(crate) fn counts_text<W: Write>(
    alloc: Global,
    stream: &Transform<W>,
    batches: u64,
) -> Result<String, AllocError> {
    let items = batches.saturating_add(1);
    let mut text = String::new(alloc);
    push_outputs(&mut text, stream, items)?;
    push_records(&mut text, stream.counts(), items)?;
    Ok(text)
}

/// Says how many records and rows there were, where there is memory for the text.
pub(crate) fn say_counts<E: Write>(stderr: &mut E, counts: Result<String, AllocError>) {
    if let Ok(counts) = counts {
        say(stderr, counts.as_str());
    }
}
