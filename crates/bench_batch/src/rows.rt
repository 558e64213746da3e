//! Rows of an output partition that become a batch.

ghost use Rattle.log_spec.specs.Logs.{RowFits};
ghost use Rattle.wire_spec.specs.RecordSpelling.{RecordFits};

use batch::{Batch, MAX_RECORDS};
use kafka_record::{Record, fits};
use log_spec::Row;
use row_batch::row_batch;
use segments::{Segments, Spares};
use std::alloc::{AllocError, Global};
use std::io;
use std::io::ErrorKind;
use std::marker::Model;

/// The time of each row.
const TIMESTAMP: u64 = 1_700_000_000_000;

/// Rows that a batch takes, as an output partition keeps them.
#[derive(Drop)]
pub struct Rows {
    list: Segments<Row>,
}

impl Model for Rows {
    ghost use Rattle.std.specs.Prelude.{List, All};
    ghost use Rattle.log_spec.specs.declared.row.Row.{Row};
    ghost use Rattle.log_spec.specs.Logs.{RowFits};

    ghost Value = { List Row };

    ghost view = { λ r. r.list.items };

    ghost invariant = { λ r. All RowFits r.list.items };
}

/// A record as a row.
fn row_of(given: Record, offset: u64) -> Row
    requires { RecordFits given }
    ensures { RowFits result }
{
    let Record {
        timestamp_delta: _,
        key,
        value,
        headers,
    } = given;
    Row {
        input: 0,
        offset,
        number: 0,
        timestamp: TIMESTAMP,
        key,
        value,
        headers,
    }
}

impl Rows {
    fn new(alloc: Global) -> Rows {
        Rows {
            list: Segments::new(alloc),
        }
    }

    fn add(&mut self, given: Record, spares: &mut Spares<Row>) -> io::Result<()> {
        if !fits(&given) {
            return Err(ErrorKind::InvalidData.into());
        }
        self.list.reserve(1, spares)?;
        let offset = self.list.len() as u64;
        self.list.push_reserved(row_of(given, offset));
        Ok(())
    }

    /// The bytes of the batch of the first rows.
    pub fn batch(&self, alloc: Global) -> Result<Option<Vec<u8>>, AllocError> {
        row_batch(alloc, &self.list, 0, MAX_RECORDS as usize)
    }
}

/// The records of a batch as rows.
pub fn rows_of(alloc: Global, batch: Batch) -> io::Result<Rows> {
    let mut rows = Rows::new(alloc);
    let mut spares = Spares::new(alloc);
    for given in batch.records.list {
        rows.add(given, &mut spares)?;
    }
    Ok(rows)
}
