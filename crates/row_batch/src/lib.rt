//! Rows of an output partition as record batches: as many of them as one batch takes.
//!
//! ```
//! let headers = wire_spec::Headers { list: Vec::new(alloc) };
//! let row = log_spec::Row { input: 0, number: 0, offset: 5, timestamp: 1_000, key: None, value: None, headers };
//! let mut open = row_batch::OpenBatch::new(alloc);
//! let has_room = open.push(&row.by_ref()).ok()?;
//! let bytes = open.take(0).ok()?;
//! assert!(has_room && bytes.len() == 68);
//! ```
#![tactic(auto)]

mod front;
mod laws;
mod list;
mod open;
mod records;
mod rows;

pub use crate::laws::{one_row_fits, shown_alike};
pub use crate::list::RowList;
pub use crate::open::OpenBatch;
pub use crate::rows::{FirstBatch, first_batch, row_batch};
