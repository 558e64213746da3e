//! The record batches that a reader's bytes are, one after the other.
//!
//! ```
//! let bytes = bytes::Bytes::from_static(BATCH);
//! let mut reader = batch_reader::BatchReader::over(alloc, bytes).ok()?;
//! let first = reader.next().ok()??;
//! assert!(first.len() == 1 && reader.next().ok()?.is_none());
//! ```
#![tactic(auto)]

mod reader;

pub use crate::reader::{BatchReader, Pieces, Position, ReadFault};
