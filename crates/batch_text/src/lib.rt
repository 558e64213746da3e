//! The text of record batches: a line for each batch of a reader's bytes, or the commands of a script
//! that append its records again; and why bytes begin with no batch.
//!
//! ```
//! let (batch, _) = batch::decode(alloc, bytes::Bytes::from_static(BATCH)).ok()?;
//! let text = batch_text::record_text(alloc, &batch).ok()?;
//! assert!(text.as_str() == "put 0 0 6b 76\n");
//! ```
#![tactic(auto)]

mod cause;
mod fields;
mod listing;
mod records;
mod sizes;

pub use crate::cause::cause_text;
pub use crate::fields::batch_text;
pub use crate::listing::{ListFault, Listing, NoBatch, list_all};
pub use crate::records::record_text;
