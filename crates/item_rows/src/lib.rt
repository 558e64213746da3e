//! The rows of a log's item, for every output partition at once or for one, and what became of its
//! records. Each record is run once: this is read in the code.
//!
//! ```
//! let image = bpf_asm::assemble(alloc, "mov64 r1, 0\ncall 3\nexit\n").ok()?;
//! let image = bytes::Bytes::copy_from_slice(alloc, &image).ok()?;
//! let program = log_item::Program::new(alloc, &image, machine_spec::Table::One).ok()?;
//! let (batch, _) = batch::decode(alloc, bytes::Bytes::from_static(BATCH)).ok()?;
//! let item = log_item::Item::Batch(log_item::LoggedBatch::new(alloc, batch).ok()?);
//! let origin = item_rows::Origin { input: 0, offset: 0, outputs: 1 };
//! let rows = item_rows::item_rows_in(&mut item_rows::Blocks::new(alloc), &origin, Some(&program), &item).ok()?;
//! assert!(rows.rows(0).len() == 1);
//! ```
#![tactic(auto)]

mod batch_run;
mod blocks;
mod book_row;
mod given;
mod item;
mod laws;
mod made;
mod numbers;
mod origin;
mod outcomes;
mod part;
mod records;
mod refs;
mod rows;

pub use crate::blocks::Blocks;
pub use crate::book_row::{BookRow, row_values};
pub use crate::item::{OneOutput, item_rows_in, output_rows};
pub use crate::laws::one_list_of_rows;
pub use crate::origin::Origin;
pub use crate::part::Part;
pub use crate::records::{drop_rest, part_refs_in};
pub use crate::refs::RowRefs;
pub use crate::rows::{ItemRefs, ItemRows};
