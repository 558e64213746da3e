//! The rows of one output partition, from every input partition, with the items that they are of.
//!
//! ```
//! // Proved code shows that `Brand` names these cells.
//! let cells = part_log::Cells::new(alloc, 8).ok()?;
//! let log: part_log::PartLog<Brand> = part_log::PartLog::new(0, cells);
//! let _receipt = log.close(rt, alloc).ok()?;
//! let mut walk = worker::Walk::new(0);
//! let is_there = walk.next(&log, &mut log.note(0));
//! let results = worker::process(alloc, &walk, &log, 1).ok()?;
//! let mut book = out_book::Book::new(alloc, 1, 0).ok()?;
//! let _delivered = book.deliver(&walk, &results).ok()?;
//! assert!(is_there && book.done(0) == 1 && book.is_empty());
//! ```
#![tactic(auto)]

mod book;
mod done;
mod fault;
mod indexed;
mod laws;
mod probes;
mod room;
mod rows;
mod run;
mod search;
mod sharing;

pub use crate::book::{Book, Delivered};
pub use crate::fault::BookFault;
pub use crate::laws::follows_core;
pub use crate::probes::Probes;
pub use crate::room::Room;
pub use crate::rows::Rows;
pub use item_rows::BookRow;
