//! What a worker does on its own: it walks over the items of a log, keeping the program in force,
//! and processes the item at its position for all output partitions at once, or for one. No lock is held.
//!
//! ```
//! // Proved code shows that `Brand` names these cells.
//! let cells = part_log::Cells::new(alloc, 8).ok()?;
//! let log: part_log::PartLog<Brand> = part_log::PartLog::new(0, cells);
//! let (batch, _) = batch::decode(alloc, bytes::Bytes::from_static(BATCH)).ok()?;
//! let _receipt = log.append(rt, alloc, batch).ok()?;
//! let mut walk = worker::Walk::new(0);
//! let is_there = walk.next(&log, &mut log.note(0));
//! let results = worker::process(alloc, &walk, &log, 1).ok()?;
//! assert!(is_there && results.counts().unprogrammed() == 1);
//! ```
#![tactic(auto)]

mod delivery;
mod gate;
mod processing;
mod results;
mod walk;

pub use crate::delivery::Delivery;
pub use crate::gate::{Gate, Open};
pub use crate::processing::{process, process_for, process_in};
pub use crate::results::Results;
pub use crate::walk::Walk;
