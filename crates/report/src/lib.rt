//! What became of the records of a broker: the rows that each output partition holds of each input
//! partition, and how many records of an input's first items were kept, were rejected or met no
//! program. `gather` takes it from a broker as a `Snapshot`, and `write` writes its lines. No record is
//! run: the books have counted what became of each.
//!
//! ```
//! // Proved code shows that `Brand` names these parts, as `crates/embedding` does.
//! let parts = broker::Parts::new(rt, alloc, 1, 1, 8).ok()?;
//! let made: broker::Broker<Brand, catalogue::Catalogue<&R>> = broker::Broker::new(alloc, parts).ok()?;
//! let snapshot = report::gather(rt, alloc, &made).ok()?;
//! let mut text = Vec::new(alloc);
//! report::write(alloc, &snapshot, &mut text).ok()?;
//! assert!(text.starts_with(b"out 0 in 0 done 0 rows 0\n"));
//! ```
#![tactic(auto)]

mod fault;
mod gathering;
mod holding;
mod lines;
mod snapshot;
mod tally;
mod writing;

pub use crate::fault::ReportFault;
pub use crate::gathering::gather;
pub use crate::holding::Holding;
pub use crate::snapshot::Snapshot;
pub use crate::tally::Tally;
pub use crate::writing::write;
pub use fates::{Counts, Fate};
