//! One broker, which threads share: the logs of its input partitions, the books of its output
//! partitions and the catalogue of programs.
//!
//! The crate is a thin layer. It finds the partition that is named, and refuses one that isn't
//! there; what is done to a log, a book or the catalogue is in the contracts of `part_log`,
//! `out_book` and `catalogue`. `start` runs a worker for each input partition in a thread of its
//! own.
//!
//! ```
//! // Proved code shows that `Brand` names these parts, as `crates/embedding` does.
//! let parts = broker::Parts::new(rt, alloc, 1, 1, 8).ok()?;
//! let made: broker::Broker<Brand, catalogue::Catalogue<&R>> = broker::Broker::new(alloc, parts).ok()?;
//! let (batch, _) = batch::decode(alloc, bytes::Bytes::from_static(BATCH)).ok()?;
//! let receipt = made.append(rt, alloc, 0, batch).ok()?;
//! let ended = made.start(rt, alloc, broker::Until::Drained, &worker::Open).ok()?;
//! assert!(receipt.index() == 0 && matches!(ended.first(), Some(broker::Ended::Done(1))));
//! ```
#![tactic(auto)]

mod audit;
mod broker;
mod deploy;
mod ended;
mod fault;
mod fetch;
mod load;
mod parts;
mod start;
mod stepped;
mod stream;
mod work;

pub use crate::audit::{Audit, AuditedRows};
pub use crate::broker::Broker;
pub use crate::ended::{Ended, Until};
pub use crate::fault::BrokerFault;
pub use crate::parts::Parts;
pub use crate::stepped::Stepped;
pub use crate::stream::StreamFault;
