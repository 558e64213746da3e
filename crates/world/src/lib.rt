//! The broker's pure core: logs, a catalogue and books as one value, which events change one after
//! the other.
//!
//! ```
//! let (batch, _) = batch::decode(alloc, bytes::Bytes::from_static(BATCH)).ok()?;
//! let mut world = world::World::new(alloc, 1, 1, 8).ok()?;
//! let reply = world.step(alloc, &world::Event::Batch(0, batch)).ok()?;
//! assert!(reply == world::Reply::Appended(0, 0));
//! ```
#![tactic(auto)]

mod book;
mod events;
mod log;
mod runs;
mod state;

pub use crate::runs::run;
pub use crate::state::World;
pub use log_spec::{Event, Name, RawName, Refusal, Reply, Row};
pub use verifier_spec::LoadFault;
