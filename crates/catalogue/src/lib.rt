//! The live catalogue: a loader publishes the table of programs, and any number of threads read it
//! beside the loader, with no lock.
//!
//! Each published table is the one before with one more accepted load. A finder reads a published
//! table at each find, and returns no older version than it has. What a load returns, and what a
//! finder returned before, bound it too: under a name that a `Known` carries it returns never none
//! and never an older version, and no version of a name after a later one.
//!
//! ```
//! let image = bpf_asm::assemble(alloc, "mov64 r0, 0\nexit\n").ok()?;
//! let image = bytes::Bytes::copy_from_slice(alloc, &image).ok()?;
//! let mut live = catalogue::Catalogue::new(rt, alloc).ok()?;
//! let (_version, known) = live.load(alloc, "drop", &image, machine_spec::Table::One).ok()?;
//! let mut finder = live.reader(alloc).ok()?;
//! let (version, _program) = finder.find(known.name(), &known).ok()??;
//! assert!(version == 1);
//! ```
#![tactic(auto)]

mod catalogue;
mod edition;
mod fault;
mod finder;
mod known;
mod laws;
mod loading;
mod publications;
mod readings;
mod versions;

pub use crate::catalogue::Catalogue;
pub use crate::fault::CatFault;
pub use crate::finder::Finder;
pub use crate::known::Known;
pub use crate::laws::follows_core;
