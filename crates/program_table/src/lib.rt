//! The table of a catalogue: the programs that were loaded, by name; and what a load asks of a name and
//! of an image, which the live table asks too.
//!
//! ```
//! let image = bpf_asm::assemble(alloc, "mov64 r0, 0\nexit\n").ok()?;
//! let image = bytes::Bytes::copy_from_slice(alloc, &image).ok()?;
//! let mut table = program_table::ProgramTable::new(alloc);
//! let name = log_spec::Name::new("drop")?;
//! let version = table.load(alloc, &name, &image, machine_spec::Table::One).ok()?;
//! assert!(version == 1 && table.version(&name, 2).is_none());
//! ```
#![tactic(auto)]

mod admission;
mod table;

pub use crate::admission::{admit, has_name_form};
pub use crate::table::ProgramTable;
