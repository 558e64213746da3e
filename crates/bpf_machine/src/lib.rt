//! The plain machine: runs any image on a record, decodable or not, and tests everything that the
//! machine of RFC 9669, as klog profiles it, has a trap for.
//!
//! It keeps the tags of values and reads each instruction anew from the raw bytes. It is slow, and
//! is the reference that a faster one is held against.
//!
//! ```
//! // Reads the first byte of a value that has none.
//! let image = bpf_asm::assemble(alloc, "ld8 r0, [r1+0]\nexit\n").ok()?;
//! let headers = bpf_machine::Headers { list: Vec::new(alloc) };
//! let given = bpf_machine::Record { timestamp_delta: 0, key: None, value: None, headers };
//! let place = bpf_machine::Place { partition: 0, offset: 0, timestamp: 1_000, outputs: 1 };
//! let (end, _) = bpf_machine::trace(alloc, &image, &given, &place, bpf_machine::Table::One).ok()?;
//! assert!(matches!(end, bpf_machine::End::Trap(bpf_machine::Trap::RecordBounds)));
//! ```
#![tactic(auto)]

mod effects;
mod machine;
mod memory;
mod part_effects;
mod registers;
mod slots;
mod stack;
mod stepping;
mod tagged;
mod tracing;
mod traps;

pub use helpers::{Emission, Emissions, Outcome, Place};
pub use machine_spec::{Table, Trap};
pub use tracing::{End, trace};
pub use wire_spec::{Header, Headers, Record};
