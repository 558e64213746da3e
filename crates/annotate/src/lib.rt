//! The loader: one pass in code order finds a program's abstract states, which the checker of
//! annotations then decides on.
//!
//! ```
//! // Byte 0 of a value that may be empty.
//! let image = bpf_asm::assemble(alloc, "ld8 r0, [r1+0]\nexit\n").ok()?;
//! let refused = annotate::load(alloc, &image, machine_spec::Table::One);
//! assert!(refused.is_err());
//! ```
#![tactic(auto)]

mod joining;
mod loader;

pub use joining::joined_states;
pub use loader::load;
pub use verifier_spec::LoadFault;
