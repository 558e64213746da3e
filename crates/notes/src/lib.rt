//! The checker of annotations: from code and a list of abstract states, one for each reached
//! instruction, it makes a verified program or reports why the list is no annotation of the code.
//!
//! A verified program keeps the states at the targets of jumps; the others follow from them.
//!
//! ```
//! let image = bpf_asm::assemble(alloc, "mov64 r0, 0\nexit\n").ok()?;
//! let code = bpf_isa::decode(alloc, &image).ok()?;
//! let verified = notes::check_sparse(alloc, code, machine_spec::Table::One, Vec::new(alloc)).ok()?;
//! assert!(verified.kept() == 0);
//! ```
#![tactic(auto)]

mod decoded;
mod edges;
mod faults;
mod lookup;
mod region_list;
mod regions;
mod settling;
mod shape;
mod targets;
mod verified;

pub use lookup::claim_at;
pub use shape::failed_shape;
pub use verified::{Verified, check, check_sparse, keep_joined};
pub use verifier_spec::{Check, VerifyFault};
