//! Why the verifier accepts or refuses a program: its instructions, each with what is known before
//! it, up to the first that is refused, or those alone that lead to it, and then which register or
//! which bytes the refusal is about, and what usually leads to it. Of an image without code: what its
//! bytes are.
//!
//! ```
//! use explain::{Coverage, explain_image};
//! let image = bpf_asm::assemble(alloc, "ld8 r0, [r1+0]\nexit\n").ok()?;
//! let shown = explain_image(alloc, &image, machine_spec::Table::One, Coverage::All).ok()?;
//! assert!(shown.refusal.is_some());
//! ```
#![tactic(auto)]

mod accesses;
mod causes;
mod ending;
mod explanation;
mod graph;
mod hint;
mod hints;
mod image_fault;
mod listing;
mod loops;
mod meeting;
mod operands;
mod reason;
mod refusal;
mod registers;
mod shown;
mod slot_bytes;
mod way;

pub use explanation::{Diagnosis, Explanation, explain_image};
pub use hint::{Edge, Hint};
pub use image_fault::image_fault_text;
pub use reason::{Reached, Reason};
pub use refusal::refusal_text;
pub use way::Coverage;
