//! The text of programs: `assemble` gives the image that a text says, or the first line that it
//! refuses, `disassemble` the text of code, and `push_line` the line of one instruction.
//!
//! A line says one instruction: a word, and after spaces its operands between commas.
//!
//! ```
//! let image = bpf_asm::assemble(alloc, "mov64 r0, 7\nexit\n").ok()?;
//! let code = bpf_isa::decode(alloc, &image).ok()?;
//! let text = bpf_asm::disassemble(alloc, &code).ok()?;
//! assert!(text.as_str() == "mov64 r0, 7\nexit\n");
//! ```
#![tactic(auto)]

mod assembling;
mod disassembling;
mod fault;
mod laws;
mod line;
mod number;
mod operand;
mod reading;
mod word;

pub use assembling::assemble;
pub use disassembling::{disassemble, push_line};
pub use fault::AsmFault;
pub use laws::text_and_image;
