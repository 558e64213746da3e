//! A compiler from rules to programs: `compile` gives the image of rules, and `compile_text` the program file of a
//! text of them.
//!
//! A program tries the rules in order. Each piece of it begins at its first instruction and goes on behind its last
//! one, so that pieces follow one another. r6 has the number of a part, r8 whether a condition holds, and r0 what was
//! answered or the value of a term.
//!
//! ```
//! let file = rules_compiler::compile_text(alloc, b"output 1 when value begins \"4\"\n").ok()?;
//! let program = annotate::load(alloc, &file.image, machine_spec::Table::Three);
//! assert!(file.table == 3 && program.is_ok());
//! ```
#![tactic(auto)]

mod actions;
mod blocks;
mod conditions;
mod fault;
mod loads;
mod openings;
mod pieces;
mod program;
mod searches;
mod terms;
mod tests;
mod text;
mod text_bytes;
mod values;

pub use fault::CompileFault;
pub use program::compile;
pub use text::{TextFault, compile_text};
