//! The arithmetic of every operation, change of one number and test of a jump (RFC 9669, sections
//! 4.1 to 4.3), on numbers of 64 bits.
//!
//! `compute`, `change` and `test` choose by the operation; `bits32` and `bits64` have a function
//! for each operation at a width, for callers that have chosen already.
#![tactic(auto)]

pub mod bits32;
pub mod bits64;
mod dispatch;
mod low;
pub mod order;

pub use dispatch::{change, compute, test};
