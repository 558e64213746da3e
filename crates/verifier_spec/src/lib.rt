//! The verifier's abstract states, its checks, and when a list of abstract states is an annotation
//! of a program.
//!
//! This crate has the types and the definitions that a reader must believe, and no function.
#![tactic(auto)]

mod fault;
mod interval;
mod state;

pub use fault::{Check, LoadFault, VerifyFault};
pub use interval::Interval;
pub use state::{Abs, Abstract, Range, StackSet};
