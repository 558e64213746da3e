//! What the verifier knows of numbers, registers and the stack: intervals, sets of stack places, kinds of registers, and
//! the order of abstract states with its join.
#![tactic(auto)]

mod join;
pub mod kinds;
mod narrowing;
mod operations;
mod order;
mod places;
mod ranges;
mod sets;
mod widths;

pub use join::joined;
pub use narrowing::narrowed;
pub use operations::{changed_range, result_range};
pub use order::{is_within, same_region};
pub use places::{contains_all, with_places};
pub use ranges::is_proper;
pub use widths::{cut, whole};
