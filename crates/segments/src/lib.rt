//! A list that grows in segments of 256 elements, of which only the last one grows. No element moves once it is there,
//! however long the list gets.
#![tactic(auto)]

mod segments;
mod spares;

pub use crate::segments::{SEGMENT, Segments};
pub use crate::spares::Spares;
