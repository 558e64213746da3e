//! What becomes of records, and how many met which fate.
#![tactic(auto)]

mod counts;
mod fate;
mod rejects;

pub use crate::counts::Counts;
pub use crate::fate::Fate;
