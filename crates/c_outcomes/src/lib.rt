//! What an outcome tells C: numbers, and bytes that are copied into buffers.
#![tactic(auto)]

mod copying;
mod emissions;
mod headers;
mod numbers;
mod telling;

pub use crate::copying::{copy, copy_found};
pub use crate::emissions::{EmissionTold, code_of, emission_at, emissions_of, key_at, value_at};
pub use crate::headers::{HeaderTold, header_at, header_key_at, header_value_at};
pub use crate::numbers::{OK, RANGE, ROOM};
pub use crate::telling::{Telling, item_at, tell};
