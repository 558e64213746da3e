//! Varints and varlongs as Kafka's records have them: signed numbers of 32 and 64 bits, in zigzag, in 1 to
//! 5 and 1 to 10 bytes of seven bits each, the lowest first. Only the shortest spelling is read.
//!
//! ```
//! let mut bytes = Vec::new(alloc);
//! varint::write32(-150, &mut bytes).ok()?;
//! let (number, size) = varint::read32(&bytes).ok()?;
//! assert!(number == -150 && size == 2);
//! ```
#![tactic(auto)]

mod reading;
mod writing;

pub use reading::{one_spelling, read32, read64};
pub use wire_spec::VarintFault;
pub use writing::{len32, len64, push32, push64, write32, write64};
