//! Records and batches as data, and what their bytes mean.
//!
//! This crate has the types and the definitions that a reader must believe, and no function but the
//! texts of the faults, the conversions of a lack of memory to one of them, and the drop of headers.
#![tactic(auto)]

mod fault;
mod limits;
mod record;

pub use fault::{BatchFault, VarintFault};
pub use limits::{
    MAX_BATCH, MAX_BODY_SIZE, MAX_HEADER_KEY, MAX_HEADER_SIZE, MAX_HEADER_VALUE, MAX_HEADERS,
    MAX_KEY, MAX_PIECE, MAX_RECORD_SIZE, MAX_RECORDS, MAX_VALUE, TIMESTAMP_END,
};
pub use record::{Batch, Header, Headers, Record, Records};
