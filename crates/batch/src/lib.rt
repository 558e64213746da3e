//! Record batches of Kafka's message format (magic 2, uncompressed): a batch and its bytes.
//!
//! ```
//! let mut feed = batch::Feed::new(alloc);
//! feed.feed(BATCH).ok()?;
//! let first = feed.next().ok()??;
//! assert!(first.records.list.len() == 1);
//! ```
#![tactic(auto)]

mod feed;
mod fields;
mod limits;
mod packed;
mod reading;
mod sharing;
mod times;
mod writing;

pub use feed::Feed;
pub use fields::{i16_at, i32_at, i64_at, u16_at, u32_at};
pub use limits::{FRONT, HEADER, fits, record_len};
pub use packed::{PackedBatch, decode_packed};
pub use reading::{batch_size, decode, one_spelling};
pub use sharing::share;
pub use wire_spec::{Batch, BatchFault, Headers, MAX_BATCH, MAX_RECORDS, Records};
pub use writing::{begin, encode, finish};
