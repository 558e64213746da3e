//! The parts of a record, as a program names them by numbers: how long they are, what bytes stand in them
//! and where, which number their digits write, and how Kafka's clients hash them.
//!
//! All functions are pure and take no memory. A sum of a place and a length doesn't wrap: beyond the end
//! of a part nothing is found. A part that a record hasn't has no bytes, and neither has a null one.
//!
//! ```
//! use record_parts::Part;
//! let (batch, _) = batch::decode(alloc, bytes::Bytes::from_static(BATCH)).ok()?;
//! let given = kafka_record::RecordRef::of(batch.records.list.first()?);
//! let place = record_parts::find(&given, Part::Value, 0, b"v");
//! assert!(place == 1 && record_parts::part_length(&given, Part::Key) == 3);
//! ```
#![tactic(auto)]

mod decimals;
mod finding;
mod hashing;
mod headers;
mod part;
mod ranges;

pub use decimals::{MAX_DIGITS, decimal};
pub use finding::{FIND_PLACES, find};
pub use hashing::hash;
pub use headers::header;
pub use machine_spec::Part;
pub use part::{part_bytes, part_length};
pub use ranges::{bytes_at, equals};
