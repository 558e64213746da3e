//! Records of Kafka's message format (magic 2): one record and its bytes.
//!
//! ```
//! use kafka_record::{Headers, Record};
//! let given = Record { timestamp_delta: 0, key: None, value: None, headers: Headers { list: Vec::new(alloc) } };
//! let mut spelled = Vec::new(alloc);
//! kafka_record::write(&given, 0, &mut spelled).ok()?;
//! let spelled = bytes::Bytes::from_vec(spelled).ok()?;
//! let (read, size) = kafka_record::read(alloc, &spelled, 0, 0).ok()?;
//! assert!(read.value.is_none() && size == 7);
//! ```
#![tactic(auto)]

mod by_ref;
mod fault;
mod header_spans;
mod headers;
mod limits;
mod nullable;
mod reading;
mod sharing;
mod sizes;
mod span_reading;
mod spans;
#[tactic(auto, using(crate::proofs::Written::keeping))]
mod writing;

pub use by_ref::RecordRef;
pub use fault::RecordFault;
pub use headers::{HeaderRef, HeadersRef};
pub use limits::{fits, is_text};
pub use nullable::NullableBytes;
pub use reading::{one_spelling, read};
pub use sharing::{share, share_bytes, share_headers};
pub use sizes::{size, size_of_parts};
pub use span_reading::read_span;
pub use spans::{Extent, Span};
pub use wire_spec::{Header, Headers, Record};
pub use writing::{write, write_parts, write_spelled};
