//! The helpers that a program may call (RFC 9669, section 4.3.1): what each does, for whatever runs
//! programs.
#![tactic(auto)]

mod added;
mod changes;
mod drafts;
mod emitted;
mod emitter;
mod excerpts;
mod headers;
mod parts;
mod pieces;
mod place;
mod room;
mod slices;

pub use changes::ValueChange;
pub use drafts::{Draft, DraftHeaders, DraftKey, DraftValue, Edit};
pub use emitted::{Emitted, EmittedList};
pub use emitter::Emitter;
pub use excerpts::{Excerpt, Source};
pub use headers::{HeaderPart, header_count, header_key, header_value};
pub use kafka_record::{NullableBytes, RecordRef};
pub use machine_spec::{Emission, Emissions, Helper, Outcome, Part, Place};
pub use parts::{null_flags, text, text_length};
pub use pieces::Piece;
pub use place::{offset, partition, timestamp};
pub use room::{fill_room, load_part};
pub use slices::{PartSlice, share_value};
