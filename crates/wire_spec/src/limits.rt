//! The limits of the message format's profile.

/// The longest key of a record, in bytes.
pub const MAX_KEY: usize = 4096;

/// The longest value of a record, in bytes.
pub const MAX_VALUE: usize = 1_048_576;

/// The most headers of a record.
pub const MAX_HEADERS: usize = 16;

/// The longest key of a header, in bytes.
pub const MAX_HEADER_KEY: usize = 255;

/// The longest value of a header, in bytes.
pub const MAX_HEADER_VALUE: usize = 4096;

/// The most bytes of a batch, its header among them.
pub const MAX_BATCH: usize = 4_194_304;

/// The most records of a batch.
pub const MAX_RECORDS: u32 = 10_000;

/// The most bytes that a header takes: its key and its value, each after a length of at most 5 bytes.
pub const MAX_HEADER_SIZE: usize = 5 + MAX_HEADER_KEY + (5 + MAX_HEADER_VALUE);

/// The most bytes of a record after its length: attributes, the timestamp's and the offset's delta,
/// key, value, the number of headers, and the headers.
pub const MAX_BODY_SIZE: usize = 1
    + 10
    + 5
    + (5 + MAX_KEY)
    + (5 + MAX_VALUE)
    + 5
    + MAX_HEADER_SIZE * MAX_HEADERS;

/// The most bytes that a record takes, its length among them.
pub const MAX_RECORD_SIZE: usize = 5 + MAX_BODY_SIZE;

/// The most bytes that are read of a stream at once.
pub const MAX_PIECE: usize = 65_536;

/// Timestamps and offsets are below it: 2^62.
pub const TIMESTAMP_END: u64 = 1 << 62;
