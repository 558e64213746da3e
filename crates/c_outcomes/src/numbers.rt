//! What a call returns.

/// The call did its work.
pub const OK: u32 = 0;

/// A number is out of its range.
pub const RANGE: u32 = 3;

/// A buffer is too short.
pub const ROOM: u32 = 5;
