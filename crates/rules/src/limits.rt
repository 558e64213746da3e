//! The limits of rules.

use wire_spec::MAX_VALUE;

/// The most rules of a text.
pub const MAX_RULES: usize = 1_024;

/// The most steps that a condition needs: a test 3, each `not` and each further `and` or `or` of a row 1 more, each
/// pair of parentheses 3 more.
pub const MAX_STEPS: usize = 100;

/// The greatest place in a part, counted from 0.
pub const MAX_PLACE: u32 = MAX_VALUE as u32;

/// The most digits that `decimal` reads.
pub const MAX_DIGITS: u32 = 18;

/// The greatest number of an output partition.
pub const MAX_OUTPUT: u32 = 63;

/// The greatest number that a hash is divided by.
pub const MAX_HASHED: u32 = 64;

/// The code of a `drop` that names none.
pub const DROP_CODE: u64 = 10;
