//! Which conditions may stand at a place without parentheses.

/// Conditions, by what they may have outside of parentheses.
#[derive(Clone, Copy, Debug, PartialEq, Eq)]
pub enum Level {
    /// Any condition.
    Any,
    /// One with no `or`.
    All,
    /// One with no `or` and no `and`.
    One,
}
