//! What tests that walk rows assert.

use std::process::Abort;

/// No row is wrong; given is the number of the first one that is.
pub(crate) fn all_hold(rt: &impl Abort, wrong: Option<usize>) {
    assert!(rt; wrong.is_none(), "row {wrong:?}");
}
