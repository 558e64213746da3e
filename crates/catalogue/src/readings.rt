//! What a reader of the published table knows.

use crate::known::Known;

/// What a reader knows: how often it read the published table, and the accepted loads that had made
/// the table that it read last. No value of it is made.
pub struct Readings {
    pub times: u64,
    // A clause reads an array as a list, of any length.
    pub loads: [Known; 0],
}
