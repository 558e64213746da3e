//! Tests of schedules by public calls: lists of the core's events, and interleavings of what threads do with logs, books
//! and the catalogue.

mod core_lists;
mod desk;
mod interleavings;
pub(crate) mod making;
mod play;
mod rows;
