//! Tests of images that are cut short anywhere, or have one byte changed, each place and each value; and
//! of calls that memory is refused to.

pub(crate) mod images;
mod refused;
