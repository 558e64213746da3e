//! Tests of what calls leave where memory runs out. They pass as they are, and in a run in which one
//! request for memory is refused: the call that it was for has returned its own fault for memory,
//! what it was called on is as it was, and the same call gives the right answer when it is made
//! again. `tools/dev/refuse_each.py` runs each test once for each of its requests. A refused call is
//! printed.

mod calls;
mod deliveries;
mod log_calls;
mod making;
mod reports;
mod rows;
pub(crate) mod scenarios;
mod starts;
mod steps;
mod streams;
