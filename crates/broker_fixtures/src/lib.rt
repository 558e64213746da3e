//! What tests, benchmarks and the soak do to a broker, and what they see of it.
#![tactic(auto)]

mod books;
mod calls;
mod endings;
mod logs;
mod waiting;

pub use crate::books::{audited, is_row, step, step_book};
pub use crate::calls::{NAME, deploy, drain, ends, load, put};
pub use crate::endings::{Ending, new_broker};
pub use crate::logs::{advance, place_of, program_of, results_of};
pub use crate::waiting::sees;
