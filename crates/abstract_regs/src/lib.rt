//! Abstract states of the verifier: their ranges, their order, the checks of an instruction in one,
//! and what an instruction makes of one.
#![tactic(auto)]

mod checks;
mod laws;
mod state;
mod transfer;

pub use checks::{greatest_displacement, is_one_sign, is_wrong_argument, least_displacement};
pub use laws::{join_is_least, order_is_kept, transfer_is_sound};
pub use machine_spec::{Instruction, Region, Table};
pub use state::{Edges, State};
pub use verifier_spec::{Abs, Abstract, Check, Range, StackSet};
