//! Record batches through a program, with no log: the rows of each batch in each output partition,
//! and these as record batches again.
//!
//! ```
//! let image = bpf_asm::assemble(alloc, "mov64 r1, 0\ncall 3\nexit\n").ok()?;
//! let image = bytes::Bytes::copy_from_slice(alloc, &image).ok()?;
//! let program = log_item::Program::new(alloc, &image, machine_spec::Table::One).ok()?;
//! let origin = item_rows::Origin { input: 0, offset: 0, outputs: 1 };
//! let mut place = transform::BatchPlace { batch: 0, byte: 0 };
//! let made = transform::transform_batches(alloc, &program, &origin, BATCH, 1_000, &mut place).ok()?;
//! assert!(made.batches == 1 && made.outputs.len() == 1);
//! ```
#![tactic(auto)]

mod backlog;
mod flow;
mod laws;
mod memory;
mod outlet;
mod stream;

pub use crate::backlog::Backlog;
pub use crate::flow::{Transform, TransformFault};
pub use crate::laws::{many_batches, rows_of_a_log};
pub use crate::memory::{BatchPlace, OutputBatches, Stop, Transformed, transform_batches};
pub use crate::outlet::{Outlet, OutletFault};
pub use crate::stream::{StreamFault, Watch, transform_all, transform_watched};
