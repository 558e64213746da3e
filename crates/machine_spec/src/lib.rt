//! The machine of RFC 9669 as klog profiles it: its instructions, its states and what a program
//! means on a record.
//!
//! This crate has the types and the definitions that a reader must believe. Its few functions read
//! what the definitions say of an instruction and of a helper, which every crate above shares.
#![tactic(auto)]

mod helper;
mod instruction;
mod limits;
mod opcode;
mod operation;
mod outcome;
mod part;
mod summary;

pub use helper::{Argument, HELPERS, Helper, Signature, TABLE_ONE, TABLE_TWO, Table};
pub use instruction::{
    Distance, Extension, Instruction, IsaFault, Placed, Region, Size, Source, Trap,
};
pub use limits::{MAX_EMISSIONS, MAX_SLOTS, STACK_SIZE};
pub use opcode::TEMPLATES;
pub use operation::{ByteOrder, Change, ExtendedWidth, Operation, SwappedWidth, Test, Width};
pub use outcome::{Emission, Emissions, Outcome, Place};
pub use part::Part;
pub use summary::{Condition, Direction, MemoryOperand, Operands, Summary};
