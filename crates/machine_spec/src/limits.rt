//! The limits of the machine.

/// The most slots of an image.
pub const MAX_SLOTS: usize = 16_384;

/// How many bytes the stack has.
pub const STACK_SIZE: usize = 512;

/// The most emissions of a run.
pub const MAX_EMISSIONS: usize = 16;
