use machine_spec::IsaFault;
use thiserror::Error;

/// Why the verifier refuses an instruction.
#[derive(Clone, Copy, Debug, PartialEq, Eq, Drop, Error)]
pub enum Check {
    /// A jump leads outside the image or into a second slot.
    #[error("V1 JumpTarget")]
    JumpTarget,
    /// A jump goes back.
    #[error("V2 BackJump")]
    BackJump,
    /// The last instruction is neither an EXIT nor a jump without a condition.
    #[error("V3 RunsOff")]
    RunsOff,
    /// A register that is read may have no value.
    #[error("V4 Unset")]
    Unset,
    /// An address is used where a number is needed, or the other way round, or could leave its
    /// range.
    #[error("V5 Type")]
    WrongType,
    /// r10 is written.
    #[error("V6 Frame")]
    Frame,
    /// A load could read outside the key or the value.
    #[error("V7 RecordBounds")]
    RecordBounds,
    /// A load or a store could reach outside the stack.
    #[error("V8 StackBounds")]
    StackBounds,
    /// A load could read a stack byte that is not set.
    #[error("V9 StackUnset")]
    StackUnset,
    /// A key or a value is written.
    #[error("V10 ReadOnly")]
    ReadOnly,
    /// No helper has the number.
    #[error("V11 Helper")]
    Helper,
    /// A helper's argument is not of its kind.
    #[error("V12 HelperArg")]
    HelperArg,
    /// r0 may be an address at the exit.
    #[error("V13 Exit")]
    Exit,
    /// Memory ran out.
    #[error("V14 Memory")]
    Memory,
    /// The list of abstract states is no annotation.
    #[error("V15 Notes")]
    Notes,
}

/// A refusal at an instruction, by the instruction's number from 0.
#[derive(Clone, Copy, Debug, PartialEq, Eq, Drop, Error)]
#[error("{kind} at {pc}")]
pub struct VerifyFault {
    pub pc: usize,
    pub kind: Check,
}

/// Why a program is not loaded.
#[derive(Clone, Copy, Debug, PartialEq, Eq, Drop, Error)]
pub enum LoadFault {
    /// The image is not one of the profile's instructions.
    #[error("{0}")]
    Isa(IsaFault),
    /// The verifier refuses the program.
    #[error("{0}")]
    Verify(VerifyFault),
}
