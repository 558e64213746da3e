//! Why a text is refused.

ghost use Rattle.std.specs.Prelude.{◌≡◌};
ghost use Rattle.bpf_asm.specs.Faults as definitions;

use thiserror::Error;

/// Why a text is refused, with the number of the faulty line, from 1.
#[derive(Clone, Copy, Debug, PartialEq, Eq, Drop, Error)]
pub enum AsmFault {
    /// No instruction has the word.
    #[error("A1 Word")]
    Word(usize),
    /// The word takes another number of operands, or one of another shape.
    #[error("A2 Operand")]
    Operand(usize),
    /// A number is out of its range.
    #[error("A3 Number")]
    Number(usize),
    /// A register is none of r0 to r10.
    #[error("A4 Register")]
    Register(usize),
    /// The instruction passes `MAX_SLOTS` slots, or no line says one.
    #[error("A5 Size")]
    Size(usize),
    /// Memory ran out.
    #[error("A6 Memory")]
    Memory,
}

/// What is wrong with a line.
#[derive(Clone, Copy, Debug, PartialEq, Eq)]
pub enum LineFault {
    Word,
    Operand,
    Register,
    Number,
}

impl AsmFault {
    /// The number of the faulty line, from 1; none where memory ran out.
    pub fn line(self) -> Option<usize>
        ensures { result ≡ definitions.line_of_fault self }
    {
        match self {
            AsmFault::Word(line)
            | AsmFault::Operand(line)
            | AsmFault::Number(line)
            | AsmFault::Register(line)
            | AsmFault::Size(line) => Some(line),
            AsmFault::Memory => None,
        }
    }
}

/// Which of two faults of a line is reported: one of the first word before one of the operands'
/// shapes before one of a register before one of a number.
fn first_fault(one: LineFault, other: LineFault) -> LineFault
    ensures { result ≡ definitions.first_fault one other }
{
    match (one, other) {
        (LineFault::Word, _) | (_, LineFault::Word) => LineFault::Word,
        (LineFault::Operand, _) | (_, LineFault::Operand) => LineFault::Operand,
        (LineFault::Register, _) | (_, LineFault::Register) => LineFault::Register,
        (LineFault::Number, LineFault::Number) => LineFault::Number,
    }
}

/// Two readings of a line: both results, or the fault that is reported for the line.
pub fn both<A: Copy, B: Copy>(
    one: Result<A, LineFault>,
    other: Result<B, LineFault>,
) -> Result<(A, B), LineFault>
    ensures { result ≡ definitions.both one other }
{
    match (one, other) {
        (Ok(a), Ok(b)) => Ok((a, b)),
        (Ok(_), Err(fault)) | (Err(fault), Ok(_)) => Err(fault),
        (Err(fault), Err(later)) => Err(first_fault(fault, later)),
    }
}

/// The fault of the line with this number.
pub fn at_line(line: usize, fault: LineFault) -> AsmFault
    ensures { result ≡ definitions.at_line line fault }
{
    match fault {
        LineFault::Word => AsmFault::Word(line),
        LineFault::Operand => AsmFault::Operand(line),
        LineFault::Register => AsmFault::Register(line),
        LineFault::Number => AsmFault::Number(line),
    }
}
