//! Why a text is refused.

ghost use Rattle.std.specs.Prelude.{◌≡◌, length};
ghost use Rattle.rules.specs.declared.fault.LineFault.TheVariants.{Memory};
ghost use Rattle.rules.specs.declared.fault.RuleFault.TheVariants as rule_faults;
ghost use Rattle.rules.specs.Faults as definitions;

use std::alloc::{AllocError, AllocFailed};
use thiserror::Error;

/// A place in a text.
#[derive(Clone, Copy, Debug, PartialEq, Eq)]
pub struct Spot {
    /// The number of its line, from 1.
    pub line: usize,
    /// The number of its byte in the line, from 1.
    pub column: usize,
}

/// Why a text is refused, and where: the first fault of its first faulty line.
#[derive(Clone, Copy, Debug, PartialEq, Eq, Drop, Error)]
pub enum RuleFault {
    /// What stands there may not: a word, a sign, a number or a text.
    #[error("E1 Word")]
    Word(Spot),
    /// A number is none of 64 bits, or out of its range.
    #[error("E2 Number")]
    Number(Spot),
    /// A text has no quote at its end, or a backslash that nothing known follows.
    #[error("E3 Text")]
    Text(Spot),
    /// A text has more than 255 bytes.
    #[error("E4 Long")]
    Long(Spot),
    /// The condition needs more than `MAX_STEPS` steps here.
    #[error("E5 Deep")]
    Deep(Spot),
    /// The rule comes after `MAX_RULES` others.
    #[error("E6 Many")]
    Many(Spot),
    /// The line ends where a rule goes on.
    #[error("E7 End")]
    End(Spot),
    /// Memory ran out.
    #[error("E8 Memory")]
    Memory,
}

impl RuleFault {
    /// Where the fault is; nowhere where memory ran out.
    pub fn spot(self) -> Option<Spot>
        ensures { result ≡ definitions.spot_of self }
    {
        match self {
            RuleFault::Word(spot)
            | RuleFault::Number(spot)
            | RuleFault::Text(spot)
            | RuleFault::Long(spot)
            | RuleFault::Deep(spot)
            | RuleFault::Many(spot)
            | RuleFault::End(spot) => Some(spot),
            RuleFault::Memory => None,
        }
    }
}

impl<T: Drop> From<AllocFailed<T>> for RuleFault {
    ghost from_gives = { λ _ e. e ≡ rule_faults.Memory };

    fn from(_e: AllocFailed<T>) -> RuleFault {
        RuleFault::Memory
    }
}

/// What is wrong with a line, and how many bytes of it are left there.
#[derive(Clone, Copy, Debug, PartialEq, Eq, Drop)]
pub enum LineFault {
    Word(usize),
    Number(usize),
    Text(usize),
    Long(usize),
    Deep(usize),
    End(usize),
    Memory,
}

impl From<AllocError> for LineFault {
    ghost from_gives = { λ _ e. e ≡ Memory };

    fn from(_e: AllocError) -> LineFault {
        LineFault::Memory
    }
}

impl<T: Drop> From<AllocFailed<T>> for LineFault {
    ghost from_gives = { λ _ e. e ≡ Memory };

    fn from(_e: AllocFailed<T>) -> LineFault {
        LineFault::Memory
    }
}

/// The place in a line at which so many of its bytes are left.
pub fn spot_at(number: usize, line: &[u8], left: usize) -> Spot
    ensures { result ≡ definitions.spot_at number (length line.now) left }
{
    Spot {
        line: number,
        column: line.len().saturating_sub(left) + 1,
    }
}

/// The fault of a line with this number.
pub fn at_line(number: usize, line: &[u8], fault: LineFault) -> RuleFault
    ensures { result ≡ definitions.at_line number (length line.now) fault }
{
    match fault {
        LineFault::Word(left) => RuleFault::Word(spot_at(number, line, left)),
        LineFault::Number(left) => RuleFault::Number(spot_at(number, line, left)),
        LineFault::Text(left) => RuleFault::Text(spot_at(number, line, left)),
        LineFault::Long(left) => RuleFault::Long(spot_at(number, line, left)),
        LineFault::Deep(left) => RuleFault::Deep(spot_at(number, line, left)),
        LineFault::End(left) => RuleFault::End(spot_at(number, line, left)),
        LineFault::Memory => RuleFault::Memory,
    }
}
