//! Why rules are not compiled.

ghost use Rattle.std.specs.Prelude.{◌≡◌};
ghost use Rattle.rules_compiler.specs.declared.fault.CompileFault.TheVariants.{Memory};
ghost use Rattle.rules_compiler.specs.declared.fault.Refusal.TheVariants as refusals;
ghost use Rattle.rules_compiler.specs.Faults as definitions;

use std::alloc::{AllocError, AllocFailed};
use thiserror::Error;

/// Why rules are not compiled. A rule is named by its number, from 1.
#[derive(Clone, Copy, Debug, PartialEq, Eq, Drop, Error)]
pub enum CompileFault {
    /// With this rule the image would have more than `MAX_SLOTS` slots.
    #[error("rule {0}: E9 Slots")]
    Slots(usize),
    /// Memory ran out.
    #[error("E8 Memory")]
    Memory,
}

impl From<AllocError> for CompileFault {
    ghost from_gives = { λ _ e. e ≡ Memory };

    fn from(_e: AllocError) -> CompileFault {
        CompileFault::Memory
    }
}

impl<T: Drop> From<AllocFailed<T>> for CompileFault {
    ghost from_gives = { λ _ e. e ≡ Memory };

    fn from(_e: AllocFailed<T>) -> CompileFault {
        CompileFault::Memory
    }
}

/// Why a piece of code is not made.
#[derive(Clone, Copy, Debug, PartialEq, Eq, Drop)]
pub enum Refusal {
    /// A jump would lead over more instructions than an image may have.
    Far,
    /// Memory ran out.
    Memory,
}

impl From<AllocError> for Refusal {
    ghost from_gives = { λ _ e. e ≡ refusals.Memory };

    fn from(_e: AllocError) -> Refusal {
        Refusal::Memory
    }
}

impl<T: Drop> From<AllocFailed<T>> for Refusal {
    ghost from_gives = { λ _ e. e ≡ refusals.Memory };

    fn from(_e: AllocFailed<T>) -> Refusal {
        Refusal::Memory
    }
}

/// The fault of the rule with a number.
pub fn at_rule(number: usize, refusal: Refusal) -> CompileFault
    ensures { result ≡ definitions.at_rule number refusal }
{
    match refusal {
        Refusal::Far => CompileFault::Slots(number),
        Refusal::Memory => CompileFault::Memory,
    }
}
