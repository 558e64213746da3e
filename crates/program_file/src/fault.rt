ghost use Rattle.std.specs.Prelude.{◌≡◌};
ghost use Rattle.program_file.specs.declared.fault.FileFault.TheVariants.{Memory};

use std::alloc::{AllocError, AllocFailed};
use thiserror::Error;

/// Why bytes that begin as a program file are refused, the first reason in the order in which a file is
/// read: `Short` (of the first 16 bytes), `Version`, `Table`, `Short` (of the image), `Lines`. `Memory`
/// has no place in it.
#[derive(Clone, Copy, Debug, PartialEq, Eq, Error)]
pub enum FileFault {
    /// The bytes end before the image does.
    #[error("G1 Short")]
    Short,
    /// The version is not 1.
    #[error("G2 Version")]
    Version,
    /// The table is none of 1 to 3, or not the one that was asked for, or one that no program runs by.
    #[error("G3 Table")]
    Table,
    /// What follows the image is not lines of rising slots and their places.
    #[error("G4 Lines")]
    Lines,
    /// Memory ran out.
    #[error("G5 Memory")]
    Memory,
}

impl From<AllocError> for FileFault {
    ghost from_gives = { λ _ e. e ≡ Memory };

    fn from(_e: AllocError) -> FileFault {
        FileFault::Memory
    }
}

impl<T: Drop> From<AllocFailed<T>> for FileFault {
    ghost from_gives = { λ _ e. e ≡ Memory };

    fn from(_e: AllocFailed<T>) -> FileFault {
        FileFault::Memory
    }
}
