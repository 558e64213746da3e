ghost use Rattle.std.specs.Prelude.{◌≡◌};
ghost use Rattle.kafka_record.specs.declared.fault.RecordFault.TheVariants.{Memory};

use std::alloc::{AllocError, AllocFailed};
use thiserror::Error;

/// Why no record was read.
#[derive(Clone, Copy, Debug, PartialEq, Eq, Error)]
pub enum RecordFault {
    /// The bytes begin with no record that has this offset delta.
    #[error("Bad")]
    Bad,
    /// Memory ran out.
    #[error("Memory")]
    Memory,
}

impl From<AllocError> for RecordFault {
    ghost from_gives = { λ _ e. e ≡ Memory };

    fn from(_e: AllocError) -> RecordFault {
        RecordFault::Memory
    }
}

impl<T: Drop> From<AllocFailed<T>> for RecordFault {
    ghost from_gives = { λ _ e. e ≡ Memory };

    fn from(_e: AllocFailed<T>) -> RecordFault {
        RecordFault::Memory
    }
}
