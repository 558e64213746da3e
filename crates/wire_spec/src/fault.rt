ghost use Rattle.std.specs.Prelude.{◌≡◌};
ghost use Rattle.wire_spec.specs.declared.fault.BatchFault.TheVariants.{Memory};

use std::alloc::{AllocError, AllocFailed};
use thiserror::Error;

/// Why bytes begin with no varint (or varlong), the first reason in this order.
#[derive(Clone, Copy, Debug, PartialEq, Eq, Error)]
pub enum VarintFault {
    /// No byte ends the number, and fewer bytes are there than it may have.
    #[error("Short")]
    Short,
    /// The number has more bytes than it may have, or more bits than its width.
    #[error("Long")]
    Long,
    /// The last of several bytes is 0, so that fewer would do.
    #[error("NotShortest")]
    NotShortest,
}

/// Why bytes begin with no record batch, the first reason in the order in which a batch is checked:
/// `Short` (of the first 12 bytes), `Length`, `TooLarge`, `Short` (of the whole batch), and then from
/// `Magic` on. `Memory` has no place in it.
#[derive(Clone, Copy, Debug, PartialEq, Eq, Error)]
pub enum BatchFault {
    /// Fewer bytes are there than the batch has.
    #[error("B1 Short")]
    Short,
    /// The field batchLength is less than the rest of the header has.
    #[error("B2 Length")]
    Length,
    /// The batch has more bytes than a batch may have.
    #[error("B3 TooLarge")]
    TooLarge,
    /// The field magic is not 2.
    #[error("B4 Magic")]
    Magic,
    /// The field crc is not the checksum of what follows it.
    #[error("B5 Crc")]
    Crc,
    /// The field attributes is not 0: a compressed, transactional or control batch, or one that has
    /// the time of its append.
    #[error("B6 Attributes")]
    Attributes,
    /// The number of records is out of range, or lastOffsetDelta is not one less.
    #[error("B7 Count")]
    Count,
    /// This record, from 0, is none, has another offset delta or runs past the batch; or, where it
    /// is the number of records, bytes follow the last one.
    #[error("B8 Record record {0}")]
    Record(u32),
    /// A timestamp is out of range, or maxTimestamp is not the greatest.
    #[error("B9 Timestamp")]
    Timestamp,
    /// Memory ran out.
    #[error("B10 Memory")]
    Memory,
}

impl From<AllocError> for BatchFault {
    ghost from_gives = { λ _ e. e ≡ Memory };

    fn from(_e: AllocError) -> BatchFault {
        BatchFault::Memory
    }
}

impl<T: Drop> From<AllocFailed<T>> for BatchFault {
    ghost from_gives = { λ _ e. e ≡ Memory };

    fn from(_e: AllocFailed<T>) -> BatchFault {
        BatchFault::Memory
    }
}
