ghost use Rattle.std.specs.Prelude.{◌≡◌};
ghost use Rattle.out_book.specs.declared.fault.BookFault.TheVariants.{Memory};

use std::alloc::AllocError;
use thiserror::Error;

/// Why an item's rows are not added to a book. The book stays as it was.
#[derive(Clone, Copy, Debug, PartialEq, Eq, Drop, Error)]
pub enum BookFault {
    /// Items of the input partition that come before are not done; the first that isn't.
    #[error("O1 Gap expected {0}")]
    Gap(usize),
    /// The book has no such input partition, or walk and results name different items.
    #[error("O2 Partition")]
    Partition,
    /// Memory ran out.
    #[error("O3 Memory")]
    Memory,
}

impl From<AllocError> for BookFault {
    ghost from_gives = { λ _ e. e ≡ Memory };

    fn from(_e: AllocError) -> BookFault {
        BookFault::Memory
    }
}
