use catalogue::CatFault;
use out_book::BookFault;
use part_log::LogFault;
use thiserror::Error;

/// Why a broker refuses a call. What it was called on stays as it was.
#[derive(Clone, Copy, Debug, PartialEq, Eq, Drop, Error)]
pub enum BrokerFault {
    /// There is no such input or output partition.
    #[error("P1 Partition")]
    Partition,
    /// The catalogue has no program of the name.
    #[error("P2 NoProgram")]
    NoProgram,
    /// Memory ran out, and neither in a log nor in the catalogue nor in a book.
    #[error("P3 Memory")]
    Memory,
    /// The catalogue refuses it, or gives no reader or no reading.
    #[error("{0}")]
    Catalogue(CatFault),
    /// The log refuses it.
    #[error("{0}")]
    Log(LogFault),
    /// The book refuses it.
    #[error("{0}")]
    Book(BookFault),
}
