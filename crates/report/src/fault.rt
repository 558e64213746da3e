use thiserror::Error;

/// Why a report is not written to its end. A beginning of it may be written.
#[derive(Clone, Copy, Debug, PartialEq, Eq, Error)]
pub enum ReportFault {
    /// The writer failed.
    #[error("Write")]
    Write,
    /// Memory ran out.
    #[error("Memory")]
    Memory,
}
