/// What became of a record.
#[derive(Clone, Copy, Debug, PartialEq, Eq)]
pub enum Fate {
    /// There is no mark before it, so no program ran.
    Unprogrammed,
    /// The program kept its emissions.
    Kept,
    /// The program rejected it by this code.
    Rejected(u64),
}
