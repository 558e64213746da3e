/// What a step did.
#[derive(Clone, Copy, Debug, PartialEq, Eq)]
pub enum Stepped {
    /// The item was taken into the book; it has this number of rows there.
    Added(usize),
    /// There is no item to take.
    Nothing,
}
