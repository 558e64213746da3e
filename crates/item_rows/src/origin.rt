/// Where an item is: its input partition, the offset of its first record, and how many output
/// partitions there are.
#[derive(Clone, Copy, Debug, PartialEq, Eq)]
pub struct Origin {
    /// The input partition, below 64.
    pub input: usize,
    /// How many records the items before it have, at most 2^62 - 10,000: so each offset is below 2^62.
    pub offset: u64,
    /// How many output partitions there are, 1 to 64.
    pub outputs: usize,
}
