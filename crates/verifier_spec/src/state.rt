use machine_spec::Region;

/// What is known of a register's value.
#[derive(Clone, Copy, Debug, PartialEq, Eq)]
pub enum Abs {
    /// Any value, or nothing.
    None,
    /// A number, from the first to the second, both among them.
    Num(u64, u64),
    /// The number that is exactly the length of the key or of the value.
    Len(Region),
    /// An address in a region, at an offset from the first to the second, both among them.
    Addr(Region, i64, i64),
}

/// A set of places in the stack: place k is bit k % 64 of word k / 64.
#[derive(Clone, Copy, Debug, PartialEq, Eq)]
pub struct StackSet {
    pub words: [u64; 8],
}

/// The least and the greatest length, in bytes, that a key or a value may have.
#[derive(Clone, Copy, Debug, PartialEq, Eq)]
pub struct Range {
    pub min: u32,
    pub max: u32,
}

/// An abstract state: what is known of each register, the ranges of the key's and the value's
/// lengths, and which stack bytes are certainly set.
#[derive(Clone, Copy, Debug, PartialEq, Eq)]
pub struct Abstract {
    pub registers: [Abs; 11],
    pub key: Range,
    pub value: Range,
    pub set: StackSet,
}
