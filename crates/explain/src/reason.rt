//! What a refusal is about, in terms of what is known before the refused instruction.

use crate::shown::{Bytes, Distances, Shown, region_word};
use machine_spec::Region;
use thiserror::Error;
use verifier_spec::Abs;

/// The bytes that an access may reach, by the register that it is made by.
#[derive(Clone, Copy, Debug, PartialEq, Eq, Error)]
#[error("r{base} ({known}) reaches {bytes} of the {name}", known = Shown(*.kind), bytes = Bytes(*.first, *.last), name = region_word(*.region))]
pub struct Reached {
    /// The register.
    pub base: u8,
    /// What is known of it.
    pub kind: Abs,
    /// What it addresses.
    pub region: Region,
    /// The first byte that may be reached, counted from the region's start.
    pub first: i128,
    /// The last byte that may be reached.
    pub last: i128,
}

/// What a refusal is about.
#[derive(Clone, Copy, Debug, PartialEq, Eq, Error)]
pub enum Reason {
    /// The jump leads to a slot at which no instruction begins.
    #[error("the jump leads to slot {0}, where no instruction begins")]
    NoTarget(i128),
    /// The jump leads back to a slot.
    #[error("the jump leads back to slot {0}")]
    Back(i128),
    /// No instruction follows one that is neither EXIT nor a jump without a condition.
    #[error("no instruction follows, and this is neither exit nor a jump without a condition")]
    Last,
    /// r10 is written.
    #[error("r10 is the end of the stack and is never written")]
    Frame,
    /// No helper of the program's table has the number.
    #[error("no helper of the program's table has the number {0}")]
    NoHelper(i32),
    /// The register is read and may hold nothing.
    #[error("r{0} is read and may hold nothing")]
    Unknown(u8),
    /// A number is needed. Fields: the register, what is known of it.
    #[error("r{0} ({kind}) is no number, and a number is needed", kind = Shown(*.1))]
    NoNumber(u8, Abs),
    /// An address is needed. Fields: the register, what is known of it.
    #[error("r{0} ({kind}) is no address, and an address is needed", kind = Shown(*.1))]
    NoAddress(u8, Abs),
    /// An address is moved by a number that may be negative or not. Fields: the address's register,
    /// the number's, what is known of the number.
    #[error("r{1} ({kind}) may be negative or not, read as signed, and moves the address in r{0}", kind = Shown(*.2))]
    NoSign(u8, u8, Abs),
    /// An address is moved out of its range. Fields: its register, what is known of it, the least and
    /// the greatest number of bytes that it is moved by.
    #[error("r{0} ({kind}) is moved by {far} bytes, and an address is no further than 4294967296 from its region's start", kind = Shown(*.1), far = Distances(*.2, *.3))]
    TooFar(u8, Abs, i128, i128),
    /// The bytes of a key or a value are written.
    #[error("{0}, which is never written")]
    ReadOnly(Reached),
    /// Not all bytes are among those that the key or the value has. Fields: the bytes, how many bytes
    /// it has at least.
    #[error("{0}, whose length may be as low as {1}")]
    OutsideRecord(Reached, u32),
    /// Not all bytes are in the stack.
    #[error("{0}, which has bytes 0 to 511")]
    OutsideStack(Reached),
    /// Not all bytes are set. Fields: the bytes, the first of them that may not be set.
    #[error("{0}, and byte {1} may not be set")]
    UnsetByte(Reached, u64),
    /// An address and a length that a helper takes may name bytes that are not there or not set.
    /// Fields: the address's register, what is known of it, the length's register, what is known of
    /// it.
    #[error("r{0} ({kind}) and r{2} ({count}) name bytes that may lie outside the region, or may not be set", kind = Shown(*.1), count = Shown(*.3))]
    WrongBytes(u8, Abs, u8, Abs),
    /// An address and a length that a helper takes may name room that has no byte or that does not lie
    /// on the stack. Fields: as of `WrongBytes`.
    #[error("r{0} ({kind}) and r{2} ({count}) name room that may have no byte, or not lie on the stack", kind = Shown(*.1), count = Shown(*.3))]
    WrongRoom(u8, Abs, u8, Abs),
}
