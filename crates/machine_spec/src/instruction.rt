ghost use Rattle.std.specs.Prelude.{◌≡◌};
ghost use Rattle.machine_spec.specs.Image.{distance_of};
ghost use Rattle.machine_spec.specs.Traps.{is_stack};
ghost use Rattle.machine_spec.specs.Values.{byte_count};

use crate::{Change, Operation, Test, Width};
use thiserror::Error;

/// What an address lies in: the program's stack, the record's key or the record's value.
#[derive(Clone, Copy, Debug, PartialEq, Eq)]
pub enum Region {
    Stack,
    Key,
    Value,
}

impl Region {
    /// Whether it is the stack.
    pub fn is_stack(self) -> bool
        ensures { result ≡ is_stack self }
    {
        match self {
            Region::Stack => true,
            Region::Key => false,
            Region::Value => false,
        }
    }
}

/// How many bytes a load or a store moves: 1, 2, 4 or 8 (RFC 9669, section 5).
#[derive(Clone, Copy, Debug, PartialEq, Eq)]
pub enum Size {
    Byte,
    Half,
    Word,
    Double,
}

impl Size {
    /// How many bytes it is.
    pub fn byte_count(self) -> u8
        ensures { result ≡ byte_count self }
    {
        match self {
            Size::Byte => 1,
            Size::Half => 2,
            Size::Word => 4,
            Size::Double => 8,
        }
    }
}

/// What a load fills the bits above its bytes with: with 0, or with the top bit of its bytes (RFC
/// 9669, sections 5.1 and 5.2).
#[derive(Clone, Copy, Debug, PartialEq, Eq)]
pub enum Extension {
    Zero,
    Sign,
}

/// How many slots a jump without a condition leaps, from the slot after it. There are two
/// spellings: 16 bits in the offset, or 32 in the immediate (RFC 9669, section 4.3).
#[derive(Clone, Copy, Debug, PartialEq, Eq)]
pub enum Distance {
    Short(i16),
    Long(i32),
}

impl Distance {
    /// The number of slots; below 0 it leads back.
    pub fn slots(self) -> i32
        ensures { result ≡ distance_of self }
    {
        match self {
            Distance::Short(slots) => i32::from(slots),
            Distance::Long(slots) => slots,
        }
    }
}

/// The second operand: a register, or the immediate of the instruction.
#[derive(Clone, Copy, Debug, PartialEq, Eq)]
pub enum Source {
    Register(u8),
    Immediate(i32),
}

/// One instruction. Registers are r0 to r10.
#[derive(Clone, Copy, Debug, PartialEq, Eq)]
pub enum Instruction {
    /// dst = source. Fields: width, dst, source.
    Move(Width, u8, Source),
    /// dst = dst OPERATION source. Fields: width, operation, dst, source.
    Compute(Width, Operation, u8, Source),
    /// dst = the bytes at base + offset, extended to 64 bits. Fields: size, extension, dst, base,
    /// offset in bytes. No opcode sign-extends eight bytes.
    Load(Size, Extension, u8, u8, i16),
    /// dst = the change of src; a negation and a byte order change dst itself. Fields: change, dst,
    /// src.
    Unary(Change, u8, u8),
    /// The bytes at base + offset = the low bytes of source. Fields: size, base, offset in bytes,
    /// source.
    Store(Size, u8, i16, Source),
    /// Where dst TEST source holds, the slot after this one plus the offset is next. Fields:
    /// width, test, dst, source, offset in slots.
    JumpIf(Width, Test, u8, Source, i16),
    /// The slot after this one plus the distance is next.
    Jump(Distance),
    /// dst = a number of 64 bits. The instruction has two slots. Fields: dst, number.
    Wide(u8, u64),
    /// Calls the helper with this number.
    Call(i32),
    Exit,
}

/// An instruction and the slot of the image that it begins at.
#[derive(Clone, Copy, Debug, PartialEq, Eq)]
pub struct Placed {
    pub slot: usize,
    pub instruction: Instruction,
}

/// Why the plain machine stops without an outcome.
#[derive(Clone, Copy, Debug, PartialEq, Eq)]
pub enum Trap {
    /// K1: no instruction of the profile is at the slot.
    Form,
    /// K2: a taken jump goes back, outside the image or into a second slot.
    Jump,
    /// K3: the slot is past the end of the image.
    RanOff,
    /// K4: a register that is read has no value.
    Unset,
    /// K5: an address is used where a number is needed, or the other way round.
    WrongType,
    /// K6: r10 is written.
    Frame,
    /// K7: bytes outside this record's key or value.
    RecordBounds,
    /// K8: bytes outside the stack.
    StackBounds,
    /// K9: a stack byte that is not set is read.
    StackUnset,
    /// K10: a key or a value is written.
    ReadOnly,
    /// K11: no helper has the number.
    Helper,
    /// K12: a helper's argument is not of its kind.
    HelperArgument,
    /// K13: r0 is an address at the exit.
    Exit,
}

/// Why an image is refused. A slot is one of 8 bytes, from 0.
#[derive(Clone, Copy, Debug, PartialEq, Eq, Drop, Error)]
pub enum IsaFault {
    /// The image is empty, has over `MAX_SLOTS` slots or ends within one.
    #[error("I1 Size")]
    Size,
    /// No table has the opcode.
    #[error("I2 Opcode slot {0}")]
    Opcode(usize),
    /// A register field that the form uses is above 10.
    #[error("I3 Register slot {0}")]
    Register(usize),
    /// A field that the form does not use is not 0.
    #[error("I4 Unused slot {0}")]
    Unused(usize),
    /// The second slot of a wide instruction is missing or malformed.
    #[error("I5 Wide slot {0}")]
    Wide(usize),
    /// RFC 9669 has the instruction, and this profile does not.
    #[error("I6 NotInProfile slot {0}")]
    NotInProfile(usize),
    /// Memory ran out.
    #[error("I7 Memory")]
    Memory,
}
