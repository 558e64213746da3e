//! Arithmetic operations, changes of one number and the tests of jumps (RFC 9669, sections 4.1 to
//! 4.3). What they give is defined in `specs/Arithmetic.antt`.

ghost use Rattle.std.specs.Prelude.{◌≡◌};
ghost use Rattle.machine_spec.specs.Values.{is_subtraction, moves_address};

/// How many low bits of its operands an operation or a test works on: 32 in the classes ALU and
/// JMP32, 64 in ALU64 and JMP.
#[derive(Clone, Copy, Debug, PartialEq, Eq)]
pub enum Width {
    Bits32,
    Bits64,
}

/// An operation on two numbers (RFC 9669, section 4.1).
#[derive(Clone, Copy, Debug, PartialEq, Eq)]
pub enum Operation {
    Add,
    Sub,
    Mul,
    /// Unsigned; by 0 it gives 0.
    Div,
    /// Signed, rounded toward 0; by 0 it gives 0.
    SignedDiv,
    Or,
    And,
    LeftShift,
    /// Fills with 0.
    RightShift,
    /// The unsigned remainder; by 0 the dividend.
    Mod,
    /// The remainder of `SignedDiv`, which has the dividend's sign; by 0 the dividend.
    SignedMod,
    Xor,
    /// Fills with the sign.
    ArithmeticRightShift,
}

impl Operation {
    /// Whether it is a subtraction.
    pub fn is_subtraction(self) -> bool
        ensures { result ≡ is_subtraction self }
    {
        match self {
            Operation::Sub => true,
            Operation::Add
            | Operation::Mul
            | Operation::Div
            | Operation::SignedDiv
            | Operation::Or
            | Operation::And
            | Operation::LeftShift
            | Operation::RightShift
            | Operation::Mod
            | Operation::SignedMod
            | Operation::Xor
            | Operation::ArithmeticRightShift => false,
        }
    }

    /// Whether it moves an address by a number, at this width.
    pub fn moves_address(self, width: Width) -> bool
        ensures { result ≡ moves_address width self }
    {
        match width {
            Width::Bits32 => false,
            Width::Bits64 => match self {
                Operation::Add | Operation::Sub => true,
                Operation::Mul
                | Operation::Div
                | Operation::SignedDiv
                | Operation::Or
                | Operation::And
                | Operation::LeftShift
                | Operation::RightShift
                | Operation::Mod
                | Operation::SignedMod
                | Operation::Xor
                | Operation::ArithmeticRightShift => false,
            },
        }
    }
}

/// How many low bits of a number a change of byte order keeps (RFC 9669, section 4.2).
#[derive(Clone, Copy, Debug, PartialEq, Eq)]
pub enum SwappedWidth {
    Bits16,
    Bits32,
    Bits64,
}

/// How many low bits of a number a sign extension reads (RFC 9669, section 4.1).
#[derive(Clone, Copy, Debug, PartialEq, Eq)]
pub enum ExtendedWidth {
    Bits8,
    Bits16,
    Bits32,
}

/// The byte order that a number, which is little-endian, is put into (RFC 9669, section 4.2).
#[derive(Clone, Copy, Debug, PartialEq, Eq)]
pub enum ByteOrder {
    LittleEndian,
    BigEndian,
    /// The other than the one that the number is in.
    Swapped,
}

/// A change of one number (RFC 9669, sections 4.1 and 4.2).
#[derive(Clone, Copy, Debug, PartialEq, Eq)]
pub enum Change {
    /// Its negative.
    Negate(Width),
    /// Its low bytes in a byte order; the bits above them become 0.
    Order(ByteOrder, SwappedWidth),
    /// Its low bits, read as signed, as a number of the width.
    SignExtend(Width, ExtendedWidth),
}

/// The test of a conditional jump; the orders are unsigned where no name says otherwise (RFC 9669,
/// section 4.3).
#[derive(Clone, Copy, Debug, PartialEq, Eq)]
pub enum Test {
    Equal,
    NotEqual,
    Greater,
    GreaterOrEqual,
    Less,
    LessOrEqual,
    /// The two numbers have a bit in common.
    AnyBit,
    SignedGreater,
    SignedGreaterOrEqual,
    SignedLess,
    SignedLessOrEqual,
}
