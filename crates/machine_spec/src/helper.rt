//! The helpers that a program may call, each in one row (RFC 9669, section 4.3.1), and the tables that
//! list them (`specs/Signatures.antt`). What they do is defined in `specs/Machine.antt`.
ghost use Rattle.std.specs.Prelude.{◌≡◌};
ghost use Rattle.machine_spec.specs.Image.{helpers_of};
ghost use Rattle.machine_spec.specs.Signatures.{row, signature_of, helper_among, helper_of};

use wire_spec::{MAX_HEADER_KEY, MAX_HEADER_VALUE, MAX_HEADERS, MAX_VALUE, TIMESTAMP_END};

/// A function of the host that a program may call.
#[derive(Clone, Copy, Debug, PartialEq, Eq)]
pub enum Helper {
    /// Copies a part of the record's value to the stack, or zeros where it has no such part. r1 and
    /// r3: the address and the length of the room for it, r2: where the part begins.
    LoadValue,
    /// Copies a part of the record's key in the same way.
    LoadKey,
    /// Emits the record as it is. r1: the output partition.
    EmitRecord,
    /// Emits the record's key with other bytes as its value and no headers. r1: the output
    /// partition, r2 and r3: the address and the length of the value.
    EmitValue,
    /// Emits bytes as a key and bytes as a value, with no headers. r1: the output partition, r2 and
    /// r3: the address and the length of the key, r4 and r5: those of the value.
    Emit,
    /// Emits the record's key with a null value and no headers. r1: the output partition.
    EmitNull,
    /// The record's offset.
    Offset,
    /// The record's timestamp.
    Timestamp,
    /// The record's input partition.
    Partition,
    /// How many headers the record has.
    HeaderCount,
    /// Copies the key of a header to the stack, with zeros after its end, and answers the key's length
    /// plus 1, or 0 where there is no such header. r1 and r3: the address and the length of the room for
    /// it, r2: the header's position, from 0.
    HeaderKey,
    /// Copies the value of a header in the same way, and answers 0 where there is no such header, 1
    /// where the value is null, else the value's length plus 2.
    HeaderValue,
    /// Answers 0 where the record hasn't a part, 1 where it is null, else its length plus 2. r1: the
    /// part's number.
    PartLength,
    /// Copies a piece of a part to the stack, as `LoadValue` does of the value. r4: the part's number.
    LoadPart,
    /// The least place from the given one on, and at most 4,095 past it, at which bytes stand within a
    /// part, plus 1; else 0. r1: the part's number, r2: the place, r3 and r4: the address and the length
    /// of the bytes.
    Find,
    /// 1 where bytes stand at a place within a part, else 0. It takes what `Find` takes.
    Equals,
    /// The number that 1 to 18 digits of a part write, plus 1; else 0. r1: the part's number, r2 and r3:
    /// where they begin and how many they are.
    Decimal,
    /// The hash of a part by which Kafka's clients choose a partition, 0 of a null or absent part. r1:
    /// the part's number.
    Hash,
    /// The position plus 1 of the first header with a key, else 0. r1 and r2: the address and the length
    /// of the key.
    FindHeader,
    /// Emits the record's key and headers with a piece of a part as its value. r1: the output partition,
    /// r2: the part's number, r3 and r4: where the piece begins and its length.
    EmitPart,
    /// Emits the record with bytes in place of a piece of its value. r1: the output partition, r2 and
    /// r3: where the piece begins and its length, r4 and r5: the address and the length of the bytes.
    EmitChanged,
    /// Adds a header to what the run emits from then on, after its other headers. r1 and r2: the address and
    /// the length of its key, r3 and r4: those of its value.
    AddHeader,
}

/// The helper table of a program: which helpers it may call.
#[derive(Clone, Copy, Debug, PartialEq, Eq)]
pub enum Table {
    /// Helpers 1 to 9.
    One,
    /// Helpers 1 to 12.
    Two,
    /// Helpers 1 to 22.
    Three,
}

/// What an argument of a helper must be.
#[derive(Clone, Copy, Debug, PartialEq, Eq)]
pub enum Argument {
    /// There is no argument.
    Nothing,
    /// A number. Field: its register.
    Number(u8),
    /// Bytes that the helper reads. Fields: the registers of their address and of their length.
    Bytes(u8, u8),
    /// Room on the stack that the helper writes to, of one byte at least. Fields: the registers of
    /// its address and of its length.
    Room(u8, u8),
}

/// What a helper takes and what it answers.
#[derive(Clone, Copy, Debug, PartialEq, Eq)]
pub struct Signature {
    /// The number that a call names it by.
    pub number: i32,
    /// Its arguments, which are in r1 to r5.
    pub arguments: [Argument; 4],
    /// The greatest number that it answers.
    pub greatest: u64,
}

/// Every helper, in the order of its numbers.
pub const HELPERS: [Helper; 22] = [
    Helper::LoadValue,
    Helper::LoadKey,
    Helper::EmitRecord,
    Helper::EmitValue,
    Helper::Emit,
    Helper::EmitNull,
    Helper::Offset,
    Helper::Timestamp,
    Helper::Partition,
    Helper::HeaderCount,
    Helper::HeaderKey,
    Helper::HeaderValue,
    Helper::PartLength,
    Helper::LoadPart,
    Helper::Find,
    Helper::Equals,
    Helper::Decimal,
    Helper::Hash,
    Helper::FindHeader,
    Helper::EmitPart,
    Helper::EmitChanged,
    Helper::AddHeader,
];

/// The helpers of table one.
pub const TABLE_ONE: [Helper; 9] = [
    Helper::LoadValue,
    Helper::LoadKey,
    Helper::EmitRecord,
    Helper::EmitValue,
    Helper::Emit,
    Helper::EmitNull,
    Helper::Offset,
    Helper::Timestamp,
    Helper::Partition,
];

/// The helpers of table two.
pub const TABLE_TWO: [Helper; 12] = [
    Helper::LoadValue,
    Helper::LoadKey,
    Helper::EmitRecord,
    Helper::EmitValue,
    Helper::Emit,
    Helper::EmitNull,
    Helper::Offset,
    Helper::Timestamp,
    Helper::Partition,
    Helper::HeaderCount,
    Helper::HeaderKey,
    Helper::HeaderValue,
];

/// A helper takes room on the stack, and where what it copies there begins or which header it is.
const WITH_ROOM: [Argument; 4] = [
    Argument::Room(1, 3),
    Argument::Number(2),
    Argument::Nothing,
    Argument::Nothing,
];

/// A helper's only argument is the output partition that it emits to.
const TO_OUTPUT: [Argument; 4] = [
    Argument::Number(1),
    Argument::Nothing,
    Argument::Nothing,
    Argument::Nothing,
];

/// It also takes the bytes of a value.
const WITH_VALUE: [Argument; 4] = [
    Argument::Number(1),
    Argument::Bytes(2, 3),
    Argument::Nothing,
    Argument::Nothing,
];

/// It also takes the bytes of a key and of a value.
const WITH_KEY_AND_VALUE: [Argument; 4] = [
    Argument::Number(1),
    Argument::Bytes(2, 3),
    Argument::Bytes(4, 5),
    Argument::Nothing,
];

const NO_ARGUMENTS: [Argument; 4] = [
    Argument::Nothing,
    Argument::Nothing,
    Argument::Nothing,
    Argument::Nothing,
];

/// A helper's only argument is a part's number.
const ONE_PART: [Argument; 4] = [
    Argument::Number(1),
    Argument::Nothing,
    Argument::Nothing,
    Argument::Nothing,
];

/// A helper takes room on the stack, a place, and a part's number.
const WITH_ROOM_AND_PART: [Argument; 4] = [
    Argument::Room(1, 3),
    Argument::Number(2),
    Argument::Number(4),
    Argument::Nothing,
];

/// A helper takes a part's number, a place in it, and bytes.
const PLACE_AND_BYTES: [Argument; 4] = [
    Argument::Number(1),
    Argument::Number(2),
    Argument::Bytes(3, 4),
    Argument::Nothing,
];

/// A helper takes a part's number, a place in it, and a length.
const THREE_NUMBERS: [Argument; 4] = [
    Argument::Number(1),
    Argument::Number(2),
    Argument::Number(3),
    Argument::Nothing,
];

/// A helper's only argument is bytes.
const ONE_TEXT: [Argument; 4] = [
    Argument::Bytes(1, 2),
    Argument::Nothing,
    Argument::Nothing,
    Argument::Nothing,
];

/// A helper takes an output partition, a part's number, a place in it, and a length.
const FOUR_NUMBERS: [Argument; 4] = [
    Argument::Number(1),
    Argument::Number(2),
    Argument::Number(3),
    Argument::Number(4),
];

/// A helper takes an output partition, a place and a length in the value, and bytes.
const WITH_CHANGE: [Argument; 4] = [
    Argument::Number(1),
    Argument::Number(2),
    Argument::Number(3),
    Argument::Bytes(4, 5),
];

/// A helper takes the bytes of a header's key and of its value.
const WITH_HEADER: [Argument; 4] = [
    Argument::Bytes(1, 2),
    Argument::Bytes(3, 4),
    Argument::Nothing,
    Argument::Nothing,
];

/// A row: the number that names a helper, its arguments, and the greatest number that it answers.
fn row(number: i32, arguments: [Argument; 4], greatest: u64) -> Signature
    ensures { result ≡ row number arguments greatest }
{
    Signature {
        number,
        arguments,
        greatest,
    }
}

/// The first of these helpers that has a number.
#[tactic(auto, unfolding(crate::specs::Signatures::helper_among))]
fn find_helper(helpers: &[Helper], number: i32) -> Option<Helper>
    ensures { result ≡ helper_among helpers.now number }
{
    for helper in helpers {
        if helper.signature().number == number {
            return Some(*helper);
        }
    }
    None
}

impl Helper {
    /// The helper that a call names by this number, if there is one.
    pub fn with_number(number: i32) -> Option<Helper>
        ensures { result ≡ helper_of number }
    {
        find_helper(&HELPERS, number)
    }

    /// What the helper takes and what it answers.
    pub fn signature(self) -> Signature
        ensures { result ≡ signature_of self }
    {
        match self {
            Helper::LoadValue => row(1, WITH_ROOM, 1),
            Helper::LoadKey => row(2, WITH_ROOM, 1),
            Helper::EmitRecord => row(3, TO_OUTPUT, 3),
            Helper::EmitValue => row(4, WITH_VALUE, 3),
            Helper::Emit => row(5, WITH_KEY_AND_VALUE, 3),
            Helper::EmitNull => row(6, TO_OUTPUT, 3),
            Helper::Offset => row(7, NO_ARGUMENTS, TIMESTAMP_END - 1),
            Helper::Timestamp => row(8, NO_ARGUMENTS, TIMESTAMP_END - 1),
            Helper::Partition => row(9, NO_ARGUMENTS, 63),
            Helper::HeaderCount => row(10, NO_ARGUMENTS, MAX_HEADERS as u64),
            Helper::HeaderKey => row(11, WITH_ROOM, MAX_HEADER_KEY as u64 + 1),
            Helper::HeaderValue => row(12, WITH_ROOM, MAX_HEADER_VALUE as u64 + 2),
            Helper::PartLength => row(13, ONE_PART, MAX_VALUE as u64 + 2),
            Helper::LoadPart => row(14, WITH_ROOM_AND_PART, 1),
            Helper::Find => row(15, PLACE_AND_BYTES, MAX_VALUE as u64 + 1),
            Helper::Equals => row(16, PLACE_AND_BYTES, 1),
            Helper::Decimal => row(17, THREE_NUMBERS, 1_000_000_000_000_000_000),
            Helper::Hash => row(18, ONE_PART, 0x7fff_ffff),
            Helper::FindHeader => row(19, ONE_TEXT, MAX_HEADERS as u64),
            Helper::EmitPart => row(20, FOUR_NUMBERS, 4),
            Helper::EmitChanged => row(21, WITH_CHANGE, 5),
            Helper::AddHeader => row(22, WITH_HEADER, 3),
        }
    }
}

impl Table {
    /// The helper that a call of a program of this table names by a number, if it may call one.
    pub fn with_number(self, number: i32) -> Option<Helper>
        ensures { result ≡ helper_among (helpers_of self) number }
    {
        match self {
            Table::One => find_helper(&TABLE_ONE, number),
            Table::Two => find_helper(&TABLE_TWO, number),
            Table::Three => find_helper(&HELPERS, number),
        }
    }
}
