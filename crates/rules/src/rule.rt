//! What rules are.

use crate::condition::Condition;
use std::marker::Model;

/// A text of a rule, of any bytes. A clause sees them.
#[derive(Drop)]
pub struct Text {
    pub bytes: Vec<u8>,
}

impl Model for Text {
    ghost use Rattle.std.specs.Prelude.{List, ℕ};

    ghost Value = { List ℕ };

    ghost view = { λ t. t.bytes.items };
}

/// A part of a record.
#[derive(Drop)]
pub enum Part {
    /// `value`.
    Value,
    /// `key`.
    Key,
    /// `header TEXT`: the value of the first header with this key.
    Header(Text),
}

/// How bytes of a part are a number.
#[derive(Clone, Copy, Debug, PartialEq, Eq)]
pub enum Layout {
    /// `byte`: one byte.
    Byte,
    /// `u16be`: 16 bits, the highest byte first.
    U16Be,
    /// `u32be`.
    U32Be,
    /// `u64be`.
    U64Be,
    /// `u16le`: 16 bits, the lowest byte first.
    U16Le,
    /// `u32le`.
    U32Le,
    /// `u64le`.
    U64Le,
}

/// A number that a record has, or has not.
#[derive(Drop)]
pub enum Term {
    /// `length(PART)`: how many bytes there are.
    Length(Part),
    /// `byte(PART, PLACE)` and its kin: the number from a byte on, counted from 0.
    Number(Layout, Part, u32),
    /// `decimal(PART, PLACE, COUNT)`: the number that so many digits spell, from a byte on.
    Decimal(Part, u32, u32),
    /// `offset`: the record's offset in its input partition.
    Offset,
    /// `timestamp`: the record's timestamp, in milliseconds.
    Timestamp,
    /// `partition`: the record's input partition.
    Partition,
    /// `headers`: how many headers the record has.
    Headers,
}

/// How a number is compared with another one.
#[derive(Clone, Copy, Debug, PartialEq, Eq)]
pub enum Comparison {
    /// `=`.
    Equal,
    /// `!=`.
    NotEqual,
    /// `<`.
    Less,
    /// `<=`.
    LessOrEqual,
    /// `>`.
    Greater,
    /// `>=`.
    GreaterOrEqual,
}

/// One test of a record.
#[derive(Drop)]
pub enum Test {
    /// `PART is null`.
    Null(Part),
    /// `PART is absent`.
    Absent(Part),
    /// `PART = TEXT`.
    Equal(Part, Text),
    /// `PART begins TEXT`.
    Begins(Part, Text),
    /// `PART has TEXT`.
    Has(Part, Text),
    /// `TERM = NUMBER` and its kin.
    Compare(Term, Comparison, u64),
}

/// Bytes of a part: `[FROM..TO]`, or `[FROM..]` up to its end.
#[derive(Clone, Copy, Debug, PartialEq, Eq)]
pub struct Cut {
    /// The first byte, counted from 0.
    pub from: u32,
    /// The byte after the last one; the part's end where there is none.
    pub to: Option<u32>,
}

/// What an output partition gets, and which one.
#[derive(Drop)]
pub enum Output {
    /// `N`: the record.
    Record(u32),
    /// `hash(PART) % COUNT`: the record, by the hash of a part.
    Hashed(Part, u32),
    /// `N PART[FROM..TO]`: the record with bytes of a part as its value.
    Cut(u32, Part, Cut),
    /// `N with value[FROM..TO] = TEXT`: the record with other bytes in its value.
    Changed(u32, u32, u32, Text),
}

/// `and header TEXT = TEXT`: a header that is added to what is output.
#[derive(Drop)]
pub struct AddedHeader {
    pub key: Text,
    pub value: Text,
}

/// What becomes of a record.
#[derive(Drop)]
pub enum Action {
    /// `drop CODE`: it is rejected with the code.
    Drop(u64),
    /// `tombstone N`: an output partition gets its key with a null value.
    Tombstone(u32),
    /// `output ..`: an output partition gets it.
    Output(Output, Option<AddedHeader>),
}

/// A line of rules: what becomes of a record for which the condition holds, or of any record.
#[derive(Drop)]
pub struct Rule {
    pub action: Action,
    pub condition: Option<Condition>,
}
