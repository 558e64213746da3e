//! The smallest pieces of code, and those that name a part of the record.

ghost use Rattle.std.specs.Prelude.{◌≡◌, ◌≤◌, ◌≤ℤ◌, ◌+ℤ◌, ◌*◌, ◌++◌, length, OnOk, pos};
ghost use Rattle.rules.specs.Limits.{FitsText, FitsPart};
ghost use Rattle.rules_compiler.specs.Pieces as definitions;

use machine_spec::{Instruction, Operation, Size, Source, Test, Width};
use rules::{Part, Text};
use std::alloc::AllocError;

/// What a call answers, and the value of a term.
pub const ANSWER: u8 = 0;

/// The number of a part of the record.
pub const PART: u8 = 6;

/// How many bytes the value has.
pub const LENGTH: u8 = 7;

/// 1 where a condition holds, else 0.
pub const TRUTH: u8 = 8;

/// The address of the value.
pub const VALUE: u8 = 9;

/// The address of the key, before a helper is called.
pub const KEY: u8 = 3;

/// How many bytes the key has, before a helper is called.
pub const KEY_LENGTH: u8 = 4;

/// The address of the stack's end.
pub const FRAME: u8 = 10;

/// A place of the stack, counted from its end: where a text begins.
pub const NEAR: i16 = -256;

/// The same of a text that stands beside another one: the stack's begin.
pub const FAR: i16 = -512;

/// A register gets a number.
pub fn set(register: u8, number: i32) -> Instruction
    ensures { result ≡ definitions.set register number }
{
    Instruction::Move(Width::Bits64, register, Source::Immediate(number))
}

/// A register gets what another one has.
pub fn copy(register: u8, from: u8) -> Instruction
    ensures { result ≡ definitions.copy register from }
{
    Instruction::Move(Width::Bits64, register, Source::Register(from))
}

/// A register gets the result of an operation on it and a number.
pub fn change(operation: Operation, register: u8, number: i32) -> Instruction
    ensures { result ≡ definitions.change operation register number }
{
    Instruction::Compute(
        Width::Bits64,
        operation,
        register,
        Source::Immediate(number),
    )
}

/// The next instructions are left out, this many of them, where a register passes a test.
pub fn skip_if(test: Test, register: u8, number: i32, count: i16) -> Instruction
    ensures { result ≡ Instruction.JumpIf Width.Bits64 test register (Source.Immediate number) count }
{
    Instruction::JumpIf(
        Width::Bits64,
        test,
        register,
        Source::Immediate(number),
        count,
    )
}

/// The low 32 bits of a number.
fn low_half(number: u64) -> i32
    ensures { result ≡ definitions.low_half number }
{
    ((number % 0x1_0000_0000) as u32).cast_signed()
}

/// The high 32 bits of a number.
fn high_half(number: u64) -> i32
    ensures { result ≡ definitions.high_half number }
{
    ((number / 0x1_0000_0000) as u32).cast_signed()
}

/// A register gets a number of 64 bits; of more than 31, r2 is used.
pub fn put_number(code: &mut Vec<Instruction>, register: u8, number: u64) -> Result<(), AllocError>
    ensures { OnOk result (code.new.items ≡ code.old.items ++ definitions.number_code register number) }
{
    if number < 0x8000_0000 {
        code.extend_from_slice(&[set(register, number as i32)])
    } else {
        code.extend_from_slice(&[
            Instruction::Move(
                Width::Bits32,
                register,
                Source::Immediate(high_half(number)),
            ),
            change(Operation::LeftShift, register, 32),
            Instruction::Move(Width::Bits32, 2, Source::Immediate(low_half(number))),
            Instruction::Compute(Width::Bits64, Operation::Add, register, Source::Register(2)),
        ])
    }
}

/// The byte at a place of a text, or 0 past its end.
fn byte_at(text: &[u8], place: usize) -> u8
    ensures { result ≡ definitions.byte_at text.now place }
{
    match text.get(place) {
        Some(byte) => *byte,
        None => 0,
    }
}

/// Four bytes of a text as a number.
fn word_at(text: &[u8], place: usize) -> i32
    requires few { length text.now ≤ 255 }
    requires place { place ≤ 255 }
    ensures { result ≡ definitions.word_at text.now place }
{
    i32::from_le_bytes([
        byte_at(text, place),
        byte_at(text, place + 1),
        byte_at(text, place + 2),
        byte_at(text, place + 3),
    ])
}

/// How many words a text of a length has.
fn word_count(length: usize) -> usize
    requires { length ≤ 255 }
    ensures is_count { result ≡ definitions.word_count length }
    ensures is_small { result ≤ 64 }
{
    (length + 3) / 4
}

/// Where a word of a text stands, counted from the stack's end.
fn offset_of(start: i16, k: usize) -> i16
    requires start { start ≤ℤ NEAR }
    requires k { k ≤ 63 }
    ensures { result ≡ start +ℤ pos (4 * k) }
{
    start + (4 * k) as i16
}

/// The store of four bytes of a text.
fn word_store(start: i16, text: &[u8], k: usize) -> Instruction
    requires start { start ≤ℤ NEAR }
    requires few { length text.now ≤ 255 }
    requires k { k ≤ 63 }
    ensures { result ≡ definitions.word_store start text.now k }
{
    let word = Source::Immediate(word_at(text, 4 * k));
    Instruction::Store(Size::Word, FRAME, offset_of(start, k), word)
}

/// A text in the stack from a place on: four bytes at a time, with zeros behind its end.
#[tactic(auto, unfolding(crate::specs::Pieces::words_code))]
pub fn put_text(code: &mut Vec<Instruction>, start: i16, text: &[u8]) -> Result<(), AllocError>
    requires start { start ≤ℤ NEAR }
    requires few { length text.now ≤ 255 }
    ensures { OnOk result (code.new.items ≡ code.old.items ++ definitions.text_code start text.now) }
{
    for k in 0..word_count(text.len()) {
        code.push(word_store(start, text, k))?;
    }
    Ok(())
}

/// r6 gets the number of the value of the first header with a key, or a number of no part where there is none: that of
/// the last position of 32 bits.
#[tactic(auto, unfolding(crate::specs::Pieces::part_code))]
fn put_header(code: &mut Vec<Instruction>, key: &Text) -> Result<(), AllocError>
    requires { FitsText key.now }
    ensures { OnOk result (code.new.items ≡ code.old.items ++ definitions.part_code (Part.Header key.now)) }
{
    put_text(code, NEAR, &key.bytes)?;
    code.extend_from_slice(&[
        copy(1, FRAME),
        change(Operation::Add, 1, i32::from(NEAR)),
        set(2, key.bytes.len() as i32),
        Instruction::Call(19),
        copy(PART, ANSWER),
        Instruction::Compute(Width::Bits32, Operation::Sub, PART, Source::Immediate(1)),
        change(Operation::LeftShift, PART, 1),
        change(Operation::Add, PART, 3),
    ])
}

/// r6 gets the number of a part.
#[tactic(auto, unfolding(crate::specs::Pieces::part_code))]
pub fn put_part(code: &mut Vec<Instruction>, part: &Part) -> Result<(), AllocError>
    requires { FitsPart FitsText part.now }
    ensures { OnOk result (code.new.items ≡ code.old.items ++ definitions.part_code part.now) }
{
    match part {
        Part::Value => code.extend_from_slice(&[set(PART, 0)]),
        Part::Key => code.extend_from_slice(&[set(PART, 1)]),
        Part::Header(key) => put_header(code, key),
    }
}

/// r6 gets the number of a part, and r0 its length plus 2, or 1 of a null one, or 0 where there is none; r8 gets 0.
pub fn put_measured(code: &mut Vec<Instruction>, part: &Part) -> Result<(), AllocError>
    requires { FitsPart FitsText part.now }
    ensures { OnOk result (code.new.items ≡ code.old.items ++ (definitions.part_code part.now ++ definitions.measure)) }
{
    put_part(code, part)?;
    code.extend_from_slice(&[copy(1, PART), Instruction::Call(13), set(TRUTH, 0)])
}
