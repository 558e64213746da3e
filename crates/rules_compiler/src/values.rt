//! What is read in the value or the key itself, where a call would take longer.

ghost use Rattle.std.specs.Prelude.{◌≡◌, ◌+◌, ◌<◌, ◌≤◌, ◌++◌, length, pos, OnOk};
ghost use Rattle.rules.specs.Limits.{FitsText};
ghost use Rattle.rules.specs.Meaning.{layout_size};
ghost use Rattle.rules_compiler.specs.Code.{instructions};
ghost use Rattle.rules_compiler.specs.Terms as numbers;
ghost use Rattle.rules_compiler.specs.Tests as definitions;

use crate::loads::{first_size, layout_size, more_of};
use crate::pieces::{ANSWER, LENGTH, TRUTH, VALUE, change, set, skip_if};
use machine_spec::{Extension, Instruction, Operation, Size, Source, Test, Width};
use rules::{Comparison, Layout, Text};
use std::alloc::AllocError;

/// The longest text that is compared byte by byte.
pub const SHORT: usize = 16;

/// The places that a load can name.
pub const REACH: u32 = 32_768;

/// Whether a text is compared with the value byte by byte.
pub fn is_short(text: &Text) -> bool
    ensures { result ≡ definitions.is_short text.now }
{
    !text.bytes.is_empty() && text.bytes.len() <= SHORT
}

/// A byte is compared, after which so many others are.
fn put_byte(
    code: &mut Vec<Instruction>,
    base: u8,
    place: usize,
    byte: u8,
    left: usize,
) -> Result<(), AllocError>
    requires place { place ≤ 255 }
    requires left { left ≤ 255 }
    ensures { OnOk result (code.new.items ≡ code.old.items ++ definitions.match_byte base place byte left) }
{
    code.extend_from_slice(&[
        Instruction::Load(Size::Byte, Extension::Zero, ANSWER, base, place as i16),
        skip_if(
            Test::NotEqual,
            ANSWER,
            i32::from(byte),
            (2 * left + 1) as i16,
        ),
    ])
}

/// r8 gets 1 where the part at an address begins with a text.
#[tactic(auto, using(crate::proofs::Lengths::match_end), unfolding(crate::specs::Tests::match_code))]
fn put_match(code: &mut Vec<Instruction>, base: u8, text: &[u8]) -> Result<(), AllocError>
    requires { length text.now ≤ 255 }
    ensures { OnOk result (code.new.items ≡ code.old.items ++ instructions (definitions.match_code base text.now 0)) }
{
    for k in 0..text.len() {
        put_byte(code, base, k, text[k], text.len() - k - 1)?;
    }
    code.push(set(TRUTH, 1))?;
    Ok(())
}

/// Whether the part at an address begins with a text, and its length compared with the text's fails a test.
#[tactic(auto, using(crate::proofs::Lengths::match_test_is))]
pub fn put_match_test(
    code: &mut Vec<Instruction>,
    base: u8,
    long: u8,
    text: &Text,
    how: Test,
) -> Result<(), AllocError>
    requires { FitsText text.now }
    ensures { OnOk result (code.new.items ≡ code.old.items ++ instructions (definitions.match_test_code base long text.now how)) }
{
    let size = text.bytes.len();
    code.extend_from_slice(&[
        set(TRUTH, 0),
        skip_if(how, long, size as i32, (2 * size + 1) as i16),
    ])?;
    put_match(code, base, &text.bytes)
}

/// The same of the value.
pub fn put_value_test(code: &mut Vec<Instruction>, text: &Text, how: Test) -> Result<(), AllocError>
    requires { FitsText text.now }
    ensures { OnOk result (code.new.items ≡ code.old.items ++ instructions (definitions.value_test_code text.now how)) }
{
    put_match_test(code, VALUE, LENGTH, text, how)
}

/// Whether 0, the length of a null value's bytes, compares otherwise with a number that an instruction can hold.
pub fn is_plain(how: Comparison, number: u64) -> bool
    ensures { result ≡ definitions.is_plain how number }
{
    let is_so_of_none = match how {
        Comparison::Equal => 0 == number,
        Comparison::NotEqual => 0 != number,
        Comparison::Less => 0 < number,
        Comparison::LessOrEqual => true,
        Comparison::Greater => false,
        Comparison::GreaterOrEqual => number == 0,
    };
    !is_so_of_none && number < 0x8000_0000
}

/// Whether the value's length passes a test against a number.
pub fn put_value_length(
    code: &mut Vec<Instruction>,
    how: Test,
    number: i32,
) -> Result<(), AllocError>
    ensures { OnOk result (code.new.items ≡ code.old.items ++ definitions.length_list how number) }
{
    code.extend_from_slice(&[
        set(TRUTH, 1),
        skip_if(how, LENGTH, number, 1),
        set(TRUTH, 0),
    ])
}

/// Whether loads can name each byte of a number.
pub fn is_near(layout: Layout, place: u32) -> bool
    requires { place ≤ 1048576 }
    ensures { result ≡ numbers.is_near layout place }
{
    place + layout_size(layout) <= REACH
}

/// A byte of the value is put behind those of r0.
fn append_byte(place: u32) -> [Instruction; 3]
    requires { place < REACH }
    ensures { result ≡ numbers.append_byte place }
{
    [
        change(Operation::LeftShift, ANSWER, 8),
        Instruction::Load(Size::Byte, Extension::Zero, 1, VALUE, place as i16),
        Instruction::Compute(Width::Bits64, Operation::Add, ANSWER, Source::Register(1)),
    ]
}

/// So many bytes from a place on.
fn put_more(code: &mut Vec<Instruction>, place: u32, count: u32) -> Result<(), AllocError>
    requires { place + count ≤ REACH }
    ensures { OnOk result (code.new.items ≡ code.old.items ++ instructions (numbers.more_code place count)) }
{
    for k in 0..count {
        code.extend_from_slice(&append_byte(place + k))?;
    }
    Ok(())
}

/// r0 gets the number that bytes of the value are.
#[tactic(auto, unfolding(crate::specs::Terms::read_code))]
fn put_read(code: &mut Vec<Instruction>, layout: Layout, place: u32) -> Result<(), AllocError>
    requires { place + layout_size layout ≤ REACH }
    ensures { OnOk result (code.new.items ≡ code.old.items ++ instructions (numbers.read_code layout place)) }
{
    let count = more_of(layout);
    let size = first_size(layout);
    code.extend_from_slice(&[Instruction::Load(
        size,
        Extension::Zero,
        ANSWER,
        VALUE,
        place as i16,
    )])?;
    put_more(code, place + 1, count)
}

/// Leaves out so many instructions, where the value has not all bytes of a number.
fn skip_short(layout: Layout, place: u32, count: u32) -> Instruction
    requires place { place ≤ REACH }
    requires count { count ≤ 255 }
    ensures { result ≡ Instruction.JumpIf Width.Bits64 Test.Less LENGTH (Source.Immediate (pos (place + layout_size layout))) (pos count) }
{
    let end = place + layout_size(layout);
    skip_if(Test::Less, LENGTH, end as i32, count as i16)
}

/// The number that bytes of the value are.
#[tactic(auto, using(crate::proofs::Lengths::value_number_is))]
pub fn put_value_number(
    code: &mut Vec<Instruction>,
    layout: Layout,
    place: u32,
) -> Result<(), AllocError>
    requires { place + layout_size layout ≤ REACH }
    ensures { OnOk result (code.new.items ≡ code.old.items ++ instructions (numbers.value_number_code layout place)) }
{
    let count = 3 * more_of(layout) + 2;
    code.extend_from_slice(&[
        set(ANSWER, 0),
        set(TRUTH, 0),
        skip_short(layout, place, count),
    ])?;
    put_read(code, layout, place)?;
    code.push(set(TRUTH, 1))?;
    Ok(())
}

/// Whether a number in the value, and what it is compared with, can be named.
pub fn is_at_hand(layout: Layout, place: u32, number: u64) -> bool
    requires { place ≤ 1048576 }
    ensures { result ≡ definitions.is_at_hand layout place number }
{
    is_near(layout, place) && number < 0x8000_0000
}

/// Whether the number that bytes of the value are passes a test against another one.
#[tactic(auto, using(crate::proofs::Lengths::value_compare_is))]
pub fn put_value_compare(
    code: &mut Vec<Instruction>,
    layout: Layout,
    place: u32,
    how: Test,
    number: i32,
) -> Result<(), AllocError>
    requires { place + layout_size layout ≤ REACH }
    ensures { OnOk result (code.new.items ≡ code.old.items ++ definitions.compare_list layout place how number) }
{
    let count = 3 * more_of(layout) + 4;
    code.extend_from_slice(&[set(TRUTH, 0), skip_short(layout, place, count)])?;
    put_read(code, layout, place)?;
    code.extend_from_slice(&[
        set(TRUTH, 1),
        skip_if(how, ANSWER, number, 1),
        set(TRUTH, 0),
    ])
}
