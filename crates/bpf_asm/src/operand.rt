//! Operands: registers, numbers, distances and places in memory, read and written.

ghost use Rattle.std.specs.Prelude.{◌≡◌, ◌≤◌, ◌≤ℤ◌, ◌++◌, length, IfOk, OnOk, string_bytes, decimal};
ghost use Rattle.std.specs.Fmt.{signed_decimal};
ghost use Rattle.std.specs.List.{position_or_len};
ghost use Rattle.bpf_asm.specs.Numbers.{distance_text};
ghost use Rattle.bpf_asm.specs.Operands as definitions;

use crate::fault::{LineFault, both};
use crate::number::{distance, is_digits, natural, number};
use machine_spec::Source;
use std::alloc::AllocError;

fn register_named(number: Option<u128>) -> Result<u8, LineFault>
    ensures is { result ≡ definitions.register_named number }
    ensures is_register { IfOk result (λ r. r ≤ 10) }
{
    match number {
        Some(number) if number <= 10 => Ok(number as u8),
        _ => Err(LineFault::Register),
    }
}

/// The register that a text names. It fails as `Operand` where the text isn't `r` and digits, as
/// `Register` where it is none of r0 to r10.
pub fn register(text: &[u8]) -> Result<u8, LineFault>
    ensures is { result ≡ definitions.read_register text.now }
    ensures is_register { IfOk result (λ r. r ≤ 10) }
{
    if text.is_empty() || text[0] != b'r' || !is_digits(&text[1..]) {
        return Err(LineFault::Operand);
    }
    register_named(natural(&text[1..]))
}

/// A number that lies between two others.
fn number_in_range(low: i128, high: i128, number: Option<i128>) -> Result<i128, LineFault>
    ensures is { result ≡ definitions.number_in_range low high number }
    ensures is_in { IfOk result (λ z. (low ≤ℤ z) × (z ≤ℤ high)) }
{
    match number {
        Some(number) if low <= number && number <= high => Ok(number),
        Some(_) => Err(LineFault::Number),
        None => Err(LineFault::Operand),
    }
}

/// The signed number of 32 bits that a text spells. It fails as `Operand` where it spells no
/// number, as `Number` where that is out of range.
pub fn immediate(text: &[u8]) -> Result<i32, LineFault>
    ensures { result ≡ definitions.read_immediate text.now }
{
    let number = number_in_range(-0x8000_0000, 0x7fff_ffff, number(text))?;
    Ok(number as i32)
}

/// The unsigned number of 64 bits that a text spells. It fails as `immediate` does.
pub fn wide(text: &[u8]) -> Result<u64, LineFault>
    ensures { result ≡ definitions.read_wide text.now }
{
    let number = number_in_range(0, 0xffff_ffff_ffff_ffff, number(text))?;
    Ok(number as u64)
}

/// The distance of 16 bits that a text spells, with its sign. It fails as `immediate` does.
pub fn short(text: &[u8]) -> Result<i16, LineFault>
    ensures { result ≡ definitions.read_short text.now }
{
    let distance = number_in_range(-0x8000, 0x7fff, distance(text))?;
    Ok(distance as i16)
}

/// The distance of 32 bits that a text spells, with its sign. It fails as `immediate` does.
pub fn long(text: &[u8]) -> Result<i32, LineFault>
    ensures { result ≡ definitions.read_long text.now }
{
    let distance = number_in_range(-0x8000_0000, 0x7fff_ffff, distance(text))?;
    Ok(distance as i32)
}

/// The register or the immediate that a text spells: a register where it begins with `r`. It fails
/// as `register` or `immediate` does.
pub fn source(text: &[u8]) -> Result<Source, LineFault>
    ensures { result ≡ definitions.read_source text.now }
{
    if !text.is_empty() && text[0] == b'r' {
        Ok(Source::Register(register(text)?))
    } else {
        Ok(Source::Immediate(immediate(text)?))
    }
}

fn is_sign(byte: u8) -> bool
    ensures { result ≡ definitions.is_sign byte }
{
    byte == b'+' || byte == b'-'
}

/// Where the first sign of a text is, or the text's length.
fn sign_place(text: &[u8]) -> usize
    ensures is { result ≡ position_or_len definitions.is_sign text.now }
    ensures is_within { result ≤ length text.now }
{
    for place in 0..text.len() {
        if is_sign(text[place]) {
            return place;
        }
    }
    text.len()
}

/// The register and the distance that a text is.
fn between(text: &[u8]) -> Result<(u8, i16), LineFault>
    ensures { result ≡ definitions.read_between text.now }
{
    let (base, offset) = text.split_at(sign_place(text));
    both(register(base), short(offset))
}

/// The base register and the offset in bytes that a text has in brackets. It fails with the first
/// fault of the two, or as `Operand` where it has no brackets.
pub fn place(text: &[u8]) -> Result<(u8, i16), LineFault>
    ensures { result ≡ definitions.read_place text.now }
{
    if text.len() < 2 || text[0] != b'[' || text[text.len() - 1] != b']' {
        return Err(LineFault::Operand);
    }
    between(&text[1..text.len() - 1])
}

/// Appends the text of a register. It fails only where memory runs out; the text may then end
/// within it.
pub fn push_register(text: &mut String, register: u8) -> Result<(), AllocError>
    ensures { OnOk result (string_bytes text.new ≡ string_bytes text.old ++ definitions.register_text register) }
{
    write!(text, "r{register}")
}

/// Appends the text of a distance. It fails as `push_register` does.
pub fn push_distance(text: &mut String, distance: i32) -> Result<(), AllocError>
    ensures { OnOk result (string_bytes text.new ≡ string_bytes text.old ++ distance_text distance) }
{
    if distance < 0 {
        write!(text, "{distance}")
    } else {
        write!(text, "+{distance}")
    }
}

/// Appends the text of a register or an immediate. It fails as `push_register` does.
pub fn push_source(text: &mut String, source: Source) -> Result<(), AllocError>
    ensures { OnOk result (string_bytes text.new ≡ string_bytes text.old ++ definitions.source_text source) }
{
    match source {
        Source::Register(register) => push_register(text, register),
        Source::Immediate(number) => write!(text, "{number}"),
    }
}

/// Appends the text of a place in memory. It fails as `push_register` does.
pub fn push_place(text: &mut String, base: u8, offset: i16) -> Result<(), AllocError>
    ensures { OnOk result (string_bytes text.new ≡ string_bytes text.old ++ definitions.place_text base offset) }
{
    text.push_str("[")?;
    push_register(text, base)?;
    push_distance(text, i32::from(offset))?;
    text.push_str("]")
}
