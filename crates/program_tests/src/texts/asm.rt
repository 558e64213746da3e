//! Texts and images of programs. All words, and all that is refused, are in `transcripts`.

use crate::tables::all_hold;
use bpf_asm::{AsmFault, assemble, disassemble};
use bpf_isa::{Code, decode, encode};
use std::alloc::Global;
use std::test::*;

/// Whether the image of a text is this.
fn is_assembled(alloc: Global, text: &str, image: &[u8]) -> bool {
    match assemble(alloc, text) {
        Ok(made) => made.as_slice() == image,
        Err(_) => false,
    }
}

/// Whether code is written as this image.
fn is_encoded(alloc: Global, code: &Code, image: &[u8]) -> bool {
    match encode(alloc, code) {
        Ok(made) => made.as_slice() == image,
        Err(_) => false,
    }
}

/// Whether the text of code is this.
fn is_disassembled(alloc: Global, code: &Code, text: &str) -> bool {
    match disassemble(alloc, code) {
        Ok(made) => made.as_str() == text,
        Err(_) => false,
    }
}

/// Whether a text and an image mean the same, in each direction.
fn is_same(alloc: Global, text: &str, image: &[u8]) -> bool {
    match decode(alloc, image) {
        Ok(code) => is_assembled(alloc, text, image)
            && is_encoded(alloc, &code, image)
            && is_disassembled(alloc, &code, text),
        Err(_) => false,
    }
}

/// One line each, and its image.
static EXAMPLES: &str = "\
jlt64 r2, 16, +1 | a502010010000000
st32 [r10-8], 0 | 620af8ff00000000
imm64 r1, 8589934591 | 18010000ffffffff0000000001000000
";

/// Whether a row's line and image are the same.
fn row_is_same(alloc: Global, row: &str) -> Option<bool> {
    let (line, image) = row.split_once(" | ")?;
    let text = format!(in alloc; "{line}\n").ok()?;
    let image = hex::decode(alloc, image).ok()?;
    Some(is_same(alloc, text.as_str(), &image))
}

#[test]
fn single_lines(rt: HostRuntime) {
    all_hold(&rt, EXAMPLES, |row| row_is_same(rt.alloc(), row));
}

/// Texts that are refused, and why.
static REFUSED: [(&str, AsmFault, &str); 5] = [
    ("exit\nEXIT", AsmFault::Word(2), "A1 Word"),
    ("mov64 r0", AsmFault::Operand(1), "A2 Operand"),
    ("mov64 r0, 2147483648", AsmFault::Number(1), "A3 Number"),
    ("mov64 r11, 0", AsmFault::Register(1), "A4 Register"),
    ("", AsmFault::Size(1), "A5 Size"),
];

/// Whether a text has this fault, which is shown so.
fn has_fault(alloc: Global, row: &(&str, AsmFault, &str)) -> bool {
    match (assemble(alloc, row.0), format!(in alloc; "{}", row.1)) {
        (Err(fault), Ok(shown)) => fault == row.1 && shown.as_str() == row.2,
        _ => false,
    }
}

/// The number of the first text with another fault.
fn first_other_fault(alloc: Global, rows: &[(&str, AsmFault, &str)]) -> Option<usize> {
    for (k, row) in rows.iter().enumerate() {
        if !has_fault(alloc, row) {
            return Some(k);
        }
    }
    None
}

#[test]
fn refused_texts(rt: HostRuntime) {
    let other = first_other_fault(rt.alloc(), &REFUSED);
    assert!(rt; other.is_none(), "{other:?}");
    assert!(rt; AsmFault::Word(2).line() == Some(2));
    assert!(rt; AsmFault::Memory.line().is_none());
}
