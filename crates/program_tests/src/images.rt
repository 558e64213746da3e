//! Images that are read as instructions and written again.

use crate::image_faults::fault_of;
use crate::programs::image_of;
use bpf_isa::{Code, IsaFault, decode, encode, image_and_code};
use std::alloc::Global;
use std::test::*;

/// The slots of instructions one after the other, and what they are.
static FORMS: &str = "\
b7010000ffffffff | Move(Bits64, 1, Immediate(-1))
bf26000000000000 | Move(Bits64, 6, Register(2))
0706000001020080 | Compute(Bits64, Add, 6, Immediate(-2147483135))
0fa3000000000000 | Compute(Bits64, Add, 3, Register(10))
7110000000000000 | Load(Byte, Zero, 0, 1, 0)
6910ff7f00000000 | Load(Half, Zero, 0, 1, 32767)
6130010000000000 | Load(Word, Zero, 0, 3, 1)
79a0f8ff00000000 | Load(Double, Zero, 0, 10, -8)
1502010000000000 | JumpIf(Bits64, Equal, 2, Immediate(0), 1)
2502010000000000 | JumpIf(Bits64, Greater, 2, Immediate(0), 1)
3502010000000000 | JumpIf(Bits64, GreaterOrEqual, 2, Immediate(0), 1)
5502ffff00000000 | JumpIf(Bits64, NotEqual, 2, Immediate(0), -1)
a502010010000000 | JumpIf(Bits64, Less, 2, Immediate(16), 1)
b502010000000000 | JumpIf(Bits64, LessOrEqual, 2, Immediate(0), 1)
8500000003000000 | Call(3)
9500000000000000 | Exit
";

/// Jumps, stores, sign-extending loads and a 64-bit immediate, with their fields, and a move.
static MORE_FORMS: &str = "\
0500feff00000000 | Jump(Short(-2))
0600000000000080 | Jump(Long(-2147483648))
9110010000000000 | Load(Byte, Sign, 0, 1, 1)
8932008000000000 | Load(Half, Sign, 2, 3, -32768)
81a9f8ff00000000 | Load(Word, Sign, 9, 10, -8)
720affffff000000 | Store(Byte, 10, -1, Immediate(255))
6a0afeff02010000 | Store(Half, 10, -2, Immediate(258))
620af8ff00000000 | Store(Word, 10, -8, Immediate(0))
7a060000ffffffff | Store(Double, 6, 0, Immediate(-1))
7321010000000000 | Store(Byte, 1, 1, Register(2))
6b3a000000000000 | Store(Half, 10, 0, Register(3))
634a000000000000 | Store(Word, 10, 0, Register(4))
7baaf8ff00000000 | Store(Double, 10, -8, Register(10))
18010000ffffffff0000000001000000 | Wide(1, 8589934591)
b700000000000000 | Move(Bits64, 0, Immediate(0))
";

/// The image of a table's slots.
fn image_of_rows(alloc: Global, table: &str) -> Option<Vec<u8>> {
    let mut image = Vec::new(alloc);
    for row in table.lines() {
        let (slots, _) = row.split_once(" | ")?;
        image
            .extend_from_slice(&hex::decode(alloc, slots).ok()?)
            .ok()?;
    }
    Some(image)
}

/// Whether this is an instruction of the code, which begins at that slot and is shown so.
fn is_at(alloc: Global, code: &Code, k: usize, slot: usize, want: &str) -> bool {
    if k >= code.len() || code.slot(k) != slot || code.at(slot) != Some(k) {
        return false;
    }
    let instruction = code.instr(k);
    match format!(in alloc; "{instruction:?}") {
        Ok(shown) => shown.as_str() == want && code.get(k).instruction == instruction,
        Err(_) => false,
    }
}

/// Whether the code has the instructions of a table, and no instruction begins behind them.
fn has_rows(alloc: Global, code: &Code, table: &str) -> Option<bool> {
    let (mut k, mut slot) = (0usize, 0usize);
    for row in table.lines() {
        let (slots, want) = row.split_once(" | ")?;
        if !is_at(alloc, code, k, slot, want) {
            return Some(false);
        }
        k = k.wrapping_add(1);
        slot = slot.wrapping_add(slots.len() / 16);
    }
    Some(code.len() == k && code.at(slot).is_none() && code.at(usize::MAX).is_none())
}

/// Whether the code is written as this image.
fn is_written_as(alloc: Global, code: &Code, image: &[u8]) -> bool {
    match encode(alloc, code) {
        Ok(again) => again.as_slice() == image,
        Err(_) => false,
    }
}

/// Whether the image of a table's slots is read as its instructions, and written again as it is.
fn are_read(alloc: Global, table: &str) -> Option<bool> {
    let image = image_of_rows(alloc, table)?;
    let code = decode(alloc, &image).ok()?;
    Some(has_rows(alloc, &code, table)? && is_written_as(alloc, &code, &image))
}

#[test]
fn every_form(rt: HostRuntime) {
    image_and_code();
    assert!(rt; are_read(rt.alloc(), FORMS) == Some(true));
    assert!(rt; are_read(rt.alloc(), MORE_FORMS) == Some(true));
}

/// The forms of the two classes of arithmetic: each operation with a number and with a register, signed quotients and
/// remainders, negation, moves that extend the sign; and byte orders.
static ARITHMETIC: &str = "\
    0701000005000000; 0f21000000000000; 1701000005000000; 1f21000000000000; 2701000005000000; 2f21000000000000; \
    3701000005000000; 3f21000000000000; 4701000005000000; 4f21000000000000; 5701000005000000; 5f21000000000000; \
    6701000005000000; 6f21000000000000; 7701000005000000; 7f21000000000000; 9701000005000000; 9f21000000000000; \
    a701000005000000; af21000000000000; b701000005000000; bf21000000000000; c701000005000000; cf21000000000000; \
    3701010005000000; 3f21010000000000; 9701010005000000; 9f21010000000000; 8701000000000000; bf21080000000000; \
    bf21100000000000; 0401000005000000; 0c21000000000000; 1401000005000000; 1c21000000000000; 2401000005000000; \
    2c21000000000000; 3401000005000000; 3c21000000000000; 4401000005000000; 4c21000000000000; 5401000005000000; \
    5c21000000000000; 6401000005000000; 6c21000000000000; 7401000005000000; 7c21000000000000; 9401000005000000; \
    9c21000000000000; a401000005000000; ac21000000000000; b401000005000000; bc21000000000000; c401000005000000; \
    cc21000000000000; 3401010005000000; 3c21010000000000; 9401010005000000; 9c21010000000000; 8401000000000000; \
    bc21080000000000; bc21100000000000; bf21200000000000; d401000010000000; d401000020000000; d401000040000000; \
    dc01000010000000; dc01000020000000; dc01000040000000; d701000010000000; d701000020000000; d701000040000000";

/// Whether an image is read as so many instructions of a slot each, and written again as it is.
fn is_read_as(alloc: Global, image: &[u8], count: usize) -> bool {
    match decode(alloc, image) {
        Ok(code) => code.len() == count
            && code.at(count.wrapping_sub(1)) == Some(count.wrapping_sub(1))
            && code.at(count).is_none()
            && is_written_as(alloc, &code, image),
        Err(_) => false,
    }
}

/// The same of the image of a text.
fn text_is_read_as(alloc: Global, text: &str, count: usize) -> bool {
    match image_of(alloc, text) {
        Some(image) => is_read_as(alloc, &image, count),
        None => false,
    }
}

#[test]
fn arithmetic_forms(rt: HostRuntime) {
    assert!(rt; text_is_read_as(rt.alloc(), ARITHMETIC, 72));
}

/// Where jumps from slot 12 lead: over the wide instruction, into its second slot and to itself.
static TARGETS: [(i32, Option<usize>); 3] = [(2, Some(14)), (1, None), (0, Some(13))];

/// Whether jumps from slot 12 lead to these instructions.
fn jumps_lead(code: &Code, rows: &[(i32, Option<usize>)]) -> bool {
    for (distance, want) in rows {
        if code.target(12, Some(*distance)) != *want {
            return false;
        }
    }
    true
}

/// Whether they lead so, and no instruction begins at the second slot of the wide one.
fn lead_past_a_wide_one(alloc: Global) -> Option<bool> {
    let image = image_of_rows(alloc, MORE_FORMS)?;
    let code = decode(alloc, &image).ok()?;
    Some(jumps_lead(&code, &TARGETS) && code.at(14).is_none())
}

#[test]
fn jumps_past_a_wide_instruction(rt: HostRuntime) {
    assert!(rt; lead_past_a_wide_one(rt.alloc()) == Some(true));
}

/// The image of `count` moves.
fn moves(alloc: Global, count: usize) -> Option<Vec<u8>> {
    let mut image = Vec::new(alloc);
    for _ in 0..count {
        image.extend_from_slice(&[0xb7, 0, 0, 0, 0, 0, 0, 0]).ok()?;
    }
    Some(image)
}

/// Whether the longest image is read, and a longer one is refused for its size.
fn sizes_end(alloc: Global) -> Option<bool> {
    let is_longest = is_read_as(alloc, &moves(alloc, 16_384)?, 16_384);
    Some(is_longest && fault_of(alloc, &moves(alloc, 16_385)?) == Some(IsaFault::Size))
}

#[test]
fn sizes(rt: HostRuntime) {
    assert!(rt; sizes_end(rt.alloc()) == Some(true));
}
