//! Images of programs whose ways part and meet.

ghost use Rattle.std.specs.Prelude.{◌<◌, ◌≤◌};

use crate::loads::random::Random;
use std::alloc::Global;

const ZERO: [u8; 8] = [0xb7, 0, 0, 0, 0, 0, 0, 0]; // mov64 r0, 0

const EXIT: [u8; 8] = [0x95, 0, 0, 0, 0, 0, 0, 0];

const LENGTH: [u8; 8] = [0xbf, 0x26, 0, 0, 0, 0, 0, 0]; // mov64 r6, r2

/// Registers that are read: mostly numbers.
const REGISTERS: [u8; 8] = [0, 2, 4, 6, 0, 2, 6, 1];

/// Registers that are written.
const WRITTEN: [u8; 8] = [0, 0, 0, 0, 6, 6, 6, 7];

/// Registers that jumps test.
const TESTED: [u8; 8] = [2, 2, 2, 4, 0, 0, 6, 6];

/// Moves and arithmetic by a constant: MOV64, ADD64, SUB64, AND64, RSH64, MUL32, OR64, MOD32.
const BY_CONSTANT: [u8; 8] = [0xb7, 0x07, 0x17, 0x57, 0x77, 0x24, 0x47, 0x94];

/// Moves and arithmetic by a register: MOV64 twice, ADD64 twice, SUB64, AND64, XOR32, MOV32.
const BY_REGISTER: [u8; 8] = [0xbf, 0xbf, 0x0f, 0x0f, 0x1f, 0x5f, 0xac, 0xbc];

/// Jumps by a constant: JEQ, JNE, JGT, JGE, JLT, JLE, JLT again, and JSET.
const JUMPS: [u8; 8] = [0x15, 0x55, 0x25, 0x35, 0xa5, 0xb5, 0xa5, 0x45];

/// Loads of 1, 2, 4 and 8 bytes.
const LOADS: [u8; 8] = [0x71, 0x71, 0x71, 0x69, 0x69, 0x61, 0x79, 0x79];

/// Constants near those that matter.
const CONSTANTS: [u8; 8] = [0, 1, 2, 3, 4, 8, 16, 100];

/// Offsets of loads.
const OFFSETS: [u8; 8] = [0, 0, 0, 1, 1, 2, 3, 7];

/// Bases of loads: mostly the value.
const BASES: [u8; 8] = [1, 1, 1, 1, 1, 1, 3, 10];

fn one_of(random: &mut Random, choices: &[u8; 8]) -> u8 {
    choices[random.below(8) as usize]
}

fn registers(dst: u8, src: u8) -> u8 {
    (dst % 16) | ((src % 16) * 16)
}

fn by_constant(random: &mut Random) -> [u8; 8] {
    let opcode = one_of(random, &BY_CONSTANT);
    let dst = one_of(random, &WRITTEN);
    let imm = one_of(random, &CONSTANTS);
    [opcode, dst, 0, 0, imm, 0, 0, 0]
}

fn by_register(random: &mut Random) -> [u8; 8] {
    let opcode = one_of(random, &BY_REGISTER);
    let dst = one_of(random, &WRITTEN);
    let src = one_of(random, &REGISTERS);
    [opcode, registers(dst, src), 0, 0, 0, 0, 0, 0]
}

fn load(random: &mut Random) -> [u8; 8] {
    let opcode = one_of(random, &LOADS);
    let dst = one_of(random, &WRITTEN);
    let src = one_of(random, &BASES);
    let offset = one_of(random, &OFFSETS);
    [opcode, registers(dst, src), offset, 0, 0, 0, 0, 0]
}

/// A jump over at most as many instructions as follow it before the last.
fn jump(random: &mut Random, left: u8) -> [u8; 8] {
    let opcode = one_of(random, &JUMPS);
    let dst = one_of(random, &TESTED);
    let over = random.below(u64::from(left) + 1) as u8;
    let imm = one_of(random, &CONSTANTS);
    [opcode, dst, over, 0, imm, 0, 0, 0]
}

/// An instruction with `left` instructions after it before the last.
fn instruction(random: &mut Random, left: u8) -> [u8; 8] {
    match random.below(8) {
        0 => by_constant(random),
        1 => by_constant(random),
        2 => by_register(random),
        3 => load(random),
        4 => load(random),
        _ => jump(random, left),
    }
}

/// r0 = 0, r6 = r2, out where the value is shorter than some constant, 2 to 11 instructions of which
/// about a third are branches, EXIT.
pub(crate) fn random_image(alloc: Global, random: &mut Random) -> Option<Vec<u8>> {
    let count = random.below(10) as u8 + 2;
    let mut image = Vec::new(alloc);
    image.extend_from_slice(&ZERO).ok()?;
    image.extend_from_slice(&LENGTH).ok()?;
    let least = one_of(random, &CONSTANTS);
    image
        .extend_from_slice(&[0xa5, 2, count, 0, least, 0, 0, 0])
        .ok()?; // jlt64 r2, least, +count
    for k in 0..count {
        let slot = instruction(random, count - 1 - k);
        image.extend_from_slice(&slot).ok()?;
    }
    image.extend_from_slice(&EXIT).ok()?;
    Some(image)
}

/// r0 = 0, `branches` times a jump over a move, 23 moves for each 500 branches, EXIT: 2,048
/// instructions with 1,000 branches, 4,096 with 2,000 (and two moves more).
pub(crate) fn branching(alloc: Global, branches: u32) -> Option<Vec<u8>> {
    let mut image = Vec::new(alloc);
    image.extend_from_slice(&ZERO).ok()?;
    for branch in 0..branches {
        let number = branch.to_le_bytes();
        let over = [0x55, 2, 1, 0, number[0], number[1], 0, 0]; // jne64 r2, number, +1
        image.extend_from_slice(&over).ok()?;
        let moved = [0xb7, 6, 0, 0, number[0], number[1], 0, 0]; // mov64 r6, number
        image.extend_from_slice(&moved).ok()?;
    }
    for _ in 0..branches / 500 * 23 {
        image.extend_from_slice(&ZERO).ok()?;
    }
    image.extend_from_slice(&EXIT).ok()?;
    Some(image)
}

/// `moves` times r0 = 0, EXIT.
pub(crate) fn straight(alloc: Global, moves: u32) -> Option<Vec<u8>> {
    let mut image = Vec::new(alloc);
    for _ in 0..moves {
        image.extend_from_slice(&ZERO).ok()?;
    }
    image.extend_from_slice(&EXIT).ok()?;
    Some(image)
}
