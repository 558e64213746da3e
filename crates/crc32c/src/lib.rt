//! CRC-32C, the checksum by Castagnoli's polynomial (RFC 9260, appendix A), by tables.
//!
//! The bytes are a polynomial over the field of two elements, and a `u32` is one of degree below
//! 32, with the coefficient of x^31 in its lowest bit. A remainder goes from byte to byte, or from
//! block to block: division is linear, so each byte of a block adds what a table has for its place.
//!
//! ```
//! assert!(crc32c::sum(b"123456789") == 0xe306_9283);
//! ```
#![tactic(auto)]

ghost use Rattle.std.specs.Prelude.{◌≡◌, ℕ, ◌+◌, ◌*◌, ◌<◌, ◌≤◌, List, length, bit_xor, slice_index};
ghost use Rattle.std.specs.List.{concat};
ghost use Rattle.std.specs.Simd.Lanes.{Each1};
ghost use Rattle.wire_spec.specs.Checksum.{remainder, checksum};
ghost use Rattle.crc32c.specs.Register.{register_after, word_at};

mod tables;
mod window;

use std::simd::prelude::*;
use tables::entry;
use window::{after_many, after_some};

// The remainder after one more byte.
#[inline(always)]
fn after_byte(r: u32, byte: u8) -> u32
    ensures { result ≡ remainder 8 (bit_xor r byte) }
{
    (r >> 8) ^ entry(0, (r ^ u32::from(byte)) & 0xff)
}

// The remainder after the bytes, one at a time.
fn after_bytes(mut r: u32, bytes: &[u8]) -> u32
    ensures { result ≡ register_after r bytes.now }
{
    for byte in bytes {
        r = after_byte(r, *byte);
    }
    r
}

// The remainder after four more bytes.
#[inline(always)]
fn after_four(r: u32, four: &[u8; 4]) -> u32
    ensures { result ≡ register_after r four.now }
{
    fold_word(r ^ u32::from_le_bytes(*four), 0)
}

// The remainder after the bytes, four at a time.
fn after_fours(mut r: u32, fours: &[[u8; 4]]) -> u32
    ensures { result ≡ register_after r (concat fours.now) }
{
    for four in fours {
        r = after_four(r, four);
    }
    r
}

// The remainder after less than a block, four bytes at a time and then one.
fn after_rest(r: u32, bytes: &[u8]) -> u32
    ensures { result ≡ register_after r bytes.now }
{
    let (fours, rest) = bytes.as_chunks::<4>();
    after_bytes(after_fours(r, fours), rest)
}

// The four words of a block, the first byte of each lowest. A vector's load keeps them words, where
// one made byte by byte is taken apart into loads of bytes.
#[inline(always)]
fn words(block: [u8; 16]) -> [u32; 4]
    requires { Each1 (λ b. b < 256) block }
    ensures { (j : ℕ) → j < 4 → slice_index result j ≡ word_at block (4 * j) }
{
    u32x4::from_le_bytes(u8x16::from_array(block)).to_array()
}

// The word times x^(8 `row` + 32), divided by the generator: a look at a table for each byte.
#[inline(always)]
fn fold_word(word: u32, row: usize) -> u32
    requires { row + 4 ≤ 16 }
    ensures { result ≡ remainder (8 * row + 32) word }
{
    entry(row + 3, word & 0xff)
        ^ entry(row + 2, (word >> 8) & 0xff)
        ^ entry(row + 1, (word >> 16) & 0xff)
        ^ entry(row, word >> 24)
}

// The remainder after one more block by its words, which each count by what follows them.
#[inline(always)]
fn after_words(r: u32, words: [u32; 4]) -> u32
    ensures { (block : List ℕ) → length block ≡ 16 → Each1 (λ b. b < 256) block
        → ((j : ℕ) → j < 4 → slice_index words j ≡ word_at block (4 * j)) → result ≡ register_after r block }
{
    fold_word(words[3], 0)
        ^ fold_word(words[2], 4)
        ^ fold_word(words[1], 8)
        ^ fold_word(words[0] ^ r, 12)
}

// The remainder after one more block.
#[inline(always)]
fn after_block(r: u32, block: &[u8; 16]) -> u32
    ensures { result ≡ register_after r block.now }
{
    after_words(r, words(*block))
}

// The remainder after the blocks.
fn after_blocks(mut r: u32, blocks: &[[u8; 16]]) -> u32
    ensures { result ≡ register_after r (concat blocks.now) }
{
    for block in blocks {
        r = after_block(r, block);
    }
    r
}

// From how many blocks on it pays to take blocks away over a window: 640 bytes.
const SOME: usize = 40;

// And over the longer one first: 8 KiB.
const MANY: usize = 512;

/// The checksum of the bytes, sixteen at a time by sixteen tables of 1 KiB each. It takes no memory.
pub fn sum(bytes: &[u8]) -> u32
    ensures { result ≡ checksum bytes.now }
{
    let (blocks, rest) = bytes.as_chunks::<16>();
    let r = if blocks.len() < SOME {
        after_blocks(u32::MAX, blocks)
    } else if blocks.len() < MANY {
        after_some(u32::MAX, blocks)
    } else {
        after_many(u32::MAX, blocks)
    };
    after_rest(r, rest) ^ u32::MAX
}
