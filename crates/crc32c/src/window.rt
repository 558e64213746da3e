//! Long messages: blocks are taken away over a sparse multiple of the generator.
//!
//! With z = x^8 the generator divides z^209 + z^144 + z^54 + z^39 + z^14 + 1. So a block counts as much
//! as its copies 65, 155, 170, 195 and 209 bytes further on, and five additions take it away. What is
//! left is the last 14 blocks. The window holds the last 209 bytes that were taken away, as they were
//! then. Each block reads five parts of it. A longer message is first brought to 62 blocks over
//! z^977 + z^961 + z^945 + z^366 + z^127 + 1: there two parts are the last blocks, which stay in registers.
ghost use Rattle.std.specs.Prelude.{◌≡◌, ℕ, ◌+◌, ◌-◌, ◌*◌, ◌<◌, ◌≤◌, List, ◌∷◌, ◌++◌, length, replicate, bit_xor};
ghost use Rattle.std.specs.List.{concat};
ghost use Rattle.std.specs.Simd.Lanes.{Each1, chunk, number_l};
ghost use Rattle.wire_spec.specs.Checksum.{remainder};
ghost use Rattle.crc32c.specs.Register.{register_after};
ghost use Rattle.crc32c.specs.Window.{IsBlock, AreBlocks, IsMultiple, after_window, later, window_at};

use crate::after_blocks;
use std::simd::prelude::*;

// Sixteen bytes of the space.
#[inline(always)]
fn load(space: &[u8], place: usize) -> u8x16
    requires { place + 16 ≤ length space.now }
    ensures { result ≡ chunk place 16 space.now }
{
    u8x16::from_slice(&space[place..])
}

// The same, where those at `known` are in a register.
#[inline(always)]
fn load_or(space: &[u8], place: usize, known: usize, kept: u8x16) -> u8x16
    requires room { place + 16 ≤ length space.now }
    requires kept { kept ≡ chunk known 16 space.now }
    ensures { result ≡ chunk place 16 space.now }
{
    if place == known {
        kept
    } else {
        load(space, place)
    }
}

// The first block behind the window, with what the window adds to it, where these are the window's last
// two blocks.
#[inline(always)]
fn folded<const A: usize, const B: usize, const C: usize, const D: usize, const REACH: usize>(
    space: &[u8],
    place: usize,
    block: &[u8; 16],
    before: u8x16,
    last: u8x16,
) -> u8x16
    requires multiple { IsMultiple A B C D REACH }
    requires room { place + REACH ≤ length space.now }
    requires before { before ≡ chunk (place + (REACH - 32)) 16 space.now }
    requires last { last ≡ chunk (place + (REACH - 16)) 16 space.now }
    ensures bytes { Each1 (λ b. b < 256) space.now }
    ensures fits { IsBlock result }
    ensures next { (r : ℕ) (rest : List (List ℕ)) →
        after_window A B C D r (window_at REACH place space.now) (block.now ∷ rest)
        ≡ after_window A B C D (remainder 128 (bit_xor r (number_l 256 result)))
        (later 16 (window_at REACH place space.now)) rest }
{
    load(space, place)
        ^ load(space, place + A)
        ^ load(space, place + B)
        ^ load_or(space, place + C, place + (REACH - 32), before)
        ^ load_or(space, place + D, place + (REACH - 16), last)
        ^ u8x16::from_array(*block)
}

// Takes blocks away, so that the window adds them to those behind.
#[inline(always)]
fn fold<const A: usize, const B: usize, const C: usize, const D: usize, const REACH: usize>(
    space: &mut [u8],
    blocks: &[[u8; 16]],
)
    requires multiple { IsMultiple A B C D REACH }
    requires room { 16 * length blocks.now + REACH ≤ length space.old }
    ensures { (rest : List (List ℕ)) → REACH ≤ 16 * length rest
        → after_window A B C D 0 (window_at REACH 0 space.new) rest
        ≡ after_window A B C D 0 (window_at REACH 0 space.old) (blocks.now ++ rest) }
{
    let mut before = load(space, REACH - 32);
    let mut last = load(space, REACH - 16);
    for (count, block) in blocks.iter().enumerate() {
        let place = 16 * count;
        let taken = folded::<A, B, C, D, REACH>(space, place, block, before, last);
        let end = place + REACH;
        space[end..end + 16].copy_from_slice(&taken.to_array());
        before = last;
        last = taken;
    }
    let moved = 16 * blocks.len();
    space.copy_within(moved..moved + REACH, 0);
}

// The last blocks, with what the window adds to them.
#[inline(always)]
fn with_window<const A: usize, const B: usize, const C: usize, const D: usize, const REACH: usize>(
    space: &mut [u8],
    blocks: &[[u8; 16]],
    sums: &mut [[u8; 16]],
)
    requires multiple { IsMultiple A B C D REACH }
    requires room { 16 * length blocks.now + REACH ≤ length space.old }
    requires long { REACH ≤ 16 * length blocks.now }
    requires as_many { length sums.old ≡ length blocks.now }
    ensures sum { register_after 0 (concat sums.new)
        ≡ after_window A B C D 0 (window_at REACH 0 space.old) blocks.now }
    ensures blocks { AreBlocks sums.new }
{
    for (count, block) in blocks.iter().enumerate() {
        let place = 16 * count;
        let end = place + REACH;
        let before = load(space, place + (REACH - 32));
        let last = load(space, place + (REACH - 16));
        sums[count] = folded::<A, B, C, D, REACH>(space, place, block, before, last).to_array();
        space[end..end + 16].copy_from_slice(&[0; 16]);
    }
}

// Puts a remainder into a window of nothing else, so that it adds to the first block.
#[inline(always)]
fn put_register<const REACH: usize>(space: &mut [u8], r: u32)
    requires empty { space.old ≡ replicate (length space.old) 0 }
    requires word { 4 ≤ REACH }
    requires room { REACH ≤ length space.old }
    ensures { window_at REACH 0 space.new ≡ r }
{
    space[..4].copy_from_slice(&r.to_le_bytes());
}

// The last blocks of a message with what those before them add to them, where the remainder of what is
// before all is `r`.
#[inline(always)]
fn shortened<
    const A: usize,
    const B: usize,
    const C: usize,
    const D: usize,
    const REACH: usize,
    const SPACE: usize,
    const LAST: usize,
>(r: u32, mut blocks: &[[u8; 16]]) -> [[u8; 16]; LAST]
    requires multiple { IsMultiple A B C D REACH }
    requires small { SPACE ≤ 9169 }
    requires room { 16 * LAST + REACH ≤ SPACE }
    requires long { REACH ≤ 16 * LAST }
    requires enough { LAST ≤ length blocks.now }
    ensures sum { register_after 0 (concat result) ≡ after_window A B C D r 0 blocks.now }
    ensures blocks { AreBlocks result }
{
    let mut space = [0; SPACE];
    put_register::<REACH>(&mut space[..], r);
    while blocks.len() > LAST {
        let (round, rest) = blocks.split_at((blocks.len() - LAST).min((SPACE - REACH) / 16));
        fold::<A, B, C, D, REACH>(&mut space[..], round);
        blocks = rest;
    }
    let mut sums = [[0; 16]; LAST];
    with_window::<A, B, C, D, REACH>(&mut space[..], blocks, &mut sums[..]);
    sums
}

/// The remainder after 14 blocks or more, where that of what is before them is `r`.
pub(crate) fn after_some(r: u32, blocks: &[[u8; 16]]) -> u32
    requires { 14 ≤ length blocks.now }
    ensures { result ≡ after_window 14 39 54 144 r 0 blocks.now }
{
    after_blocks(0, &shortened::<14, 39, 54, 144, 209, 1233, 14>(r, blocks))
}

/// The same after 62 blocks or more.
pub(crate) fn after_many(r: u32, blocks: &[[u8; 16]]) -> u32
    requires { 62 ≤ length blocks.now }
    ensures { result ≡ after_window 127 366 945 961 r 0 blocks.now }
{
    after_some(
        0,
        &shortened::<127, 366, 945, 961, 977, 9169, 62>(r, blocks),
    )
}
