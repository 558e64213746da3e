//! Bytes as words: pairs of lower-case hex digits.

ghost use Rattle.std.specs.Prelude.{◌≡◌, ◌<◌, ◌++◌, IfOk, OnOk, option_map};
ghost use Rattle.script.specs.Words.{hex_digit, pair_of, hex_bytes, spelled_bytes};

use bytes::Bytes;
use std::alloc::{AllocError, Global};

fn digit(byte: u8) -> Option<u8>
    ensures { result ≡ hex_digit byte }
{
    match byte {
        b'0'..=b'9' => Some(byte - b'0'),
        b'a'..=b'f' => Some(byte - b'a' + 10),
        _ => None,
    }
}

fn pair(high: u8, low: u8) -> Option<u8>
    ensures { result ≡ pair_of (hex_digit high) (hex_digit low) }
{
    let high = digit(high)?;
    let low = digit(low)?;
    Some(high * 16 + low)
}

/// The bytes that pairs of lower-case hex digits spell, or `None` where the text is anything else.
/// It fails only where memory runs out.
pub fn decoded(alloc: Global, text: &[u8]) -> Result<Option<Vec<u8>>, AllocError>
    ensures { IfOk result (λ bytes. option_map (λ v. v.items) bytes ≡ hex_bytes text.now) }
{
    let mut bytes = Vec::with_capacity(alloc, text.len() / 2)?;
    for place in 0..text.len() / 2 {
        let Some(byte) = pair(text[2 * place], text[2 * place + 1]) else {
            return Ok(None);
        };
        bytes.push(byte)?;
    }
    if text.len() % 2 == 1 {
        return Ok(None);
    }
    Ok(Some(bytes))
}

fn shared(bytes: Vec<u8>) -> Result<Bytes, AllocError>
    ensures { IfOk result (λ shared. shared ≡ bytes.items) }
{
    Ok(Bytes::from_vec(bytes)?)
}

/// The bytes that pairs of lower-case hex digits spell, to be shared; else as `decoded`.
pub fn hex(alloc: Global, text: &[u8]) -> Result<Option<Bytes>, AllocError>
    ensures { IfOk result (λ bytes. bytes ≡ hex_bytes text.now) }
{
    match decoded(alloc, text)? {
        None => Ok(None),
        Some(bytes) => Ok(Some(shared(bytes)?)),
    }
}

/// The bytes that a word spells: `-` is null, `.` is no bytes, and others are hex pairs; or `None`
/// where it spells none. It fails only where memory runs out.
pub fn bytes_word(alloc: Global, word: &str) -> Result<Option<Option<Bytes>>, AllocError>
    ensures { IfOk result (λ bytes. bytes ≡ spelled_bytes word.now) }
{
    if word == "-" {
        return Ok(Some(None));
    }
    if word == "." {
        return Ok(Some(Some(Bytes::new())));
    }
    match hex(alloc, word.as_bytes())? {
        None => Ok(None),
        Some(bytes) => Ok(Some(Some(bytes))),
    }
}
