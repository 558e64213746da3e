//! Texts of a line, in double quotes.

ghost use Rattle.std.specs.Prelude.{◌≡◌, option_map};
ghost use Rattle.wire_spec.specs.Memory.{AnswersAs};
ghost use Rattle.rules.specs.declared.fault.LineFault.TheVariants as faults;
ghost use Rattle.rules.specs.Scanning as definitions;

use crate::digits::{digit_value, is_digit};
use crate::fault::LineFault;
use crate::rule::Text;
use crate::scan::{skipped, unexpected};
use std::alloc::Global;

/// One more than the bytes of the longest text.
const ROOM: usize = 256;

/// The byte that two hex digits spell.
fn hex_byte(text: &[u8]) -> Option<(u8, &[u8])>
    ensures { option_map (λ x. (x.0, x.1.now)) result ≡ definitions.hex_byte text.now }
{
    match text {
        [high, low, rest @ ..] => {
            if is_digit(*high, 16) && is_digit(*low, 16) {
                Some((digit_value(*high) * 16 + digit_value(*low), rest))
            } else {
                None
            }
        }
        [_] | [] => None,
    }
}

/// The byte that a backslash and what follows it spell.
fn escaped(text: &[u8]) -> Option<(u8, &[u8])>
    ensures { option_map (λ x. (x.0, x.1.now)) result ≡ definitions.escaped text.now }
{
    let [byte, rest @ ..] = text else {
        return None;
    };
    if *byte == b'n' {
        Some((b'\n', rest))
    } else if *byte == b't' {
        Some((b'\t', rest))
    } else if *byte == b'x' {
        hex_byte(rest)
    } else if *byte == b'"' || *byte == b'\\' {
        Some((*byte, rest))
    } else {
        None
    }
}

/// The first byte of a text within quotes.
#[tactic(auto, unfolding(crate::specs::Scanning::char_at))]
fn char_at(text: &[u8]) -> Option<(u8, &[u8])>
    ensures { option_map (λ x. (x.0, x.1.now)) result ≡ definitions.char_at text.now }
{
    let [byte, rest @ ..] = text else {
        return None;
    };
    if *byte == b'\\' {
        escaped(rest)
    } else {
        Some((*byte, rest))
    }
}

/// What follows a quote at the very front.
fn after_quote(text: &[u8]) -> Option<&[u8]>
    ensures { option_map (λ t. t.now) result ≡ definitions.after_quote text.now }
{
    let [byte, rest @ ..] = text else {
        return None;
    };
    if *byte == b'"' { Some(rest) } else { None }
}

/// The bytes up to the quote, fewer than `room`; `left` bytes of the line are left at the quote before them.
fn quoted(alloc: Global, room: usize, left: usize, text: &[u8]) -> Result<(Text, &[u8]), LineFault>
    ensures { AnswersAs faults.Memory (λ x. (x.0, x.1.now)) result (definitions.quoted room left text.now) }
{
    let mut bytes = Vec::new(alloc);
    let mut rest = text;
    for _ in 0..room {
        if let Some(after) = after_quote(rest) {
            return Ok((Text { bytes }, after));
        }
        let Some((byte, after)) = char_at(rest) else {
            return Err(LineFault::Text(left));
        };
        bytes.push(byte)?;
        rest = after;
    }
    Err(LineFault::Long(left))
}

/// The text at the front, and what follows it.
#[tactic(auto, unfolding(crate::specs::Scanning::text_at))]
pub fn text_at(alloc: Global, text: &[u8]) -> Result<(Text, &[u8]), LineFault>
    ensures { AnswersAs faults.Memory (λ x. (x.0, x.1.now)) result (definitions.text_at text.now) }
{
    let front = skipped(text);
    match after_quote(front) {
        Some(rest) => quoted(alloc, ROOM, front.len(), rest),
        None => Err(unexpected(text)),
    }
}
