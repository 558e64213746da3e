//! Numbers of a line.

ghost use Rattle.std.specs.Prelude.{◌≡◌, ◌≤◌, IfOk};
ghost use Rattle.wire_spec.specs.Memory.{AnswersAs};
ghost use Rattle.rules.specs.declared.fault.LineFault.TheVariants as faults;
ghost use Rattle.rules.specs.Scanning as definitions;

use crate::digits::{digits_number, is_digit};
use crate::fault::LineFault;
use crate::scan::{behind_word, skipped, unexpected, word_at};

/// Whether a word begins with a decimal digit.
pub fn is_number(word: &[u8]) -> bool
    ensures { result ≡ definitions.is_number word.now }
{
    match word {
        [] => false,
        [byte, ..] => is_digit(*byte, 10),
    }
}

/// The number that a word spells: in hex digits after `0x`, else in decimal digits.
fn number_of(word: &[u8]) -> Option<u64>
    ensures { result ≡ definitions.number_of word.now }
{
    if word.starts_with(b"0x") {
        digits_number(&word[2..], 16)
    } else {
        digits_number(word, 10)
    }
}

/// The number at the front, and what follows it.
#[tactic(auto, unfolding(crate::specs::Scanning::number_at))]
pub fn number_at(text: &[u8]) -> Result<(u64, &[u8]), LineFault>
    ensures { AnswersAs faults.Memory (λ x. (x.0, x.1.now)) result (definitions.number_at text.now) }
{
    let word = word_at(text);
    if !is_number(word) {
        return Err(unexpected(text));
    }
    match number_of(word) {
        Some(number) => Ok((number, behind_word(text))),
        None => Err(LineFault::Number(skipped(text).len())),
    }
}

/// The number at the front, which must be from `low` to `high`, and what follows it.
#[tactic(auto, unfolding(crate::specs::Scanning::number_in))]
pub fn number_in(text: &[u8], low: u64, high: u64) -> Result<(u64, &[u8]), LineFault>
    ensures answer { AnswersAs faults.Memory (λ x. (x.0, x.1.now)) result (definitions.number_in low high text.now) }
    ensures within { IfOk result (λ x. x.0 ≤ high) }
{
    let (number, rest) = number_at(text)?;
    if low <= number && number <= high {
        Ok((number, rest))
    } else {
        Err(LineFault::Number(skipped(text).len()))
    }
}

/// The same of 32 bits.
pub fn small_in(text: &[u8], low: u32, high: u32) -> Result<(u32, &[u8]), LineFault>
    ensures { AnswersAs faults.Memory (λ x. (x.0, x.1.now)) result (definitions.number_in low high text.now) }
{
    let (number, rest) = number_in(text, u64::from(low), u64::from(high))?;
    Ok((number as u32, rest))
}
