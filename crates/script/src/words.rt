//! The words of a line, and the numbers that they spell.

ghost use Rattle.std.specs.Prelude.{◌≡◌, ◌<◌, ◌^◌, length, map, IfOk, true, slice_index_or, []};
ghost use Rattle.std.specs.List.{list_all};
ghost use Rattle.std.specs.Char.{is_ascii_digit};
ghost use Rattle.script.specs.Words.{words_of, is_number, decimal_of, texts, word_at};

use std::alloc::{AllocError, Global};

/// The words of a line: its pieces between single spaces, of which some may be empty. It fails only
/// where memory runs out.
pub fn words(alloc: Global, line: &str) -> Result<Vec<&str>, AllocError>
    ensures { IfOk result (λ words. texts words.items ≡ words_of line.now) }
{
    line.split(' ').collect(alloc)
}

/// The word with this number, from 0.
pub fn word<'a>(words: &[&'a str], place: usize) -> &'a str
    requires { place < length words.now }
    ensures { result.now ≡ word_at (texts words.now) place }
{
    words[place]
}

fn is_digit(byte: u8) -> bool
    ensures { result ≡ is_ascii_digit byte }
{
    byte.is_ascii_digit()
}

fn are_digits(word: &[u8]) -> bool
    ensures { result ≡ list_all is_ascii_digit word.now }
{
    word.iter().all(|byte| is_digit(*byte))
}

fn is_number(word: &[u8]) -> bool
    ensures { result ≡ is_number word.now }
{
    if word.is_empty() || !are_digits(word) {
        return false;
    }
    word.len() == 1 || word[0] != b'0'
}

/// The whole number that a word spells in decimal digits, if it spells one; one past 2^64 - 1
/// counts as 2^64 - 1.
pub fn number(word: &str) -> Option<u64>
    ensures { result ≡ decimal_of word.now }
{
    if !is_number(word.as_bytes()) {
        return None;
    }
    Some(word.parse::<u64>().unwrap_or(u64::MAX))
}

/// The whole number that the word with this number, from 0, spells, if it spells one.
pub fn number_at(words: &[&str], place: usize) -> Option<u64>
    requires { place < length words.now }
    ensures { result ≡ decimal_of (word_at (texts words.now) place) }
{
    number(word(words, place))
}
