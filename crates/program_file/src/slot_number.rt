//! The number of a slot as a line has it.

ghost use Rattle.std.specs.Prelude.{◌≡◌};
ghost use Rattle.program_file.specs.Reading as definitions;

use std::str;

/// Whether a word begins with a sign, or with a 0 that is not alone, which no number's decimal text does.
fn is_padded(word: &[u8]) -> bool
    ensures { result ≡ definitions.is_padded word.now }
{
    !word.is_empty() && (word[0] == b'+' || word[0] == b'0' && word.len() > 1)
}

/// The number of 32 bits whose decimal text a word is, if it is one's.
pub fn slot_named(word: &[u8]) -> Option<u32>
    ensures { result ≡ definitions.slot_named word.now }
{
    if is_padded(word) {
        return None;
    }
    let Ok(text) = str::from_utf8(word) else {
        return None;
    };
    text.parse::<u32>().ok()
}
