//! The front of a line: blanks, words and signs.

ghost use Rattle.std.specs.Prelude.{◌≡◌, ◌≤◌, not, length, option_map};
ghost use Rattle.std.specs.List.{position_or_len};
ghost use Rattle.wire_spec.specs.Memory.{AnswersAs};
ghost use Rattle.rules.specs.declared.fault.LineFault.TheVariants as faults;
ghost use Rattle.rules.specs.Scanning as definitions;

use crate::fault::LineFault;

fn is_blank(byte: u8) -> bool
    ensures { result ≡ definitions.is_blank byte }
{
    byte == b' ' || byte == b'\t' || byte == b'\r'
}

/// A text without the blanks before it.
pub fn skipped(text: &[u8]) -> &[u8]
    ensures { result.now ≡ definitions.skipped text.now }
{
    for place in 0..text.len() {
        if !is_blank(text[place]) {
            return &text[place..];
        }
    }
    &[]
}

/// Whether nothing is left but a comment.
pub fn is_end(text: &[u8]) -> bool
    ensures { result ≡ definitions.is_end text.now }
{
    match text {
        [] => true,
        [byte, ..] => *byte == b'#',
    }
}

/// The fault of what stands where it may not.
#[tactic(auto, unfolding(crate::specs::Scanning::unexpected))]
pub fn unexpected(text: &[u8]) -> LineFault
    ensures { result ≡ definitions.unexpected text.now }
{
    let rest = skipped(text);
    if is_end(rest) {
        LineFault::End(rest.len())
    } else {
        LineFault::Word(rest.len())
    }
}

fn is_word_byte(byte: u8) -> bool
    ensures { result ≡ definitions.is_word_byte byte }
{
    byte.is_ascii_alphanumeric() || byte == b'_'
}

/// How many bytes the word has that a text begins with.
fn word_length(text: &[u8]) -> usize
    ensures is { result ≡ position_or_len (λ byte. not (definitions.is_word_byte byte)) text.now }
    ensures is_within { result ≤ length text.now }
{
    for place in 0..text.len() {
        if !is_word_byte(text[place]) {
            return place;
        }
    }
    text.len()
}

/// The word at the front, which has no bytes where none stands there.
#[tactic(auto, unfolding(crate::specs::Scanning::word_at))]
pub fn word_at(text: &[u8]) -> &[u8]
    ensures { result.now ≡ definitions.word_at text.now }
{
    let rest = skipped(text);
    &rest[..word_length(rest)]
}

/// What follows the word at the front.
#[tactic(auto, unfolding(crate::specs::Scanning::behind_word, crate::specs::Scanning::word_at))]
pub fn behind_word(text: &[u8]) -> &[u8]
    ensures { result.now ≡ definitions.behind_word text.now }
{
    let rest = skipped(text);
    &rest[word_length(rest)..]
}

/// What follows this word, if it stands at the front.
#[tactic(auto, unfolding(crate::specs::Scanning::after_word))]
pub fn after_word<'a>(text: &'a [u8], word: &[u8]) -> Option<&'a [u8]>
    ensures { option_map (λ t. t.now) result ≡ definitions.after_word word.now text.now }
{
    if word_at(text) == word {
        Some(behind_word(text))
    } else {
        None
    }
}

/// What follows this sign, if it stands at the front.
#[tactic(auto, unfolding(crate::specs::Scanning::after_sign))]
pub fn after_sign<'a>(text: &'a [u8], sign: &[u8]) -> Option<&'a [u8]>
    ensures { option_map (λ t. t.now) result ≡ definitions.after_sign sign.now text.now }
{
    let rest = skipped(text);
    if rest.starts_with(sign) {
        Some(&rest[sign.len()..])
    } else {
        None
    }
}

/// What follows this word, which must stand at the front.
#[tactic(auto, unfolding(crate::specs::Scanning::word_expected))]
pub fn word_expected<'a>(text: &'a [u8], word: &[u8]) -> Result<&'a [u8], LineFault>
    ensures { AnswersAs faults.Memory (λ t. t.now) result (definitions.word_expected word.now text.now) }
{
    match after_word(text, word) {
        Some(rest) => Ok(rest),
        None => Err(unexpected(text)),
    }
}

/// What follows this sign, which must stand at the front.
#[tactic(auto, unfolding(crate::specs::Scanning::sign_expected))]
pub fn sign_expected<'a>(text: &'a [u8], sign: &[u8]) -> Result<&'a [u8], LineFault>
    ensures { AnswersAs faults.Memory (λ t. t.now) result (definitions.sign_expected sign.now text.now) }
{
    match after_sign(text, sign) {
        Some(rest) => Ok(rest),
        None => Err(unexpected(text)),
    }
}
