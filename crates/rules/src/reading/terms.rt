//! Terms in a line.

ghost use Rattle.std.specs.Prelude.{◌≡◌};
ghost use Rattle.wire_spec.specs.Memory.{AnswersAs};
ghost use Rattle.rules.specs.declared.fault.LineFault.TheVariants as faults;
ghost use Rattle.rules.specs.Reading as definitions;

use crate::fault::LineFault;
use crate::limits::{MAX_DIGITS, MAX_PLACE};
use crate::number::small_in;
use crate::reading::parts::argument_at;
use crate::rule::{Layout, Term};
use crate::scan::{after_word, behind_word, sign_expected, unexpected, word_at};
use std::alloc::Global;

/// The layout that a word names.
fn layout_named(word: &[u8]) -> Option<Layout>
    ensures { result ≡ definitions.layout_named word.now }
{
    if word == b"byte".as_slice() {
        Some(Layout::Byte)
    } else if word == b"u16be".as_slice() {
        Some(Layout::U16Be)
    } else if word == b"u32be".as_slice() {
        Some(Layout::U32Be)
    } else if word == b"u64be".as_slice() {
        Some(Layout::U64Be)
    } else if word == b"u16le".as_slice() {
        Some(Layout::U16Le)
    } else if word == b"u32le".as_slice() {
        Some(Layout::U32Le)
    } else if word == b"u64le".as_slice() {
        Some(Layout::U64Le)
    } else {
        None
    }
}

/// The place after a comma.
#[tactic(auto, unfolding(crate::specs::Reading::place_at))]
fn place_at(text: &[u8]) -> Result<(u32, &[u8]), LineFault>
    ensures { AnswersAs faults.Memory (λ x. (x.0, x.1.now)) result (definitions.place_at text.now) }
{
    let rest = sign_expected(text, b",")?;
    small_in(rest, 0, MAX_PLACE)
}

/// The count of digits after a comma.
#[tactic(auto, unfolding(crate::specs::Reading::count_at))]
fn count_at(text: &[u8]) -> Result<(u32, &[u8]), LineFault>
    ensures { AnswersAs faults.Memory (λ x. (x.0, x.1.now)) result (definitions.count_at text.now) }
{
    let rest = sign_expected(text, b",")?;
    small_in(rest, 1, MAX_DIGITS)
}

/// `(PART)` after `length`.
#[tactic(auto, unfolding(crate::specs::Reading::length_at))]
fn length_at(alloc: Global, text: &[u8]) -> Result<(Term, &[u8]), LineFault>
    ensures { AnswersAs faults.Memory (λ x. (x.0, x.1.now)) result (definitions.length_at text.now) }
{
    let (part, rest) = argument_at(alloc, text)?;
    let rest = sign_expected(rest, b")")?;
    Ok((Term::Length(part), rest))
}

/// `(PART, PLACE)` after a layout.
#[tactic(auto, unfolding(crate::specs::Reading::number_term_at))]
fn number_term_at(alloc: Global, layout: Layout, text: &[u8]) -> Result<(Term, &[u8]), LineFault>
    ensures { AnswersAs faults.Memory (λ x. (x.0, x.1.now)) result (definitions.number_term_at layout text.now) }
{
    let (part, rest) = argument_at(alloc, text)?;
    let (place, rest) = place_at(rest)?;
    let rest = sign_expected(rest, b")")?;
    Ok((Term::Number(layout, part, place), rest))
}

/// `(PART, PLACE, COUNT)` after `decimal`.
#[tactic(auto, unfolding(crate::specs::Reading::decimal_at))]
fn decimal_at(alloc: Global, text: &[u8]) -> Result<(Term, &[u8]), LineFault>
    ensures { AnswersAs faults.Memory (λ x. (x.0, x.1.now)) result (definitions.decimal_at text.now) }
{
    let (part, rest) = argument_at(alloc, text)?;
    let (place, rest) = place_at(rest)?;
    let (count, rest) = count_at(rest)?;
    let rest = sign_expected(rest, b")")?;
    Ok((Term::Decimal(part, place, count), rest))
}

/// The term of a layout, if the word at the front names one.
#[tactic(auto, unfolding(crate::specs::Reading::layout_term_at))]
fn layout_term_at(
    alloc: Global,
    layout: Option<Layout>,
    text: &[u8],
) -> Result<(Term, &[u8]), LineFault>
    ensures { AnswersAs faults.Memory (λ x. (x.0, x.1.now)) result (definitions.layout_term_at layout text.now) }
{
    match layout {
        Some(layout) => number_term_at(alloc, layout, behind_word(text)),
        None => Err(unexpected(text)),
    }
}

/// The term at the front, and what follows it.
#[tactic(auto, unfolding(crate::specs::Reading::term_at))]
pub fn term_at(alloc: Global, text: &[u8]) -> Result<(Term, &[u8]), LineFault>
    ensures { AnswersAs faults.Memory (λ x. (x.0, x.1.now)) result (definitions.term_at text.now) }
{
    if let Some(rest) = after_word(text, b"length") {
        return length_at(alloc, rest);
    }
    if let Some(rest) = after_word(text, b"decimal") {
        return decimal_at(alloc, rest);
    }
    if let Some(rest) = after_word(text, b"offset") {
        return Ok((Term::Offset, rest));
    }
    if let Some(rest) = after_word(text, b"timestamp") {
        return Ok((Term::Timestamp, rest));
    }
    if let Some(rest) = after_word(text, b"partition") {
        return Ok((Term::Partition, rest));
    }
    if let Some(rest) = after_word(text, b"headers") {
        return Ok((Term::Headers, rest));
    }
    layout_term_at(alloc, layout_named(word_at(text)), text)
}
