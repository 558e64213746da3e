//! Tests of a record in a line.

ghost use Rattle.wire_spec.specs.Memory.{AnswersAs};
ghost use Rattle.rules.specs.declared.fault.LineFault.TheVariants as faults;
ghost use Rattle.rules.specs.Reading as definitions;

use crate::fault::LineFault;
use crate::number::number_in;
use crate::quoted::text_at;
use crate::reading::parts::{names_part, part_at};
use crate::reading::terms::term_at;
use crate::rule::{Comparison, Part, Test};
use crate::scan::{after_sign, after_word, sign_expected, unexpected, word_at, word_expected};
use std::alloc::Global;

/// The comparison at the front, and what follows it.
#[tactic(auto, unfolding(crate::specs::Reading::comparison_at))]
fn comparison_at(text: &[u8]) -> Result<(Comparison, &[u8]), LineFault>
    ensures { AnswersAs faults.Memory (λ x. (x.0, x.1.now)) result (definitions.comparison_at text.now) }
{
    if let Some(rest) = after_sign(text, b"=") {
        return Ok((Comparison::Equal, rest));
    }
    if let Some(rest) = after_sign(text, b"!=") {
        return Ok((Comparison::NotEqual, rest));
    }
    if let Some(rest) = after_sign(text, b"<=") {
        return Ok((Comparison::LessOrEqual, rest));
    }
    if let Some(rest) = after_sign(text, b"<") {
        return Ok((Comparison::Less, rest));
    }
    if let Some(rest) = after_sign(text, b">=") {
        return Ok((Comparison::GreaterOrEqual, rest));
    }
    if let Some(rest) = after_sign(text, b">") {
        return Ok((Comparison::Greater, rest));
    }
    Err(unexpected(text))
}

/// `TERM = NUMBER` and its kin.
#[tactic(auto, unfolding(crate::specs::Reading::comparing_at))]
fn comparing_at(alloc: Global, text: &[u8]) -> Result<(Test, &[u8]), LineFault>
    ensures { AnswersAs faults.Memory (λ x. (x.0, x.1.now)) result (definitions.comparing_at text.now) }
{
    let (term, rest) = term_at(alloc, text)?;
    let (how, rest) = comparison_at(rest)?;
    let (number, rest) = number_in(rest, 0, u64::MAX)?;
    Ok((Test::Compare(term, how, number), rest))
}

/// `null` or `absent` after `PART is`.
#[tactic(auto, unfolding(crate::specs::Reading::is_at))]
fn is_at(part: Part, text: &[u8]) -> Result<(Test, &[u8]), LineFault>
    ensures { AnswersAs faults.Memory (λ x. (x.0, x.1.now)) result (definitions.is_at part text.now) }
{
    if let Some(rest) = after_word(text, b"null") {
        return Ok((Test::Null(part), rest));
    }
    let rest = word_expected(text, b"absent")?;
    Ok((Test::Absent(part), rest))
}

/// `TEXT` after `PART =`.
#[tactic(auto, unfolding(crate::specs::Reading::equal_at))]
fn equal_at(alloc: Global, part: Part, text: &[u8]) -> Result<(Test, &[u8]), LineFault>
    ensures { AnswersAs faults.Memory (λ x. (x.0, x.1.now)) result (definitions.equal_at part text.now) }
{
    let (text, rest) = text_at(alloc, text)?;
    Ok((Test::Equal(part, text), rest))
}

/// `TEXT` after `PART begins`.
#[tactic(auto, unfolding(crate::specs::Reading::begins_at))]
fn begins_at(alloc: Global, part: Part, text: &[u8]) -> Result<(Test, &[u8]), LineFault>
    ensures { AnswersAs faults.Memory (λ x. (x.0, x.1.now)) result (definitions.begins_at part text.now) }
{
    let (text, rest) = text_at(alloc, text)?;
    Ok((Test::Begins(part, text), rest))
}

/// `TEXT` after `PART has`.
#[tactic(auto, unfolding(crate::specs::Reading::has_at))]
fn has_at(alloc: Global, part: Part, text: &[u8]) -> Result<(Test, &[u8]), LineFault>
    ensures { AnswersAs faults.Memory (λ x. (x.0, x.1.now)) result (definitions.has_at part text.now) }
{
    let (text, rest) = text_at(alloc, text)?;
    Ok((Test::Has(part, text), rest))
}

/// What is asked of a part.
#[tactic(auto, unfolding(crate::specs::Reading::asked_at))]
fn asked_at(alloc: Global, part: Part, text: &[u8]) -> Result<(Test, &[u8]), LineFault>
    ensures { AnswersAs faults.Memory (λ x. (x.0, x.1.now)) result (definitions.asked_at part text.now) }
{
    if let Some(rest) = after_word(text, b"is") {
        return is_at(part, rest);
    }
    if let Some(rest) = after_word(text, b"begins") {
        return begins_at(alloc, part, rest);
    }
    if let Some(rest) = after_word(text, b"has") {
        return has_at(alloc, part, rest);
    }
    let rest = sign_expected(text, b"=")?;
    equal_at(alloc, part, rest)
}

/// The test at the front, and what follows it.
#[tactic(auto, unfolding(crate::specs::Reading::test_at))]
pub fn test_at(alloc: Global, text: &[u8]) -> Result<(Test, &[u8]), LineFault>
    ensures { AnswersAs faults.Memory (λ x. (x.0, x.1.now)) result (definitions.test_at text.now) }
{
    if !names_part(word_at(text)) {
        return comparing_at(alloc, text);
    }
    let (part, rest) = part_at(alloc, text)?;
    asked_at(alloc, part, rest)
}
