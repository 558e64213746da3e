//! Actions in a line.

ghost use Rattle.wire_spec.specs.Memory.{AnswersAs};
ghost use Rattle.rules.specs.declared.fault.LineFault.TheVariants as faults;
ghost use Rattle.rules.specs.Reading as definitions;

use crate::fault::LineFault;
use crate::limits::{DROP_CODE, MAX_HASHED, MAX_OUTPUT, MAX_PLACE};
use crate::number::{is_number, number_in, small_in};
use crate::quoted::text_at;
use crate::reading::parts::{argument_at, names_part, part_at};
use crate::rule::{Action, AddedHeader, Cut, Output};
use crate::scan::{after_sign, after_word, sign_expected, word_at, word_expected};
use std::alloc::Global;

/// `CODE` after `drop`, or none.
#[tactic(auto, unfolding(crate::specs::Reading::drop_at))]
fn drop_at(text: &[u8]) -> Result<(Action, &[u8]), LineFault>
    ensures { AnswersAs faults.Memory (λ x. (x.0, x.1.now)) result (definitions.drop_at text.now) }
{
    if !is_number(word_at(text)) {
        return Ok((Action::Drop(DROP_CODE), text));
    }
    let (code, rest) = number_in(text, 1, u64::MAX)?;
    Ok((Action::Drop(code), rest))
}

/// `N` after `tombstone`.
#[tactic(auto, unfolding(crate::specs::Reading::tombstone_at))]
fn tombstone_at(text: &[u8]) -> Result<(Action, &[u8]), LineFault>
    ensures { AnswersAs faults.Memory (λ x. (x.0, x.1.now)) result (definitions.tombstone_at text.now) }
{
    let (number, rest) = small_in(text, 0, MAX_OUTPUT)?;
    Ok((Action::Tombstone(number), rest))
}

/// `(PART) % COUNT` after `hash`.
#[tactic(auto, unfolding(crate::specs::Reading::hashed_at))]
fn hashed_at(alloc: Global, text: &[u8]) -> Result<(Output, &[u8]), LineFault>
    ensures { AnswersAs faults.Memory (λ x. (x.0, x.1.now)) result (definitions.hashed_at text.now) }
{
    let (part, rest) = argument_at(alloc, text)?;
    let rest = sign_expected(rest, b")")?;
    let rest = sign_expected(rest, b"%")?;
    let (count, rest) = small_in(rest, 1, MAX_HASHED)?;
    Ok((Output::Hashed(part, count), rest))
}

/// `[FROM..` of a cut.
#[tactic(auto, unfolding(crate::specs::Reading::from_at))]
fn from_at(text: &[u8]) -> Result<(u32, &[u8]), LineFault>
    ensures { AnswersAs faults.Memory (λ x. (x.0, x.1.now)) result (definitions.from_at text.now) }
{
    let rest = sign_expected(text, b"[")?;
    let (from, rest) = small_in(rest, 0, MAX_PLACE)?;
    let rest = sign_expected(rest, b"..")?;
    Ok((from, rest))
}

/// `TO]` of a cut that begins at a place.
#[tactic(auto, unfolding(crate::specs::Reading::to_at))]
fn to_at(from: u32, text: &[u8]) -> Result<(u32, &[u8]), LineFault>
    ensures { AnswersAs faults.Memory (λ x. (x.0, x.1.now)) result (definitions.to_at from text.now) }
{
    let (to, rest) = small_in(text, from, MAX_PLACE)?;
    let rest = sign_expected(rest, b"]")?;
    Ok((to, rest))
}

/// `TO]` or `]` of a cut that begins at a place.
#[tactic(auto, unfolding(crate::specs::Reading::cut_end_at))]
fn cut_end_at(from: u32, text: &[u8]) -> Result<(Cut, &[u8]), LineFault>
    ensures { AnswersAs faults.Memory (λ x. (x.0, x.1.now)) result (definitions.cut_end_at from text.now) }
{
    if let Some(rest) = after_sign(text, b"]") {
        return Ok((Cut { from, to: None }, rest));
    }
    let (to, rest) = to_at(from, text)?;
    Ok((Cut { from, to: Some(to) }, rest))
}

/// `PART[FROM..TO]` after `output N`.
#[tactic(auto, unfolding(crate::specs::Reading::cut_at))]
fn cut_at(alloc: Global, number: u32, text: &[u8]) -> Result<(Output, &[u8]), LineFault>
    ensures { AnswersAs faults.Memory (λ x. (x.0, x.1.now)) result (definitions.cut_at number text.now) }
{
    let (part, rest) = part_at(alloc, text)?;
    let (from, rest) = from_at(rest)?;
    let (cut, rest) = cut_end_at(from, rest)?;
    Ok((Output::Cut(number, part, cut), rest))
}

/// `value[FROM..TO] = TEXT` after `output N with`.
#[tactic(auto, unfolding(crate::specs::Reading::changed_at))]
fn changed_at(alloc: Global, number: u32, text: &[u8]) -> Result<(Output, &[u8]), LineFault>
    ensures { AnswersAs faults.Memory (λ x. (x.0, x.1.now)) result (definitions.changed_at number text.now) }
{
    let rest = word_expected(text, b"value")?;
    let (from, rest) = from_at(rest)?;
    let (to, rest) = to_at(from, rest)?;
    let rest = sign_expected(rest, b"=")?;
    let (text, rest) = text_at(alloc, rest)?;
    Ok((Output::Changed(number, from, to, text), rest))
}

/// What an output partition gets.
#[tactic(auto, unfolding(crate::specs::Reading::form_at))]
fn form_at(alloc: Global, number: u32, text: &[u8]) -> Result<(Output, &[u8]), LineFault>
    ensures { AnswersAs faults.Memory (λ x. (x.0, x.1.now)) result (definitions.form_at number text.now) }
{
    if let Some(rest) = after_word(text, b"with") {
        return changed_at(alloc, number, rest);
    }
    if names_part(word_at(text)) {
        return cut_at(alloc, number, text);
    }
    Ok((Output::Record(number), text))
}

/// `hash(PART) % COUNT`, or `N` and what it gets.
#[tactic(auto, unfolding(crate::specs::Reading::output_at))]
fn output_at(alloc: Global, text: &[u8]) -> Result<(Output, &[u8]), LineFault>
    ensures { AnswersAs faults.Memory (λ x. (x.0, x.1.now)) result (definitions.output_at text.now) }
{
    if let Some(rest) = after_word(text, b"hash") {
        return hashed_at(alloc, rest);
    }
    let (number, rest) = small_in(text, 0, MAX_OUTPUT)?;
    form_at(alloc, number, rest)
}

/// `header TEXT = TEXT` after `and`.
#[tactic(auto, unfolding(crate::specs::Reading::header_at))]
fn header_at(alloc: Global, text: &[u8]) -> Result<(AddedHeader, &[u8]), LineFault>
    ensures { AnswersAs faults.Memory (λ x. (x.0, x.1.now)) result (definitions.header_at text.now) }
{
    let rest = word_expected(text, b"header")?;
    let (key, rest) = text_at(alloc, rest)?;
    let rest = sign_expected(rest, b"=")?;
    let (value, rest) = text_at(alloc, rest)?;
    Ok((AddedHeader { key, value }, rest))
}

/// The header that is added, if one is.
#[tactic(auto, unfolding(crate::specs::Reading::added_at))]
fn added_at(alloc: Global, text: &[u8]) -> Result<(Option<AddedHeader>, &[u8]), LineFault>
    ensures { AnswersAs faults.Memory (λ x. (x.0, x.1.now)) result (definitions.added_at text.now) }
{
    let Some(rest) = after_word(text, b"and") else {
        return Ok((None, text));
    };
    let (header, rest) = header_at(alloc, rest)?;
    Ok((Some(header), rest))
}

/// What is output, and the header that is added.
#[tactic(auto, unfolding(crate::specs::Reading::outputs_at))]
fn outputs_at(alloc: Global, text: &[u8]) -> Result<(Action, &[u8]), LineFault>
    ensures { AnswersAs faults.Memory (λ x. (x.0, x.1.now)) result (definitions.outputs_at text.now) }
{
    let (output, rest) = output_at(alloc, text)?;
    let (added, rest) = added_at(alloc, rest)?;
    Ok((Action::Output(output, added), rest))
}

/// The action at the front, and what follows it.
#[tactic(auto, unfolding(crate::specs::Reading::action_at))]
pub fn action_at(alloc: Global, text: &[u8]) -> Result<(Action, &[u8]), LineFault>
    ensures { AnswersAs faults.Memory (λ x. (x.0, x.1.now)) result (definitions.action_at text.now) }
{
    if let Some(rest) = after_word(text, b"drop") {
        return drop_at(rest);
    }
    if let Some(rest) = after_word(text, b"tombstone") {
        return tombstone_at(rest);
    }
    let rest = word_expected(text, b"output")?;
    outputs_at(alloc, rest)
}
