//! Parts of records in a line.

ghost use Rattle.std.specs.Prelude.{◌≡◌};
ghost use Rattle.wire_spec.specs.Memory.{AnswersAs};
ghost use Rattle.rules.specs.declared.fault.LineFault.TheVariants as faults;
ghost use Rattle.rules.specs.Reading as definitions;

use crate::fault::LineFault;
use crate::quoted::text_at;
use crate::rule::Part;
use crate::scan::{after_word, sign_expected, word_expected};
use std::alloc::Global;

/// Whether a part begins with a word.
pub fn names_part(word: &[u8]) -> bool
    ensures { result ≡ definitions.names_part word.now }
{
    word == b"value".as_slice() || word == b"key".as_slice() || word == b"header".as_slice()
}

/// The part at the front, and what follows it.
#[tactic(auto, unfolding(crate::specs::Reading::part_at))]
pub fn part_at(alloc: Global, text: &[u8]) -> Result<(Part, &[u8]), LineFault>
    ensures { AnswersAs faults.Memory (λ x. (x.0, x.1.now)) result (definitions.part_at text.now) }
{
    if let Some(rest) = after_word(text, b"value") {
        return Ok((Part::Value, rest));
    }
    if let Some(rest) = after_word(text, b"key") {
        return Ok((Part::Key, rest));
    }
    let rest = word_expected(text, b"header")?;
    let (name, rest) = text_at(alloc, rest)?;
    Ok((Part::Header(name), rest))
}

/// The part after an opening parenthesis, and what follows it.
#[tactic(auto, unfolding(crate::specs::Reading::argument_at))]
pub fn argument_at(alloc: Global, text: &[u8]) -> Result<(Part, &[u8]), LineFault>
    ensures { AnswersAs faults.Memory (λ x. (x.0, x.1.now)) result (definitions.argument_at text.now) }
{
    let rest = sign_expected(text, b"(")?;
    part_at(alloc, rest)
}
