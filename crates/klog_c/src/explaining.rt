//! Why the verifier accepts or refuses a program, as a text.

ghost use Rattle.std.specs.Prelude.{◌≡◌, Some, IfOk, string_bytes};
ghost use Rattle.explain.specs.ImageFaults.{image_fault_text as fault_lines};
ghost use Rattle.program_file.specs.Choice.{program_in};
ghost use Rattle.c_outcomes.specs.Outcomes.{found};
ghost use Rattle.klog_c.specs.Calls.{given_with};
ghost use Rattle.klog_c.specs.Explained as definitions;

use crate::faults::{MEMORY, RANGE, file_number};
use crate::filling::fill;
use crate::handle::Handle;
use crate::object::Object;
use crate::working::{given_of, table_with_number};
use c_outcomes::copy;
use explain::{Coverage, Explanation, explain_image, image_fault_text, refusal_text};
use machine_spec::IsaFault;
use program_file::{GivenProgram, Places, place_at};
use std::alloc::{AllocError, Global};

/// The lines of an explanation, and its refusal, if there is one: a program's fault, what it is about
/// and what to do. Where the program's file says from which place in the source the instruction comes,
/// that is named.
fn program_text(
    alloc: Global,
    places: &Places,
    explanation: Explanation,
) -> Result<String, AllocError>
    ensures { IfOk result (λ text. definitions.Continues (string_bytes explanation.lines) explanation.refusal (string_bytes text)) }
{
    let Explanation { lines, refusal } = explanation;
    let mut text = lines;
    let Some(refusal) = refusal else {
        return Ok(text);
    };
    let said = refusal_text(alloc, &refusal, place_at(places, refusal.slot))?;
    text.push_str(&said)?;
    Ok(text)
}

/// The fault of an image without code, and what it is about.
fn no_code_text(alloc: Global, image: &[u8], fault: IsaFault) -> Result<String, AllocError>
    ensures { IfOk result (λ text. definitions.EndsWith (fault_lines image.now fault) (string_bytes text)) }
{
    let why = image_fault_text(alloc, image, fault)?;
    let mut text = format!(in alloc; "{fault}\n")?;
    text.push_str(&why)?;
    Ok(text)
}

/// The text of an explanation, or of an image without code.
fn text_of(
    alloc: Global,
    given: &GivenProgram,
    found: Result<Explanation, IsaFault>,
) -> Result<String, AllocError>
    ensures { IfOk result (λ text. definitions.IsTextOf given.now.image found (string_bytes text)) }
{
    match found {
        Ok(explanation) => program_text(alloc, &given.places, explanation),
        Err(IsaFault::Memory) => Err(AllocError),
        Err(fault) => no_code_text(alloc, &given.image, fault),
    }
}

fn extent_of(is_refused_alone: bool) -> Coverage
    ensures { result ≡ definitions.extent_of is_refused_alone }
{
    if is_refused_alone {
        Coverage::Refused
    } else {
        Coverage::All
    }
}

/// Puts what is explained of a program that was given into a handle.
fn put_explanation(alloc: Global, given: &GivenProgram, extent: Coverage, text: &mut Handle) -> u32
    ensures { definitions.ExplainsProgram (program_in given.now) extent text.old.place.object text.new.place.object result }
{
    let explanation = explain_image(alloc, &given.image, given.table, extent);
    match text_of(alloc, given, explanation) {
        Err(_) => MEMORY,
        Ok(found) => fill(alloc, text, Object::Text(found)),
    }
}

/// Puts what is explained of the program that bytes are into a handle, by the helper table that a number names,
/// if it names one.
#[tactic(auto, using(crate::proofs::GivenLaws::explained, crate::proofs::GivenLaws::not_explained))]
pub(crate) fn explain_into(
    alloc: Global,
    bytes: &[u8],
    number: u32,
    is_refused_alone: bool,
    text: &mut Handle,
) -> u32
    ensures { definitions.Explained (given_with bytes.now number) is_refused_alone text.old.place.object text.new.place.object result }
{
    let Some(named) = table_with_number(number) else {
        return RANGE;
    };
    match given_of(alloc, bytes, named) {
        Ok(given) => put_explanation(alloc, &given, extent_of(is_refused_alone), text),
        Err(fault) => file_number(fault),
    }
}

/// Copies a text that was found, and tells its length.
pub(crate) fn copy_text(text: Result<&str, u32>, buffer: &mut [u8], length: &mut usize) -> u32
    ensures { definitions.CopiesText (found text.entry) buffer.old buffer.new length.new result }
{
    match text {
        Err(fault) => fault,
        Ok(text) => {
            *length = text.len();
            copy(text.as_bytes(), buffer)
        }
    }
}
