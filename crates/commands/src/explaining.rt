//! What is said of a refused program.

ghost use Rattle.std.specs.Prelude.{◌≡◌};
ghost use Rattle.commands.specs.Explanations as definitions;

use crate::status::Status;
use explain::{
    Coverage, Diagnosis, Explanation, explain_image, image_fault_text, refusal_text as text_of,
};
use machine_spec::IsaFault;
use program_file::{GivenProgram, place_at};
use std::alloc::{AllocError, Global};
use verifier_spec::LoadFault;

/// The fault of a program, what it is about and what to do, each in a line. Where the program's file says from which
/// place in the source the instruction comes, that is named.
pub fn refusal_text(
    alloc: Global,
    given: &GivenProgram,
    refusal: &Diagnosis,
) -> Result<String, AllocError> {
    text_of(alloc, refusal, place_at(&given.places, refusal.slot))
}

/// What a program's fault is about, where its file says from which place in the source the instruction comes.
fn placed_refusal(given: &GivenProgram, refusal: Option<Diagnosis>) -> Option<Diagnosis> {
    let refusal = refusal?;
    place_at(&given.places, refusal.slot)?;
    Some(Diagnosis {
        hint: None,
        ..refusal
    })
}

/// The same of a program of which only the fault is known.
fn found_refusal(
    alloc: Global,
    given: &GivenProgram,
    fault: LoadFault,
) -> Result<Option<Diagnosis>, AllocError> {
    if given.places.list.is_empty() || matches!(fault, LoadFault::Isa(_)) {
        return Ok(None);
    }
    match explain_image(alloc, &given.image, given.table, Coverage::Refused) {
        Ok(explanation) => Ok(placed_refusal(given, explanation.refusal)),
        Err(_) => Err(AllocError),
    }
}

/// The fault of a program. Where the program's file says from which place in the source the instruction comes, a line
/// with the place and what the fault is about follows.
pub fn refused_text(
    alloc: Global,
    given: &GivenProgram,
    fault: LoadFault,
) -> Result<String, AllocError> {
    match found_refusal(alloc, given, fault)? {
        Some(refusal) => refusal_text(alloc, given, &refusal),
        None => format!(in alloc; "{fault}\n"),
    }
}

/// The fault of an image without code, and what it is about, in lines.
pub fn no_code_text(alloc: Global, image: &[u8], fault: IsaFault) -> Result<String, AllocError> {
    let why = image_fault_text(alloc, image, fault)?;
    format!(in alloc; "{fault}\n{why}")
}

/// The status that reports whether a program is refused.
pub fn status_of_explained(explanation: &Explanation) -> Status
    ensures { result ≡ definitions.status_of_explained explanation.now }
{
    match explanation.refusal {
        None => Status::Done,
        Some(_) => Status::Refused,
    }
}
