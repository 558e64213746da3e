//! The text of a refusal.

use crate::explanation::Diagnosis;
use crate::hint::Hint;
use crate::reason::Reason;
use std::alloc::{AllocError, Global};

/// Appends what a refusal is about, after the place in the source, where that is known.
fn push_reason(text: &mut String, place: Option<&str>, reason: Reason) -> Result<(), AllocError> {
    match place {
        Some(place) => write!(text, "{place}: {reason}\n"),
        None => write!(text, "{reason}\n"),
    }
}

/// Appends what usually leads to a refusal, if that is known.
fn push_hint(text: &mut String, hint: Option<Hint>) -> Result<(), AllocError> {
    match hint {
        Some(hint) => write!(text, "{hint}\n"),
        None => Ok(()),
    }
}

/// Why a program is refused, each in a line: the fault; what it is about, after the place in the source that the
/// instruction comes from, where that is known; and what usually leads to it.
pub fn refusal_text(
    alloc: Global,
    refusal: &Diagnosis,
    place: Option<&str>,
) -> Result<String, AllocError> {
    let Diagnosis {
        fault,
        reason,
        hint,
        ..
    } = *refusal;
    let mut text = format!(in alloc; "{fault}\n")?;
    if let Some(reason) = reason {
        push_reason(&mut text, place, reason)?;
    }
    push_hint(&mut text, hint)?;
    Ok(text)
}
