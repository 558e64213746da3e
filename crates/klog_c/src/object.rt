//! What a handle of C's stands for.

ghost use Rattle.std.specs.Prelude.{◌≡◌, Some, ok_or};
ghost use Rattle.c_outcomes.specs.Outcomes.{found};
ghost use Rattle.klog_c.specs.Handles.{taken as held};
ghost use Rattle.klog_c.specs.Batches.{batches_in};
ghost use Rattle.klog_c.specs.Calls as definitions;
ghost use Rattle.klog_c.specs.declared.faults.TheConstants.{KIND as kind};

use crate::faults::KIND;
use crate::record_headers::RecordHeaders;
use crate::shared::Shared;
use machine_spec::Outcome;
use transform::Transformed;

/// What a handle of C's stands for.
#[derive(Drop)]
pub enum Object {
    /// A program that was loaded.
    Program(Shared),
    /// What a program made of a record.
    Outcome(Outcome),
    /// A text.
    Text(String),
    /// What a program made of record batches.
    Batches(Transformed),
    /// Headers for records.
    Headers(RecordHeaders),
}

/// What was taken out of a handle, if there was something.
pub(crate) type Taken = Option<Box<Object>>;

fn object_of(taken: &Taken) -> Result<&Object, u32>
    ensures { found result ≡ ok_or (held taken.now) kind }
{
    match taken {
        None => Err(KIND),
        Some(object) => Ok(object),
    }
}

/// The program that was taken.
pub(crate) fn program_of(taken: &Taken) -> Result<&Shared, u32>
    ensures { found result ≡ definitions.program_in (held taken.now) }
{
    match object_of(taken)? {
        Object::Outcome(_) | Object::Text(_) | Object::Batches(_) | Object::Headers(_) => Err(KIND),
        Object::Program(program) => Ok(program),
    }
}

/// The outcome that was taken.
pub(crate) fn outcome_of(taken: &Taken) -> Result<&Outcome, u32>
    ensures { found result ≡ definitions.outcome_in (held taken.now) }
{
    match object_of(taken)? {
        Object::Program(_) | Object::Text(_) | Object::Batches(_) | Object::Headers(_) => Err(KIND),
        Object::Outcome(outcome) => Ok(outcome),
    }
}

/// The text that was taken.
pub(crate) fn text_of(taken: &Taken) -> Result<&str, u32>
    ensures { found result ≡ definitions.text_in (held taken.now) }
{
    match object_of(taken)? {
        Object::Program(_) | Object::Outcome(_) | Object::Batches(_) | Object::Headers(_) => {
            Err(KIND)
        }
        Object::Text(text) => Ok(text),
    }
}

/// The batches that were taken.
pub(crate) fn batches_of(taken: &Taken) -> Result<&Transformed, u32>
    ensures { found result ≡ batches_in (held taken.now) }
{
    match object_of(taken)? {
        Object::Program(_) | Object::Outcome(_) | Object::Text(_) | Object::Headers(_) => Err(KIND),
        Object::Batches(made) => Ok(made),
    }
}

/// An object's headers.
pub(crate) fn headers_of(object: &Object) -> Result<&RecordHeaders, u32>
    ensures { found result ≡ definitions.headers_in (Some object.now) }
{
    match object {
        Object::Program(_) | Object::Outcome(_) | Object::Text(_) | Object::Batches(_) => Err(KIND),
        Object::Headers(headers) => Ok(headers),
    }
}
