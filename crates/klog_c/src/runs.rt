//! Exports on runs: headers for records, a run, what its outcome tells.

ghost use Rattle.std.specs.Prelude.{◌≡◌};
ghost use Rattle.machine_spec.specs.Machine.{bytes_of};
ghost use Rattle.c_outcomes.specs.Outcomes.{found};
ghost use Rattle.klog_c.specs.Calls.{AddsHeader, Runs, program_in, outcome_in, headers_in};
ghost use Rattle.klog_c.specs.Outcomes.{Tells, TellsAt, CopiesAt, TellsHeader, CopiesHeader};

use crate::handle::Handle;
use crate::headers::{add_first, add_to};
use crate::object::{outcome_of, program_of};
use crate::running::{Asked, given_record, place_of};
use crate::working::run_into;
use c_outcomes::{
    EmissionTold, HeaderTold, OK, code_of, copy_found, emission_at, emissions_of, header_at,
    header_key_at, header_value_at, key_at, tell, value_at,
};
use machine_spec::Outcome;
use std::alloc::Global;

/// Adds a header of a key and a value, which may be null, to a handle that holds nothing or headers,
/// for runs. A fault leaves the handle as it was.
#[unsafe(no_mangle)]
pub extern "C" fn klog_c_add_header(
    alloc: Global,
    headers: &mut Handle,
    key: &[u8],
    value: &[u8],
    is_value_null: bool,
) -> u32
    ensures { AddsHeader (headers_in headers.old.place.object) key.now is_value_null value.now headers.old.place.object headers.new.place.object result }
{
    let Some(mut object) = headers.take(alloc) else {
        return add_first(alloc, headers, key, value, is_value_null);
    };
    let number = add_to(alloc, &mut object, key, value, is_value_null);
    headers.put(alloc, object);
    number
}

/// Runs a program on one record, with the headers of a handle that holds nothing or headers, into a
/// handle that holds nothing or an outcome. A fault leaves the handle as it was.
#[unsafe(no_mangle)]
#[tactic(auto, using(crate::proofs::Ranges::given_is, crate::proofs::Ranges::ran))]
pub extern "C" fn klog_c_run(
    alloc: Global,
    program: &mut Handle,
    asked: &Asked,
    key: &[u8],
    value: &[u8],
    headers: &mut Handle,
    outcome: &mut Handle,
) -> u32
    ensures program { program.new.place.object ≡ program.old.place.object }
    ensures headers { headers.new.place.object ≡ headers.old.place.object }
    ensures outcome { Runs (program_in program.old.place.object) (headers_in headers.old.place.object) asked.now key.now value.now outcome.old.place.object outcome.new.place.object result }
{
    let given = given_record(alloc, asked, key, value, headers);
    let object = program.take(alloc);
    let number = run_into(alloc, program_of(&object), given, &place_of(asked), outcome);
    program.put_back(alloc, object);
    number
}

fn tell_code(outcome: Result<&Outcome, u32>, code: &mut u64, count: &mut usize) -> u32
    ensures { Tells (found outcome.entry) code.new count.new result }
{
    match outcome {
        Err(fault) => fault,
        Ok(outcome) => {
            *code = code_of(outcome);
            *count = emissions_of(outcome).len();
            OK
        }
    }
}

/// Tells what an outcome is: its reject code, 0 where the record is kept, and how many emissions it
/// has, at most 16.
#[unsafe(no_mangle)]
pub extern "C" fn klog_c_outcome(
    alloc: Global,
    outcome: &mut Handle,
    code: &mut u64,
    count: &mut usize,
) -> u32
    ensures outcome { outcome.new.place.object ≡ outcome.old.place.object }
    ensures told { Tells (outcome_in outcome.old.place.object) code.new count.new result }
{
    let object = outcome.take(alloc);
    let number = tell_code(outcome_of(&object), code, count);
    outcome.put_back(alloc, object);
    number
}

/// Tells of an emission of an outcome, by its number from 0: its output partition, and how long its
/// key and its value are.
#[unsafe(no_mangle)]
pub extern "C" fn klog_c_emission(
    alloc: Global,
    outcome: &mut Handle,
    at: usize,
    emission: &mut EmissionTold,
) -> u32
    ensures outcome { outcome.new.place.object ≡ outcome.old.place.object }
    ensures told { TellsAt (outcome_in outcome.old.place.object) at emission.new result }
{
    let object = outcome.take(alloc);
    let number = tell(emission_at(outcome_of(&object), at), emission);
    outcome.put_back(alloc, object);
    number
}

/// Copies the key of an emission to the front of a buffer. A fault leaves the buffer as it was.
#[unsafe(no_mangle)]
pub extern "C" fn klog_c_emission_key(
    alloc: Global,
    outcome: &mut Handle,
    at: usize,
    buffer: &mut [u8],
) -> u32
    ensures outcome { outcome.new.place.object ≡ outcome.old.place.object }
    ensures copied { CopiesAt (λ e. e.key) (outcome_in outcome.old.place.object) at buffer.old buffer.new result }
{
    let object = outcome.take(alloc);
    let number = copy_found(key_at(outcome_of(&object), at), buffer);
    outcome.put_back(alloc, object);
    number
}

/// Copies the value of an emission to the front of a buffer. A fault leaves the buffer as it was.
#[unsafe(no_mangle)]
pub extern "C" fn klog_c_emission_value(
    alloc: Global,
    outcome: &mut Handle,
    at: usize,
    buffer: &mut [u8],
) -> u32
    ensures outcome { outcome.new.place.object ≡ outcome.old.place.object }
    ensures copied { CopiesAt (λ e. e.value) (outcome_in outcome.old.place.object) at buffer.old buffer.new result }
{
    let object = outcome.take(alloc);
    let number = copy_found(value_at(outcome_of(&object), at), buffer);
    outcome.put_back(alloc, object);
    number
}

/// Tells how long the key and the value of an emission's header are, by their numbers from 0.
#[unsafe(no_mangle)]
pub extern "C" fn klog_c_emission_header(
    alloc: Global,
    outcome: &mut Handle,
    at: usize,
    header: usize,
    told: &mut HeaderTold,
) -> u32
    ensures outcome { outcome.new.place.object ≡ outcome.old.place.object }
    ensures told { TellsHeader (outcome_in outcome.old.place.object) at header told.new result }
{
    let object = outcome.take(alloc);
    let number = tell(header_at(outcome_of(&object), at, header), told);
    outcome.put_back(alloc, object);
    number
}

/// Copies a key of an emission's headers to the front of a buffer. A fault leaves it as it was.
#[unsafe(no_mangle)]
pub extern "C" fn klog_c_emission_header_key(
    alloc: Global,
    outcome: &mut Handle,
    at: usize,
    header: usize,
    buffer: &mut [u8],
) -> u32
    ensures outcome { outcome.new.place.object ≡ outcome.old.place.object }
    ensures copied { CopiesHeader (λ h. h.key) (outcome_in outcome.old.place.object) at header buffer.old buffer.new result }
{
    let object = outcome.take(alloc);
    let number = copy_found(header_key_at(outcome_of(&object), at, header), buffer);
    outcome.put_back(alloc, object);
    number
}

/// Copies a value of an emission's headers to the front of a buffer. A fault leaves it as it was.
#[unsafe(no_mangle)]
pub extern "C" fn klog_c_emission_header_value(
    alloc: Global,
    outcome: &mut Handle,
    at: usize,
    header: usize,
    buffer: &mut [u8],
) -> u32
    ensures outcome { outcome.new.place.object ≡ outcome.old.place.object }
    ensures copied { CopiesHeader (λ h. bytes_of h.value) (outcome_in outcome.old.place.object) at header buffer.old buffer.new result }
{
    let object = outcome.take(alloc);
    let number = copy_found(header_value_at(outcome_of(&object), at, header), buffer);
    outcome.put_back(alloc, object);
    number
}
