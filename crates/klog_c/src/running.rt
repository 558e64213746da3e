//! What a run on one record is given.

ghost use Rattle.std.specs.Prelude.{◌≡◌, IfOk};
ghost use Rattle.c_outcomes.specs.Outcomes.{found};
ghost use Rattle.klog_c.specs.Calls as definitions;

use crate::faults::{LENGTH, MEMORY, OK, RANGE};
use crate::given_parts::{is_part_fitting, part_of};
use crate::handle::Handle;
use crate::object::headers_of;
use crate::record_headers::RecordHeaders;
use kafka_record::share_headers;
use machine_spec::Place;
use std::alloc::{AllocError, Global};
use wire_spec::{Headers, MAX_KEY, MAX_VALUE, Record, TIMESTAMP_END};

/// Where a record is, how many output partitions there are, and which parts of it are null.
#[repr(C)]
#[derive(Clone, Copy)]
pub struct Asked {
    /// The record's offset in its input partition, below 2^62.
    pub offset: u64,
    /// The record's timestamp in milliseconds, below 2^62.
    pub timestamp: u64,
    /// The input partition, below 64.
    pub partition: usize,
    /// How many output partitions there are, 1 to 64.
    pub outputs: usize,
    /// 1 for a null key plus 2 for a null value.
    pub nulls: u32,
}

fn is_in_range(asked: &Asked) -> bool
    ensures { result ≡ definitions.is_in_range asked.now }
{
    asked.partition < 64
        && asked.offset < TIMESTAMP_END
        && asked.timestamp < TIMESTAMP_END
        && 1 <= asked.outputs
        && asked.outputs <= 64
        && asked.nulls <= 3
}

/// Whether the key is null.
fn is_key_null(nulls: u32) -> bool
    ensures { result ≡ definitions.is_key_null nulls }
{
    nulls % 2 == 1
}

fn is_value_null(nulls: u32) -> bool
    ensures { result ≡ definitions.is_value_null nulls }
{
    2 <= nulls
}

/// The first fault of what a run is given, or 0.
fn run_fault(asked: &Asked, key: &[u8], value: &[u8]) -> u32
    ensures { result ≡ definitions.run_fault asked.now key.now value.now }
{
    if !is_in_range(asked) {
        RANGE
    } else if !is_part_fitting(is_key_null(asked.nulls), key, MAX_KEY)
        || !is_part_fitting(is_value_null(asked.nulls), value, MAX_VALUE)
    {
        LENGTH
    } else {
        OK
    }
}

/// The record of a key, a value and headers, whose bytes are shared.
fn record_of(
    alloc: Global,
    asked: &Asked,
    key: &[u8],
    value: &[u8],
    headers: &Headers,
) -> Result<Record, AllocError>
    ensures { IfOk result (λ given. given ≡ definitions.record_of asked.now key.now value.now headers.now) }
{
    Ok(Record {
        timestamp_delta: 0,
        key: part_of(alloc, is_key_null(asked.nulls), key)?,
        value: part_of(alloc, is_value_null(asked.nulls), value)?,
        headers: share_headers(alloc, headers)?,
    })
}

/// The record of a run, or the first fault of what it is given.
#[tactic(auto, using(crate::proofs::Ranges::record_fits))]
fn checked_record(
    alloc: Global,
    asked: &Asked,
    key: &[u8],
    value: &[u8],
    headers: Result<&RecordHeaders, u32>,
) -> Result<Record, u32>
    ensures { definitions.GivesRecord (found headers.entry) asked.now key.now value.now result }
{
    let headers = headers?;
    let fault = run_fault(asked, key, value);
    if fault != OK {
        return Err(fault);
    }
    match record_of(alloc, asked, key, value, headers.headers()) {
        Ok(given) => Ok(given),
        Err(_) => Err(MEMORY),
    }
}

/// The record of a run with the headers of a handle, or the first fault of what it is given.
pub(crate) fn given_record(
    alloc: Global,
    asked: &Asked,
    key: &[u8],
    value: &[u8],
    headers: &mut Handle,
) -> Result<Record, u32>
    ensures headers { headers.new.place.object ≡ headers.old.place.object }
    ensures given { definitions.GivesRecord (definitions.headers_in headers.old.place.object) asked.now key.now value.now result }
{
    let Some(object) = headers.take(alloc) else {
        return checked_record(alloc, asked, key, value, Ok(&RecordHeaders::new(alloc)));
    };
    let given = checked_record(alloc, asked, key, value, headers_of(&object));
    headers.put(alloc, object);
    given
}

/// Where the record of a run is.
pub(crate) fn place_of(asked: &Asked) -> Place
    ensures { result ≡ definitions.place_of asked.now }
{
    Place {
        partition: asked.partition,
        offset: asked.offset,
        timestamp: asked.timestamp,
        outputs: asked.outputs,
    }
}
