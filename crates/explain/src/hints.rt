//! The hint that belongs to a refusal.

ghost use Rattle.std.specs.Prelude.{◌≡◌, ◌+ℤ◌, neg_ℤ, pos, ◌<◌, IfOk, Some};
ghost use Rattle.std.specs.Option.{option_copied};
ghost use Rattle.explain.specs.Hints as definitions;
ghost use Rattle.explain.specs.Reasons.{first_below};

use crate::accesses::{first_unset, is_unset_in};
use crate::graph::Graph;
use crate::hint::Hint;
use crate::loops::back_hint;
use crate::meeting::lost_hint;
use crate::reason::{Reached, Reason};
use abstract_regs::State;
use lattice::kinds;
use machine_spec::{Placed, Region, STACK_SIZE, Summary, Table};
use notes::claim_at;
use std::alloc::{AllocError, Global};
use verifier_spec::{Abs, Abstract, Interval, StackSet, VerifyFault};
use wire_spec::{MAX_KEY, MAX_VALUE};

// ---- kinds

/// The hint where a number is used as an address.
fn address_hint(kind: Abs) -> Option<Hint>
    ensures { result ≡ definitions.address_hint kind }
{
    match kind {
        Abs::Num(_, high) if high < 0x1_0000_0000 => Some(Hint::Global),
        Abs::Num(_, _) => Some(Hint::NoPointer),
        Abs::Len(_) => Some(Hint::Length),
        Abs::None => None,
        Abs::Addr(_, _, _) => None,
    }
}

/// The hint where an address is used as a number, by what the instruction does.
fn number_hint(summary: Summary) -> Option<Hint>
    ensures { result ≡ definitions.number_hint summary }
{
    if summary.condition.is_some() {
        Some(Hint::Compared)
    } else if summary.memory.is_some() {
        Some(Hint::Spilled)
    } else if summary.call.is_some() || summary.exits {
        None
    } else {
        Some(Hint::Computed)
    }
}

// ---- helpers

/// The hint where a helper is called that the program's table lacks, if table two has it.
fn helper_hint(number: i32) -> Option<Hint>
    ensures { result ≡ definitions.helper_hint number }
{
    if Table::Two.with_number(number).is_some() {
        Some(Hint::TableTwo)
    } else {
        None
    }
}

// ---- bytes of a region

/// How many bytes a region has at most.
fn limit(region: Region) -> i128
    ensures { result ≡ pos (definitions.limit region) }
{
    match region {
        Region::Stack => STACK_SIZE as i128,
        Region::Key => MAX_KEY as i128,
        Region::Value => MAX_VALUE as i128,
    }
}

/// The first of some bytes that a region may lack, which has some at least.
fn first_missing(bytes: Reached, least: u32) -> i128
    ensures { result ≡ definitions.first_missing bytes least }
{
    bytes.first.max(least as i128).min(bytes.last)
}

/// Whether some bytes are not all among those that their region may have.
fn leaves_region(bytes: Reached) -> bool
    ensures { result ≡ definitions.leaves_region bytes }
{
    bytes.first < 0 || bytes.last >= limit(bytes.region)
}

/// The hint for such bytes: those before the region, or those past its end.
fn no_bytes(bytes: Reached) -> Hint
    ensures { result ≡ definitions.no_bytes bytes }
{
    if bytes.first < 0 {
        Hint::NoBytes(bytes.region, bytes.first, bytes.last.min(-1))
    } else {
        Hint::NoBytes(
            bytes.region,
            bytes.first.max(limit(bytes.region)),
            bytes.last,
        )
    }
}

/// The hint where a key or a value may lack bytes. A test of the length helps where it leaves more
/// than the greatest keys or values.
fn record_hint(bytes: Reached, least: u32) -> Hint
    ensures { result ≡ definitions.record_hint bytes least }
{
    if bytes.first < 0 {
        no_bytes(bytes)
    } else if bytes.last >= limit(bytes.region) - 1 {
        Hint::Far(bytes.region, bytes.last)
    } else {
        Hint::Missing(bytes.region, first_missing(bytes, least), bytes.last)
    }
}

// ---- the stack

/// Whether a place of the stack ends the places before it that may not be set.
fn ends_unset(set: &StackSet, bytes: Reached, first: u64, place: u64) -> bool
    requires { place < STACK_SIZE }
    ensures { result ≡ definitions.ends_unset set.now bytes first place }
{
    first <= place && !is_unset_in(set, bytes, place + 1)
}

/// The last of the places from one on that are among some bytes and may not be set.
#[tactic(auto, using(crate::proofs::Places::none_first, crate::proofs::Places::none_more, crate::proofs::Places::found_first))]
fn last_unset(set: &StackSet, bytes: Reached, first: u64) -> Option<u64>
    ensures { result ≡ first_below STACK_SIZE (definitions.ends_unset set.now bytes first) }
{
    for place in 0..STACK_SIZE as u64 {
        if ends_unset(set, bytes, first, place) {
            return Some(place);
        }
    }
    None
}

/// The hint for stack places, from one on, that are among some bytes and may not be set.
fn unset_from(set: &StackSet, bytes: Reached, first: Option<u64>) -> Option<Hint>
    ensures { result ≡ definitions.unset_from set.now bytes first }
{
    let first = first?;
    let last = last_unset(set, bytes, first)?;
    Some(Hint::Unset(first, last))
}

fn stack_hint(set: &StackSet, bytes: Reached) -> Option<Hint>
    ensures { result ≡ definitions.stack_hint set.now bytes }
{
    if leaves_region(bytes) {
        Some(no_bytes(bytes))
    } else {
        unset_from(set, bytes, first_unset(set, bytes))
    }
}

// ---- arguments of a call

/// The last byte that a number names from an address on.
fn last_named(high: i64, range: Interval) -> i128
    ensures { result ≡ (high +ℤ pos range.high) +ℤ neg_ℤ (pos 1) }
{
    high as i128 + range.high as i128 - 1
}

/// The bytes that an address names with a number.
fn named_by(address: u8, kind: Abs, range: Interval) -> Option<Reached>
    ensures { result ≡ definitions.named_bytes address kind (Some range) }
{
    match kind {
        Abs::Addr(region, low, high) => Some(Reached {
            base: address,
            kind,
            region,
            first: low as i128,
            last: last_named(high, range),
        }),
        Abs::None => None,
        Abs::Num(_, _) => None,
        Abs::Len(_) => None,
    }
}

/// The bytes that an address and a number name.
fn named_bytes(address: u8, kind: Abs, range: Option<Interval>) -> Option<Reached>
    ensures { result ≡ definitions.named_bytes address kind range }
{
    named_by(address, kind, range?)
}

/// The hint for bytes that a helper reads.
fn bytes_hint(state: &Abstract, bytes: Option<Reached>) -> Option<Hint>
    ensures { result ≡ definitions.bytes_hint state.now bytes }
{
    match bytes {
        Some(bytes) if bytes.region.is_stack() => stack_hint(&state.set, bytes),
        Some(bytes) => {
            let least = kinds::length_range(state, bytes.region).min;
            Some(record_hint(bytes, least))
        }
        None => None,
    }
}

/// The hint for room, which is as long as a number of these.
fn room_hint(bytes: Reached, range: Interval) -> Hint
    ensures { result ≡ definitions.room_hint bytes range }
{
    if !bytes.region.is_stack() {
        Hint::Room
    } else if range.low == 0 {
        Hint::NoRoom
    } else {
        no_bytes(bytes)
    }
}

fn room_hint_of(bytes: Option<Reached>, range: Option<Interval>) -> Option<Hint>
    ensures { result ≡ definitions.room_hint_of bytes range }
{
    Some(room_hint(bytes?, range?))
}

// ---- by reason

/// The hint that belongs to what a refusal is about.
fn hint_of(state: &Abstract, summary: Summary, reason: Reason) -> Option<Hint>
    ensures { result ≡ definitions.hint_of state.now summary reason }
{
    match reason {
        Reason::NoHelper(number) => helper_hint(number),
        Reason::NoNumber(_, _) => number_hint(summary),
        Reason::NoAddress(_, kind) => address_hint(kind),
        Reason::NoSign(_, _, _) | Reason::TooFar(_, _, _, _) => Some(Hint::Unbounded),
        Reason::ReadOnly(_) => Some(Hint::ReadOnly),
        Reason::OutsideRecord(bytes, least) => Some(record_hint(bytes, least)),
        Reason::OutsideStack(bytes) => Some(no_bytes(bytes)),
        Reason::UnsetByte(bytes, place) => unset_from(&state.set, bytes, Some(place)),
        Reason::WrongBytes(address, kind, _, count) => {
            bytes_hint(
                state,
                named_bytes(address, kind, kinds::range_of(state, count)),
            )
        }
        Reason::WrongRoom(address, kind, _, count) => {
            let range = kinds::range_of(state, count);
            room_hint_of(named_bytes(address, kind, range), range)
        }
        Reason::NoTarget(_) | Reason::Back(_) | Reason::Last | Reason::Frame | Reason::Unknown(_) =>
            None,
    }
}

fn hint_where(placed: Placed, claim: Option<&State>, reason: Option<Reason>) -> Option<Hint>
    ensures { result ≡ definitions.hint_where placed (option_copied claim.entry) reason }
{
    hint_of(
        claim?.as_abstract(),
        Summary::of(placed.instruction),
        reason?,
    )
}

/// The hint for a fault of a program with these states, which is about what is given.
pub fn hint_at(
    alloc: Global,
    graph: &Graph<'_>,
    states: &[Option<State>],
    table: Table,
    fault: VerifyFault,
    reason: Option<Reason>,
) -> Result<Option<Hint>, AllocError>
    ensures { IfOk result (λ hint. hint ≡ definitions.hint_at table graph.now states.now fault reason) }
{
    let code = graph.code();
    if fault.pc >= code.len() {
        return Ok(None);
    }
    let placed = code.get(fault.pc);
    let back = back_hint(alloc, graph, fault.pc, placed)?;
    let lost = lost_hint(graph, states, table, fault.pc, reason);
    let found = hint_where(placed, claim_at(states, fault.pc), reason);
    Ok(back.or(lost).or(found))
}
