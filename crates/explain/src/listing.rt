//! The instructions of a program, each with what is known before it.

ghost use Rattle.std.specs.Prelude.{◌≡◌, ◌<◌, ◌≤◌, ◌++◌, length, OnOk, string_bytes};
ghost use Rattle.std.specs.Option.{option_copied};
ghost use Rattle.explain.specs.Texts as definitions;
ghost use Rattle.explain.specs.Texts.{texts_below};
ghost use Rattle.explain.specs.Ways as ways;
ghost use Rattle.explain.specs.Ways.{lines_where};

use crate::shown::{Range, Shown, region_word};
use crate::way::{Selection, is_selected};
use abstract_regs::State;
use bpf_asm::push_line;
use bpf_isa::Code;
use lattice::contains_all;
use lattice::kinds::is_unknown;
use machine_spec::{Placed, Region, STACK_SIZE};
use notes::claim_at;
use std::alloc::AllocError;
use verifier_spec::{Abs, StackSet};
use wire_spec::{MAX_KEY, MAX_VALUE};

// ---- registers

/// Appends what is known of a register, if anything is.
fn push_register(text: &mut String, register: usize, kind: Abs) -> Result<(), AllocError>
    ensures { OnOk result (string_bytes text.new ≡ string_bytes text.old ++ definitions.register_text register kind) }
{
    if is_unknown(kind) {
        return Ok(());
    }
    let kind = Shown(kind);
    write!(text, "  r{register}: {kind}")
}

/// Appends the line of the registers.
#[tactic(auto, using(crate::proofs::Growing::none_yet, crate::proofs::Growing::one_more))]
fn push_registers(text: &mut String, state: &State) -> Result<(), AllocError>
    ensures { OnOk result (string_bytes text.new ≡ string_bytes text.old ++ definitions.registers_text state.now) }
{
    for register in 0..11 {
        push_register(text, register, state.kind(register))?;
    }
    text.push_str("\n")
}

// ---- lengths and the stack

/// Appends how many bytes a key or a value has, at least and at most, if that is narrower than at
/// the entry.
fn push_length(
    text: &mut String,
    region: Region,
    low: u32,
    high: u32,
    limit: u32,
) -> Result<(), AllocError>
    ensures { OnOk result (string_bytes text.new ≡ string_bytes text.old ++ definitions.length_text region low high limit) }
{
    if low == 0 && high == limit {
        return Ok(());
    }
    let name = region_word(region);
    let range = Range(u64::from(low), u64::from(high));
    write!(text, "  {name}: {range} bytes\n")
}

/// Whether a place of the stack is set and the one before it isn't.
fn begins(set: &StackSet, place: u64) -> bool
    ensures { result ≡ definitions.begins set.now place }
{
    !(place > 0 && contains_all(set, place - 1, 1))
}

/// Whether the place after one of the stack isn't set.
fn ends(set: &StackSet, place: u64) -> bool
    requires { place ≤ STACK_SIZE }
    ensures { result ≡ definitions.ends set.now place }
{
    !contains_all(set, place + 1, 1)
}

fn push_beginning(text: &mut String, set: &StackSet, place: u64) -> Result<(), AllocError>
    ensures { OnOk result (string_bytes text.new ≡ string_bytes text.old ++ definitions.beginning_text set.now place) }
{
    if begins(set, place) {
        write!(text, "  stack set: {place}")
    } else {
        Ok(())
    }
}

fn push_end(text: &mut String, set: &StackSet, place: u64) -> Result<(), AllocError>
    requires { place ≤ STACK_SIZE }
    ensures { OnOk result (string_bytes text.new ≡ string_bytes text.old ++ definitions.end_text set.now place) }
{
    if !ends(set, place) {
        Ok(())
    } else if begins(set, place) {
        text.push_str("\n")
    } else {
        write!(text, " to {place}\n")
    }
}

/// Appends what a place of the stack gives to the lines of those that are set.
fn push_place(text: &mut String, set: &StackSet, place: u64) -> Result<(), AllocError>
    requires { place ≤ STACK_SIZE }
    ensures { OnOk result (string_bytes text.new ≡ string_bytes text.old ++ definitions.place_text set.now place) }
{
    if contains_all(set, place, 1) {
        push_beginning(text, set, place)?;
        push_end(text, set, place)
    } else {
        Ok(())
    }
}

/// Appends the lines of the stack places that are set.
#[tactic(auto, using(crate::proofs::Growing::none_yet, crate::proofs::Growing::one_more))]
fn push_stack(text: &mut String, set: &StackSet) -> Result<(), AllocError>
    ensures { OnOk result (string_bytes text.new ≡ string_bytes text.old ++ definitions.stack_text set.now) }
{
    for place in 0..STACK_SIZE as u64 {
        push_place(text, set, place)?;
    }
    Ok(())
}

// ---- instructions

fn push_state(text: &mut String, state: &State) -> Result<(), AllocError>
    ensures { OnOk result (string_bytes text.new ≡ string_bytes text.old ++ definitions.state_text state.now) }
{
    let known = state.as_abstract();
    push_registers(text, state)?;
    let (key, value) = (Region::Key, Region::Value);
    push_length(text, key, known.key.min, known.key.max, MAX_KEY as u32)?;
    push_length(
        text,
        value,
        known.value.min,
        known.value.max,
        MAX_VALUE as u32,
    )?;
    push_stack(text, &known.set)
}

fn push_claim(text: &mut String, claim: Option<&State>) -> Result<(), AllocError>
    ensures { OnOk result (string_bytes text.new ≡ string_bytes text.old ++ definitions.claim_text (option_copied claim.entry)) }
{
    match claim {
        Some(state) => push_state(text, state),
        None => text.push_str("  unreached\n"),
    }
}

fn push_instruction(text: &mut String, k: usize, placed: Placed) -> Result<(), AllocError>
    ensures { OnOk result (string_bytes text.new ≡ string_bytes text.old ++ definitions.instruction_text k placed) }
{
    let slot = placed.slot;
    write!(text, "{k} slot {slot}: ")?;
    push_line(text, placed.instruction)
}

/// Appends the lines of an instruction: its number, slot and text, and what is known before it.
fn push_lines(
    text: &mut String,
    k: usize,
    placed: Placed,
    claim: Option<&State>,
) -> Result<(), AllocError>
    ensures { OnOk result (string_bytes text.new ≡ string_bytes text.old ++ definitions.lines_of k (Some placed) (option_copied claim.entry)) }
{
    push_instruction(text, k, placed)?;
    push_claim(text, claim)
}

/// Appends the lines of an instruction, if it is listed.
#[tactic(auto, using(crate::proofs::Growing::same_lines))]
fn push_selected(
    text: &mut String,
    code: &Code,
    states: &[Option<State>],
    selection: &Selection,
    k: usize,
) -> Result<(), AllocError>
    requires { k < length code.now }
    ensures { OnOk result (string_bytes text.new ≡ string_bytes text.old
        ++ lines_where (ways.is_selected states.now selection.now) code.now states.now k) }
{
    if is_selected(selection, states, k) {
        push_lines(text, k, code.get(k), claim_at(states, k))
    } else {
        Ok(())
    }
}

/// Appends the lines of those of a program's first instructions that are listed.
#[tactic(auto, using(crate::proofs::Growing::none_yet, crate::proofs::Growing::one_more))]
pub fn push_first(
    text: &mut String,
    code: &Code,
    states: &[Option<State>],
    selection: &Selection,
    count: usize,
) -> Result<(), AllocError>
    requires { count ≤ length code.now }
    ensures { OnOk result (string_bytes text.new ≡ string_bytes text.old
        ++ texts_below count (lines_where (ways.is_selected states.now selection.now) code.now states.now)) }
{
    for k in 0..count {
        push_selected(text, code, states, selection, k)?;
    }
    Ok(())
}
