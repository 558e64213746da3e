//! Actions as they are printed.

ghost use Rattle.std.specs.Prelude.{◌≡◌, ◌++◌, OnOk, decimal};
ghost use Rattle.rules.specs.Writing as definitions;

use crate::rule::{Action, AddedHeader, Cut, Output, Part, Text};
use crate::writing::pieces::{push_argument, push_number, push_part, push_text};
use std::alloc::{AllocError, Global};

/// Words, and a number after them.
fn push_named(alloc: Global, out: &mut Vec<u8>, words: &[u8], number: u64) -> Result<(), AllocError>
    ensures { OnOk result (out.new.items ≡ out.old.items ++ (words.now ++ decimal number)) }
{
    out.extend_from_slice(words)?;
    push_number(alloc, out, number)
}

/// Words, and a number of 32 bits after them.
fn push_small(alloc: Global, out: &mut Vec<u8>, words: &[u8], number: u32) -> Result<(), AllocError>
    ensures { OnOk result (out.new.items ≡ out.old.items ++ (words.now ++ decimal number)) }
{
    push_named(alloc, out, words, u64::from(number))
}

fn push_from(alloc: Global, out: &mut Vec<u8>, from: u32) -> Result<(), AllocError>
    ensures { OnOk result (out.new.items ≡ out.old.items ++ definitions.from_text from) }
{
    push_small(alloc, out, b"[", from)?;
    out.extend_from_slice(b"..")
}

fn push_to(alloc: Global, out: &mut Vec<u8>, to: Option<u32>) -> Result<(), AllocError>
    ensures { OnOk result (out.new.items ≡ out.old.items ++ definitions.to_text to) }
{
    match to {
        Some(to) => {
            push_number(alloc, out, u64::from(to))?;
            out.extend_from_slice(b"]")
        }
        None => out.extend_from_slice(b"]"),
    }
}

fn push_hashed(alloc: Global, out: &mut Vec<u8>, part: &Part, count: u32) -> Result<(), AllocError>
    ensures { OnOk result (out.new.items ≡ out.old.items ++ definitions.hashed_text part.now count) }
{
    out.extend_from_slice(b"output hash")?;
    push_argument(out, part)?;
    push_small(alloc, out, b") % ", count)
}

fn push_cut(
    alloc: Global,
    out: &mut Vec<u8>,
    number: u32,
    part: &Part,
    cut: &Cut,
) -> Result<(), AllocError>
    ensures { OnOk result (out.new.items ≡ out.old.items ++ definitions.cut_text number part.now cut.now) }
{
    push_small(alloc, out, b"output ", number)?;
    out.extend_from_slice(b" ")?;
    push_part(out, part)?;
    push_from(alloc, out, cut.from)?;
    push_to(alloc, out, cut.to)
}

fn push_changed(
    alloc: Global,
    out: &mut Vec<u8>,
    number: u32,
    cut: (u32, u32),
    text: &Text,
) -> Result<(), AllocError>
    ensures { OnOk result (out.new.items ≡ out.old.items ++ definitions.changed_text number cut.0 cut.1 text.now) }
{
    push_small(alloc, out, b"output ", number)?;
    out.extend_from_slice(b" with value")?;
    push_from(alloc, out, cut.0)?;
    push_to(alloc, out, Some(cut.1))?;
    out.extend_from_slice(b" = ")?;
    push_text(out, text)?;
    Ok(())
}

#[tactic(auto, unfolding(crate::specs::Writing::output_text))]
fn push_output(alloc: Global, out: &mut Vec<u8>, output: &Output) -> Result<(), AllocError>
    ensures { OnOk result (out.new.items ≡ out.old.items ++ definitions.output_text output.now) }
{
    match output {
        Output::Record(number) => push_small(alloc, out, b"output ", *number),
        Output::Hashed(part, count) => push_hashed(alloc, out, part, *count),
        Output::Cut(number, part, cut) => push_cut(alloc, out, *number, part, cut),
        Output::Changed(number, from, to, text) => {
            push_changed(alloc, out, *number, (*from, *to), text)
        }
    }
}

fn push_header(out: &mut Vec<u8>, header: &AddedHeader) -> Result<(), AllocError>
    ensures { OnOk result (out.new.items ≡ out.old.items ++ definitions.header_text header.now) }
{
    out.extend_from_slice(b" and header ")?;
    push_text(out, &header.key)?;
    out.extend_from_slice(b" = ")?;
    push_text(out, &header.value)?;
    Ok(())
}

fn push_added(out: &mut Vec<u8>, added: &Option<AddedHeader>) -> Result<(), AllocError>
    ensures { OnOk result (out.new.items ≡ out.old.items ++ definitions.added_text added.now) }
{
    match added {
        Some(header) => push_header(out, header),
        None => Ok(()),
    }
}

/// An action.
#[tactic(auto, unfolding(crate::specs::Writing::action_text))]
pub fn push_action(alloc: Global, out: &mut Vec<u8>, action: &Action) -> Result<(), AllocError>
    ensures { OnOk result (out.new.items ≡ out.old.items ++ definitions.action_text action.now) }
{
    match action {
        Action::Drop(code) => push_named(alloc, out, b"drop ", *code),
        Action::Tombstone(number) => push_small(alloc, out, b"tombstone ", *number),
        Action::Output(output, added) => {
            push_output(alloc, out, output)?;
            push_added(out, added)
        }
    }
}
