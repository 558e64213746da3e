//! Actions: each ends the run.

ghost use Rattle.std.specs.Prelude.{◌≡◌, ◌≤◌, ◌++◌, OnOk};
ghost use Rattle.rules.specs.Limits.{FitsText, FitsPart, FitsCut, FitsOutput, FitsAdded, FitsAction};
ghost use Rattle.rules_compiler.specs.Code.{instructions};
ghost use Rattle.rules_compiler.specs.Actions as definitions;

use crate::pieces::{
    ANSWER, FAR, FRAME, NEAR, PART, change, copy, put_number, put_part, put_text, set, skip_if,
};
use machine_spec::{Instruction, Operation, Test};
use rules::{Action, AddedHeader, Cut, Output, Part, Text};
use std::alloc::AllocError;

#[tactic(auto, unfolding(crate::specs::Actions::drop_code))]
fn put_drop(code: &mut Vec<Instruction>, number: u64) -> Result<(), AllocError>
    ensures { OnOk result (code.new.items ≡ code.old.items ++ instructions (definitions.drop_code number)) }
{
    put_number(code, ANSWER, number)?;
    code.extend_from_slice(&[Instruction::Exit])
}

#[tactic(auto, unfolding(crate::specs::Actions::plain_code))]
fn put_plain(code: &mut Vec<Instruction>, out: u32, helper: i32) -> Result<(), AllocError>
    requires { out ≤ 63 }
    ensures { OnOk result (code.new.items ≡ code.old.items ++ instructions (definitions.plain_code out helper)) }
{
    code.extend_from_slice(&[
        set(1, out as i32),
        Instruction::Call(helper),
        Instruction::Exit,
    ])
}

#[tactic(auto, unfolding(crate::specs::Actions::hashed_code))]
fn put_hashed(code: &mut Vec<Instruction>, part: &Part, count: u32) -> Result<(), AllocError>
    requires part { FitsPart FitsText part.now }
    requires count { count ≤ 64 }
    ensures { OnOk result (code.new.items ≡ code.old.items ++ instructions (definitions.hashed_code part.now count)) }
{
    put_part(code, part)?;
    code.extend_from_slice(&[
        copy(1, PART),
        Instruction::Call(18),
        change(Operation::Mod, ANSWER, count as i32),
        copy(1, ANSWER),
        Instruction::Call(3),
        Instruction::Exit,
    ])
}

/// Bytes of a part from one place on and before another one.
#[tactic(auto, unfolding(crate::specs::Actions::part_cut_code))]
fn put_part_cut(
    code: &mut Vec<Instruction>,
    out: u32,
    part: &Part,
    from: u32,
    to: u32,
) -> Result<(), AllocError>
    requires part { FitsPart FitsText part.now }
    requires out { out ≤ 63 }
    requires order { from ≤ to }
    requires to { to ≤ 1048576 }
    ensures { OnOk result (code.new.items ≡ code.old.items ++ instructions (definitions.part_cut_code out part.now from to)) }
{
    put_part(code, part)?;
    code.extend_from_slice(&[
        set(4, (to - from) as i32),
        set(1, out as i32),
        copy(2, PART),
        set(3, from as i32),
        Instruction::Call(20),
        Instruction::Exit,
    ])
}

/// Bytes of a part from one place on, up to its end.
#[tactic(auto, unfolding(crate::specs::Actions::rest_cut_code))]
fn put_rest_cut(
    code: &mut Vec<Instruction>,
    out: u32,
    part: &Part,
    from: u32,
) -> Result<(), AllocError>
    requires part { FitsPart FitsText part.now }
    requires out { out ≤ 63 }
    requires from { from ≤ 1048576 }
    ensures { OnOk result (code.new.items ≡ code.old.items ++ instructions (definitions.rest_cut_code out part.now from)) }
{
    put_part(code, part)?;
    code.extend_from_slice(&[
        copy(1, PART),
        Instruction::Call(13),
        skip_if(Test::GreaterOrEqual, ANSWER, 2, 1),
        set(ANSWER, 2),
        copy(4, ANSWER),
        change(Operation::Sub, 4, (from + 2) as i32),
        set(1, out as i32),
        copy(2, PART),
        set(3, from as i32),
        Instruction::Call(20),
        Instruction::Exit,
    ])
}

fn put_cut(code: &mut Vec<Instruction>, out: u32, part: &Part, cut: Cut) -> Result<(), AllocError>
    requires part { FitsPart FitsText part.now }
    requires out { out ≤ 63 }
    requires cut { FitsCut cut }
    ensures { OnOk result (code.new.items ≡ code.old.items ++ instructions (definitions.cut_code out part.now cut.from cut.to)) }
{
    match cut.to {
        Some(to) => put_part_cut(code, out, part, cut.from, to),
        None => put_rest_cut(code, out, part, cut.from),
    }
}

/// The value with a text in place of some of its bytes.
#[tactic(auto, unfolding(crate::specs::Actions::changed_code))]
fn put_changed(
    code: &mut Vec<Instruction>,
    out: u32,
    from: u32,
    to: u32,
    text: &Text,
) -> Result<(), AllocError>
    requires out { out ≤ 63 }
    requires order { from ≤ to }
    requires to { to ≤ 1048576 }
    requires text { FitsText text.now }
    ensures { OnOk result (code.new.items ≡ code.old.items ++ instructions (definitions.changed_code out from to text.now)) }
{
    put_text(code, NEAR, &text.bytes)?;
    code.extend_from_slice(&[
        set(1, out as i32),
        set(2, from as i32),
        set(3, (to - from) as i32),
        copy(4, FRAME),
        change(Operation::Add, 4, i32::from(NEAR)),
        set(5, text.bytes.len() as i32),
        Instruction::Call(21),
        Instruction::Exit,
    ])
}

#[tactic(auto, unfolding(crate::specs::Actions::output_code))]
fn put_output(code: &mut Vec<Instruction>, output: &Output) -> Result<(), AllocError>
    requires { FitsOutput FitsText output.now }
    ensures { OnOk result (code.new.items ≡ code.old.items ++ instructions (definitions.output_code output.now)) }
{
    match output {
        Output::Record(out) => put_plain(code, *out, 3),
        Output::Hashed(part, count) => put_hashed(code, part, *count),
        Output::Cut(out, part, cut) => put_cut(code, *out, part, *cut),
        Output::Changed(out, from, to, text) => put_changed(code, *out, *from, *to, text),
    }
}

/// A header that is added to what is output behind this; where it is not, the run ends with the code of that.
#[tactic(auto, unfolding(crate::specs::Actions::added_code))]
fn put_added(code: &mut Vec<Instruction>, added: &AddedHeader) -> Result<(), AllocError>
    requires key { FitsText added.now.key }
    requires value { FitsText added.now.value }
    ensures { OnOk result (code.new.items ≡ code.old.items ++ instructions (definitions.added_code added.now.key added.now.value)) }
{
    put_text(code, FAR, &added.key.bytes)?;
    put_text(code, NEAR, &added.value.bytes)?;
    code.extend_from_slice(&[
        copy(1, FRAME),
        change(Operation::Add, 1, i32::from(FAR)),
        set(2, added.key.bytes.len() as i32),
        copy(3, FRAME),
        change(Operation::Add, 3, i32::from(NEAR)),
        set(4, added.value.bytes.len() as i32),
        Instruction::Call(22),
        skip_if(Test::Equal, ANSWER, 0, 1),
        Instruction::Exit,
    ])
}

/// An action.
#[tactic(auto, unfolding(crate::specs::Actions::action_code))]
pub fn put_action(code: &mut Vec<Instruction>, action: &Action) -> Result<(), AllocError>
    requires { FitsAction FitsText action.now }
    ensures { OnOk result (code.new.items ≡ code.old.items ++ instructions (definitions.action_code action.now)) }
{
    match action {
        Action::Drop(number) => put_drop(code, *number),
        Action::Tombstone(out) => put_plain(code, *out, 6),
        Action::Output(output, None) => put_output(code, output),
        Action::Output(output, Some(added)) => {
            put_added(code, added)?;
            put_output(code, output)
        }
    }
}
