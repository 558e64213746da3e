//! Terms: r8 gets whether a record has one, and r0 its value.

ghost use Rattle.std.specs.Prelude.{◌≡◌, ◌≤◌, ◌++◌, OnOk};
ghost use Rattle.rules.specs.Limits.{FitsText, FitsPart, FitsTerm};
ghost use Rattle.rules_compiler.specs.Code.{instructions};
ghost use Rattle.rules_compiler.specs.Terms as definitions;

use crate::loads::{layout_size, ordered, size_of};
use crate::pieces::{
    ANSWER, FRAME, NEAR, PART, TRUTH, change, copy, put_measured, put_part, set, skip_if,
};
use crate::values::{is_near, put_value_number};
use machine_spec::{Extension, Instruction, Operation, Test};
use rules::{Layout, Part, Term};
use std::alloc::AllocError;

#[tactic(auto, unfolding(crate::specs::Terms::count_code))]
fn put_count(code: &mut Vec<Instruction>, part: &Part) -> Result<(), AllocError>
    requires { FitsPart FitsText part.now }
    ensures { OnOk result (code.new.items ≡ code.old.items ++ instructions (definitions.count_code part.now)) }
{
    put_measured(code, part)?;
    code.extend_from_slice(&[
        skip_if(Test::Less, ANSWER, 2, 2),
        change(Operation::Sub, ANSWER, 2),
        set(TRUTH, 1),
    ])
}

#[tactic(auto, unfolding(crate::specs::Terms::decimal_code))]
fn put_decimal(
    code: &mut Vec<Instruction>,
    part: &Part,
    place: u32,
    count: u32,
) -> Result<(), AllocError>
    requires part { FitsPart FitsText part.now }
    requires place { place ≤ 1048576 }
    requires count { count ≤ 18 }
    ensures { OnOk result (code.new.items ≡ code.old.items ++ instructions (definitions.decimal_code part.now place count)) }
{
    put_part(code, part)?;
    code.extend_from_slice(&[
        copy(1, PART),
        set(2, place as i32),
        set(3, count as i32),
        Instruction::Call(17),
        set(TRUTH, 0),
        skip_if(Test::Less, ANSWER, 1, 2),
        change(Operation::Sub, ANSWER, 1),
        set(TRUTH, 1),
    ])
}

/// A number that every record has, which a helper answers.
#[tactic(auto, unfolding(crate::specs::Terms::answer_code))]
fn put_answer(code: &mut Vec<Instruction>, helper: i32) -> Result<(), AllocError>
    ensures { OnOk result (code.new.items ≡ code.old.items ++ instructions (definitions.answer_code helper)) }
{
    code.extend_from_slice(&[Instruction::Call(helper), set(TRUTH, 1)])
}

/// The number that bytes of a part are, which are first copied to the stack.
#[tactic(auto, unfolding(crate::specs::Terms::layout_code))]
fn put_layout(
    code: &mut Vec<Instruction>,
    layout: Layout,
    part: &Part,
    place: u32,
) -> Result<(), AllocError>
    requires part { FitsPart FitsText part.now }
    requires place { place ≤ 1048576 }
    ensures { OnOk result (code.new.items ≡ code.old.items ++ instructions (definitions.layout_code layout part.now place)) }
{
    put_part(code, part)?;
    code.extend_from_slice(&[
        copy(1, FRAME),
        change(Operation::Add, 1, i32::from(NEAR)),
        set(2, place as i32),
        set(3, layout_size(layout) as i32),
        copy(4, PART),
        Instruction::Call(14),
        set(TRUTH, 0),
        skip_if(Test::NotEqual, ANSWER, 0, 3),
        Instruction::Load(size_of(layout), Extension::Zero, ANSWER, FRAME, NEAR),
        ordered(layout),
        set(TRUTH, 1),
    ])
}

/// The number that bytes of a part are, which are read in the value where a load can name them.
#[tactic(auto, unfolding(crate::specs::Terms::part_number_code))]
fn put_layout_of(
    code: &mut Vec<Instruction>,
    layout: Layout,
    part: &Part,
    place: u32,
) -> Result<(), AllocError>
    requires part { FitsPart FitsText part.now }
    requires place { place ≤ 1048576 }
    ensures { OnOk result (code.new.items ≡ code.old.items ++ instructions (definitions.part_number_code layout part.now place)) }
{
    match part {
        Part::Value if is_near(layout, place) => put_value_number(code, layout, place),
        Part::Value | Part::Key | Part::Header(_) => put_layout(code, layout, part, place),
    }
}

/// A term.
#[tactic(auto, unfolding(crate::specs::Terms::term_code))]
pub fn put_term(code: &mut Vec<Instruction>, term: &Term) -> Result<(), AllocError>
    requires { FitsTerm FitsText term.now }
    ensures { OnOk result (code.new.items ≡ code.old.items ++ instructions (definitions.term_code term.now)) }
{
    match term {
        Term::Length(part) => put_count(code, part),
        Term::Number(layout, part, place) => put_layout_of(code, *layout, part, *place),
        Term::Decimal(part, place, count) => put_decimal(code, part, *place, *count),
        Term::Offset => put_answer(code, 7),
        Term::Timestamp => put_answer(code, 8),
        Term::Partition => put_answer(code, 9),
        Term::Headers => put_answer(code, 10),
    }
}
