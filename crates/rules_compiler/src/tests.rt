//! Tests: r8 gets whether one holds.

ghost use Rattle.std.specs.Prelude.{◌≡◌, ◌≤◌, ◌++◌, length, OnOk, IfErr};
ghost use Rattle.rules.specs.Limits.{FitsText, FitsPart, FitsTerm, FitsTest};
ghost use Rattle.rules_compiler.specs.Code.{instructions};
ghost use Rattle.rules_compiler.specs.Faults.{IsTooLong};
ghost use Rattle.rules_compiler.specs.Tests as definitions;

use crate::blocks::put_unless;
use crate::fault::Refusal;
use crate::pieces::{
    ANSWER, FRAME, NEAR, PART, TRUTH, change, copy, put_measured, put_number, put_part, put_text,
    set, skip_if,
};
use crate::searches::put_has;
use crate::terms::put_term;
use crate::values::{
    is_at_hand, is_plain, is_short, put_value_compare, put_value_length, put_value_test,
};
use machine_spec::{Instruction, Operation, Source, Width};
use rules::{Comparison, Part, Term, Test, Text};
use std::alloc::{AllocError, Global};

/// Whether what the helper says of a part's length is a number.
#[tactic(auto, unfolding(crate::specs::Tests::length_test_code))]
fn put_length_test(code: &mut Vec<Instruction>, part: &Part, number: i32) -> Result<(), AllocError>
    requires { FitsPart FitsText part.now }
    ensures { OnOk result (code.new.items ≡ code.old.items ++ instructions (definitions.length_test_code part.now number)) }
{
    put_measured(code, part)?;
    code.extend_from_slice(&[
        skip_if(machine_spec::Test::NotEqual, ANSWER, number, 1),
        set(TRUTH, 1),
    ])
}

/// Whether a text stands at the part's begin.
fn stands(length: usize) -> [Instruction; 7]
    requires { length ≤ 255 }
    ensures { result ≡ definitions.stands length }
{
    [
        copy(1, PART),
        set(2, 0),
        copy(3, FRAME),
        change(Operation::Add, 3, i32::from(NEAR)),
        set(4, length as i32),
        Instruction::Call(16),
        copy(TRUTH, ANSWER),
    ]
}

/// Whether a part begins with a text, and what the helper says of its length passes a test. It is asked for the length
/// where the part begins so.
#[tactic(auto, unfolding(crate::specs::Tests::text_test_code))]
fn put_text_test(
    code: &mut Vec<Instruction>,
    part: &Part,
    text: &Text,
    how: machine_spec::Test,
    number: usize,
) -> Result<(), AllocError>
    requires part { FitsPart FitsText part.now }
    requires text { FitsText text.now }
    requires number { number ≤ 257 }
    ensures { OnOk result (code.new.items ≡ code.old.items ++ instructions (definitions.text_test_code part.now text.now how number)) }
{
    put_part(code, part)?;
    put_text(code, NEAR, &text.bytes)?;
    code.extend_from_slice(&stands(text.bytes.len()))?;
    code.extend_from_slice(&[
        skip_if(machine_spec::Test::Equal, TRUTH, 0, 4),
        copy(1, PART),
        Instruction::Call(13),
        skip_if(how, ANSWER, number as i32, 1),
        set(TRUTH, 0),
    ])
}

/// Whether a part is a text.
#[tactic(auto, unfolding(crate::specs::Tests::equal_code))]
fn put_equal(code: &mut Vec<Instruction>, part: &Part, text: &Text) -> Result<(), AllocError>
    requires part { FitsPart FitsText part.now }
    requires text { FitsText text.now }
    ensures { OnOk result (code.new.items ≡ code.old.items ++ instructions (definitions.equal_code part.now text.now)) }
{
    match part {
        Part::Value if is_short(text) => put_value_test(code, text, machine_spec::Test::NotEqual),
        Part::Value | Part::Key | Part::Header(_) => {
            let number = text.bytes.len() + 2;
            put_text_test(code, part, text, machine_spec::Test::Equal, number)
        }
    }
}

/// Whether a part begins with a text.
#[tactic(auto, unfolding(crate::specs::Tests::begins_code))]
fn put_begins(code: &mut Vec<Instruction>, part: &Part, text: &Text) -> Result<(), AllocError>
    requires part { FitsPart FitsText part.now }
    requires text { FitsText text.now }
    ensures { OnOk result (code.new.items ≡ code.old.items ++ instructions (definitions.begins_code part.now text.now)) }
{
    match part {
        Part::Value if is_short(text) => put_value_test(code, text, machine_spec::Test::Less),
        Part::Value | Part::Key | Part::Header(_) => {
            put_text_test(code, part, text, machine_spec::Test::GreaterOrEqual, 2)
        }
    }
}

/// The test of a jump that is taken where a comparison holds.
fn test_of(how: Comparison) -> machine_spec::Test
    ensures { result ≡ definitions.test_of how }
{
    match how {
        Comparison::Equal => machine_spec::Test::Equal,
        Comparison::NotEqual => machine_spec::Test::NotEqual,
        Comparison::Less => machine_spec::Test::Less,
        Comparison::LessOrEqual => machine_spec::Test::LessOrEqual,
        Comparison::Greater => machine_spec::Test::Greater,
        Comparison::GreaterOrEqual => machine_spec::Test::GreaterOrEqual,
    }
}

#[tactic(auto, unfolding(crate::specs::Tests::comparing_code))]
fn put_comparing(
    code: &mut Vec<Instruction>,
    how: Comparison,
    number: u64,
) -> Result<(), AllocError>
    ensures { OnOk result (code.new.items ≡ code.old.items ++ instructions (definitions.comparing_code how number)) }
{
    put_number(code, 1, number)?;
    code.extend_from_slice(&[
        Instruction::JumpIf(Width::Bits64, test_of(how), ANSWER, Source::Register(1), 1),
        set(TRUTH, 0),
    ])
}

#[tactic(auto, unfolding(crate::specs::Tests::term_compare_code))]
fn put_term_compare(
    code: &mut Vec<Instruction>,
    term: &Term,
    how: Comparison,
    number: u64,
) -> Result<(), Refusal>
    requires { FitsTerm FitsText term.now }
    ensures code { OnOk result (code.new.items ≡ code.old.items ++ instructions (definitions.term_compare_code term.now how number)) }
    ensures long { IfErr result (IsTooLong (instructions (definitions.term_compare_code term.now how number))) }
{
    put_term(code, term)?;
    let place = code.len();
    put_comparing(code, how, number)?;
    put_unless(code, place, machine_spec::Test::Equal)
}

/// Whether a term compares so with a number. The value and its length are at hand.
#[tactic(auto, unfolding(crate::specs::Tests::compare_code, crate::specs::Tests::value_length_code, crate::specs::Tests::value_compare_code, crate::specs::Tests::value_truth_code))]
fn put_compare(
    code: &mut Vec<Instruction>,
    term: &Term,
    how: Comparison,
    number: u64,
) -> Result<(), Refusal>
    requires { FitsTerm FitsText term.now }
    ensures code { OnOk result (code.new.items ≡ code.old.items ++ instructions (definitions.compare_code term.now how number)) }
    ensures long { IfErr result (IsTooLong (instructions (definitions.compare_code term.now how number))) }
{
    match term {
        Term::Length(Part::Value) if is_plain(how, number) => {
            put_value_length(code, test_of(how), number as i32)?;
            Ok(())
        }
        Term::Number(layout, Part::Value, place) if is_at_hand(*layout, *place, number) => {
            put_value_compare(code, *layout, *place, test_of(how), number as i32)?;
            Ok(())
        }
        Term::Length(_)
        | Term::Number(_, _, _)
        | Term::Decimal(_, _, _)
        | Term::Offset
        | Term::Timestamp
        | Term::Partition
        | Term::Headers => put_term_compare(code, term, how, number),
    }
}

/// A test. It is called, so that nothing of it is on the stack where conditions nest.
#[inline(never)]
#[tactic(auto, unfolding(crate::specs::Tests::test_code))]
pub fn put_test(alloc: Global, code: &mut Vec<Instruction>, test: &Test) -> Result<(), Refusal>
    requires { FitsTest FitsText test.now }
    ensures code { OnOk result (code.new.items ≡ code.old.items ++ instructions (definitions.test_code test.now)) }
    ensures long { IfErr result (IsTooLong (instructions (definitions.test_code test.now))) }
{
    match test {
        Test::Null(part) => put_length_test(code, part, 1)?,
        Test::Absent(part) => put_length_test(code, part, 0)?,
        Test::Equal(part, text) => put_equal(code, part, text)?,
        Test::Begins(part, text) => put_begins(code, part, text)?,
        Test::Has(part, text) => put_has(alloc, code, part, text)?,
        Test::Compare(term, how, number) => put_compare(code, term, *how, *number)?,
    }
    Ok(())
}
