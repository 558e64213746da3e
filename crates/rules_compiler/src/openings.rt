//! The first rule. No helper is called before it, so that the key is read in itself where the rule asks it alone for a
//! short text.

ghost use Rattle.std.specs.Prelude.{◌≡◌, ◌++◌, OnOk, IfErr};
ghost use Rattle.rules.specs.Formulas.{BeginWhole, first_in};
ghost use Rattle.rules.specs.Limits.{FitsText, FitsTest, HasFitting, FitsLine};
ghost use Rattle.rules.specs.Lines.{formula_of, line_of};
ghost use Rattle.rules_compiler.specs.Code.{instructions};
ghost use Rattle.rules_compiler.specs.Faults.{IsTooLong};
ghost use Rattle.rules_compiler.specs.Rules as definitions;

use crate::actions::put_action;
use crate::blocks::put_unless;
use crate::conditions::put_condition;
use crate::fault::Refusal;
use crate::pieces::{KEY, KEY_LENGTH, LENGTH, TRUTH, VALUE, change, copy};
use crate::values::{is_short, put_match_test};
use machine_spec::{Instruction, Operation};
use rules::{Condition, Node, Part, Rule, Test};
use std::alloc::{AllocError, Global};

fn is_key(part: &Part) -> bool
    ensures { result ≡ definitions.is_key part.now }
{
    match part {
        Part::Key => true,
        Part::Value | Part::Header(_) => false,
    }
}

fn asks_key(test: &Test) -> bool
    ensures { result ≡ definitions.asks_key test.now }
{
    match test {
        Test::Equal(part, text) | Test::Begins(part, text) => is_key(part) && is_short(text),
        Test::Null(_) | Test::Absent(_) | Test::Has(_, _) | Test::Compare(_, _, _) => false,
    }
}

/// Whether a condition asks the key alone for a short text, or denies what does.
fn asks_alone(condition: &Condition) -> bool
    ensures { result ≡ definitions.asks_alone (formula_of condition.now) }
{
    match condition.nodes.as_slice() {
        [Node::Test(test), ..] | [Node::Not, Node::Test(test), ..] => asks_key(test),
        _ => false,
    }
}

#[tactic(auto, unfolding(crate::specs::Rules::key_test_code))]
fn put_key_test(code: &mut Vec<Instruction>, test: &Test) -> Result<(), AllocError>
    requires { FitsTest FitsText test.now }
    ensures { OnOk result (code.new.items ≡ code.old.items ++ instructions (definitions.key_test_code test.now)) }
{
    match test {
        Test::Equal(_, text) => {
            put_match_test(code, KEY, KEY_LENGTH, text, machine_spec::Test::NotEqual)
        }
        Test::Begins(_, text) => {
            put_match_test(code, KEY, KEY_LENGTH, text, machine_spec::Test::Less)
        }
        Test::Null(_) | Test::Absent(_) | Test::Has(_, _) | Test::Compare(_, _, _) => Ok(()),
    }
}

/// The condition that nodes begin with.
#[tactic(auto, unfolding(crate::specs::Rules::key_single_code))]
fn put_key_single(code: &mut Vec<Instruction>, nodes: &[Node]) -> Result<(), AllocError>
    requires whole { BeginWhole nodes.now }
    requires fits { HasFitting FitsText (first_in nodes.now) }
    ensures { OnOk result (code.new.items ≡ code.old.items ++ instructions (definitions.key_single_code (first_in nodes.now))) }
{
    match nodes {
        [Node::Test(test), ..] => put_key_test(code, test),
        _ => Ok(()),
    }
}

#[tactic(auto, unfolding(crate::specs::Rules::key_condition_code))]
fn put_key_condition(code: &mut Vec<Instruction>, condition: &Condition) -> Result<(), AllocError>
    requires { HasFitting FitsText (formula_of condition.now) }
    ensures { OnOk result (code.new.items ≡ code.old.items ++ instructions (definitions.key_condition_code (formula_of condition.now))) }
{
    match condition.nodes.as_slice() {
        [Node::Not, inner @ ..] => {
            put_key_single(code, inner)?;
            code.extend_from_slice(&[change(Operation::Xor, TRUTH, 1)])
        }
        nodes => put_key_single(code, nodes),
    }
}

/// The length and the address of the value are kept throughout.
pub fn put_first(code: &mut Vec<Instruction>) -> Result<(), AllocError>
    ensures { OnOk result (code.new.items ≡ code.old.items ++ instructions definitions.first_code) }
{
    code.extend_from_slice(&[copy(LENGTH, 2), copy(VALUE, 1)])
}

/// A rule: the action is left out where the condition does not hold.
#[tactic(auto, unfolding(crate::specs::Rules::line_code))]
pub fn put_rule(alloc: Global, code: &mut Vec<Instruction>, rule: &Rule) -> Result<(), Refusal>
    requires { FitsLine FitsText (line_of rule.now) }
    ensures code { OnOk result (code.new.items ≡ code.old.items ++ instructions (definitions.line_code (line_of rule.now))) }
    ensures long { IfErr result (IsTooLong (instructions (definitions.line_code (line_of rule.now)))) }
{
    match &rule.condition {
        Some(condition) => {
            put_condition(alloc, code, condition)?;
            let place = code.len();
            put_action(code, &rule.action)?;
            put_unless(code, place, machine_spec::Test::Equal)
        }
        None => {
            put_action(code, &rule.action)?;
            Ok(())
        }
    }
}

/// The first rule.
#[tactic(auto, using(crate::proofs::Lengths::memory_never, crate::proofs::Lengths::next_long), unfolding(crate::specs::Rules::opening_code, crate::specs::Rules::key_line_code))]
pub fn put_opening(alloc: Global, code: &mut Vec<Instruction>, rule: &Rule) -> Result<(), Refusal>
    requires { FitsLine FitsText (line_of rule.now) }
    ensures code { OnOk result (code.new.items ≡ code.old.items ++ instructions (definitions.opening_code (line_of rule.now))) }
    ensures long { IfErr result (IsTooLong (instructions (definitions.opening_code (line_of rule.now)))) }
{
    match &rule.condition {
        Some(condition) if asks_alone(condition) => {
            put_key_condition(code, condition)?;
            put_first(code)?;
            let place = code.len();
            put_action(code, &rule.action)?;
            put_unless(code, place, machine_spec::Test::Equal)
        }
        Some(_) | None => {
            put_first(code)?;
            put_rule(alloc, code, rule)
        }
    }
}
