//! Conditions: r8 gets whether one holds.

ghost use Rattle.std.specs.Prelude.{◌≡◌, ◌<◌, ◌≤◌, ◌++◌, length, drop, IfOk, OnOk, IfErr};
ghost use Rattle.rules.specs.Formulas.{Negated, BeginWhole, first_of, first_in, formulas_of, behind_first};
ghost use Rattle.rules.specs.Limits.{FitsText, HasFitting};
ghost use Rattle.rules.specs.Lines.{formula_of};
ghost use Rattle.rules_compiler.specs.Code.{instructions};
ghost use Rattle.rules_compiler.specs.Faults.{IsTooLong};
ghost use Rattle.rules_compiler.specs.Rules as definitions;

use crate::blocks::put_unless;
use crate::fault::Refusal;
use crate::pieces::{TRUTH, change};
use crate::tests::put_test;
use machine_spec::{Instruction, Operation, Test};
use rules::{Condition, Node};
use std::alloc::Global;

/// The condition that nodes begin with; the nodes behind it. What stands behind `and` and `or` is left out where what
/// stands before decides.
#[cycle(conditions)]
#[tactic(auto, using(crate::proofs::Lengths::single_long, crate::proofs::Lengths::memory_never), unfolding(crate::specs::Rules::condition_code))]
fn put_first<'a>(
    alloc: Global,
    code: &mut Vec<Instruction>,
    nodes: &'a [Node],
) -> Result<&'a [Node], Refusal>
    requires whole { BeginWhole nodes.now }
    requires fits { HasFitting FitsText (first_in nodes.now) }
    ensures code { OnOk result (code.new.items ≡ code.old.items ++ instructions (definitions.condition_code (first_in nodes.now))) }
    ensures rest { IfOk result (λ rest. formulas_of rest.now ≡ behind_first nodes.now) }
    ensures shorter { IfOk result (λ rest. length rest.now < length nodes.now) }
    ensures long { IfErr result (IsTooLong (instructions (definitions.condition_code (first_in nodes.now)))) }
{
    match nodes {
        [] => unreachable!(),
        [Node::Test(test), rest @ ..] => {
            put_test(alloc, code, test)?;
            Ok(rest)
        }
        [Node::Not, rest @ ..] => put_negated(alloc, code, rest),
        [Node::And, rest @ ..] => put_joined(alloc, code, Test::Equal, rest),
        [Node::Or, rest @ ..] => put_joined(alloc, code, Test::NotEqual, rest),
    }
}

/// What `not` makes of that condition. It is called, as `put_joined` is, so that each level takes little of the stack.
#[inline(never)]
#[cycle(conditions)]
#[tactic(auto, using(crate::proofs::Lengths::negated_long, crate::proofs::Lengths::memory_never), unfolding(crate::specs::Rules::condition_code))]
fn put_negated<'a>(
    alloc: Global,
    code: &mut Vec<Instruction>,
    nodes: &'a [Node],
) -> Result<&'a [Node], Refusal>
    requires whole { BeginWhole nodes.now }
    requires fits { HasFitting FitsText (first_in nodes.now) }
    ensures code { OnOk result (code.new.items ≡ code.old.items ++ instructions (definitions.condition_code (Negated (first_in nodes.now)))) }
    ensures rest { IfOk result (λ rest. formulas_of rest.now ≡ behind_first nodes.now) }
    ensures shorter { IfOk result (λ rest. length rest.now < length nodes.now) }
    ensures long { IfErr result (IsTooLong (instructions (definitions.condition_code (Negated (first_in nodes.now))))) }
{
    let rest = put_first(alloc, code, nodes)?;
    code.push(change(Operation::Xor, TRUTH, 1))?;
    Ok(rest)
}

/// The two conditions that nodes begin with. The second one is left out where the first one passes a test against 0.
#[inline(never)]
#[cycle(conditions)]
#[tactic(auto, using(crate::proofs::Lengths::first_long, crate::proofs::Lengths::next_long, crate::proofs::Lengths::block_long, crate::proofs::Lengths::memory_never))]
fn put_joined<'a>(
    alloc: Global,
    code: &mut Vec<Instruction>,
    test: Test,
    nodes: &'a [Node],
) -> Result<&'a [Node], Refusal>
    requires whole { 2 ≤ length (formulas_of nodes.now) }
    requires first { HasFitting FitsText (first_in nodes.now) }
    requires second { HasFitting FitsText (first_of (behind_first nodes.now)) }
    ensures code { OnOk result (code.new.items ≡ code.old.items ++ instructions (definitions.joined_code test (definitions.condition_code (first_in nodes.now)) (definitions.condition_code (first_of (behind_first nodes.now))))) }
    ensures rest { IfOk result (λ rest. formulas_of rest.now ≡ drop 1 (behind_first nodes.now)) }
    ensures shorter { IfOk result (λ rest. length rest.now < length nodes.now) }
    ensures long { IfErr result (IsTooLong (instructions (definitions.joined_code test (definitions.condition_code (first_in nodes.now)) (definitions.condition_code (first_of (behind_first nodes.now)))))) }
{
    let next = put_first(alloc, code, nodes)?;
    let place = code.len();
    let rest = put_first(alloc, code, next)?;
    put_unless(code, place, test)?;
    Ok(rest)
}

/// A condition.
pub fn put_condition(
    alloc: Global,
    code: &mut Vec<Instruction>,
    condition: &Condition,
) -> Result<(), Refusal>
    requires { HasFitting FitsText (formula_of condition.now) }
    ensures code { OnOk result (code.new.items ≡ code.old.items ++ instructions (definitions.condition_code (formula_of condition.now))) }
    ensures long { IfErr result (IsTooLong (instructions (definitions.condition_code (formula_of condition.now)))) }
{
    put_first(alloc, code, &condition.nodes)?;
    Ok(())
}
