//! Conditions in a line.

ghost use Rattle.wire_spec.specs.Memory.{AnswersAs};
ghost use Rattle.rules.specs.Lines.{formula_of};
ghost use Rattle.rules.specs.Nodes.{PutsAs};
ghost use Rattle.rules.specs.declared.fault.LineFault.TheVariants as faults;
ghost use Rattle.rules.specs.declared.level.Level.TheVariants as level;
ghost use Rattle.rules.specs.declared.limits.TheConstants.{MAX_STEPS as most};
ghost use Rattle.rules.specs.Reading as definitions;

use crate::condition::{Condition, Node};
use crate::fault::LineFault;
use crate::limits::MAX_STEPS;
use crate::reading::tests::test_at;
use crate::scan::{after_sign, after_word, sign_expected, skipped};
use std::alloc::Global;

/// The condition at the front, and what follows it.
pub fn condition_at(alloc: Global, text: &[u8]) -> Result<(Condition, &[u8]), LineFault>
    ensures { AnswersAs faults.Memory (λ x. (formula_of x.0, x.1.now)) result (definitions.condition_at most level.Any text.now) }
{
    let mut nodes = Vec::new(alloc);
    let rest = any_at(alloc, MAX_STEPS, &mut nodes, text)?;
    Ok((Condition { nodes }, rest))
}

/// Puts conditions with `or` between them behind nodes, read in so many steps at most; what follows them.
#[cycle(conditions)]
fn any_at<'a>(
    alloc: Global,
    steps: usize,
    nodes: &mut Vec<Node>,
    text: &'a [u8],
) -> Result<&'a [u8], LineFault>
    ensures { PutsAs nodes.old.items nodes.new.items (λ x. x.now) result (definitions.condition_at steps level.Any text.now) }
{
    if steps == 0 {
        return Err(LineFault::Deep(skipped(text).len()));
    }
    let place = nodes.len();
    let end = all_at(alloc, steps - 1, nodes, text)?;
    let Some(rest) = after_word(end, b"or") else {
        return Ok(end);
    };
    nodes.insert(place, Node::Or)?;
    any_at(alloc, steps - 1, nodes, rest)
}

/// The same of conditions with `and` between them.
#[cycle(conditions)]
fn all_at<'a>(
    alloc: Global,
    steps: usize,
    nodes: &mut Vec<Node>,
    text: &'a [u8],
) -> Result<&'a [u8], LineFault>
    ensures { PutsAs nodes.old.items nodes.new.items (λ x. x.now) result (definitions.condition_at steps level.All text.now) }
{
    if steps == 0 {
        return Err(LineFault::Deep(skipped(text).len()));
    }
    let place = nodes.len();
    let end = one_at(alloc, steps - 1, nodes, text)?;
    let Some(rest) = after_word(end, b"and") else {
        return Ok(end);
    };
    nodes.insert(place, Node::And)?;
    all_at(alloc, steps - 1, nodes, rest)
}

/// The same of one condition: `not` and what it denies, one in parentheses, or a test.
#[cycle(conditions)]
fn one_at<'a>(
    alloc: Global,
    steps: usize,
    nodes: &mut Vec<Node>,
    text: &'a [u8],
) -> Result<&'a [u8], LineFault>
    ensures { PutsAs nodes.old.items nodes.new.items (λ x. x.now) result (definitions.condition_at steps level.One text.now) }
{
    if steps == 0 {
        return Err(LineFault::Deep(skipped(text).len()));
    }
    if let Some(rest) = after_word(text, b"not") {
        nodes.push(Node::Not)?;
        return one_at(alloc, steps - 1, nodes, rest);
    }
    if let Some(rest) = after_sign(text, b"(") {
        let end = any_at(alloc, steps - 1, nodes, rest)?;
        return sign_expected(end, b")");
    }
    single_at(alloc, nodes, text)
}

/// The same of a test.
#[inline(never)]
fn single_at<'a>(
    alloc: Global,
    nodes: &mut Vec<Node>,
    text: &'a [u8],
) -> Result<&'a [u8], LineFault>
    ensures { PutsAs nodes.old.items nodes.new.items (λ x. x.now) result (definitions.single_at text.now) }
{
    let (test, rest) = test_at(alloc, text)?;
    let test = Box::new(alloc, test)?;
    nodes.push(Node::Test(test))?;
    Ok(rest)
}
