//! Tests and conditions as they are printed.

ghost use Rattle.std.specs.Prelude.{◌≡◌, ◌<◌, ◌++◌, length, OnOk, IfOk};
ghost use Rattle.rules.specs.declared.level.Level.TheVariants as level;
ghost use Rattle.rules.specs.Formulas.{BeginWhole, first_in, formulas_of, behind_first};
ghost use Rattle.rules.specs.Lines.{formula_of};
ghost use Rattle.rules.specs.Writing as definitions;

use crate::condition::{Condition, Node};
use crate::level::Level;
use crate::rule::{Comparison, Part, Term, Test, Text};
use crate::writing::pieces::{push_number, push_part, push_text};
use crate::writing::terms::push_term;
use std::alloc::{AllocError, Global};

fn comparison_text(how: Comparison) -> &'static [u8]
    ensures { result.now ≡ definitions.comparison_text how }
{
    match how {
        Comparison::Equal => b" = ",
        Comparison::NotEqual => b" != ",
        Comparison::Less => b" < ",
        Comparison::LessOrEqual => b" <= ",
        Comparison::Greater => b" > ",
        Comparison::GreaterOrEqual => b" >= ",
    }
}

/// A part and words after it.
fn push_asked(out: &mut Vec<u8>, part: &Part, words: &[u8]) -> Result<(), AllocError>
    ensures { OnOk result (out.new.items ≡ out.old.items ++ (definitions.part_text part.now ++ words.now)) }
{
    push_part(out, part)?;
    out.extend_from_slice(words)
}

/// A part, words after it, and a text.
fn push_text_asked(
    out: &mut Vec<u8>,
    part: &Part,
    words: &[u8],
    text: &Text,
) -> Result<(), AllocError>
    ensures { OnOk result (out.new.items ≡ out.old.items ++ (definitions.part_text part.now ++ (words.now ++ definitions.quoted_text text.now))) }
{
    push_part(out, part)?;
    out.extend_from_slice(words)?;
    push_text(out, text)
}

fn push_comparing(
    alloc: Global,
    out: &mut Vec<u8>,
    term: &Term,
    how: Comparison,
    number: u64,
) -> Result<(), AllocError>
    ensures { OnOk result (out.new.items ≡ out.old.items ++ definitions.comparing_text term.now how number) }
{
    push_term(alloc, out, term)?;
    out.extend_from_slice(comparison_text(how))?;
    push_number(alloc, out, number)
}

#[tactic(auto, unfolding(crate::specs::Writing::test_text))]
fn push_test(alloc: Global, out: &mut Vec<u8>, test: &Test) -> Result<(), AllocError>
    ensures { OnOk result (out.new.items ≡ out.old.items ++ definitions.test_text test.now) }
{
    match test {
        Test::Null(part) => push_asked(out, part, b" is null"),
        Test::Absent(part) => push_asked(out, part, b" is absent"),
        Test::Equal(part, text) => push_text_asked(out, part, b" = ", text),
        Test::Begins(part, text) => push_text_asked(out, part, b" begins ", text),
        Test::Has(part, text) => push_text_asked(out, part, b" has ", text),
        Test::Compare(term, how, number) => push_comparing(alloc, out, term, *how, *number),
    }
}

fn encloses_or(level: Level) -> bool
    ensures { result ≡ definitions.encloses_or level }
{
    match level {
        Level::Any => false,
        Level::All | Level::One => true,
    }
}

fn encloses_and(level: Level) -> bool
    ensures { result ≡ definitions.encloses_and level }
{
    match level {
        Level::Any | Level::All => false,
        Level::One => true,
    }
}

fn push_open(out: &mut Vec<u8>, encloses: bool) -> Result<(), AllocError>
    ensures { OnOk result (out.new.items ≡ out.old.items ++ definitions.open_text encloses) }
{
    if encloses {
        out.extend_from_slice(b"(")
    } else {
        Ok(())
    }
}

fn push_close(out: &mut Vec<u8>, encloses: bool) -> Result<(), AllocError>
    ensures { OnOk result (out.new.items ≡ out.old.items ++ definitions.close_text encloses) }
{
    if encloses {
        out.extend_from_slice(b")")
    } else {
        Ok(())
    }
}

/// The condition that nodes begin with, in parentheses where it needs some at this level; the nodes behind it.
#[tactic(auto, unfolding(crate::specs::Writing::condition_text))]
fn push_first<'a>(
    alloc: Global,
    out: &mut Vec<u8>,
    level: Level,
    nodes: &'a [Node],
) -> Result<&'a [Node], AllocError>
    requires { BeginWhole nodes.now }
    ensures text { OnOk result (out.new.items ≡ out.old.items ++ definitions.condition_text level (first_in nodes.now)) }
    ensures rest { IfOk result (λ rest. formulas_of rest.now ≡ behind_first nodes.now) }
    ensures shorter { IfOk result (λ rest. length rest.now < length nodes.now) }
{
    match nodes {
        [] => unreachable!(),
        [Node::Test(test), rest @ ..] => {
            push_test(alloc, out, test)?;
            Ok(rest)
        }
        [Node::Not, rest @ ..] => {
            out.extend_from_slice(b"not ")?;
            push_first(alloc, out, Level::One, rest)
        }
        [Node::And, rest @ ..] => {
            push_open(out, encloses_and(level))?;
            let next = push_first(alloc, out, Level::One, rest)?;
            out.extend_from_slice(b" and ")?;
            let rest = push_first(alloc, out, Level::All, next)?;
            push_close(out, encloses_and(level))?;
            Ok(rest)
        }
        [Node::Or, rest @ ..] => {
            push_open(out, encloses_or(level))?;
            let next = push_first(alloc, out, Level::All, rest)?;
            out.extend_from_slice(b" or ")?;
            let rest = push_first(alloc, out, Level::Any, next)?;
            push_close(out, encloses_or(level))?;
            Ok(rest)
        }
    }
}

/// A condition, as it stands behind `when`.
pub fn push_condition(
    alloc: Global,
    out: &mut Vec<u8>,
    condition: &Condition,
) -> Result<(), AllocError>
    ensures { OnOk result (out.new.items ≡ out.old.items ++ definitions.condition_text level.Any (formula_of condition.now)) }
{
    push_first(alloc, out, Level::Any, &condition.nodes)?;
    Ok(())
}
