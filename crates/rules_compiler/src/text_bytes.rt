//! That texts of rules are bytes. A type says so of the bytes that are at hand, so they are taken in turn; nothing is
//! done with them, and a compiler leaves the walk out.

ghost use Rattle.std.specs.Prelude.{◌≡◌, ℕ, ◌<◌, length, slice_index, option_map};
ghost use Rattle.std.specs.List.{AllByRecursion};
ghost use Rattle.rules.specs.Formulas.{BeginWhole, first_in, formulas_of, behind_first};
ghost use Rattle.rules.specs.Limits.{FitsText, IsText, FitsPart, FitsTerm, FitsTest, HasFitting, FitsOutput, FitsAdded, FitsAction, FitsWhen, FitsLine};
ghost use Rattle.rules.specs.Lines.{formula_of, line_of, lines_of};

use rules::{Action, AddedHeader, Condition, Node, Output, Part, Rule, Term, Test, Text};

#[inline(always)]
fn are_bytes(bytes: &[u8])
    ensures { (at : ℕ) → slice_index bytes.now at < 256 }
{}

#[inline(always)]
#[tactic(auto, using(crate::proofs::Loops::text_from))]
fn is_text(text: &Text)
    requires { FitsText text.now }
    ensures { IsText text.now }
{
    are_bytes(&text.bytes);
}

fn has_text(part: &Part)
    requires { FitsPart FitsText part.now }
    ensures { FitsPart IsText part.now }
{
    match part {
        Part::Value | Part::Key => {}
        Part::Header(key) => is_text(key),
    }
}

fn term_has_texts(term: &Term)
    requires { FitsTerm FitsText term.now }
    ensures { FitsTerm IsText term.now }
{
    match term {
        Term::Length(part) | Term::Number(_, part, _) | Term::Decimal(part, _, _) => has_text(part),
        Term::Offset | Term::Timestamp | Term::Partition | Term::Headers => {}
    }
}

fn test_has_texts(test: &Test)
    requires { FitsTest FitsText test.now }
    ensures { FitsTest IsText test.now }
{
    match test {
        Test::Null(part) | Test::Absent(part) => has_text(part),
        Test::Equal(part, text) | Test::Begins(part, text) | Test::Has(part, text) => {
            has_text(part);
            is_text(text);
        }
        Test::Compare(term, _, _) => term_has_texts(term),
    }
}

/// The texts of the condition that nodes begin with are bytes; the nodes behind it.
fn first_has_texts<'a>(nodes: &'a [Node]) -> &'a [Node]
    requires whole { BeginWhole nodes.now }
    requires fits { HasFitting FitsText (first_in nodes.now) }
    ensures texts { HasFitting IsText (first_in nodes.now) }
    ensures rest { formulas_of result.now ≡ behind_first nodes.now }
    ensures shorter { length result.now < length nodes.now }
{
    match nodes {
        [] => unreachable!(),
        [Node::Test(test), rest @ ..] => {
            test_has_texts(test);
            rest
        }
        [Node::Not, rest @ ..] => first_has_texts(rest),
        [Node::And | Node::Or, rest @ ..] => {
            let next = first_has_texts(rest);
            first_has_texts(next)
        }
    }
}

fn condition_has_texts(condition: &Condition)
    requires { HasFitting FitsText (formula_of condition.now) }
    ensures { HasFitting IsText (formula_of condition.now) }
{
    let _ = first_has_texts(&condition.nodes);
}

fn when_has_texts(condition: &Option<Condition>)
    requires { FitsWhen FitsText (option_map formula_of condition.now) }
    ensures { FitsWhen IsText (option_map formula_of condition.now) }
{
    match condition {
        Some(condition) => condition_has_texts(condition),
        None => {}
    }
}

fn output_has_texts(output: &Output)
    requires { FitsOutput FitsText output.now }
    ensures { FitsOutput IsText output.now }
{
    match output {
        Output::Record(_) => {}
        Output::Hashed(part, _) | Output::Cut(_, part, _) => has_text(part),
        Output::Changed(_, _, _, text) => is_text(text),
    }
}

fn added_has_texts(added: &Option<AddedHeader>)
    requires { FitsAdded FitsText added.now }
    ensures { FitsAdded IsText added.now }
{
    match added {
        Some(header) => {
            is_text(&header.key);
            is_text(&header.value);
        }
        None => {}
    }
}

fn action_has_texts(action: &Action)
    requires { FitsAction FitsText action.now }
    ensures { FitsAction IsText action.now }
{
    match action {
        Action::Drop(_) | Action::Tombstone(_) => {}
        Action::Output(output, added) => {
            output_has_texts(output);
            added_has_texts(added);
        }
    }
}

/// The texts of a rule are bytes.
fn rule_has_texts(rule: &Rule)
    requires { FitsLine FitsText (line_of rule.now) }
    ensures { FitsLine IsText (line_of rule.now) }
{
    action_has_texts(&rule.action);
    when_has_texts(&rule.condition);
}

/// The texts of rules are bytes.
pub fn rules_have_texts(rules: &[Rule])
    requires { AllByRecursion (FitsLine FitsText) (lines_of rules.now) }
    ensures { AllByRecursion (FitsLine IsText) (lines_of rules.now) }
{
    for k in 0..rules.len() {
        rule_has_texts(&rules[k]);
    }
}
