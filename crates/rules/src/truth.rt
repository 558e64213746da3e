//! Which conditions hold of a record, and which rule takes it.

ghost use Rattle.std.specs.Prelude.{◌≡◌, ◌<◌, length, nat_eq, option_map};
ghost use Rattle.rules.specs.Formulas.{BeginWhole, first_in, formulas_of, behind_first};
ghost use Rattle.rules.specs.Lines.{formula_of, line_of, lines_of};
ghost use Rattle.rules.specs.Meaning as definitions;

use crate::condition::{Condition, Node};
use crate::parts::{is_absent, is_null, part_bytes};
use crate::rule::{Comparison, Part, Rule, Test, Text};
use crate::terms::term_value;
use kafka_record::RecordRef;
use machine_spec::Place;

/// How many bytes of a part `has` looks at.
const LOOKED_AT: usize = 65_536;

fn compares(how: Comparison, one: u64, other: u64) -> bool
    ensures { result ≡ definitions.compares how one other }
{
    match how {
        Comparison::Equal => one == other,
        Comparison::NotEqual => one != other,
        Comparison::Less => one < other,
        Comparison::LessOrEqual => one <= other,
        Comparison::Greater => one > other,
        Comparison::GreaterOrEqual => one >= other,
    }
}

/// The same of a number that may not be there: then the test is false.
fn compares_if(how: Comparison, one: Option<u64>, other: u64) -> bool
    ensures { result ≡ definitions.compares_if how one other }
{
    match one {
        Some(one) => compares(how, one, other),
        None => false,
    }
}

/// Whether a text stands somewhere in bytes.
fn occurs(text: &[u8], bytes: &[u8]) -> bool
    ensures { result ≡ definitions.occurs text.now bytes.now }
{
    for place in 0..bytes.len() {
        if bytes[place..].starts_with(text) {
            return true;
        }
    }
    text.is_empty()
}

/// Whether a text stands in the bytes that `has` looks at.
fn has(text: &[u8], bytes: &[u8]) -> bool
    ensures { result ≡ definitions.occurs text.now (definitions.looked_at_of bytes.now) }
{
    if bytes.len() > LOOKED_AT {
        occurs(text, &bytes[..LOOKED_AT])
    } else {
        occurs(text, bytes)
    }
}

/// Whether a part is a text.
fn equals(part: &Part, text: &Text, given: &RecordRef) -> bool
    ensures { result ≡ definitions.test_equals part.now text.now given.now }
{
    match part_bytes(part, given) {
        Some(bytes) => bytes == text.bytes.as_slice(),
        None => false,
    }
}

/// Whether a part begins with a text.
fn begins(part: &Part, text: &Text, given: &RecordRef) -> bool
    ensures { result ≡ definitions.test_begins part.now text.now given.now }
{
    match part_bytes(part, given) {
        Some(bytes) => bytes.starts_with(&text.bytes),
        None => false,
    }
}

/// Whether a part has a text in it.
fn contains(part: &Part, text: &Text, given: &RecordRef) -> bool
    ensures { result ≡ definitions.test_has part.now text.now given.now }
{
    match part_bytes(part, given) {
        Some(bytes) => has(&text.bytes, bytes),
        None => false,
    }
}

/// Whether a test of a record holds.
fn test_holds(test: &Test, given: &RecordRef, place: &Place) -> bool
    ensures { result ≡ definitions.test_holds test.now given.now place.now }
{
    match test {
        Test::Null(part) => is_null(part, given),
        Test::Absent(part) => is_absent(part, given),
        Test::Equal(part, text) => equals(part, text, given),
        Test::Begins(part, text) => begins(part, text, given),
        Test::Has(part, text) => contains(part, text, given),
        Test::Compare(term, how, number) => {
            compares_if(*how, term_value(term, given, place), *number)
        }
    }
}

/// Whether the condition that nodes begin with holds of a record, and the nodes behind it.
fn first_holds<'a>(nodes: &'a [Node], given: &RecordRef, place: &Place) -> (bool, &'a [Node])
    requires { BeginWhole nodes.now }
    ensures truth { result.0 ≡ definitions.holds (first_in nodes.now) given.now place.now }
    ensures rest { formulas_of result.1.now ≡ behind_first nodes.now }
    ensures shorter { length result.1.now < length nodes.now }
{
    match nodes {
        [] => unreachable!(),
        [Node::Test(test), rest @ ..] => (test_holds(test, given, place), rest),
        [Node::Not, rest @ ..] => {
            let (inner, rest) = first_holds(rest, given, place);
            (!inner, rest)
        }
        [Node::And, rest @ ..] => {
            let (one, next) = first_holds(rest, given, place);
            let (other, rest) = first_holds(next, given, place);
            (one && other, rest)
        }
        [Node::Or, rest @ ..] => {
            let (one, next) = first_holds(rest, given, place);
            let (other, rest) = first_holds(next, given, place);
            (one || other, rest)
        }
    }
}

/// Whether a condition holds of a record.
pub fn holds(condition: &Condition, given: &RecordRef, place: &Place) -> bool
    ensures { result ≡ definitions.holds (formula_of condition.now) given.now place.now }
{
    first_holds(&condition.nodes, given, place).0
}

/// Whether a rule takes a record: its condition holds, or it has none.
fn takes(rule: &Rule, given: &RecordRef, place: &Place) -> bool
    ensures { result ≡ definitions.takes (line_of rule.now) given.now place.now }
{
    match &rule.condition {
        Some(condition) => holds(condition, given, place),
        None => true,
    }
}

/// The rule that takes a record: the first whose condition holds, if there is one.
pub fn chosen<'a>(rules: &'a [Rule], given: &RecordRef, place: &Place) -> Option<&'a Rule>
    ensures { option_map (λ rule. line_of rule.now) result ≡ definitions.chosen (lines_of rules.now) given.now place.now }
{
    for rule in rules {
        if takes(rule, given, place) {
            return Some(rule);
        }
    }
    None
}
