//! Lines of a text, each with one rule or none.

ghost use Rattle.std.specs.Prelude.{◌≡◌, ◌≢◌, ◌≤◌, length, [], Option, Some, option_map, OnOk, IfErr, Ok, Err};
ghost use Rattle.std.specs.List.{slice_split, position_or_len};
ghost use Rattle.wire_spec.specs.Memory.{AnswersAs};
ghost use Rattle.rules.specs.Lines.{formula_of, line_of, lines_of};
ghost use Rattle.rules.specs.Steps.{IsAdded, IsRefused};
ghost use Rattle.rules.specs.declared.fault.LineFault.TheVariants as faults;
ghost use Rattle.rules.specs.declared.fault.RuleFault.TheVariants as rule_faults;
ghost use Rattle.rules.specs.Reading as definitions;

use crate::condition::Condition;
use crate::fault::{LineFault, RuleFault, at_line, spot_at};
use crate::limits::MAX_RULES;
use crate::reading::actions::action_at;
use crate::reading::conditions::condition_at;
use crate::rule::Rule;
use crate::scan::{after_word, is_end, skipped, unexpected};
use std::alloc::Global;

/// The condition after `when`, if there is one.
#[tactic(auto, unfolding(crate::specs::Reading::when_at))]
fn when_at(alloc: Global, text: &[u8]) -> Result<(Option<Condition>, &[u8]), LineFault>
    ensures { AnswersAs faults.Memory (λ x. (option_map formula_of x.0, x.1.now)) result (definitions.when_at text.now) }
{
    let Some(rest) = after_word(text, b"when") else {
        return Ok((None, text));
    };
    let (condition, rest) = condition_at(alloc, rest)?;
    Ok((Some(condition), rest))
}

/// The rule of a whole line.
#[tactic(auto, unfolding(crate::specs::Reading::rule_of))]
fn rule_of(alloc: Global, line: &[u8]) -> Result<Rule, LineFault>
    ensures { AnswersAs faults.Memory line_of result (definitions.rule_of line.now) }
{
    let (action, rest) = action_at(alloc, line)?;
    let (condition, rest) = when_at(alloc, rest)?;
    if is_end(skipped(rest)) {
        Ok(Rule { action, condition })
    } else {
        Err(unexpected(rest))
    }
}

/// The rule of a line; none where nothing but a comment stands there.
#[tactic(auto, unfolding(crate::specs::Reading::rule_in))]
fn rule_in(alloc: Global, line: &[u8]) -> Result<Option<Rule>, LineFault>
    ensures { AnswersAs faults.Memory (λ rule. option_map line_of rule) result (definitions.rule_in line.now) }
{
    if is_end(skipped(line)) {
        return Ok(None);
    }
    let rule = rule_of(alloc, line)?;
    Ok(Some(rule))
}

/// Adds the rule of the line with this number, if there is room.
fn add(rules: &mut Vec<Rule>, number: usize, line: &[u8], rule: Rule) -> Result<(), RuleFault>
    ensures ok { OnOk result (IsAdded number line.now (Ok (Some (line_of rule))) (lines_of rules.old.items) (lines_of rules.new.items)) }
    ensures err { IfErr result (λ f. f ≢ rule_faults.Memory → IsRefused number line.now (Ok (Some (line_of rule))) (lines_of rules.old.items) f) }
{
    if rules.len() >= MAX_RULES {
        return Err(RuleFault::Many(spot_at(number, line, skipped(line).len())));
    }
    rules.push(rule)?;
    Ok(())
}

/// Adds what the line with this number says.
fn add_line(
    alloc: Global,
    rules: &mut Vec<Rule>,
    number: usize,
    line: &[u8],
) -> Result<(), RuleFault>
    ensures ok { OnOk result (IsAdded number line.now (definitions.rule_in line.now) (lines_of rules.old.items) (lines_of rules.new.items)) }
    ensures err { IfErr result (λ f. f ≢ rule_faults.Memory → IsRefused number line.now (definitions.rule_in line.now) (lines_of rules.old.items) f) }
{
    match rule_in(alloc, line) {
        Err(fault) => Err(at_line(number, line, fault)),
        Ok(None) => Ok(()),
        Ok(Some(rule)) => add(rules, number, line, rule),
    }
}

fn is_line_feed(byte: u8) -> bool
    ensures { result ≡ definitions.is_line_feed byte }
{
    byte == b'\n'
}

/// How many bytes the line has that a text begins with.
fn line_length(text: &[u8]) -> usize
    ensures is { result ≡ position_or_len definitions.is_line_feed text.now }
    ensures is_within { result ≤ length text.now }
{
    for place in 0..text.len() {
        if is_line_feed(text[place]) {
            return place;
        }
    }
    text.len()
}

/// Adds what the lines of a text say to no rules.
fn add_lines(alloc: Global, rules: &mut Vec<Rule>, text: &[u8]) -> Result<(), RuleFault>
    requires { rules.old.items ≡ [] }
    ensures ok { OnOk result (definitions.rules_in 1 0 (slice_split definitions.is_line_feed text.now) ≡ Ok (lines_of rules.new.items)) }
    ensures err { IfErr result (λ f. f ≢ rule_faults.Memory → definitions.rules_in 1 0 (slice_split definitions.is_line_feed text.now) ≡ Err f) }
{
    let mut number = 1;
    let mut start = 0;
    while start <= text.len() {
        let rest = &text[start..];
        let end = line_length(rest);
        add_line(alloc, rules, number, &rest[..end])?;
        number += 1;
        start += end + 1;
    }
    Ok(())
}

/// The rules of a text, at most `MAX_RULES`. It fails with the first fault of the lowest faulty line, or as `Memory`
/// where memory runs out.
#[tactic(auto, unfolding(crate::specs::Reading::rules_of))]
pub fn parse(alloc: Global, text: &[u8]) -> Result<Vec<Rule>, RuleFault>
    ensures { AnswersAs rule_faults.Memory (λ rules. lines_of rules.items) result (definitions.rules_of text.now) }
{
    let mut rules = Vec::new(alloc);
    add_lines(alloc, &mut rules, text)?;
    Ok(rules)
}
