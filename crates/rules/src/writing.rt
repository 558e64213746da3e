//! From rules to the one text that is printed of them.

mod actions;
mod conditions;
mod pieces;
mod terms;

ghost use Rattle.std.specs.Prelude.{◌≡◌, ◌++◌, ◌∷◌, [], option_map, IfOk, OnOk};
ghost use Rattle.rules.specs.Lines.{formula_of, line_of, lines_of};
ghost use Rattle.rules.specs.Writing as definitions;

use crate::condition::Condition;
use crate::rule::Rule;
use crate::writing::actions::push_action;
use crate::writing::conditions::push_condition;
use std::alloc::{AllocError, Global};

fn push_when(
    alloc: Global,
    out: &mut Vec<u8>,
    condition: &Option<Condition>,
) -> Result<(), AllocError>
    ensures { OnOk result (out.new.items ≡ out.old.items ++ definitions.when_text (option_map formula_of condition.now)) }
{
    match condition {
        Some(condition) => {
            out.extend_from_slice(b" when ")?;
            push_condition(alloc, out, condition)
        }
        None => Ok(()),
    }
}

#[tactic(auto, unfolding(crate::specs::Writing::rule_text))]
fn push_rule(alloc: Global, out: &mut Vec<u8>, rule: &Rule) -> Result<(), AllocError>
    ensures { OnOk result (out.new.items ≡ out.old.items ++ (definitions.rule_text (line_of rule.now) ++ 10 ∷ [])) }
{
    push_action(alloc, out, &rule.action)?;
    push_when(alloc, out, &rule.condition)?;
    out.push(b'\n')?;
    Ok(())
}

/// The text of rules, a line each. It fails only where memory runs out.
pub fn write(alloc: Global, rules: &[Rule]) -> Result<Vec<u8>, AllocError>
    ensures { IfOk result (λ text. text.items ≡ definitions.text_of (lines_of rules.now)) }
{
    let mut out = Vec::new(alloc);
    for rule in rules {
        push_rule(alloc, &mut out, rule)?;
    }
    Ok(out)
}
