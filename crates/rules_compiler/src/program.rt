//! From rules to an image.

ghost use Rattle.std.specs.Prelude.{◌≡◌, ◌+◌, ◌≤◌, ◌++◌, length, drop, IfOk, OnOk, IfErr, All};
ghost use Rattle.std.specs.List.{flat_map, AllByRecursion};
ghost use Rattle.bpf_isa.specs.Spelling.{spelling, HasRegisters};
ghost use Rattle.rules.specs.Limits.{FitsText, FitsLine, AreRules};
ghost use Rattle.rules.specs.Lines.{line_of, lines_of};
ghost use Rattle.rules_compiler.specs.Code.{instructions};
ghost use Rattle.rules_compiler.specs.Faults.{IsRefusedAt, AreRefusedBehind, AreRefused};
ghost use Rattle.rules_compiler.specs.Programs.{IsProgramOf};
ghost use Rattle.rules_compiler.specs.declared.fault.CompileFault.TheVariants.{Memory};
ghost use Rattle.rules_compiler.specs.Rules as definitions;

use crate::fault::{CompileFault, at_rule};
use crate::openings::{put_first, put_opening, put_rule};
use crate::pieces::{ANSWER, set};
use crate::text_bytes::rules_have_texts;
use bytes::Bytes;
use machine_spec::{Instruction, MAX_SLOTS};
use rules::Rule;
use std::alloc::Global;

/// Adds the code of the rule with this number.
fn add_rule(
    alloc: Global,
    code: &mut Vec<Instruction>,
    rule: &Rule,
    number: usize,
) -> Result<(), CompileFault>
    requires fits { FitsLine FitsText (line_of rule.now) }
    requires few { length code.old.items + 2 ≤ MAX_SLOTS }
    ensures code { OnOk result (code.new.items ≡ code.old.items ++ instructions (definitions.line_code (line_of rule.now))) }
    ensures few { OnOk result (length code.new.items + 2 ≤ MAX_SLOTS) }
    ensures refused { IfErr result (IsRefusedAt (length code.old.items + length (instructions (definitions.line_code (line_of rule.now)))) number) }
{
    match put_rule(alloc, code, rule) {
        Ok(()) if code.len() <= MAX_SLOTS - 2 => Ok(()),
        Ok(()) => Err(CompileFault::Slots(number)),
        Err(refusal) => Err(at_rule(number, refusal)),
    }
}

/// Adds the code of the first rule, if there is one.
#[tactic(auto, unfolding(crate::specs::Rules::opening_of))]
fn add_opening(
    alloc: Global,
    code: &mut Vec<Instruction>,
    rules: &[Rule],
) -> Result<(), CompileFault>
    requires fits { AllByRecursion (FitsLine FitsText) (lines_of rules.now) }
    requires empty { length code.old.items ≡ 0 }
    ensures code { OnOk result (code.new.items ≡ code.old.items ++ instructions (definitions.opening_of (lines_of rules.now))) }
    ensures few { OnOk result (length code.new.items + 2 ≤ MAX_SLOTS) }
    ensures refused { IfErr result (IsRefusedAt (length (instructions (definitions.opening_of (lines_of rules.now)))) 1) }
{
    if rules.is_empty() {
        put_first(code)?;
        return Ok(());
    }
    match put_opening(alloc, code, &rules[0]) {
        Ok(()) if code.len() <= MAX_SLOTS - 2 => Ok(()),
        Ok(()) => Err(CompileFault::Slots(1)),
        Err(refusal) => Err(at_rule(1, refusal)),
    }
}

/// Adds the code of each rule behind the first one.
#[tactic(auto, using(crate::proofs::Loops::lines_behind))]
fn add_rules(alloc: Global, code: &mut Vec<Instruction>, rules: &[Rule]) -> Result<(), CompileFault>
    requires fits { AllByRecursion (FitsLine FitsText) (drop 1 (lines_of rules.now)) }
    requires few { length code.old.items + 2 ≤ MAX_SLOTS }
    ensures code { OnOk result (code.new.items ≡ code.old.items ++ instructions (definitions.lines_code (drop 1 (lines_of rules.now)))) }
    ensures few { OnOk result (length code.new.items + 2 ≤ MAX_SLOTS) }
    ensures refused { IfErr result (AreRefusedBehind (length code.old.items) (lines_of rules.now)) }
{
    for k in 1..rules.len() {
        add_rule(alloc, code, &rules[k], k + 1)?;
    }
    Ok(())
}

/// The code of rules.
#[tactic(auto, using(crate::proofs::Loops::fits_behind, crate::proofs::Lengths::code_is, crate::proofs::Lengths::first_is_refused, crate::proofs::Lengths::others_are_refused))]
fn code_of(alloc: Global, rules: &[Rule]) -> Result<Vec<Instruction>, CompileFault>
    requires { AllByRecursion (FitsLine FitsText) (lines_of rules.now) }
    ensures code { IfOk result (λ code. code.items ≡ instructions (definitions.code_of (lines_of rules.now))) }
    ensures few { IfOk result (λ code. length code.items ≤ MAX_SLOTS) }
    ensures refused { IfErr result (AreRefused (lines_of rules.now)) }
{
    let mut code = Vec::new(alloc);
    add_opening(alloc, &mut code, rules)?;
    add_rules(alloc, &mut code, rules)?;
    code.extend_from_slice(&[set(ANSWER, 0), Instruction::Exit])?;
    Ok(code)
}

/// The image of code.
fn image_of(alloc: Global, code: &[Instruction]) -> Result<Bytes, CompileFault>
    requires { All HasRegisters code.now }
    ensures image { IfOk result (λ image. image ≡ flat_map spelling code.now) }
    ensures memory { IfErr result (λ fault. fault ≡ Memory) }
{
    let mut image = Vec::new(alloc);
    for instruction in code {
        bpf_isa::put(&mut image, *instruction)?;
    }
    Ok(Bytes::from_vec(image)?)
}

/// The image of rules, which runs by helper table 3. It fails with the number of the first rule with which the image
/// would have too many slots.
pub fn compile(alloc: Global, rules: &[Rule]) -> Result<Bytes, CompileFault>
    requires { AreRules FitsText (lines_of rules.now) }
    ensures program { IfOk result (λ image. IsProgramOf (lines_of rules.now) image) }
    ensures refused { IfErr result (AreRefused (lines_of rules.now)) }
{
    rules_have_texts(rules);
    let code = code_of(alloc, rules)?;
    let image = image_of(alloc, &code)?;
    Ok(image)
}
