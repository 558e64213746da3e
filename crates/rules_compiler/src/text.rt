//! From a text of rules to a program.

ghost use Rattle.rules_compiler.specs.Programs.{CompilesText};

use crate::fault::CompileFault;
use crate::program::compile;
use program_file::{Places, ProgramFile};
use rules::{RuleFault, parse, rules_are_limited};
use std::alloc::Global;
use thiserror::Error;

/// Why a text of rules gives no program.
#[derive(Clone, Copy, Debug, PartialEq, Eq, Drop, Error)]
pub enum TextFault {
    /// A line has no rule where one is begun.
    #[error("{0}")]
    Line(RuleFault),
    /// The rules are not compiled.
    #[error("{0}")]
    Rules(CompileFault),
    /// Memory ran out.
    #[error("E8 Memory")]
    Memory,
}

/// The program of a text's rules, by helper table 3. It fails with the text's first fault, and then with that of the
/// first rule with which the image would be too long.
#[tactic(auto, using(crate::proofs::Files::program_of_text))]
pub fn compile_text(alloc: Global, text: &[u8]) -> Result<ProgramFile, TextFault>
    ensures { CompilesText text.now result }
{
    let rules = match parse(alloc, text) {
        Ok(rules) => rules,
        Err(RuleFault::Memory) => return Err(TextFault::Memory),
        Err(fault) => return Err(TextFault::Line(fault)),
    };
    rules_are_limited();
    match compile(alloc, &rules) {
        Ok(image) => Ok(ProgramFile {
            table: 3,
            image,
            places: Places {
                list: Vec::new(alloc),
            },
        }),
        Err(CompileFault::Memory) => Err(TextFault::Memory),
        Err(fault) => Err(TextFault::Rules(fault)),
    }
}
