//! Which instructions of a program are listed: all, or those on the way to the refused one.

ghost use Rattle.std.specs.Prelude.{◌≡◌, ◌<◌, ℕ, length, IfOk, IfSome};
ghost use Rattle.verifier_spec.specs.Annotation.{Claims};
ghost use Rattle.explain.specs.Ways as definitions;

use crate::ending::is_reached;
use crate::graph::Graph;
use crate::loops::{is_marked, marks_to};
use abstract_regs::State;
use std::alloc::{AllocError, Global};
use verifier_spec::VerifyFault;

/// How much of a program is listed.
#[derive(Clone, Copy, Debug, PartialEq, Eq)]
pub enum Coverage {
    /// All instructions, or those up to the refused one.
    All,
    /// The refused instruction, and the reached ones from which the code comes to it.
    Refused,
}

/// Which instructions are listed.
#[derive(Drop)]
pub enum Selection {
    /// All.
    All,
    /// None.
    Nothing,
    /// The instruction with the number `to`, and the reached ones that are marked, from which the
    /// code comes to it.
    Way { to: usize, marks: Vec<bool> },
}

/// Whether an instruction is listed.
pub fn is_selected(selection: &Selection, states: &[Option<State>], k: usize) -> bool
    ensures { result ≡ definitions.is_selected states.now selection.now k }
{
    match selection {
        Selection::All => true,
        Selection::Nothing => false,
        Selection::Way { to, marks } => k == *to || (is_reached(states, k) && is_marked(marks, k)),
    }
}

/// The instructions on the way to one.
fn way_to(alloc: Global, graph: &Graph<'_>, to: usize) -> Result<Selection, AllocError>
    requires { to < length graph.now }
    ensures { IfOk result (λ way. (claims : Claims) (k : ℕ)
        → definitions.is_selected claims way k ≡ definitions.is_on_way graph.now claims to k) }
{
    let marks = marks_to(alloc, graph, to)?;
    Ok(Selection::Way { to, marks })
}

/// The instructions of a program that are listed.
pub fn selection_of(
    alloc: Global,
    graph: &Graph<'_>,
    coverage: Coverage,
    fault: Option<VerifyFault>,
) -> Result<Selection, AllocError>
    requires { IfSome fault (λ f. f.pc < length graph.now) }
    ensures { IfOk result (λ selection. (claims : Claims) (k : ℕ)
        → definitions.is_selected claims selection k ≡ definitions.is_listed coverage graph.now claims fault k) }
{
    match coverage {
        Coverage::All => Ok(Selection::All),
        Coverage::Refused => match fault {
            Some(fault) => way_to(alloc, graph, fault.pc),
            None => Ok(Selection::Nothing),
        },
    }
}
