//! Rules: what becomes of a record, said in lines of text.
//!
//! `parse` reads the rules of a text, and `write` prints them in their one form. `chosen` says which rule takes a
//! record, and `holds` whether a condition holds of one.
//!
//! ```
//! let rules = rules::parse(alloc, b"output 1 when value begins \"4\"\ndrop\n").ok()?;
//! let printed = rules::write(alloc, &rules).ok()?;
//! assert!(printed.as_slice() == b"output 1 when value begins \"4\"\ndrop 10\n".as_slice());
//! ```
#![tactic(auto)]

mod condition;
mod digits;
mod fault;
mod laws;
mod level;
mod limits;
mod number;
mod parts;
mod quoted;
mod reading;
mod rule;
mod scan;
mod terms;
mod truth;
mod writing;

pub use condition::{Condition, Node};
pub use fault::{RuleFault, Spot};
pub use laws::{rules_are_limited, rules_are_read_again};
pub use limits::{MAX_RULES, MAX_STEPS};
pub use reading::parse;
pub use rule::{
    Action, AddedHeader, Comparison, Cut, Layout, Output, Part, Rule, Term, Test, Text,
};
pub use truth::{chosen, holds};
pub use writing::write;
