//! From a text to the rules that it has.

mod actions;
mod conditions;
mod lines;
mod parts;
mod terms;
mod tests;

pub use lines::parse;
