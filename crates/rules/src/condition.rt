//! What conditions are.

ghost use Rattle.std.specs.Prelude.{◌≡◌, length};
ghost use Rattle.rules.specs.Formulas.{formulas_of};

use crate::rule::Test;

/// A piece of a condition, which stands before what it is of.
#[derive(Drop)]
pub enum Node {
    /// One test, in memory of its own: so nodes are small.
    Test(Box<Test>),
    /// `not` of the condition behind it.
    Not,
    /// `and` of the two conditions behind it.
    And,
    /// `or` of the two conditions behind it.
    Or,
}

/// When a rule takes a record: the nodes of one condition, in a row however deep they nest. So no condition is dropped
/// within another.
#[derive(Drop)]
pub struct Condition {
    pub nodes: Vec<Node>,
    pub ghost is_one: { length (formulas_of nodes.items) ≡ 1 },
}
