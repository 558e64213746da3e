//! How tests end that make a call again where memory was refused.

ghost use Rattle.std.specs.Prelude.{◌≡◌, IfErr, IfOk, length};
ghost use Rattle.broker.specs.Layouts.{IsNamed};
ghost use Rattle.broker_fixtures.specs.declared.endings.Ending.TheVariants.{NotMade};

use broker::{Broker, Parts};
use part_log::Names;
use std::alloc::Global;

/// Why the calls of a test did not all end well.
#[derive(Clone, Copy, Debug, PartialEq, Eq)]
pub enum Ending {
    /// There was no memory for a broker, a log or a book.
    NotMade,
    /// The named call gave another answer than its own for memory, left something changed, or gave
    /// a wrong answer when it was made again.
    Wrong(&'static str),
}

/// A broker with empty logs and books, of the parts that `Id` names. An `Err` is `NotMade`, where
/// memory ran out.
pub fn new_broker<Id: Names, C: Drop>(
    alloc: Global,
    parts: Parts<C>,
) -> Result<Broker<Id, C>, Ending>
    requires { IsNamed Id.cells Id.inputs Id.outputs parts }
    ensures ok { IfOk result (λ broker. broker ≡ length parts.cells) }
    ensures err { IfErr result (λ ending. ending ≡ NotMade) }
{
    match Broker::new(alloc, parts) {
        Ok(broker) => Ok(broker),
        Err(_) => Err(Ending::NotMade),
    }
}
