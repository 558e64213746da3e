//! Fetches of rows from a broker's books.

ghost use Rattle.std.specs.Prelude.{◌<◌, IfOk, IfErr, option_map};
ghost use Rattle.broker.specs.Fetches.{IsFetch, IsFetchFault};

use crate::broker::Broker;
use crate::fault::BrokerFault;
use out_book::{Book, BookFault};
use part_log::Names;
use std::sync::Wait;

impl<Id: Names, C> Broker<Id, C> {
    /// The bytes of a record batch of the rows of an output partition from a place on, at most `max`
    /// of them: what `Book::fetch` returns of its book, which is locked meanwhile. `P1` where there is
    /// no such output partition, `O3` where memory runs out.
    pub fn fetch<R: Wait>(
        &self,
        rt: &R,
        output: usize,
        place: usize,
        max: usize,
    ) -> Result<Option<Vec<u8>>, BrokerFault>
        ensures ok { IfOk result (λ found. IsFetch Id.cells Id.inputs Id.outputs output place max (option_map (λ bytes. bytes.items) found)) }
        ensures err { IfErr result (IsFetchFault Id.outputs output) }
    {
        if output >= self.outputs() {
            return Err(BrokerFault::Partition);
        }
        let book = self.book(output).lock(rt);
        fetched(&book, output, place, max)
    }
}

/// The same from a book, if it is of the output partition.
fn fetched<Id: Names>(
    book: &Book<Id>,
    output: usize,
    place: usize,
    max: usize,
) -> Result<Option<Vec<u8>>, BrokerFault>
    requires { output < Id.outputs }
    ensures ok { IfOk result (λ found. IsFetch Id.cells Id.inputs Id.outputs output place max (option_map (λ bytes. bytes.items) found)) }
    ensures err { IfErr result (IsFetchFault Id.outputs output) }
{
    if book.output() != output {
        return Err(BrokerFault::Book(BookFault::Partition));
    }
    match book.fetch(place, max) {
        Ok(found) => Ok(found),
        Err(fault) => Err(BrokerFault::Book(fault)),
    }
}
