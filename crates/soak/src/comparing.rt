//! A broker's books beside those of the plain core over the same logs.

ghost use Rattle.std.specs.Prelude.{◌≡◌, IfSome};
ghost use Rattle.log_spec.specs.Worlds.{FitsEvent};

use crate::making::{image, program_name};
use crate::numbers::Numbers;
use crate::threads::{CELLS, DEPLOYERS, INPUTS, OUTPUTS};
use broker::Broker;
use fixtures::raw_name_of;
use log_spec::{Event, Refusal, Row, RowRef};
use machine_spec::Table;
use out_book::Book;
use part_log::{Item, Names, Receipt, Trail};
use std::alloc::Global;
use std::sync::Wait;
use wire_spec::Batch;
use world::World;

/// How many records are in the logs once and how many more there are, how many rows the books have,
/// and how many lists of rows are others than the core's.
#[derive(Clone, Copy, Drop)]
pub struct Compared {
    pub once: u64,
    pub again: u64,
    pub rows: u64,
    pub different: u64,
}

/// Compares all books with the core's, over the logs that the receipts know. None where memory runs
/// out or the core refuses a log.
pub(crate) fn compare<Id: Names, C, R: Wait>(
    rt: &R,
    alloc: Global,
    broker: &Broker<Id, C>,
    receipts: &[Receipt<Id>],
    count: usize,
    versions: usize,
) -> Option<Compared> {
    let Ok(mut core) = World::new(alloc, INPUTS, OUTPUTS, CELLS) else {
        return None;
    };
    let Ok(mut numbers) = Numbers::new(alloc, count) else {
        return None;
    };
    if !are_replayed(alloc, broker, receipts, versions, &mut core, &mut numbers) {
        return None;
    }
    let mut found = Compared {
        once: numbers.once,
        again: numbers.again,
        rows: 0,
        different: 0,
    };
    if found.add_books(rt, alloc, broker, &mut core) {
        Some(found)
    } else {
        None
    }
}

/// Whether the core gets the programs of all deployers, and then the items of the logs.
fn are_replayed<Id: Names, C>(
    alloc: Global,
    broker: &Broker<Id, C>,
    receipts: &[Receipt<Id>],
    versions: usize,
    core: &mut World,
    numbers: &mut Numbers,
) -> bool {
    for number in 0..DEPLOYERS.wrapping_mul(versions) {
        if !is_loaded(alloc, core, number % DEPLOYERS, number / DEPLOYERS) {
            return false;
        }
    }
    for receipt in receipts {
        if append_all(alloc, broker, core, numbers, receipt).is_none() {
            return false;
        }
    }
    true
}

/// Whether the core gets a deployer's program of a turn.
fn is_loaded(alloc: Global, core: &mut World, deployer: usize, turn: usize) -> bool {
    match (
        raw_name_of(alloc, program_name(deployer)),
        image(alloc, turn),
    ) {
        (Ok(name), Some(image)) => core
            .step(alloc, &Event::Load(name, image, Table::One))
            .is_ok(),
        _ => false,
    }
}

/// Appends the items of a receipt's log to the core's.
fn append_all<Id: Names, C>(
    alloc: Global,
    broker: &Broker<Id, C>,
    core: &mut World,
    numbers: &mut Numbers,
    receipt: &Receipt<Id>,
) -> Option<()> {
    let trail = receipt.with_item();
    for index in 0..trail.len() {
        let item = item_of(broker, &trail, index)?;
        if !is_appended(alloc, core, trail.partition(), item) {
            return None;
        }
        find_all(numbers, item);
    }
    Some(())
}

fn is_appended(alloc: Global, core: &mut World, input: usize, item: &Item) -> bool {
    match event_of(alloc, input, item) {
        Some(event) => core.step(alloc, &event).is_ok(),
        None => false,
    }
}

/// An item of a broker's log.
fn item_of<'a, Id: Names, C>(
    broker: &'a Broker<Id, C>,
    trail: &Trail<Id>,
    index: usize,
) -> Option<&'a Item> {
    let input = trail.partition();
    if input >= broker.inputs() || index >= trail.len() {
        return None;
    }
    let mut note = trail.note(index);
    broker.read(input, index, &mut note)
}

/// Finds the records of an item.
fn find_all(numbers: &mut Numbers, item: &Item) {
    if let Item::Batch(logged) = item {
        for index in 0..logged.len() {
            numbers.find(&logged.record(index));
        }
    }
}

/// The event that appends an item.
fn event_of(alloc: Global, input: usize, item: &Item) -> Option<Event>
    ensures { IfSome result (λ event. FitsEvent event) }
{
    match item {
        Item::End => Some(Event::Close(input)),
        Item::Batch(logged) => {
            let _fits = logged.len();
            let batch = logged.to_batch(alloc).ok()?;
            Some(Event::Batch(input, batch))
        }
        Item::Mark { name, version, .. } => Some(Event::Mark(input, name.again(), *version)),
    }
}

/// Offers an output partition of the core every item of an input partition.
fn deliver_all(alloc: Global, core: &mut World, input: usize, output: usize) -> Option<()> {
    for _ in 0..CELLS + 1 {
        match core.step(alloc, &Event::Deliver(input, output)) {
            Ok(_) => {}
            Err(Refusal::NoItem) => return Some(()),
            Err(_) => return None,
        }
    }
    None
}

impl Compared {
    /// Compares the rows of each output partition, those of each input partition apart; whether the core
    /// has them.
    fn add_books<Id: Names, C, R: Wait>(
        &mut self,
        rt: &R,
        alloc: Global,
        broker: &Broker<Id, C>,
        core: &mut World,
    ) -> bool {
        for number in 0..INPUTS * OUTPUTS {
            let (input, output) = (number % INPUTS, number / INPUTS);
            if deliver_all(alloc, core, input, output).is_none()
                || self.add(rt, broker, core, input, output).is_none()
            {
                return false;
            }
        }
        true
    }

    /// Compares the rows of an output partition from an input partition.
    fn add<Id: Names, C, R: Wait>(
        &mut self,
        rt: &R,
        broker: &Broker<Id, C>,
        core: &World,
        input: usize,
        output: usize,
    ) -> Option<()> {
        if input >= core.inputs() || output >= core.outputs(input) || output >= broker.outputs() {
            return None;
        }
        let rows = core.rows(input, output);
        let book = broker.book(output).lock(rt);
        self.rows = self.rows.wrapping_add(rows.len() as u64);
        if !has(&book, input, rows) {
            self.different = self.different.wrapping_add(1);
        }
        Some(())
    }
}

/// Whether a book has exactly these rows from an input partition.
fn has<Id: Names>(book: &Book<Id>, input: usize, rows: &[Row]) -> bool {
    let mut rest = rows;
    for row in book.rows_from(input) {
        match rest.split_first() {
            Some((first, others)) if is_same(&row.by_ref(), &first.by_ref()) => rest = others,
            _ => return false,
        }
    }
    rest.is_empty()
}

fn is_same(row: &RowRef, other: &RowRef) -> bool {
    row.input == other.input
        && row.offset == other.offset
        && row.number == other.number
        && row.timestamp == other.timestamp
        && row.key() == other.key()
        && row.value() == other.value()
        && row.headers().is_empty()
        && other.headers().is_empty()
}
