//! A log with its worker for each of two input partitions and the books of two output partitions, and
//! beside them the core: each call here and in `desk` does one step of both, and says whether the answers
//! are the same. They are not where memory ran out.

ghost use Rattle.std.specs.Prelude.{◌≡◌, ◌<◌};
ghost use Rattle.log_spec.specs.Worlds.{FitsEvent};

use crate::schedules::making::put_of;
use crate::schedules::rows::has;
use broker_fixtures::{advance, results_of};
use fixtures::batch_of_value;
use log_spec::{Event, Refusal, Reply};
use out_book::{Book, BookFault, Delivered};
use part_log::{Cells, LogFault, Names, PartLog, Receipt};
use std::alloc::Global;
use std::sync::Wait;
use worker::{Results, Walk};
use world::World;

/// How many cells each log has.
pub(crate) const CELLS: usize = 4;

/// An input partition's log, and its worker: a walk, and the results of the walk's last item until each
/// output partition was offered them.
#[derive(Drop)]
pub(crate) struct Lane<Id: Names> {
    pub(crate) input: usize,
    pub(crate) log: PartLog<Id>,
    walk: Walk<Id>,
    results: Option<Results<Id>>,
    output: usize,
}

impl<Id: Names> Lane<Id> {
    pub(crate) fn new(input: usize, cells: Cells) -> Lane<Id>
        requires { cells ≡ Id.cells input }
    {
        Lane {
            input,
            log: PartLog::new(input, cells),
            walk: Walk::new(input),
            results: None,
            output: 0,
        }
    }
}

/// The books of the two output partitions.
#[derive(Drop)]
pub(crate) struct Pair<Id: Names> {
    first: Book<Id>,
    second: Book<Id>,
}

impl<Id: Names> Pair<Id> {
    pub(crate) fn new(alloc: Global) -> Option<Pair<Id>>
        requires inputs { Id.inputs ≡ 2 }
        requires outputs { Id.outputs ≡ 2 }
    {
        match (book(alloc, 0), book(alloc, 1)) {
            (Some(first), Some(second)) => Some(Pair { first, second }),
            _ => None,
        }
    }
}

/// The book of an output partition.
fn book<Id: Names>(alloc: Global, output: usize) -> Option<Book<Id>>
    requires inputs { Id.inputs ≡ 2 }
    requires within { output < 2 }
    requires outputs { Id.outputs ≡ 2 }
{
    Book::new(alloc, 2, output).ok()
}

/// Whether a log answers what the core does.
pub(crate) fn is_same_append<Id: Names>(
    got: &Result<Receipt<Id>, LogFault>,
    want: Result<Reply, Refusal>,
) -> bool {
    match (got, want) {
        (Ok(receipt), Ok(Reply::Appended(index, base))) => {
            receipt.index() == index && receipt.base() == base
        }
        (Err(LogFault::Closed), Err(Refusal::LogClosed)) => true,
        (Err(LogFault::Full), Err(Refusal::LogFull)) => true,
        _ => false,
    }
}

/// Appends a batch.
pub(crate) fn put<Id: Names, R: Wait>(
    rt: &R,
    alloc: Global,
    lane: &Lane<Id>,
    core: &mut World,
    value: u8,
) -> bool {
    match (
        put_of(alloc, lane.input, value),
        batch_of_value(alloc, 1, value),
    ) {
        (Some(event), Some(batch)) => {
            let want = asked(alloc, core, event);
            is_same_append(&lane.log.append(rt, alloc, batch), want)
        }
        _ => false,
    }
}

/// What the core answers.
pub(crate) fn asked(alloc: Global, core: &mut World, event: Event) -> Result<Reply, Refusal>
    requires { FitsEvent event }
{
    core.step(alloc, &event)
}

/// Closes a log.
pub(crate) fn close<Id: Names, R: Wait>(
    rt: &R,
    alloc: Global,
    lane: &Lane<Id>,
    core: &mut World,
) -> bool {
    let got = lane.log.close(rt, alloc);
    is_same_append(&got, asked(alloc, core, Event::Close(lane.input)))
}

/// Processes the item at a walk's position; whether it could.
fn is_processed<Id: Names>(alloc: Global, lane: &mut Lane<Id>) -> bool
    requires { Id.outputs ≡ 2 }
{
    match results_of(alloc, &lane.walk, &lane.log, 2) {
        Some(results) => {
            lane.results = Some(results);
            true
        }
        None => false,
    }
}

/// Whether there is something to offer: what is left of an item, or the next one, which is processed.
/// None where memory ran out.
fn has_next<Id: Names>(alloc: Global, lane: &mut Lane<Id>) -> Option<bool>
    requires { Id.outputs ≡ 2 }
{
    if lane.results.is_some() {
        return Some(true);
    }
    if !advance(&lane.log, &mut lane.walk) {
        return Some(false);
    }
    if is_processed(alloc, lane) {
        Some(true)
    } else {
        None
    }
}

/// Whether a book answers what the core does.
fn is_same_delivery(got: Result<Delivered, BookFault>, want: Result<Reply, Refusal>) -> bool {
    match (got, want) {
        (Ok(Delivered::Added(count)), Ok(Reply::Added(rows))) => count == rows,
        (Ok(Delivered::Already), Ok(Reply::Already)) => true,
        _ => false,
    }
}

/// Offers an item's rows to the output partition whose turn it is.
fn deliver<Id: Names>(
    lane: &Lane<Id>,
    books: &mut Pair<Id>,
) -> Option<Result<Delivered, BookFault>> {
    let results = lane.results.as_ref()?;
    Some(if lane.output == 0 {
        books.first.deliver(&lane.walk, results)
    } else {
        books.second.deliver(&lane.walk, results)
    })
}

/// After an offer it is the second output partition's turn, or that of the next item.
fn pass_turn<Id: Names>(lane: &mut Lane<Id>) {
    if lane.output == 0 {
        lane.output = 1;
    } else {
        lane.output = 0;
        lane.results = None;
    }
}

/// Offers what there is to offer.
fn offer_there<Id: Names>(
    lane: &mut Lane<Id>,
    books: &mut Pair<Id>,
    want: Result<Reply, Refusal>,
) -> bool {
    match deliver(lane, books) {
        Some(got) => {
            pass_turn(lane);
            is_same_delivery(got, want)
        }
        None => false,
    }
}

/// The worker's next offer. Where its log has no item yet, the core refuses it.
pub(crate) fn offer<Id: Names>(
    alloc: Global,
    lane: &mut Lane<Id>,
    books: &mut Pair<Id>,
    core: &mut World,
) -> bool
    requires { Id.outputs ≡ 2 }
{
    let has_next = has_next(alloc, lane);
    let want = asked(alloc, core, Event::Deliver(lane.input, lane.output));
    match has_next {
        Some(true) => offer_there(lane, books, want),
        Some(false) => want == Err(Refusal::NoItem),
        None => false,
    }
}

/// A walk over the items of an input partition that are done in both output partitions.
fn done_everywhere<Id: Names>(books: &Pair<Id>, input: usize) -> Option<Walk<Id>> {
    if input >= books.first.inputs() {
        return None;
    }
    let first = books.first.walk(input);
    let second = books.second.walk(input);
    if first.len() < second.len() {
        Some(first.again())
    } else {
        Some(second.again())
    }
}

/// The core's worker passes an item in an output partition.
fn passes(alloc: Global, core: &mut World, input: usize, output: usize) -> bool {
    asked(alloc, core, Event::Deliver(input, output)) == Ok(Reply::Already)
}

/// The core's worker passes items that are done in both output partitions.
fn pass_done(alloc: Global, core: &mut World, input: usize, items: usize) -> bool {
    for _ in 0..items {
        if !passes(alloc, core, input, 0) || !passes(alloc, core, input, 1) {
            return false;
        }
    }
    true
}

/// The core's worker begins again and passes those items.
fn restart_core(alloc: Global, core: &mut World, input: usize, items: usize) -> bool {
    asked(alloc, core, Event::Restart(input)) == Ok(Reply::Restarted)
        && pass_done(alloc, core, input, items)
}

/// The worker ends where it is, and another one begins after the items that are done in both output
/// partitions.
pub(crate) fn restart<Id: Names>(
    alloc: Global,
    lane: &mut Lane<Id>,
    books: &Pair<Id>,
    core: &mut World,
) -> bool {
    match done_everywhere(books, lane.input) {
        Some(walk) => {
            let done = walk.len();
            begin_with(lane, walk);
            restart_core(alloc, core, lane.input, done)
        }
        None => false,
    }
}

/// A worker begins after a walk, with the first output partition.
fn begin_with<Id: Names>(lane: &mut Lane<Id>, walk: Walk<Id>) {
    lane.walk = walk;
    lane.results = None;
    lane.output = 0;
}

/// Whether a book has the core's rows and done number of an input partition.
fn is_core_in<Id: Names>(book: &Book<Id>, core: &World, input: usize) -> bool {
    let output = book.output();
    if input >= core.inputs() || output >= core.outputs(input) || input >= book.inputs() {
        return false;
    }
    book.done(input) == core.done(input, output) && has(book, input, core.rows(input, output))
}

/// Whether the books are the core's.
pub(crate) fn are_core<Id: Names>(books: &Pair<Id>, core: &World) -> bool {
    is_core_in(&books.first, core, 0)
        && is_core_in(&books.first, core, 1)
        && is_core_in(&books.second, core, 0)
        && is_core_in(&books.second, core, 1)
}

/// Whether all items of a log are done in both output partitions.
pub(crate) fn is_done<Id: Names, R: Wait>(rt: &R, lane: &Lane<Id>, books: &Pair<Id>) -> bool {
    match (lane.log.trail(rt), done_everywhere(books, lane.input)) {
        (Ok(trail), Some(walk)) => trail.len() == walk.len(),
        _ => false,
    }
}
