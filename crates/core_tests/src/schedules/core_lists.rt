//! Lists of six events that the core takes, beside a plain function of the same.

ghost use Rattle.std.specs.Prelude.{IfSome};
ghost use Rattle.log_spec.specs.Worlds.{FitsEvent};

use crate::schedules::making::{load_of, mark_of, put_of};
use crate::schedules::rows::{Seen, is_row};
use crate::verdicts::all_hold;
use fixtures::{BOTH, NULLS};
use log_spec::{Event, Refusal, Reply, Row};
use machine_spec::Table;
use std::alloc::{AllocError, Global};
use std::test::*;
use world::World;

/// What the tests do to the core.
#[derive(Clone, Copy, PartialEq, Eq)]
enum Act {
    Put,
    MarkBoth,
    MarkNulls,
    DeliverFirst,
    DeliverSecond,
    Restart,
}

static ACTS: [Act; 6] = [
    Act::Put,
    Act::MarkBoth,
    Act::MarkNulls,
    Act::DeliverFirst,
    Act::DeliverSecond,
    Act::Restart,
];

/// What an item is, and the value of its record.
#[derive(Clone, Copy)]
struct Item {
    act: Act,
    value: u8,
}

/// How many cells the log has.
const CELLS: usize = 4;

/// An output partition: how many items are done, and which one is offered next.
#[derive(Clone, Copy)]
struct Output {
    done: usize,
    at: usize,
}

/// The same core by a plain list of its items.
#[derive(Drop)]
struct Plain {
    items: Vec<Item>,
    first: Output,
    second: Output,
}

/// How many records these items have.
fn records(items: &[Item]) -> u64 {
    let mut count = 0u64;
    for item in items {
        if item.act == Act::Put {
            count = count.wrapping_add(1);
        }
    }
    count
}

/// The last mark among these items.
fn last_mark(items: &[Item]) -> Option<Act> {
    let mut last = None;
    for item in items {
        if item.act == Act::MarkBoth || item.act == Act::MarkNulls {
            last = Some(item.act);
        }
    }
    last
}

/// The row that an item gives in an output partition, if it gives one.
fn row_of(items: &[Item], index: usize, output: usize) -> Option<Seen> {
    let before = items.get(..index)?;
    let item = items.get(index)?;
    if item.act != Act::Put {
        return None;
    }
    let value = match last_mark(before)? {
        Act::MarkBoth => Some(item.value),
        _ => None,
    };
    Some((records(before), output, value))
}

/// Offers the next item to an output partition, whose number is given.
fn offer(items: &[Item], to: &mut Output, output: usize) -> Result<Reply, Refusal> {
    let index = to.at;
    if index >= items.len() {
        return Err(Refusal::NoItem);
    }
    to.at = index.wrapping_add(1);
    if index < to.done {
        return Ok(Reply::Already);
    }
    to.done = to.at;
    match row_of(items, index, output) {
        Some(_) => Ok(Reply::Added(1)),
        None => Ok(Reply::Added(0)),
    }
}

impl Plain {
    fn new(alloc: Global) -> Plain {
        Plain {
            items: Vec::new(alloc),
            first: Output { done: 0, at: 0 },
            second: Output { done: 0, at: 0 },
        }
    }

    /// Appends an item.
    fn append(&mut self, act: Act, value: u8) -> Result<Result<Reply, Refusal>, AllocError> {
        if self.items.len() >= CELLS {
            return Ok(Err(Refusal::LogFull));
        }
        let reply = Reply::Appended(self.items.len(), records(&self.items));
        self.items.push(Item { act, value })?;
        Ok(Ok(reply))
    }

    /// Begins again with the first item.
    fn restart(&mut self) -> Reply {
        self.first.at = 0;
        self.second.at = 0;
        Reply::Restarted
    }

    /// What the core answers.
    fn step(&mut self, act: Act, value: u8) -> Result<Result<Reply, Refusal>, AllocError> {
        match act {
            Act::Put | Act::MarkBoth | Act::MarkNulls => self.append(act, value),
            Act::DeliverFirst => Ok(offer(&self.items, &mut self.first, 0)),
            Act::DeliverSecond => Ok(offer(&self.items, &mut self.second, 1)),
            Act::Restart => Ok(Ok(self.restart())),
        }
    }

    fn output(&self, output: usize) -> Output {
        if output == 0 { self.first } else { self.second }
    }
}

fn event_of(alloc: Global, act: Act, value: u8) -> Option<Event>
    ensures { IfSome result (λ event. FitsEvent event) }
{
    match act {
        Act::Put => put_of(alloc, 0, value),
        Act::MarkBoth => mark_of(0, "p1", 1),
        Act::MarkNulls => mark_of(0, "p2", 1),
        Act::DeliverFirst => Some(Event::Deliver(0, 0)),
        Act::DeliverSecond => Some(Event::Deliver(0, 1)),
        Act::Restart => Some(Event::Restart(0)),
    }
}

/// Loads an image; whether the core took it.
fn load(alloc: Global, world: &mut World, name: &str, image: &[u8]) -> bool {
    match load_of(alloc, name, image, Table::One) {
        Some(event) => world.step(alloc, &event) == Ok(Reply::Loaded(1)),
        None => false,
    }
}

/// Does the same to both; whether the answers are the same.
fn step(alloc: Global, world: &mut World, plain: &mut Plain, act: Act, value: u8) -> bool {
    match event_of(alloc, act, value) {
        Some(event) => is_same_answer(plain.step(act, value), world.step(alloc, &event)),
        None => false,
    }
}

fn is_same_answer(
    want: Result<Result<Reply, Refusal>, AllocError>,
    got: Result<Reply, Refusal>,
) -> bool {
    match want {
        Ok(want) => want == got,
        Err(_) => false,
    }
}

/// The rows of the first items in an output partition.
fn rows_of(
    alloc: Global,
    items: &[Item],
    done: usize,
    output: usize,
) -> Result<Vec<Seen>, AllocError> {
    let mut rows = Vec::new(alloc);
    for index in 0..done {
        if let Some(row) = row_of(items, index, output) {
            rows.push(row)?;
        }
    }
    Ok(rows)
}

/// Whether these are the rows.
fn are_rows(got: &[Row], want: &[Seen]) -> bool {
    let mut rest = want;
    for row in got {
        match rest.split_first() {
            Some((first, others)) if is_row(row, first) => rest = others,
            _ => return false,
        }
    }
    rest.is_empty()
}

/// Whether a pair of partitions has these rows, with this done number and this place.
fn is_output(world: &World, output: usize, rows: &[Seen], want: Output) -> bool {
    if world.inputs() == 0 || output >= world.outputs(0) {
        return false;
    }
    are_rows(world.rows(0, output), rows)
        && world.done(0, output) == want.done
        && world.at(0, output) == want.at
}

/// Whether an output partition is the same in both.
fn is_same(alloc: Global, world: &World, plain: &Plain, output: usize) -> bool {
    let want = plain.output(output);
    match rows_of(alloc, &plain.items, want.done, output) {
        Ok(rows) => is_output(world, output, &rows, want),
        Err(_) => false,
    }
}

/// The act that a digit of a number to the base 6 is.
fn act_at(number: usize, place: usize) -> Act {
    if place == 0 {
        return Act::Put;
    }
    ACTS[number / place % 6]
}

/// The places of the six digits, the highest first, each with the value of a record.
static PLACES: [(usize, u8); 6] = [
    (7776, b'A'),
    (1296, b'B'),
    (216, b'C'),
    (36, b'D'),
    (6, b'E'),
    (1, b'F'),
];

/// Does the acts that the digits of a number are; whether all answers are the same.
fn all_are_same(alloc: Global, world: &mut World, plain: &mut Plain, number: usize) -> bool {
    for (place, value) in &PLACES {
        if !step(alloc, world, plain, act_at(number, *place), *value) {
            return false;
        }
    }
    true
}

/// Loads both programs; whether the core took them.
fn load_both(alloc: Global, world: &mut World) -> bool {
    load(alloc, world, "p1", &BOTH) && load(alloc, world, "p2", &NULLS)
}

/// Does the acts of a number to both; whether all answers and in the end the rows are the same.
fn are_same(alloc: Global, world: &mut World, number: usize) -> bool {
    let mut plain = Plain::new(alloc);
    load_both(alloc, world)
        && all_are_same(alloc, world, &mut plain, number)
        && is_same(alloc, world, &plain, 0)
        && is_same(alloc, world, &plain, 1)
}

/// The same with a new core.
fn is_right(alloc: Global, number: usize) -> bool {
    match World::new(alloc, 1, 2, CELLS) {
        Ok(mut world) => are_same(alloc, &mut world, number),
        Err(_) => false,
    }
}

/// The first of so many lists that is not right.
fn first_wrong(alloc: Global, lists: usize) -> Option<usize> {
    for number in 0..lists {
        if !is_right(alloc, number.wrapping_mul(43)) {
            return Some(number);
        }
    }
    None
}

#[test]
fn a_thousand_lists_of_events(rt: HostRuntime) {
    all_hold(&rt, first_wrong(rt.alloc(), 1000));
}
