//! Tests of the core: what it answers to events, and what its books hold then.

mod acts;

use crate::schedules::making::{load_of, mark_of};
use crate::worlds::acts::{Act, event_of, put_of};
use fixtures::FORWARD;
use machine_spec::Table;
use std::alloc::{AllocError, Global};
use std::process::Abort;
use std::test::*;
use world::{Event, Refusal, Reply, Row, World, run};

/// mov64 r1, 0; call 3; mov64 r1, 1; call 3; exit: to output 0 and then to output 1.
const FIRST: &[u8] = &[
    0xb7, 1, 0, 0, 0, 0, 0, 0, 0x85, 0, 0, 0, 3, 0, 0, 0, 0xb7, 1, 0, 0, 1, 0, 0, 0, 0x85, 0, 0, 0,
    3, 0, 0, 0, 0x95, 0, 0, 0, 0, 0, 0, 0,
];

/// mov64 r1, 1; call 3; mov64 r1, 0; call 3; exit: to output 1 and then to output 0.
const SECOND: &[u8] = &[
    0xb7, 1, 0, 0, 1, 0, 0, 0, 0x85, 0, 0, 0, 3, 0, 0, 0, 0xb7, 1, 0, 0, 0, 0, 0, 0, 0x85, 0, 0, 0,
    3, 0, 0, 0, 0x95, 0, 0, 0, 0, 0, 0, 0,
];

/// The value's first byte into r0; exit: nothing is known of the value's length.
const UNSAFE: &[u8] = &[0x71, 0x10, 0, 0, 0, 0, 0, 0, 0x95, 0, 0, 0, 0, 0, 0, 0];

/// mov64 r1, r10; add64 r1, -8; mov64 r2, 0; mov64 r3, 8; call 12; mov64 r1, r0; call 3; mov64 r0, 0;
/// exit: to output 0 where there is no header, to 1 where the first one's value is null, and else to
/// its length + 2.
const BY_HEADER: &[u8] = &[
    0xbf, 0xa1, 0, 0, 0, 0, 0, 0, 0x07, 1, 0, 0, 0xf8, 0xff, 0xff, 0xff, 0xb7, 2, 0, 0, 0, 0, 0, 0,
    0xb7, 3, 0, 0, 8, 0, 0, 0, 0x85, 0, 0, 0, 12, 0, 0, 0, 0xbf, 1, 0, 0, 0, 0, 0, 0, 0x85, 0, 0,
    0, 3, 0, 0, 0, 0xb7, 0, 0, 0, 0, 0, 0, 0, 0x95, 0, 0, 0, 0, 0, 0, 0,
];

fn reply_text(alloc: Global, reply: Reply) -> Result<String, AllocError> {
    format!(in alloc; "{reply:?}")
}

fn refusal_text(alloc: Global, refusal: Refusal) -> Result<String, AllocError> {
    format!(in alloc; "{refusal}")
}

/// What a world answers, as a text.
fn answer_text(alloc: Global, answer: Result<Reply, Refusal>) -> Result<String, AllocError> {
    match answer {
        Ok(reply) => reply_text(alloc, reply),
        Err(refusal) => refusal_text(alloc, refusal),
    }
}

/// What a world answers to an event. None where memory ran out.
fn answer(alloc: Global, world: &mut World, act: Act) -> Option<Result<Reply, Refusal>> {
    match event_of(alloc, act) {
        Some(event) => Some(world.step(alloc, &event)),
        None => None,
    }
}

/// Whether a world answers this to an event.
fn answers(alloc: Global, world: &mut World, row: &Answered) -> bool {
    match answer(alloc, world, row.0) {
        Some(answer) => is_text(answer_text(alloc, answer), row.1),
        None => false,
    }
}

fn letter(bytes: &[u8]) -> char {
    match bytes {
        [byte, ..] => char::from(*byte),
        [] => '.',
    }
}

/// The one byte of a row's value.
fn letter_of(row: &Row) -> char {
    match &row.value {
        Some(value) => letter(value.as_slice()),
        None => '-',
    }
}

/// A row's input, its offset, its number, its timestamp and its value.
fn push_row(text: &mut String, row: &Row) -> Result<(), AllocError> {
    let (from, offset, number, timestamp) = (row.input, row.offset, row.number, row.timestamp);
    let letter = letter_of(row);
    write!(text, "{from} {offset} {number} {timestamp} {letter}, ")
}

fn rows_text(alloc: Global, rows: &[Row]) -> Result<String, AllocError> {
    let mut text = String::new(alloc);
    for row in rows {
        push_row(&mut text, row)?;
    }
    Ok(text)
}

/// The rows of a pair of partitions, with its done number and its place.
fn book_text(alloc: Global, rows: &[Row], done: usize, at: usize) -> Result<String, AllocError> {
    let rows = rows_text(alloc, rows)?;
    format!(in alloc; "{rows}done {done} at {at}")
}

fn is_text(text: Result<String, AllocError>, want: &str) -> bool {
    match text {
        Ok(text) => text.as_str() == want,
        Err(_) => false,
    }
}

/// Whether a pair of partitions is there and has this text.
fn is_book(alloc: Global, world: &World, book: &Book) -> bool {
    let (input, output, want) = *book;
    if input >= world.inputs() || output >= world.outputs(input) {
        return false;
    }
    let rows = world.rows(input, output);
    let (done, at) = (world.done(input, output), world.at(input, output));
    is_text(book_text(alloc, rows, done, at), want)
}

/// What is done, and what is answered.
type Answered = (Act, &'static str);

/// An input partition, an output partition, and the text of what is there.
type Book = (usize, usize, &'static str);

/// Does what each row says; the number of the first one with another answer.
fn first_other_answer(alloc: Global, world: &mut World, rows: &[Answered]) -> Option<usize> {
    for (k, row) in rows.iter().enumerate() {
        if !answers(alloc, world, row) {
            return Some(k);
        }
    }
    None
}

/// The number of the first pair of partitions with another text.
fn first_other_book(alloc: Global, world: &World, rows: &[Book]) -> Option<usize> {
    for (k, row) in rows.iter().enumerate() {
        if !is_book(alloc, world, row) {
            return Some(k);
        }
    }
    None
}

/// Does in a world what each row says, and looks at its books then: the number of the first row with
/// another answer, and of the first book with another text. Both are 0 where there is no world.
fn first_wrong(
    alloc: Global,
    world: Option<World>,
    rows: &[Answered],
    books: &[Book],
) -> (Option<usize>, Option<usize>) {
    match world {
        Some(mut world) => {
            let row = first_other_answer(alloc, &mut world, rows);
            (row, first_other_book(alloc, &world, books))
        }
        None => (Some(0), Some(0)),
    }
}

/// All answers and all books are as they should be.
fn all_right(
    rt: &impl Abort,
    alloc: Global,
    world: Option<World>,
    rows: &[Answered],
    books: &[Book],
) {
    let wrong = first_wrong(alloc, world, rows, books);
    assert!(rt; wrong == (None, None), "row and book {wrong:?}");
}

static DELIVERED_ONCE: [Answered; 10] = [
    (Act::Load("fwd", &FORWARD, Table::One), "Loaded(1)"),
    (Act::Mark(0, "fwd", 1), "Appended(0, 0)"),
    (Act::Put(0, "A"), "Appended(1, 0)"),
    (Act::Deliver(0, 0), "Added(0)"),
    (Act::Deliver(0, 0), "Added(1)"),
    (Act::Deliver(0, 0), "NoItem"),
    (Act::Restart(0), "Restarted"),
    (Act::Deliver(0, 0), "Already"),
    (Act::Deliver(0, 1), "Added(0)"),
    (Act::Mark(0, "fwd", 2), "NoVersion"),
];

static ONE_ITEM_BOOKS: [Book; 2] = [(0, 0, "0 0 0 1000 A, done 2 at 1"), (0, 1, "done 1 at 1")];

#[test]
fn an_item_is_delivered_once_to_each_output(rt: HostRuntime) {
    let world = World::new(rt.alloc(), 1, 2, 4).ok();
    all_right(&rt, rt.alloc(), world, &DELIVERED_ONCE, &ONE_ITEM_BOOKS);
}

static BETWEEN_MARKS: [Answered; 21] = [
    (Act::Load("p1", FIRST, Table::One), "Loaded(1)"),
    (Act::Load("p2", SECOND, Table::One), "Loaded(1)"),
    (Act::Put(1, "xyz"), "Appended(0, 0)"),
    (Act::Mark(1, "p1", 1), "Appended(1, 3)"),
    (Act::Put(1, "AB"), "Appended(2, 3)"),
    (Act::Deliver(1, 0), "Added(0)"),
    (Act::Mark(1, "p2", 1), "Appended(3, 5)"),
    (Act::Put(1, "C"), "Appended(4, 5)"),
    (Act::Load("p1", SECOND, Table::One), "Loaded(2)"),
    (Act::Deliver(1, 0), "Added(0)"),
    (Act::Deliver(1, 0), "Added(2)"),
    (Act::Deliver(1, 1), "Added(0)"),
    (Act::Deliver(1, 0), "Added(0)"),
    (Act::Restart(1), "Restarted"),
    (Act::Deliver(1, 1), "Already"),
    (Act::Deliver(1, 1), "Added(0)"),
    (Act::Deliver(1, 1), "Added(2)"),
    (Act::Deliver(1, 1), "Added(0)"),
    (Act::Deliver(1, 1), "Added(1)"),
    (Act::Deliver(1, 0), "Already"),
    (Act::Deliver(0, 0), "NoItem"),
];

static MARKED_BOOKS: [Book; 3] = [
    (0, 0, "done 0 at 0"),
    (1, 0, "1 3 0 1000 A, 1 4 0 1000 B, done 4 at 1"),
    (
        1,
        1,
        "1 3 1 1000 A, 1 4 1 1000 B, 1 5 0 1000 C, done 5 at 5",
    ),
];

#[test]
fn each_record_goes_by_the_mark_before_it(rt: HostRuntime) {
    let world = World::new(rt.alloc(), 2, 2, 8).ok();
    all_right(&rt, rt.alloc(), world, &BETWEEN_MARKS, &MARKED_BOOKS);
}

static BY_TABLES: [Answered; 27] = [
    (Act::Load("plain", &FORWARD, Table::One), "Loaded(1)"),
    (
        Act::Load("routed", BY_HEADER, Table::One),
        "V11 Helper at 4",
    ),
    (Act::Load("routed", BY_HEADER, Table::Two), "Loaded(1)"),
    (Act::Mark(0, "plain", 1), "Appended(0, 0)"),
    (Act::PutWith(0, "A", Some(b"")), "Appended(1, 0)"),
    (Act::Mark(0, "routed", 1), "Appended(2, 1)"),
    (Act::Put(0, "B"), "Appended(3, 1)"),
    (Act::PutWith(0, "C", None), "Appended(4, 2)"),
    (Act::PutWith(0, "D", Some(b"")), "Appended(5, 3)"),
    (Act::Deliver(0, 0), "Added(0)"),
    (Act::Deliver(0, 0), "Added(1)"),
    (Act::Deliver(0, 0), "Added(0)"),
    (Act::Deliver(0, 0), "Added(1)"),
    (Act::Deliver(0, 0), "Added(0)"),
    (Act::Deliver(0, 0), "Added(0)"),
    (Act::Deliver(0, 1), "Added(0)"),
    (Act::Deliver(0, 1), "Added(0)"),
    (Act::Deliver(0, 1), "Added(0)"),
    (Act::Deliver(0, 1), "Added(0)"),
    (Act::Deliver(0, 1), "Added(1)"),
    (Act::Deliver(0, 1), "Added(0)"),
    (Act::Deliver(0, 2), "Added(0)"),
    (Act::Deliver(0, 2), "Added(0)"),
    (Act::Deliver(0, 2), "Added(0)"),
    (Act::Deliver(0, 2), "Added(0)"),
    (Act::Deliver(0, 2), "Added(0)"),
    (Act::Deliver(0, 2), "Added(1)"),
];

static TABLE_BOOKS: [Book; 3] = [
    (0, 0, "0 0 0 1000 A, 0 1 0 1000 B, done 6 at 6"),
    (0, 1, "0 2 0 1000 C, done 6 at 6"),
    (0, 2, "0 3 0 1000 D, done 6 at 6"),
];

#[test]
fn each_record_goes_by_its_programs_table(rt: HostRuntime) {
    let world = World::new(rt.alloc(), 1, 3, 8).ok();
    all_right(&rt, rt.alloc(), world, &BY_TABLES, &TABLE_BOOKS);
}

const LONGEST: &str = "abcdefghijklmnopqrstuvwxyz-01234";

const TOO_LONG: &str = "abcdefghijklmnopqrstuvwxyz-012345";

static REFUSED: [Answered; 33] = [
    (Act::Load("", &FORWARD, Table::One), "C1 Name"),
    (Act::Load("a_b", &[], Table::One), "C1 Name"),
    (Act::Load(TOO_LONG, &FORWARD, Table::One), "C1 Name"),
    (Act::Load(TOO_LONG, &[], Table::One), "C1 Name"),
    (Act::Load(LONGEST, &FORWARD, Table::One), "Loaded(1)"),
    (Act::Load("a-b", &[], Table::One), "I1 Size"),
    (Act::Load("a", UNSAFE, Table::One), "V7 RecordBounds at 0"),
    (Act::Mark(64, "a", 1), "P1 Partition"),
    (Act::Mark(63, "a", 1), "NoVersion"),
    (Act::Put(64, "A"), "P1 Partition"),
    (Act::Close(64), "P1 Partition"),
    (Act::Restart(64), "P1 Partition"),
    (Act::Restart(63), "Restarted"),
    (Act::Deliver(64, 0), "P1 Partition"),
    (Act::Deliver(0, 64), "P1 Partition"),
    (Act::Deliver(63, 63), "NoItem"),
    (Act::Load("a", &FORWARD, Table::One), "Loaded(1)"),
    (Act::Close(63), "Appended(0, 0)"),
    (Act::Put(63, "A"), "L2 Closed"),
    (Act::Close(63), "L2 Closed"),
    (Act::Mark(63, "a", 1), "L2 Closed"),
    (Act::Mark(63, "a", 0), "NoVersion"),
    (Act::Put(0, "A"), "Appended(0, 0)"),
    (Act::Close(0), "Appended(1, 1)"),
    (Act::Put(0, "A"), "L2 Closed"),
    (Act::Put(1, "A"), "Appended(0, 0)"),
    (Act::Put(1, "A"), "Appended(1, 1)"),
    (Act::Put(1, "A"), "L1 Full"),
    (Act::Close(1), "L1 Full"),
    (Act::Mark(1, "a", 1), "L1 Full"),
    (Act::Mark(1, "a", 2), "NoVersion"),
    (Act::Deliver(63, 63), "Added(0)"),
    (Act::Deliver(63, 63), "NoItem"),
];

#[test]
fn refusals_come_in_their_order(rt: HostRuntime) {
    let world = World::new(rt.alloc(), 64, 64, 2).ok();
    all_right(&rt, rt.alloc(), world, &REFUSED, &[]);
}

/// A run of a mark that is refused, a load, the mark again, a record and two deliveries.
fn run_of_six(alloc: Global) -> Option<World> {
    let early = mark_of(0, "fwd", 1);
    let load = load_of(alloc, "fwd", &FORWARD, Table::One);
    let mark = mark_of(0, "fwd", 1);
    match (early, load, mark, put_of(alloc, 0, "A", None)) {
        (Some(early), Some(load), Some(mark), Some(put)) => {
            let (first, second) = (Event::Deliver(0, 0), Event::Deliver(0, 0));
            run(alloc, 1, 1, 4, &[early, load, mark, put, first, second]).ok()
        }
        _ => None,
    }
}

static SIX: [Book; 1] = [(0, 0, "0 0 0 1000 A, done 2 at 2")];

#[test]
fn a_run_goes_on_after_a_refused_event(rt: HostRuntime) {
    all_right(&rt, rt.alloc(), run_of_six(rt.alloc()), &[], &SIX);
}
