//! Interleavings of five actors, by their numbers. Each has three steps:
//!
//! | actor | steps |
//! |---|---|
//! | a producer | appends three batches to the first log |
//! | a producer | appends two batches to the second log and closes it |
//! | a deployer | marks the first version in the first log, loads a second one, marks it in the second log |
//! | the worker of each log | offers, begins again, offers |
//!
//! There are 15! / 3!^5 = 168,168,000 of them. After each step the books are compared with the core's,
//! which takes the same steps, and in the end the workers take what is left. The test takes the first
//! 2,000 numbers; the variable SCHEDULES gives others, as `SCHEDULES="2000 1000000"` the million after
//! them. A number times 61,803,403, modulo all, is the interleaving's place in the order of the actors'
//! names, so the first numbers are spread over all.

ghost use Rattle.std.specs.Prelude.{◌≡◌, ◌≤◌};

use crate::schedules::desk::{Desk, load, mark, open};
use crate::schedules::play::{CELLS, Lane, Pair, are_core, close, is_done, offer, put, restart};
use part_log::{Cells, Names};
use std::alloc::Global;
use std::env;
use std::marker::Brand;
use std::sync::Wait;
use std::test::Fail;
use world::World;

/// How many interleavings there are.
const ALL: u64 = 168_168_000;

/// Has no divisor in common with their number.
const SPREAD: u64 = 61_803_403;

/// How many the test takes when it is not told.
const SHORT: u64 = 2_000;

/// The actors, in the order of their numbers.
#[derive(Clone, Copy)]
enum Actor {
    FirstProducer,
    SecondProducer,
    Deployer,
    FirstWorker,
    SecondWorker,
}

/// How many steps each actor still has, and which of the orders of these steps it is.
#[derive(Clone, Copy)]
struct Left {
    steps: [u64; 5],
    ways: u64,
    number: u64,
}

static ACTORS: [Actor; 5] = [
    Actor::FirstProducer,
    Actor::SecondProducer,
    Actor::Deployer,
    Actor::FirstWorker,
    Actor::SecondWorker,
];

impl Left {
    /// The actor whose step is next, and how many steps it had left. The orders that begin with one
    /// actor's step come before those that begin with the next one's.
    fn next(&mut self) -> Option<(Actor, u64)> {
        let mut total = 0u64;
        for steps in &self.steps {
            total = total.wrapping_add(*steps);
        }
        if total == 0 {
            return None;
        }
        self.pick(total)
    }

    fn pick(&mut self, total: u64) -> Option<(Actor, u64)>
        requires { 1 ≤ total }
    {
        for (k, actor) in ACTORS.iter().enumerate() {
            let steps = self.steps[k];
            let ways = self.ways.wrapping_mul(steps) / total;
            if self.number < ways {
                self.steps[k] = steps.wrapping_sub(1);
                self.ways = ways;
                return Some((*actor, steps));
            }
            self.number = self.number.wrapping_sub(ways);
        }
        None
    }
}

/// What the actors share, and the core.
#[derive(Drop)]
struct Play<'r, Id: Names, R: Wait> {
    rt: &'r R,
    alloc: Global,
    first: Lane<Id>,
    second: Lane<Id>,
    books: Pair<Id>,
    desk: Desk<&'r R>,
    core: World,
}

impl<'r, Id: Names, R: Wait> Play<'r, Id, R> {
    /// The deployer's step, of which it has so many left.
    fn deploy(&mut self, left: u64) -> bool {
        let (rt, alloc) = (self.rt, self.alloc);
        match left {
            3 => mark(rt, alloc, &self.first, &mut self.desk, &mut self.core),
            2 => load(alloc, &mut self.desk, &mut self.core),
            _ => mark(rt, alloc, &self.second, &mut self.desk, &mut self.core),
        }
    }

    /// The second producer's step.
    fn fill(&mut self, left: u64) -> bool {
        let (rt, alloc) = (self.rt, self.alloc);
        match left {
            1 => close(rt, alloc, &self.second, &mut self.core),
            3 => put(rt, alloc, &self.second, &mut self.core, b'a'),
            _ => put(rt, alloc, &self.second, &mut self.core, b'b'),
        }
    }

    /// The first producer's step.
    fn append(&mut self, left: u64) -> bool {
        let value = match left {
            3 => b'A',
            2 => b'B',
            _ => b'C',
        };
        put(self.rt, self.alloc, &self.first, &mut self.core, value)
    }

    /// A step of the first log's worker.
    fn work_first(&mut self, left: u64) -> bool
        requires { Id.outputs ≡ 2 }
    {
        if left == 2 {
            restart(self.alloc, &mut self.first, &self.books, &mut self.core)
        } else {
            offer(self.alloc, &mut self.first, &mut self.books, &mut self.core)
        }
    }

    /// A step of the second log's worker.
    fn work_second(&mut self, left: u64) -> bool
        requires { Id.outputs ≡ 2 }
    {
        if left == 2 {
            restart(self.alloc, &mut self.second, &self.books, &mut self.core)
        } else {
            offer(
                self.alloc,
                &mut self.second,
                &mut self.books,
                &mut self.core,
            )
        }
    }

    /// An actor's step; whether the answers are the core's.
    fn act(&mut self, actor: Actor, left: u64) -> bool
        requires { Id.outputs ≡ 2 }
    {
        match actor {
            Actor::FirstProducer => self.append(left),
            Actor::SecondProducer => self.fill(left),
            Actor::Deployer => self.deploy(left),
            Actor::FirstWorker => self.work_first(left),
            Actor::SecondWorker => self.work_second(left),
        }
    }

    /// An actor's step; whether the answers and then the books are the core's.
    fn step(&mut self, actor: Actor, left: u64) -> bool
        requires { Id.outputs ≡ 2 }
    {
        self.act(actor, left) && are_core(&self.books, &self.core)
    }

    /// Takes the steps of an interleaving.
    fn take(&mut self, left: &mut Left) -> bool
        requires { Id.outputs ≡ 2 }
    {
        for _ in 0..15 {
            let Some((actor, steps)) = left.next() else {
                return false;
            };
            if !self.step(actor, steps) {
                return false;
            }
        }
        true
    }

    /// Marks the first version in the second log, takes the steps of an interleaving and then what is
    /// left.
    fn run(&mut self, number: u64) -> bool
        requires { Id.outputs ≡ 2 }
    {
        let mut left = Left {
            steps: [3; 5],
            ways: ALL,
            number,
        };
        self.deploy(1) && self.take(&mut left) && self.drain() && self.are_done()
    }

    /// Both workers take what is left.
    fn drain(&mut self) -> bool
        requires { Id.outputs ≡ 2 }
    {
        for _ in 0..2 * CELLS {
            if !self.step(Actor::FirstWorker, 1) || !self.step(Actor::SecondWorker, 1) {
                return false;
            }
        }
        true
    }

    /// Whether all items of both logs are done.
    fn are_done(&self) -> bool {
        is_done(self.rt, &self.first, &self.books) && is_done(self.rt, &self.second, &self.books)
    }
}

/// Takes an interleaving from empty logs; whether all answers and all books are the core's.
fn played<Id: Names, R: Wait>(
    rt: &R,
    alloc: Global,
    cells: (Cells, Cells),
    begun: (World, Desk<&R>),
    number: u64,
) -> bool
    requires first { cells.0 ≡ Id.cells 0 }
    requires second { cells.1 ≡ Id.cells 1 }
    requires inputs { Id.inputs ≡ 2 }
    requires outputs { Id.outputs ≡ 2 }
{
    let Some(books) = Pair::new(alloc) else {
        return false;
    };
    let (first, second) = cells;
    let (core, desk) = begun;
    let mut play: Play<Id, R> = Play {
        rt,
        alloc,
        first: Lane::new(0, first),
        second: Lane::new(1, second),
        books,
        desk,
        core,
    };
    play.run(number)
}

/// The core and the desk, with the first version.
fn begin<R: Wait>(rt: &R, alloc: Global) -> Option<(World, Desk<&R>)> {
    let Ok(mut core) = World::new(alloc, 2, 2, CELLS) else {
        return None;
    };
    match open(rt, alloc, &mut core) {
        Some(desk) => Some((core, desk)),
        None => None,
    }
}

/// The cells of both logs.
fn cells_of(alloc: Global) -> Option<(Cells, Cells)> {
    match (Cells::new(alloc, CELLS), Cells::new(alloc, CELLS)) {
        (Ok(first), Ok(second)) => Some((first, second)),
        _ => None,
    }
}

/// Takes the interleaving of a number.
fn is_right<R: Wait>(rt: &R, alloc: Global, number: u64) -> bool {
    match (cells_of(alloc), begin(rt, alloc)) {
        (Some(cells), Some(begun)) => {
            played::<Brand, R>(rt, alloc, cells, begun, number.wrapping_mul(SPREAD) % ALL)
        }
        _ => false,
    }
}

/// The first of so many numbers whose interleaving is not right.
fn first_wrong<R: Wait>(rt: &R, alloc: Global, first: u64, count: u64) -> Option<u64> {
    for turn in 0..count {
        let number = first.wrapping_add(turn);
        if !is_right(rt, alloc, number) {
            return Some(number);
        }
    }
    None
}

/// The first number that is taken, and how many.
fn numbers(text: &str) -> Option<(u64, u64)> {
    let (first, count) = text.split_once(' ')?;
    Some((first.parse().ok()?, count.parse().ok()?))
}

#[test]
fn interleavings_are_the_core_s(rt: HostRuntime) -> Result<(), Fail> {
    let (first, count) = match env::var(&rt, "SCHEDULES") {
        Ok(text) => numbers(text.as_str()).ok_or("SCHEDULES is two numbers")?,
        Err(_) => (0, SHORT),
    };
    let wrong = first_wrong(&rt, rt.alloc(), first, count);
    assert!(rt; wrong.is_none(), "interleaving {wrong:?}");
    Ok(())
}
