ghost use Rattle.std.specs.Prelude.{◌≡◌, true};
ghost use Rattle.out_book.specs.Books.{done_of};

use crate::books::Held;
use crate::play::{Scene, play};
use crate::stage::Stage;
use broker::Stepped;
use broker_fixtures::audited;
use fixtures::FORWARD;
use out_book::Book;
use part_log::{Names, Note, Receipt};
use std::rt::Clock;
use std::sync::Wait;
use std::test::*;
use std::thread::Threads;

#[test]
fn a_step_adds_the_rows_of_a_program(rt: HostRuntime) {
    play(&rt, rt.alloc(), 1, 2, 8, Scene::Step);
}

/// What the book of output 0 holds after its first steps, and after one more.
static FIRST: [Held<'static>; 1] = [(0, 0, 2, &[(0, 0, Some(b'v'))])];

static MORE: [Held<'static>; 1] = [(0, 0, 3, &[(0, 0, Some(b'v')), (1, 0, Some(b'w'))])];

/// What the first steps of output 0 answer.
static STEPS: [Stepped; 3] = [Stepped::Added(0), Stepped::Added(1), Stepped::Nothing];

impl<Id: Names + Send + Sync, R: Threads + Wait + Clock + Print + Sync> Stage<'_, Id, R> {
    pub(crate) fn step_two(&self) -> bool {
        self.deploy(0, &FORWARD) == Some(0)
            && self.is_stepped()
            && self.hold(&FIRST)
            && self.steps_again()
            && self.hold(&MORE)
    }

    /// Appends a record and steps; whether its receipt has a row then.
    fn is_stepped(&self) -> bool {
        match self.put(0, b'v') {
            Some(receipt) => self.is_audited(&receipt),
            None => false,
        }
    }

    /// Steps of output 0, after which a receipt has a row there, and none in output 1.
    fn is_audited(&self, receipt: &Receipt<Id>) -> bool {
        self.rows_of(0, receipt).is_none()
            && self.steps(0, &STEPS)
            && self.rows_of(0, receipt) == Some(1)
            && self.rows_of(1, receipt).is_none()
    }

    /// How many rows an audit of a receipt finds in an output partition; none where it is not done.
    fn rows_of(&self, output: usize, receipt: &Receipt<Id>) -> Option<usize> {
        audited(self.rt, &self.broker, output, receipt)
    }

    /// Whether a step of output 0 finds nothing, and with the same note another one a record that
    /// came then.
    fn steps_again(&self) -> bool {
        match self.book(0) {
            Some(mut guard) => self.steps_late(&mut *guard),
            None => false,
        }
    }

    fn steps_late(&self, book: &mut Book<Id>) -> bool {
        let _some = self.broker.inputs();
        let done = book.done(0);
        if done >= self.broker.cells(0) {
            return false;
        }
        let mut note = self.broker.note(0, done);
        self.finds_nothing(book, &mut note)
            && self.puts(0, b'w')
            && self.broker.step(self.alloc, book, 0, &mut note) == Ok(Stepped::Added(1))
    }

    /// Whether a step finds nothing. The book and the note are then as they were.
    fn finds_nothing(&self, book: &mut Book<Id>, note: &mut Note<Id>) -> bool
        requires partition { note.old.partition ≡ 0 }
        requires index { note.old.index ≡ done_of book.old.logs 0 }
        ensures book { result ≡ true → book.new ≡ book.old }
        ensures note { result ≡ true → note.new ≡ note.old }
    {
        match self.broker.step(self.alloc, book, 0, note) {
            Ok(Stepped::Nothing) => true,
            _ => false,
        }
    }
}
