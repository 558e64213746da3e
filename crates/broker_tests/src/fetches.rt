use crate::play::{Scene, play};
use crate::stage::Stage;
use broker::{Ended, Until};
use fixtures::{FORWARD, batch_with};
use part_log::Names;
use std::rt::Clock;
use std::sync::Wait;
use std::test::*;
use std::thread::Threads;
use worker::Open;

/// A place and a number of rows, and the bytes and the records of the batch that is fetched.
type Size = (usize, usize, (usize, usize));

#[test]
fn a_batch_takes_as_many_rows_as_it_may(rt: HostRuntime) {
    play(&rt, rt.alloc(), 1, 1, 32, Scene::FetchMany);
}

/// How often a batch is appended, and how many records it has; or of one record, the bytes of its value.
type Batches = (usize, usize, usize);

static BATCHES: [Batches; 4] = [
    (16, 1, 65_536),
    (1, 10_000, 0),
    (1, 1, 0),
    (4, 1, 1_048_576),
];

/// Ten thousand rows are as many as a batch may have, and three of 1,048,576 bytes.
static LIMITS: [Size; 6] = [
    (0, 16, (1_048_813, 16)),
    (15, 1, (65_608, 1)),
    (16, 20_000, (81_805, 10_000)),
    (10_016, 1, (68, 1)),
    (10_017, 4, (3_145_828, 3)),
    (10_020, 4, (1_048_650, 1)),
];

/// How the worker ends.
static MANY_ENDS: [Ended; 1] = [Ended::Done(23)];

impl<Id: Names + Send + Sync, R: Threads + Wait + Clock + Print + Sync> Stage<'_, Id, R> {
    pub(crate) fn fetch_many(&self) -> bool {
        self.deploy(0, &FORWARD) == Some(0)
            && self.append_all(&BATCHES)
            && self.ends(Until::Drained, &Open, &MANY_ENDS)
            && self.have_sizes(&LIMITS)
    }

    /// Appends these batches; whether it could.
    fn append_all(&self, rows: &[Batches]) -> bool {
        for (times, count, bytes) in rows {
            if !self.append_times(*times, *count, *bytes) {
                return false;
            }
        }
        true
    }

    /// Appends a batch so often; whether it could.
    fn append_times(&self, times: usize, count: usize, bytes: usize) -> bool {
        for _ in 0..times {
            if self
                .append(0, batch_with(self.alloc, count, bytes))
                .is_err()
            {
                return false;
            }
        }
        true
    }

    /// Whether the batches that are fetched from output 0 have these sizes.
    fn have_sizes(&self, rows: &[Size]) -> bool {
        for (place, max, want) in rows {
            if self.sizes(*place, *max) != Some(*want) {
                return false;
            }
        }
        true
    }
}
