use crate::beside::both;
use crate::play::{Scene, play};
use crate::stage::Stage;
use bytes::Bytes;
use catalogue::{Finder, Known};
use fixtures::FORWARD;
use machine_spec::Table;
use part_log::Names;
use std::rt::Clock;
use std::sync::{Mutex, Wait};
use std::test::*;
use std::thread::Threads;
use std::{mem, thread};

const LOADS: usize = 250;

const TURNS: usize = 100_000_000;

/// What the loading thread handed over and the deploying one did not take yet.
type Published = Mutex<Vec<Known>>;

#[test]
fn deployments_are_never_older_than_known(rt: HostRuntime) {
    play(&rt, rt.alloc(), 1, 1, LOADS, Scene::Chase);
}

impl<Id: Names + Send + Sync, R: Threads + Wait + Clock + Print + Sync> Stage<'_, Id, R> {
    /// A thread deploys what another one loads.
    pub(crate) fn chase(&self) -> bool {
        let published = Mutex::new(Vec::new(self.alloc));
        self.is_chased(&published)
    }

    /// Whether all loads and all deployments were right.
    fn is_chased(&self, published: &Published) -> bool {
        let one = move |number: usize| -> bool {
            if number == 0 {
                self.load_all(published)
            } else {
                self.deploy_taken(published) == LOADS
            }
        };
        both(self.rt, self.alloc, &one)
    }

    /// Loads and hands over what is known then; whether each load had the version after the one before.
    fn load_all(&self, published: &Published) -> bool {
        match Bytes::copy_from_slice(self.alloc, &FORWARD) {
            Ok(image) => self.load_each(&image, published),
            Err(_) => false,
        }
    }

    fn load_each(&self, image: &Bytes, published: &Published) -> bool {
        for count in 0..LOADS {
            if self.hand_over(image, published) != Some(count.wrapping_add(1)) {
                return false;
            }
        }
        true
    }

    /// The version of a load, once it is handed over what is known then.
    fn hand_over(&self, image: &Bytes, published: &Published) -> Option<usize> {
        match self
            .broker
            .load(self.rt, self.alloc, "fwd", image, Table::One)
        {
            Ok((version, known)) => match published.lock(self.rt).push(known) {
                Ok(()) => Some(version as usize),
                Err(_) => None,
            },
            Err(_) => None,
        }
    }

    /// What was handed over and not taken yet.
    fn take(&self, published: &Published) -> Vec<Known> {
        mem::replace(&mut *published.lock(self.rt), Vec::new(self.alloc))
    }

    /// Deploys with all that is handed over; how many deployments were right.
    fn deploy_taken(&self, published: &Published) -> usize {
        match self.finder() {
            Ok(mut finder) => self.deploy_until_done(&mut finder, published),
            Err(_) => 0,
        }
    }

    fn deploy_until_done(&self, finder: &mut Finder, published: &Published) -> usize {
        let mut count = 0usize;
        let mut last = 0;
        for _ in 0..TURNS {
            let taken = self.take(published);
            if taken.is_empty() {
                thread::yield_now();
            }
            let Some(version) = self.deploy_each(finder, &taken, last) else {
                return 0;
            };
            last = version;
            count = count.wrapping_add(taken.len());
            if count >= LOADS {
                return count;
            }
        }
        count
    }

    /// The last version of these deployments; none where one was older than known or than the one
    /// before.
    fn deploy_each(&self, finder: &mut Finder, taken: &[Known], first: u32) -> Option<u32> {
        let mut last = first;
        for known in taken {
            match self.deploy_known(0, known.name(), finder, known) {
                Ok((_index, version)) if version >= known.version() && version >= last => {
                    last = version;
                }
                _ => return None,
            }
        }
        Some(last)
    }
}
