//! Loads, finds, deployments and appends.

use crate::memory::calls::find;
use crate::stage::Stage;
use broker_fixtures::Ending;
use catalogue::{Finder, Known};
use part_log::Names;
use std::rt::Clock;
use std::sync::Wait;
use std::thread::Threads;

impl<Id: Names + Send + Sync, R: Threads + Wait + Clock + Print + Sync> Stage<'_, Id, R> {
    /// A load and another one, a deployment, an append and the end of the log.
    pub(crate) fn call_all(&self) -> Result<(), Ending> {
        self.program_calls()?;
        if self.append_twice(b'A') != Some((0, 1, 0)) {
            return Err(Ending::Wrong("append"));
        }
        if self.close_twice() != Some((0, 2, 2)) {
            return Err(Ending::Wrong("close"));
        }
        if self.items() != Some(3) {
            return Err(Ending::Wrong("trail"));
        }
        Ok(())
    }

    /// Two loads, with a find after each, and a deployment of the second by another finder.
    fn program_calls(&self) -> Result<(), Ending> {
        match (self.finder_twice(), self.finder_twice()) {
            (Some(mut first), Some(mut second)) => self.calls_by(&mut first, &mut second),
            _ => Err(Ending::Wrong("finder")),
        }
    }

    fn calls_by(&self, first: &mut Finder, second: &mut Finder) -> Result<(), Ending> {
        let Some(known) = self.load_twice(None) else {
            return Err(Ending::Wrong("load"));
        };
        self.load_again(first, &known)?;
        if self.deploy_twice(second, &known) == Some((0, 2)) {
            Ok(())
        } else {
            Err(Ending::Wrong("deploy"))
        }
    }

    /// A find of what is known, another load, and a find of it.
    fn load_again(&self, finder: &mut Finder, known: &Known) -> Result<(), Ending> {
        if find(self.rt, finder, known) != Some(1) {
            return Err(Ending::Wrong("find"));
        }
        if self.load_twice(Some(known)).is_none() {
            return Err(Ending::Wrong("load again"));
        }
        if find(self.rt, finder, known) == Some(2) {
            Ok(())
        } else {
            Err(Ending::Wrong("find again"))
        }
    }
}
