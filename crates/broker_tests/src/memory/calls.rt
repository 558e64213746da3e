//! The calls of a broker that append and load, each made again where memory was refused. None says
//! that something was wrong.

use crate::memory::making::{batch, image, say};
use crate::stage::{Place, Stage};
use broker::BrokerFault;
use broker_fixtures::NAME;
use bytes::Bytes;
use catalogue::{CatFault, Finder, Known};
use machine_spec::Table;
use part_log::{LogFault, Names};
use std::rt::Clock;
use std::sync::Wait;
use std::thread::Threads;

const C6: BrokerFault = BrokerFault::Catalogue(CatFault::Memory);

const L4: BrokerFault = BrokerFault::Log(LogFault::Memory);

fn find_once(finder: &mut Finder, known: &Known) -> Result<Option<u32>, CatFault> {
    match finder.find(known.name(), known) {
        Ok(Some((version, _program))) => Ok(Some(version)),
        Ok(None) => Ok(None),
        Err(fault) => Err(fault),
    }
}

/// The version that is found.
pub(crate) fn find<R: Print>(rt: &R, finder: &mut Finder, known: &Known) -> Option<u32> {
    match find_once(finder, known) {
        Ok(found) => found,
        Err(fault) => {
            say(rt, "find", BrokerFault::Catalogue(fault));
            if fault != CatFault::Memory {
                return None;
            }
            find_once(finder, known).ok()?
        }
    }
}

fn is_among(faults: &[BrokerFault], fault: BrokerFault) -> bool {
    for it in faults {
        if *it == fault {
            return true;
        }
    }
    false
}

impl<Id: Names + Send + Sync, R: Threads + Wait + Clock + Print + Sync> Stage<'_, Id, R> {
    /// A finder; want of memory for it is a want of readers too.
    pub(crate) fn finder_twice(&self) -> Option<Finder> {
        for _ in 0..2 {
            match self.finder() {
                Ok(finder) => return Some(finder),
                Err(fault) => {
                    say(self.rt, "finder", fault);
                    if fault != BrokerFault::Catalogue(CatFault::NoReader) {
                        return None;
                    }
                }
            }
        }
        None
    }

    /// What is known after a load, if it is of the version that the load returns.
    fn load_image(&self, image: &Bytes) -> Result<Option<Known>, BrokerFault> {
        match self
            .broker
            .load(self.rt, self.alloc, NAME, image, Table::One)
        {
            Ok((version, known)) if known.version() == version => Ok(Some(known)),
            Ok(_) => Ok(None),
            Err(fault) => Err(fault),
        }
    }

    /// What is known after a load, or after the one that follows a refused one.
    fn load_image_twice(&self, image: &Bytes, before: Option<&Known>) -> Option<Known> {
        for _ in 0..2 {
            match self.load_image(image) {
                Ok(known) => return known,
                Err(fault) => {
                    say(self.rt, "load", fault);
                    if fault != C6 || !self.is_newest(before) {
                        return None;
                    }
                }
            }
        }
        None
    }

    /// What is known after a load, which has the version after the one that was known before.
    pub(crate) fn load_twice(&self, before: Option<&Known>) -> Option<Known> {
        let want = match before {
            None => 1,
            Some(known) => known.version().wrapping_add(1),
        };
        let Some(image) = image(self.alloc) else {
            return None;
        };
        match self.load_image_twice(&image, before) {
            Some(known) if known.version() == want => Some(known),
            _ => None,
        }
    }

    /// Whether a new finder finds what was known, and no later version.
    fn is_newest(&self, known: Option<&Known>) -> bool {
        let Some(known) = known else {
            return true;
        };
        match self.finder() {
            Ok(mut finder) => find_once(&mut finder, known) == Ok(Some(known.version())),
            Err(_) => false,
        }
    }

    /// Whether a call that can only be refused so was, and the log has the items that it had before.
    fn is_refused(
        &self,
        call: &str,
        fault: BrokerFault,
        faults: &[BrokerFault],
        before: usize,
    ) -> bool {
        say(self.rt, call, fault);
        is_among(faults, fault) && self.items() == Some(before)
    }

    /// The index of the mark, and its version.
    pub(crate) fn deploy_twice(&self, finder: &mut Finder, known: &Known) -> Option<(usize, u32)> {
        let before = self.items()?;
        for _ in 0..2 {
            match self.deploy_known(0, known.name(), finder, known) {
                Ok(deployed) => return Some(deployed),
                Err(fault) if self.is_refused("deploy", fault, &[C6, L4], before) => {}
                Err(_) => return None,
            }
        }
        None
    }

    /// Appends a batch of two records of this value.
    pub(crate) fn append_twice(&self, value: u8) -> Option<Place> {
        let before = self.items()?;
        for _ in 0..2 {
            match self.append(0, batch(self.alloc, value)) {
                Ok(place) => return Some(place),
                Err(fault) if self.is_refused("append", fault, &[L4], before) => {}
                Err(_) => return None,
            }
        }
        None
    }

    pub(crate) fn close_twice(&self) -> Option<Place> {
        let before = self.items()?;
        for _ in 0..2 {
            match self.close(0) {
                Ok(place) => return Some(place),
                Err(fault) if self.is_refused("close", fault, &[L4], before) => {}
                Err(_) => return None,
            }
        }
        None
    }

    /// Deploys a first program and appends the batches `A` and `B` after its mark; whether it could.
    pub(crate) fn fill_twice(&self) -> bool {
        match (self.load_twice(None), self.finder_twice()) {
            (Some(known), Some(mut finder)) => self.fill_by(&mut finder, &known),
            _ => false,
        }
    }

    fn fill_by(&self, finder: &mut Finder, known: &Known) -> bool {
        self.deploy_twice(finder, known) == Some((0, 1))
            && self.append_twice(b'A') == Some((0, 1, 0))
            && self.append_twice(b'B') == Some((0, 2, 2))
    }
}
