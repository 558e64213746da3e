use crate::play::{Scene, play};
use crate::stage::Stage;
use broker::BrokerFault;
use broker_fixtures::{NAME, load};
use catalogue::{CatFault, Catalogue, Finder, Known};
use fixtures::FORWARD;
use log_spec::Name;
use part_log::{Item, LogFault, Names};
use std::rt::Clock;
use std::sync::Wait;
use std::test::*;
use std::thread::Threads;

#[test]
fn a_deployment_is_a_mark(rt: HostRuntime) {
    play(&rt, rt.alloc(), 1, 1, 2, Scene::Deploy);
}

/// An input partition, a name, and where the mark of a deployment is and of which version, or why it is
/// refused.
type Row = (usize, &'static str, Result<(usize, u32), BrokerFault>);

/// After the first load, and after the second.
static FIRST: [Row; 1] = [(0, NAME, Ok((0, 1)))];

static SECOND: [Row; 1] = [(0, NAME, Ok((1, 2)))];

/// Of a full log, with a finder that reads.
static FULL: [Row; 3] = [
    (1, "other", Err(BrokerFault::Partition)),
    (0, "other", Err(BrokerFault::NoProgram)),
    (0, NAME, Err(BrokerFault::Log(LogFault::Full))),
];

/// The same with a finder of a catalogue that is gone.
static LOST: [Row; 3] = [
    (1, "other", Err(BrokerFault::Partition)),
    (0, "other", Err(BrokerFault::Catalogue(CatFault::NoReader))),
    (0, NAME, Err(BrokerFault::Catalogue(CatFault::NoReader))),
];

impl<Id: Names + Send + Sync, R: Threads + Wait + Clock + Print + Sync> Stage<'_, Id, R> {
    /// Each of two deployments is a mark of the version that was loaded last.
    pub(crate) fn deploy_some(&self) -> bool {
        match (self.load_one(1), self.finder()) {
            (Some(known), Ok(mut finder)) => self.deploy_all(&known, &mut finder),
            _ => false,
        }
    }

    fn deploy_all(&self, known: &Known, finder: &mut Finder) -> bool {
        self.deploys(known, finder, &FIRST)
            && self.load_one(2).is_some()
            && self.deploys(known, finder, &SECOND)
            && self.load_one(3).is_some()
            && self.mark_at(0) == Some(1)
            && self.mark_at(1) == Some(2)
            && self.deploys(known, finder, &FULL)
            && self.deploys_lost(known)
    }

    /// What is known after a load of the forwarding program, if this is the version.
    fn load_one(&self, want: u32) -> Option<Known> {
        match load(self.rt, self.alloc, &self.broker, &FORWARD) {
            Some((version, known)) if version == want && known.version() == want => Some(known),
            _ => None,
        }
    }

    /// Whether the deployments answer this.
    fn deploys(&self, known: &Known, finder: &mut Finder, rows: &[Row]) -> bool {
        for (input, name, want) in rows {
            let answer = match Name::new(name) {
                Some(name) => self.deploy_known(*input, &name, finder, known),
                None => return false,
            };
            if answer != *want {
                return false;
            }
        }
        true
    }

    /// The same with a finder of a catalogue that is gone.
    fn deploys_lost(&self, known: &Known) -> bool {
        match self.lost_finder() {
            Ok(mut finder) => self.deploys(known, &mut finder, &LOST),
            Err(_) => false,
        }
    }

    fn lost_finder(&self) -> Result<Finder, CatFault> {
        let Ok(catalogue) = Catalogue::new(self.rt, self.alloc) else {
            return Err(CatFault::Memory);
        };
        catalogue.reader(self.alloc)
    }

    /// The version of a mark of the first input partition.
    fn mark_at(&self, index: usize) -> Option<u32> {
        let _some = self.broker.inputs();
        if index >= self.broker.cells(0) {
            return None;
        }
        let mut note = self.broker.note(0, index);
        match self.broker.read(0, index, &mut note)? {
            Item::Mark { version, .. } => Some(*version),
            Item::Batch(_) => None,
            Item::End => None,
        }
    }
}
