use crate::log_stage::{LogScene, LogStage, play_log};
use crate::play::{Scene, play};
use crate::stage::{Place, Stage, placed};
use broker::BrokerFault;
use broker_fixtures::program_of;
use catalogue::CatFault;
use fixtures::{FORWARD, batch_of};
use log_spec::Name;
use out_book::BookFault;
use part_log::{LogFault, Names};
use std::alloc::Global;
use std::rt::Clock;
use std::sync::Wait;
use std::test::*;
use std::thread::Threads;

#[test]
fn a_closed_log_takes_nothing(rt: HostRuntime) {
    play_log(&rt, rt.alloc(), 3, LogScene::Close);
}

/// What is appended.
#[derive(Clone, Copy)]
enum Entry {
    Mark,
    Records(usize),
    End,
}

static ENTRIES: [(Entry, Result<Place, LogFault>); 5] = [
    (Entry::Mark, Ok((0, 0, 0))),
    (Entry::Records(2), Ok((0, 1, 0))),
    (Entry::End, Ok((0, 2, 2))),
    (Entry::Records(1), Err(LogFault::Closed)),
    (Entry::End, Err(LogFault::Closed)),
];

impl<Id: Names + Send + Sync, R: Threads + Wait + Clock + Print + Sync> LogStage<'_, Id, R> {
    pub(crate) fn takes_until_closed(&self) -> bool {
        for (entry, want) in &ENTRIES {
            if self.answer(*entry) != *want {
                return false;
            }
        }
        true
    }

    fn answer(&self, entry: Entry) -> Result<Place, LogFault> {
        match entry {
            Entry::Mark => self.mark_forward(),
            Entry::Records(count) => self.enter(batch_of(self.alloc, count, 1000)),
            Entry::End => self.end(),
        }
    }

    fn mark_forward(&self) -> Result<Place, LogFault> {
        match (program_of(self.alloc, &FORWARD), Name::new("fwd")) {
            (Some(program), Some(name)) => {
                placed(self.log.mark(self.rt, self.alloc, name, 1, program))
            }
            _ => Err(LogFault::Memory),
        }
    }
}

#[test]
fn a_full_log_takes_nothing(rt: HostRuntime) {
    play(&rt, rt.alloc(), 1, 2, 1, Scene::Fill);
}

impl<Id: Names + Send + Sync, R: Threads + Wait + Clock + Print + Sync> Stage<'_, Id, R> {
    pub(crate) fn fill_one(&self) -> bool {
        self.has_counts() && self.takes_one() && self.refuses_all()
    }

    fn has_counts(&self) -> bool {
        self.broker.inputs() == 1 && self.broker.outputs() == 2 && self.broker.cells(0) == 1
    }

    /// A log of one cell takes one item.
    fn takes_one(&self) -> bool {
        self.first_records(0).is_none()
            && self.append(0, batch_of(self.alloc, 3, 1000)) == Ok((0, 0, 0))
            && self.first_records(0) == Some(3)
    }

    /// Where the one log is full, and where there is no log.
    fn refuses_all(&self) -> bool {
        self.refuses(0, BrokerFault::Log(LogFault::Full))
            && self.refuses(1, BrokerFault::Partition)
            && self.first_records(0) == Some(3)
            && matches!(self.broker.trail(self.rt, 1), Err(BrokerFault::Partition))
    }

    /// Whether a log refuses a batch and its end so.
    fn refuses(&self, input: usize, want: BrokerFault) -> bool {
        self.append(input, batch_of(self.alloc, 1, 1000)) == Err(want)
            && self.close(input) == Err(want)
    }

    /// How many records the first item of an input has, if it is there.
    fn first_records(&self, input: usize) -> Option<u64> {
        if input >= self.broker.inputs() {
            return None;
        }
        let _some = self.broker.cells(input);
        let mut note = self.broker.note(input, 0);
        let item = self.broker.read(input, 0, &mut note)?;
        Some(item.records())
    }
}

static TEXTS: [(BrokerFault, &str); 15] = [
    (BrokerFault::Partition, "P1 Partition"),
    (BrokerFault::NoProgram, "P2 NoProgram"),
    (BrokerFault::Memory, "P3 Memory"),
    (BrokerFault::Catalogue(CatFault::Name), "C1 Name"),
    (BrokerFault::Catalogue(CatFault::Full), "C2 Full"),
    (BrokerFault::Catalogue(CatFault::NoReader), "C4 NoReader"),
    (BrokerFault::Catalogue(CatFault::Versions), "C5 Versions"),
    (BrokerFault::Catalogue(CatFault::Memory), "C6 Memory"),
    (BrokerFault::Log(LogFault::Full), "L1 Full"),
    (BrokerFault::Log(LogFault::Closed), "L2 Closed"),
    (BrokerFault::Log(LogFault::Clash), "L3 Clash"),
    (BrokerFault::Log(LogFault::Memory), "L4 Memory"),
    (BrokerFault::Book(BookFault::Gap(2)), "O1 Gap expected 2"),
    (BrokerFault::Book(BookFault::Partition), "O2 Partition"),
    (BrokerFault::Book(BookFault::Memory), "O3 Memory"),
];

fn has_text(alloc: Global, fault: BrokerFault, want: &str) -> bool {
    match format!(in alloc; "{fault}") {
        Ok(text) => text.as_str() == want,
        Err(_) => false,
    }
}

fn have_texts(alloc: Global, rows: &[(BrokerFault, &str)]) -> bool {
    for (fault, want) in rows {
        if !has_text(alloc, *fault, want) {
            return false;
        }
    }
    true
}

#[test]
fn faults_have_their_texts(rt: HostRuntime) {
    assert!(rt; have_texts(rt.alloc(), &TEXTS));
}
