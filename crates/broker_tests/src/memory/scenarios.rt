//! What is done with a broker of one input partition. Each begins again with a new broker where memory was
//! refused for the first.

use crate::play::{Scene, play};
use crate::stage::Stage;
use broker_fixtures::Ending;
use part_log::Names;
use std::rt::Clock;
use std::sync::Wait;
use std::test::*;
use std::thread::Threads;

/// What is done.
#[derive(Clone, Copy)]
pub(crate) enum Scenario {
    Calls,
    Report,
    Start,
    Steps,
    Stream,
}

impl<Id: Names + Send + Sync, R: Threads + Wait + Clock + Print + Sync> Stage<'_, Id, R> {
    pub(crate) fn refused(&self, scenario: Scenario) -> Result<(), Ending> {
        match scenario {
            Scenario::Calls => self.call_all(),
            Scenario::Report => self.report_all(),
            Scenario::Start => self.start_all(),
            Scenario::Steps => self.step_all_twice(),
            Scenario::Stream => self.stream_all(),
        }
    }
}

#[test]
fn a_refused_append_can_be_made_again(rt: HostRuntime) {
    play(&rt, rt.alloc(), 1, 2, 4, Scene::Refused(Scenario::Calls));
}

#[test]
fn a_refused_report_can_be_made_again(rt: HostRuntime) {
    play(&rt, rt.alloc(), 1, 1, 4, Scene::Refused(Scenario::Report));
}

#[test]
fn a_refused_start_can_be_made_again(rt: HostRuntime) {
    play(&rt, rt.alloc(), 1, 2, 4, Scene::Refused(Scenario::Start));
}

#[test]
fn a_refused_step_can_be_made_again(rt: HostRuntime) {
    play(&rt, rt.alloc(), 1, 2, 4, Scene::Refused(Scenario::Steps));
}

#[test]
fn a_refused_stream_can_be_made_again(rt: HostRuntime) {
    play(&rt, rt.alloc(), 1, 2, 4, Scene::Refused(Scenario::Stream));
}
