//! What tests do with a new broker.

ghost use Rattle.std.specs.Prelude.{◌≤◌};
ghost use Rattle.broker.specs.Layouts.{IsNamed};

use crate::memory::scenarios::Scenario;
use crate::schedules::Case;
use crate::stage::Stage;
use broker::{Broker, Parts};
use broker_fixtures::{Ending, new_broker};
use catalogue::Catalogue;
use log_spec::MAX_CELLS;
use part_log::Names;
use std::alloc::Global;
use std::marker::Brand;
use std::process::Abort;
use std::rt::Clock;
use std::sync::Wait;
use std::thread::Threads;

/// What is done with a broker.
#[derive(Clone, Copy)]
pub(crate) enum Scene {
    AuditBeside,
    AuditFive,
    Chase,
    Deploy,
    Faults,
    FetchMany,
    Fill,
    Follow,
    KeepOne,
    Late,
    LookUp,
    Pair,
    Pieces,
    /// Calls that are made again where memory was refused.
    Refused(Scenario),
    /// Of workers that are stopped and threads that meet.
    Schedule(Case),
    Share,
    Step,
    StepApart,
    Stopped,
    Wake,
}

impl<Id: Names + Send + Sync, R: Threads + Wait + Clock + Print + Sync> Stage<'_, Id, R> {
    /// Whether a scene comes out as it must.
    fn act(&self, scene: Scene) -> Result<(), Ending> {
        let is_right = match scene {
            Scene::AuditBeside => self.audit_beside(),
            Scene::AuditFive => self.audit_five(),
            Scene::Chase => self.chase(),
            Scene::Deploy => self.deploy_some(),
            Scene::Faults => self.meet_faults(),
            Scene::FetchMany => self.fetch_many(),
            Scene::Fill => self.fill_one(),
            Scene::Follow => self.follow(),
            Scene::KeepOne => self.keep_one_record(),
            Scene::Late => self.late(),
            Scene::LookUp => self.look_up(),
            Scene::Pair => self.pair(),
            Scene::Pieces => self.append_in_pieces(),
            Scene::Refused(scenario) => return self.refused(scenario),
            Scene::Schedule(case) => self.scheduled(case),
            Scene::Share => self.share(),
            Scene::Step => self.step_two(),
            Scene::StepApart => self.step_apart(),
            Scene::Stopped => self.stopped(),
            Scene::Wake => self.wake(),
        };
        if is_right {
            Ok(())
        } else {
            Err(Ending::Wrong("scene"))
        }
    }
}

fn act_anew<Id: Names + Send + Sync, R: Threads + Wait + Clock + Print + Sync>(
    rt: &R,
    alloc: Global,
    parts: Parts<Catalogue<&R>>,
    scene: Scene,
) -> Result<(), Ending>
    requires { IsNamed Id.cells Id.inputs Id.outputs parts }
{
    let broker: Broker<Id, Catalogue<&R>> = new_broker(alloc, parts)?;
    let stage = Stage { rt, alloc, broker };
    stage.act(scene)
}

/// Acts a scene with a new broker of so many input partitions, output partitions and cells of each log.
pub(crate) fn act_once<R: Threads + Wait + Clock + Print + Sync>(
    rt: &R,
    alloc: Global,
    inputs: usize,
    outputs: usize,
    cells: usize,
    scene: Scene,
) -> Result<(), Ending>
    requires inputs { (1 ≤ inputs) × (inputs ≤ 64) }
    requires outputs { (1 ≤ outputs) × (outputs ≤ 64) }
    requires cells { (1 ≤ cells) × (cells ≤ MAX_CELLS) }
{
    match Parts::new(rt, alloc, inputs, outputs, cells) {
        Ok(parts) => act_anew::<Brand, R>(rt, alloc, parts, scene),
        Err(_) => Err(Ending::NotMade),
    }
}

/// Acts a scene so, and once more where memory was refused for the broker.
pub(crate) fn play<R: Threads + Wait + Abort + Clock + Print + Sync>(
    rt: &R,
    alloc: Global,
    inputs: usize,
    outputs: usize,
    cells: usize,
    scene: Scene,
)
    requires inputs { (1 ≤ inputs) × (inputs ≤ 64) }
    requires outputs { (1 ≤ outputs) × (outputs ≤ 64) }
    requires cells { (1 ≤ cells) × (cells ≤ MAX_CELLS) }
{
    let ending = match act_once(rt, alloc, inputs, outputs, cells, scene) {
        Err(Ending::NotMade) => act_once(rt, alloc, inputs, outputs, cells, scene),
        ended => ended,
    };
    assert!(rt; ending == Ok(()), "{ending:?}");
}
