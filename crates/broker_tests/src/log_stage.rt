//! A new log without a broker, and what tests do with it.

ghost use Rattle.std.specs.Prelude.{◌≡◌, ◌≤◌, IfSome};
ghost use Rattle.log_spec.specs.Logs.{FitsLog};

use crate::stage::{Place, placed};
use broker_fixtures::Ending;
use log_spec::MAX_CELLS;
use part_log::{Cells, LogFault, Names, PartLog};
use std::alloc::Global;
use std::marker::Brand;
use std::process::Abort;
use std::rt::Clock;
use std::sync::Wait;
use std::thread::Threads;
use wire_spec::Batch;

/// How many output partitions there are.
pub(crate) const OUTPUTS: usize = 2;

/// The log of the one input partition, and what calls on it take.
#[derive(Drop)]
pub(crate) struct LogStage<'a, Id: Names, R> {
    pub(crate) rt: &'a R,
    pub(crate) alloc: Global,
    pub(crate) log: PartLog<Id>,
}

/// What is done with a log.
#[derive(Clone, Copy)]
pub(crate) enum LogScene {
    Close,
    Deliver,
    Offer,
    WaitFor,
}

impl<Id: Names + Send + Sync, R: Threads + Wait + Clock + Print + Sync> LogStage<'_, Id, R> {
    /// Where a batch is that the log takes. `Memory` where there is no batch.
    pub(crate) fn enter(&self, batch: Option<Batch>) -> Result<Place, LogFault>
        requires { IfSome batch (λ batch. FitsLog batch) }
    {
        match batch {
            Some(batch) => placed(self.log.append(self.rt, self.alloc, batch)),
            None => Err(LogFault::Memory),
        }
    }

    /// Where the end of the log is.
    pub(crate) fn end(&self) -> Result<Place, LogFault> {
        placed(self.log.close(self.rt, self.alloc))
    }

    /// Whether a scene comes out as it must.
    fn act(&self, scene: LogScene) -> Result<(), Ending>
        requires inputs { Id.inputs ≡ 1 }
        requires outputs { Id.outputs ≡ 2 }
    {
        let is_right = match scene {
            LogScene::Close => self.takes_until_closed(),
            LogScene::Deliver => return self.deliver_all(),
            LogScene::Offer => self.offer_three(),
            LogScene::WaitFor => self.wait_for_both(),
        };
        if is_right {
            Ok(())
        } else {
            Err(Ending::Wrong("scene"))
        }
    }
}

fn act_anew<Id: Names + Send + Sync, R: Threads + Wait + Clock + Print + Sync>(
    rt: &R,
    alloc: Global,
    cells: Cells,
    scene: LogScene,
) -> Result<(), Ending>
    requires cells { cells ≡ Id.cells 0 }
    requires inputs { Id.inputs ≡ 1 }
    requires outputs { Id.outputs ≡ 2 }
{
    let log: PartLog<Id> = PartLog::new(0, cells);
    let stage = LogStage { rt, alloc, log };
    stage.act(scene)
}

/// Acts a scene with a new log of so many cells.
fn act_once<R: Threads + Wait + Clock + Print + Sync>(
    rt: &R,
    alloc: Global,
    cells: usize,
    scene: LogScene,
) -> Result<(), Ending>
    requires { (1 ≤ cells) × (cells ≤ MAX_CELLS) }
{
    match Cells::new(alloc, cells) {
        Ok(cells) => act_anew::<Brand, R>(rt, alloc, cells, scene),
        Err(_) => Err(Ending::NotMade),
    }
}

/// Acts a scene so, and once more where memory was refused for the log.
pub(crate) fn play_log<R: Threads + Wait + Abort + Clock + Print + Sync>(
    rt: &R,
    alloc: Global,
    cells: usize,
    scene: LogScene,
)
    requires { (1 ≤ cells) × (cells ≤ MAX_CELLS) }
{
    let ending = match act_once(rt, alloc, cells, scene) {
        Err(Ending::NotMade) => act_once(rt, alloc, cells, scene),
        ended => ended,
    };
    assert!(rt; ending == Ok(()), "{ending:?}");
}
