ghost use Rattle.std.specs.Prelude.{◌≡◌, ◌<◌, ◌≤◌, length, IfOk};
ghost use Rattle.worker.specs.Processed.{IsOfLast};

use crate::delivery::Delivery;
use crate::results::Results;
use crate::walk::Walk;
use item_rows::{Blocks, Origin, item_rows_in, output_rows};
use part_log::{Names, PartLog};
use std::alloc::{AllocError, Global};

/// The rows of a walk's last item for each output partition, and the counts of its records, by the program
/// in force for the item. Each record is run once, which no clause says. It fails only where memory runs
/// out.
pub fn process<Id: Names>(
    alloc: Global,
    walk: &Walk<Id>,
    log: &PartLog<Id>,
    outputs: usize,
) -> Result<Results<Id>, AllocError>
    requires partition { walk.now.partition ≡ log.now }
    requires input { walk.now.partition < 64 }
    requires item { 0 < length walk.now.items }
    requires outputs { outputs ≡ Id.outputs }
    requires some { 1 ≤ outputs }
    requires few { outputs ≤ 64 }
    ensures { IfOk result (λ results. results.walk ≡ walk.now) }
{
    process_in(&mut Blocks::new(alloc), walk, log, outputs)
}

/// The same, in blocks that are used again.
pub fn process_in<Id: Names>(
    blocks: &mut Blocks,
    walk: &Walk<Id>,
    log: &PartLog<Id>,
    outputs: usize,
) -> Result<Results<Id>, AllocError>
    requires partition { walk.now.partition ≡ log.now }
    requires input { walk.now.partition < 64 }
    requires item { 0 < length walk.now.items }
    requires outputs { outputs ≡ Id.outputs }
    requires some { 1 ≤ outputs }
    requires few { outputs ≤ 64 }
    ensures { IfOk result (λ results. results.walk ≡ walk.now) }
{
    let _most = log.cells();
    let item = log.item(walk.trail(), walk.len() - 1);
    let origin = Origin {
        input: walk.partition(),
        offset: walk.base(),
        outputs,
    };
    let rows = item_rows_in(blocks, &origin, walk.program(log), item)?;
    Ok(Results::new(walk.trail().again(), rows))
}

/// The rows of a walk's last item for one output partition alone, and the counts of its records, by the
/// program in force for the item. Each record is run once, which no clause says. It fails only where memory
/// runs out.
pub fn process_for<Id: Names>(
    alloc: Global,
    walk: &Walk<Id>,
    log: &PartLog<Id>,
    outputs: usize,
    output: usize,
) -> Result<Delivery<Id>, AllocError>
    requires partition { walk.now.partition ≡ log.now }
    requires input { walk.now.partition < 64 }
    requires item { 0 < length walk.now.items }
    requires outputs { outputs ≡ Id.outputs }
    requires few { outputs ≤ 64 }
    requires output { output < outputs }
    ensures { IfOk result (λ delivery. (delivery.walk ≡ walk.now) × (delivery.output ≡ output) × IsOfLast Id.outputs delivery) }
{
    let _most = log.cells();
    let item = log.item(walk.trail(), walk.len() - 1);
    let origin = Origin {
        input: walk.partition(),
        offset: walk.base(),
        outputs,
    };
    let made = output_rows(alloc, &origin, walk.program(log), item, output)?;
    Ok(Delivery::new(walk.trail().again(), output, made.rows, made.counts))
}
