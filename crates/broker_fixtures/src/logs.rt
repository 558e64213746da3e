//! Logs and walks without a broker.

ghost use Rattle.std.specs.Prelude.{◌≡◌, ◌≤◌, IfSome, Ok, length};
ghost use Rattle.std.specs.Arc.{arc_value};
ghost use Rattle.log_spec.specs.Logs.{records_among};
ghost use Rattle.log_item.specs.Programs.{ProgramIs};
ghost use Rattle.machine_spec.specs.Image.{program_of};
ghost use Rattle.machine_spec.specs.declared.helper.Table.TheVariants as table;
ghost use Rattle.broker_fixtures.specs.Advances.{Advances};

use bytes::Bytes;
use machine_spec::Table;
use part_log::{Names, PartLog, Program, Receipt};
use std::alloc::Global;
use std::sync::Arc;
use worker::{Results, Walk, process};

/// Where an item is: its partition, its index, and how many records are before it.
pub fn place_of<Id: Names>(receipt: &Receipt<Id>) -> (usize, usize, u64)
    ensures partition { result.0 ≡ receipt.now.before.partition }
    ensures index { result.1 ≡ length receipt.now.before.items }
    ensures base { result.2 ≡ records_among receipt.now.before.items }
{
    (receipt.partition(), receipt.index(), receipt.base())
}

/// The program of an image and helper table one. None where the image is refused or memory ran out.
pub fn program_of(alloc: Global, image: &[u8]) -> Option<Arc<Program>>
    ensures { IfSome result (λ program. ProgramIs (program_of image.now table.One) (Ok (arc_value program))) }
{
    match Bytes::copy_from_slice(alloc, image) {
        Ok(image) => program_in(alloc, &image),
        Err(_) => None,
    }
}

fn program_in(alloc: Global, image: &Bytes) -> Option<Arc<Program>>
    ensures { IfSome result (λ program. ProgramIs (program_of image.now table.One) (Ok (arc_value program))) }
{
    match Program::new(alloc, image, Table::One) {
        Ok(program) => Arc::new(alloc, program).ok(),
        Err(_) => None,
    }
}

/// Makes the next item the walk's last one; whether it is there. The walk is as it was where it isn't,
/// or the log is of another partition.
#[tactic(auto, using(crate::proofs::Advancing::advances))]
pub fn advance<Id: Names>(log: &PartLog<Id>, walk: &mut Walk<Id>) -> bool
    ensures { Advances walk.old result walk.new }
{
    if walk.partition() != log.partition() || walk.len() >= log.cells() {
        return false;
    }
    let mut note = log.note(walk.len());
    walk.next(log, &mut note)
}

/// The rows of a walk's last item. None where it has no item, the log is of another partition, or memory
/// ran out.
pub fn results_of<Id: Names>(
    alloc: Global,
    walk: &Walk<Id>,
    log: &PartLog<Id>,
    outputs: usize,
) -> Option<Results<Id>>
    requires outputs { outputs ≡ Id.outputs }
    requires some { 1 ≤ outputs }
    requires few { outputs ≤ 64 }
    ensures { IfSome result (λ results. results.walk ≡ walk.now) }
{
    if walk.partition() != log.partition() || walk.partition() >= 64 || walk.is_empty() {
        return None;
    }
    process(alloc, walk, log, outputs).ok()
}
