ghost use Rattle.std.specs.Prelude.{◌≡◌};

use crate::stage::{Place, placed};
use fixtures::batch_of;
use part_log::{Cells, Head, LogFault, Names, PartCells};
use std::alloc::Global;
use std::marker::Brand;
use std::test::*;

#[test]
fn a_clash_comes_before_closed_before_full(rt: HostRuntime) {
    let alloc = rt.alloc();
    let is_right = match (Cells::new(alloc, 1), Cells::new(alloc, 1)) {
        (Ok(first), Ok(second)) => refuse_all::<Brand>(alloc, first, second),
        _ => false,
    };
    assert!(rt; is_right);
}

fn refuse_all<Id: Names>(alloc: Global, first: Cells, second: Cells) -> bool
    requires first { first ≡ Id.cells 0 }
    requires second { second ≡ Id.cells 1 }
{
    let own: PartCells<Id> = PartCells::new(0, first);
    let others: PartCells<Id> = PartCells::new(1, second);
    close_one(alloc, &own, &others) && append_late(alloc, &own)
}

/// Where a batch of one record is.
fn append<Id: Names>(
    alloc: Global,
    head: &mut Head<Id>,
    cells: &PartCells<Id>,
) -> Result<Place, LogFault> {
    match batch_of(alloc, 1, 1000) {
        Some(batch) => placed(head.append(alloc, cells, batch)),
        None => Err(LogFault::Memory),
    }
}

/// A log of one cell that is closed, and so full too: its end is appended again at the cells of
/// another partition and at its own.
fn close_one<Id: Names>(alloc: Global, own: &PartCells<Id>, others: &PartCells<Id>) -> bool {
    let mut head = Head::new(0);
    placed(head.close(alloc, own)) == Ok((0, 0, 0))
        && placed(head.close(alloc, others)) == Err(LogFault::Clash)
        && placed(head.close(alloc, own)) == Err(LogFault::Closed)
        && head.trail().len() == 1
}

/// A head that has no item yet finds its first cell set.
fn append_late<Id: Names>(alloc: Global, own: &PartCells<Id>) -> bool {
    let mut late = Head::new(0);
    append(alloc, &mut late, own) == Err(LogFault::Clash) && late.trail().len() == 0
}
