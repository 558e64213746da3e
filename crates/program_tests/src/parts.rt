//! What is asked of the parts of an instruction.

use machine_spec::{Direction, Distance, Operation, Region, Size, Width};
use std::test::*;

static SIZES: [(Size, u8); 2] = [(Size::Half, 2), (Size::Double, 8)];

static DISTANCES: [(Distance, i32); 2] = [
    (Distance::Short(-1), -1),
    (Distance::Long(70_000), 70_000),
];

/// Operations at a width, and whether they move an address.
static MOVES: [(Operation, Width, bool); 3] = [
    (Operation::Add, Width::Bits64, true),
    (Operation::Add, Width::Bits32, false),
    (Operation::Mul, Width::Bits64, false),
];

fn sizes_count(rows: &[(Size, u8)]) -> bool {
    for (size, want) in rows {
        if size.byte_count() != *want {
            return false;
        }
    }
    true
}

fn distances_span(rows: &[(Distance, i32)]) -> bool {
    for (distance, want) in rows {
        if distance.slots() != *want {
            return false;
        }
    }
    true
}

fn operations_move(rows: &[(Operation, Width, bool)]) -> bool {
    for (operation, width, want) in rows {
        if operation.moves_address(*width) != *want {
            return false;
        }
    }
    true
}

/// Regions, directions and operations, each with one that is otherwise.
fn are_told_apart() -> bool {
    Region::Stack.is_stack()
        && !Region::Key.is_stack()
        && Direction::Read.is_read()
        && !Direction::Write.is_read()
        && Operation::Sub.is_subtraction()
        && !Operation::Add.is_subtraction()
}

#[test]
fn sizes_and_distances(rt: HostRuntime) {
    assert!(rt; sizes_count(&SIZES) && distances_span(&DISTANCES));
    assert!(rt; operations_move(&MOVES) && are_told_apart());
}
