//! What is asked of the helper that a program calls.

use machine_spec::{Argument, Helper, Instruction, Summary, Table};
use std::test::*;

static NUMBERS: [(i32, Option<Helper>); 15] = [
    (3, Some(Helper::EmitRecord)),
    (99, None),
    (-3, None),
    (7, Some(Helper::Offset)),
    (1, Some(Helper::LoadValue)),
    (2, Some(Helper::LoadKey)),
    (0, None),
    (10, Some(Helper::HeaderCount)),
    (12, Some(Helper::HeaderValue)),
    (13, Some(Helper::PartLength)),
    (21, Some(Helper::EmitChanged)),
    (22, Some(Helper::AddHeader)),
    (23, None),
    (4, Some(Helper::EmitValue)),
    (5, Some(Helper::Emit)),
];

/// Tables, numbers and the helpers that they name there.
static TABLES: [(Table, i32, Option<Helper>); 12] = [
    (Table::One, 9, Some(Helper::Partition)),
    (Table::One, 10, None),
    (Table::One, 12, None),
    (Table::Two, 1, Some(Helper::LoadValue)),
    (Table::Two, 11, Some(Helper::HeaderKey)),
    (Table::Two, 13, None),
    (Table::Two, 21, None),
    (Table::Three, 1, Some(Helper::LoadValue)),
    (Table::Three, 20, Some(Helper::EmitPart)),
    (Table::Two, 22, None),
    (Table::Three, 22, Some(Helper::AddHeader)),
    (Table::Three, 23, None),
];

/// Helpers, and an argument of each by its place.
static ARGUMENTS: [(Helper, usize, Argument); 20] = [
    (Helper::EmitRecord, 0, Argument::Number(1)),
    (Helper::Partition, 0, Argument::Nothing),
    (Helper::LoadKey, 0, Argument::Room(1, 3)),
    (Helper::LoadKey, 1, Argument::Number(2)),
    (Helper::EmitValue, 1, Argument::Bytes(2, 3)),
    (Helper::EmitValue, 2, Argument::Nothing),
    (Helper::Emit, 2, Argument::Bytes(4, 5)),
    (Helper::HeaderCount, 0, Argument::Nothing),
    (Helper::HeaderValue, 0, Argument::Room(1, 3)),
    (Helper::Emit, 3, Argument::Nothing),
    (Helper::PartLength, 0, Argument::Number(1)),
    (Helper::LoadPart, 0, Argument::Room(1, 3)),
    (Helper::LoadPart, 2, Argument::Number(4)),
    (Helper::Find, 2, Argument::Bytes(3, 4)),
    (Helper::Equals, 1, Argument::Number(2)),
    (Helper::Decimal, 2, Argument::Number(3)),
    (Helper::FindHeader, 0, Argument::Bytes(1, 2)),
    (Helper::EmitPart, 3, Argument::Number(4)),
    (Helper::EmitChanged, 3, Argument::Bytes(4, 5)),
    (Helper::AddHeader, 1, Argument::Bytes(3, 4)),
];

/// Helpers, their numbers and the greatest number that each answers.
static ANSWERS: [(Helper, i32, u64); 16] = [
    (Helper::EmitRecord, 3, 3),
    (Helper::Partition, 9, 63),
    (Helper::LoadKey, 2, 1),
    (Helper::HeaderCount, 10, 16),
    (Helper::HeaderKey, 11, 256),
    (Helper::HeaderValue, 12, 4098),
    (Helper::PartLength, 13, 1_048_578),
    (Helper::LoadPart, 14, 1),
    (Helper::Find, 15, 1_048_577),
    (Helper::Equals, 16, 1),
    (Helper::Decimal, 17, 1_000_000_000_000_000_000),
    (Helper::Hash, 18, 2_147_483_647),
    (Helper::FindHeader, 19, 16),
    (Helper::EmitPart, 20, 4),
    (Helper::EmitChanged, 21, 5),
    (Helper::AddHeader, 22, 3),
];

fn numbers_name(rows: &[(i32, Option<Helper>)]) -> bool {
    for (number, want) in rows {
        if Helper::with_number(*number) != *want {
            return false;
        }
    }
    true
}

fn tables_name(rows: &[(Table, i32, Option<Helper>)]) -> bool {
    for (table, number, want) in rows {
        if table.with_number(*number) != *want {
            return false;
        }
    }
    true
}

fn arguments_are(rows: &[(Helper, usize, Argument)]) -> bool {
    for (helper, place, want) in rows {
        if helper.signature().arguments.get(*place).copied() != Some(*want) {
            return false;
        }
    }
    true
}

fn answers_are(rows: &[(Helper, i32, u64)]) -> bool {
    for (helper, number, greatest) in rows {
        let signature = helper.signature();
        if signature.number != *number || signature.greatest != *greatest {
            return false;
        }
    }
    true
}

#[test]
fn helpers_by_number(rt: HostRuntime) {
    assert!(rt; numbers_name(&NUMBERS) && tables_name(&TABLES));
    assert!(rt; arguments_are(&ARGUMENTS) && answers_are(&ANSWERS));
}

/// Whether an instruction calls this helper, or none of a table, and whether it writes r10.
type Called = (Instruction, Option<Helper>, Table, bool, bool);

static CALLED: [Called; 5] = [
    (
        Instruction::Call(3),
        Some(Helper::EmitRecord),
        Table::One,
        false,
        false,
    ),
    (Instruction::Call(99), None, Table::Two, true, false),
    (
        Instruction::Call(12),
        Some(Helper::HeaderValue),
        Table::One,
        true,
        false,
    ),
    (Instruction::Wide(10, 0), None, Table::One, false, true),
    (Instruction::Exit, None, Table::One, false, false),
];

fn is_called(row: &Called) -> bool {
    let summary = Summary::of(row.0);
    summary.helper() == row.1
        && summary.calls_no_helper(row.2) == row.3
        && summary.writes_frame() == row.4
}

/// The number of the first row that is otherwise.
fn first_other(rows: &[Called]) -> Option<usize> {
    for (k, row) in rows.iter().enumerate() {
        if !is_called(row) {
            return Some(k);
        }
    }
    None
}

#[test]
fn helpers_of_calls(rt: HostRuntime) {
    let other = first_other(&CALLED);
    assert!(rt; other.is_none(), "{other:?}");
}
