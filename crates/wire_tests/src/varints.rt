use crate::verdicts::all_hold;
use std::alloc::Global;
use std::test::*;
use varint::{VarintFault, len32, len64, read32, read64, write32, write64};

static NUMBERS: [(i32, &[u8]); 6] = [
    (0, &[0x00]),
    (-1, &[0x01]),
    (64, &[0x80, 0x01]),
    (150, &[0xac, 0x02]),
    (2147483647, &[0xfe, 0xff, 0xff, 0xff, 0x0f]),
    (-2147483648, &[0xff, 0xff, 0xff, 0xff, 0x0f]),
];

fn written32(alloc: Global, number: i32) -> Option<Vec<u8>> {
    let mut out = Vec::new(alloc);
    write32(number, &mut out).ok()?;
    Some(out)
}

fn is_written_as(alloc: Global, number: i32, bytes: &[u8]) -> bool {
    match written32(alloc, number) {
        Some(out) => out.as_slice() == bytes,
        None => false,
    }
}

fn is_spelled(alloc: Global, number: i32, bytes: &[u8]) -> bool {
    read32(bytes) == Ok((number, bytes.len()))
        && len32(number) == bytes.len()
        && is_written_as(alloc, number, bytes)
}

/// The number of the first row that is not spelled so.
fn first_wrong(alloc: Global, rows: &[(i32, &[u8])]) -> Option<usize> {
    for (k, row) in rows.iter().enumerate() {
        if !is_spelled(alloc, row.0, row.1) {
            return Some(k);
        }
    }
    None
}

#[test]
fn varints_are_read_and_written(rt: HostRuntime) {
    all_hold(&rt, first_wrong(rt.alloc(), &NUMBERS));
}

const LEAST: [u8; 10] = [0xff, 0xff, 0xff, 0xff, 0xff, 0xff, 0xff, 0xff, 0xff, 0x01];

fn least_is_written(alloc: Global) -> bool {
    let mut out = Vec::new(alloc);
    write64(i64::MIN, &mut out).is_ok() && out.as_slice() == LEAST.as_slice()
}

#[test]
fn the_least_varlong(rt: HostRuntime) {
    assert!(rt; read64(&LEAST) == Ok((i64::MIN, 10)));
    assert!(rt; len64(i64::MIN) == 10);
    assert!(rt; least_is_written(rt.alloc()));
}

static REFUSED: [(VarintFault, &[u8]); 6] = [
    (VarintFault::NotShortest, &[0x80, 0x00]),
    (VarintFault::Short, &[0x80]),
    (VarintFault::Long, &[0xff, 0xff, 0xff, 0xff, 0x1f]),
    (VarintFault::Short, &[0x80, 0x80, 0x80, 0x80]),
    (VarintFault::Long, &[0x80, 0x80, 0x80, 0x80, 0x80]),
    (VarintFault::NotShortest, &[0x80, 0x80, 0x80, 0x80, 0x00]),
];

/// The number of the first row that is not refused so.
fn first_other(rows: &[(VarintFault, &[u8])]) -> Option<usize> {
    for (k, row) in rows.iter().enumerate() {
        if read32(row.1) != Err(row.0) {
            return Some(k);
        }
    }
    None
}

#[test]
fn refusals(rt: HostRuntime) {
    all_hold(&rt, first_other(&REFUSED));
}
