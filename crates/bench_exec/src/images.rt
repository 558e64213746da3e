//! A program of an image, on records with random values.

use crate::abreast::time_abreast;
use crate::{Fitting, keyless, records_of, time};
use bytes::Bytes;
use exec::Record;
use machine_spec::Table;
use notes::Verified;
use std::alloc::Global;
use std::io;
use std::rt::Clock;

/// How many records there are.
const RECORDS: u64 = 1024;

/// A number of 64 bits that follows from another and looks random (splitmix64).
fn mixed(number: u64) -> u64 {
    let sum = number.wrapping_add(0x9e37_79b9_7f4a_7c15);
    let once = (sum ^ (sum >> 30)).wrapping_mul(0xbf58_476d_1ce4_e5b9);
    let twice = (once ^ (once >> 27)).wrapping_mul(0x94d0_49bb_1331_11eb);
    twice ^ (twice >> 31)
}

/// The value of the record with this number: 64 bytes.
fn value_of(alloc: Global, record: u64) -> Option<Bytes> {
    let mut bytes = Vec::new(alloc);
    for part in 0..8 {
        let number = mixed(record.wrapping_mul(8).wrapping_add(part));
        bytes.extend_from_slice(&number.to_le_bytes()).ok()?;
    }
    Bytes::from_vec(bytes).ok()
}

fn values(alloc: Global) -> Option<Vec<Bytes>> {
    let mut values = Vec::new(alloc);
    for record in 0..RECORDS {
        values.push(value_of(alloc, record)?).ok()?;
    }
    Some(values)
}

/// The same records in a list.
fn given_of(alloc: Global) -> Option<Vec<Record>> {
    let mut given = Vec::new(alloc);
    for value in values(alloc)? {
        given.push(keyless(alloc, value)).ok()?;
    }
    Some(given)
}

/// Times a program on one record, and on 1,024 records whose values differ.
fn time_both<R: Print + Clock>(
    rt: &R,
    alloc: Global,
    image: &[u8],
    records: &[Fitting],
    given: &[Record],
    rounds: u32,
) -> io::Result<()> {
    match annotate::load(alloc, image, Table::Two) {
        Ok(program) => time_program(rt, alloc, &program, records, given, rounds),
        Err(_) => println!(rt; "not a program"),
    }
}

fn time_program<R: Print + Clock>(
    rt: &R,
    alloc: Global,
    program: &Verified,
    records: &[Fitting],
    given: &[Record],
    rounds: u32,
) -> io::Result<()> {
    let one = records.get(..1).unwrap_or(records);
    let more = rounds.saturating_mul(1024);
    for _ in 0..4 {
        time(rt, alloc, "one record", program, one, more)?;
        time(rt, alloc, "1,024 records", program, records, rounds)?;
        time_abreast(rt, alloc, program, records, given, rounds)?;
    }
    Ok(())
}

/// Times the program of an image: four times on one record, and on 1,024 records whose values
/// differ, one after another and abreast. It prints nothing where memory runs out.
pub(crate) fn time_image<R: Print + Clock>(
    rt: &R,
    alloc: Global,
    image: &[u8],
    rounds: u32,
) -> io::Result<()> {
    let made = values(alloc).and_then(|values| records_of(alloc, values));
    match (made, given_of(alloc)) {
        (Some(records), Some(given)) => time_both(rt, alloc, image, &records, &given, rounds),
        _ => Ok(()),
    }
}
