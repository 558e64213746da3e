ghost use Rattle.std.specs.Prelude.{◌≡◌, ◌≤◌, ◌<◌, ◌-◌, ◌∷◌, ◌++◌, pos, All, IfOk, OnOk, length, take, drop};
ghost use Rattle.std.specs.Int.{w16, w32, w64, to_be_bytes};
ghost use Rattle.std.specs.List.{AllByRecursion};
ghost use Rattle.wire_spec.specs.Checksum.{checksum};
ghost use Rattle.wire_spec.specs.RecordSpelling.{RecordFits, record_spelling};
ghost use Rattle.wire_spec.specs.BatchSpelling.{IsTimestamp, BatchFits, timestamps, greatest, signed, records_spelling, batch_spelling};
ghost use Rattle.batch.specs.Heads.{front_of, header_of};

use crate::fields::{put_i16, put_i32, put_i64, put_u32};
use crate::limits::{FRONT, HEADER, records_len};
use crate::times::{base_of, latest};
use byteorder::{BigEndian, ByteOrder};
use std::alloc::{AllocError, Global};
use wire_spec::{Batch, MAX_BATCH, MAX_RECORDS, Record};

// The place of the checksum, and where what it covers begins.
const CRC: usize = 17;

const COVERED: usize = 21;

/// Writes the record of this place at the end.
fn put_record(out: &mut Vec<u8>, record: &Record, place: usize) -> Result<(), AllocError>
    requires place { place < MAX_RECORDS }
    requires fits { RecordFits «record».now }
    ensures { OnOk result (out.new.items ≡ out.old.items ++ record_spelling (pos place) «record».now) }
{
    kafka_record::write(record, place as i32, out)
}

fn put_records(out: &mut Vec<u8>, records: &[Record]) -> Result<(), AllocError>
    requires few { length records.now ≤ MAX_RECORDS }
    requires fit { All RecordFits records.now }
    ensures { OnOk result (out.new.items ≡ out.old.items ++ records_spelling 0 records.now) }
{
    for (place, record) in records.iter().enumerate() {
        put_record(out, record, place)?;
    }
    Ok(())
}

/// The greatest timestamp of the records.
fn greatest_of(base: i64, records: &[Record]) -> i64
    requires { AllByRecursion IsTimestamp (timestamps base records.now) }
    ensures { result ≡ greatest (timestamps base records.now) }
{
    latest(base, records).unwrap()
}

/// Writes what the checksum does not cover, with 0 in its place: baseOffset, batchLength,
/// partitionLeaderEpoch, magic, crc.
fn put_front(out: &mut Vec<u8>, batch: &Batch, size: usize) -> Result<(), AllocError>
    requires least { 12 ≤ size }
    requires most { size ≤ MAX_BATCH }
    ensures { OnOk result (out.new.items ≡ out.old.items ++ (signed w64 «batch».now.base_offset ++ (to_be_bytes w32 (size - 12)
        ++ (signed w32 «batch».now.leader_epoch ++ (2 ∷ to_be_bytes w32 0))))) }
{
    put_i64(out, batch.base_offset)?;
    put_u32(out, (size - FRONT) as u32)?;
    put_i32(out, batch.leader_epoch)?;
    out.push(2)?;
    put_u32(out, 0)?;
    Ok(())
}

/// Writes the header from attributes on, which the checksum covers, up to the records.
fn put_header(out: &mut Vec<u8>, batch: &Batch, count: u32, greatest: i64) -> Result<(), AllocError>
    requires { 0 < count }
    ensures { OnOk result (out.new.items ≡ out.old.items ++ (to_be_bytes w16 0 ++ (to_be_bytes w32 (count - 1)
        ++ (signed w64 «batch».now.base_timestamp ++ (signed w64 greatest ++ (signed w64 «batch».now.producer_id
        ++ (signed w16 «batch».now.producer_epoch ++ (signed w32 «batch».now.base_sequence ++ to_be_bytes w32 count)))))))) }
{
    put_i16(out, 0)?;
    put_u32(out, count - 1)?;
    put_i64(out, batch.base_timestamp)?;
    put_i64(out, greatest)?;
    put_i64(out, batch.producer_id)?;
    put_i16(out, batch.producer_epoch)?;
    put_i32(out, batch.base_sequence)?;
    put_u32(out, count)?;
    Ok(())
}

/// The bytes of a batch up to its records, with 0 in the place of the checksum: those of a batch of `size`
/// bytes with the fields of `head`, this number of records and this greatest timestamp. The records of
/// `head` are not looked at. There is room for no more. It fails only where memory runs out.
pub fn begin(
    alloc: Global,
    head: &Batch,
    size: usize,
    count: u32,
    greatest: i64,
) -> Result<Vec<u8>, AllocError>
    requires least { 12 ≤ size }
    requires most { size ≤ MAX_BATCH }
    requires some { 0 < count }
    ensures { IfOk result (λ out. out.items ≡ front_of «head».now size ++ header_of «head».now greatest count) }
{
    let mut out = Vec::with_capacity(alloc, HEADER)?;
    put_front(&mut out, head, size)?;
    put_header(&mut out, head, count, greatest)?;
    Ok(out)
}

/// Writes the checksum of what follows it.
fn seal(out: &mut [u8])
    requires { 21 ≤ length out.old }
    ensures { out.new ≡ take 17 out.old ++ (to_be_bytes w32 (checksum (drop 21 out.old)) ++ drop 21 out.old) }
{
    let crc = crc32c::sum(&out[COVERED..]);
    BigEndian::write_u32(&mut out[CRC..], crc);
}

/// The bytes of a batch to which its records were written after `begin`, with the checksum in its place.
pub fn finish(mut out: Vec<u8>) -> Vec<u8>
    requires { 21 ≤ length out.items }
    ensures { result.items ≡ take 17 out.items ++ (to_be_bytes w32 (checksum (drop 21 out.items)) ++ drop 21 out.items) }
{
    seal(&mut out);
    out
}

/// The one spelling of a batch that `fits` (Kafka's message format, magic 2: "Record Batch"). It
/// fails only where memory runs out.
pub fn encode(alloc: Global, batch: &Batch) -> Result<Vec<u8>, AllocError>
    requires { BatchFits «batch».now }
    ensures { IfOk result (λ v. v.items ≡ batch_spelling «batch».now) }
{
    let records = batch.records.list.as_slice();
    let records_size = records_len(records);
    let greatest = greatest_of(base_of(batch), records);
    let mut out = begin(
        alloc,
        batch,
        HEADER + records_size,
        records.len() as u32,
        greatest,
    )?;
    out.reserve_exact(records_size)?;
    put_records(&mut out, records)?;
    Ok(finish(out))
}
