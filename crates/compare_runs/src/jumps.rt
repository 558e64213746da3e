use crate::PLACE;
use bpf_machine::{Headers, Record, Table, trace};
use std::alloc::{AllocError, Global};
use std::io;
use std::rt::Clock;
use std::time::Instant;

/// mov64 r0, 0; then `jumps` times ja +0; exit.
fn image_of(alloc: Global, jumps: u32) -> Result<Vec<u8>, AllocError> {
    let mut image = vec![in alloc; 0xb7, 0, 0, 0, 0, 0, 0, 0]?;
    for _ in 0..jumps {
        image.extend_from_slice(&[0x05, 0, 0, 0, 0, 0, 0, 0])?;
    }
    image.extend_from_slice(&[0x95, 0, 0, 0, 0, 0, 0, 0])?;
    Ok(image)
}

/// A record with nothing in it.
fn empty_record(alloc: Global) -> Record {
    Record {
        timestamp_delta: 0,
        key: None,
        value: None,
        headers: Headers {
            list: Vec::new(alloc),
        },
    }
}

/// How many instructions the plain machine does in a program of that many jumps, and how many
/// nanoseconds that takes.
pub(crate) fn time<R: Clock>(rt: &R, alloc: Global, jumps: u32) -> io::Result<(u64, u128)> {
    let image = image_of(alloc, jumps)?;
    let record = empty_record(alloc);
    let start = Instant::now(rt)?;
    let (_, count) = trace(alloc, &image, &record, &PLACE, Table::One)?;
    Ok((count, start.elapsed(rt)?.as_nanos()))
}
