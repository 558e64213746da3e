//! The checksum of 64 KiB.

ghost use Rattle.std.specs.Prelude.{◌<◌, length};

use crc32c::sum;
use std::alloc::Global;
use std::io;
use std::rt::Clock;
use std::time::{Duration, Instant};

const LEN: usize = 65_536;

const TURNS: u32 = 10;

/// Sums the bytes `times` times. Each time changes a byte, so that no sum can replace another.
fn turn(bytes: &mut [u8], times: u32) -> u32
    requires { 0 < length bytes.old }
{
    let mut mixed = 0;
    for time in 0..times {
        mixed ^= sum(bytes);
        bytes[time as usize % bytes.len()] = (mixed & 0xff) as u8;
    }
    mixed
}

/// The shortest turn, and what the sums came to, which shows that all were made.
fn shortest<R: Clock>(rt: &R, bytes: &mut [u8], times: u32) -> io::Result<(Duration, u32)>
    requires { 0 < length bytes.old }
{
    let mut least = Duration::MAX;
    let mut mixed = 0;
    for _ in 0..TURNS {
        let start = Instant::now(rt)?;
        mixed ^= turn(bytes, times);
        least = least.min(start.elapsed(rt)?);
    }
    Ok((least, mixed))
}

/// Prints the bytes a second of the best turn.
pub(crate) fn measure<R: Print + Clock>(rt: &R, alloc: Global, times: u32) -> io::Result<()> {
    let mut bytes = vec![in alloc; 0x5a; LEN]?;
    let (least, mixed) = shortest(rt, &mut bytes, times)?;
    let megabytes = f64::from(times) * 0.065_536;
    println!(rt;
        "sum           {:6.0} MB/s   (sums {mixed:08x})",
        megabytes / least.as_secs_f64()
    )
}
