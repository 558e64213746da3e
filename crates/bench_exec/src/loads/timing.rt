use annotate::load;
use machine_spec::Table;
use std::alloc::Global;
use std::io;
use std::rt::Clock;
use std::time::Instant;

/// How many instructions are loaded in the last of `rounds` rounds.
fn load_all(alloc: Global, image: &[u8], rounds: u32) -> usize {
    let mut instructions = 0;
    for _ in 0..rounds {
        instructions = match load(alloc, image, Table::One) {
            Ok(verified) => verified.code().len(),
            Err(_) => 0,
        };
    }
    instructions
}

/// How many nanoseconds the rounds take, and how many instructions the program has.
pub(crate) fn nanos_of<R: Clock>(
    rt: &R,
    alloc: Global,
    image: &[u8],
    rounds: u32,
) -> io::Result<(u128, usize)> {
    let start = Instant::now(rt)?;
    let instructions = load_all(alloc, image, rounds);
    Ok((start.elapsed(rt)?.as_nanos(), instructions))
}
