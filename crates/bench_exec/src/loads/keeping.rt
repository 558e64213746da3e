use crate::loads::programs::{branching, straight};
use annotate::load;
use machine_spec::Table;
use notes::Verified;
use std::alloc::Global;

/// What is kept of loaded programs: how many there are, and of how many instructions and states
/// each is.
#[derive(Drop)]
pub(crate) struct KeptState {
    pub(crate) programs: usize,
    pub(crate) instructions: usize,
    pub(crate) states: usize,
}

/// A program of 4,096 instructions or so: with these branches, or in a straight line where there are
/// none.
fn image_of(alloc: Global, branches: u32) -> Option<Vec<u8>> {
    if branches == 0 {
        straight(alloc, 4_095)
    } else {
        branching(alloc, branches)
    }
}

/// Whether a program is loaded, and kept with the others.
fn keep(alloc: Global, image: &[u8], programs: &mut Vec<Verified>) -> bool {
    match load(alloc, image, Table::One) {
        Ok(program) => programs.push(program).is_ok(),
        Err(_) => false,
    }
}

/// Loads a program `count` times and keeps all that is loaded until the last.
pub(crate) fn keep_all(alloc: Global, branches: u32, count: u32) -> Option<KeptState> {
    let image = image_of(alloc, branches)?;
    let mut programs = Vec::new(alloc);
    for _ in 0..count {
        if !keep(alloc, &image, &mut programs) {
            return None;
        }
    }
    let first = programs.first()?;
    Some(KeptState {
        programs: programs.len(),
        instructions: first.code().len(),
        states: first.kept(),
    })
}
