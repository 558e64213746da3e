//! What the system gives a call.

use std::alloc::Global;

/// What the system gives a call: memory, named files, standard input, output and error.
#[derive(Drop)]
pub struct Host<F, I, O, E> {
    pub alloc: Global,
    pub files: F,
    pub stdin: I,
    pub stdout: O,
    pub stderr: E,
}
