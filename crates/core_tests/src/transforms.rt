//! Tests of batches through a program without a broker, of a reader and in memory.

mod batches;
mod in_memory;
mod making;
mod streams;
mod watched;
