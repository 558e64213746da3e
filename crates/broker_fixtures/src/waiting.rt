//! How threads of a test wait for each other.

use std::sync::atomic::{AtomicBool, Ordering};
use std::thread;

/// How often a thread looks before a test fails.
const TURNS: usize = 100_000_000;

/// Waits until a flag is raised, but not for ever; whether it was.
pub fn sees(flag: &AtomicBool) -> bool {
    for _ in 0..TURNS {
        if flag.load(Ordering::SeqCst) {
            return true;
        }
        thread::yield_now();
    }
    false
}
