//! What is refused before anything is done.

ghost use Rattle.std.specs.Prelude.{◌≡◌, true, IfNone};
ghost use Rattle.script.specs.Faults.{text_size, is_count, is_in_order, is_in_range, fault_of};

use crate::command::Command;
use bytes::Bytes;
use log_spec::{MAX_CELLS, MAX_PARTITIONS};
use thiserror::Error;
use wire_spec::{MAX_KEY, MAX_VALUE, TIMESTAMP_END};

/// What is wrong with a line.
#[derive(Clone, Copy, Debug, PartialEq, Eq, Error)]
pub enum ScriptFault {
    /// The line is no command.
    #[error("S1 Syntax")]
    Syntax,
    /// `partitions` is not first or occurs twice, or a program is deployed that was not loaded.
    #[error("S2 Order")]
    Order,
    /// A number or a length is out of its limits.
    #[error("S3 Range")]
    Range,
}

fn size(bytes: &Option<Bytes>) -> usize
    ensures { result ≡ text_size bytes.now }
{
    match bytes {
        None => 0,
        Some(bytes) => bytes.len(),
    }
}

/// Whether a command is allowed here: `partitions` is the first and occurs once, and a program is
/// deployed after it was loaded.
fn is_in_order(command: &Command, has_begun: bool, is_loaded: bool) -> bool
    ensures { result ≡ is_in_order command.now has_begun is_loaded }
{
    match command {
        Command::Partitions(..) => !has_begun,
        Command::Deploy(..) => has_begun && is_loaded,
        _ => has_begun,
    }
}

/// Whether a number lies from 1 to the most.
fn is_count(number: u64, most: u64) -> bool
    ensures { result ≡ is_count number most }
{
    number >= 1 && number <= most
}

/// Whether a command's numbers and lengths are within their limits.
fn is_in_range(command: &Command) -> bool
    ensures { result ≡ is_in_range command.now }
{
    match command {
        Command::Partitions(inputs, outputs, cells) => {
            is_count(*inputs, MAX_PARTITIONS as u64)
                && is_count(*outputs, MAX_PARTITIONS as u64)
                && is_count(*cells, MAX_CELLS as u64)
        }
        Command::Put(_, timestamp, key, value) => {
            *timestamp < TIMESTAMP_END && size(key) <= MAX_KEY && size(value) <= MAX_VALUE
        }
        _ => true,
    }
}

/// The fault of a command, if it has one: its place in the script is looked at before its numbers.
/// `has_begun` says that `partitions` was done, `is_loaded` that the script loaded the program that
/// is to be deployed.
pub fn first_fault(command: &Command, has_begun: bool, is_loaded: bool) -> Option<ScriptFault>
    ensures fault { result ≡ fault_of command.now has_begun is_loaded }
    ensures range { IfNone result (is_in_range command.now ≡ true) }
{
    if !is_in_order(command, has_begun, is_loaded) {
        return Some(ScriptFault::Order);
    }
    if !is_in_range(command) {
        return Some(ScriptFault::Range);
    }
    None
}
