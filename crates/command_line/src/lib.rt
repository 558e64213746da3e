//! What the words after the program's name ask for.
//!
//! ```
//! let mut words = Vec::new(alloc);
//! words.push(String::from_str(alloc, "run").ok()?).ok()?;
//! words.push(String::from_str(alloc, "route.klog").ok()?).ok()?;
//! let call = command_line::call_of(alloc, &words).ok()?;
//! assert!(matches!(call, command_line::Call::Run("route.klog")));
//! ```
#![tactic(auto)]

mod call;
mod forms;
mod tables;
mod transforms;
mod words;

pub use crate::call::{Call, ImageCall, Misuse};
pub use crate::words::call_of;
