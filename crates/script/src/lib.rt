//! The lines of a script: what each says, which of them are refused before anything is done, and
//! the texts that commands print.
//!
//! ```
//! let command = script::parse(alloc, "close 7").ok()??;
//! assert!(matches!(command, script::Command::Close(7)));
//! ```
#![tactic(auto)]

mod command;
mod fault;
mod pairs;
mod text;
mod words;

pub use crate::command::{Command, FileName, FileWord, parse};
pub use crate::fault::{ScriptFault, first_fault};
pub use crate::text::{
    append_text, close_text, deploy_text, fetch_text, load_text, push_bytes, push_hex, push_row,
};
