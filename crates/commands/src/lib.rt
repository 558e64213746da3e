//! What a call of the program does: `command` does what its words ask for, with what the `Host` gives
//! it: files, standard input, output and error. `run` does the commands of a script, `check` verifies
//! a program, `explain` prints what the verifier knows of one, `asm` makes the image of a program's
//! text, `rule` the program file of rules, `dis` prints an image's text, `recheck` verifies the programs
//! of a list anew, `transform` runs a program on record batches, `batches` and `records` list those of a
//! file, and `commands` lists the calls. A `Session` does a script line by line.
#![tactic(auto)]

mod appending;
mod asm;
mod batches;
mod call;
mod counting;
mod dis;
mod endpoint;
mod explaining;
mod files;
mod given;
mod halts;
mod host;
mod image;
mod listing;
mod loading;
mod one_file;
mod output_files;
mod printing;
mod progress;
mod reading;
mod rechecking;
mod rule_files;
mod run;
mod session;
mod status;
mod stop;
mod telling;
mod transforming;
mod usage;

pub use crate::call::command;
pub use crate::endpoint::Endpoint;
pub use crate::files::Files;
pub use crate::host::Host;
pub use crate::listing::list;
pub use crate::rechecking::recheck;
pub use crate::session::Session;
pub use crate::status::Status;
pub use crate::stop::Stop;
pub use crate::transforming::transform;
pub use crate::usage::{Told, tell_no_words};
