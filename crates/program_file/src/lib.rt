//! Program files: a program as the bytes that hold its helper table, its image, and which lines of a
//! source file its slots come from.
//!
//! `read` and `write` are each other's inverse. `given_program` takes what a user gives as a program, an
//! image or a program file.
//!
//! ```
//! use program_file::{Places, ProgramFile};
//! let places = Places { list: Vec::new(alloc) };
//! let file = ProgramFile { table: 3, image: bytes::Bytes::from_static(&[0x95, 0, 0, 0, 0, 0, 0, 0]), places };
//! let bytes = program_file::write(alloc, &file).ok()?;
//! assert!(program_file::is_program_file(&bytes));
//! ```
#![tactic(auto)]

mod choice;
mod fault;
mod file;
mod fitting;
mod header;
mod laws;
mod lines;
mod places;
mod reading;
mod slot_number;
mod writing;

pub use choice::{GivenProgram, given_program};
pub use fault::FileFault;
pub use file::{Place, Places, ProgramFile};
pub use fitting::fits;
pub use header::is_program_file;
pub use laws::{images_are_no_files, one_spelling};
pub use places::place_at;
pub use reading::read;
pub use writing::write;
