//! Images of programs (RFC 9669, section 3) as instructions, and back.
//!
//! An image's instructions are its code: `decode` reads it or reports why it refuses it, with the
//! first slot that is the reason, and `encode` gives the one image that has a code.
//!
//! ```
//! let image = [0xb7, 0, 0, 0, 7, 0, 0, 0, 0x95, 0, 0, 0, 0, 0, 0, 0];
//! let code = bpf_isa::decode(alloc, &image).ok()?;
//! let again = bpf_isa::encode(alloc, &code).ok()?;
//! assert!(code.len() == 2 && again.as_slice() == image.as_slice());
//! ```
#![tactic(auto)]

mod code;
mod decoding;
mod encoding;
mod form;
mod laws;
mod lookup;
mod opcode;
mod placed_list;
mod slot;
mod slot_table;

pub use code::Code;
pub use decoding::decode;
pub use encoding::{encode, put};
pub use laws::image_and_code;
pub use lookup::form_at;
pub use machine_spec::{Instruction, IsaFault, Placed};
