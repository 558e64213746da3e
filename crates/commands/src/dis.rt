//! What `dis` prints of an image.

ghost use Rattle.std.specs.Prelude.{◌≡◌, string_bytes};
ghost use Rattle.wire_spec.specs.Memory.{AnswersAs};
ghost use Rattle.commands.specs.Texts as definitions;

use crate::image::Refused;
use bpf_asm::disassemble;
use bpf_isa::decode;
use machine_spec::IsaFault;
use std::alloc::Global;
use verifier_spec::LoadFault;

/// The refusal of an image that has no code.
pub fn refusal_of(fault: IsaFault) -> Refused
    ensures { result ≡ definitions.refusal_of fault }
{
    match fault {
        IsaFault::Memory => Refused::Memory,
        _ => Refused::Image(LoadFault::Isa(fault)),
    }
}

/// The text of an image's program, or why the image is refused.
pub fn disassembly(alloc: Global, image: &[u8]) -> Result<String, Refused>
    ensures { AnswersAs Refused.Memory string_bytes result (definitions.disassembly image.now) }
{
    let code = match decode(alloc, image) {
        Err(fault) => return Err(refusal_of(fault)),
        Ok(code) => code,
    };
    match disassemble(alloc, &code) {
        Ok(text) => Ok(text),
        Err(_) => Err(Refused::Memory),
    }
}
