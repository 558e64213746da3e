ghost use Rattle.std.specs.Prelude.{◌≡◌, IfErr};
ghost use Rattle.verifier_spec.specs.declared.fault.Check.TheVariants as fault;
ghost use Rattle.machine_spec.specs.Image.{program_of};
ghost use Rattle.annotate.specs.Loads.{Loads, IsOfImage, IsAtStart};

use crate::joining::join_all;
use bpf_isa::decode;
use machine_spec::Table;
use notes::{Check, Verified, VerifyFault, keep_joined};
use std::alloc::Global;
use verifier_spec::LoadFault;

/// The refusal of a program for which memory ran out.
fn out_of_memory() -> VerifyFault
    ensures { result ≡ record { pc = 0; kind = fault.Memory } }
{
    VerifyFault {
        pc: 0,
        kind: Check::Memory,
    }
}

/// The verified program of an image that may call the helpers of a table: its instructions, each with
/// the least abstract state above all that the edges of reached instructions before it propagate.
/// Every image that has an annotation under the table is accepted, memory aside, and the states are
/// then within those of every annotation.
///
/// It fails with the image's first refusal, and then, where there is no annotation, with the first
/// check that the lowest faulty instruction fails in its joined state; where memory runs out, as
/// `IsaFault::Memory` or as `Check::Memory` at 0.
pub fn load(alloc: Global, image: &[u8], table: Table) -> Result<Verified, LoadFault>
    ensures answer { Loads (program_of image.now table) result }
    ensures other { IfErr result IsOfImage }
    ensures memory { IfErr result IsAtStart }
{
    let code = match decode(alloc, image) {
        Err(fault) => return Err(LoadFault::Isa(fault)),
        Ok(code) => code,
    };
    let Ok(joined) = join_all(alloc, &code, table) else {
        return Err(LoadFault::Verify(out_of_memory()));
    };
    if let Some(fault) = joined.fault {
        return Err(LoadFault::Verify(fault));
    }
    match keep_joined(alloc, code, table, &joined.states) {
        Ok(verified) => Ok(verified),
        Err(_) => Err(LoadFault::Verify(out_of_memory())),
    }
}
