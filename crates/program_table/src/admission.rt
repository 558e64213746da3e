//! What a load asks of a name and of a program alone, whatever else is loaded.
ghost use Rattle.std.specs.Prelude.{◌≡◌, IfOk, IfErr, OnOk};
ghost use Rattle.std.specs.List.{list_all};
ghost use Rattle.std.specs.Arc.{arc_value};
ghost use Rattle.machine_spec.specs.Image.{Program as Loaded, program_of};
ghost use Rattle.verifier_spec.specs.Loading.{IsAccepted};
ghost use Rattle.annotate.specs.Loads.{FaultIs};
ghost use Rattle.log_spec.specs.Catalogue.{IsProgramRefusal, is_name, is_name_byte};
ghost use Rattle.program_table.specs.Tables.{RefusedAs};

use bytes::Bytes;
use log_item::Program;
use log_spec::{MAX_NAME, Refusal};
use machine_spec::{IsaFault, Table};
use std::alloc::Global;
use std::sync::Arc;
use verifier_spec::{Check, LoadFault};

fn is_name_char(byte: u8) -> bool
    ensures { result ≡ is_name_byte byte }
{
    byte.is_ascii_alphanumeric() || byte == b'-'
}

fn are_name_chars(bytes: &[u8]) -> bool
    ensures { result ≡ list_all is_name_byte bytes.now }
{
    bytes.iter().all(|byte| is_name_char(*byte))
}

/// Whether a program may have this name: 1 to 32 ASCII letters, digits and hyphens.
pub fn has_name_form(name: &str) -> bool
    ensures { result ≡ is_name name.now }
{
    let bytes = name.as_bytes();
    if bytes.is_empty() || bytes.len() > MAX_NAME {
        return false;
    }
    are_name_chars(bytes)
}

/// The refusal of a load whose program is refused.
fn refusal_of(fault: LoadFault) -> Refusal
    ensures { (program : Loaded) → FaultIs program fault → RefusedAs (IsProgramRefusal program) result }
{
    match fault {
        LoadFault::Isa(IsaFault::Memory) => Refusal::Memory,
        LoadFault::Isa(_) => Refusal::Load(fault),
        LoadFault::Verify(refused) => match refused.kind {
            Check::Memory => Refusal::Memory,
            _ => Refusal::Load(fault),
        },
    }
}

/// The program of an image and a helper table, where the verifier accepts it; else its first refusal,
/// or that memory ran out.
pub fn admit(alloc: Global, image: &Bytes, table: Table) -> Result<Arc<Program>, Refusal>
    ensures program { IfOk result (λ program. arc_value program ≡ program_of image.now table) }
    ensures accepted { OnOk result (IsAccepted (program_of image.now table)) }
    ensures refused { IfErr result (λ refused. RefusedAs (IsProgramRefusal (program_of image.now table)) refused) }
{
    match Program::new(alloc, image, table) {
        Err(fault) => Err(refusal_of(fault)),
        Ok(program) => match Arc::new(alloc, program) {
            Err(_) => Err(Refusal::Memory),
            Ok(program) => Ok(program),
        },
    }
}
