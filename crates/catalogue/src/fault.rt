ghost use Rattle.std.specs.Prelude.{ℕ, List};
ghost use Rattle.machine_spec.specs.Image.{Program};
ghost use Rattle.log_spec.specs.Catalogue.{LiveTable, IsLiveRefusal};
ghost use Rattle.program_table.specs.Tables.{RefusedAs};
ghost use Rattle.catalogue.specs.Faults.{IsOfLoad, IsFaultOf};

use log_spec::Refusal;
use thiserror::Error;
use verifier_spec::LoadFault;

/// Why a call on a catalogue or a finder fails. Whatever it was called on stays as it was.
#[derive(Clone, Copy, Debug, PartialEq, Eq, Drop, Error)]
pub enum CatFault {
    /// A name has 1 to 32 ASCII letters, digits and hyphens.
    #[error("C1 Name")]
    Name,
    /// 64 other names are loaded.
    #[error("C2 Full")]
    Full,
    /// The image is no program, or the verifier refuses it.
    #[error("{0}")]
    Load(LoadFault),
    /// No place is free for a reader, or the reader gets no table.
    #[error("C4 NoReader")]
    NoReader,
    /// The name's versions are used up.
    #[error("C5 Versions")]
    Versions,
    /// Memory ran out.
    #[error("C6 Memory")]
    Memory,
}

/// The fault of a load that the table refuses.
pub fn fault_of(refusal: Refusal) -> CatFault
    requires { IsOfLoad refusal }
    ensures { (table : LiveTable) (name : List ℕ) (program : Program) → RefusedAs (IsLiveRefusal table name program) refusal → IsFaultOf table name program result }
{
    match refusal {
        Refusal::Name => CatFault::Name,
        Refusal::Full => CatFault::Full,
        Refusal::Versions => CatFault::Versions,
        Refusal::Load(fault) => CatFault::Load(fault),
        Refusal::Memory => CatFault::Memory,
        Refusal::Partition
        | Refusal::NoVersion
        | Refusal::LogClosed
        | Refusal::LogFull
        | Refusal::NoItem => unreachable!(),
    }
}
