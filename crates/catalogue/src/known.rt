ghost use Rattle.std.specs.Prelude.{◌≡◌, IfOk, IfErr};
ghost use Rattle.std.specs.Arc.{arc_value};
ghost use Rattle.catalogue.specs.declared.fault.CatFault.TheVariants.{Memory};

use crate::fault::CatFault;
use log_item::Program;
use log_spec::Name;
use std::alloc::AllocError;
use std::marker::Model;
use std::sync::Arc;

/// A version of a name that was loaded, with its program. Contracts see name, number and program.
#[derive(Drop)]
pub struct Known {
    name: Name,
    version: u32,
    program: Arc<Program>,
}

impl Model for Known {
    ghost use Rattle.std.specs.Arc.{arc_value};
    ghost use Rattle.log_spec.specs.Catalogue.{Version};

    ghost Value = { Version };

    ghost view = { λ k. record { name = k.name; number = k.version; program = arc_value k.program } };
}

impl Known {
    pub(crate) fn new(name: Name, version: u32, program: Arc<Program>) -> Known
        ensures { result ≡ record { name = name; number = version; program = arc_value program } }
    {
        Known {
            name,
            version,
            program,
        }
    }

    /// The name that it was loaded under.
    pub fn name(&self) -> &Name
        ensures { result.now ≡ self.now.name }
    {
        &self.name
    }

    /// The number of the version, from 1.
    pub fn version(&self) -> u32
        ensures { result ≡ self.now.number }
    {
        self.version
    }

    /// The program that was loaded.
    pub fn program(&self) -> &Arc<Program>
        ensures { arc_value result.now ≡ self.now.program }
    {
        &self.program
    }

    /// A second one, as for another thread. Fails only where its program has no room for one more
    /// owner.
    pub fn again(&self) -> Result<Known, CatFault>
        ensures ok { IfOk result (λ known. known ≡ self.now) }
        ensures err { IfErr result (λ fault. fault ≡ Memory) }
    {
        match self.share() {
            Ok(known) => Ok(known),
            Err(_) => Err(CatFault::Memory),
        }
    }

    /// Another owner of the same program, under the same name and version.
    pub(crate) fn share(&self) -> Result<Known, AllocError>
        ensures { IfOk result (λ known. known ≡ self.now) }
    {
        let program = Arc::try_clone(&self.program)?;
        Ok(Known::new(self.name.again(), self.version, program))
    }
}
