//! A program with several owners.

ghost use Rattle.std.specs.Prelude.{◌≡◌, IfOk};
ghost use Rattle.machine_spec.specs.Image.{Program};

use log_item::Program;
use std::alloc::{AllocError, Global};
use std::marker::Model;
use std::sync::Arc;

/// An owner of a loaded program. A clause sees the program.
#[derive(Drop)]
pub struct Shared {
    program: Arc<Program>,
}

impl Model for Shared {
    ghost use Rattle.machine_spec.specs.Image.{Program};

    ghost Value = { Program };

    ghost view = { λ s. s.program.value };
}

impl Shared {
    /// The first owner of a program. It fails only where memory runs out.
    pub(crate) fn new(alloc: Global, program: Program) -> Result<Shared, AllocError>
        ensures { IfOk result (λ shared. shared ≡ program) }
    {
        let program = Arc::new(alloc, program)?;
        Ok(Shared { program })
    }

    /// The program.
    pub(crate) fn program(&self) -> &Program
        ensures { result.now ≡ self.now }
    {
        &self.program
    }

    /// Another owner of the same program.
    pub(crate) fn again(&self) -> Result<Shared, AllocError>
        ensures { IfOk result (λ shared. shared ≡ self.now) }
    {
        let program = self.program.clone()?;
        Ok(Shared { program })
    }
}
