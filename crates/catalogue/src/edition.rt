ghost use Rattle.std.specs.Prelude.{◌≡◌, IfOk};

use crate::versions::Versions;
use left_right::Absorb;
use std::alloc::{AllocError, Global};
use std::marker::Model;
use std::sync::Arc;

/// A table that is published: both copies, and the operation between them, own one table. Contracts
/// see the table.
#[derive(Drop)]
pub struct Edition {
    table: Arc<Versions>,
}

impl Model for Edition {
    ghost use Rattle.std.specs.Arc.{arc_value};
    ghost use Rattle.log_spec.specs.Catalogue.{LiveTable};

    ghost Value = { LiveTable };

    ghost view = { λ e. arc_value e.table };
}

impl Edition {
    /// The first owner of a table. It fails only where memory runs out.
    pub fn new(alloc: Global, table: Versions) -> Result<Edition, AllocError>
        ensures { IfOk result (λ edition. edition ≡ table) }
    {
        let table = Arc::new(alloc, table)?;
        Ok(Edition { table })
    }

    /// The table.
    pub fn table(&self) -> &Versions
        ensures { result.now ≡ self.now }
    {
        &self.table
    }

    /// Another owner of the table. It fails only where the table has no room for one more owner.
    pub fn again(&self) -> Result<Edition, AllocError>
        ensures { IfOk result (λ edition. edition ≡ self.now) }
    {
        let table = Arc::try_clone(&self.table)?;
        Ok(Edition { table })
    }
}

// An operation is the whole next table.
impl Absorb<Edition> for Edition {
    type State = Edition;

    ghost state = { λ edition. edition };

    ghost applied = { λ state next. next };

    fn absorb_first(&mut self, operation: &Edition, _other: &Edition) -> Result<(), AllocError> {
        *self = operation.again()?;
        Ok(())
    }

    fn absorb_second(&mut self, operation: Edition, _other: &Edition) -> Result<(), Edition> {
        *self = operation;
        Ok(())
    }
}
