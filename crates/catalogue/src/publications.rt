//! The rule of the published table.

use crate::edition::Edition;
use crate::readings::Readings;
use crossbeam_utils::rule::{Outcome, Protocol};

/// Each published table is the one before with one more accepted load, and no reader knows a load that
/// did not happen.
pub struct Publications;

impl Protocol<Edition, Readings> for Publications {
    ghost use Rattle.std.specs.Prelude.{[]};
    ghost use Rattle.catalogue.specs.Publications.{IsPublished};

    ghost holds = { IsPublished };

    ghost first = { record { times = 0; loads = [] } };
}

/// A reader's look at the published table.
pub(crate) struct Looks;

impl Outcome<Edition, Readings> for Looks {
    ghost use Rattle.catalogue.specs.Publications.{Reads};

    ghost then = { λ v x y w. Reads v x w };
}

/// A publication of the next table.
pub(crate) struct Adds;

impl Outcome<Edition, Readings> for Adds {
    ghost use Rattle.catalogue.specs.Publications.{IsOneMore};

    ghost then = { λ v x y w. IsOneMore x y };
}
