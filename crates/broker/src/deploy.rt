//! Deployments: marks of programs that a finder finds.

ghost use Rattle.std.specs.Prelude.{List, ℕ};
ghost use Rattle.catalogue.specs.Versions.{IsNoOlder, among};
ghost use Rattle.broker.specs.Deployments.{DeployIs};

use crate::broker::Broker;
use crate::fault::BrokerFault;
use catalogue::{Finder, Known};
use log_spec::Name;
use part_log::{Names, Receipt};
use std::alloc::Global;
use std::sync::Wait;

impl<Id: Names, C> Broker<Id, C> {
    /// Deploys a name's newest version to an input partition: its mark is appended to the log, and
    /// the records after it go through that program. Returns the mark's receipt and the version. It
    /// is the newest that the finder finds: under the name of `known` that version or a later one.
    /// It fails with the first that holds: `Partition`, there is no such partition; `Catalogue`,
    /// the finder gets no table or memory; `NoProgram`, it finds none; `Log`, the log refuses the
    /// mark.
    pub fn deploy<R: Wait>(
        &self,
        rt: &R,
        alloc: Global,
        input: usize,
        name: &Name,
        finder: &mut Finder,
        known: &Known,
    ) -> Result<(Receipt<Id>, u32), BrokerFault>
        ensures deployed { DeployIs self.now input name.now known.now finder.old result finder.new }
        ensures never_back { (other : List ℕ) → IsNoOlder (among finder.old.versions other) (among finder.new.versions other) }
    {
        let log = self.log(input)?;
        let (version, program) = match finder.find(name, known) {
            Err(fault) => return Err(BrokerFault::Catalogue(fault)),
            Ok(None) => return Err(BrokerFault::NoProgram),
            Ok(Some(found)) => found,
        };
        match log.mark(rt, alloc, name.again(), version, program) {
            Ok(receipt) => Ok((receipt, version)),
            Err(fault) => Err(BrokerFault::Log(fault)),
        }
    }
}
