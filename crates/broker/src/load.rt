//! Loads of programs into a broker's catalogue.

ghost use Rattle.std.specs.Prelude.{◌≡◌, [], IfOk, IfErr};
ghost use Rattle.machine_spec.specs.Image.{program_of};
ghost use Rattle.broker.specs.Deployments.{LoadIs, IsNoReader};

use crate::broker::Broker;
use crate::fault::BrokerFault;
use bytes::Bytes;
use catalogue::{Catalogue, Finder, Known};
use machine_spec::Table;
use part_log::Names;
use std::alloc::Global;
use std::sync::Wait;

impl<Id: Names, W: Wait + Drop> Broker<Id, Catalogue<W>> {
    /// Loads an image under a name, as a program of a helper table. Returns the name's version, from 1,
    /// and what is then known of it. It fails as `Catalogue`, with the first refusal. What a load does
    /// to the catalogue, which is locked meanwhile, is said by `Catalogue::load`.
    pub fn load<R: Wait>(
        &self,
        rt: &R,
        alloc: Global,
        name: &str,
        image: &Bytes,
        table: Table,
    ) -> Result<(u32, Known), BrokerFault>
        ensures { LoadIs name.now (program_of image.now table) result }
    {
        let mut catalogue = self.catalogue().lock(rt);
        match catalogue.load(alloc, name, image, table) {
            Ok(loaded) => Ok(loaded),
            Err(fault) => Err(BrokerFault::Catalogue(fault)),
        }
    }

    /// A finder, which has returned no version yet. It fails as `Catalogue` with `NoReader`, where
    /// 64 readers are there or none can be made.
    pub fn finder<R: Wait>(&self, rt: &R, alloc: Global) -> Result<Finder, BrokerFault>
        ensures ok { IfOk result (λ finder. finder ≡ record { versions = []; readings = record { times = 0; loads = [] } }) }
        ensures err { IfErr result IsNoReader }
    {
        let catalogue = self.catalogue().lock(rt);
        match catalogue.reader(alloc) {
            Ok(finder) => Ok(finder),
            Err(fault) => Err(BrokerFault::Catalogue(fault)),
        }
    }
}
