ghost use Rattle.std.specs.Prelude.{◌≡◌, [], IfOk, IfErr, OnOk, OnErr, drop, fold};
ghost use Rattle.machine_spec.specs.Image.{program_of};
ghost use Rattle.log_spec.specs.Catalogue.{LiveTable, with_version};
ghost use Rattle.catalogue.specs.Catalogues.{Publishes};
ghost use Rattle.catalogue.specs.Publications.{IsOneMore};
ghost use Rattle.catalogue.specs.declared.fault.CatFault.TheVariants.{NoReader};

use crate::edition::Edition;
use crate::fault::{CatFault, fault_of};
use crate::finder::Finder;
use crate::known::Known;
use crate::loading::next_version;
use crate::publications::{Adds, Publications};
use crate::readings::Readings;
use crate::versions::Versions;
use bytes::Bytes;
use core::mem::replace_with;
use left_right::writer::Writer;
use log_spec::Name;
use machine_spec::Table;
use std::alloc::{AllocError, Global};
use std::marker::Model;
use std::sync::Wait;

/// How many readers there are at most at a time.
const READERS: usize = 64;

/// The writer of what is published.
type TableWriter = Writer<Edition, Edition, Readings, Publications>;

/// The loader's side. Contracts see the published table.
pub struct Catalogue<R: Wait + Drop> {
    writer: TableWriter,
    rt: R,
}

impl<R: Wait + Drop> Model for Catalogue<R> {
    ghost use Rattle.log_spec.specs.Catalogue.{LiveTable};

    ghost Value = { LiveTable };

    ghost view = { λ c. c.writer.desk.shown.value };
}

impl<R: Wait + Drop> Drop for Catalogue<R> {
    fn drop(self) {
        let Self { writer, rt } = self;
        drop(writer.take(&rt));
    }
}

/// Publishes what is pending, by which the published table has one more load.
fn publish_pending<R: Wait>(writer: TableWriter, rt: &R) -> (TableWriter, Result<(), AllocError>)
    requires { IsOneMore writer.desk.shown.value (fold (λ (table next : LiveTable). next) writer.desk.shown.value (drop writer.behind writer.log.items)) }
    ensures ok { OnOk result.1 (result.0.desk.shown.value ≡ fold (λ (table next : LiveTable). next) writer.desk.shown.value (drop writer.behind writer.log.items)) }
    ensures err { OnErr result.1 (result.0.desk.shown.value ≡ writer.desk.shown.value) }
{
    writer.publish_as::<Adds, R>(rt)
}

impl<R: Wait + Drop> Catalogue<R> {
    /// A catalogue of no names, with places for 64 readers. It fails only where memory runs out.
    pub fn new(rt: R, alloc: Global) -> Result<Catalogue<R>, AllocError>
        ensures { IfOk result (λ catalogue. catalogue ≡ []) }
    {
        let first = Edition::new(alloc, Versions::new(alloc))?;
        let second = first.again()?;
        let writer = Writer::new(alloc, first, second, READERS)?;
        Ok(Catalogue { writer, rt })
    }

    /// Loads an image under a name, as a program of a helper table, and publishes the programs with
    /// it. Returns the name's version, from 1, and what is then known of it. It waits for readers that
    /// still read what was published before. It fails with the first refusal: of the name's form, of
    /// 64 other names, of versions used up, of the program; or with `Memory`. An `Err` changes nothing.
    #[tactic(auto, using(log_spec::proofs::NameLaws::long_refused))]
    pub fn load(
        &mut self,
        alloc: Global,
        name: &str,
        image: &Bytes,
        table: Table,
    ) -> Result<(u32, Known), CatFault>
        ensures { Publishes self.old name.now (program_of image.now table) result self.new }
    {
        match Name::new(name) {
            None => Err(CatFault::Name),
            Some(name) => self.load_named(alloc, &name, image, table),
        }
    }

    /// The same under a name that is not too long.
    fn load_named(
        &mut self,
        alloc: Global,
        name: &Name,
        image: &Bytes,
        table: Table,
    ) -> Result<(u32, Known), CatFault>
        ensures { Publishes self.old name.now (program_of image.now table) result self.new }
    {
        let live = self.writer.published().table();
        match next_version(alloc, live, name, image, table) {
            Err(refusal) => Err(fault_of(refusal)),
            Ok(known) => {
                let Ok(next) = edition_with(alloc, live, &known) else {
                    return Err(CatFault::Memory);
                };
                let Ok(()) = self.publish(next) else {
                    return Err(CatFault::Memory);
                };
                Ok((known.version(), known))
            }
        }
    }

    /// Publishes a table in the place of the one before, whatever an earlier call left pending.
    fn publish(&mut self, next: Edition) -> Result<(), AllocError>
        requires { IsOneMore self.old next }
        ensures ok { OnOk result (self.new ≡ next) }
        ensures err { OnErr result (self.new ≡ self.old) }
    {
        self.writer.append(next).map_err(|_| AllocError)?;
        replace_with(&mut self.writer, &self.rt, publish_pending)
    }

    /// A reader, which has returned no version yet. It fails as `NoReader`, where 64 readers are
    /// there or none can be made.
    pub fn reader(&self, alloc: Global) -> Result<Finder, CatFault>
        ensures ok { IfOk result (λ finder. finder ≡ record { versions = []; readings = record { times = 0; loads = [] } }) }
        ensures err { IfErr result (λ fault. fault ≡ NoReader) }
    {
        match self.writer.factory().reader() {
            Ok(reader) => Ok(Finder::new(alloc, reader)),
            Err(_) => Err(CatFault::NoReader),
        }
    }
}

/// The table with a version put in, to be published.
fn edition_with(alloc: Global, table: &Versions, known: &Known) -> Result<Edition, AllocError>
    ensures { IfOk result (λ next. next ≡ with_version table.now known.now) }
{
    let next = table.with(alloc, known.share()?)?;
    Edition::new(alloc, next)
}
