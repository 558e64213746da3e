ghost use Rattle.std.specs.Prelude.{◌≡◌, List, ℕ, [], Option, option_map, IfOk, IfErr, OnOk, OnErr};
ghost use Rattle.std.specs.Arc.{arc_value};
ghost use Rattle.left_right.specs.Sides.{view};
ghost use Rattle.log_spec.specs.Catalogue.{LiveTable, among};
ghost use Rattle.catalogue.specs.Faults.{IsFindFault};
ghost use Rattle.catalogue.specs.Finders.{Finds};
ghost use Rattle.catalogue.specs.Publications.{Reads, StartsWith};
ghost use Rattle.catalogue.specs.Versions.{number_and_program, under_name, newer, Keeps, SeesNewest, IsNoOlder, IsThisOrLater};

use crate::edition::Edition;
use crate::fault::CatFault;
use crate::known::Known;
use crate::publications::{Looks, Publications};
use crate::readings::Readings;
use crate::versions::Versions;
use core::mem::replace_with;
use left_right::reader::Reader;
use log_item::Program;
use log_spec::Name;
use std::alloc::{AllocError, Global};
use std::marker::Model;
use std::sync::Arc;

/// A reader of what is published, between two readings.
pub(crate) type TableReader = Reader<Edition, Readings, Publications>;

/// A reader's side. Contracts see the versions that it returned, the last one of each name, and its
/// readings.
#[derive(Drop)]
pub struct Finder {
    reader: TableReader,
    seen: Versions,
}

impl Model for Finder {
    ghost use Rattle.left_right.specs.Sides.{view as known_at};
    ghost use Rattle.catalogue.specs.Finders.{Seen};

    ghost Value = { Seen };

    ghost view = { λ f. record { versions = f.seen; readings = known_at f.reader.place } };
}

/// What is known of a name.
fn known_version<'a>(known: &'a Known, name: &Name) -> Option<(u32, &'a Arc<Program>)>
    ensures { option_map (λ found. (found.0, arc_value found.1.now)) result ≡ under_name known.now name.now }
{
    if known.name().text.as_str() == name.text.as_str() {
        Some((known.version(), known.program()))
    } else {
        None
    }
}

/// The version with the greater number; of two equal ones the first.
fn newer<'a>(
    first: Option<(u32, &'a Arc<Program>)>,
    second: Option<(u32, &'a Arc<Program>)>,
) -> Option<(u32, &'a Arc<Program>)>
    ensures { option_map (λ found. (found.0, arc_value found.1.now)) result ≡ newer (option_map (λ found. (found.0, arc_value found.1.now)) first.entry) (option_map (λ found. (found.0, arc_value found.1.now)) second.entry) }
{
    match (first, second) {
        (None, second) => second,
        (first, None) => first,
        (Some(first), Some(second)) => {
            if first.0 < second.0 {
                Some(second)
            } else {
                Some(first)
            }
        }
    }
}

/// Another owner of a version's program.
fn shared(found: Option<(u32, &Arc<Program>)>) -> Result<Option<(u32, Arc<Program>)>, CatFault>
    ensures ok { IfOk result (λ copy. number_and_program copy ≡ option_map (λ found. (found.0, arc_value found.1.now)) found.entry) }
    ensures err { IfErr result IsFindFault }
{
    match found {
        None => Ok(None),
        Some((version, program)) => match Arc::try_clone(program) {
            Ok(program) => Ok(Some((version, program))),
            Err(_) => Err(CatFault::Memory),
        },
    }
}

/// The last version of a name in the published table.
fn read_version(
    reader: TableReader,
    name: &Name,
) -> (TableReader, Result<Option<(u32, Arc<Program>)>, CatFault>)
    ensures read { IfOk result.1 (λ read. (table : LiveTable) × Reads (view reader.place) table (view result.0.place) × (number_and_program read ≡ among table name.now)) }
    ensures later { StartsWith (view result.0.place).loads (view reader.place).loads }
    ensures fault { IfErr result.1 IsFindFault }
{
    match reader.enter_as::<Looks>() {
        Err(reader) => (reader, Err(CatFault::NoReader)),
        Ok(reading) => {
            let read = shared(reading.get().table().get(name));
            (reading.leave(), read)
        }
    }
}

/// The newest of what is known, what was seen and what was read.
fn newest(
    known: &Known,
    seen: &Versions,
    read: &Option<(u32, Arc<Program>)>,
    name: &Name,
) -> Result<Option<(u32, Arc<Program>)>, CatFault>
    ensures ok { IfOk result (λ found. number_and_program found ≡ newer (newer (under_name known.now name.now) (among seen.now name.now)) (number_and_program read.now)) }
    ensures err { IfErr result IsFindFault }
{
    let read = match read {
        Some(read) => Some((read.0, &read.1)),
        None => None,
    };
    let newest = newer(newer(known_version(known, name), seen.get(name)), read);
    shared(newest)
}

/// Keeps a version of a name in the place of the one before.
fn keep(
    seen: &mut Versions,
    name: &Name,
    version: u32,
    program: Arc<Program>,
) -> Result<(), AllocError>
    ensures ok { OnOk result (Keeps seen.old seen.new name.now (version, arc_value program)) }
    ensures err { OnErr result (seen.new ≡ seen.old) }
{
    seen.put(Known::new(name.again(), version, program))
}

/// The newest version of a name, which is seen from then on.
fn find_newest(
    seen: &mut Versions,
    read: &Option<(u32, Arc<Program>)>,
    name: &Name,
    known: &Known,
) -> Result<Option<(u32, Arc<Program>)>, CatFault>
    ensures ok { IfOk result (λ found. SeesNewest known.now name.now (number_and_program read.now) seen.old seen.new (number_and_program found)) }
    ensures err { OnErr result (seen.new ≡ seen.old) }
    ensures fault { IfErr result IsFindFault }
{
    let Some((version, program)) = newest(known, seen, read, name)? else {
        return Ok(None);
    };
    let Ok(kept) = Arc::try_clone(&program) else {
        return Err(CatFault::Memory);
    };
    match keep(seen, name, version, kept) {
        Ok(()) => Ok(Some((version, program))),
        Err(_) => Err(CatFault::Memory),
    }
}

impl Finder {
    pub(crate) fn new(alloc: Global, reader: TableReader) -> Finder
        ensures { result ≡ record { versions = []; readings = view reader.place } }
    {
        Finder {
            reader,
            seen: Versions::new(alloc),
        }
    }

    /// The last version of a name with its program, none where no version is published, known or
    /// was seen. It is no older than in the table that this call reads. Under the name of `known` it
    /// is `known` itself or a later version, and it is never an older one than this finder returned
    /// before. Fails where the reader gets no table (the catalogue is gone) or memory runs out; it has
    /// then seen no more versions than before, and knows of all loads that it knew of.
    pub fn find(
        &mut self,
        name: &Name,
        known: &Known,
    ) -> Result<Option<(u32, Arc<Program>)>, CatFault>
        ensures found { IfOk result (λ found. Finds known.now name.now self.old self.new (number_and_program found)) }
        ensures known { IfOk result (λ found. known.now.name ≡ name.now → IsThisOrLater known.now (number_and_program found)) }
        ensures never_back { (other : List ℕ) → IsNoOlder (among self.old.versions other) (among self.new.versions other) }
        ensures err { OnErr result ((self.new.versions ≡ self.old.versions) × StartsWith self.new.readings.loads self.old.readings.loads) }
        ensures fault { IfErr result IsFindFault }
    {
        let read = replace_with(&mut self.reader, name, read_version)?;
        find_newest(&mut self.seen, &read, name, known)
    }
}
