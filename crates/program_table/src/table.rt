ghost use Rattle.std.specs.Prelude.{◌≡◌, ◌<◌, length, [], ◌∷◌, ◌++◌, option_map, OnOk, OnErr, IfOk, false, true, map, take, IfNone, IfSome, slice_index_or};
ghost use Rattle.program_table.specs.declared.table.Entry.{Entry};
ghost use Rattle.std.specs.Arc.{arc_value};
ghost use Rattle.std.specs.Str.{bytes_eq};
ghost use Rattle.machine_spec.specs.Image.{program_of};
ghost use Rattle.log_spec.specs.Catalogue.{program_named, has_name, is_name};
ghost use Rattle.program_table.specs.Tables.{entry_view, table_view, LoadsInto, version_of};
ghost use Rattle.arrayvec.specs.ArrayVec.{array_vec_len};

use crate::admission::{admit, has_name_form};
use arrayvec::{ArrayString, ArrayVec};
use bytes::Bytes;
use log_item::Program;
use log_spec::{Name, Refusal};
use machine_spec::Table;
use std::alloc::{AllocError, Global};
use std::default::MadeWith;
use std::marker::Model;
use std::sync::Arc;

/// How many names are loaded at most.
const MOST_NAMES: usize = 64;

/// The greatest version.
const MOST_VERSIONS: usize = 0xffff_ffff;

/// A name with its programs, oldest first.
#[derive(Drop)]
pub struct Entry {
    pub name: Name,
    pub programs: Vec<Arc<Program>>,
}

/// What lies in a place of the table that has no name yet.
impl MadeWith<Global> for Entry {
    fn made_with(alloc: Global) -> Entry {
        Entry {
            name: Name {
                text: ArrayString::new(),
            },
            programs: Vec::new(alloc),
        }
    }
}

/// The names in the order of their first loads.
type Entries = ArrayVec<Entry, MOST_NAMES, Global>;

/// The programs that were loaded, by name.
#[derive(Drop)]
pub struct ProgramTable {
    entries: Entries,
}

impl Model for ProgramTable {
    ghost use Rattle.log_spec.specs.Catalogue.{ProgramTable as Loads};
    ghost use Rattle.program_table.specs.Tables.{table_view, IsTable};

    ghost Value = { Loads };

    ghost view = { λ t. table_view t.entries.items };

    ghost invariant = { λ t. IsTable (table_view t.entries.items) };
}

/// The place of a name, if it is loaded.
fn place_of(entries: &[Entry], name: &Name) -> Option<usize>
    ensures absent { IfNone result (has_name (table_view entries.now) name.now ≡ false) }
    ensures found { IfSome result (λ i. i < length entries.now) }
    ensures first { IfSome result (λ i. has_name (table_view (take i entries.now)) name.now ≡ false) }
    ensures named { IfSome result (λ i. (d : Entry) → bytes_eq (slice_index_or entries.now i d).name name.now ≡ true) }
{
    for (i, entry) in entries.iter().enumerate() {
        if entry.name.text.as_str() == name.text.as_str() {
            return Some(i);
        }
    }
    None
}

/// Adds a program to a name; on `Err` it has the programs that it had.
fn add_program(entry: &mut Entry, program: Arc<Program>) -> Result<(), AllocError>
    ensures name { entry.new.name ≡ entry.old.name }
    ensures ok { OnOk result (entry.new.programs.items ≡ entry.old.programs.items ++ program ∷ []) }
    ensures err { OnErr result (entry_view entry.new ≡ entry_view entry.old) }
{
    entry.programs.push(program)?;
    Ok(())
}

/// One more program of the name at a place.
fn add_version(
    alloc: Global,
    entries: &mut [Entry],
    place: usize,
    name: &Name,
    image: &Bytes,
    table: Table,
) -> Result<u32, Refusal>
    requires form { is_name name.now ≡ true }
    requires inside { place < length entries.old }
    requires first { has_name (table_view (take place entries.old)) name.now ≡ false }
    requires named { (d : Entry) → bytes_eq (slice_index_or entries.old place d).name name.now ≡ true }
    ensures { LoadsInto (table_view entries.old) name.now (program_of image.now table) result (table_view entries.new) }
{
    let versions = entries[place].programs.len();
    if versions >= MOST_VERSIONS {
        return Err(Refusal::Versions);
    }
    match admit(alloc, image, table) {
        Err(refusal) => Err(refusal),
        Ok(program) => match add_program(&mut entries[place], program) {
            Err(_) => Err(Refusal::Memory),
            Ok(()) => Ok(versions as u32 + 1),
        },
    }
}

/// The first program of a name that is not loaded.
fn add_name(
    alloc: Global,
    entries: &mut Entries,
    name: &Name,
    image: &Bytes,
    table: Table,
) -> Result<u32, Refusal>
    requires form { is_name name.now ≡ true }
    requires new { has_name (table_view entries.old.items) name.now ≡ false }
    ensures { LoadsInto (table_view entries.old.items) name.now (program_of image.now table) result (table_view entries.new.items) }
{
    if entries.is_full() {
        return Err(Refusal::Full);
    }
    match admit(alloc, image, table) {
        Err(refusal) => Err(refusal),
        Ok(program) => match add_entry(alloc, entries, name, program) {
            Err(_) => Err(Refusal::Memory),
            Ok(()) => Ok(1),
        },
    }
}

fn entry_of(alloc: Global, name: &Name, program: Arc<Program>) -> Result<Entry, AllocError>
    ensures { IfOk result (λ entry. entry_view entry ≡ record { name = name.now; programs = arc_value program ∷ [] }) }
{
    let mut programs = Vec::new(alloc);
    programs.push(program)?;
    Ok(Entry {
        name: name.again(),
        programs,
    })
}

fn add_entry(
    alloc: Global,
    entries: &mut Entries,
    name: &Name,
    program: Arc<Program>,
) -> Result<(), AllocError>
    requires { array_vec_len entries.old < 64 }
    ensures ok { OnOk result (table_view entries.new.items ≡ table_view entries.old.items ++ record { name = name.now; programs = arc_value program ∷ [] } ∷ []) }
    ensures err { OnErr result (table_view entries.new.items ≡ table_view entries.old.items) }
{
    let entry = entry_of(alloc, name, program)?;
    entries.push(entry);
    Ok(())
}

impl ProgramTable {
    /// The table of no names.
    pub fn new(alloc: Global) -> ProgramTable
        ensures { result ≡ [] }
    {
        ProgramTable {
            entries: ArrayVec::new_in(alloc),
        }
    }

    /// Loads an image under a name, as a program of a helper table, and returns the name's version,
    /// from 1. It fails with the first refusal: of the name's form, of 64 other names, of versions used
    /// up, of the program; or with `Memory`. An `Err` changes nothing.
    pub fn load(
        &mut self,
        alloc: Global,
        name: &Name,
        image: &Bytes,
        table: Table,
    ) -> Result<u32, Refusal>
        ensures { LoadsInto self.old name.now (program_of image.now table) result self.new }
    {
        if !has_name_form(name.text.as_str()) {
            return Err(Refusal::Name);
        }
        match place_of(&self.entries, name) {
            Some(place) => add_version(alloc, &mut self.entries, place, name, image, table),
            None => add_name(alloc, &mut self.entries, name, image, table),
        }
    }

    /// The program that was loaded as a version of a name, from 1, if one was.
    pub fn version(&self, name: &Name, version: u32) -> Option<&Arc<Program>>
        ensures { option_map (λ program. arc_value program.now) result ≡ program_named self.now name.now version }
    {
        let entries = self.entries.as_slice();
        match place_of(entries, name) {
            None => None,
            Some(place) => program_at(&entries[place].programs, version),
        }
    }
}

/// The program of a version, from 1.
fn program_at(programs: &[Arc<Program>], version: u32) -> Option<&Arc<Program>>
    ensures { option_map (λ program. arc_value program.now) result ≡ version_of (map (λ program. arc_value program) programs.now) version }
{
    if version == 0 {
        return None;
    }
    let number = version as usize - 1;
    if number >= programs.len() {
        return None;
    }
    Some(&programs[number])
}
