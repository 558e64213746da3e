//! The catalogue beside the core.

use crate::schedules::making::load_of;
use crate::schedules::play::{Lane, asked, is_same_append};
use bytes::Bytes;
use catalogue::{Catalogue, Finder, Known};
use fixtures::{BOTH, NULLS};
use log_spec::{Event, Name, Reply};
use machine_spec::Table;
use part_log::{Names, Program};
use std::alloc::Global;
use std::sync::{Arc, Wait};
use world::World;

/// The name that programs are loaded under.
const NAME: &str = "p";

/// The catalogue, a finder of it, and the version that was loaded last.
#[derive(Drop)]
pub(crate) struct Desk<R: Wait + Drop> {
    catalogue: Catalogue<R>,
    finder: Finder,
    known: Known,
}

/// Loads an image; the version, and what is known then.
fn load_image<R: Wait + Drop>(
    alloc: Global,
    catalogue: &mut Catalogue<R>,
    image: &[u8],
) -> Option<(u32, Known)> {
    match Bytes::copy_from_slice(alloc, image) {
        Ok(image) => catalogue.load(alloc, NAME, &image, Table::One).ok(),
        Err(_) => None,
    }
}

/// Whether the core loads an image as this version.
fn loads(alloc: Global, core: &mut World, image: &[u8], version: u32) -> bool {
    match load_of(alloc, NAME, image, Table::One) {
        Some(event) => asked(alloc, core, event) == Ok(Reply::Loaded(version)),
        None => false,
    }
}

/// What is known after a load that the core makes too.
fn load_both<R: Wait + Drop>(
    alloc: Global,
    catalogue: &mut Catalogue<R>,
    core: &mut World,
    image: &[u8],
) -> Option<Known> {
    match load_image(alloc, catalogue, image) {
        Some((version, known)) if loads(alloc, core, image, version) => Some(known),
        _ => None,
    }
}

/// A desk with the first version, which the core loads too.
pub(crate) fn open<R: Wait + Drop>(rt: R, alloc: Global, core: &mut World) -> Option<Desk<R>> {
    match Catalogue::new(rt, alloc) {
        Ok(catalogue) => open_with(alloc, catalogue, core),
        Err(_) => None,
    }
}

fn open_with<R: Wait + Drop>(
    alloc: Global,
    catalogue: Catalogue<R>,
    core: &mut World,
) -> Option<Desk<R>> {
    let mut catalogue = catalogue;
    let finder = catalogue.reader(alloc);
    match (finder, load_both(alloc, &mut catalogue, core, &BOTH)) {
        (Ok(finder), Some(known)) => Some(Desk {
            catalogue,
            finder,
            known,
        }),
        _ => None,
    }
}

/// Loads the second version; whether the core does too.
pub(crate) fn load<R: Wait + Drop>(alloc: Global, desk: &mut Desk<R>, core: &mut World) -> bool {
    match load_both(alloc, &mut desk.catalogue, core, &NULLS) {
        Some(known) => {
            desk.known = known;
            true
        }
        None => false,
    }
}

/// Marks a version.
fn mark_found<Id: Names, W: Wait>(
    rt: &W,
    alloc: Global,
    lane: &Lane<Id>,
    name: Name,
    found: (u32, Arc<Program>),
    core: &mut World,
) -> bool {
    let (version, program) = found;
    let got = lane.log.mark(rt, alloc, name.again(), version, program);
    let event = Event::Mark(lane.input, name, version);
    is_same_append(&got, asked(alloc, core, event))
}

/// The version that a finder finds.
fn found<R: Wait + Drop>(desk: &mut Desk<R>, name: &Name) -> Option<(u32, Arc<Program>)> {
    match desk.finder.find(name, &desk.known) {
        Ok(found) => found,
        Err(_) => None,
    }
}

/// Marks the version that a finder finds.
pub(crate) fn mark<Id: Names, R: Wait + Drop, W: Wait>(
    rt: &W,
    alloc: Global,
    lane: &Lane<Id>,
    desk: &mut Desk<R>,
    core: &mut World,
) -> bool {
    let Some(name) = Name::new(NAME) else {
        return false;
    };
    match found(desk, &name) {
        Some(found) => mark_found(rt, alloc, lane, name, found, core),
        None => false,
    }
}
