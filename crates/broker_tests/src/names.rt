use bytes::Bytes;
use catalogue::{CatFault, Catalogue, Finder, Known};
use fixtures::FORWARD;
use log_spec::Name;
use machine_spec::Table;
use std::alloc::Global;
use std::sync::{Arc, Wait};
use std::test::*;

/// The version of a name that is found.
fn find(finder: &mut Finder, name: &str, known: &Known) -> Result<Option<u32>, CatFault> {
    let Some(name) = Name::new(name) else {
        return Ok(None);
    };
    match finder.find(&name, known) {
        Ok(Some((version, _program))) => Ok(Some(version)),
        Ok(None) => Ok(None),
        Err(fault) => Err(fault),
    }
}

/// What is known after a load of the forwarding program.
fn load<R: Wait + Drop>(alloc: Global, catalogue: &mut Catalogue<R>) -> Result<Known, CatFault> {
    let Ok(image) = Bytes::copy_from_slice(alloc, &FORWARD) else {
        return Err(CatFault::Memory);
    };
    match catalogue.load(alloc, "fwd", &image, Table::One) {
        Ok((_version, known)) => Ok(known),
        Err(fault) => Err(fault),
    }
}

/// A name, and the version that is found of it.
type Found = (&'static str, Result<Option<u32>, CatFault>);

/// After one load, after another one, and once the catalogue is gone.
static ONE: [Found; 2] = [("fwd", Ok(Some(1))), ("other", Ok(None))];

static TWO: [Found; 1] = [("fwd", Ok(Some(2)))];

static GONE: [Found; 1] = [("fwd", Err(CatFault::NoReader))];

/// Whether a finder finds this.
fn finds(finder: &mut Finder, known: &Known, rows: &[Found]) -> bool {
    for (name, want) in rows {
        if find(finder, name, known) != *want {
            return false;
        }
    }
    true
}

/// What is known after another load, if a finder finds before and after it what it must.
fn load_newer<R: Wait + Drop>(
    alloc: Global,
    catalogue: &mut Catalogue<R>,
    finder: &mut Finder,
    known: &Known,
) -> Option<Known> {
    if !finds(finder, known, &ONE) {
        return None;
    }
    match load(alloc, catalogue) {
        Ok(newer) if finds(finder, known, &TWO) => Some(newer),
        _ => None,
    }
}

/// What is known after the second of two loads, if a finder finds after each what it must by what was
/// known after the first.
fn load_two<R: Wait + Drop>(
    alloc: Global,
    catalogue: &mut Catalogue<R>,
    finder: &mut Finder,
) -> Option<Known> {
    match load(alloc, catalogue) {
        Ok(known) => load_newer(alloc, catalogue, finder, &known),
        Err(_) => None,
    }
}

/// What is known last, and the catalogue is gone then.
fn left_over<R: Wait + Drop>(
    alloc: Global,
    catalogue: Catalogue<R>,
    finder: &mut Finder,
) -> Option<Known> {
    let mut catalogue = catalogue;
    load_two(alloc, &mut catalogue, finder)
}

/// Whether a finder finds what it must, and nothing in a catalogue that is gone.
fn finds_last<R: Wait + Drop>(alloc: Global, catalogue: Catalogue<R>, finder: &mut Finder) -> bool {
    match left_over(alloc, catalogue, finder) {
        Some(newer) => finds(finder, &newer, &GONE),
        None => false,
    }
}

fn with_finder<R: Wait + Drop>(
    alloc: Global,
    catalogue: Catalogue<R>,
) -> Option<(Catalogue<R>, Finder)> {
    match catalogue.reader(alloc) {
        Ok(finder) => Some((catalogue, finder)),
        Err(_) => None,
    }
}

/// A catalogue and a finder of it.
fn begin<R: Wait>(rt: &R, alloc: Global) -> Option<(Catalogue<&R>, Finder)> {
    match Catalogue::new(rt, alloc) {
        Ok(catalogue) => with_finder(alloc, catalogue),
        Err(_) => None,
    }
}

#[test]
fn finders_find_the_last_version(rt: HostRuntime) {
    let alloc = rt.alloc();
    let is_right = match begin(&rt, alloc) {
        Some((catalogue, mut finder)) => finds_last(alloc, catalogue, &mut finder),
        None => false,
    };
    assert!(rt; is_right);
}

/// Adds a finder; whether it could.
fn is_added<R: Wait + Drop>(
    alloc: Global,
    catalogue: &Catalogue<R>,
    finders: &mut Vec<Finder>,
) -> bool {
    match catalogue.reader(alloc) {
        Ok(finder) => finders.push(finder).is_ok(),
        Err(_) => false,
    }
}

/// As many finders as there are.
fn all_finders<R: Wait + Drop>(alloc: Global, catalogue: &Catalogue<R>) -> Option<Vec<Finder>> {
    let mut finders = Vec::new(alloc);
    for _ in 0..64 {
        if !is_added(alloc, catalogue, &mut finders) {
            return None;
        }
    }
    Some(finders)
}

/// Why there is no finder.
fn refusal<R: Wait + Drop>(alloc: Global, catalogue: &Catalogue<R>) -> Option<CatFault> {
    catalogue.reader(alloc).err()
}

/// Whether there is no finder beside these, and one when one of them is gone.
fn are_all<R: Wait + Drop>(
    alloc: Global,
    catalogue: &Catalogue<R>,
    finders: &mut Vec<Finder>,
) -> bool {
    let is_last = refusal(alloc, catalogue) == Some(CatFault::NoReader);
    drop(finders.pop());
    is_last && refusal(alloc, catalogue).is_none()
}

fn has_finders<R: Wait + Drop>(alloc: Global, catalogue: &Catalogue<R>) -> bool {
    match all_finders(alloc, catalogue) {
        Some(mut finders) => are_all(alloc, catalogue, &mut finders),
        None => false,
    }
}

fn has_all_finders<R: Wait>(rt: &R, alloc: Global) -> bool {
    match Catalogue::new(rt, alloc) {
        Ok(catalogue) => has_finders(alloc, &catalogue),
        Err(_) => false,
    }
}

#[test]
fn a_catalogue_has_64_readers(rt: HostRuntime) {
    assert!(rt; has_all_finders(&rt, rt.alloc()));
}

/// Whether another load has this version, and that is the one that is found then.
fn is_replaced<R: Wait + Drop>(
    alloc: Global,
    catalogue: &mut Catalogue<R>,
    finder: &mut Finder,
    known: &Known,
    version: u32,
) -> bool {
    match load(alloc, catalogue) {
        Ok(newer) => newer.version() == version && find(finder, "fwd", known) == Ok(Some(version)),
        Err(_) => false,
    }
}

/// Whether the first program is given up once a hundred more were loaded, and each was found.
fn are_replaced<R: Wait + Drop>(
    alloc: Global,
    catalogue: &mut Catalogue<R>,
    finder: &mut Finder,
    known: &Known,
) -> bool {
    for version in 2..101 {
        if !is_replaced(alloc, catalogue, finder, known, version) {
            return false;
        }
    }
    Arc::strong_count(known.program()) == 1
}

fn is_given_up<R: Wait + Drop>(
    alloc: Global,
    catalogue: &mut Catalogue<R>,
    finder: &mut Finder,
) -> bool {
    match load(alloc, catalogue) {
        Ok(known) => find(finder, "fwd", &known) == Ok(Some(1))
            && are_replaced(alloc, catalogue, finder, &known),
        Err(_) => false,
    }
}

#[test]
fn an_old_program_is_given_up(rt: HostRuntime) {
    let alloc = rt.alloc();
    let is_right = match begin(&rt, alloc) {
        Some((mut catalogue, mut finder)) => is_given_up(alloc, &mut catalogue, &mut finder),
        None => false,
    };
    assert!(rt; is_right);
}
