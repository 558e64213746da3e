ghost use Rattle.std.specs.Prelude.{◌≡◌, ◌<◌, ℕ, [], length, Option, None, true, take, slice_index_or, option_map, IfOk, IfNone, IfSome, OnOk, OnErr};
ghost use Rattle.std.specs.Arc.{arc_value};
ghost use Rattle.std.specs.Str.{bytes_eq};
ghost use Rattle.machine_spec.specs.Image.{Program};
ghost use Rattle.log_spec.specs.Catalogue.{Version, among, with_version};

use crate::known::Known;
use log_item::Program;
use log_spec::Name;
use std::alloc::{AllocError, Global};
use std::marker::Model;
use std::sync::Arc;

/// A version of each of some names, in the order in which the names came. Contracts see their list.
#[derive(Drop)]
pub struct Versions {
    list: Vec<Known>,
}

impl Model for Versions {
    ghost use Rattle.log_spec.specs.Catalogue.{LiveTable};

    ghost Value = { LiveTable };

    ghost view = { λ v. v.list.items };
}

/// The place of a name, if a version of it is there.
fn place_of(list: &[Known], name: &Name) -> Option<usize>
    ensures absent { IfNone result (among list.now name.now ≡ None) }
    ensures found { IfSome result (λ i. i < length list.now) }
    ensures first { IfSome result (λ i. among (take i list.now) name.now ≡ None) }
    ensures named { IfSome result (λ i. (d : Version) → bytes_eq (slice_index_or list.now i d).name name.now ≡ true) }
{
    for (i, known) in list.iter().enumerate() {
        if known.name().text.as_str() == name.text.as_str() {
            return Some(i);
        }
    }
    None
}

/// Puts a version in the place of the one of its name, or at the end.
fn put(list: &mut Vec<Known>, known: Known) -> Result<(), AllocError>
    ensures ok { OnOk result (list.new.items ≡ with_version list.old.items known) }
    ensures err { OnErr result (list.new.items ≡ list.old.items) }
{
    match place_of(list, known.name()) {
        Some(place) => list[place] = known,
        None => list.push(known)?,
    }
    Ok(())
}

/// The same versions, with room for one more.
fn again(alloc: Global, list: &[Known]) -> Result<Vec<Known>, AllocError>
    ensures { IfOk result (λ copies. copies.items ≡ list.now) }
{
    let mut copies = Vec::with_capacity(alloc, list.len().saturating_add(1))?;
    for known in list {
        copies.push(known.share()?)?;
    }
    Ok(copies)
}

impl Versions {
    /// The versions of no name.
    pub fn new(alloc: Global) -> Versions
        ensures { result ≡ [] }
    {
        Versions {
            list: Vec::new(alloc),
        }
    }

    /// How many names there are.
    pub fn len(&self) -> usize
        ensures { result ≡ length self.now }
    {
        self.list.len()
    }

    /// The number of a name's version, from 1, with its program, if there is one.
    pub fn get(&self, name: &Name) -> Option<(u32, &Arc<Program>)>
        ensures { option_map (λ found. (found.0, arc_value found.1.now)) result ≡ among self.now name.now }
    {
        let list = self.list.as_slice();
        match place_of(list, name) {
            None => None,
            Some(place) => {
                let known = &list[place];
                Some((known.version(), known.program()))
            }
        }
    }

    /// Puts a version in the place of the one of its name, or at the end. It fails only where
    /// memory runs out; an `Err` changes nothing.
    pub fn put(&mut self, known: Known) -> Result<(), AllocError>
        ensures ok { OnOk result (self.new ≡ with_version self.old known) }
        ensures err { OnErr result (self.new ≡ self.old) }
    {
        put(&mut self.list, known)
    }

    /// The same versions with this one put in. It fails only where memory runs out.
    pub fn with(&self, alloc: Global, known: Known) -> Result<Versions, AllocError>
        ensures { IfOk result (λ next. next ≡ with_version self.now known) }
    {
        let mut list = again(alloc, &self.list)?;
        put(&mut list, known)?;
        Ok(Versions { list })
    }
}
