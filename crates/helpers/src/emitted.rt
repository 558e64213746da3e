//! What a program emitted for a record: a mark where the record has all parts of it.
ghost use Rattle.std.specs.Prelude.{◌≡◌, ◌++◌, [], IfOk, OnOk};
ghost use Rattle.wire_spec.specs.declared.record.Record.{Record};
ghost use Rattle.helpers.specs.Emitted.{emission_in, emissions_in, emission_of};

use crate::drafts::Draft;
use crate::excerpts::Excerpt;
use kafka_record::RecordRef;
use machine_spec::{Emission, Emissions};
use std::alloc::{AllocError, Global};
use std::marker::Model;

/// What a program emitted for a record.
#[derive(Drop)]
pub enum Emitted {
    /// An excerpt of the record.
    Cut(Excerpt),
    /// A record that the program made.
    Made(Draft),
}

/// What a program emitted for a record, in order, at most 16 records. A clause sees it as the list of it.
pub struct EmittedList {
    pub list: Vec<Emitted>,
}

/// Many runs emit nothing: to drop an empty list takes no call.
impl Drop for EmittedList {
    #[inline(always)]
    fn drop(self) {
        let EmittedList { list } = self;
        if list.is_empty() {
            list.destroy_empty();
        } else {
            drop(list);
        }
    }
}

impl Model for EmittedList {
    ghost use Rattle.std.specs.Prelude.{List, ◌≤◌, length};
    ghost use Rattle.machine_spec.specs.declared.limits.TheConstants.{MAX_EMISSIONS};
    ghost use Rattle.helpers.specs.declared.emitted.Emitted.{Emitted};

    ghost Value = { List Emitted };

    ghost view = { λ e. e.list.items };

    ghost invariant = { λ e. length e.list.items ≤ MAX_EMISSIONS };
}

impl Emitted {
    /// The same as a draft.
    #[inline(always)]
    pub(crate) fn into_draft(self) -> Draft
        ensures { (given : Record) → emission_of given result ≡ emission_in given self }
    {
        match self {
            Emitted::Cut(excerpt) => Draft::cut(excerpt.out(), excerpt.slice()),
            Emitted::Made(draft) => draft,
        }
    }

    /// The emission of it for this record, which owns its parts. It fails only where memory runs out.
    #[inline(always)]
    fn into_emission(self, alloc: Global, given: &RecordRef) -> Result<Emission, AllocError>
        ensures { IfOk result (λ emission. emission ≡ emission_in given.now self) }
    {
        self.into_draft().into_emission(alloc, given)
    }
}

/// Adds the emissions for a record to a list. Nothing is left in the other list, but its room.
fn add_each(
    alloc: Global,
    given: &RecordRef,
    emitted: &mut Vec<Emitted>,
    made: &mut Vec<Emission>,
) -> Result<(), AllocError>
    ensures made { OnOk result (made.new.items ≡ made.old.items ++ emissions_in given.now emitted.old.items) }
    ensures none { emitted.new.items ≡ [] }
{
    for item in emitted.drain(..) {
        made.push(item.into_emission(alloc, given)?)?;
    }
    Ok(())
}

impl EmittedList {
    /// Nothing was emitted.
    pub fn new(alloc: Global) -> EmittedList
        ensures { result ≡ [] }
    {
        EmittedList {
            list: Vec::new(alloc),
        }
    }

    /// The emissions for a record, made of what a program emitted for it. It fails only where memory runs out;
    /// else nothing is left in the list, but its room. Many runs emit nothing, which takes a test alone.
    #[inline(always)]
    pub fn make_emissions(
        &mut self,
        alloc: Global,
        given: &RecordRef,
    ) -> Result<Emissions, AllocError>
        ensures made { IfOk result (λ made. made ≡ emissions_in given.now self.old) }
        ensures none { OnOk result (self.new ≡ []) }
    {
        if self.list.is_empty() {
            return Ok(Emissions {
                list: Vec::new(alloc),
            });
        }
        self.make_each(alloc, given)
    }

    /// The same where something was emitted.
    #[inline(never)]
    fn make_each(&mut self, alloc: Global, given: &RecordRef) -> Result<Emissions, AllocError>
        ensures made { IfOk result (λ made. made ≡ emissions_in given.now self.old) }
        ensures none { OnOk result (self.new ≡ []) }
    {
        let mut list = Vec::with_capacity(alloc, self.list.len())?;
        add_each(alloc, given, &mut self.list, &mut list)?;
        Ok(Emissions { list })
    }
}
