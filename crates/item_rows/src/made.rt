//! Records that programs made, whose values are spelled where a row is asked for.

ghost use Rattle.std.specs.Prelude.{◌≡◌, IfOk};
ghost use Rattle.helpers.specs.Emitted.{emission_of};
ghost use Rattle.item_rows.specs.RowParts.{row_by};

use crate::given::Given;
use crate::numbers::RowNumbers;
use helpers::Draft;
use log_spec::RowRef;
use machine_spec::Emission;
use std::alloc::{AllocError, Global};
use std::marker::Model;

/// A record that a program made of a given one, of which it may have parts. A clause sees the emission.
#[derive(Drop)]
pub(crate) struct MadeRecord<'a> {
    given: Given<'a>,
    draft: Draft,
}

impl<'a> Model for MadeRecord<'a> {
    ghost use Rattle.machine_spec.specs.declared.outcome.Emission.{Emission};
    ghost use Rattle.helpers.specs.Emitted.{emission_of};

    ghost Value = { Emission };

    ghost view = { λ m. emission_of m.given m.draft };
}

impl<'a> MadeRecord<'a> {
    /// What a program made of a record.
    #[inline(always)]
    pub(crate) fn new(given: &Given<'a>, draft: Draft) -> MadeRecord<'a>
        ensures { result ≡ emission_of given.now draft }
    {
        MadeRecord {
            given: given.again(),
            draft,
        }
    }

    /// The row of these numbers with the parts of the made record. A value that is nowhere in one piece is written to
    /// the room. It fails only where memory runs out.
    #[inline(always)]
    pub(crate) fn row<'r>(
        &'r self,
        numbers: &RowNumbers,
        room: &'r mut Vec<u8>,
    ) -> Result<RowRef<'r>, AllocError>
        ensures { IfOk result (λ row. row ≡ row_by numbers.now self.now) }
    {
        let given = self.given.record();
        let value = self.draft.value.spelled(&given, room)?;
        let key = self.draft.key.spelled(&given);
        Ok(numbers.with_parts(key, value, self.draft.headers.spelled(&given)))
    }

    /// The emission, which owns its value. It fails only where memory runs out.
    fn into_emission(self, alloc: Global) -> Result<Emission, AllocError>
        ensures { IfOk result (λ emission. emission ≡ self.entry) }
    {
        let MadeRecord { given, draft } = self;
        draft.into_emission(alloc, &given.record())
    }
}

/// The emissions of made records, which own their values. It fails only where memory runs out.
pub(crate) fn emissions(
    alloc: Global,
    mut records: Vec<MadeRecord>,
) -> Result<Vec<Emission>, AllocError>
    ensures { IfOk result (λ made. made.items ≡ records.entry.items) }
{
    let mut made = Vec::with_capacity(alloc, records.len())?;
    for one in records.drain(..) {
        made.push(one.into_emission(alloc)?)?;
    }
    Ok(made)
}
