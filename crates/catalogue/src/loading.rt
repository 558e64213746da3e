//! What a load makes of a table, before anything is published.
ghost use Rattle.std.specs.Prelude.{◌≡◌, ◌+◌, None, Some, IfOk, IfErr, OnOk, true};
ghost use Rattle.machine_spec.specs.Image.{program_of};
ghost use Rattle.log_spec.specs.Catalogue.{among, count_of, is_name, live_refusal};
ghost use Rattle.catalogue.specs.Catalogues.{LoadsAs};

use crate::known::Known;
use crate::versions::Versions;
use bytes::Bytes;
use log_spec::{Name, Refusal};
use machine_spec::Table;
use program_table::{admit, has_name_form};
use std::alloc::Global;

/// How many names are loaded at most.
const MOST_NAMES: usize = 64;

/// The greatest version.
const MOST_VERSIONS: u32 = 0xffff_ffff;

/// The number of a name's next version; a refusal is the first one.
fn next_number(table: &Versions, name: &Name) -> Result<u32, Refusal>
    requires { is_name name.now ≡ true }
    ensures ok { IfOk result (λ number. number ≡ count_of (among table.now name.now) + 1) }
    ensures free { OnOk result (live_refusal table.now name.now ≡ None) }
    ensures err { IfErr result (λ refusal. live_refusal table.now name.now ≡ Some refusal) }
{
    match table.get(name) {
        None => {
            if table.len() >= MOST_NAMES {
                return Err(Refusal::Full);
            }
            Ok(1)
        }
        Some((number, _)) => {
            if number >= MOST_VERSIONS {
                return Err(Refusal::Versions);
            }
            Ok(number + 1)
        }
    }
}

/// The version that a load makes of an image, as a program of a helper table, or the load's first
/// refusal.
pub(crate) fn next_version(
    alloc: Global,
    live: &Versions,
    name: &Name,
    image: &Bytes,
    table: Table,
) -> Result<Known, Refusal>
    ensures { LoadsAs live.now name.now (program_of image.now table) result }
{
    if !has_name_form(name.text.as_str()) {
        return Err(Refusal::Name);
    }
    match next_number(live, name) {
        Err(refusal) => Err(refusal),
        Ok(number) => match admit(alloc, image, table) {
            Err(refusal) => Err(refusal),
            Ok(program) => Ok(Known::new(name.again(), number, program)),
        },
    }
}
