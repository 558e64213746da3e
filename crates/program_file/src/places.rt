//! Where an instruction comes from.

ghost use Rattle.std.specs.Prelude.{◌≡◌, option_map};
ghost use Rattle.program_file.specs.Choice as definitions;

use crate::file::{Place, Places};

/// What the last of places up to a slot says.
#[tactic(auto, using(crate::proofs::LastPlaces::or_none, crate::proofs::LastPlaces::or_or))]
fn last_text(places: &[Place], slot: usize) -> Option<&str>
    ensures { option_map (λ text. text.now) result ≡ definitions.place_at slot places.now }
{
    let mut found = None;
    for place in places {
        if place.slot as usize <= slot {
            found = Some(place.text.as_str());
        }
    }
    found
}

/// What the last place up to a slot says: where the instruction at the slot comes from, if that is known.
pub fn place_at(places: &Places, slot: usize) -> Option<&str>
    ensures { option_map (λ text. text.now) result ≡ definitions.place_at slot places.now }
{
    last_text(&places.list, slot)
}
