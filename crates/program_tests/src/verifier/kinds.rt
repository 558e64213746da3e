//! What is known of registers, as texts.

use abstract_regs::State;
use machine_spec::Region;
use verifier_spec::Abs;

fn region_of(word: &str) -> Option<Region> {
    match word {
        "Stack" => Some(Region::Stack),
        "Key" => Some(Region::Key),
        "Value" => Some(Region::Value),
        _ => None,
    }
}

fn number_of(low: &str, high: &str) -> Option<Abs> {
    match (low.parse(), high.parse()) {
        (Ok(low), Ok(high)) => Some(Abs::Num(low, high)),
        _ => None,
    }
}

fn address_of(region: Region, low: &str, high: &str) -> Option<Abs> {
    match (low.parse(), high.parse()) {
        (Ok(low), Ok(high)) => Some(Abs::Addr(region, low, high)),
        _ => None,
    }
}

/// A kind: `none`, a number as `5 to 9`, `length of Key`, or an address as `Key 0 to 4`.
pub(crate) fn kind_of_text(text: &str) -> Option<Abs> {
    if text == "none" {
        return Some(Abs::None);
    }
    if let Some(region) = text.strip_prefix("length of ") {
        return Some(Abs::Len(region_of(region)?));
    }
    let (start, high) = text.split_once(" to ")?;
    match start.split_once(' ') {
        Some((region, low)) => address_of(region_of(region)?, low, high),
        None => number_of(start, high),
    }
}

/// Whether this is the kind of a text; where there is no state, `refused` is.
pub(crate) fn is_kind(state: &Option<State>, register: usize, want: &str) -> bool {
    match state {
        Some(state) => kind_of_text(want) == Some(state.kind(register)),
        None => want == "refused",
    }
}
