//! Which part of a record a number names.
ghost use Rattle.std.specs.Prelude.{◌≡◌};
ghost use Rattle.machine_spec.specs.Parts as definitions;

/// A part of a record.
#[derive(Clone, Copy, Debug, PartialEq, Eq)]
pub enum Part {
    /// The value, number 0.
    Value,
    /// The key, number 1.
    Key,
    /// The key of the header at a position, from 0: number 2 + 2 * position.
    HeaderKey(u64),
    /// The value of the header at a position: number 3 + 2 * position.
    HeaderValue(u64),
}

impl Part {
    /// The part with a number.
    pub fn numbered(number: u64) -> Part
        ensures part { result ≡ definitions.part_numbered number }
        ensures number { definitions.number_of result ≡ number }
    {
        match number {
            0 => Part::Value,
            1 => Part::Key,
            _ if number % 2 == 0 => Part::HeaderKey(number / 2 - 1),
            _ => Part::HeaderValue(number / 2 - 1),
        }
    }
}
