//! Helper tables and extents by words.

ghost use Rattle.std.specs.Prelude.{◌≡◌};
ghost use Rattle.std.specs.Option.{option_copied};
ghost use Rattle.command_line.specs.Extents as definitions;

use explain::Coverage;
use machine_spec::Table;

/// The helper table that a word names, if there is a word. `None` where it names no table.
pub(crate) fn table_of(word: Option<&str>) -> Option<Option<Table>>
    ensures { result ≡ definitions.table_of (option_copied word.entry) }
{
    match word {
        None => Some(None),
        Some(word) if word == "1" => Some(Some(Table::One)),
        Some(word) if word == "2" => Some(Some(Table::Two)),
        Some(_) => None,
    }
}

/// How much is explained, by a word, if there is one.
fn extent_of(word: Option<&str>) -> Option<Coverage>
    ensures { result ≡ definitions.extent_of (option_copied word.entry) }
{
    match word {
        None => Some(Coverage::All),
        Some(word) if word == "refused" => Some(Coverage::Refused),
        Some(_) => None,
    }
}

/// The helper table that is named and how much is explained, by the words after a program. Either may be left out.
pub(crate) fn shown_of(
    first: Option<&str>,
    second: Option<&str>,
) -> Option<(Option<Table>, Coverage)>
    ensures { result ≡ definitions.shown_of (option_copied first.entry) (option_copied second.entry) }
{
    match table_of(first) {
        Some(table) => Some((table, extent_of(second)?)),
        None if second.is_none() => Some((None, extent_of(first)?)),
        None => None,
    }
}
