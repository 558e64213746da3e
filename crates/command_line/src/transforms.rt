//! The words of a transform.

ghost use Rattle.std.specs.Prelude.{◌≡◌, false, IfOk, IfSome};
ghost use Rattle.command_line.specs.Calls.{names_of, AreDistinct, IsAccepted};

use crate::call::{Call, Misuse};
use log_spec::MAX_PARTITIONS;
use machine_spec::Table;

/// Whether two words are the same.
fn has_twice(words: &[String]) -> bool
    ensures { result ≡ false → AreDistinct (names_of words.now) }
{
    for index in 0..words.len() {
        if words[..index].contains(&words[index]) {
            return true;
        }
    }
    false
}

/// The helper table that a transform names, and its files: the first word may be `table2`.
fn table_and_files(words: &[String]) -> (Option<Table>, &[String]) {
    if !words.is_empty() && words[0].as_str() == "table2" {
        (Some(Table::Two), &words[1..])
    } else {
        (None, words)
    }
}

/// The call of `transform`, if the first word is that. `table2` may follow, and then 3 to 66 files, no
/// two of them the same.
pub(crate) fn transform_of(words: &[String]) -> Option<Result<Call<'_>, Misuse>>
    ensures { IfSome result (λ called. IfOk called IsAccepted) }
{
    if words.is_empty() || words[0].as_str() != "transform" {
        return None;
    }
    let (table, files) = table_and_files(&words[1..]);
    if files.len() < 3 || files.len() > MAX_PARTITIONS + 2 || has_twice(files) {
        return Some(Err(Misuse::Usage));
    }
    Some(Ok(Call::Transform(table, files)))
}
