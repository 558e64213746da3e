//! Tables of tests: texts with a row a line.

use std::process::Abort;

/// The first row of a table that is not right, or can't be read. A line that begins with `#` says something of the rows
/// below it.
pub(crate) fn first_wrong<'a, F: Fn(&str) -> Option<bool>>(
    table: &'a str,
    is_right: F,
) -> Option<&'a str>
    requires { F.IsAlwaysCallable is_right }
{
    for row in table.lines() {
        if !row.starts_with('#') && is_right(row) != Some(true) {
            return Some(row);
        }
    }
    None
}

/// Each row of a table is right.
pub(crate) fn all_hold<F: Fn(&str) -> Option<bool>>(rt: &impl Abort, table: &str, is_right: F)
    requires { F.IsAlwaysCallable is_right }
{
    let wrong = first_wrong(table, is_right);
    assert!(rt; wrong.is_none(), "{wrong:?}");
}

/// The columns of a row that has three, or more in the last one.
pub(crate) fn three(row: &str) -> Option<(&str, &str, &str)> {
    let (first, rest) = row.split_once(" | ")?;
    let (second, third) = rest.split_once(" | ")?;
    Some((first, second, third))
}

/// The words of a row that are not read yet.
#[derive(Drop)]
pub(crate) struct Words<'a> {
    rest: &'a str,
}

impl<'a> Words<'a> {
    pub(crate) fn of(row: &'a str) -> Words<'a> {
        Words { rest: row }
    }

    /// The next word; none where the row has ended.
    pub(crate) fn word(&mut self) -> Option<&'a str> {
        let (word, rest) = self.rest.split_once(' ').unwrap_or((self.rest, ""));
        self.rest = rest;
        if word.is_empty() { None } else { Some(word) }
    }

    /// The next word as a number of base 16.
    pub(crate) fn number(&mut self) -> Option<u64> {
        u64::from_str_radix(self.word()?, 16).ok()
    }

    /// Whether the row has ended.
    pub(crate) fn is_read(&self) -> bool {
        self.rest.is_empty()
    }
}
