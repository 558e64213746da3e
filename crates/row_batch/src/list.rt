//! Lists of rows in which a row is found by its number.

ghost use Rattle.std.specs.Prelude.{◌≡◌, ◌<◌, ◌≤◌, ◌^◌, length, Some, slice_get};

use log_spec::{Row, RowRef};
use segments::Segments;

/// A list of rows, in which a row is found by its number in constant time. Contracts see the list.
pub trait RowList {
    ghost use Rattle.std.specs.Prelude.{List};
    ghost use Rattle.log_spec.specs.declared.row.Row.{Row};

    ghost rows: { Self → List Row };

    /// How many rows there are.
    fn len(&self) -> usize
        ensures count { result ≡ length (rows self.now) }
        ensures few { result ≤ 2 ^ 62 };

    /// The row with a number, from 0.
    fn row(&self, number: usize) -> RowRef<'_>
        requires { number < length (rows self.now) }
        ensures { slice_get (rows self.now) number ≡ Some result };
}

impl RowList for Segments<Row> {
    ghost rows = { λ s. s.items };

    fn len(&self) -> usize {
        self.len()
    }

    fn row(&self, number: usize) -> RowRef<'_> {
        self.get(number).by_ref()
    }
}
