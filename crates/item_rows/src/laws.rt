//! What a reader may doubt of rows.

ghost use Rattle.std.specs.Prelude.{◌≡◌, ℕ, List};
ghost use Rattle.log_spec.specs.declared.row.Row.{Row};
ghost use Rattle.log_spec.specs.Logs.{Item, IsRowsOf};

/// The rows of a log's first items are a function of the log: two lists that are the rows of the
/// same items are equal.
pub fn one_list_of_rows()
    ensures { (input output outputs : ℕ) (items : List Item) (n : ℕ) (one other : List Row)
        → IsRowsOf input output outputs items n one → IsRowsOf input output outputs items n other → one ≡ other }
{}
