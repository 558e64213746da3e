ghost use Rattle.std.specs.Prelude.{◌≡◌, IfOk};

use item_rows::BookRow;
use std::alloc::{AllocError, Global};

/// Another list of the same rows. It fails only where memory runs out.
pub(crate) fn share_rows(alloc: Global, rows: &[BookRow]) -> Result<Vec<BookRow>, AllocError>
    ensures { IfOk result (λ shared. shared.items ≡ rows.now) }
{
    let mut list = Vec::with_capacity(alloc, rows.len())?;
    for row in rows {
        list.push(row.share()?)?;
    }
    Ok(list)
}
