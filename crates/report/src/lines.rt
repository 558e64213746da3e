//! The lines of a report that are no rows.

ghost use Rattle.std.specs.Prelude.{◌≡◌, IfOk, string_bytes};
ghost use Rattle.report.specs.Texts.{out_line, items_line, reject_line};

use std::alloc::{AllocError, Global};

/// The line that reports how many items of an input partition are done in an output partition, and how
/// many rows they have there.
pub(crate) fn out_text(
    alloc: Global,
    output: usize,
    input: usize,
    done: usize,
    rows: usize,
) -> Result<String, AllocError>
    ensures { IfOk result (λ text. string_bytes text ≡ out_line output input done rows) }
{
    format!(in alloc; "out {output} in {input} done {done} rows {rows}\n")
}

/// The line that reports how many of an input partition's items are done in every output partition, how
/// many records they have, on how many of these no program ran, and how many were kept.
pub(crate) fn items_text(
    alloc: Global,
    input: usize,
    items: usize,
    records: u64,
    unprogrammed: u64,
    kept: u64,
) -> Result<String, AllocError>
    ensures { IfOk result (λ text. string_bytes text ≡ items_line input items records unprogrammed kept) }
{
    format!(in alloc;
        "in {input} items {items} records {records} unprogrammed {unprogrammed} kept {kept}\n"
    )
}

/// The line that reports how many records of an input partition a code rejected.
pub(crate) fn reject_text(
    alloc: Global,
    input: usize,
    code: u64,
    count: u64,
) -> Result<String, AllocError>
    ensures { IfOk result (λ text. string_bytes text ≡ reject_line input code count) }
{
    format!(in alloc; "in {input} reject {code} count {count}\n")
}
