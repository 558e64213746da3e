ghost use Rattle.row_batch.specs.FirstRows.{OneRowFits};
ghost use Rattle.row_batch.specs.OpenBatches.{ShownAlike};

/// A row within a record's limits always fits a batch, so a batch of rows never has none for want of
/// room.
pub fn one_row_fits()
    ensures { OneRowFits }
{}

/// A batch does not show where its rows' records came from.
pub fn shown_alike()
    ensures { ShownAlike }
{}
