//! What a reader may doubt of a transform.

ghost use Rattle.transform.specs.Transforms.{AreRowsOfALog, ManyBatches};

/// The rows of batches of which the first begins at offset 0 are those of the log of the program's mark
/// and these batches.
pub fn rows_of_a_log()
    ensures { AreRowsOfALog }
{}

/// What each call of a transform is known to do says what many of them did: each output partition has
/// the rows of all batches that were pushed, in order and each once, in full batches but for the last.
pub fn many_batches()
    ensures { ManyBatches }
{}
