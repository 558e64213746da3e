//! What calls end with.

ghost use Rattle.std.specs.Prelude.{◌≡◌};
ghost use Rattle.commands.specs.Statuses.{code_of};

/// The status that a call ends with.
#[derive(Clone, Copy, PartialEq)]
pub enum Status {
    /// Everything was done.
    Done,
    /// What the call names is refused: an image, a line of a text, a list or a script, or a batch.
    Refused,
    /// The words are no call of the program.
    Usage,
    /// A file can't be read or written, there is no thread for a worker, or memory ran out.
    Failed,
}

impl Status {
    /// The number that the program exits with.
    pub fn code(self) -> u8
        ensures { result ≡ code_of self }
    {
        match self {
            Status::Done => 0,
            Status::Refused => 1,
            Status::Usage => 2,
            Status::Failed => 3,
        }
    }
}
