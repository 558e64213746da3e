//! What a call reads or writes.

/// What a call reads or writes: the file of a name, or a standard stream.
#[derive(Clone, Copy)]
pub enum Endpoint<'a> {
    /// The file of this name.
    File(&'a str),
    /// Standard input.
    Stdin,
    /// Standard output, which the call writes.
    Stdout,
    /// Standard output, which the call does not write.
    UnusedStdout,
}
