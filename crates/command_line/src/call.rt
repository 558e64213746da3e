//! Calls of the program, and why words are none.

ghost use Rattle.std.specs.Prelude.{◌≡◌};
ghost use Rattle.command_line.specs.declared.call.Misuse.TheVariants.{Memory};

use batch_text::Listing;
use explain::Coverage;
use machine_spec::Table;
use std::alloc::AllocError;

/// What is asked of one program, with the names of its files.
#[derive(Clone, Copy)]
pub enum ImageCall<'a> {
    /// Writes the image of a text. Fields: the text, the image.
    Assemble(&'a str, &'a str),
    /// Writes the program file of a text of rules. Fields: the text, the program file.
    Compile(&'a str, &'a str),
    /// Verifies a program. Fields: its image or program file, the helper table that is named, if one is.
    Check(&'a str, Option<Table>),
    /// Prints the text of the image of a program.
    Disassemble(&'a str),
    /// Prints what the verifier knows of a program. Fields: as of `Check`, and how much is listed.
    Explain(&'a str, Option<Table>, Coverage),
}

/// A call of the program, with the names of its files.
#[derive(Clone, Copy)]
pub enum Call<'a> {
    /// Lists the calls of the program.
    Commands,
    /// Makes, verifies or prints an image.
    Image(ImageCall<'a>),
    /// Lists the batches or the records of a file.
    List(Listing, &'a str),
    /// Verifies the programs that a list names anew.
    Recheck(&'a str),
    /// Does the commands of a script.
    Run(&'a str),
    /// Runs a program on record batches. Fields: the helper table that is named, if one is, and the words:
    /// the image or program file, the file of the batches, and one file for each output partition, no two
    /// of them the same.
    Transform(Option<Table>, &'a [String]),
    /// Prints the version.
    Version,
}

/// Why words are no call.
#[derive(Clone, Copy)]
pub enum Misuse {
    /// They are no call of the program.
    Usage,
    /// Memory ran out.
    Memory,
}

impl From<AllocError> for Misuse {
    ghost from_gives = { λ _ e. e ≡ Memory };

    fn from(_e: AllocError) -> Misuse {
        Misuse::Memory
    }
}
