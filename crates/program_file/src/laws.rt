//! What holds between programs and the bytes of their files.

ghost use Rattle.std.specs.Prelude.{◌≡◌, ◌↔◌, ◌<◌, ℕ, List, Ok, IsTrue, slice_index};
ghost use Rattle.machine_spec.specs.Image.{read_image};
ghost use Rattle.machine_spec.specs.declared.instruction.Placed.{Placed};
ghost use Rattle.program_file.specs.declared.file.ProgramFile.{ProgramFile};
ghost use Rattle.program_file.specs.Spelling.{fits, spelling};
ghost use Rattle.program_file.specs.Reading.{is_program_file, read_file};

/// Bytes are read as a program exactly where they are those of its file, so a program that fits has one
/// file, and a file one program.
pub fn one_spelling()
    // What is read is written so, and what is written so is read.
    ensures reads { (bytes : List ℕ) (file : ProgramFile) → ((i : ℕ) → slice_index bytes i < 256) → IsTrue (is_program_file bytes) → (read_file bytes ≡ Ok file) ↔ (IsTrue (fits file) × (bytes ≡ spelling file)) }
    // What is written begins as a program file.
    ensures begins { (file : ProgramFile) → IsTrue (is_program_file (spelling file)) }
{}

/// No image that has code begins as a program file, so what was taken as an image still is.
pub fn images_are_no_files()
    ensures { (image : List ℕ) (code : List Placed) → read_image image ≡ Ok code → ¬ IsTrue (is_program_file image) }
{}
