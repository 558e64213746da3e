//! The files of `asm`: the text that it reads and the image that it writes.

ghost use Rattle.std.specs.Prelude.{◌≡◌, ◌≢◌, ℕ, List, Some, true, false, IfOk, IfErr, IsOk, OnOk, OnErr, IfSome, IsUtf8, string_bytes};
ghost use Rattle.commands.specs.Files.{KeepsAll, KeepsBut};
ghost use Rattle.commands.specs.declared.reading.Unread.TheVariants as unread;

use crate::endpoint::Endpoint;
use crate::files::Files;
use crate::one_file::is_standard;
use crate::reading::{Unread, cause_of, read_file};
use std::alloc::Global;
use std::io;

/// The bytes of a text, which are UTF-8.
pub fn utf8(bytes: Vec<u8>) -> Result<String, Unread>
    ensures text { IfOk result (λ text. string_bytes text ≡ bytes.items) }
    ensures valid { IsUtf8 bytes.items → IsOk result }
    ensures err { IfErr result (λ cause. cause ≡ unread.File) }
{
    match String::from_utf8(bytes) {
        Ok(text) => Ok(text),
        Err(_) => Err(Unread::File),
    }
}

/// The whole text of a named file.
pub fn read_text<F: Files>(alloc: Global, files: &mut F, name: &str) -> Result<String, Unread>
    ensures read { (bytes : List ℕ) → F.bytes files.old name.now ≡ Some bytes → IfOk result (λ text. string_bytes text ≡ bytes) }
    ensures kept { KeepsAll (F.bytes files.old) (F.bytes files.new) }
{
    match read_file(alloc, files, name) {
        Ok(bytes) => utf8(bytes),
        Err(unread) => Err(unread),
    }
}

/// Whether an image is one file with its text, with standard input or with standard output.
fn is_shared<F: Files>(files: &F, text: &str, image: &str) -> io::Result<bool>
    ensures { F.tells ≡ true → IfOk result (λ same. same ≡ false → F.leads text.now ≢ F.leads image.now) }
{
    let output = Endpoint::File(image);
    Ok(files.are_one(output, Endpoint::File(text))? || is_standard(files, output)?)
}

/// Makes a named file hold the image of the text in another file; both are not one file. All files stay where it
/// fails, and else those that the image's name does not lead to.
pub fn write_image<F: Files>(
    files: &mut F,
    text: &str,
    image: &str,
    bytes: &[u8],
) -> Result<(), Unread>
    ensures held { OnOk result (IfSome (F.bytes files.new image.now) (λ known. known ≡ bytes.now)) }
    ensures kept { KeepsBut F.leads image.now (F.bytes files.old) (F.bytes files.new) }
    ensures failed { OnErr result (KeepsAll (F.bytes files.old) (F.bytes files.new)) }
    ensures apart { F.tells ≡ true → OnOk result (F.leads text.now ≢ F.leads image.now) }
{
    match is_shared(files, text, image) {
        Ok(false) => {}
        Ok(true) => return Err(Unread::File),
        Err(error) => return Err(cause_of(&error)),
    }
    match files.write(image, bytes) {
        Ok(()) => Ok(()),
        Err(error) => Err(cause_of(&error)),
    }
}
