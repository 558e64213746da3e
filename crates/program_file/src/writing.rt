//! From a program to the bytes of its file.

ghost use Rattle.std.specs.Prelude.{◌≡◌, ◌++◌, IsTrue, IfOk, OnOk};
ghost use Rattle.std.specs.Int.{w32, to_le_bytes};
ghost use Rattle.program_file.specs.Spelling.{fits, line_of, lines_of, spelling};

use crate::file::{Place, ProgramFile};
use crate::header::{MARK, VERSION};
use std::alloc::{AllocError, Global};

fn put_number(bytes: &mut Vec<u8>, number: u32) -> Result<(), AllocError>
    ensures { OnOk result (bytes.new.items ≡ bytes.old.items ++ to_le_bytes w32 number) }
{
    bytes.extend_from_slice(&number.to_le_bytes())
}

fn put_line(alloc: Global, bytes: &mut Vec<u8>, place: &Place) -> Result<(), AllocError>
    ensures { OnOk result (bytes.new.items ≡ bytes.old.items ++ line_of place.now) }
{
    let slot = place.slot;
    let text = format!(in alloc; "{slot} ")?;
    bytes.extend_from_slice(text.as_bytes())?;
    bytes.extend_from_slice(place.text.as_bytes())?;
    bytes.push(b'\n')?;
    Ok(())
}

fn put_lines(alloc: Global, bytes: &mut Vec<u8>, places: &[Place]) -> Result<(), AllocError>
    ensures { OnOk result (bytes.new.items ≡ bytes.old.items ++ lines_of places.now) }
{
    for place in places {
        put_line(alloc, bytes, place)?;
    }
    Ok(())
}

/// The bytes of a program's file. It fails only where memory runs out.
pub fn write(alloc: Global, file: &ProgramFile) -> Result<Vec<u8>, AllocError>
    requires { IsTrue (fits file.now) }
    ensures { IfOk result (λ bytes. bytes.items ≡ spelling file.now) }
{
    let mut bytes = Vec::new(alloc);
    bytes.extend_from_slice(&MARK)?;
    put_number(&mut bytes, VERSION)?;
    put_number(&mut bytes, file.table)?;
    put_number(&mut bytes, file.image.len() as u32)?;
    bytes.extend_from_slice(&file.image)?;
    put_lines(alloc, &mut bytes, &file.places.list)?;
    Ok(bytes)
}
