//! Program files: what is read of them, which are refused, and what is written. `tools/dev/program_files.py` made
//! the header, and reads as many damaged files.

ghost use Rattle.std.specs.Prelude.{IsTrue};
ghost use Rattle.program_file.specs.Reading.{is_program_file};

use crate::damage::images::{FIRST_BYTE, flip};
use crate::tables::{all_hold, three};
use bytes::Bytes;
use machine_spec::Table;
use program_file::{
    FileFault, GivenProgram, Places, ProgramFile, fits, given_program, images_are_no_files,
    is_program_file, one_spelling, place_at, read, write,
};
use std::alloc::{AllocError, Global};
use std::process::Abort;
use std::test::*;

/// The header of a program of table 2 whose image has 32 bytes.
const HEADER: &[u8] = b"KLOG\x01\0\0\0\x02\0\0\0\x20\0\0\0";

/// The bytes of a program file: a header, the image of four slots, and lines, each with a semicolon at its end.
fn file_of(alloc: Global, header: &[u8], lines: &str) -> Option<Vec<u8>> {
    let mut bytes = Vec::from_slice(alloc, header).ok()?;
    bytes.extend_from_slice(FIRST_BYTE).ok()?;
    for byte in lines.bytes() {
        bytes.push(if byte == b';' { b'\n' } else { byte }).ok()?;
    }
    Some(bytes)
}

fn push_places(text: &mut String, places: &Places) -> Result<(), AllocError> {
    for place in &places.list {
        let slot = place.slot;
        write!(text, " {slot}=")?;
        text.push_str(place.text.as_str())?;
    }
    Ok(())
}

/// A program's table, the length of its image and its places.
fn shown(alloc: Global, table: u32, image: &Bytes, places: &Places) -> Result<String, AllocError> {
    let size = image.len();
    let mut text = format!(in alloc; "{table} {size}")?;
    push_places(&mut text, places)?;
    Ok(text)
}

/// Whether a program's file has these bytes.
fn is_written_so(alloc: Global, file: &ProgramFile, bytes: &[u8]) -> bool {
    if !fits(file) {
        return false;
    }
    match write(alloc, file) {
        Ok(written) => written.as_slice() == bytes,
        Err(_) => false,
    }
}

/// What a program file says, or its fault. None where it is written otherwise than it was read, or memory ran out.
fn said_by_file(alloc: Global, bytes: &Bytes) -> Option<String>
    requires { IsTrue (is_program_file bytes.now) }
{
    match read(alloc, bytes) {
        Ok(file) if is_written_so(alloc, &file, bytes) => {
            shown(alloc, file.table, &file.image, &file.places).ok()
        }
        Ok(_) => None,
        Err(fault) => format!(in alloc; "{fault}").ok(),
    }
}

/// The same of any bytes.
fn said(alloc: Global, bytes: &[u8]) -> Option<String> {
    let bytes = Bytes::copy_from_slice(alloc, bytes).ok()?;
    if is_program_file(&bytes) {
        said_by_file(alloc, &bytes)
    } else {
        String::from_str(alloc, "an image").ok()
    }
}

/// Whether bytes say this.
fn say(alloc: Global, bytes: &[u8], want: &str) -> Option<bool> {
    Some(said(alloc, bytes)?.as_str() == want)
}

/// Lines, each with a semicolon at its end, and what their file says.
static LINES: &str = "\
# rising slots
 | 2 32
0 a; | 2 32 0=a
3 route.c:7; | 2 32 3=route.c:7
0 a;1 b;3 c; | 2 32 0=a 1=b 3=c
# a place may have spaces and anything but a line feed
0 a b;2  x; | 2 32 0=a b 2= x
0 ä.c:1; | 2 32 0=ä.c:1
# no line feed at the end, or nothing before one
0 a | G4 Lines
0 a;1 b | G4 Lines
; | G4 Lines
0 a;; | G4 Lines
;0 a; | G4 Lines
# no place, or no slot
0; | G4 Lines
0 ; | G4 Lines
a; | G4 Lines
 a; | G4 Lines
 0 a; | G4 Lines
# another spelling of a slot
00 a; | G4 Lines
01 a; | G4 Lines
+1 a; | G4 Lines
-0 a; | G4 Lines
0x1 a; | G4 Lines
1. a; | G4 Lines
# a slot that the image lacks, that 32 bits can't hold, or that does not rise
4 a; | G4 Lines
4294967296 a; | G4 Lines
18446744073709551616 a; | G4 Lines
1 a;1 b; | G4 Lines
1 a;0 b; | G4 Lines
0 a;2 b;1 c; | G4 Lines
";

fn are_said(alloc: Global, row: &str) -> Option<bool> {
    let (lines, want) = row.split_once(" | ")?;
    say(alloc, &file_of(alloc, HEADER, lines)?, want)
}

#[test]
fn lines(rt: HostRuntime) {
    all_hold(&rt, LINES, |row| are_said(rt.alloc(), row));
}

/// Headers, which have more after them where the row says so, and what their file says.
static HEADERS: &str = "\
# what does not begin with the mark is an image
 | cut | an image
4b4c4f | cut | an image
4b4c4f67010000000200000020000000 | cut | an image
4b4c4f47 | cut | G1 Short
4b4c4f4701000000020000002000 | cut | G1 Short
4b4c4f4702000000040000002000 | cut | G1 Short
4b4c4f47010000000200000000000000 | cut | 2 0
4b4c4f47010000000200000001000000 | cut | G1 Short
4b4c4f470100000002000000ffffffff | whole | G1 Short
4b4c4f47010000000200000021000000 | whole | G1 Short
4b4c4f47010000000100000020000000 | whole | 1 32
4b4c4f47010000000200000020000000 | whole | 2 32
4b4c4f47010000000300000020000000 | whole | 3 32
4b4c4f47010000000000000020000000 | whole | G3 Table
4b4c4f47010000000400000020000000 | whole | G3 Table
4b4c4f47010000000001000020000000 | whole | G3 Table
4b4c4f470100000004000000ffffffff | whole | G3 Table
4b4c4f47000000000200000020000000 | whole | G2 Version
4b4c4f47020000000400000020000000 | whole | G2 Version
4b4c4f47010000010200000020000000 | whole | G2 Version
# the image's last bytes are taken for lines
4b4c4f4701000000020000001f000000 | whole | G4 Lines
";

fn is_said(alloc: Global, row: &str) -> Option<bool> {
    let (header, rest, want) = three(row)?;
    let header = hex::decode(alloc, header).ok()?;
    if rest == "whole" {
        say(alloc, &file_of(alloc, &header, "")?, want)
    } else {
        say(alloc, &header, want)
    }
}

#[test]
fn headers(rt: HostRuntime) {
    all_hold(&rt, HEADERS, |row| is_said(rt.alloc(), row));
}

/// The lines of the file that is damaged.
static DAMAGED: &str = "0 first.c:3;2 first.c:4;";

/// What a file says that was cut to this length.
fn answer_of_cut(length: usize) -> &'static str {
    match length {
        0..=3 => "an image",
        4..=47 => "G1 Short",
        48 => "2 32",
        60 => "2 32 0=first.c:3",
        72 => "2 32 0=first.c:3 2=first.c:4",
        _ => "G4 Lines",
    }
}

/// The first length to which a file is cut and says something else.
fn first_other_cut(alloc: Global, whole: &[u8]) -> Option<usize> {
    for length in 0..=whole.len() {
        let cut = whole.get(..length).unwrap_or(whole);
        if say(alloc, cut, answer_of_cut(length)) != Some(true) {
            return Some(length);
        }
    }
    None
}

#[test]
fn a_cut_file_is_refused(rt: HostRuntime) {
    let alloc = rt.alloc();
    let whole = file_of(alloc, HEADER, DAMAGED);
    assert!(rt; whole.is_some());
    let other = first_other_cut(alloc, &whole.unwrap_or(Vec::new(alloc)));
    assert!(rt; other.is_none(), "{other:?}");
}

/// Whether bytes are read as a program file, and written so. None where they are written otherwise.
fn is_read(alloc: Global, bytes: &[u8]) -> Option<bool> {
    let said = said(alloc, bytes)?;
    Some(!said.starts_with("G") && !said.starts_with("an"))
}

/// How many of the files with another byte at this place are read, or a change whose file is written otherwise.
fn change_one(alloc: Global, bytes: &mut [u8], place: usize) -> Result<u32, (usize, u8)> {
    let mut read = 0u32;
    for change in 1..=255u8 {
        flip(bytes, place, change);
        match is_read(alloc, bytes) {
            Some(true) => read = read.saturating_add(1),
            Some(false) => (),
            None => return Err((place, change)),
        }
        flip(bytes, place, change);
    }
    Ok(read)
}

/// The same of the files with one changed byte.
fn change_each(alloc: Global, bytes: &mut [u8]) -> Result<u32, (usize, u8)> {
    let mut read = 0u32;
    for place in 0..bytes.len() {
        read = read.saturating_add(change_one(alloc, bytes, place)?);
    }
    Ok(read)
}

/// `tools/dev/program_files.py changed` counts as many.
#[test]
fn a_changed_file_is_written_as_it_is_read(rt: HostRuntime) {
    let alloc = rt.alloc();
    let whole = file_of(alloc, HEADER, DAMAGED);
    assert!(rt; whole.is_some());
    let mut whole = whole.unwrap_or(Vec::new(alloc));
    let read = change_each(alloc, whole.as_mut_slice());
    assert!(rt; read == Ok(10_562), "{read:?}");
}

fn number_of(table: Table) -> u32 {
    match table {
        Table::One => 1,
        Table::Two => 2,
        Table::Three => 3,
    }
}

fn answer_of(alloc: Global, given: Result<GivenProgram, FileFault>) -> Result<String, AllocError> {
    match given {
        Ok(program) => shown(
            alloc,
            number_of(program.table),
            &program.image,
            &program.places,
        ),
        Err(fault) => format!(in alloc; "{fault}"),
    }
}

fn table_of(word: &str) -> Option<Option<Table>> {
    match word {
        "-" => Some(None),
        "1" => Some(Some(Table::One)),
        "2" => Some(Some(Table::Two)),
        "3" => Some(Some(Table::Three)),
        _ => None,
    }
}

/// The table that is named, if one is; the table of a file, or an image; and the program that is taken.
static GIVEN: &str = "\
- | image | 1 32
1 | image | 1 32
2 | image | 2 32
- | 1 | 1 32 0=a
1 | 1 | 1 32 0=a
2 | 1 | G3 Table
- | 2 | 2 32 0=a
1 | 2 | G3 Table
2 | 2 | 2 32 0=a
- | 3 | 3 32 0=a
1 | 3 | G3 Table
2 | 3 | G3 Table
3 | 3 | 3 32 0=a
3 | 1 | G3 Table
3 | 2 | G3 Table
- | 4 | G3 Table
";

/// What a row gives: an image, or the file of a table.
fn given_bytes(alloc: Global, word: &str) -> Option<Vec<u8>> {
    if word == "image" {
        return Vec::from_slice(alloc, FIRST_BYTE).ok();
    }
    let mut bytes = file_of(alloc, HEADER, "0 a;")?;
    let table = bytes.get_mut(8)?;
    *table = word.parse().ok()?;
    Some(bytes)
}

fn is_taken(alloc: Global, row: &str) -> Option<bool> {
    let (named, given, want) = three(row)?;
    let named = table_of(named)?;
    let bytes = Bytes::from_vec(given_bytes(alloc, given)?).ok()?;
    let answer = answer_of(alloc, given_program(alloc, named, bytes)).ok()?;
    Some(answer.as_str() == want)
}

#[test]
fn given_programs(rt: HostRuntime) {
    all_hold(&rt, GIVEN, |row| is_taken(rt.alloc(), row));
}

/// Lines, a slot, and the place from which the instruction at the slot comes.
static PLACES: &str = "\
# no line is one of a slot up to this one
 | 0 | -
1 a; | 0 | -
3 a; | 2 | -
# the last one up to it
0 a; | 0 | a
0 a; | 3 | a
0 a;1 b; | 0 | a
0 a;1 b; | 1 | b
0 a;1 b; | 2 | b
0 a;2 b; | 1 | a
0 a;2 b;3 c; | 2 | b
0 a;2 b;3 c; | 3 | c
0 a;2 b;3 c; | 16384 | c
1 route.c:7; | 1 | route.c:7
";

fn is_place_at(alloc: Global, row: &str) -> Option<bool> {
    let (lines, slot, want) = three(row)?;
    let bytes = Bytes::from_vec(file_of(alloc, HEADER, lines)?).ok()?;
    let given = given_program(alloc, None, bytes).ok()?;
    let place = place_at(&given.places, slot.parse().ok()?);
    Some(place.unwrap_or("-") == want)
}

#[test]
fn places(rt: HostRuntime) {
    all_hold(&rt, PLACES, |row| is_place_at(rt.alloc(), row));
}

#[test]
fn a_program_has_one_file(_rt: HostRuntime) {
    one_spelling();
    images_are_no_files();
}
