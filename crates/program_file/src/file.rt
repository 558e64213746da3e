//! What a program file says.

use bytes::{ByteStr, Bytes};
use std::marker::Model;

/// Where the instructions from a slot on come from.
#[derive(Drop)]
pub struct Place {
    /// The slot, from 0.
    pub slot: u32,
    /// The place in a source file, as `route.c:7`.
    pub text: ByteStr,
}

/// Places by rising slots. A clause sees the list of them.
#[derive(Drop)]
pub struct Places {
    pub list: Vec<Place>,
}

impl Model for Places {
    ghost use Rattle.std.specs.Prelude.{List};
    ghost use Rattle.program_file.specs.declared.file.Place.{Place};

    ghost Value = { List Place };

    ghost view = { λ p. p.list.items };
}

/// A program as a program file has it.
#[derive(Drop)]
pub struct ProgramFile {
    /// The number of its helper table, 1 to 3.
    pub table: u32,
    /// Its image, which is not looked at here.
    pub image: Bytes,
    /// Where its slots come from.
    pub places: Places,
}
