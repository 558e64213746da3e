//! The bytes that a program names by address.
ghost use Rattle.std.specs.Prelude.{◌≡◌, length, IfOk};
ghost use Rattle.helpers.specs.Pieces.{piece_bytes, IsPiece};

use crate::parts::text;
use bytes::Bytes;
use kafka_record::RecordRef;
use std::alloc::{AllocError, Global};

/// Where bytes are that a program emits.
#[derive(Clone, Copy, Debug)]
pub enum Piece<'a> {
    /// In the record's key, from the first place on and before the second.
    Key(usize, usize),
    /// In the record's value.
    Value(usize, usize),
    /// In the program's stack.
    Stack(&'a [u8]),
}

impl<'a> Piece<'a> {
    /// How many bytes there are.
    pub fn length(self, given: &RecordRef) -> usize
        requires { IsPiece given.now self }
        ensures { result ≡ length (piece_bytes given.now self.entry) }
    {
        match self {
            Piece::Key(start, end) => end - start,
            Piece::Value(start, end) => end - start,
            Piece::Stack(bytes) => bytes.len(),
        }
    }

    /// The bytes, where they are.
    pub fn slice(self, given: &RecordRef<'a>) -> &'a [u8]
        requires { IsPiece given.now self }
        ensures { result.now ≡ piece_bytes given.now self.entry }
    {
        match self {
            Piece::Key(start, end) => &text(&given.key())[start..end],
            Piece::Value(start, end) => &text(&given.value())[start..end],
            Piece::Stack(bytes) => bytes,
        }
    }

    /// The bytes: a slice of the record's own buffer, or a copy of those in the stack. It fails only
    /// where memory runs out.
    pub fn bytes(self, alloc: Global, given: &RecordRef) -> Result<Bytes, AllocError>
        requires { IsPiece given.now self }
        ensures { IfOk result (λ bytes. bytes ≡ piece_bytes given.now self.entry) }
    {
        match self {
            Piece::Key(start, end) => given.cut_key(start, end),
            Piece::Value(start, end) => given.cut_value(start, end),
            Piece::Stack(bytes) => Bytes::copy_from_slice(alloc, bytes),
        }
    }
}
