//! Bytes that may be null, by reference.

ghost use Rattle.std.specs.Prelude.{◌≡◌, option_map};

use bytes::Bytes;
use std::marker::Model;

/// The bytes of a key or a value, which may be null. A clause sees them, or `None`.
#[derive(Drop)]
pub struct NullableBytes<'a> {
    pub(crate) slice: Option<&'a [u8]>,
}

impl<'a> Model for NullableBytes<'a> {
    ghost use Rattle.std.specs.Prelude.{ℕ, List, Option, option_map};

    ghost Value = { Option (List ℕ) };

    ghost view = { λ n. option_map (λ s. s.now) n.slice };
}

impl<'a> NullableBytes<'a> {
    /// These bytes.
    #[inline(always)]
    pub fn new(slice: Option<&'a [u8]>) -> NullableBytes<'a>
        ensures { result ≡ option_map (λ s. s.now) slice.entry }
    {
        NullableBytes { slice }
    }

    /// The bytes of a shared buffer.
    #[inline(always)]
    pub fn of(bytes: &'a Option<Bytes>) -> NullableBytes<'a>
        ensures { result ≡ bytes.now }
    {
        match bytes {
            Some(bytes) => NullableBytes {
                slice: Some(bytes.as_slice()),
            },
            None => NullableBytes { slice: None },
        }
    }

    /// The slice, or `None` for null.
    #[inline(always)]
    pub fn as_slice(&self) -> Option<&'a [u8]>
        ensures { option_map (λ s. s.now) result ≡ self.now }
    {
        self.slice
    }
}
