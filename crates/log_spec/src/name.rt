ghost use Rattle.std.specs.Prelude.{◌≡◌, ◌<◌, ◌≤◌, ◌↔◌, length, IfSome, IfNone, IsSome};

use crate::limits::MAX_NAME;
use arrayvec::ArrayString;
use std::marker::Model;

/// A text that a load is asked to take as a program's name, of any form and length. A clause sees it
/// as the bytes of its text.
#[derive(Drop)]
pub struct RawName {
    pub text: String,
}

impl Model for RawName {
    ghost use Rattle.std.specs.Prelude.{List, ℕ, string_bytes};

    ghost Value = { List ℕ };

    ghost view = { λ n. string_bytes n.text };
}

/// The name of a program: at most 32 bytes, which are in the value itself, so that a copy of it takes
/// no memory. A clause sees it as the bytes of its text.
#[derive(Drop)]
pub struct Name {
    pub text: ArrayString<MAX_NAME>,
}

impl Model for Name {
    ghost use Rattle.std.specs.Prelude.{List, ℕ};

    ghost Value = { List ℕ };

    ghost view = { λ n. n.text.bytes };
}

impl Name {
    /// The name of this text, `None` where it has more than 32 bytes.
    pub fn new(text: &str) -> Option<Name>
        ensures text { IfSome result (λ name. name ≡ text.now) }
        ensures fits { IsSome result ↔ (length text.now ≤ MAX_NAME) }
        ensures long { IfNone result (MAX_NAME < length text.now) }
    {
        let text = ArrayString::from(text).ok()?;
        Some(Name { text })
    }

    /// The same name.
    pub fn again(&self) -> Name
        ensures { result ≡ self.now }
    {
        Name { text: self.text }
    }
}
