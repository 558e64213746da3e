ghost use Rattle.std.specs.Prelude.{◌≡◌, ◌<◌, ◌^◌};
ghost use Rattle.out_book.specs.Index.{counted};

use std::marker::Model;

/// Counts the places that a search looks at. Contracts see the number.
#[derive(Drop)]
pub struct Probes {
    count: u64,
}

impl Model for Probes {
    ghost use Rattle.std.specs.Prelude.{ℕ};

    ghost Value = { ℕ };

    ghost view = { λ p. p.count };
}

impl Probes {
    /// None so far.
    pub fn new() -> Probes
        ensures { result ≡ 0 }
    {
        Probes { count: 0 }
    }

    /// How many places were looked at; 2^64 - 1 also where there were more.
    pub fn count(&self) -> u64
        ensures number { result ≡ self.now }
        ensures range { result < 2 ^ 64 }
    {
        self.count
    }

    /// Counts one more.
    pub(crate) fn look(&mut self)
        ensures { self.new ≡ counted self.old 1 }
    {
        self.count = self.count.saturating_add(1);
    }
}
