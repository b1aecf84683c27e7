//! A count of steps.

ghost use Rattle.std.specs.Prelude.{◌≡◌, ◌+◌, ◌^◌, ◌<◌};

use std::marker::Model;

/// How many steps were used. Contracts see the number.
#[derive(Debug)]
pub struct Ticks {
    count: u64,
}

impl Drop for Ticks {
    fn drop(self) {
        let Ticks { count: _ } = self;
    }
}

impl Model for Ticks {
    ghost use Rattle.std.specs.Prelude.{ℕ};

    ghost Value = { ℕ };

    ghost view = { λ t. t.count };
}

impl Ticks {
    /// No step yet.
    pub fn new() -> Ticks
        ensures { result ≡ 0 }
    {
        Ticks { count: 0 }
    }

    /// Adds so many steps. The sum has to fit into 64 bits.
    pub fn add(&mut self, n: u64)
        requires { self.old + n < 2 ^ 64 }
        ensures { self.new ≡ self.old + n }
    {
        self.count += n;
    }

    /// How many steps there were.
    pub fn count(&self) -> u64
        ensures { result ≡ self.now }
    {
        self.count
    }
}
