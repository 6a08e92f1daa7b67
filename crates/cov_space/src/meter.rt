ghost use Rattle.std.specs.Prelude.{◌≡◌};
ghost use Rattle.cov_space.specs.Meters.{told};

use crate::space::Space;
use std::marker::Model;

/// Carries a refusal to a caller that does not hold the Space. No call takes memory.
#[derive(Debug, Drop)]
pub struct Meter {
    count: u64,
    levels: u16,
    budget: u32,
}

impl Model for Meter {
    ghost use Rattle.cov_space.specs.Meters.{MeterOf};

    ghost Value = { MeterOf };

    ghost view = { λ m. record { count = m.count; levels = m.levels; budget = m.budget } };
}

impl Meter {
    /// A meter that was told of no refusal.
    pub fn new() -> Meter
        ensures { result ≡ record { count = 0; levels = 0; budget = 0 } }
    {
        Meter {
            count: 0,
            levels: 0,
            budget: 0,
        }
    }

    /// Notes the levels and the budget of a Space that refused an operation.
    pub fn tell(&mut self, sp: &Space)
        ensures { self.new ≡ told self.old sp.now }
    {
        if sp.refused() > 0 {
            self.count = self.count.saturating_add(1);
            self.levels = sp.levels();
            self.budget = sp.budget();
        }
    }

    /// How often it was told of a Space that refused. It stays at its last value.
    pub fn count(&self) -> u64
        ensures { result ≡ self.now.count }
    {
        self.count
    }

    /// The levels of the last Space that refused, of which it was told.
    pub fn levels(&self) -> u16
        ensures { result ≡ self.now.levels }
    {
        self.levels
    }

    /// The budget of the last Space that refused, of which it was told.
    pub fn budget(&self) -> u32
        ensures { result ≡ self.now.budget }
    {
        self.budget
    }
}
