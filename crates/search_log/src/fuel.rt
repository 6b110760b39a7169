ghost use Rattle.std.specs.Prelude.{◌≡◌};
ghost use Rattle.search_log.specs.Fuels.{TakesTick};

use std::marker::Model;

/// How many ticks are left to a job. Contracts see the number.
#[derive(Debug, Drop)]
pub struct Fuel {
    amount: u64,
}

impl Model for Fuel {
    ghost use Rattle.std.specs.Prelude.{ℕ};

    ghost Value = { ℕ };

    ghost view = { λ fuel. fuel.amount };
}

impl Fuel {
    /// So many ticks.
    pub fn new(amount: u64) -> Fuel
        ensures { result ≡ amount }
    {
        Fuel { amount }
    }

    /// Takes one tick. It answers false exactly where none is left.
    pub fn take(&mut self) -> bool
        ensures { TakesTick self.old self.new result }
    {
        if self.amount == 0 {
            return false;
        }
        self.amount -= 1;
        true
    }

    /// The ticks that are left.
    pub fn left(&self) -> u64
        ensures { result ≡ self.now }
    {
        self.amount
    }
}
