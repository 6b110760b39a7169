// The calls of a source or a sink in memory, of which some are to fail.
ghost use Rattle.std.specs.Prelude.{◌≡◌};
ghost use Rattle.fapp_io.specs.Calls.{fails_next};
ghost use Rattle.fapp_io.specs.Counts.{next_count};

/// The numbers of the calls that fail, and how many calls there were.
#[derive(Drop)]
pub struct Calls {
    fails: Vec<u64>,
    made: u64,
}

impl Calls {
    /// No call so far. Those with these numbers are to fail; the first is number 1.
    pub fn new(fails: Vec<u64>) -> Self
        ensures { result ≡ record { fails = fails; made = 0 } }
    {
        Calls { fails, made: 0 }
    }

    /// Counts one call more, and answers whether it is to fail.
    pub fn next_fails(&mut self) -> bool
        ensures answer { result ≡ fails_next self.old.fails.items self.old.made }
        ensures counted { self.new ≡ record self.old { made = next_count self.old.made } }
    {
        let number = self.made.saturating_add(1);
        let fails = self.made < u64::MAX && self.fails.contains(&number);
        self.made = number;
        fails
    }
}
