ghost use Rattle.std.specs.Prelude.{ℕ};
ghost use Rattle.best_word.specs.Bound.{IsBestWord, Words};
ghost use Rattle.best_word.specs.Seats.{IsLeastOffer};

/// Between any two steps, of however many seats in whatever order, the word is the least tag that
/// was offered, or the top tag where none was.
pub fn word_is_least_offered()
    ensures { (levels : ℕ) (s : Words) → IsBestWord levels s → IsLeastOffer levels s }
{}
