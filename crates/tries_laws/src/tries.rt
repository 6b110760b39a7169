ghost use Rattle.tries_laws.specs.TriesLaws.{OneNumberOfTries, TriesAtMostPrefixes, TriesByNext, TriesCountPrefixes};

/// A prefix has one number of tries at a tag.
pub fn one_number_of_tries()
    ensures { OneNumberOfTries }
{}

/// Prefixes that are not dead, with each the ones before it, are at most as many as the tries.
pub fn tries_count_prefixes()
    ensures { TriesCountPrefixes }
{}

/// Tries are at most as many as the prefixes that go on.
pub fn tries_at_most_prefixes()
    ensures { TriesAtMostPrefixes }
{}

/// The tries of a prefix by those of the choices of the next path.
pub fn tries_by_next()
    ensures { TriesByNext }
{}
