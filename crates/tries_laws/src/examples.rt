ghost use Rattle.tries_laws.specs.ExampleLaws.{FreeTries, MostPathsTries, OnePathJobs, SmallExampleOrder, ThreeAlikeJobs, TwoPathsTries};

/// The work order of four paths.
pub fn small_example_order()
    ensures { SmallExampleOrder }
{}

/// The jobs of one path with one choice.
pub fn one_path_jobs()
    ensures { OnePathJobs }
{}

/// The jobs of three paths with two choices each.
pub fn three_alike_jobs()
    ensures { ThreeAlikeJobs }
{}

/// The tries of two paths, of which one choice of the first leaves the second none.
pub fn two_paths_tries()
    ensures { TwoPathsTries }
{}

/// The tries of paths with one choice each and no record.
pub fn free_tries()
    ensures { FreeTries }
{}

/// The tries of the most paths with one choice each and no record.
pub fn most_paths_tries()
    ensures { MostPathsTries }
{}
