ghost use Rattle.tries_laws.specs.LineLaws.{OneMostLines};
ghost use Rattle.tries_laws.specs.JobLaws.{AssignmentsHavePrefixes, DepthIsGreatest, JobsByNumber, PrefixesAreAll, TargetsAreTags};

/// A job's target is a tag.
pub fn targets_are_tags()
    ensures { TargetsAreTags }
{}

/// The depth is the greatest number of paths that have few enough ways to choose.
pub fn depth_is_greatest()
    ensures { DepthIsGreatest }
{}

/// The prefixes of jobs are all of the depth's length.
pub fn prefixes_are_all()
    ensures { PrefixesAreAll }
{}

/// Each assignment extends one prefix of the jobs.
pub fn assignments_have_prefixes()
    ensures { AssignmentsHavePrefixes }
{}

/// Jobs and their numbers.
pub fn jobs_by_number()
    ensures { JobsByNumber }
{}

/// The bound on lines is one number.
pub fn one_most_lines()
    ensures { OneMostLines }
{}
