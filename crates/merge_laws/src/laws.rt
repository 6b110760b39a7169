ghost use Rattle.merge_laws.specs.MergedLaws.{GatheredLinesAreGood, MergedAnswerIsAccepted, MergedLinesAfterAreAccepted, MergedLinesAreAccepted, OneRootTag, RuleSettlesPrefixes, TreeLines};

/// The merged lines of good logs and of the jobs' outcomes are well formed and good, and end with a
/// line without literals at the verdict's tag. A line of the tag (0, 0, 0) cites nothing. They are
/// at most as many as the choices, the lists of choices of the first paths that prefixes name, the
/// Branch lines of the logs, and one.
pub fn merged_lines_are_accepted()
    ensures { MergedLinesAreAccepted }
{}

/// Merged lines behind old ones, of which rows may say some, are well formed and good, begin with
/// the old lines, and have a line without literals at the verdict's tag. There are at most so many
/// more of them.
pub fn merged_lines_after_are_accepted()
    ensures { MergedLinesAfterAreAccepted }
{}

/// Merged lines make an accepted answer, with any plan that has no fault for the verdict.
pub fn merged_answer_is_accepted()
    ensures { MergedAnswerIsAccepted }
{}

/// Where the verdict's tag is above the arcs' root tag, some job on each prefix is Refuted with at
/// least that tag.
pub fn rule_settles_prefixes()
    ensures { RuleSettlesPrefixes }
{}

/// The arc lines, then the segments of good logs by row, then the rests of the logs are good lines,
/// and whatever a line of a log or a row says has its line there, or needs none.
pub fn gathered_lines_are_good()
    ensures { GatheredLinesAreGood }
{}

/// The arcs of an instance have one root tag.
pub fn one_root_tag()
    ensures { OneRootTag }
{}

/// A tree has a line for each list of choices of its first paths.
pub fn tree_lines()
    ensures { TreeLines }
{}
