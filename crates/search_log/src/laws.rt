ghost use Rattle.search_log.specs.ExampleLog.{ExampleLog};
ghost use Rattle.search_log.specs.LogLaws.{LoggedLinesAreImplied, GoodLogIsCut, GoodWithMoreRows, GoodWithOneMoreLine, GoodWithOneMoreSegment};

/// A good log stays good where more rows are known.
pub fn good_with_more_rows()
    ensures { GoodWithMoreRows }
{}

/// A good log stays good with one more line that is good from its lines.
pub fn good_with_one_more_line()
    ensures { GoodWithOneMoreLine }
{}

/// A good log stays good where its last line is published, as a row above all that were known.
pub fn good_with_one_more_segment()
    ensures { GoodWithOneMoreSegment }
{}

/// A good log stays good without its last lines, where they stand behind the end of its last
/// segment.
pub fn good_log_is_cut()
    ensures { GoodLogIsCut }
{}

/// Where the rows are implied, no assignment that meets the imperative records and has the literals
/// of a good log's line costs less than the line's tag.
pub fn good_lines_are_implied()
    ensures { LoggedLinesAreImplied }
{}

/// A log of five lines is good, and with a change of each kind it isn't.
pub fn example_log()
    ensures { ExampleLog }
{}
