ghost use Rattle.dead_laws.specs.DeadLaws.{DeadAtLowerTags, DeadByArcsAndTestIsImplied, DeadByTest, DeadInExtensions, DeadIsDecided, DeadIsImplied, FullDeadIsImplied, JudgedDeadIsImplied, NoneWhereDeadAtTop};

/// What is judged dead is implied, whatever test stands for outside, where each choice that passes
/// it is implied.
pub fn judged_dead_is_implied()
    ensures { JudgedDeadIsImplied }
{}

/// What is judged dead with the choices outside the arcs and those that pass a test is implied,
/// where each choice that passes the test is implied.
pub fn dead_by_arcs_and_test_is_implied()
    ensures { DeadByArcsAndTestIsImplied }
{}

/// What is dead is implied.
pub fn dead_is_implied()
    ensures { DeadIsImplied }
{}

/// Where literals are dead at the top tag, no assignment that has them meets the imperative
/// records.
pub fn none_where_dead_at_top()
    ensures { NoneWhereDeadAtTop }
{}

/// What is dead at a tag is dead at each lower one.
pub fn dead_at_lower_tags()
    ensures { DeadAtLowerTags }
{}

/// For a literal of each path, dead and implied are one.
pub fn full_dead_is_implied()
    ensures { FullDeadIsImplied }
{}

/// What is dead for some literals is dead for more.
pub fn dead_in_extensions()
    ensures { DeadInExtensions }
{}

/// By a test of the arcs, what is dead is what is judged dead with the other choices outside.
pub fn dead_by_test()
    ensures { DeadByTest }
{}

/// A partial assignment is dead, or it isn't.
pub fn dead_is_decided()
    ensures { DeadIsDecided }
{}
