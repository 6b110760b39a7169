ghost use Rattle.dead_laws.specs.ImpliedLaws.{ImpliedAtGreater, ImpliedAtLowerTags, ImpliedByBranch, ImpliedInExtensions, NoneAtTop};

/// What is implied at a tag is implied at each lower one.
pub fn implied_at_lower_tags()
    ensures { ImpliedAtLowerTags }
{}

/// What is implied at two tags is implied at the greater of them.
pub fn implied_at_greater()
    ensures { ImpliedAtGreater }
{}

/// What is implied for some literals is implied for more.
pub fn implied_in_extensions()
    ensures { ImpliedInExtensions }
{}

/// What is implied with each choice of a path is implied without.
pub fn implied_by_branch()
    ensures { ImpliedByBranch }
{}

/// Where literals are implied at the top tag, no assignment that has them meets the imperative
/// records.
pub fn none_at_top()
    ensures { NoneAtTop }
{}
