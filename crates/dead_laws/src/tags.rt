ghost use Rattle.dead_laws.specs.TagLaws.{CostAgainstMode, CostsAreTags};

/// What an assignment costs is a tag.
pub fn costs_are_tags()
    ensures { CostsAreTags }
{}

/// What a tag asks of a feasible assignment that costs less.
pub fn cost_against_mode()
    ensures { CostAgainstMode }
{}
